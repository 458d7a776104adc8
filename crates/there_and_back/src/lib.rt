// The classroom dialect (document 02, 2.12), there and back, and back and there: theorems, no code.
#![tactic(auto)]
