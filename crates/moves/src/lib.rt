// What each kind of request does to the order that a field stands for: theorems, and no code.
#![tactic(auto)]
