// A descent from 3000 to 2000 on any field within the bounds: theorems, and no code.
#![tactic(auto)]
