// What holds of a field with its index beside it, after a request and after any list of them: theorems, no code.
#![tactic(auto)]
