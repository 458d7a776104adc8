// The gaps on a field that requests reach from the empty one are exact (document 02, 2.8): theorems, and no code.
#![tactic(auto)]
