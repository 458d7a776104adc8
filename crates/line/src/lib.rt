// A field as the landing order shows it, and the finite order that it stands for: theorems, and no code.
#![tactic(auto)]
