// On legs in whole 64ths of a mile nothing is ever rounded: theorems, and no code.
#![tactic(auto)]
