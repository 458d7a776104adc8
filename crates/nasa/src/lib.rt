// The landing part of NASA's abstract model of the concept of operations (NASA/TM-2004-213006), and that the rules are its transitions: definitions and theorems, and no code.
#![tactic(auto)]
