// The rules ask of numbers only which are equal and which are 0 (for change 2.10 of document 02): theorems, and no code.
#![tactic(auto)]
