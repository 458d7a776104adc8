// What one desk is answered does not tell the numbers of the other desk's aircraft (change 2.10 of document 02): theorems, and no code.
#![tactic(auto)]
