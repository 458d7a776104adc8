// One desk's answers with steps back of either desk do not tell the numbers of the other desk's aircraft (changes 2.10 and 2.13 of document 02): theorems, no code.
#![tactic(auto)]
