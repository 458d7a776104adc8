// Requests and steps back, any list of them from an empty field (document 02, 2.13): theorems, no code.
#![tactic(auto)]
