// Twenty-seven moves are the most before the next entry or miss, and there is a session that uses them all (document 02, 2.14): theorems, and no code.
#![tactic(auto)]
