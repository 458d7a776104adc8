// Any list of requests from an empty field, demand 3 and exactness: definitions and theorems, and no code.
#![tactic(auto)]
