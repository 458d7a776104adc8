// Who keeps a number and a desk through every request, and what a list of one desk's requests is answered: theorems, no code.
#![tactic(auto)]
