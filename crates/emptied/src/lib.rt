// The button on any field within the bounds, and held down on every field that requests reach (document 02, 2.6): theorems, no code.
#![tactic(auto)]
