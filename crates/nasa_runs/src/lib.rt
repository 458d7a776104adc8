// Every run of NASA's landing model is one of the rules: theorems, and no code.
#![tactic(auto)]
