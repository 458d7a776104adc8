// Why a missed approach always finds room at its side: theorems, and no code.
#![tactic(auto)]
