// The bytes of the state that a host lends: definitions and theorems, and the type.
#![tactic(auto)]

// The state in the host's memory.
pub type State = [u8; 15605];
