// What every request does: the types of an answer and of a step. The rules are the definitions of specs/.
#![tactic(auto)]

use field::Field;

// An answer (01, "The requests"): the number, 0 where the request is accepted; the aircraft, with its zone, its fix and its leader after the step; and whom a
// hold or an entry moved down beside it (02, 2.5).
#[derive(Clone, Copy)]
pub struct Answer {
    pub number: u16,
    pub aircraft: u16,
    pub zone: usize,
    pub fix: u8,
    pub leader: u16,
    pub along: u16,
}

// What a request yields: the answer, and the field after it.
#[derive(Clone, Copy)]
pub struct Stepped {
    pub answer: Answer,
    pub field: Field,
}
