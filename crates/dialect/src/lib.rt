// The classroom dialect (document 02, 2.12): a field as a list in sequence order.
#![tactic(auto)]

pub mod going;

// One of the list: a number, its location (the zone's number), its place in the landing sequence from 1, 0 on the runway, and its fix.
#[derive(Clone, Copy, Debug, Default, PartialEq, Eq)]
pub struct ListEntry {
    pub number: u16,
    pub location: u16,
    pub place: u16,
    pub fix: u16,
}

// The answer of `list_of`: a number, 0 where it is not refused, and the first `count` of `entries`, in sequence order.
// No Result: its parts are the numbers that the C interface is given.
#[derive(Clone, Copy)]
pub struct Listing {
    pub number: u16,
    pub count: usize,
    pub entries: [ListEntry; 5],
}
