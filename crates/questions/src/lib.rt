// The questions that the rules ask of a field: where an aircraft is and whom it follows; how many are where.
#![tactic(auto)]

pub mod counts;
pub mod find;

// Where an aircraft is: its zone, and its place in the zone's queue from 1. Zone 0 and place 0 where it is not on the field.
#[derive(Clone, Copy)]
pub struct Place {
    pub zone: u8,
    pub place: usize,
}
