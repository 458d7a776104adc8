// The classroom dialect (document 02, 2.12): a list in sequence order as a field.
#![tactic(auto)]

use finder::Indexed;

pub mod coming;

// The answer of `field_of_list`: a number, 0 where it is not refused, and the field that was built, with its index.
// No Result: the theorem `back_and_there` speaks of its number and its field.
#[derive(Clone, Copy)]
pub struct Built {
    pub number: u16,
    pub after: Indexed,
}
