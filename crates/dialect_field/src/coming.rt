// The field of a list (specs/Coming.antt). It need not be a field that requests reach: nothing of demand 3 is claimed of it, and somebody may be on
// it with nobody able to move.
ghost use Rattle.std.specs.Prelude.{◌≡◌, map};
ghost use Rattle.limits.specs.Limits.{fastest};
ghost use Rattle.request.specs.Input.{within};
ghost use Rattle.dialect_field.specs.Coming.{entry_in, is_placed, placed_from, list_allowed, fix_in, with_entry, built, not_built, answered, field_of_list};

use crate::Built;
use dialect::ListEntry;
use edits::{appended, with_sequence, with_tail, with_zone};
use field::airspace::{empty_field, entering, opposite, zone_of};
use field::{Field, Legs};
use finder::{Indexed, within_bounds_indexed};
use indexed::with_index;
use limits::FASTEST;
use playing::legs_in_miles;
use practice::{FileLegs, legs_allowed};
use refusals::Refusal;
use request::word;

// How many bytes an entry has.
const ENTRY: usize = 8;

// The most entries of a list.
const MOST: usize = 5;

// An entry by its eight bytes.
fn entry_in(bytes: &[u8; ENTRY]) -> ListEntry
    ensures { result ≡ entry_in bytes.now }
{
    ListEntry {
        number: word(bytes[0], bytes[1]),
        location: word(bytes[2], bytes[3]),
        place: word(bytes[4], bytes[5]),
        fix: word(bytes[6], bytes[7]),
    }
}

// Whether an entry's location is 1 to 4 and its place is this one.
#[tactic(auto, unfolding(crate::specs::Coming::is_placed))]
fn is_placed(e: ListEntry, place: usize) -> bool
    ensures { result ≡ is_placed e place }
{
    1 <= e.location && e.location <= 4 && e.place as usize == place
}

// Whether every entry's location is 1 to 4 and its place is its position.
fn all_placed(entries: &[[u8; ENTRY]]) -> bool
    ensures { result ≡ placed_from 1 (map entry_in entries.now) }
{
    for (i, bytes) in entries.iter().enumerate() {
        if !is_placed(entry_in(bytes), i + 1) {
            return false;
        }
    }
    true
}

// Whether a list is whole entries, no more than five, each with a location of 1 to 4 and its position as its place.
fn list_allowed(list: &[u8]) -> bool
    ensures { result ≡ list_allowed list.now }
{
    let (entries, part) = list.as_chunks::<ENTRY>();
    if part.len() != 0 {
        return false;
    }
    entries.len() <= MOST && all_placed(entries)
}

// Whether a speed is 1 to 512.
fn speed_allowed(speed: u16) -> bool
    ensures { result ≡ within 1 fastest speed }
{
    1 <= speed && speed <= FASTEST
}

// A fix as the field holds it; 0 for what is no side.
#[tactic(auto, unfolding(crate::specs::Coming::fix_in, field::specs::Airspace::is_side))]
fn fix_in(fix: u16) -> u8
    ensures { result ≡ fix_in fix }
{
    match fix {
        1 => 1,
        2 => 2,
        _ => 0,
    }
}

// The field with one of the list in its zone, at the end of the sequence.
#[tactic(auto, unfolding(crate::specs::Coming::with_entry))]
fn with_entry(f: Field, speed: u16, e: ListEntry) -> Field
    ensures { result ≡ with_entry f speed e }
{
    let zone = e.location as usize;
    let fix = fix_in(e.fix);
    let q = with_tail(zone_of(f, zone), entering(e.number, fix, speed, 1));
    let s = appended(f.sequence, e.number);
    with_sequence(with_zone(f, zone, q), s, opposite(fix))
}

// The field of every entry of a list, one after the other on the empty field.
fn built(legs: Legs, speed: u16, entries: &[[u8; ENTRY]]) -> Field
    ensures { result ≡ built legs speed (map entry_in entries.now) }
{
    let mut f = empty_field(legs);
    for bytes in entries {
        f = with_entry(f, speed, entry_in(bytes));
    }
    f
}

// A refusal's number, and a field with nobody on it.
#[tactic(auto, unfolding(crate::specs::Coming::not_built))]
fn not_built(number: u16) -> Built
    ensures { result ≡ not_built number }
{
    let none = FileLegs {
        base: 0,
        intermediate: 0,
        final_approach: 0,
        missed: 0,
    };
    Built {
        number,
        after: with_index(empty_field(legs_in_miles(none))),
    }
}

// The field of a list with its index, or why it is refused.
#[tactic(auto, unfolding(crate::specs::Coming::field_of_list, crate::specs::Coming::coming_number, refusals::specs::Refusals::number_of))]
fn field_or_refusal(legs: FileLegs, speed: u16, list: &[u8]) -> Result<Indexed, Refusal>
    ensures { answered result ≡ field_of_list legs speed list.now }
{
    if !legs_allowed(legs) {
        return Err(Refusal::LegOutOfRange);
    }
    if !speed_allowed(speed) {
        return Err(Refusal::AmountDoesNotFit);
    }
    if !list_allowed(list) {
        return Err(Refusal::NotInTheDialect);
    }
    let (entries, _) = list.as_chunks::<ENTRY>();
    let x = with_index(built(legs_in_miles(legs), speed, entries));
    if !within_bounds_indexed(x) {
        return Err(Refusal::BoundWouldBreak);
    }
    Ok(x)
}

// The field of a list lent as bytes, eight for each entry; 7 for a leg, then 4 for the speed, then 29 for the list, then 25 for a field that breaks a bound.
pub fn field_of_list(legs: FileLegs, speed: u16, list: &[u8]) -> Built
    ensures { result ≡ field_of_list legs speed list.now }
{
    match field_or_refusal(legs, speed, list) {
        Ok(after) => Built { number: 0, after },
        Err(refusal) => not_built(refusal.number()),
    }
}
