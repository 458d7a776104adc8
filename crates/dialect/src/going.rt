// The list of a field (specs/Going.antt).
ghost use Rattle.std.specs.Prelude.{◌≡◌};
ghost use Rattle.dialect.specs.Going.{list_entry, entries_of, in_dialect, no_entry, entries_listed, list_refused, answered, list_of};

use crate::{ListEntry, Listing};
use field::Field;
use field::zones::{INTERMEDIATE, LATERAL, RUNWAY};
use finder::{Indexed, within_bounds_indexed};
use questions::counts::is_empty;
use questions::find::{aircraft_at, fix_of, place_of};
use refusals::Refusal;

// The one with a number, at a place of the list.
#[tactic(auto, unfolding(crate::specs::Going::list_entry))]
fn entry_of(f: Field, number: u16, place: u16) -> ListEntry
    ensures { result ≡ list_entry f number place }
{
    ListEntry {
        number,
        location: place_of(f, number).zone as u16,
        place,
        fix: fix_of(f, number) as u16,
    }
}

// A place past the count: all zero.
pub fn no_entry() -> ListEntry
    ensures { result ≡ no_entry }
{
    ListEntry::default()
}

// The answer with a refusal's number and nobody listed.
#[tactic(auto, unfolding(crate::specs::Going::list_refused))]
pub fn list_refused(number: u16) -> Listing
    ensures { result ≡ list_refused number }
{
    Listing {
        number,
        count: 0,
        entries: [no_entry(); 5],
    }
}

// The answer with everyone of the sequence, and one on the runway behind them.
fn everyone(f: Field) -> Listing
    ensures { result ≡ entries_listed (entries_of f) }
{
    let mut entries = [no_entry(); 5];
    // The sequence is a local of its own: the whole field would be copied where it is lent.
    let s = f.sequence;
    let order = s.order();
    for (i, number) in order.iter().enumerate() {
        entries[i] = entry_of(f, *number, (i + 1) as u16);
    }
    let mut count = order.len();
    if !is_empty(f, RUNWAY) {
        let a = aircraft_at(f, RUNWAY, 1);
        entries[count] = entry_of(f, a.number, 0);
        count += 1;
    }
    Listing {
        number: 0,
        count,
        entries,
    }
}

// Whether nobody is in a lateral or the intermediate zone.
#[tactic(auto, unfolding(crate::specs::Going::in_dialect))]
fn in_dialect(f: Field) -> bool
    ensures { result ≡ in_dialect f }
{
    is_empty(f, LATERAL + 1) && is_empty(f, LATERAL + 2) && is_empty(f, INTERMEDIATE)
}

// The list of a field, or why it is refused.
#[tactic(auto, unfolding(crate::specs::Going::list_of, refusals::specs::Refusals::number_of))]
fn list_or_refusal(x: Indexed) -> Result<Listing, Refusal>
    ensures { answered result ≡ list_of x }
{
    if !within_bounds_indexed(x) {
        return Err(Refusal::BoundBroken);
    }
    if !in_dialect(x.field) {
        return Err(Refusal::NotInTheDialect);
    }
    Ok(everyone(x.field))
}

// The list of a field; 10 for a field that breaks a bound, then 29 where somebody is in a zone that the dialect lacks.
pub fn list_of(x: Indexed) -> Listing
    ensures { result ≡ list_of x }
{
    match list_or_refusal(x) {
        Ok(listing) => listing,
        Err(refusal) => list_refused(refusal.number()),
    }
}
