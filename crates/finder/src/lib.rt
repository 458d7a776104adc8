// A table that goes with a field and says of every number on it in which zone and place it stands (specs/Finder.antt).
#![tactic(auto)]

ghost use Rattle.std.specs.Prelude.{◌≡◌};
ghost use Rattle.field.specs.Airspace.{queue_of};
ghost use Rattle.finder.specs.Finder.{unused, is_before, first_of, second_of, put_among, put_each, entries_from, index_of, found_in, within_bounds_indexed};

use bounds::within_bounds;
use field::{Field, Zone};
use questions::Place;

// One place of the index: a number, its zone, and its place in the zone's queue from 1. An unused place is all zero.
#[derive(Clone, Copy, Debug, PartialEq, Eq)]
pub struct Entry {
    pub number: u16,
    pub zone: u8,
    pub place: u8,
}

// The index: five places in order of number, the unused ones last.
#[derive(Clone, Copy, Debug, PartialEq, Eq)]
pub struct Index {
    pub entries: [Entry; 5],
}

// A field with an index beside it.
#[derive(Clone, Copy)]
pub struct Indexed {
    pub field: Field,
    pub index: Index,
}

// An unused place.
pub fn unused() -> Entry
    ensures { result ≡ unused }
{
    Entry {
        number: 0,
        zone: 0,
        place: 0,
    }
}

// Whether an entry stands before another.
#[tactic(auto, unfolding(crate::specs::Finder::is_before))]
fn is_before(a: Entry, b: Entry) -> bool
    ensures { result ≡ is_before a b }
{
    a.number != 0 && (b.number == 0 || a.number < b.number)
}

// Of two entries the one that stands first.
#[tactic(auto, unfolding(crate::specs::Finder::first_of))]
fn first_of(a: Entry, b: Entry) -> Entry
    ensures { result ≡ first_of a b }
{
    if is_before(a, b) { a } else { b }
}

// Of two entries the one behind the first; of two with the same number an unused one.
#[tactic(auto, unfolding(crate::specs::Finder::second_of))]
fn second_of(a: Entry, b: Entry) -> Entry
    ensures { result ≡ second_of a b }
{
    if is_before(a, b) {
        b
    } else if a.number == b.number {
        unused()
    } else {
        a
    }
}

// The index with an entry put among its own.
pub fn with_entry(index: Index, e: Entry) -> Index
    ensures { result.entries ≡ put_among e index.entries }
{
    let mut entries = index.entries;
    let mut moved = e;
    for entry in &mut entries {
        if moved.number == 0 {
            break;
        }
        let here = *entry;
        *entry = first_of(moved, here);
        moved = second_of(moved, here);
    }
    Index { entries }
}

// The index with those of a queue put among its own, each with the zone and its place in the queue.
fn with_queue(index: Index, q: Zone, zone: u8) -> Index
    ensures { result.entries ≡ put_each (entries_from zone 1 (queue_of q)) index.entries }
{
    let mut made = index;
    for (i, a) in q.queue().iter().enumerate() {
        let e = Entry {
            number: a.number,
            zone,
            place: (i + 1) as u8,
        };
        made = with_entry(made, e);
    }
    made
}

// The index of a field, by one walk through its zones.
pub fn index_of(f: Field) -> Index
    ensures { result ≡ index_of f }
{
    let mut index = Index {
        entries: [unused(); 5],
    };
    for (i, q) in f.zones.iter().enumerate() {
        index = with_queue(index, *q, (i + 1) as u8);
    }
    index
}

// Where an index says that a number is; zone 0 and place 0 where it does not have the number, and for number 0.
pub fn find(index: Index, number: u16) -> Place
    ensures { result ≡ found_in index number }
{
    if number == 0 {
        return Place { zone: 0, place: 0 };
    }
    match index.entries.iter().find(|e| e.number == number) {
        Some(e) => Place {
            zone: e.zone,
            place: e.place as usize,
        },
        None => Place { zone: 0, place: 0 },
    }
}

// Whether a field is within the bounds, and the index beside it is its own.
pub fn within_bounds_indexed(x: Indexed) -> bool
    ensures { result ≡ within_bounds_indexed x }
{
    within_bounds(x.field) && x.index == index_of(x.field)
}
