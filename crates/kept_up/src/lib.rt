// Document 02, 2.9: the index kept up by a request (specs/KeptUp.antt).
#![tactic(auto)]

ghost use Rattle.std.specs.Prelude.{◌≡◌, ◌≤◌};
ghost use Rattle.field.specs.Airspace.{side_of};
ghost use Rattle.kept_up.specs.KeptUp.{approach_to, hold_to, leads_to, place_in, led_to, moved_entry, moved_entries, descended_entry, descended_entries, without, arrived_at, kept_up};

use field::Sequence;
use field::airspace::side_of;
use field::zones::{AT_2000, BASE, FINAL, INTERMEDIATE, LATERAL, MISSED, RUNWAY};
use finder::{Entry, Index, with_entry};
use needs::may_approach;
use request::Request;

// A place of the index that nobody has.
const UNUSED: Entry = Entry {
    number: 0,
    zone: 0,
    place: 0,
};

// What a request asks of the field for the zone that it leads to: the zone of its aircraft and of the leader, how many are in the opposite base, at 3000
// and at 2000 of the zone's side, and the fix of the first of final.
#[derive(Clone, Copy)]
pub struct Situation {
    pub zone: u8,
    pub ahead: usize,
    pub across: usize,
    pub above: usize,
    pub below: usize,
    pub fix: u8,
}

impl Situation {
    // Kind 4: the zone that an approach leads to.
    #[tactic(auto, unfolding(crate::specs::KeptUp::approach_to))]
    fn approach_to(self, r: Request, s: Sequence) -> usize
        ensures { result ≡ approach_to self.zone s r.number self.ahead self.across }
    {
        let side = side_of(self.zone as usize) as usize;
        match self.zone {
            5..=6 => {
                if may_approach(s, r.number, self.ahead) && self.across <= 1 {
                    BASE + side
                } else {
                    AT_2000 + side
                }
            }
            _ => BASE + side,
        }
    }

    // Kind 11: the zone that a hold leads to.
    #[tactic(auto, unfolding(crate::specs::KeptUp::hold_to))]
    fn hold_to(self) -> usize
        ensures { result ≡ hold_to (side_of self.zone) self.above self.below }
    {
        let side = side_of(self.zone as usize) as usize;
        if self.above == 0 && self.below == 0 {
            AT_2000 + side
        } else {
            side
        }
    }

    // The zone that a request leads to in this situation, with the landing sequence.
    #[tactic(auto, unfolding(crate::specs::KeptUp::leads_to))]
    pub fn leads_to(self, r: Request, s: Sequence) -> usize
        ensures { result ≡ leads_to r.kind r self.zone s self.ahead self.across self.above self.below self.fix }
    {
        match r.kind {
            1 => side_of(r.side as usize) as usize,
            2 => LATERAL + side_of(r.side as usize) as usize,
            3 => AT_2000 + side_of(self.zone as usize) as usize,
            4 => self.approach_to(r, s),
            5 => INTERMEDIATE,
            6 => FINAL,
            10 => MISSED + side_of(self.fix as usize) as usize,
            11 => self.hold_to(),
            _ => RUNWAY,
        }
    }
}

// The place of who comes into a zone, by the place behind those who are there.
#[tactic(auto, unfolding(crate::specs::KeptUp::place_in))]
fn place_in(zone: u8, place: u8) -> u8
    ensures { result ≡ place_in zone place }
{
    if zone < 3 { 1 } else { place }
}

// The entry that says where an aircraft is after its request, by the zone that it leads to and the place behind those who are there.
#[tactic(auto, unfolding(crate::specs::KeptUp::led_to))]
pub fn led_to(kind: u8, number: u16, zone: u8, place: u8) -> Entry
    ensures { result ≡ led_to kind number zone place }
{
    match kind {
        8..=9 => Entry {
            number,
            zone: 0,
            place: 0,
        },
        _ => Entry {
            number,
            zone,
            place: place_in(zone, place),
        },
    }
}

// An entry after the head of a zone has moved to the place of another zone that the second entry says.
#[tactic(auto, unfolding(crate::specs::KeptUp::moved_entry))]
fn moved_entry(e: Entry, from: u8, to: Entry) -> Entry
    ensures { result ≡ moved_entry from to e }
{
    if e.number == to.number {
        to
    } else if e.zone == from && e.place > 1 {
        Entry {
            place: e.place - 1,
            ..e
        }
    } else {
        e
    }
}

// The index with each entry so after that.
fn moved_entries(index: Index, from: u8, to: Entry) -> Index
    ensures { result ≡ record { entries = moved_entries from to index.entries } }
{
    Index {
        entries: index.entries.map(|e| moved_entry(e, from, to)),
    }
}

// The index without the entry of a number.
fn without(index: Index, number: u16) -> Index
    ensures { result ≡ record { entries = without number index.entries } }
{
    let mut entries = index.entries;
    if let Some(k) = entries.iter().position(|e| e.number == number) {
        entries.copy_within(k + 1.., k);
        entries[4] = UNUSED;
    }
    Index { entries }
}

// An entry after who was at 3000 of a side has descended.
#[tactic(auto, unfolding(crate::specs::KeptUp::descended_entry))]
fn descended_entry(e: Entry, side: u8) -> Entry
    requires { side ≤ 2 }
    ensures { result ≡ descended_entry side e }
{
    if e.zone == side {
        Entry {
            zone: 2 + side,
            place: 1,
            ..e
        }
    } else {
        e
    }
}

// The index with each entry so after that.
fn descended_entries(index: Index, side: u8) -> Index
    requires { side ≤ 2 }
    ensures { result ≡ record { entries = descended_entries side index.entries } }
{
    Index {
        entries: index.entries.map(|e| descended_entry(e, side)),
    }
}

// The index after an aircraft has gone from the head of a zone, or from outside the field, to where an entry says.
fn arrived_at(index: Index, from: u8, to: Entry) -> Index
    ensures { result ≡ record { entries = arrived_at from to index.entries } }
{
    if from == 0 {
        with_entry(index, to)
    } else {
        moved_entries(index, from, to)
    }
}

// The same, where it may have left the field, or whoever was at 3000 has made room.
#[tactic(auto, unfolding(crate::specs::KeptUp::kept_up))]
pub fn kept_up(index: Index, from: u8, to: Entry) -> Index
    ensures { result ≡ kept_up from to index }
{
    match to.zone {
        0 => moved_entries(without(index, to.number), from, UNUSED),
        1..=2 => arrived_at(descended_entries(index, to.zone), from, to),
        _ => arrived_at(index, from, to),
    }
}
