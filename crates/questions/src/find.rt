// Document 01, "The boxes" and refusals 12 to 14 and 22: where an aircraft is, and whom it follows.
ghost use Rattle.std.specs.Prelude.{◌≡◌, ◌∷◌, get_or};
ghost use Rattle.field.specs.Airspace as airspace;
ghost use Rattle.questions.specs.Find.{place_of, aircraft_at, fix_of, is_first, leader_of, leader_zone};

use crate::Place;
use field::airspace::{nobody, zone_of};
use field::{Aircraft, Field, Sequence, Zone};

// Where a number is on the field: the first zone that has it, and its first place there from 1; 0 and 0 where it is absent. It is laid into each
// caller: called, it would be handed a copy of the field.
#[inline(always)]
pub fn place_of(f: Field, number: u16) -> Place
    ensures { result ≡ place_of f number }
{
    let mut found = Place { zone: 0, place: 0 };
    'zones: for (i, q) in f.zones.iter().enumerate() {
        for (k, a) in q.queue().iter().enumerate() {
            if a.number == number {
                found = Place {
                    zone: i as u8 + 1,
                    place: k + 1,
                };
                break 'zones;
            }
        }
    }
    found
}

// Who stands at a place, from 1, of a zone's queue; nobody where there is none.
pub fn aircraft_in(q: Zone, place: usize) -> Aircraft
    ensures { result ≡ get_or (airspace.nobody ∷ airspace.queue_of q) place airspace.nobody }
{
    if place == 0 {
        return nobody();
    }
    match q.queue().get(place - 1) {
        Some(a) => *a,
        None => nobody(),
    }
}

// Who stands at a place, from 1, of a zone of the field; nobody where there is none.
pub fn aircraft_at(f: Field, zone: usize, place: usize) -> Aircraft
    ensures { result ≡ aircraft_at f zone place }
{
    aircraft_in(zone_of(f, zone), place)
}

// The fix of the aircraft with a number; 0 where it is absent. It is not laid into its callers: their stack would hold the field once more.
#[inline(never)]
pub fn fix_of(f: Field, number: u16) -> u8
    ensures { result ≡ fix_of f number }
{
    let at = place_of(f, number);
    let zone = at.zone as usize;
    if zone == 0 {
        return 0;
    }
    let q = f.zones[zone - 1];
    let a = aircraft_in(q, at.place);
    a.fix
}

// Whether a number is first in the sequence.
pub fn is_first(s: Sequence, number: u16) -> bool
    ensures { result ≡ is_first s number }
{
    s.order().first() == Some(&number)
}

// The number just ahead of a number in the sequence; 0 for the first, and for one that is not in it.
pub fn leader_of(s: Sequence, number: u16) -> u16
    ensures { result ≡ leader_of s number }
{
    let mut ahead = 0;
    for n in s.order() {
        if *n == number {
            return ahead;
        }
        ahead = *n;
    }
    0
}

// The zone of the leader; 0 where there is none.
pub fn leader_zone(f: Field, number: u16) -> usize
    ensures { result ≡ leader_zone f number }
{
    let s = f.sequence;
    let ahead = leader_of(s, number);
    if ahead == 0 {
        return 0;
    }
    let at = place_of(f, ahead);
    at.zone as usize
}
