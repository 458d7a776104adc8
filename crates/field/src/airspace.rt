// Document 01, "The boxes": sides, zones, queues, aircraft and the empty field.
ghost use Rattle.std.specs.Prelude.{◌≡◌};
ghost use Rattle.field.specs.Airspace.{is_side, opposite, side_of, is_flying_zone, nobody, empty_zone, zone_of, queue_length, order_length};
ghost use Rattle.field.specs.Airspace.{leg_of, progress_into, entering, on_leg, arrived, arrived_by_miss, given_fix, leg_flown_out, empty_field};

use crate::zones::{FINAL, FIRST_FLOWN, INTERMEDIATE, RUNWAY};
use crate::{Aircraft, Field, Legs, Sequence, Zone};
use leg::{Progress, flown_out, leg_after_miss};

// Whether a number is a side.
pub fn is_side(side: u8) -> bool
    ensures { result ≡ is_side side }
{
    side == 1 || side == 2
}

// The opposite side; 0 of what is no side.
pub fn opposite(side: u8) -> u8
    ensures { result ≡ opposite side }
{
    match side {
        1 => 2,
        2 => 1,
        _ => 0,
    }
}

// The side of a holding, lateral, missed or base zone.
pub fn side_of(zone: usize) -> u8
    ensures { result ≡ side_of zone }
{
    if zone % 2 == 1 { 1 } else { 2 }
}

// Whether a zone is flown in.
pub fn is_flying_zone(zone: usize) -> bool
    ensures { result ≡ is_flying_zone zone }
{
    (FIRST_FLOWN..=FINAL).contains(&zone)
}

// A place that is all zero and waiting.
pub fn nobody() -> Aircraft
    ensures { result ≡ nobody }
{
    Aircraft {
        number: 0,
        fix: 0,
        speed: 0,
        progress: Progress::Waiting,
        waited: 0.0,
        leg: 0.0,
        desk: 0,
    }
}

// A zone at length 0.
pub fn empty_zone() -> Zone
    ensures { result ≡ empty_zone }
{
    Zone {
        aircraft: [nobody(); 4],
        length: 0,
    }
}

// Zone `zone` of the field; an empty one where there is no such zone.
pub fn zone_of(f: Field, zone: usize) -> Zone
    ensures { result ≡ zone_of f zone }
{
    match zone {
        1..=RUNWAY => f.zones[zone - 1],
        _ => empty_zone(),
    }
}

// How many stand in the queue: its length, but no more than its four places.
pub fn queue_length(q: Zone) -> usize
    ensures { result ≡ queue_length q }
{
    q.queue().len()
}

// How many stand in the landing sequence: its length, but no more than its four places.
pub fn order_length(s: Sequence) -> usize
    ensures { result ≡ order_length s }
{
    s.order().len()
}

// The leg that belongs to a zone; 0 where no leg is flown.
pub fn leg_of(legs: Legs, zone: usize) -> f64
    ensures { result ≡ leg_of legs zone }
{
    // The zones of a side are a constant and the side, which is no pattern.
    match zone {
        7 | 8 => legs.missed,
        9 | 10 => legs.base,
        INTERMEDIATE => legs.intermediate,
        FINAL => legs.final_approach,
        _ => 0.0,
    }
}

// The progress with which a zone is entered.
pub fn progress_into(zone: usize) -> Progress
    ensures { result ≡ progress_into zone }
{
    if is_flying_zone(zone) {
        Progress::Flying(0.0)
    } else {
        Progress::Waiting
    }
}

// An aircraft as a desk lets it in, with nothing waited.
pub fn entering(number: u16, fix: u8, speed: u16, desk: u8) -> Aircraft
    ensures { result ≡ entering number fix speed desk }
{
    Aircraft {
        number,
        fix,
        speed,
        desk,
        ..nobody()
    }
}

// An aircraft with another progress and leg, and all else as it was.
pub fn on_leg(a: Aircraft, p: Progress, leg: f64) -> Aircraft
    ensures { result ≡ on_leg a p leg }
{
    Aircraft {
        progress: p,
        leg,
        ..a
    }
}

// An aircraft as it comes into a zone from another zone.
pub fn arrived(legs: Legs, zone: usize, a: Aircraft) -> Aircraft
    ensures { result ≡ arrived legs zone a }
{
    on_leg(a, progress_into(zone), leg_of(legs, zone))
}

// An aircraft of final as it comes into a zone by a miss.
pub fn arrived_by_miss(legs: Legs, zone: usize, a: Aircraft) -> Aircraft
    ensures { result ≡ arrived_by_miss legs zone a }
{
    let leg = leg_after_miss(legs.missed, a.progress, a.leg);
    on_leg(a, progress_into(zone), leg)
}

// An aircraft with another fix, and all else as it was.
pub fn with_fix(a: Aircraft, fix: u8) -> Aircraft
    ensures { result ≡ given_fix a fix }
{
    Aircraft { fix, ..a }
}

// Whether an aircraft has flown its own leg out.
pub fn leg_flown_out(a: Aircraft) -> bool
    ensures { result ≡ leg_flown_out a }
{
    flown_out(a.progress, a.leg)
}

// The field with nobody on it, the next fix right, and these legs.
pub fn empty_field(legs: Legs) -> Field
    ensures { result ≡ empty_field legs }
{
    Field {
        zones: [empty_zone(); 13],
        sequence: Sequence {
            numbers: [0; 4],
            length: 0,
        },
        next: 1,
        legs,
    }
}
