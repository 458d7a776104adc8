// Document 01, "The boxes" and "Any list of requests": how many are where, and for whom a side must keep room.
ghost use Rattle.std.specs.Prelude.{◌≡◌, cond, ◌-◌, ◌≤◌};
ghost use Rattle.field.specs.Airspace.{zones_from, queue_of, queue_length, area};
ghost use Rattle.field.specs.Lists.{is_in};
ghost use Rattle.questions.specs.Counts.{total, have_fix, how_many, is_empty, how_many_with_fix, present_on, in_operation, in_area, per_fix, approach_holds, potential_of};

use field::airspace::{queue_length, zone_of};
use field::zones::{AT_2000, FINAL, FIRST_BASE, LATERAL, MISSED, RUNWAY};
use field::{Field, Zone};

// How many of a queue have a fix.
fn have_fix(q: &Zone, fix: u8) -> usize
    ensures { result ≡ have_fix fix (queue_of q.now) }
{
    q.queue().iter().filter(|a| a.fix == fix).count()
}

// How many are in a zone.
pub fn how_many(f: Field, zone: usize) -> usize
    ensures { result ≡ how_many f zone }
{
    queue_length(zone_of(f, zone))
}

// Whether a zone is empty.
pub fn is_empty(f: Field, zone: usize) -> bool
    ensures { result ≡ is_empty f zone }
{
    how_many(f, zone) == 0
}

// How many are in the operation area.
pub fn in_operation(f: Field) -> usize
    ensures { result ≡ in_operation f }
{
    f.zones[..FINAL].iter().map(|q| q.queue().len()).sum()
}

// How many are in all thirteen zones: those in the operation area, and those on the runway.
pub fn present_on(f: Field) -> usize
    ensures { result ≡ present_on f }
{
    in_operation(f) + how_many(f, RUNWAY)
}

// How many are in a side's area.
pub fn in_area(f: Field, side: u8) -> usize
    ensures { result ≡ in_area f side }
{
    let s = side as usize;
    how_many(f, s) + how_many(f, AT_2000 + s) + how_many(f, LATERAL + s) + how_many(f, MISSED + s)
}

// How many in the zones from `first` to final have a side as fix.
fn with_fix_from(f: Field, side: u8, first: usize) -> usize
    requires le_first { 1 ≤ first }
    requires first_bound { first ≤ 12 }
    ensures { result ≡ total (how_many_with_fix f side) (zones_from first (13 - first)) }
{
    f.zones[first - 1..FINAL]
        .iter()
        .map(|q| have_fix(q, side))
        .sum()
}

// How many in the operation area have a side as fix.
pub fn per_fix(f: Field, side: u8) -> usize
    ensures { result ≡ per_fix f side }
{
    with_fix_from(f, side, 1)
}

// Whether anybody on the approach has a side as fix.
pub fn approach_holds(f: Field, side: u8) -> bool
    ensures { result ≡ approach_holds f side }
{
    with_fix_from(f, side, FIRST_BASE) != 0
}

// Whether a zone belongs to a side's area.
fn is_in_area(side: u8, zone: usize) -> bool
    ensures { result ≡ is_in zone (area side) }
{
    let s = side as usize;
    [s, AT_2000 + s, LATERAL + s, MISSED + s].contains(&zone)
}

// How many of a zone's queue count for a side: all of them in the side's area, and elsewhere those with the side as fix.
fn counted_in(q: &Zone, side: u8, zone: usize) -> usize
    ensures { result ≡ cond (is_in zone (area side)) (queue_length q.now) (have_fix side (queue_of q.now)) }
{
    if is_in_area(side, zone) {
        q.queue().len()
    } else {
        have_fix(q, side)
    }
}

// The potential number of a side.
pub fn potential_of(f: Field, side: u8) -> usize
    ensures { result ≡ potential_of f side }
{
    let mut n = 0;
    for (i, q) in f.zones[..FINAL].iter().enumerate() {
        n += counted_in(q, side, i + 1);
    }
    n
}
