// The spacing along the path (document 02, 2.8): for each two neighbours of the landing sequence that are both on the approach, how much longer
// the follower's way to the threshold is than the leader's, and whether that is close or clear (specs/Gaps.antt).
#![tactic(auto)]

ghost use Rattle.std.specs.Prelude.{◌≡◌, ◌&&◌};
ghost use Rattle.field.specs.Airspace.{order_of};
ghost use Rattle.gaps.specs.Gaps.{to_go, way_of, gap_of, spacing_of, on_approach, no_pair, pair_of, pairs_in, pairs_listed, spacing_refused, legal_spacing, answered, gaps_of};

use bounds::within_bounds;
use field::zones::{FINAL, FIRST_BASE, INTERMEDIATE};
use field::{Field, Legs};
use leg::{of_sixty_fourths, remaining};
use questions::find::{aircraft_at, place_of};
use refusals::Refusal;

// The widest spacing that may be asked for, in 64ths of a mile.
const WIDEST: u16 = 512;

// Document 02's answer of a pair, with the gap in miles: under the spacing that was asked for, or not.
// A variant for each answer as document 02 names it, and no flag beside a gap.
#[derive(Clone, Copy)]
pub enum Spacing {
    Close(f64),
    Clear(f64),
}

// Two neighbours of the landing sequence, by number.
#[derive(Clone, Copy)]
pub struct Pair {
    pub leader: u16,
    pub follower: u16,
    pub spacing: Spacing,
}

// The answer of `gaps`: a number, 0 where it is not refused, and the first `count` of `pairs`, in sequence order.
// No Result: its parts are the numbers that the C interface is given.
#[derive(Clone, Copy)]
pub struct Spacings {
    pub number: u16,
    pub count: usize,
    pub pairs: [Pair; 3],
}

// The miles to the threshold from what is left of the leg of a zone of the approach: the legs that follow are added in order, each sum rounded once.
#[tactic(auto, unfolding(crate::specs::Gaps::to_go))]
fn to_go(legs: Legs, zone: usize, left: f64) -> f64
    ensures { result ≡ to_go legs zone left }
{
    match zone {
        FINAL => left,
        INTERMEDIATE => left + legs.final_approach,
        _ => left + legs.intermediate + legs.final_approach,
    }
}

// The miles to the threshold of the aircraft with a number.
#[tactic(auto, unfolding(crate::specs::Gaps::way_of))]
fn way_of(f: Field, number: u16) -> f64
    ensures { result ≡ way_of f number }
{
    let at = place_of(f, number);
    let zone = at.zone as usize;
    let a = aircraft_at(f, zone, at.place);
    to_go(f.legs, zone, remaining(a.progress, a.leg))
}

// How much longer the follower's way to the threshold is than the leader's, in miles, rounded once.
#[tactic(auto, unfolding(crate::specs::Gaps::gap_of))]
fn gap_of(f: Field, leader: u16, follower: u16) -> f64
    ensures { result ≡ gap_of f leader follower }
{
    way_of(f, follower) - way_of(f, leader)
}

// Whether a gap is close: under the spacing in 64ths of a mile.
#[tactic(auto, unfolding(crate::specs::Gaps::spacing_of))]
fn spacing_of(gap: f64, spacing: u16) -> Spacing
    ensures { result ≡ spacing_of gap spacing }
{
    if gap < of_sixty_fourths(spacing) {
        Spacing::Close(gap)
    } else {
        Spacing::Clear(gap)
    }
}

// Whether the aircraft with a number is on the approach, zones 9 to 12.
#[tactic(auto, unfolding(crate::specs::Gaps::on_approach))]
fn on_approach(f: Field, number: u16) -> bool
    ensures { result ≡ on_approach f number }
{
    let zone = place_of(f, number).zone as usize;
    FIRST_BASE <= zone && zone <= FINAL
}

// Whether two are both on the approach.
fn both_on_approach(f: Field, leader: u16, follower: u16) -> bool
    ensures { result ≡ (on_approach f leader && on_approach f follower) }
{
    on_approach(f, leader) && on_approach(f, follower)
}

// A place past the count: numbers 0, and clear with a gap of 0.
fn no_pair() -> Pair
    ensures { result ≡ no_pair }
{
    Pair {
        leader: 0,
        follower: 0,
        spacing: Spacing::Clear(0.0),
    }
}

// A pair with its gap.
#[tactic(auto, unfolding(crate::specs::Gaps::pair_of))]
fn pair_of(f: Field, spacing: u16, leader: u16, follower: u16) -> Pair
    ensures { result ≡ pair_of f spacing leader follower }
{
    Pair {
        leader,
        follower,
        spacing: spacing_of(gap_of(f, leader, follower), spacing),
    }
}

// The answer with a refusal's number and no pair.
#[tactic(auto, unfolding(crate::specs::Gaps::spacing_refused))]
pub fn spacing_refused(number: u16) -> Spacings
    ensures { result ≡ spacing_refused number }
{
    Spacings {
        number,
        count: 0,
        pairs: [no_pair(); 3],
    }
}

// The answer with every pair of the field.
fn pairs_listed(f: Field, spacing: u16) -> Spacings
    ensures { result ≡ pairs_listed (pairs_in f spacing (order_of f.sequence)) }
{
    let mut pairs = [no_pair(); 3];
    let mut count = 0;
    // The sequence is a local of its own: the whole field would be copied where it is lent.
    let s = f.sequence;
    for neighbours in s.order().windows(2) {
        let leader = neighbours[0];
        let follower = neighbours[1];
        if both_on_approach(f, leader, follower) {
            pairs[count] = pair_of(f, spacing, leader, follower);
            count += 1;
        }
    }
    Spacings {
        number: 0,
        count,
        pairs,
    }
}

// Whether a spacing is 1 to 512.
pub fn legal_spacing(spacing: u16) -> bool
    ensures { result ≡ legal_spacing spacing }
{
    1 <= spacing && spacing <= WIDEST
}

// The pairs of a field, or why a spacing or a field is refused.
#[tactic(auto, unfolding(crate::specs::Gaps::gaps_of, refusals::specs::Refusals::number_of))]
fn pairs_or_refusal(f: Field, spacing: u16) -> Result<Spacings, Refusal>
    ensures { answered result ≡ gaps_of f spacing }
{
    if !legal_spacing(spacing) {
        return Err(Refusal::AmountDoesNotFit);
    }
    if !within_bounds(f) {
        return Err(Refusal::BoundBroken);
    }
    Ok(pairs_listed(f, spacing))
}

// The spacing of each pair on the approach, in sequence order; 4 for a spacing that is not 1 to 512, then 10 for a field that breaks a bound.
pub fn gaps(f: Field, spacing: u16) -> Spacings
    ensures { result ≡ gaps_of f spacing }
{
    match pairs_or_refusal(f, spacing) {
        Ok(spacings) => spacings,
        Err(refusal) => spacing_refused(refusal.number()),
    }
}
