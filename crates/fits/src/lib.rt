// Document 01, "The bounds", g: who fits a zone, the next fix and the legs (specs/Fits.antt).
#![tactic(auto)]

ghost use Rattle.std.specs.Prelude.{◌≡◌, ◌&&◌, cond, not, leb};
ghost use Rattle.limits.specs.Limits.{desks};
ghost use Rattle.leg.specs.Progress.{within_leg};
ghost use Rattle.field.specs.Airspace.{everywhere, is_flying_zone, queue_of, in_zone};
ghost use Rattle.field.specs.Lists.{every};
ghost use Rattle.fits.specs.Fits.{is_waiting, leg_fits, fits_zone, legal_legs, bound_g};

use field::airspace::{is_flying_zone, is_side, leg_of};
use field::zones::{FIRST_FLOWN, LAST_MISSED};
use field::{Aircraft, Field, Legs, Zone};
use leg::{Progress, legal, legal_after_miss, waited_within, within};
use limits::{DESKS, FASTEST};

// Whether a progress is waiting.
pub fn is_waiting(p: Progress) -> bool
    ensures { result ≡ is_waiting p }
{
    matches!(p, Progress::Waiting)
}

// Whether an own leg fits a zone: from 1/64 of a mile to the longest where a miss leads, and elsewhere equal to the zone's leg, 0 where no
// leg is flown.
#[tactic(auto, unfolding(crate::specs::Fits::leg_fits))]
pub fn leg_fits(legs: Legs, zone: usize, leg: f64) -> bool
    ensures { result ≡ leg_fits legs zone leg }
{
    if zone == FIRST_FLOWN || zone == LAST_MISSED {
        legal_after_miss(leg)
    } else {
        leg == leg_of(legs, zone)
    }
}

// Whether a number is a desk's.
fn is_desk(desk: u8) -> bool
    ensures { result ≡ (leb 1 desk && leb desk desks) }
{
    (1..=DESKS).contains(&u16::from(desk))
}

// Whether an aircraft flies within its own leg where the zone is flown in, and waits elsewhere.
fn flies_or_waits(zone: usize, a: Aircraft) -> bool
    ensures { result ≡ cond (is_flying_zone zone) (not (is_waiting a.progress) && within_leg a.progress a.leg) (is_waiting a.progress) }
{
    if is_flying_zone(zone) {
        !is_waiting(a.progress) && within(a.progress, a.leg)
    } else {
        is_waiting(a.progress)
    }
}

// Whether an aircraft of a zone has a side as fix, a speed from 1 to the highest, a desk, miles waited from 0 to the most and an own leg
// that fits, and flies within that leg where the zone is flown in and waits elsewhere.
#[tactic(auto, unfolding(crate::specs::Fits::fits_zone))]
pub fn fits_zone(legs: Legs, zone: usize, a: Aircraft) -> bool
    ensures { result ≡ fits_zone legs zone a }
{
    is_side(a.fix)
        && (1..=FASTEST).contains(&a.speed)
        && is_desk(a.desk)
        && waited_within(a.waited)
        && leg_fits(legs, zone, a.leg)
        && flies_or_waits(zone, a)
}

// Whether everyone in a zone's queue fits the zone.
fn zone_fits(legs: Legs, zone: usize, q: &Zone) -> bool
    ensures { result ≡ every (fits_zone legs zone) (queue_of q.now) }
{
    q.queue().iter().all(|a| fits_zone(legs, zone, *a))
}

// Whether everyone on the field fits their zone.
fn zones_fit(f: Field) -> bool
    ensures { result ≡ every (λ z. every (fits_zone f.legs z) (in_zone f z)) everywhere }
{
    for (i, q) in f.zones.iter().enumerate() {
        if !zone_fits(f.legs, i + 1, q) {
            return false;
        }
    }
    true
}

// Whether all four legs are from 1/64 of a mile to 64 miles.
#[tactic(auto, unfolding(crate::specs::Fits::legal_legs))]
pub fn legal_legs(legs: Legs) -> bool
    ensures { result ≡ legal_legs legs }
{
    legal(legs.missed) && legal(legs.base) && legal(legs.intermediate) && legal(legs.final_approach)
}

// Bound g: sides, speeds, miles, legs, and who flies.
#[tactic(auto, unfolding(crate::specs::Fits::bound_g))]
pub fn bound_g(f: Field) -> bool
    ensures { result ≡ bound_g f }
{
    zones_fit(f) && is_side(f.next) && legal_legs(f.legs)
}
