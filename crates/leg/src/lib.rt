// An aircraft's progress along one leg, in miles as an `f64`. A tick of `amount` 64ths of a minute at
// `speed` 64ths of a mile a minute adds (speed / 64) * (amount / 64) miles, but flies no further than the leg is long.
// Every function is total: on every `u16`, and on every `f64`, NaN and the infinities included.
#![tactic(auto)]

ghost use Rattle.std.specs.Prelude.{◌≡◌, ◌&&◌};
ghost use Rattle.std.specs.Float.Ieee.{le};
ghost use Rattle.leg.specs.Progress.{up_to, beyond, advancing, waited_after, waited_within, flown_out, remaining, leg_after_miss, within_leg, legal_leg, legal_leg_after_miss, sixty_fourths};

use limits::{LONGEST_LEG_MILES, LONGEST_OWN_LEG_MILES, MOST_WAITED};

// The progress of an aircraft (01, "The boxes"): it waits, or it flies and has flown these miles of its leg.
#[derive(Clone, Copy)]
pub enum Progress {
    Waiting,
    Flying(f64),
}

// What a tick yields of a flying aircraft: the miles flown after it, and the miles past the leg's end that it did not fly.
#[derive(Clone, Copy)]
pub struct Advanced {
    pub miles: f64,
    pub past: f64,
}

// The miles x, but no more than the limit. `f64::min` differs where the limit is a NaN.
fn up_to(limit: f64, x: f64) -> f64
    ensures { result ≡ up_to limit x }
{
    if x < limit { x } else { limit }
}

// What the miles x exceed the limit by, rounded once; 0 where they do not.
fn beyond(limit: f64, x: f64) -> f64
    ensures { result ≡ beyond limit x }
{
    if limit < x { x - limit } else { 0.0 }
}

// The miles flown after a tick, the product rounded once, the sum rounded once, and no more than the leg; and what the sum exceeds the leg by.
pub fn advance(miles: f64, speed: u16, amount: u16, leg: f64) -> Advanced
    ensures { result ≡ advancing miles speed amount leg }
{
    let step = (speed as f64 / 64.0) * (amount as f64 / 64.0);
    let sum = miles + step;
    Advanced {
        miles: up_to(leg, sum),
        past: beyond(leg, sum),
    }
}

// The miles waited with those past the end of a tick added, the sum rounded once, and no more than the most.
pub fn waited_after(waited: f64, past: f64) -> f64
    ensures { result ≡ waited_after waited past }
{
    up_to(MOST_WAITED, waited + past)
}

// Whether the miles waited lie from 0 to the most.
pub fn waited_within(waited: f64) -> bool
    ensures { result ≡ waited_within waited }
{
    0.0 <= waited && waited <= MOST_WAITED
}

// Whether the leg is flown out: the miles equal its length.
pub fn flown_out(p: Progress, leg: f64) -> bool
    ensures { result ≡ flown_out p leg }
{
    match p {
        Progress::Waiting => false,
        Progress::Flying(miles) => miles == leg,
    }
}

// What is left of the leg, the difference rounded once; all of it for one that waits.
pub fn remaining(p: Progress, leg: f64) -> f64
    ensures { result ≡ remaining p leg }
{
    match p {
        Progress::Waiting => leg,
        Progress::Flying(miles) => leg - miles,
    }
}

// The own leg after a miss: the missed leg and what is left of final, the sum rounded once.
pub fn leg_after_miss(missed: f64, p: Progress, final_leg: f64) -> f64
    ensures { result ≡ leg_after_miss missed p final_leg }
{
    missed + remaining(p, final_leg)
}

// Whether the miles flown, if any, lie from 0 to the leg's length.
pub fn within(p: Progress, leg: f64) -> bool
    ensures { result ≡ within_leg p leg }
{
    match p {
        Progress::Waiting => true,
        Progress::Flying(miles) => 0.0 <= miles && miles <= leg,
    }
}

// Whether a leg's length is from 1/64 of a mile to these miles.
fn leg_up_to(most: f64, leg: f64) -> bool
    ensures { result ≡ (le (sixty_fourths 1) leg && le leg most) }
{
    0.015625 <= leg && leg <= most
}

// Whether a leg's length is from 1/64 of a mile to the longest.
pub fn legal(leg: f64) -> bool
    ensures { result ≡ legal_leg leg }
{
    leg_up_to(LONGEST_LEG_MILES, leg)
}

// Whether the own leg after a miss is from 1/64 of a mile to the longest.
pub fn legal_after_miss(leg: f64) -> bool
    ensures { result ≡ legal_leg_after_miss leg }
{
    leg_up_to(LONGEST_OWN_LEG_MILES, leg)
}

// A leg of k 64ths of a mile.
pub fn of_sixty_fourths(k: u16) -> f64
    ensures { result ≡ sixty_fourths k }
{
    k as f64 / 64.0
}
