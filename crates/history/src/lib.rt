// A field with the eight fields before the last accepted requests, and one step back (specs/History.antt).
#![tactic(auto)]

ghost use Rattle.std.specs.Prelude.{◌≡◌, cond, eqb};
ghost use Rattle.refusals.specs.Refusals.{outcome_number};
ghost use Rattle.request.specs.Input.{input_number};
ghost use Rattle.rules.specs.Step.{number_and_zeros};
ghost use Rattle.history.specs.History.{start_with, start_of, kept_within_bounds, within_bounds_history, keeping, number_back, step_history, step_back};

use field::Legs;
use field::airspace::empty_field;
use finder::{Indexed, within_bounds_indexed};
use indexed::{step_indexed, with_index};
use limits::{DESKS, MOST_KEPT};
use refusals::{Refusal, require};
use request::{Range, Request, check_input, in_range};
use rules::Answer;
use step::number_and_zeros;

// A field with its index, the kept fields before the last accepted requests, oldest first, and how many of them count.
// The eight places and the count stand side by side, since a host's bytes have them so (crates/layout).
#[derive(Clone, Copy)]
pub struct History {
    pub now: Indexed,
    pub kept: [Indexed; 8],
    pub count: usize,
}

// The answer to a request or a step back, and the field with its kept ones after it.
#[derive(Clone, Copy)]
pub struct SteppedHistory {
    pub answer: Answer,
    pub after: History,
}

// A field with its index, with none kept.
pub fn start_with(x: Indexed) -> History
    ensures { result ≡ start_with x }
{
    let empty = with_index(empty_field(x.field.legs));
    History {
        now: x,
        kept: [empty; 8],
        count: 0,
    }
}

// The empty field with these legs, with none kept.
pub fn start(legs: Legs) -> History
    ensures { result ≡ start_of legs }
{
    start_with(with_index(empty_field(legs)))
}

// Whether at most eight kept fields count, and each of them is within the bounds.
fn kept_within_bounds(h: History) -> bool
    ensures { result ≡ kept_within_bounds h }
{
    let count = h.count;
    if count > MOST_KEPT {
        return false;
    }
    // Each is read by its index: where the array is lent, all eight are copied to the stack first.
    for i in 0..count {
        let x = h.kept[i];
        if !within_bounds_indexed(x) {
            return false;
        }
    }
    true
}

// Whether the kept fields and the field are within the bounds.
pub fn within_bounds_history(h: History) -> bool
    ensures { result ≡ within_bounds_history h }
{
    if !kept_within_bounds(h) {
        return false;
    }
    within_bounds_indexed(h.now)
}

// The field replaced by another and kept; where eight count, the oldest is dropped.
fn keep(h: History, next: Indexed) -> History
    ensures { result ≡ keeping h next }
{
    let before = h.now;
    let mut kept = h.kept;
    if h.count < MOST_KEPT {
        kept[h.count] = before;
        return History {
            now: next,
            kept,
            count: h.count + 1,
        };
    }
    kept.copy_within(1.., 0);
    kept[7] = before;
    History {
        now: next,
        kept,
        count: h.count,
    }
}

// The number and zeros, and what was handed in.
pub fn turned_away(h: History, number: u16) -> SteppedHistory
    ensures { result ≡ record { answer = number_and_zeros number; after = h } }
{
    SteppedHistory {
        answer: number_and_zeros(number),
        after: h,
    }
}

// Why a request is refused before it comes to the field: by itself, or by the bounds of the kept fields.
fn check_kept(h: History, r: Request) -> Result<(), Refusal>
    ensures { outcome_number result ≡ cond (eqb (input_number r) 0) (cond (kept_within_bounds h) 0 10) (input_number r) }
{
    check_input(r)?;
    require(kept_within_bounds(h), Refusal::BoundBroken)
}

// The step of a request: its answer, and the field with its kept ones after it.
pub fn step_history(h: History, r: Request) -> SteppedHistory
    ensures { result ≡ step_history h r }
{
    if let Err(refusal) = check_kept(h, r) {
        return turned_away(h, refusal.number());
    }
    // The contract of step_indexed, by which every list of requests is played, says its refusal as a number.
    let stepped = step_indexed(h.now, r);
    let answer = stepped.answer;
    let number = answer.number;
    if number != 0 {
        return turned_away(h, number);
    }
    SteppedHistory {
        answer,
        after: keep(h, stepped.after),
    }
}

// Why a step back by a desk is refused.
fn check_back(h: History, desk: u8) -> Result<(), Refusal>
    ensures { outcome_number result ≡ number_back h desk }
{
    require(
        in_range(Range(1, DESKS), desk as usize),
        Refusal::NoSuchDesk,
    )?;
    require(within_bounds_history(h), Refusal::BoundBroken)?;
    require(h.count != 0, Refusal::NothingToTakeBack)
}

// One step back by a desk: zeros, and the last kept field. It is not laid into its callers: their stack would hold its eight fields once more.
#[inline(never)]
pub fn step_back(h: History, desk: u8) -> SteppedHistory
    ensures { result ≡ step_back h desk }
{
    if let Err(refusal) = check_back(h, desk) {
        return turned_away(h, refusal.number());
    }
    let last = h.count - 1;
    let x = h.kept[last];
    SteppedHistory {
        answer: number_and_zeros(0),
        after: History {
            now: x,
            kept: h.kept,
            count: last,
        },
    }
}
