// The step of any request on any field (rules' specs/Step.antt).
#![tactic(auto)]

ghost use Rattle.std.specs.Prelude.{◌≡◌, cond, T, eqb};
ghost use Rattle.request.specs.Input.{within, first_refused};
ghost use Rattle.bounds.specs.Bounds.{within_bounds};
ghost use Rattle.rules.specs.Kinds.{zone_ahead};
ghost use Rattle.rules.specs.Step.{checks_of, effect_of, number_of, number_and_zeros, acceptance, acceptance_on, along_for, answer_of, step_of};
ghost use Rattle.step.specs.Outcomes.{JudgesBefore, JudgesAfter};

use bounds::within_bounds;
use effects::{effect, shown_at_3000, shown_to};
use field::Field;
use field::airspace::side_of;
use needs::check_needs;
use questions::Place;
use questions::find::{aircraft_at, leader_of, leader_zone, place_of};
use refusals::{Refusal, require};
use request::{Request, check_input};
use rules::{Answer, Stepped};

// The answer that has a number, and zeros.
pub fn number_and_zeros(number: u16) -> Answer
    ensures { result ≡ number_and_zeros number }
{
    Answer {
        number,
        aircraft: 0,
        zone: 0,
        fix: 0,
        leader: 0,
        along: 0,
    }
}

// The answer that accepts a request for an aircraft at a place, its leader at the place `ahead`, from the field after the step.
pub fn acceptance(f: Field, at: Place, ahead: Place, r: Request, along: u16) -> Answer
    ensures { result ≡ acceptance f at ahead r along }
{
    let a = aircraft_at(f, at.zone as usize, at.place);
    let b = aircraft_at(f, ahead.zone as usize, ahead.place);
    Answer {
        number: 0,
        aircraft: r.number,
        zone: at.zone as usize,
        fix: a.fix,
        leader: shown_to(r.desk, b),
        along,
    }
}

// The other aircraft that a request moves, whose own was in a zone, as its desk is shown it, from the field before the step; 0 where there is
// none.
pub fn along_of(f: Field, r: Request, zone: u8) -> u16
    ensures { result ≡ along_for r.kind f r zone }
{
    match r.kind {
        1 => shown_at_3000(f, r.desk, r.side),
        11 => shown_at_3000(f, r.desk, side_of(zone as usize)),
        _ => 0,
    }
}

// The answer to an accepted request, from the field after the step.
fn answer(g: Field, r: Request, along: u16) -> Answer
    ensures { result ≡ cond (eqb r.kind 12) (number_and_zeros 0) (acceptance_on g r along) }
{
    if r.kind == 12 {
        return number_and_zeros(0);
    }
    let ahead = leader_of(g.sequence, r.number);
    acceptance(g, place_of(g, r.number), place_of(g, ahead), r, along)
}

// The zone of the leader of a request's aircraft, where its kind asks for it; else 0.
fn zone_ahead(f: Field, r: Request) -> usize
    ensures { result ≡ cond (within 4 5 r.kind) (zone_ahead f r) 0 }
{
    match r.kind {
        4..=5 => leader_zone(f, r.number),
        _ => 0,
    }
}

// The step of a request that is turned away: the number and zeros, and the field handed in.
pub fn turned_away(f: Field, number: u16) -> Stepped
    ensures { result ≡ record { answer = number_and_zeros number; field = f } }
{
    Stepped {
        answer: number_and_zeros(number),
        field: f,
    }
}

// What a request that keeps the input rules does to a field where its bounds are left out: the first need that is not met refuses it, else it takes
// effect. It is not laid into `course`: a request that is refused before it would copy the field's parts all the same.
#[inline(never)]
fn unjudged(f: Field, r: Request) -> Stepped
    ensures { result ≡ cond (eqb (first_refused (checks_of f r)) 0) (record { answer = answer_of f r; field = effect_of f r })
        (record { answer = number_and_zeros (first_refused (checks_of f r)); field = f }) }
{
    let at = place_of(f, r.number);
    let ahead = zone_ahead(f, r);
    if let Err(refusal) = check_needs(f, r, at, ahead) {
        return turned_away(f, refusal.number());
    }
    let along = along_of(f, r, at.zone);
    let g = effect(f, r, at.zone, ahead);
    Stepped {
        answer: answer(g, r, along),
        field: g,
    }
}

// The step of a request. Whether the field is within the bounds is asked of one judge, and whether the field after it is of another: a caller who has
// shown the answer gives it. The step itself is handed on, and no outcome with a field in it, which would be copied once more.
fn course<B: Fn(Field) -> bool, A: Fn(Field) -> bool>(
    f: Field,
    r: Request,
    judge_before: B,
    judge_after: A,
) -> Stepped
    requires callable { B.IsAlwaysCallable judge_before × A.IsAlwaysCallable judge_after }
    requires before { JudgesBefore (B.post judge_before) within_bounds f r }
    requires after { JudgesAfter (A.post judge_after) f r }
    ensures { result ≡ step_of f r }
{
    if let Err(refusal) = check_input(r) {
        return turned_away(f, refusal.number());
    }
    if let Err(refusal) = require(judge_before(f), Refusal::BoundBroken) {
        return turned_away(f, refusal.number());
    }
    let s = unjudged(f, r);
    let a = s.answer;
    if a.number != 0 {
        return s;
    }
    if let Err(refusal) = require(judge_after(s.field), Refusal::BoundWouldBreak) {
        return turned_away(f, refusal.number());
    }
    s
}

// The step: the answer to a request and the field after it. The field is judged before and after.
pub fn step(f: Field, r: Request) -> Stepped
    ensures { result ≡ step_of f r }
{
    course(f, r, within_bounds, within_bounds)
}

// The same step, for a caller who has shown that the field is within the bounds: only the field after it is judged.
pub fn step_within(f: Field, r: Request) -> Stepped
    requires { T (within_bounds f) }
    ensures { result ≡ step_of f r }
{
    course(f, r, |_| true, within_bounds)
}

// The same step, for a caller who has shown that neither 10 nor 25 is its number: the field is not judged.
pub fn step_unjudged(f: Field, r: Request) -> Stepped
    requires { (number_of f r ≡ 10 → ⊥) × (number_of f r ≡ 25 → ⊥) }
    ensures { result ≡ step_of f r }
{
    if let Err(refusal) = check_input(r) {
        return turned_away(f, refusal.number());
    }
    unjudged(f, r)
}
