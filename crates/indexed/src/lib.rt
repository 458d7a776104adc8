// A field with an index beside it, and the step of any request on it: the look-ups go through the index (specs/Indexed.antt).
#![tactic(auto)]

ghost use Rattle.std.specs.Prelude.{◌≡◌, cond, T, eqb};
ghost use Rattle.request.specs.Input.{within};
ghost use Rattle.questions.specs.Find.{leader_of};
ghost use Rattle.bounds.specs.Bounds.{within_bounds};
ghost use Rattle.finder.specs.Finder.{index_of, found_in, within_bounds_indexed};
ghost use Rattle.kept_up.specs.KeptUp.{kept_up};
ghost use Rattle.rules.specs.Step.{number_and_zeros, acceptance_on};
ghost use Rattle.step.specs.Outcomes.{JudgesBefore, JudgesAfter};
ghost use Rattle.indexed.specs.Indexed.{with_index, number_indexed, step_indexed};

use bounds::within_bounds;
use effects::effect;
use field::airspace::side_of;
use field::zones::{AT_2000, BASE, FINAL};
use field::{Field, Sequence};
use finder::{Entry, Index, Indexed, find, index_of, within_bounds_indexed};
use kept_up::{Situation, kept_up, led_to};
use needs::check_needs;
use questions::find::leader_of;
use refusals::{Refusal, require};
use request::{Request, check_input};
use rules::Answer;
use step::{acceptance, along_of, number_and_zeros};

// The answer to a request, and the field with its index after it.
#[derive(Clone, Copy)]
pub struct SteppedIndexed {
    pub answer: Answer,
    pub after: Indexed,
}

// The answer to a request that is accepted, and the index of the field after it.
#[derive(Clone, Copy)]
pub struct AnswerAndIndex {
    pub answer: Answer,
    pub index: Index,
}

// A field with its own index beside it.
pub fn with_index(f: Field) -> Indexed
    ensures { result ≡ with_index f }
{
    Indexed {
        field: f,
        index: index_of(f),
    }
}

// The step of a request that is turned away: the number and zeros, and the field and the index handed in.
fn turned_away(x: Indexed, number: u16) -> SteppedIndexed
    ensures { result ≡ record { answer = number_and_zeros number; after = x } }
{
    SteppedIndexed {
        answer: number_and_zeros(number),
        after: x,
    }
}

// The zone of the leader of a request's aircraft, as an index says, where its kind asks for it; else 0.
fn zone_ahead(index: Index, s: Sequence, r: Request) -> usize
    ensures { result ≡ cond (within 4 5 r.kind) (found_in index (leader_of s r.number)).zone 0 }
{
    match r.kind {
        4..=5 => find(index, leader_of(s, r.number)).zone as usize,
        _ => 0,
    }
}

// The answer to a request that is accepted and the index of the field `g` after it: a tick leaves the index of the field before, and else it is kept up
// by the zone that the aircraft has left and the entry that says where it is.
fn answered(index: Index, g: Field, r: Request, along: u16, from: u8, to: Entry) -> AnswerAndIndex
    requires { T (within_bounds g) × (r.kind ≡ 12 → index ≡ index_of g) × ((r.kind ≡ 12 → ⊥) → kept_up from to index ≡ index_of g) }
    ensures { result ≡ record { answer = cond (eqb r.kind 12) (number_and_zeros 0) (acceptance_on g r along); index = index_of g } }
{
    if r.kind == 12 {
        return AnswerAndIndex {
            answer: number_and_zeros(0),
            index,
        };
    }
    let made = kept_up(index, from, to);
    let ahead = find(made, leader_of(g.sequence, r.number));
    AnswerAndIndex {
        answer: acceptance(g, find(made, r.number), ahead, r, along),
        index: made,
    }
}

// The step of a request that is accepted, by its answer and the field with its index after it.
fn accepted(a: AnswerAndIndex, g: Field) -> SteppedIndexed
    ensures { result ≡ record { answer = a.answer; after = record { field = g; index = a.index } } }
{
    SteppedIndexed {
        answer: a.answer,
        after: Indexed {
            field: g,
            index: a.index,
        },
    }
}

// The step of a request. Whether the field with its index is within the bounds is asked of one judge, and whether the field after it is of another: a
// caller who has shown the answer gives it. What refuses it is asked on the way, and the field stands in no `Result`: that would be one copy more.
fn step_by_index<B: Fn(Indexed) -> bool, A: Fn(Field) -> bool>(
    x: Indexed,
    r: Request,
    judge_before: B,
    judge_after: A,
) -> SteppedIndexed
    requires callable { B.IsAlwaysCallable judge_before × A.IsAlwaysCallable judge_after }
    requires before { JudgesBefore (B.post judge_before) within_bounds_indexed x r }
    requires after { JudgesAfter (A.post judge_after) x.field r }
    ensures { result ≡ step_indexed x r }
{
    if let Err(refusal) = check_input(r) {
        return turned_away(x, refusal.number());
    }
    if let Err(refusal) = require(judge_before(x), Refusal::BoundBroken) {
        return turned_away(x, refusal.number());
    }
    let f = x.field;
    let index = x.index;
    let at = find(index, r.number);
    let ahead = zone_ahead(index, f.sequence, r);
    if let Err(refusal) = check_needs(f, r, at, ahead) {
        return turned_away(x, refusal.number());
    }
    let zone = at.zone;
    let along = along_of(f, r, zone);
    let final_zone = f.zones[FINAL - 1];
    let first = final_zone.aircraft[0];
    let side = side_of(zone as usize) as usize;
    let situation = Situation {
        zone,
        ahead,
        across: f.zones[BASE + 2 - side].length,
        above: f.zones[side - 1].length,
        below: f.zones[AT_2000 + side - 1].length,
        fix: first.fix,
    };
    let to = situation.leads_to(r, f.sequence);
    let there = f.zones[to - 1].length;
    let g = effect(f, r, zone, ahead);
    if let Err(refusal) = require(judge_after(g), Refusal::BoundWouldBreak) {
        return turned_away(x, refusal.number());
    }
    let led = led_to(r.kind, r.number, to as u8, (there + 1) as u8);
    accepted(answered(index, g, r, along, zone, led), g)
}

// The step with both judged. It is not laid into `step_indexed`, which would make room for it and copy the field where the request is refused by itself.
#[inline(never)]
fn judged(x: Indexed, r: Request) -> SteppedIndexed
    ensures { result ≡ step_indexed x r }
{
    step_by_index(x, r, within_bounds_indexed, within_bounds)
}

// The step: the answer to a request, and the field with its index after it. Both are judged before, and the field after. The input rules, which
// `step_by_index` asks as well, are asked before a field is handed on.
pub fn step_indexed(x: Indexed, r: Request) -> SteppedIndexed
    ensures { result ≡ step_indexed x r }
{
    if let Err(refusal) = check_input(r) {
        return turned_away(x, refusal.number());
    }
    judged(x, r)
}

// The same step, for a caller who has shown that neither 10 nor 25 is its number: nothing is judged, and the index is not compared with the queues.
pub fn step_indexed_unjudged(x: Indexed, r: Request) -> SteppedIndexed
    requires { (number_indexed x r ≡ 10 → ⊥) × (number_indexed x r ≡ 25 → ⊥) }
    ensures { result ≡ step_indexed x r }
{
    step_by_index(x, r, |_| true, |_| true)
}
