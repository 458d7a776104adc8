// Document 01, "The requests": what each kind does to the field (rules' specs/Kinds.antt).
#![tactic(auto)]

ghost use Rattle.std.specs.Prelude.{◌≡◌, cond, ◌&&◌};
ghost use Rattle.field.specs.Airspace.{at2000, base};
ghost use Rattle.rules.specs.Kinds.{may_approach, base_free, head_gone, tail_put, moved, descended, out_of_sequence, fix_taken, entered, made_room};
ghost use Rattle.rules.specs.Kinds.{entered_above, approached, landed, exited, fix_after_miss, missed_approach, held, shown_to, shown_at3000};
ghost use Rattle.rules.specs.Step.{effect_for};

use edits::{appended, removed, with_sequence, with_tail, with_zone, without_head};
use field::airspace::{
    arrived, arrived_by_miss, entering, opposite, order_length, side_of, with_fix, zone_of,
};
use field::zones::{AT_2000, BASE, FINAL, INTERMEDIATE, LATERAL, MISSED, RUNWAY};
use field::{Aircraft, Field};
use needs::{base_free, may_approach};
use questions::counts::is_empty;
use questions::find::aircraft_at;
use request::{Range, Request, in_range};
use tick::ticked;

// The field with the head of a zone taken off it.
#[tactic(auto, unfolding(rules::specs::Kinds::head_gone))]
fn head_gone(f: Field, zone: usize) -> Field
    ensures { result ≡ head_gone f zone }
{
    with_zone(f, zone, without_head(zone_of(f, zone)))
}

// The field with an aircraft put at the tail of a zone.
#[tactic(auto, unfolding(rules::specs::Kinds::tail_put))]
fn tail_put(f: Field, zone: usize, a: Aircraft) -> Field
    ensures { result ≡ tail_put f zone a }
{
    with_zone(f, zone, with_tail(zone_of(f, zone), a))
}

// The field with the head of a zone moved to the tail of another: both zones are written into one new field.
fn moved(f: Field, from: usize, to: usize) -> Field
    ensures { result ≡ moved f from to }
{
    let a = arrived(f.legs, to, aircraft_at(f, from, 1));
    let mut after = f;
    if in_range(Range(1, 13), from) {
        after.zones[from - 1] = without_head(after.zones[from - 1]);
    }
    if in_range(Range(1, 13), to) {
        after.zones[to - 1] = with_tail(after.zones[to - 1], a);
    }
    after
}

// Kind 3: the field with the head of a zone, a holding at 3000, moved to 2000 of its side.
fn descended(f: Field, zone: u8) -> Field
    ensures { result ≡ descended f zone }
{
    let z = zone as usize;
    moved(f, z, AT_2000 + z)
}

// The field with a number out of the landing sequence.
#[tactic(auto, unfolding(rules::specs::Kinds::out_of_sequence))]
fn out_of_sequence(f: Field, number: u16) -> Field
    ensures { result ≡ out_of_sequence f number }
{
    with_sequence(f, removed(f.sequence, number), f.next)
}

// The fix that an entry from a side takes.
#[tactic(auto, unfolding(rules::specs::Kinds::fix_taken, field::specs::Airspace::order_length))]
fn fix_taken(f: Field, side: u8) -> u8
    ensures { result ≡ fix_taken f side }
{
    if order_length(f.sequence) == 0 {
        side
    } else {
        f.next
    }
}

// Kinds 1 and 2: the field with the request's aircraft entered into a zone.
#[tactic(auto, unfolding(rules::specs::Kinds::entered, edits::specs::Edits::with_sequence))]
fn entered(f: Field, r: Request, zone: usize) -> Field
    ensures { result ≡ entered f r zone }
{
    let fix = fix_taken(f, r.side);
    let mut after = tail_put(f, zone, entering(r.number, fix, r.amount, r.desk));
    after.sequence = appended(f.sequence, r.number);
    after.next = opposite(fix);
    after
}

// Kind 1: the field with 3000 of a side empty: whoever was there has descended.
#[tactic(auto, unfolding(rules::specs::Kinds::made_room))]
fn made_room(f: Field, side: u8) -> Field
    ensures { result ≡ made_room f side }
{
    if is_empty(f, side as usize) {
        f
    } else {
        descended(f, side)
    }
}

// Kind 1: the field with whoever was at 3000 of the side at 2000, and the request's aircraft entered at 3000.
#[tactic(auto, unfolding(rules::specs::Kinds::entered_above))]
fn entered_above(f: Field, r: Request) -> Field
    ensures { result ≡ entered_above f r }
{
    entered(made_room(f, r.side), r, r.side as usize)
}

// Kind 4: the zone that an approach from a lateral zone leads to: base, or 2000 where a need is not met.
fn approach_zone(f: Field, number: u16, side: u8, ahead: usize) -> usize
    ensures { result ≡ cond (may_approach f.sequence number ahead && base_free f side) (base side) (at2000 side) }
{
    if may_approach(f.sequence, number, ahead) && base_free(f, side) {
        BASE + side as usize
    } else {
        AT_2000 + side as usize
    }
}

// Kind 4: the field with the head of a zone moved to base, or from a lateral zone to 2000 where a need of the approach is not met.
#[tactic(auto, unfolding(rules::specs::Kinds::approached))]
fn approached(f: Field, number: u16, zone: usize, ahead: usize) -> Field
    ensures { result ≡ approached f number zone ahead }
{
    let side = side_of(zone);
    if in_range(Range(5, 6), zone) {
        moved(f, zone, approach_zone(f, number, side, ahead))
    } else {
        moved(f, zone, BASE + side as usize)
    }
}

// Kind 7: the field with the head of final on the runway and the request's aircraft out of the sequence.
#[tactic(auto, unfolding(rules::specs::Kinds::landed))]
fn landed(f: Field, r: Request) -> Field
    ensures { result ≡ landed f r }
{
    out_of_sequence(moved(f, FINAL, RUNWAY), r.number)
}

// Kind 9: the field with the head of intermediate gone and the request's aircraft out of the sequence.
#[tactic(auto, unfolding(rules::specs::Kinds::exited))]
fn exited(f: Field, r: Request) -> Field
    ensures { result ≡ exited f r }
{
    out_of_sequence(head_gone(f, INTERMEDIATE), r.number)
}

// The fix of an aircraft after its missed approach.
#[tactic(auto, unfolding(rules::specs::Kinds::fix_after_miss, field::specs::Airspace::order_length))]
fn fix_after_miss(f: Field, a: Aircraft) -> u8
    ensures { result ≡ fix_after_miss f a }
{
    if order_length(f.sequence) == 1 {
        a.fix
    } else {
        f.next
    }
}

// Kind 10: the field with the head of final in its old fix's missed zone, with the rest of final ahead of it too, and last in the sequence.
#[tactic(auto, unfolding(rules::specs::Kinds::missed_approach))]
fn missed_approach(f: Field, r: Request) -> Field
    ensures { result ≡ missed_approach f r }
{
    let a = aircraft_at(f, FINAL, 1);
    let zone = MISSED + a.fix as usize;
    let fix = fix_after_miss(f, a);
    let b = with_fix(arrived_by_miss(f.legs, zone, a), fix);
    let g = tail_put(head_gone(f, FINAL), zone, b);
    let s = appended(removed(f.sequence, r.number), r.number);
    with_sequence(g, s, opposite(fix))
}

// Kind 11: the field with the head of a zone held at 2000 or 3000, and the one at 3000 moved to 2000 where both are needed.
#[tactic(auto, unfolding(rules::specs::Kinds::held))]
fn held(f: Field, zone: usize) -> Field
    ensures { result ≡ held f zone }
{
    let own = side_of(zone);
    let side = own as usize;
    if !is_empty(f, side) {
        moved(descended(f, own), zone, side)
    } else if is_empty(f, AT_2000 + side) {
        moved(f, zone, AT_2000 + side)
    } else {
        moved(f, zone, side)
    }
}

// The number of an aircraft as a desk is shown it: 0 where it is another desk's.
#[tactic(auto, unfolding(rules::specs::Kinds::shown_to))]
pub fn shown_to(desk: u8, a: Aircraft) -> u16
    ensures { result ≡ shown_to desk a }
{
    if a.desk == desk { a.number } else { 0 }
}

// The aircraft at 3000 of a side, which an entry or a hold there moves, as a desk is shown its number; 0 where there is none.
#[tactic(auto, unfolding(rules::specs::Kinds::shown_at3000))]
pub fn shown_at_3000(f: Field, desk: u8, side: u8) -> u16
    ensures { result ≡ shown_at3000 f desk side }
{
    shown_to(desk, aircraft_at(f, side as usize, 1))
}

// The field after a request whose needs are met, its aircraft in a zone and its leader in zone `ahead`, by its kind; any other number than 1
// to 11 is a tick.
pub fn effect(f: Field, r: Request, zone: u8, ahead: usize) -> Field
    ensures { result ≡ effect_for r.kind f r zone ahead }
{
    let z = zone as usize;
    match r.kind {
        1 => entered_above(f, r),
        2 => entered(f, r, LATERAL + r.side as usize),
        3 => descended(f, zone),
        4 => approached(f, r.number, z, ahead),
        5 => moved(f, z, INTERMEDIATE),
        6 => moved(f, INTERMEDIATE, FINAL),
        7 => landed(f, r),
        8 => head_gone(f, RUNWAY),
        9 => exited(f, r),
        10 => missed_approach(f, r),
        11 => held(f, z),
        _ => ticked(f, r.amount),
    }
}
