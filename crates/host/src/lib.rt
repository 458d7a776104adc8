// The calls of a host's program on a state that it lends as bytes, by the numbers of the rules (`baguymo` has them for C): the start, a request, a step
// back, and a field of the classroom dialect.
#![tactic(auto)]

pub mod button;
pub mod views;

ghost use Rattle.std.specs.Prelude.{◌≡◌};
ghost use Rattle.host.specs.Calls.{start, ask, back, built_from, reply_on, bytes_left};

use decoding::read_history;
use dialect_field::coming::field_of_list;
use encoding::{store, store_after};
use history::{start as empty_history, start_with, step_back, step_history};
use layout::State;
use playing::legs_in_miles;
use practice::{FileLegs, legs_allowed};
use replies::answer_numbers;
use request::Request;

// Writes the state of the empty field with these legs, or refuses them.
pub fn start(legs: FileLegs, state: &mut State) -> u16
    ensures value { result ≡ (reply_on state.old (start legs)).number }
    ensures state_after { state.new ≡ bytes_left state.old (start legs) }
{
    if !legs_allowed(legs) {
        return 7;
    }
    store(state, empty_history(legs_in_miles(legs)));
    0
}

// A request of the state: its number, and in `answer` its answer.
pub fn ask(state: &mut State, r: Request, answer: &mut [usize; 6]) -> u16
    ensures value { result ≡ (reply_on state.old (ask r)).number }
    ensures answer_after { answer.new ≡ (reply_on state.old (ask r)).numbers }
    ensures state_after { state.new ≡ bytes_left state.old (ask r) }
{
    let s = step_history(read_history(state), r);
    let a = s.answer;
    *answer = answer_numbers(a);
    store_after(state, a.number, s.after);
    a.number
}

// One step back of the state by a desk: its number.
pub fn back(state: &mut State, desk: u8) -> u16
    ensures value { result ≡ (reply_on state.old (back desk)).number }
    ensures state_after { state.new ≡ bytes_left state.old (back desk) }
{
    let stepped = step_back(read_history(state), desk);
    let a = stepped.answer;
    store_after(state, a.number, stepped.after);
    a.number
}

// Writes the state of the field that a classroom list builds, or refuses it.
pub fn build(legs: FileLegs, speed: u16, list: &[u8], state: &mut State) -> u16
    ensures value { result ≡ (reply_on state.old (built_from legs speed list.now)).number }
    ensures state_after { state.new ≡ bytes_left state.old (built_from legs speed list.now) }
{
    let b = field_of_list(legs, speed, list);
    store_after(state, b.number, start_with(b.after));
    b.number
}
