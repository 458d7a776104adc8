// The button on a state that a host lends (document 02, 2.6): one press, and the button held down.
ghost use Rattle.std.specs.Prelude.{◌≡◌};
ghost use Rattle.host.specs.Calls.{press, hold_down, reply_on, bytes_left};

use decoding::read_history;
use encoding::store_after;
use layout::State;
use press_kept::{hold_kept, press_kept};
use replies::{answer_numbers, end_number, held_numbers, request_numbers};

// One press of the button on the state: its number, the request that it plays, and the answer.
pub fn press(state: &mut State, request: &mut [usize; 5], answer: &mut [usize; 6]) -> u16
    ensures value { result ≡ (reply_on state.old press).number }
    ensures request_after { request.new ≡ (reply_on state.old press).request }
    ensures answer_after { answer.new ≡ (reply_on state.old press).numbers }
    ensures state_after { state.new ≡ bytes_left state.old press }
{
    let p = press_kept(read_history(state));
    let proposal = p.proposal;
    let s = p.stepped;
    let a = s.answer;
    *request = request_numbers(proposal);
    *answer = answer_numbers(a);
    store_after(state, a.number, s.after);
    a.number
}

// The button held down on the state: its number, how many requests it played, and whether its presses are spent.
pub fn hold_down(state: &mut State, report: &mut [usize; 2]) -> u16
    ensures value { result ≡ (reply_on state.old hold_down).number }
    ensures report_after { report.new ≡ (reply_on state.old hold_down).numbers }
    ensures state_after { state.new ≡ bytes_left state.old hold_down }
{
    let h = hold_kept(read_history(state));
    let e = h.ending;
    *report = held_numbers(h.played, e);
    let number = end_number(e);
    store_after(state, number, h.after);
    number
}
