// What the program `desks` prints: the answers to calls by two desks, requests and steps back (document 02, 2.10 and 2.13), from their bytes.
#![tactic(auto)]

mod lines;

ghost use Rattle.std.specs.Prelude.{◌≡◌, ◌++◌, ◌+◌, ◌/◌, ◌≤◌, length, drop};
ghost use Rattle.limits.specs.Limits.{most_requests};
ghost use Rattle.refusals.specs.Refusals.{outcome_number};
ghost use Rattle.text.specs.Buffer.{Put, room};
ghost use Rattle.history.specs.History.{start_of};
ghost use Rattle.taken_back.specs.Calls.{called};
ghost use Rattle.calls_report.specs.CallsReport.{call_at, call_bytes, calls_in, desks_number, report_from, desks_of};

use crate::lines::{put_answer, put_last};
use authored::put_refused;
use field::Legs;
use history::{History, SteppedHistory, start, step_back, step_history};
use limits::MOST_REQUESTS;
use playing::legs_in_miles;
use practice::{legs_allowed, legs_of, number16};
use refusals::{Refusal, require};
use request::Request;
use text::Buffer;

// Whether the input is accepted, or why it is refused.
#[tactic(auto, using(refusals::proofs::Outcomes::number_some), unfolding(refusals::specs::Refusals::number_of, crate::specs::CallsReport::desks_number))]
fn check_input(input: &[u8]) -> Result<(), Refusal>
    ensures { outcome_number result ≡ desks_number input.now }
{
    let n = input.len();
    require(8 <= n, Refusal::LegOutOfRange)?;
    require(legs_allowed(legs_of(input)), Refusal::LegOutOfRange)?;
    require((n - 8) % 8 == 0, Refusal::WrongSizeOrLetters)?;
    require((n - 8) / 8 <= MOST_REQUESTS, Refusal::WrongSizeOrLetters)
}

// The answer to the call at a place of the input, and the field with its kept ones after it.
fn call_at(h: History, input: &[u8], at: usize) -> SteppedHistory
    requires { at + 8 ≤ length input.now }
    ensures { result ≡ called h (call_at input.now at) }
{
    let desk = input[at + 1];
    if input[at] != 0 {
        return step_back(h, desk);
    }
    let r = Request {
        kind: input[at + 2],
        side: input[at + 3],
        number: number16(input, at + 4),
        amount: number16(input, at + 6),
        desk,
    };
    step_history(h, r)
}

// The report of the input's calls from the empty field with these legs, from the buffer's first byte on.
fn put_calls(out: &mut [u8], input: &[u8], legs: Legs) -> usize
    requires { (8 ≤ length input.now) × (call_bytes input.now / 8 ≤ most_requests) }
    ensures put { Put out.old 0 (report_from 0 (start_of legs) (calls_in input.now)) out.new result }
    ensures input_len_bound { length (report_from 0 (start_of legs) (calls_in input.now)) ≤ room }
{
    let calls = (input.len() - 8) / 8;
    let mut h = start(legs);
    let mut next = 0;
    for i in 0..calls {
        let s = call_at(h, input, 8 + 8 * i);
        next = put_answer(out, next, i, s.answer);
        h = s.after;
    }
    put_last(out, next, h)
}

// Writes the report of the input's calls, or the line that refuses them, into the buffer, and yields its length.
pub fn desks(input: &[u8], out: &mut Buffer) -> usize
    ensures value { result ≡ length (desks_of input.now) }
    ensures out_after { out.new ≡ desks_of input.now ++ drop result out.old }
    ensures upper_bound { result ≤ room }
{
    let bytes: &mut [u8] = out;
    if let Err(refusal) = check_input(input) {
        return put_refused(bytes, refusal.number());
    }
    put_calls(bytes, input, legs_in_miles(legs_of(input)))
}
