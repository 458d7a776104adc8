// The calls of a host's program on a state that it lends (`host`).
ghost use Rattle.std.specs.Prelude.{◌≡◌};
ghost use Rattle.host.specs.Calls.{start, back, press, hold_down, spaced, listed, built_from, reply_on, bytes_left};
ghost use Rattle.baguymo.specs.Parts.{reply_to_parts, left_by_parts};

use crate::widths::{in_8, in_16, legs_in_16, number_in_16};
use host::button::{hold_down, press};
use host::views::{list, spacing as spacing_on};
use host::{ask, back, build, start};
use layout::State;
use request::Request;

// The start: four legs.
#[unsafe(no_mangle)]
pub extern "C" fn baguymo_host_start(
    base: usize,
    intermediate: usize,
    final_approach: usize,
    missed: usize,
    state: &mut State,
) -> u16
    ensures value { result ≡ (reply_on state.old
        (start (record { base = base; intermediate = intermediate; final_approach = final_approach; missed = missed }))).number }
    ensures state_after { state.new ≡ bytes_left state.old
        (start (record { base = base; intermediate = intermediate; final_approach = final_approach; missed = missed })) }
{
    start(
        legs_in_16(base, intermediate, final_approach, missed),
        state,
    )
}

// A request by its five parts.
#[unsafe(no_mangle)]
pub extern "C" fn baguymo_host_ask(
    state: &mut State,
    desk: usize,
    kind: usize,
    side: usize,
    number: usize,
    amount: usize,
    answer: &mut [usize; 6],
) -> u16
    ensures value { result ≡ (reply_to_parts state.old (record { kind = kind; side = side; number = number; amount = amount; desk = desk })).number }
    ensures answer_after { answer.new ≡ (reply_to_parts state.old (record { kind = kind; side = side; number = number; amount = amount; desk = desk })).numbers }
    ensures state_after { state.new ≡ left_by_parts state.old (record { kind = kind; side = side; number = number; amount = amount; desk = desk }) }
{
    let r = Request {
        kind: in_8(kind),
        side: in_8(side),
        number: number_in_16(kind, number),
        amount: in_16(amount),
        desk: in_8(desk),
    };
    ask(state, r, answer)
}

// A step back by a desk.
#[unsafe(no_mangle)]
pub extern "C" fn baguymo_host_back(state: &mut State, desk: usize) -> u16
    ensures value { result ≡ (reply_on state.old (back desk)).number }
    ensures state_after { state.new ≡ bytes_left state.old (back desk) }
{
    back(state, in_8(desk))
}

// A press of the button.
#[unsafe(no_mangle)]
pub extern "C" fn baguymo_host_press(
    state: &mut State,
    request: &mut [usize; 5],
    answer: &mut [usize; 6],
) -> u16
    ensures value { result ≡ (reply_on state.old press).number }
    ensures request_after { request.new ≡ (reply_on state.old press).request }
    ensures answer_after { answer.new ≡ (reply_on state.old press).numbers }
    ensures state_after { state.new ≡ bytes_left state.old press }
{
    press(state, request, answer)
}

// The button held down.
#[unsafe(no_mangle)]
pub extern "C" fn baguymo_host_hold_down(state: &mut State, report: &mut [usize; 2]) -> u16
    ensures value { result ≡ (reply_on state.old hold_down).number }
    ensures report_after { report.new ≡ (reply_on state.old hold_down).numbers }
    ensures state_after { state.new ≡ bytes_left state.old hold_down }
{
    hold_down(state, report)
}

// The spacing of the pairs on the approach.
#[unsafe(no_mangle)]
pub extern "C" fn baguymo_host_spacing(
    state: &State,
    spacing: usize,
    pairs: &mut [usize; 10],
    miles: &mut [f64; 3],
) -> u16
    ensures value { result ≡ (reply_on state.now (spaced spacing)).number }
    ensures pairs_after { pairs.new ≡ (reply_on state.now (spaced spacing)).numbers }
    ensures miles_after { miles.new ≡ (reply_on state.now (spaced spacing)).gaps }
{
    spacing_on(state, in_16(spacing), pairs, miles)
}

// The field as a list of the classroom dialect.
#[unsafe(no_mangle)]
pub extern "C" fn baguymo_host_list(state: &State, entries: &mut [usize; 21]) -> u16
    ensures value { result ≡ (reply_on state.now listed).number }
    ensures entries_after { entries.new ≡ (reply_on state.now listed).numbers }
{
    list(state, entries)
}

// The field of such a list: four legs, a speed and the list.
#[unsafe(no_mangle)]
pub extern "C" fn baguymo_host_field(
    base: usize,
    intermediate: usize,
    final_approach: usize,
    missed: usize,
    speed: usize,
    list: &[u8],
    state: &mut State,
) -> u16
    ensures value { result ≡ (reply_on state.old
        (built_from (record { base = base; intermediate = intermediate; final_approach = final_approach; missed = missed }) speed list.now)).number }
    ensures state_after { state.new ≡ bytes_left state.old
        (built_from (record { base = base; intermediate = intermediate; final_approach = final_approach; missed = missed }) speed list.now) }
{
    build(
        legs_in_16(base, intermediate, final_approach, missed),
        in_16(speed),
        list,
        state,
    )
}
