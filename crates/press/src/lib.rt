// Who goes now (document 02, 2.6): what the button proposes on a field, one press, and the button held down.
#![tactic(auto)]

mod candidates;

ghost use Rattle.std.specs.Prelude.{◌≡◌, ◌*◌, ◌≤◌, T, length};
ghost use Rattle.bounds.specs.Bounds.{within_bounds};
ghost use Rattle.rules.specs.Play.{played, moves};
ghost use Rattle.text.specs.Buffer.{Put};
ghost use Rattle.press.specs.Press.{proposal_of, press_of};
ghost use Rattle.press.specs.HeldDown.{held_requests, ending_on, ending_number, number_held, held_of, press_line, held_lines};

use crate::candidates::first_accepted;
use bounds::within_bounds;
use field::Field;
use limits::MOST_PRESSES;
use questions::counts::present_on;
use request::Request;
use rules::{Answer, Stepped};
use step::turned_away;
use text::put_line;

// What the button proposes: nothing on a field that breaks a bound (10), nothing where nobody is on the field, or a request.
#[derive(Clone, Copy)]
pub enum Proposal {
    Refused,
    None,
    Play(Request),
}

// What a press proposes, and the answer and the field after it.
#[derive(Clone, Copy)]
pub struct Pressed {
    pub proposal: Proposal,
    pub stepped: Stepped,
}

// How the button held down ends: the field breaks a bound, nobody is on the field, or the presses are spent. `ending_number` has their numbers.
#[derive(Clone, Copy, Debug, PartialEq, Eq)]
pub enum Ending {
    Refused,
    None,
    Spent,
}

// What the button held down reports: how it ends, how many requests were played, and the field.
#[derive(Clone, Copy)]
pub struct Held {
    pub ending: Ending,
    pub played: usize,
    pub field: Field,
}

// The same, with the place after the lines that were put.
#[derive(Clone, Copy)]
pub struct HeldDown {
    pub held: Held,
    pub end: usize,
}

// What the button proposes on a field.
pub fn propose(f: Field) -> Proposal
    ensures { result ≡ proposal_of f }
{
    if !within_bounds(f) {
        return Proposal::Refused;
    }
    first_accepted(f).proposal
}

// One press of the button.
pub fn press(f: Field) -> Pressed
    ensures { result ≡ press_of f }
{
    if !within_bounds(f) {
        return Pressed {
            proposal: Proposal::Refused,
            stepped: turned_away(f, 10),
        };
    }
    first_accepted(f)
}

// How the button ends on a field within the bounds.
pub fn ending_on(f: Field) -> Ending
    ensures { result ≡ ending_on f }
{
    if present_on(f) == 0 {
        return Ending::None;
    }
    Ending::Spent
}

// Puts the line of a press into the buffer, from a place on; a tick has none.
fn put_press(out: &mut [u8], at: usize, press: usize, r: Request, a: Answer) -> usize
    ensures put { Put out.old at (press_line press (r, a)) out.new result }
    ensures a_len_bound { length (press_line press (r, a)) ≤ 147 }
{
    if r.kind == 12 {
        return at;
    }
    let numbers = [
        press,
        r.kind as usize,
        a.aircraft as usize,
        a.zone,
        a.fix as usize,
        a.leader as usize,
        a.along as usize,
    ];
    put_line(out, at, &numbers)
}

// The button held down on a field within the bounds, with the lines of its moves put into the buffer from its first byte on.
fn held_within(f: Field, out: &mut [u8]) -> HeldDown
    requires { T (within_bounds f) }
    ensures held_value { result.held ≡ held_of f }
    ensures put { Put out.old 0 (held_lines f) out.new result.end }
    ensures f_len_bound { length (held_lines f) ≤ 147 * moves (played f (held_requests f)) }
{
    let mut last = f;
    let mut played = 0;
    let mut at = 0;
    for i in 0..MOST_PRESSES {
        let pressed = first_accepted(last);
        let Proposal::Play(r) = pressed.proposal else {
            break;
        };
        let stepped = pressed.stepped;
        played = i + 1;
        at = put_press(out, at, played, r, stepped.answer);
        last = stepped.field;
    }
    let held = Held {
        ending: ending_on(last),
        played,
        field: last,
    };
    HeldDown { held, end: at }
}

// The button held down on a field, with the lines of its moves put into the buffer from its first byte on. A line has seven numbers of 64 bits
// at the most, so 147 bytes.
pub fn hold_down(f: Field, out: &mut [u8]) -> HeldDown
    ensures held_value { result.held ≡ held_of f }
    ensures ending_value { ending_number result.held.ending ≡ number_held f }
    ensures put { Put out.old 0 (held_lines f) out.new result.end }
    ensures f_len_bound { length (held_lines f) ≤ 147 * moves (played f (held_requests f)) }
{
    if within_bounds(f) {
        return held_within(f, out);
    }
    let held = Held {
        ending: Ending::Refused,
        played: 0,
        field: f,
    };
    HeldDown { held, end: 0 }
}
