// The candidates of a press on a field within the bounds, and the first of them that the step accepts.
ghost use Rattle.std.specs.Prelude.{◌≡◌, T};
ghost use Rattle.bounds.specs.Bounds.{within_bounds};
ghost use Rattle.press.specs.Press.{candidates, tick_or_none, first_accepted, pressed_by};

use crate::{Pressed, Proposal};
use field::Field;
use limits::LONGEST_TICK;
use questions::counts::present_on;
use request::Request;
use step::{step_unjudged, step_within, turned_away};

// The candidates in the order in which they are tried: each one's kind, and the zone whose head it takes.
const CANDIDATES: [(u8, usize); 13] = [
    (8, 13),
    (7, 12),
    (6, 11),
    (5, 9),
    (5, 10),
    (11, 7),
    (11, 8),
    (4, 3),
    (4, 4),
    (4, 5),
    (4, 6),
    (3, 1),
    (3, 2),
];

// A press where no candidate is accepted: the longest tick if somebody is present, which is not judged since a tick keeps the bounds; else none.
fn tick_or_none(f: Field) -> Pressed
    requires { T (within_bounds f) }
    ensures { result ≡ pressed_by f (tick_or_none f) }
{
    if present_on(f) == 0 {
        return Pressed {
            proposal: Proposal::None,
            stepped: turned_away(f, 0),
        };
    }
    let r = Request {
        kind: 12,
        side: 0,
        number: 0,
        amount: LONGEST_TICK,
        desk: 1,
    };
    Pressed {
        proposal: Proposal::Play(r),
        stepped: step_unjudged(f, r),
    }
}

// The press of the first candidate that the step accepts.
pub(crate) fn first_accepted(f: Field) -> Pressed
    requires { T (within_bounds f) }
    ensures { result ≡ pressed_by f (first_accepted f candidates) }
{
    for &(kind, zone) in &CANDIDATES {
        let q = f.zones[zone - 1];
        let Some(head) = q.queue().first() else {
            continue;
        };
        let r = Request {
            kind,
            side: 0,
            number: head.number,
            amount: 0,
            desk: head.desk,
        };
        let stepped = step_within(f, r);
        if stepped.answer.number == 0 {
            return Pressed {
                proposal: Proposal::Play(r),
                stepped,
            };
        }
    }
    tick_or_none(f)
}
