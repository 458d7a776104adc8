// The button on a field with its kept ones: one press, and the button held down (specs/PressKept.antt).
#![tactic(auto)]

ghost use Rattle.std.specs.Prelude.{◌≡◌};
ghost use Rattle.press.specs.HeldDown.{ending_number};
ghost use Rattle.press_kept.specs.PressKept.{proposal_kept, press_kept, number_held_kept, held_kept};

use history::{History, SteppedHistory, step_history, turned_away, within_bounds_history};
use limits::MOST_PRESSES;
use press::{Ending, Proposal, ending_on, propose};

// What a press proposes, and the answer and the field with its kept ones after it.
#[derive(Clone, Copy)]
pub struct PressedKept {
    pub proposal: Proposal,
    pub stepped: SteppedHistory,
}

// What the button held down reports: how it ends, how many requests were played, and the field with its kept ones.
#[derive(Clone, Copy)]
pub struct HeldKept {
    pub ending: Ending,
    pub played: usize,
    pub after: History,
}

// What the button proposes.
pub fn propose_kept(h: History) -> Proposal
    ensures { result ≡ proposal_kept h }
{
    if !within_bounds_history(h) {
        return Proposal::Refused;
    }
    propose(h.now.field)
}

// One press of the button.
pub fn press_kept(h: History) -> PressedKept
    ensures { result ≡ press_kept h }
{
    let proposal = propose_kept(h);
    let stepped = match proposal {
        Proposal::Refused => turned_away(h, 10),
        Proposal::None => turned_away(h, 0),
        Proposal::Play(r) => step_history(h, r),
    };
    PressedKept { proposal, stepped }
}

// The button held down.
pub fn hold_kept(h: History) -> HeldKept
    ensures value { result ≡ held_kept h }
    ensures ending_value { ending_number result.ending ≡ number_held_kept h }
{
    let mut last = h;
    let mut played = 0;
    // Presses are counted, and no index.
    for i in 0..MOST_PRESSES {
        let Proposal::Play(r) = propose_kept(last) else {
            break;
        };
        played = i + 1;
        last = step_history(last, r).after;
    }
    let ending = if within_bounds_history(h) {
        ending_on(last.now.field)
    } else {
        Ending::Refused
    };
    HeldKept {
        ending,
        played,
        after: last,
    }
}
