// The closing counts of a session, kept answer by answer.
ghost use Rattle.std.specs.Prelude.{◌≡◌, ◌≤◌, length};
ghost use Rattle.limits.specs.Limits.{most_requests};
ghost use Rattle.session.specs.Tally.{Under, empty_tally, tallied};
ghost use Rattle.session.specs.Entries.{all_tallied};

// How many entries, taxis, exits and misses were accepted.
#[derive(Clone, Copy)]
pub(crate) struct Tally {
    pub entries: usize,
    pub taxis: usize,
    pub exits: usize,
    pub misses: usize,
}

// The counts before the first request.
fn empty_tally() -> Tally
    ensures { result ≡ empty_tally }
{
    Tally {
        entries: 0,
        taxis: 0,
        exits: 0,
        misses: 0,
    }
}

// The counts with a request of this kind and its answer's number counted.
#[tactic(auto, unfolding(crate::specs::Tally::tallied))]
fn tallied(t: Tally, kind: u16, number: u16) -> Tally
    requires { Under 65536 t }
    ensures { result ≡ tallied t kind number }
{
    if number != 0 {
        return t;
    }
    match kind {
        1..=2 => Tally {
            entries: t.entries + 1,
            ..t
        },
        8 => Tally {
            taxis: t.taxis + 1,
            ..t
        },
        9 => Tally {
            exits: t.exits + 1,
            ..t
        },
        10 => Tally {
            misses: t.misses + 1,
            ..t
        },
        _ => t,
    }
}

// The counts of the entries of a log.
pub(crate) fn tally_of(entries: &[[u16; 7]]) -> Tally
    requires { length entries.now ≤ most_requests }
    ensures { result ≡ all_tallied empty_tally entries.now }
{
    let mut t = empty_tally();
    for entry in entries {
        t = tallied(t, entry[0], entry[1]);
    }
    t
}
