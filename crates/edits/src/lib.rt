// The few changes of a queue, of the sequence and of the field that requests are made of (specs/Edits.antt).
#![tactic(auto)]

ghost use Rattle.std.specs.Prelude.{◌≡◌};
ghost use Rattle.edits.specs.Edits.{closed_up, without_head, with_tail, appended, removed, with_zone, with_sequence};

use field::airspace::nobody;
use field::zones::RUNWAY;
use field::{Aircraft, Field, Sequence, Zone};

// A row without the one at index `k`: those behind it move up by one place, and `last` stands at the end. Past its end it stays as it is.
pub fn closed_up<T: Copy, const N: usize>(row: [T; N], k: usize, last: T) -> [T; N]
    ensures { result ≡ closed_up row k last }
{
    let mut closed = row;
    if k < N {
        closed[N - 1] = last;
        let (before, after) = (&row[..], &mut closed[..]);
        after[k..N - 1].copy_from_slice(&before[k + 1..]);
    }
    closed
}

// The zone with its head taken off; an empty one as it is.
#[tactic(auto, unfolding(crate::specs::Edits::without_head, crate::specs::Edits::closed_up))]
pub fn without_head(q: Zone) -> Zone
    ensures { result ≡ without_head q }
{
    if q.length == 0 {
        return q;
    }
    Zone {
        aircraft: closed_up(q.aircraft, 0, nobody()),
        length: q.length - 1,
    }
}

// The zone with an aircraft put at its tail; a full one as it is.
#[tactic(auto, unfolding(crate::specs::Edits::with_tail))]
pub fn with_tail(q: Zone, a: Aircraft) -> Zone
    ensures { result ≡ with_tail q a }
{
    let mut after = q;
    if q.length < 4 {
        after.aircraft[q.length] = a;
        after.length += 1;
    }
    after
}

// The sequence with a number appended; a full one as it is.
#[tactic(auto, unfolding(crate::specs::Edits::appended))]
pub fn appended(s: Sequence, number: u16) -> Sequence
    ensures { result ≡ appended s number }
{
    let mut after = s;
    if s.length < 4 {
        after.numbers[s.length] = number;
        after.length += 1;
    }
    after
}

// The sequence with a number removed; as it is where the number is absent.
pub fn removed(s: Sequence, number: u16) -> Sequence
    ensures { result ≡ removed s number }
{
    match s.order().iter().position(|n| *n == number) {
        Some(k) => Sequence {
            numbers: closed_up(s.numbers, k, 0),
            length: s.length - 1,
        },
        None => s,
    }
}

// The field with another zone; as it is where the number is no zone's.
pub fn with_zone(f: Field, zone: usize, q: Zone) -> Field
    ensures { result ≡ with_zone f zone q }
{
    let mut after = f;
    if (1..=RUNWAY).contains(&zone) {
        after.zones[zone - 1] = q;
    }
    after
}

// The field with another sequence and next fix.
#[tactic(auto, unfolding(crate::specs::Edits::with_sequence))]
pub fn with_sequence(f: Field, s: Sequence, next: u8) -> Field
    ensures { result ≡ with_sequence f s next }
{
    Field {
        sequence: s,
        next,
        ..f
    }
}
