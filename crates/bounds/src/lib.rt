// Document 01, "The bounds", a to f, and all seven (specs/Bounds.antt); `fits` has g.
#![tactic(auto)]

ghost use Rattle.std.specs.Prelude.{◌≡◌, map, leb, get_or};
ghost use Rattle.field.specs.Airspace.{zones_from, everywhere, zone_of, order_of};
ghost use Rattle.questions.specs.Counts.{how_many};
ghost use Rattle.questions.specs.Find.{fix_of};
ghost use Rattle.field.specs.Lists.{every};
ghost use Rattle.bounds.specs.Bounds.{bound_a, bound_b, lateral_rule, bound_c, bound_d, final_first, is_nobody, zone_kept, sequence_kept, bound_e, bound_f, within_bounds};

use field::airspace::opposite;
use field::zones::{AT_2000, FINAL, LAST_LATERAL, LATERAL, MISSED, RUNWAY};
use field::{Aircraft, Field, Sequence, Zone};
use fits::{bound_g, is_waiting};
use numbers::{numbers_differ, sequence_exact};
use questions::counts::{how_many, in_area, in_operation, is_empty, per_fix};
use questions::find::{aircraft_at, fix_of, is_first};

// Bound a: how many are in the operation area, and on the runway.
#[tactic(auto, unfolding(crate::specs::Bounds::bound_a))]
pub fn bound_a(f: Field) -> bool
    ensures { result ≡ bound_a f }
{
    in_operation(f) <= 4 && how_many(f, RUNWAY) <= 1
}

// Bound b: how many are in the area of each side.
#[tactic(auto, unfolding(crate::specs::Bounds::bound_b))]
pub fn bound_b(f: Field) -> bool
    ensures { result ≡ bound_b f }
{
    in_area(f, 1) <= 2 && in_area(f, 2) <= 2
}

// Whether zones 1 to 6 hold at most one each.
fn one_each(f: Field) -> bool
    ensures { result ≡ every (λ z. leb (how_many f z) 1) (zones_from 1 6) }
{
    f.zones[..LAST_LATERAL].iter().all(|q| q.queue().len() <= 1)
}

// Whether a side's lateral zone is empty, or else its holdings and its missed zone.
#[tactic(auto, unfolding(crate::specs::Bounds::lateral_rule))]
pub fn lateral_rule(f: Field, side: u8) -> bool
    ensures { result ≡ lateral_rule f side }
{
    let s = side as usize;
    is_empty(f, LATERAL + s)
        || (is_empty(f, s) && is_empty(f, AT_2000 + s) && is_empty(f, MISSED + s))
}

// Bound c: how many are in zones 1 to 6, and the rule of the lateral zones.
#[tactic(auto, unfolding(crate::specs::Bounds::bound_c))]
pub fn bound_c(f: Field) -> bool
    ensures { result ≡ bound_c f }
{
    one_each(f) && lateral_rule(f, 1) && lateral_rule(f, 2)
}

// Bound d: how many in the operation area have each fix.
#[tactic(auto, unfolding(crate::specs::Bounds::bound_d))]
pub fn bound_d(f: Field) -> bool
    ensures { result ≡ bound_d f }
{
    per_fix(f, 1) <= 2 && per_fix(f, 2) <= 2
}

// Whether whoever is at the head of final is first in the sequence.
#[tactic(auto, unfolding(crate::specs::Bounds::final_first))]
pub fn final_first(f: Field) -> bool
    ensures { result ≡ final_first f }
{
    is_empty(f, FINAL) || is_first(f.sequence, aircraft_at(f, FINAL, 1).number)
}

// Whether a place is all zero and waiting, a zero of either sign.
pub fn is_nobody(a: Aircraft) -> bool
    ensures { result ≡ is_nobody a }
{
    a.number == 0
        && a.fix == 0
        && a.speed == 0
        && a.desk == 0
        && a.waited == 0.0
        && a.leg == 0.0
        && is_waiting(a.progress)
}

// Whether a zone's length fits its array, and the places past it are all zero and waiting.
#[tactic(auto, unfolding(crate::specs::Bounds::zone_kept))]
pub fn zone_kept(q: Zone) -> bool
    ensures { result ≡ zone_kept q }
{
    q.length <= 4 && q.aircraft[q.length..].iter().all(|a| is_nobody(*a))
}

// Whether each of the thirteen zones is kept so.
fn zones_kept(f: Field) -> bool
    ensures { result ≡ every (λ z. zone_kept (zone_of f z)) everywhere }
{
    f.zones.iter().all(|q| zone_kept(*q))
}

// Whether the sequence's length fits its array, and the places past it are zero.
#[tactic(auto, unfolding(crate::specs::Bounds::sequence_kept))]
pub fn sequence_kept(s: Sequence) -> bool
    ensures { result ≡ sequence_kept s }
{
    s.length <= 4 && s.numbers[s.length..].iter().all(|n| *n == 0)
}

// Bound e: numbers, the sequence, the head of final, lengths and the places past them. It is not laid into `within_bounds`: there its copies of the
// field, where the zones are lent, would fall apart into one of each zone.
#[tactic(auto, unfolding(crate::specs::Bounds::bound_e))]
#[inline(never)]
pub fn bound_e(f: Field) -> bool
    ensures { result ≡ bound_e f }
{
    numbers_differ(f)
        && sequence_exact(f)
        && final_first(f)
        && zones_kept(f)
        && sequence_kept(f.sequence)
}

// Bound f: each fix in the sequence, and the next fix after them, is the opposite of the one before.
#[tactic(auto, unfolding(crate::specs::Bounds::bound_f))]
pub fn bound_f(f: Field) -> bool
    ensures { result ≡ bound_f f }
{
    // A local of its own: the whole field would be copied where the sequence is lent.
    let s = f.sequence;
    let [first, rest @ ..] = s.order() else {
        return true;
    };
    let mut fix = fix_of(f, *first);
    for number in rest {
        let other = opposite(fix);
        fix = fix_of(f, *number);
        if fix != other {
            return false;
        }
    }
    f.next == opposite(fix)
}

// All seven bounds.
#[tactic(auto, unfolding(crate::specs::Bounds::within_bounds))]
pub fn within_bounds(f: Field) -> bool
    ensures { result ≡ within_bounds f }
{
    bound_a(f) && bound_b(f) && bound_c(f) && bound_d(f) && bound_e(f) && bound_f(f) && bound_g(f)
}
