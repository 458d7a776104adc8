// The lines of a spacing report, put into the caller's buffer (specs/Spaced.antt). Each function yields the place after what it put.
ghost use Rattle.text.specs.Buffer.{Put};
ghost use Rattle.spaced.specs.Spaced.{gap_text, spacing_text, pair_line, refused_spacing, spacings_report};

use gaps::{Pair, Spacing, Spacings};
use miles::put_miles;
use text::{put_byte, put_named, put_number, put_text};

// The gap at the end of a line.
fn put_gap(out: &mut [u8], at: usize, gap: f64) -> usize
    ensures { Put out.old at (gap_text gap) out.new result }
{
    let next = put_miles(out, at, gap);
    put_byte(out, next, b'\n')
}

// `close` or `clear`, and the gap.
fn put_spacing(out: &mut [u8], at: usize, s: Spacing) -> usize
    ensures { Put out.old at (spacing_text s) out.new result }
{
    match s {
        Spacing::Close(gap) => {
            let next = put_text(out, at, b"close ");
            put_gap(out, next, gap)
        }
        Spacing::Clear(gap) => {
            let next = put_text(out, at, b"clear ");
            put_gap(out, next, gap)
        }
    }
}

// The line of a pair.
fn put_pair(out: &mut [u8], at: usize, p: Pair) -> usize
    ensures { Put out.old at (pair_line p) out.new result }
{
    let s = p.spacing;
    let leader = put_number(out, at, p.leader as usize);
    let between = put_byte(out, leader, b' ');
    let follower = put_number(out, between, p.follower as usize);
    let after = put_byte(out, follower, b' ');
    put_spacing(out, after, s)
}

// The report of a refused spacing, from the buffer's first byte on.
#[tactic(auto, unfolding(crate::specs::Spaced::refused_spacing))]
pub(crate) fn put_refused_spacing(out: &mut [u8], number: u16) -> usize
    ensures { Put out.old 0 (refused_spacing number) out.new result }
{
    put_named(out, 0, b"spacing ", number as usize)
}

// The report of an answer, from the buffer's first byte on: a refusal, or a line for each pair.
pub(crate) fn put_spacings(out: &mut [u8], s: Spacings) -> usize
    ensures { Put out.old 0 (spacings_report s) out.new result }
{
    if s.number != 0 {
        return put_refused_spacing(out, s.number);
    }
    let mut at = 0;
    for p in &s.pairs[..s.count.min(3)] {
        at = put_pair(out, at, *p);
    }
    at
}
