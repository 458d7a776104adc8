// The lines of a classroom report, put into the caller's buffer (specs/Report.antt). Each function yields the place after what it put.
ghost use Rattle.std.specs.Prelude.{◌≤◌, length};
ghost use Rattle.text.specs.Buffer.{Put};
ghost use Rattle.listing.specs.Report.{entry_line, refusal, list_report, next_line, built_report, classroom_room};

use dialect::going::list_of;
use dialect::{ListEntry, Listing};
use dialect_field::Built;
use text::{put_line, put_named};

// The line of an entry.
#[tactic(auto, unfolding(crate::specs::Report::entry_line))]
fn put_entry(out: &mut [u8], at: usize, e: ListEntry) -> usize
    ensures { Put out.old at (entry_line e) out.new result }
{
    let numbers = [e.number, e.location, e.place, e.fix].map(usize::from);
    put_line(out, at, &numbers)
}

// The line of a refusal.
#[tactic(auto, unfolding(crate::specs::Report::refusal))]
pub(crate) fn put_refusal(out: &mut [u8], at: usize, number: u16) -> usize
    ensures { Put out.old at (refusal number) out.new result }
{
    put_named(out, at, b"refused ", number as usize)
}

// The line of the next fix.
#[tactic(auto, unfolding(crate::specs::Report::next_line))]
fn put_next(out: &mut [u8], at: usize, fix: u8) -> usize
    ensures { Put out.old at (next_line fix) out.new result }
{
    put_named(out, at, b"next ", fix as usize)
}

// The report of a list: a refusal, or a line for each entry.
pub(crate) fn put_list(out: &mut [u8], at: usize, l: Listing) -> usize
    ensures { Put out.old at (list_report l) out.new result }
{
    if l.number != 0 {
        return put_refusal(out, at, l.number);
    }
    let mut next = at;
    for e in &l.entries[..l.count.min(5)] {
        next = put_entry(out, next, *e);
    }
    next
}

// The report of a field that a list built, from the buffer's first byte on: a refusal, or its next fix and its list.
pub(crate) fn put_built(out: &mut [u8], b: Built) -> usize
    ensures put { Put out.old 0 (built_report b) out.new result }
    ensures b_len_bound { length (built_report b) ≤ classroom_room }
{
    if b.number != 0 {
        return put_refusal(out, 0, b.number);
    }
    let x = b.after;
    let f = x.field;
    let next = put_next(out, 0, f.next);
    put_list(out, next, list_of(x))
}
