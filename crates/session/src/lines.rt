// The lines of a report, put into the caller's buffer. Each function yields the place after what it put.
ghost use Rattle.text.specs.Buffer.{Put};
ghost use Rattle.session.specs.Report.{end_line, refused_report};
ghost use Rattle.session.specs.Entries.{entry_lines};

use crate::tally::Tally;
use text::{put_line, put_named, put_text};

// The lines of the entries of a log, from the buffer's first byte on: an index from 1 stands where an entry has the kind.
pub(crate) fn put_answers(out: &mut [u8], entries: &[[u16; 7]]) -> usize
    ensures { Put out.old 0 (entry_lines 1 entries.now) out.new result }
{
    let mut at = 0;
    for (i, entry) in entries.iter().enumerate() {
        let mut numbers = entry.map(usize::from);
        numbers[0] = i + 1;
        at = put_line(out, at, &numbers);
    }
    at
}

// The last line, with the closing counts.
pub(crate) fn put_end(out: &mut [u8], at: usize, t: Tally, present: usize) -> usize
    ensures { Put out.old at (end_line t present) out.new result }
{
    let next = put_text(out, at, b"end ");
    put_line(out, next, &[t.entries, t.taxis, t.exits, t.misses, present])
}

// The report of a refused file, from the buffer's first byte on.
pub fn put_refused(out: &mut [u8], number: u16) -> usize
    ensures { Put out.old 0 (refused_report number) out.new result }
{
    put_named(out, 0, b"file ", number as usize)
}
