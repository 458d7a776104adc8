// The report of a binder, from the binder's bytes: what was answered in the files that play, by kind and number.
#![tactic(auto)]

mod counts;
mod lines;

ghost use Rattle.std.specs.Prelude.{◌≡◌, ◌++◌, ◌≤◌, length, drop};
ghost use Rattle.text.specs.Buffer.{room};
ghost use Rattle.contents.specs.Contents.{files_of};
ghost use Rattle.binder.specs.Week.{week_of};
ghost use Rattle.binder.specs.Counts.{counts_of};

use crate::counts::{Counts, empty_counts};
use crate::lines::{put_refused, put_week};
use contents::{check_binder, file_at, file_count};
use playing::play;
use text::Buffer;

// What the files of a binder add up to; nothing where it is refused.
fn counts_of(binder: &[u8]) -> Counts
    ensures { result ≡ counts_of (files_of binder.now) }
{
    let mut log = [0u16; 28672];
    let mut c = empty_counts();
    // A file is looked up by its number, which the loop counts.
    for i in 0..file_count(binder) {
        let p = play(file_at(binder, i), &mut log);
        c.add_number(p.number);
        let (entries, _) = log[..7 * p.requests].as_chunks::<7>();
        c.add_answers(entries);
    }
    c
}

// Writes the report of a binder into the buffer, and yields its length.
pub fn week(binder: &[u8], out: &mut Buffer) -> usize
    ensures value { result ≡ length (week_of binder.now) }
    ensures out_after { out.new ≡ week_of binder.now ++ drop result out.old }
    ensures upper_bound { result ≤ room }
{
    if let Err(refusal) = check_binder(binder) {
        return put_refused(out, refusal.number());
    }
    put_week(out, counts_of(binder))
}
