// A session: from the bytes of a practice file to the bytes of the report.
#![tactic(auto)]

pub mod lines;
mod tally;

ghost use Rattle.std.specs.Prelude.{◌≡◌, ◌≤◌, ◌*◌, ◌++◌, length, drop};
ghost use Rattle.limits.specs.Limits.{most_requests};
ghost use Rattle.text.specs.Buffer.{Put, room};
ghost use Rattle.playing.specs.Log.{HasWords};
ghost use Rattle.session.specs.Report.{report_of};
ghost use Rattle.session.specs.Entries.{played_report};

use crate::lines::{put_answers, put_end, put_refused};
use crate::tally::tally_of;
use playing::{Played, play, play_judged};
use text::Buffer;

// The report of what was played, from the buffer's first byte on; the log holds the answers to the requests. Yields the place after it.
fn put_played(out: &mut [u8], p: &Played, log: &[u16]) -> usize
    requires { (7 * p.now.requests ≤ length log.now) × (p.now.requests ≤ most_requests) }
    ensures put { Put out.old 0 (played_report p.now log.now) out.new result }
    ensures has_words { HasWords log.now }
{
    if p.number != 0 {
        return put_refused(out, p.number);
    }
    let (entries, _) = log[..7 * p.requests].as_chunks::<7>();
    let at = put_answers(out, entries);
    put_end(out, at, tally_of(entries), p.present)
}

// Writes the report of a practice file into the buffer, and yields its length.
pub fn report(file: &[u8], out: &mut Buffer) -> usize
    ensures value { result ≡ length (report_of file.now) }
    ensures out_after { out.new ≡ report_of file.now ++ drop result out.old }
    ensures upper_bound { result ≤ room }
{
    let mut log = [0u16; 28672];
    let p = play(file, &mut log);
    put_played(out, &p, &log)
}

// The same report, with the field and its index judged before every request, and the field after it.
pub fn report_judged(file: &[u8], out: &mut Buffer) -> usize
    ensures value { result ≡ length (report_of file.now) }
    ensures out_after { out.new ≡ report_of file.now ++ drop result out.old }
    ensures upper_bound { result ≤ room }
{
    let mut log = [0u16; 28672];
    let p = play_judged(file, &mut log);
    put_played(out, &p, &log)
}
