// The spacing along the path after a practice file (document 02, 2.8): from the bytes of the file and a spacing to the bytes of the report.
#![tactic(auto)]

mod lines;

ghost use Rattle.std.specs.Prelude.{◌≡◌, ◌≤◌, ◌++◌, length, drop};
ghost use Rattle.spaced.specs.Spaced.{spaced_of, spaced_room};

use crate::lines::{put_refused_spacing, put_spacings};
use gaps::{gaps, legal_spacing};
use playing::play;
use session::lines::put_refused;

// The caller's buffer, long enough for every report of spacings.
pub type SpacingBuffer = [u8; 1024];

// Writes the report of a practice file and a spacing into the buffer, and yields its length.
pub fn spaced(file: &[u8], spacing: u16, out: &mut SpacingBuffer) -> usize
    ensures value { result ≡ length (spaced_of file.now spacing) }
    ensures out_after { out.new ≡ spaced_of file.now spacing ++ drop result out.old }
    ensures upper_bound { result ≤ spaced_room }
{
    if !legal_spacing(spacing) {
        return put_refused_spacing(out, 4);
    }
    let mut log = [0u16; 28672];
    let p = play(file, &mut log);
    if p.number != 0 {
        return put_refused(out, p.number);
    }
    put_spacings(out, gaps(p.field, spacing))
}
