// The button held down after a practice file (document 02, 2.6): from the bytes of the file to the bytes of the report.
#![tactic(auto)]

ghost use Rattle.std.specs.Prelude.{◌≡◌, ◌≤◌, ◌++◌, length, drop};
ghost use Rattle.text.specs.Buffer.{Put, room};
ghost use Rattle.demonstration.specs.Demonstration.{end_word, ending_line, button_of};

use playing::play;
use press::{Ending, hold_down};
use session::lines::put_refused;
use text::{Buffer, put_line, put_text};

// Puts the word of an ending into the buffer, from a place on.
fn put_word(out: &mut [u8], at: usize, ending: Ending) -> usize
    ensures { Put out.old at (end_word ending) out.new result }
{
    match ending {
        Ending::None => put_text(out, at, b"none "),
        Ending::Spent => put_text(out, at, b"spent "),
        Ending::Refused => put_text(out, at, b"refused "),
    }
}

// Puts the last line into the buffer, from a place on.
fn put_end(out: &mut [u8], at: usize, ending: Ending, played: usize) -> usize
    ensures { Put out.old at (ending_line ending played) out.new result }
{
    let next = put_word(out, at, ending);
    put_line(out, next, &[played])
}

// Writes the report of the button held down after a practice file into the buffer, and yields its length.
pub fn button(file: &[u8], out: &mut Buffer) -> usize
    ensures value { result ≡ length (button_of file.now) }
    ensures out_after { out.new ≡ button_of file.now ++ drop result out.old }
    ensures upper_bound { result ≤ room }
{
    let mut log = [0u16; 28672];
    let p = play(file, &mut log);
    if p.number != 0 {
        return put_refused(out, p.number);
    }
    let h = hold_down(p.field, out);
    put_end(out, h.end, h.held.ending, h.held.played)
}
