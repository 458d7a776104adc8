// What the program `author` prints (document 02, 2.11): from the bytes of four legs and requests to those of their practice file.
#![tactic(auto)]

ghost use Rattle.std.specs.Prelude.{◌≡◌, ◌++◌, ◌≤◌, length, drop};
ghost use Rattle.text.specs.Buffer.{Put};
ghost use Rattle.authored.specs.Authored.{file_room, refused_line, authored_of};

use practice::legs_of;
use text::put_named;
use writer::write;

// The caller's buffer, long enough for every practice file.
pub type FileBuffer = [u8; 24610];

// A refusal, from the buffer's first byte on.
#[tactic(auto, unfolding(crate::specs::Authored::refused_line))]
pub fn put_refused(out: &mut [u8], number: u16) -> usize
    ensures { Put out.old 0 (refused_line number) out.new result }
{
    put_named(out, 0, b"refused ", number as usize)
}

// Writes the practice file of the input's legs and requests into the buffer, or the line that refuses them, and yields its length.
pub fn authored(input: &[u8], out: &mut FileBuffer) -> usize
    ensures value { result ≡ length (authored_of input.now) }
    ensures out_after { out.new ≡ authored_of input.now ++ drop result out.old }
    ensures upper_bound { result ≤ file_room }
{
    let bytes: &mut [u8] = out;
    if input.len() < 8 {
        return put_refused(bytes, 7);
    }
    let legs = legs_of(input);
    let w = write(legs, &input[8..], bytes);
    let number = w.number;
    if number != 0 {
        return put_refused(bytes, number);
    }
    w.length
}
