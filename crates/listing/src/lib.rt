// The reports of the program `classroom` (document 02, 2.12): the list of the field after a practice file, and the field that a list builds.
#![tactic(auto)]

mod lines;

ghost use Rattle.std.specs.Prelude.{◌≡◌, ◌++◌, ◌≤◌, length, drop};
ghost use Rattle.listing.specs.Report.{listed_of, built_of, classroom_room};

use crate::lines::{put_built, put_list, put_refusal};
use dialect::going::list_of;
use dialect_field::coming::field_of_list;
use indexed::with_index;
use playing::play;
use practice::{legs_of, number16};
use session::lines::put_refused;

// The caller's buffer, long enough for every report.
pub type ClassroomBuffer = [u8; 512];

// Writes the list of the field after a practice file into the buffer, and yields its length.
pub fn listed(file: &[u8], out: &mut ClassroomBuffer) -> usize
    ensures value { result ≡ length (listed_of file.now) }
    ensures out_after { out.new ≡ listed_of file.now ++ drop result out.old }
    ensures upper_bound { result ≤ classroom_room }
{
    let bytes: &mut [u8] = out;
    let mut log = [0u16; 28672];
    let p = play(file, &mut log);
    let number = p.number;
    if number != 0 {
        return put_refused(bytes, number);
    }
    let x = with_index(p.field);
    put_list(bytes, 0, list_of(x))
}

// Writes the next fix and the list of the field that a list builds into the buffer, and yields its length.
pub fn rebuilt(input: &[u8], out: &mut ClassroomBuffer) -> usize
    ensures value { result ≡ length (built_of input.now) }
    ensures out_after { out.new ≡ built_of input.now ++ drop result out.old }
    ensures upper_bound { result ≤ classroom_room }
{
    let bytes: &mut [u8] = out;
    if input.len() < 8 {
        return put_refusal(bytes, 0, 7);
    }
    let legs = legs_of(input);
    if input.len() < 10 {
        return put_built(bytes, field_of_list(legs, 0, &input[8..8]));
    }
    let speed = number16(input, 8);
    let b = field_of_list(legs, speed, &input[10..]);
    put_built(bytes, b)
}
