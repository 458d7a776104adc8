// The field after each request of a practice file, in numbers: from the bytes of the file to the bytes of the report.
#![tactic(auto)]

pub mod lines;

ghost use Rattle.std.specs.Prelude.{◌≡◌, ◌++◌, ◌≤◌, length, drop};
ghost use Rattle.limits.specs.Limits.{most_requests};
ghost use Rattle.practice.specs.Requests.{requests_of};
ghost use Rattle.field.specs.Airspace.{empty_field};
ghost use Rattle.text.specs.Buffer.{Put};
ghost use Rattle.positions.specs.Positions.{lines_from, positions_of};

use crate::lines::put_field;
use field::Legs;
use field::airspace::empty_field;
use playing::legs_in_miles;
use practice::{check_file, file_legs, request_at};
use session::lines::put_refused;
use step::step;

// The caller's buffer, long enough for the report of every file (`positions_fit` of proofs/LineSizes.antt).
pub type PositionsBuffer = [u8; 1048576];

// A line for each request of a body, played from the empty field, from the buffer's first byte on.
fn put_body(out: &mut [u8], body: &[u8], legs: Legs) -> usize
    requires { length (requests_of body.now) ≤ most_requests }
    ensures { Put out.old 0 (lines_from 1 (empty_field legs) (requests_of body.now)) out.new result }
{
    let mut f = empty_field(legs);
    let mut at = 0;
    let mut i = 0;
    while let Some(r) = request_at(body, i) {
        let s = step(f, r);
        i += 1;
        f = s.field;
        at = put_field(out, at, i, f);
    }
    at
}

// Writes the report of a practice file into the buffer, and yields its length.
pub fn positions(file: &[u8], out: &mut PositionsBuffer) -> usize
    ensures value { result ≡ length (positions_of file.now) }
    ensures out_after { out.new ≡ positions_of file.now ++ drop result out.old }
    ensures upper_bound { result ≤ length out.new }
{
    let bytes: &mut [u8] = out;
    if let Err(refusal) = check_file(file) {
        return put_refused(bytes, refusal.number());
    }
    put_body(bytes, &file[34..], legs_in_miles(file_legs(file)))
}
