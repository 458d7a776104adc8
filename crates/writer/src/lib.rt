// Writing a practice file (document 02, 2.11): from four legs and requests that are lent as bytes, the one file that is read as those, into a
// lent buffer.
#![tactic(auto)]

ghost use Rattle.std.specs.Prelude.{◌≡◌, ◌++◌, ◌&&◌, ◌+◌, ◌*◌, ◌%◌, ◌/◌, ◌≤◌, eqb, leb, length};
ghost use Rattle.limits.specs.Limits.{most_requests, longest_body};
ghost use Rattle.refusals.specs.Refusals.{outcome_number};
ghost use Rattle.practice.specs.File.{letters};
ghost use Rattle.practice.specs.Requests.{requests_of};
ghost use Rattle.practice.specs.Practice.{bytes16, entry_bytes, leg_bytes};
ghost use Rattle.text.specs.Buffer.{Put};
ghost use Rattle.writer.specs.Writer.{first_offence, writing_number, writing_of, buffer_after};

use limits::MOST_REQUESTS;
use practice::{FileLegs, legs_allowed, request_at};
use refusals::{Refusal, require};
use request::check_input;
use text::put_text;
use words::{put_number16, put_number32};

// What writing answers: its number, 0 where the file is written, and the file's length, 0 where it is refused.
#[derive(Clone, Copy)]
pub struct Writing {
    pub number: u16,
    pub length: usize,
}

// Whether so many bytes are whole requests, and no more than a practice file may hold.
fn requests_allowed(size: usize) -> bool
    ensures { result ≡ (eqb (size % 6) 0 && leb (size / 6) most_requests) }
{
    size % 6 == 0 && size / 6 <= MOST_REQUESTS
}

// Whether the file of n requests fits into a buffer of so many bytes.
fn file_fits(n: usize, room: usize) -> bool
    ensures { result ≡ leb (34 + 6 * n) room }
{
    34 <= room && n <= (room - 34) / 6
}

// Whether each request of the list keeps the input rules, or why the first one that breaks them is refused.
pub fn check_requests(requests: &[u8]) -> Result<(), Refusal>
    ensures { outcome_number result ≡ first_offence (requests_of requests.now) }
{
    // A request is read by its number, which the loop counts.
    for i in 0..requests.len() / 6 {
        if let Some(r) = request_at(requests, i) {
            check_input(r)?;
        }
    }
    Ok(())
}

// Whether the file may be written into a buffer of so many bytes, or the first reason that applies, in document 02's order.
pub fn check_writing(legs: FileLegs, requests: &[u8], room: usize) -> Result<(), Refusal>
    ensures { outcome_number result ≡ writing_number legs requests.now room }
{
    let size = requests.len();
    require(legs_allowed(legs), Refusal::LegOutOfRange)?;
    require(requests_allowed(size), Refusal::WrongSizeOrLetters)?;
    check_requests(requests)?;
    require(file_fits(size / 6, room), Refusal::BufferTooShort)
}

// An entry of the contents.
fn put_entry(out: &mut [u8], at: usize, kind: u16, offset: u32, size: u32) -> usize
    ensures { Put out.old at (entry_bytes kind offset size) out.new result }
{
    let second = put_number16(out, at, kind);
    let third = put_number32(out, second, offset);
    put_number32(out, third, size)
}

// The body of the legs.
fn put_legs(out: &mut [u8], at: usize, legs: FileLegs) -> usize
    ensures { Put out.old at (leg_bytes legs) out.new result }
{
    let second = put_number16(out, at, legs.base);
    let third = put_number16(out, second, legs.intermediate);
    let fourth = put_number16(out, third, legs.final_approach);
    put_number16(out, fourth, legs.missed)
}

// The whole file, from the buffer's first byte on: the letters, the count, the two entries and the two bodies.
fn put_file(out: &mut [u8], legs: FileLegs, requests: &[u8]) -> usize
    requires { length requests.now ≤ longest_body }
    ensures { Put out.old 0 (letters ++ bytes16 2 ++ entry_bytes 1 26 8 ++ entry_bytes 2 34 (length requests.now) ++ leg_bytes legs ++ requests.now)
        out.new result }
{
    let size = requests.len() as u32;
    let count = put_text(out, 0, b"SCAP");
    let first = put_number16(out, count, 2);
    let second = put_entry(out, first, 1, 26, 8);
    let body = put_entry(out, second, 2, 34, size);
    let next = put_legs(out, body, legs);
    put_text(out, next, requests)
}

// Writes the practice file of the legs and requests to the start of the buffer, or refuses it and leaves the buffer as lent.
pub fn write(legs: FileLegs, requests: &[u8], out: &mut [u8]) -> Writing
    ensures value { result ≡ writing_of legs requests.now (length out.old) }
    ensures out_after { out.new ≡ buffer_after legs requests.now out.old }
{
    if let Err(refusal) = check_writing(legs, requests, out.len()) {
        return Writing {
            number: refusal.number(),
            length: 0,
        };
    }
    let end = put_file(out, legs, requests);
    Writing {
        number: 0,
        length: end,
    }
}
