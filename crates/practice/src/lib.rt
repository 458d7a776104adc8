// The practice file, from the bytes that the caller lends: why it is refused, its two sections as stretches of those
// bytes, and the legs and the requests that they hold.
#![tactic(auto)]

ghost use Rattle.std.specs.Prelude.{◌≡◌, ◌+◌, ◌≤◌, length};
ghost use Rattle.refusals.specs.Refusals.{outcome_number};
ghost use Rattle.practice.specs.File.{number16, number32, legs_of, legs_allowed, opens, entry_is, contents_allowed, file_number};
ghost use Rattle.practice.specs.Sections.{place_at, section_offset, section_length, section_bytes, legs_of_the_file};
ghost use Rattle.practice.specs.Requests.{request_at};

use limits::{LONGEST_BODY, LONGEST_FILE, LONGEST_LEG};
use refusals::{Refusal, require};
use request::{Range, Request, in_range};

// The legs of a practice file, in 64ths of a mile; `final` alone is a word that the language keeps.
#[derive(Clone, Copy)]
pub struct FileLegs {
    pub base: u16,
    pub intermediate: u16,
    pub final_approach: u16,
    pub missed: u16,
}

// The number of 16 bits at a place of some bytes, the low byte first; a byte past their end reads as 0.
pub fn number16(bytes: &[u8], at: usize) -> u16
    ensures { result ≡ number16 bytes.now at }
{
    let Some(&low) = bytes.get(at) else {
        return 0;
    };
    let high = bytes.get(at + 1).copied().unwrap_or(0);
    request::word(low, high)
}

// The same of 32 bits.
pub fn number32(bytes: &[u8], at: usize) -> u32
    ensures { result ≡ number32 bytes.now at }
{
    if at >= bytes.len() {
        return 0;
    }
    number16(bytes, at) as u32 + 65536 * (number16(bytes, at + 2) as u32)
}

// Whether the file's length is allowed and its first four bytes are the letters SCAP.
#[tactic(auto, using(crate::proofs::SameBytes::starts_same), unfolding(crate::specs::File::opens))]
fn opens(file: &[u8]) -> bool
    ensures { result ≡ opens file.now }
{
    26 <= file.len() && file.len() <= LONGEST_FILE && file.starts_with(b"SCAP")
}

// Whether the entry at a place of the contents has this kind, offset and length.
fn entry_is(file: &[u8], at: usize, kind: u16, offset: u32, size: u32) -> bool
    requires { at + 10 ≤ length file.now }
    ensures { result ≡ entry_is file.now at kind offset size }
{
    number16(file, at) == kind && number32(file, at + 2) == offset && number32(file, at + 6) == size
}

// Whether the contents are those of a practice file of this length.
#[tactic(auto, unfolding(crate::specs::File::contents_allowed))]
fn contents_allowed(file: &[u8]) -> bool
    requires { 26 ≤ length file.now }
    ensures { result ≡ contents_allowed file.now }
{
    let n = number32(file, 22);
    number16(file, 4) == 2
        && entry_is(file, 6, 1, 26, 8)
        && entry_is(file, 16, 2, 34, n)
        && n % 6 == 0
        && n <= LONGEST_BODY
        && 34 + n as usize == file.len()
}

// The legs that the eight bytes of a body hold; a byte past its end reads as 0.
pub fn legs_of(body: &[u8]) -> FileLegs
    ensures { result ≡ legs_of body.now }
{
    FileLegs {
        base: number16(body, 0),
        intermediate: number16(body, 2),
        final_approach: number16(body, 4),
        missed: number16(body, 6),
    }
}

// Whether each leg is from 1 64th of a mile to the longest leg.
#[tactic(auto, unfolding(crate::specs::File::legs_allowed))]
pub fn legs_allowed(legs: FileLegs) -> bool
    ensures { result ≡ legs_allowed legs }
{
    let allowed = Range(1, LONGEST_LEG);
    in_range(allowed, legs.base as usize)
        && in_range(allowed, legs.intermediate as usize)
        && in_range(allowed, legs.final_approach as usize)
        && in_range(allowed, legs.missed as usize)
}

// Whether the file is accepted, or why it is refused.
#[tactic(auto, unfolding(crate::specs::File::file_number))]
pub fn check_file(file: &[u8]) -> Result<(), Refusal>
    ensures { outcome_number result ≡ file_number file.now }
{
    require(opens(file), Refusal::WrongSizeOrLetters)?;
    require(contents_allowed(file), Refusal::WrongContents)?;
    require(legs_allowed(legs_of(&file[26..34])), Refusal::LegOutOfRange)
}

// The section of a kind: that stretch of the lent file, empty for an unknown kind or a refused file.
pub fn section(file: &[u8], kind: u16) -> &[u8]
    ensures ref_ptr_value { result.ref_ptr ≡ place_at file.entry (section_offset file.now kind) }
    ensures result_len { length result.now ≡ section_length file.now kind }
    ensures result_value { result.now ≡ section_bytes file.now kind }
{
    if check_file(file).is_err() {
        return &file[..0];
    }
    match kind {
        1 => &file[26..34],
        2 => &file[34..],
        _ => &file[..0],
    }
}

// The legs of the file; all 0 where it is refused.
pub fn file_legs(file: &[u8]) -> FileLegs
    ensures { result ≡ legs_of_the_file file.now }
{
    legs_of(section(file, 1))
}

// The i-th of those requests, counted from 0; none past the last.
pub fn request_at(body: &[u8], i: usize) -> Option<Request>
    ensures { result ≡ request_at body.now i }
{
    if i >= body.len() / 6 {
        return None;
    }
    let at = 6 * i;
    Some(request::request_of([
        body[at],
        body[at + 1],
        body[at + 2],
        body[at + 3],
        body[at + 4],
        body[at + 5],
    ]))
}
