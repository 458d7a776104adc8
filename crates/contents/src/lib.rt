// A binder of practice files, from the bytes that the caller lends: why it is refused, how many files it holds, and each file
// as a stretch of those bytes.
#![tactic(auto)]

ghost use Rattle.std.specs.Prelude.{◌≡◌, length};
ghost use Rattle.refusals.specs.Refusals.{outcome_number};
ghost use Rattle.practice.specs.Sections.{place_at};
ghost use Rattle.contents.specs.Contents.{entry_count, table_allowed, files_placed, binder_number, file_count, file_offset, file_length, file_at};

use practice::{number16, number32};
use refusals::{Refusal, require};

// How many entries the contents table has.
fn entry_count(binder: &[u8]) -> usize
    ensures { result ≡ entry_count binder.now }
{
    number16(binder, 0) as usize
}

// Whether the binder's size and its count are allowed and the table fits.
#[tactic(auto, unfolding(crate::specs::Contents::table_allowed))]
fn table_allowed(binder: &[u8]) -> bool
    ensures { result ≡ table_allowed binder.now }
{
    let n = binder.len();
    let count = entry_count(binder);
    n <= 65536 && 1 <= count && count <= 64 && 2 + 8 * count <= n
}

// Whether the files fill the binder from the end of the table on, each from where the one before ends.
fn files_placed(binder: &[u8]) -> bool
    ensures { result ≡ files_placed binder.now }
{
    let count = entry_count(binder);
    let mut end = 2 + 8 * count;
    // An entry of the table stands where its number says, which the loop counts.
    for i in 0..count {
        let at = 2 + 8 * i;
        if number32(binder, at) as usize != end {
            return false;
        }
        end += number32(binder, at + 4) as usize;
    }
    end == binder.len()
}

// Whether the binder is accepted, or why it is refused.
#[tactic(auto, unfolding(crate::specs::Contents::binder_number, refusals::specs::Refusals::number_of))]
pub fn check_binder(binder: &[u8]) -> Result<(), Refusal>
    ensures { outcome_number result ≡ binder_number binder.now }
{
    require(
        table_allowed(binder) && files_placed(binder),
        Refusal::NoBinder,
    )
}

// How many files the binder holds; 0 where it is refused.
pub fn file_count(binder: &[u8]) -> usize
    ensures { result ≡ file_count binder.now }
{
    match check_binder(binder) {
        Ok(()) => entry_count(binder),
        Err(_) => 0,
    }
}

// The i-th file, counted from 0: that stretch of the lent binder, empty at its first byte where there is no such file.
pub fn file_at(binder: &[u8], i: usize) -> &[u8]
    ensures ref_ptr_value { result.ref_ptr ≡ place_at binder.entry (file_offset binder.now i) }
    ensures result_len { length result.now ≡ file_length binder.now i }
    ensures result_value { result.now ≡ file_at binder.now i }
{
    if file_count(binder) <= i {
        return &binder[..0];
    }
    let at = 2 + 8 * i;
    let start = number32(binder, at) as usize;
    let end = start + number32(binder, at + 4) as usize;
    &binder[start..end]
}
