// What a host reads off a state that it lends: the spacing of the pairs on the approach, and the field as a list of the classroom dialect.
ghost use Rattle.std.specs.Prelude.{◌≡◌};
ghost use Rattle.host.specs.Calls.{spacings_of, listing_of, spaced, listed, reply_on};

use decoding::read_history;
use dialect::Listing;
use dialect::going::{list_of, list_refused as not_listed};
use gaps::{Spacings, gaps, legal_spacing, spacing_refused};
use history::{History, within_bounds_history};
use layout::State;
use replies::{listing_numbers, pair_gaps, spacing_numbers};

// The spacing of the pairs on the approach of a field with its kept ones.
fn spacings_of(h: History, spacing: u16) -> Spacings
    ensures { result ≡ spacings_of h spacing }
{
    if !legal_spacing(spacing) {
        return spacing_refused(4);
    }
    if !within_bounds_history(h) {
        return spacing_refused(10);
    }
    let x = h.now;
    gaps(x.field, spacing)
}

// The spacing of the pairs on the approach: its number, the count and the pairs, and the gaps in miles.
pub fn spacing(state: &State, spacing: u16, pairs: &mut [usize; 10], miles: &mut [f64; 3]) -> u16
    ensures value { result ≡ (reply_on state.now (spaced spacing)).number }
    ensures pairs_after { pairs.new ≡ (reply_on state.now (spaced spacing)).numbers }
    ensures miles_after { miles.new ≡ (reply_on state.now (spaced spacing)).gaps }
{
    let s = spacings_of(read_history(state), spacing);
    *pairs = spacing_numbers(s);
    *miles = pair_gaps(s);
    s.number
}

// The field of the state as a list of the classroom dialect.
fn listing_of(h: History) -> Listing
    ensures { result ≡ listing_of h }
{
    if !within_bounds_history(h) {
        return not_listed(10);
    }
    list_of(h.now)
}

// The field of the state as a list of the classroom dialect: its number, the count and the entries.
pub fn list(state: &State, entries: &mut [usize; 21]) -> u16
    ensures value { result ≡ (reply_on state.now listed).number }
    ensures entries_after { entries.new ≡ (reply_on state.now listed).numbers }
{
    let l = listing_of(read_history(state));
    *entries = listing_numbers(l);
    l.number
}
