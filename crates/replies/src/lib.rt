// The numbers and gaps that a host's calls put into the memory that they are lent (specs/Replies.antt).
#![tactic(auto)]

ghost use Rattle.std.specs.Prelude.{◌≡◌, [], ◌∷◌};
ghost use Rattle.press.specs.HeldDown.{ending_number};
ghost use Rattle.replies.specs.Replies.{answer_numbers, request_numbers, spent_mark, held_numbers, close_mark, gap_miles, pair_gaps, spacing_numbers, listing_numbers};

use dialect::{ListEntry, Listing};
use gaps::{Pair, Spacing, Spacings};
use press::{Ending, Proposal};
use request::Request;
use rules::Answer;

// The six numbers of an answer.
pub fn answer_numbers(a: Answer) -> [usize; 6]
    ensures { result ≡ answer_numbers a }
{
    [
        a.number as usize,
        a.aircraft as usize,
        a.zone,
        a.fix as usize,
        a.leader as usize,
        a.along as usize,
    ]
}

// The five numbers of the request that a press plays; zeros where it plays none.
pub fn request_numbers(p: Proposal) -> [usize; 5]
    ensures { result ≡ request_numbers p }
{
    match p {
        Proposal::Refused | Proposal::None => [0; 5],
        Proposal::Play(r) => [
            r.desk as usize,
            r.kind as usize,
            r.side as usize,
            r.number as usize,
            r.amount as usize,
        ],
    }
}

// The number of the end of the button held down.
pub fn end_number(e: Ending) -> u16
    ensures { result ≡ ending_number e }
{
    match e {
        Ending::Refused => 10,
        Ending::None | Ending::Spent => 0,
    }
}

// 1 where the presses are spent, else 0.
fn spent_mark(e: Ending) -> usize
    ensures { result ≡ spent_mark e }
{
    match e {
        Ending::Refused | Ending::None => 0,
        Ending::Spent => 1,
    }
}

// How many requests the button held down played, and whether its presses are spent.
pub fn held_numbers(played: usize, e: Ending) -> [usize; 2]
    ensures { result ≡ held_numbers played e }
{
    [played, spent_mark(e)]
}

// 1 where a pair is close, else 0.
fn close_mark(s: Spacing) -> usize
    ensures { result ≡ close_mark s }
{
    match s {
        Spacing::Close(_) => 1,
        Spacing::Clear(_) => 0,
    }
}

// The gap of a pair in miles.
fn gap_miles(s: Spacing) -> f64
    ensures { result ≡ gap_miles s }
{
    match s {
        Spacing::Close(gap) | Spacing::Clear(gap) => gap,
    }
}

// The three numbers of a pair.
fn numbers_of_pair(p: Pair) -> [usize; 3]
    ensures { result ≡ p.leader ∷ p.follower ∷ close_mark p.spacing ∷ [] }
{
    [
        p.leader as usize,
        p.follower as usize,
        close_mark(p.spacing),
    ]
}

// The count and the numbers of three pairs.
pub fn spacing_numbers(s: Spacings) -> [usize; 10]
    ensures { result ≡ spacing_numbers s }
{
    let mut numbers = [s.count; 10];
    numbers[1..].copy_from_slice(s.pairs.map(numbers_of_pair).as_flattened());
    numbers
}

// The gaps of three pairs.
pub fn pair_gaps(s: Spacings) -> [f64; 3]
    ensures { result ≡ pair_gaps s.pairs }
{
    s.pairs.map(|p| gap_miles(p.spacing))
}

// The four numbers of an entry of a list.
fn numbers_of_entry(e: ListEntry) -> [usize; 4]
    ensures { result ≡ e.number ∷ e.location ∷ e.place ∷ e.fix ∷ [] }
{
    [
        e.number as usize,
        e.location as usize,
        e.place as usize,
        e.fix as usize,
    ]
}

// The count and the numbers of five entries.
pub fn listing_numbers(l: Listing) -> [usize; 21]
    ensures { result ≡ listing_numbers l }
{
    let mut numbers = [l.count; 21];
    numbers[1..].copy_from_slice(l.entries.map(numbers_of_entry).as_flattened());
    numbers
}
