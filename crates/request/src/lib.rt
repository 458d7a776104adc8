// A request, as six bytes and by its parts, the rule of each kind, and the rules that turn a request away by itself: refusals 31 and 1 to 4.
#![tactic(auto)]

ghost use Rattle.std.specs.Prelude.{◌≡◌, true, cond, not, eqb};
ghost use Rattle.request.specs.Input.{word, request_of, range, in_range, asked_of, rule_of, input_number};
ghost use Rattle.refusals.specs.Refusals.{outcome_number};

use limits::{DESKS, FASTEST, LONGEST_TICK};
use refusals::{Refusal, require};

// Document 01's request: what is asked, the side, the aircraft's number, and a speed or the 64ths of a minute of a tick; and document 02's
// desk that asks.
#[derive(Clone, Copy)]
pub struct Request {
    pub kind: u8,
    pub side: u8,
    pub number: u16,
    pub amount: u16,
    pub desk: u8,
}

// The numbers from the first to the second, both included; none where the second is the smaller.
#[derive(Clone, Copy)]
pub struct Range(pub u16, pub u16);

// What a kind of request asks: its side, whether it means an aircraft, its amount, and the zones that it starts from.
#[derive(Clone, Copy)]
pub struct KindRule {
    pub sides: Range,
    pub aircraft: bool,
    pub amounts: Range,
    pub zones: Range,
}

// The number that two bytes hold, the low one first.
pub fn word(low: u8, high: u8) -> u16
    ensures { result ≡ word low high }
{
    low as u16 + 256 * (high as u16)
}

// The request that six bytes hold, asked by desk 1.
pub fn request_of(bytes: [u8; 6]) -> Request
    ensures { result ≡ request_of bytes }
{
    Request {
        kind: bytes[0],
        side: bytes[1],
        number: word(bytes[2], bytes[3]),
        amount: word(bytes[4], bytes[5]),
        desk: 1,
    }
}

// Whether a number is in a range.
pub fn in_range(range: Range, n: usize) -> bool
    ensures { result ≡ in_range range n }
{
    let low = range.0 as usize;
    let high = range.1 as usize;
    if low <= n { n <= high } else { false }
}

// The rule of a kind that takes an aircraft from one of the zones first to last: side 0, an aircraft's number, amount 0.
fn move_rule(first: u16, last: u16) -> KindRule
    ensures { result ≡ record { sides = range 0 0; aircraft = true; amounts = range 0 0; zones = range first last } }
{
    KindRule {
        sides: Range(0, 0),
        aircraft: true,
        amounts: Range(0, 0),
        zones: Range(first, last),
    }
}

// The rule of each kind: what its side, number and amount must be, and the zones that it starts from; none where it is not one of 1 to 12.
pub fn rule_of(kind: u8) -> Option<KindRule>
    ensures { result ≡ rule_of kind }
{
    match kind {
        1..=2 => Some(KindRule {
            sides: Range(1, 2),
            aircraft: true,
            amounts: Range(1, FASTEST),
            zones: Range(1, 0),
        }),
        3 => Some(move_rule(1, 2)),
        4 => Some(move_rule(3, 6)),
        5 => Some(move_rule(9, 10)),
        6 | 9 => Some(move_rule(11, 11)),
        7 | 10 => Some(move_rule(12, 12)),
        8 => Some(move_rule(13, 13)),
        11 => Some(move_rule(7, 8)),
        12 => Some(KindRule {
            sides: Range(0, 0),
            aircraft: false,
            amounts: Range(1, LONGEST_TICK),
            zones: Range(1, 0),
        }),
        _ => None,
    }
}

// What a kind asks, as its rule says; what is no kind asks the side and the amount 0 and an aircraft's number, and starts from no zone.
pub fn asked_of(kind: u8) -> KindRule
    ensures { result ≡ asked_of kind }
{
    rule_of(kind).unwrap_or(move_rule(1, 0))
}

// Whether a number is not 0 just where the rule's kind means an aircraft.
fn number_fits(rule: KindRule, number: u16) -> bool
    ensures { result ≡ cond rule.aircraft (not (eqb number 0)) (eqb number 0) }
{
    rule.aircraft == (number != 0)
}

// Why the request is turned away by itself, by the first input rule that it breaks; nothing where it keeps them all.
#[tactic(auto, using(refusals::proofs::Outcomes::number_some), unfolding(refusals::specs::Refusals::number_of, crate::specs::Input::input_number, crate::specs::Input::desk_allowed, crate::specs::Input::kind_allowed, crate::specs::Input::side_allowed, crate::specs::Input::number_allowed, crate::specs::Input::amount_allowed))]
pub fn check_input(r: Request) -> Result<(), Refusal>
    ensures { outcome_number result ≡ input_number r }
{
    require(
        in_range(Range(1, DESKS), r.desk as usize),
        Refusal::NoSuchDesk,
    )?;
    let rule = rule_of(r.kind).ok_or(Refusal::NoSuchKind)?;
    require(
        in_range(rule.sides, r.side as usize),
        Refusal::SideDoesNotFit,
    )?;
    require(number_fits(rule, r.number), Refusal::NumberDoesNotFit)?;
    require(
        in_range(rule.amounts, r.amount as usize),
        Refusal::AmountDoesNotFit,
    )
}
