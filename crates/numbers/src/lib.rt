// The numbers of those on the field, and what bound e asks of them (specs/Numbers.antt).
#![tactic(auto)]

ghost use Rattle.std.specs.Prelude.{◌≡◌, map};
ghost use Rattle.field.specs.Airspace.{queue_of};
ghost use Rattle.field.specs.Lists.{is_in, every, all_different};
ghost use Rattle.numbers.specs.Numbers.{numbers_of, apart, numbers_differ, sequence_exact};

use field::zones::FINAL;
use field::{Aircraft, Field, Zone};

// Whether somebody in a queue has a number.
fn has(queue: &[Aircraft], number: u16) -> bool
    ensures { result ≡ is_in number (map (λ a. a.number) queue.now) }
{
    queue.iter().any(|a| a.number == number)
}

// Whether somebody in some zones has a number.
fn has_in(zones: &[Zone], number: u16) -> bool
    ensures { result ≡ is_in number (numbers_of zones.now) }
{
    zones.iter().any(|q| has(q.queue(), number))
}

// Whether the numbers of a queue are nonzero, and different from one another and from those in the zones behind it.
fn apart(queue: &[Aircraft], behind: &[Zone]) -> bool
    ensures { result ≡ apart (map (λ a. a.number) queue.now) (numbers_of behind.now) }
{
    for (i, a) in queue.iter().enumerate() {
        if a.number == 0 || has(&queue[i + 1..], a.number) || has_in(behind, a.number) {
            return false;
        }
    }
    true
}

// Whether the numbers of those on the field are nonzero and all different.
pub fn numbers_differ(f: Field) -> bool
    ensures { result ≡ numbers_differ f }
{
    for (i, q) in f.zones.iter().enumerate() {
        if !apart(q.queue(), &f.zones[i + 1..]) {
            return false;
        }
    }
    true
}

// Whether a number is one of the listed ones.
fn is_in(numbers: &[u16], number: u16) -> bool
    ensures { result ≡ is_in number numbers.now }
{
    numbers.contains(&number)
}

// Whether no number is listed twice.
fn all_different(numbers: &[u16]) -> bool
    ensures { result ≡ all_different numbers.now }
{
    for (i, n) in numbers.iter().enumerate() {
        if is_in(&numbers[i + 1..], *n) {
            return false;
        }
    }
    true
}

// Whether each listed number is somebody's in some zones.
fn each_present(numbers: &[u16], zones: &[Zone]) -> bool
    ensures { result ≡ every (λ n. is_in n (numbers_of zones.now)) numbers.now }
{
    numbers.iter().all(|n| has_in(zones, *n))
}

// Whether everyone in a zone has one of the listed numbers.
fn listed(q: &Zone, numbers: &[u16]) -> bool
    ensures { result ≡ every (λ n. is_in n numbers.now) (map (λ a. a.number) (queue_of q.now)) }
{
    q.queue().iter().all(|a| is_in(numbers, a.number))
}

// Whether everyone in some zones has one of the listed numbers.
fn each_listed(zones: &[Zone], numbers: &[u16]) -> bool
    ensures { result ≡ every (λ n. is_in n numbers.now) (numbers_of zones.now) }
{
    zones.iter().all(|q| listed(q, numbers))
}

// Whether the sequence names exactly those in the operation area, once each.
pub fn sequence_exact(f: Field) -> bool
    ensures { result ≡ sequence_exact f }
{
    let order = f.sequence.order();
    let zones = &f.zones[..FINAL];
    all_different(order) && each_present(order, zones) && each_listed(zones, order)
}
