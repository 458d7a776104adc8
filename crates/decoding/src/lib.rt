// The state that a host lends, read from its bytes (layout's specs/Read.antt). The arrays are written out or filled by an index, and numbers are read by
// functions that ask for their length: with `std::array::from_fn` and the numbers of `practice`, which ask for none, a host's call took 1.6 times as many
// instructions as before.
#![tactic(auto)]

ghost use Rattle.std.specs.Prelude.{◌≡◌, ◌+◌, ◌≤◌, length};
ghost use Rattle.practice.specs.File.{number16, number32};
ghost use Rattle.words.specs.Words.{number64};
ghost use Rattle.layout.specs.Read.{progress_of, read_aircraft, read_zone, read_sequence, read_legs, read_field, read_entry, read_indexed, read_history};

use field::{Aircraft, Field, Legs, Sequence, Zone};
use finder::{Entry, Index, Indexed};
use history::History;
use layout::State;
use leg::Progress;
use request::word;
use words::miles_of;

// The number of 16 bits at a place of the bytes.
fn number16(bytes: &[u8], at: usize) -> u16
    requires { at + 2 ≤ length bytes.now }
    ensures { result ≡ number16 bytes.now at }
{
    word(bytes[at], bytes[at + 1])
}

// The number of 32 bits at a place of the bytes.
fn number32(bytes: &[u8], at: usize) -> u32
    requires { at + 4 ≤ length bytes.now }
    ensures { result ≡ number32 bytes.now at }
{
    number16(bytes, at) as u32 + 65536 * (number16(bytes, at + 2) as u32)
}

// The number of 64 bits at a place of the bytes.
fn number64(bytes: &[u8], at: usize) -> u64
    requires { at + 8 ≤ length bytes.now }
    ensures { result ≡ number64 bytes.now at }
{
    number32(bytes, at) as u64 + 4294967296 * (number32(bytes, at + 4) as u64)
}

// The progress of 64 bits.
fn progress_of(bits: u64) -> Progress
    ensures { result ≡ progress_of bits }
{
    if bits == 18446744073709551615 {
        return Progress::Waiting;
    }
    Progress::Flying(miles_of(bits))
}

// The aircraft at a place.
fn read_aircraft(bytes: &[u8], at: usize) -> Aircraft
    requires { at + 30 ≤ length bytes.now }
    ensures { result ≡ read_aircraft bytes.now at }
{
    let progress = progress_of(number64(bytes, at + 6));
    Aircraft {
        number: number16(bytes, at),
        fix: bytes[at + 2],
        desk: bytes[at + 3],
        speed: number16(bytes, at + 4),
        progress: progress,
        waited: miles_of(number64(bytes, at + 14)),
        leg: miles_of(number64(bytes, at + 22)),
    }
}

// The zone at a place.
fn read_zone(bytes: &[u8], at: usize) -> Zone
    requires { at + 128 ≤ length bytes.now }
    ensures { result ≡ read_zone bytes.now at }
{
    let first = read_aircraft(bytes, at);
    let second = read_aircraft(bytes, at + 30);
    let third = read_aircraft(bytes, at + 60);
    let fourth = read_aircraft(bytes, at + 90);
    Zone {
        aircraft: [first, second, third, fourth],
        length: number64(bytes, at + 120) as usize,
    }
}

// The sequence at a place.
fn read_sequence(bytes: &[u8], at: usize) -> Sequence
    requires { at + 16 ≤ length bytes.now }
    ensures { result ≡ read_sequence bytes.now at }
{
    let first = number16(bytes, at);
    let second = number16(bytes, at + 2);
    let third = number16(bytes, at + 4);
    let fourth = number16(bytes, at + 6);
    Sequence {
        numbers: [first, second, third, fourth],
        length: number64(bytes, at + 8) as usize,
    }
}

// The legs at a place.
fn read_legs(bytes: &[u8], at: usize) -> Legs
    requires { at + 32 ≤ length bytes.now }
    ensures { result ≡ read_legs bytes.now at }
{
    Legs {
        missed: miles_of(number64(bytes, at)),
        base: miles_of(number64(bytes, at + 8)),
        intermediate: miles_of(number64(bytes, at + 16)),
        final_approach: miles_of(number64(bytes, at + 24)),
    }
}

// The field at a place.
fn read_field(bytes: &[u8], at: usize) -> Field
    requires { at + 1713 ≤ length bytes.now }
    ensures { result ≡ read_field bytes.now at }
{
    let first = read_zone(bytes, at);
    let mut zones = [first; 13];
    for i in 1..13 {
        zones[i] = read_zone(bytes, at + 128 * i);
    }
    Field {
        zones: zones,
        sequence: read_sequence(bytes, at + 1664),
        next: bytes[at + 1680],
        legs: read_legs(bytes, at + 1681),
    }
}

// The entry of the index at a place.
fn read_entry(bytes: &[u8], at: usize) -> Entry
    requires { at + 4 ≤ length bytes.now }
    ensures { result ≡ read_entry bytes.now at }
{
    Entry {
        number: number16(bytes, at),
        zone: bytes[at + 2],
        place: bytes[at + 3],
    }
}

// The field at a place with the index behind it.
fn read_indexed(bytes: &[u8], at: usize) -> Indexed
    requires { at + 1733 ≤ length bytes.now }
    ensures { result ≡ read_indexed bytes.now at }
{
    let field = read_field(bytes, at);
    let first = read_entry(bytes, at + 1713);
    let second = read_entry(bytes, at + 1717);
    let third = read_entry(bytes, at + 1721);
    let fourth = read_entry(bytes, at + 1725);
    let fifth = read_entry(bytes, at + 1729);
    let entries = [first, second, third, fourth, fifth];
    Indexed {
        field: field,
        index: Index { entries: entries },
    }
}

// The field, the eight kept ones and how many of them count.
pub fn read_history(state: &State) -> History
    ensures { result ≡ read_history state.now }
{
    let bytes: &[u8] = state;
    let now = read_indexed(bytes, 0);
    let first = read_indexed(bytes, 1733);
    let mut kept = [first; 8];
    for i in 1..8 {
        kept[i] = read_indexed(bytes, 1733 + 1733 * i);
    }
    History {
        now: now,
        kept: kept,
        count: number64(bytes, 15597) as usize,
    }
}
