// The state that a host lends, put into its bytes, from the whole down to its parts. What puts a part yields the place after it.
#![tactic(auto)]

ghost use Rattle.std.specs.Prelude.{◌≡◌, ℕ, List};
ghost use Rattle.practice.specs.Practice.{bytes16};
ghost use Rattle.text.specs.Buffer.{Put};
ghost use Rattle.layout.specs.Written.{bytes_of_each, progress_bits, aircraft_bytes, zone_bytes, sequence_bytes, legs_bytes, field_bytes, index_entry_bytes, indexed_bytes, history_bytes, state_after};

use field::{Aircraft, Field, Legs, Sequence, Zone};
use finder::{Entry, Indexed};
use history::History;
use layout::State;
use leg::Progress;
use text::put_byte;
use words::{bits_of, put_bits, put_number16, put_number64};

// Writes the bytes of a history over the state.
pub fn store(state: &mut State, h: History)
    ensures { state.new ≡ history_bytes h }
{
    let bytes: &mut [u8] = state;
    let kept = h.now.put(bytes, 0);
    let count = put_each(bytes, kept, &h.kept);
    put_number64(bytes, count, h.count as u64);
}

// Writes the bytes of the history after a call with this number over the state; a refused call leaves it.
pub fn store_after(state: &mut State, number: u16, h: History)
    ensures { state.new ≡ state_after state.old number h }
{
    if number == 0 {
        store(state, h);
    }
}

// A part that a state has several of, one behind the other.
trait Stored {
    ghost bytes: { Self → List ℕ };

    // Puts it.
    fn put(&self, out: &mut [u8], at: usize) -> usize
        ensures { Put out.old at (bytes self.now) out.new result };
}

// Puts each of several.
fn put_each<T: Stored>(out: &mut [u8], at: usize, several: &[T]) -> usize
    ensures { Put out.old at (bytes_of_each T.bytes several.now) out.new result }
{
    let mut end = at;
    for one in several {
        end = one.put(out, end);
    }
    end
}

// A field with its index.
impl Stored for Indexed {
    ghost bytes = { indexed_bytes };

    fn put(&self, out: &mut [u8], at: usize) -> usize {
        let index = put_field(out, at, &self.field);
        put_each(out, index, &self.index.entries)
    }
}

// Puts a field.
fn put_field(out: &mut [u8], at: usize, f: &Field) -> usize
    ensures { Put out.old at (field_bytes f.now) out.new result }
{
    let sequence = put_each(out, at, &f.zones);
    let next = put_sequence(out, sequence, &f.sequence);
    let legs = put_byte(out, next, f.next);
    put_legs(out, legs, &f.legs)
}

// Puts the sequence.
fn put_sequence(out: &mut [u8], at: usize, s: &Sequence) -> usize
    ensures { Put out.old at (sequence_bytes s.now) out.new result }
{
    let length = put_each(out, at, &s.numbers);
    put_number64(out, length, s.length as u64)
}

// Puts the legs.
fn put_legs(out: &mut [u8], at: usize, legs: &Legs) -> usize
    ensures { Put out.old at (legs_bytes legs.now) out.new result }
{
    let base = put_bits(out, at, legs.missed);
    let intermediate = put_bits(out, base, legs.base);
    let last = put_bits(out, intermediate, legs.intermediate);
    put_bits(out, last, legs.final_approach)
}

// The number of an aircraft in the sequence.
impl Stored for u16 {
    ghost bytes = { bytes16 };

    fn put(&self, out: &mut [u8], at: usize) -> usize {
        put_number16(out, at, *self)
    }
}

// An entry of the index.
impl Stored for Entry {
    ghost bytes = { index_entry_bytes };

    fn put(&self, out: &mut [u8], at: usize) -> usize {
        let zone = put_number16(out, at, self.number);
        let place = put_byte(out, zone, self.zone);
        put_byte(out, place, self.place)
    }
}

// A zone.
impl Stored for Zone {
    ghost bytes = { zone_bytes };

    fn put(&self, out: &mut [u8], at: usize) -> usize {
        let length = put_each(out, at, &self.aircraft);
        put_number64(out, length, self.length as u64)
    }
}

// An aircraft.
impl Stored for Aircraft {
    ghost bytes = { aircraft_bytes };

    fn put(&self, out: &mut [u8], at: usize) -> usize {
        let fix = put_number16(out, at, self.number);
        let desk = put_byte(out, fix, self.fix);
        let speed = put_byte(out, desk, self.desk);
        let progress = put_number16(out, speed, self.speed);
        let waited = put_number64(out, progress, progress_bits(self.progress));
        let leg = put_bits(out, waited, self.waited);
        put_bits(out, leg, self.leg)
    }
}

// The 64 bits of a progress: all of them set for one that waits.
fn progress_bits(p: Progress) -> u64
    ensures { result ≡ progress_bits p }
{
    match p {
        Progress::Waiting => u64::MAX,
        Progress::Flying(miles) => bits_of(miles),
    }
}
