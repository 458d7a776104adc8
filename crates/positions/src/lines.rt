// The line of a field, put into the caller's buffer (specs/Positions.antt). Each function yields the place after what it put.
ghost use Rattle.field.specs.Airspace.{everywhere, queue_of};
ghost use Rattle.text.specs.Buffer.{Put};
ghost use Rattle.positions.specs.Positions.{another, position_text, queue_text, zones_text, sequence_text, field_line};

use field::{Aircraft, Field, Sequence, Zone};
use miles::put_miles;
use text::{put_byte, put_number};

// A space and a number.
fn put_another(out: &mut [u8], at: usize, n: usize) -> usize
    ensures { Put out.old at (another n) out.new result }
{
    let next = put_byte(out, at, b' ');
    put_number(out, next, n)
}

// One in a zone.
fn put_position(out: &mut [u8], at: usize, zone: usize, a: Aircraft) -> usize
    ensures { Put out.old at (position_text zone a) out.new result }
{
    let place = put_another(out, at, zone);
    let number = put_another(out, place, a.number as usize);
    let after = put_byte(out, number, b' ');
    put_miles(out, after, a.waited)
}

// Those in a zone.
fn put_queue(out: &mut [u8], at: usize, zone: usize, q: Zone) -> usize
    ensures { Put out.old at (queue_text zone (queue_of q)) out.new result }
{
    let mut next = at;
    for a in q.queue() {
        next = put_position(out, next, zone, *a);
    }
    next
}

// Everyone, by zone.
fn put_zones(out: &mut [u8], at: usize, f: Field) -> usize
    ensures { Put out.old at (zones_text f everywhere) out.new result }
{
    let mut next = at;
    for (i, q) in f.zones.iter().enumerate() {
        next = put_queue(out, next, i + 1, *q);
    }
    next
}

// The landing sequence.
fn put_sequence(out: &mut [u8], at: usize, s: Sequence) -> usize
    ensures { Put out.old at (sequence_text s) out.new result }
{
    let order = s.order();
    let mut next = put_another(out, at, order.len());
    for n in order {
        next = put_another(out, next, *n as usize);
    }
    next
}

// The line of a field, with the index of a request.
pub fn put_field(out: &mut [u8], at: usize, index: usize, f: Field) -> usize
    ensures { Put out.old at (field_line index f) out.new result }
{
    let s = f.sequence;
    let first = put_number(out, at, index);
    let fix = put_another(out, first, f.next as usize);
    let order = put_sequence(out, fix, s);
    let last = put_zones(out, order, f);
    put_byte(out, last, b'\n')
}
