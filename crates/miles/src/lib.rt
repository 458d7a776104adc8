// Miles in decimal as document 02, 2.8, asks for them, put into a lent buffer (specs/Miles.antt). Each function that puts yields the place
// after what it put.
#![tactic(auto)]

ghost use Rattle.std.specs.Prelude.{◌≡◌, ◌<◌};
ghost use Rattle.text.specs.Buffer.{Put};
ghost use Rattle.miles.specs.Miles.{decimals, fraction, in4096ths, miles_text};

use std::num::truncating_f64_to_u64;
use text::{put_byte, put_number};

// 4096 times the miles, cut to a whole number; 0 where that is no number of 64 bits.
fn in_4096ths(miles: f64) -> u64
    ensures { result ≡ in4096ths miles }
{
    let n = miles * 4096.0;
    if n > -1.0 && n < 18446744073709551616.0 {
        return truncating_f64_to_u64(n);
    }
    0
}

// The digits of part / 4096 after the point.
fn put_decimals(out: &mut [u8], at: usize, part: usize) -> usize
    requires { part < 4096 }
    ensures { Put out.old at (decimals 12 part) out.new result }
{
    let mut end = at;
    let mut rest = part;
    // Twelve places are enough for a fraction of 4096ths.
    for _place in 0..12usize {
        if rest == 0 {
            return end;
        }
        end = put_byte(out, end, 48 + (rest * 10 / 4096) as u8);
        rest = rest * 10 % 4096;
    }
    end
}

// n / 4096 in decimal.
fn put_fraction(out: &mut [u8], at: usize, n: usize) -> usize
    ensures { Put out.old at (fraction n) out.new result }
{
    let next = put_number(out, at, n / 4096);
    let part = n % 4096;
    if part == 0 {
        return next;
    }
    let after = put_byte(out, next, b'.');
    put_decimals(out, after, part)
}

// Miles in decimal, with a minus where they are below 0.
pub fn put_miles(out: &mut [u8], at: usize, miles: f64) -> usize
    ensures { Put out.old at (miles_text miles) out.new result }
{
    if miles < 0.0 {
        let next = put_byte(out, at, b'-');
        return put_fraction(out, next, in_4096ths(-miles) as usize);
    }
    put_fraction(out, at, in_4096ths(miles) as usize)
}
