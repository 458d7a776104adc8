// Numbers of 16, 32 and 64 bits and miles put into a lent buffer, the low byte first, and the miles of 64 bits.
#![tactic(auto)]

ghost use Rattle.std.specs.Prelude.{◌≡◌};
ghost use Rattle.practice.specs.Practice.{bytes16, bytes32};
ghost use Rattle.text.specs.Buffer.{Put};
ghost use Rattle.words.specs.Words.{bytes64, miles_of, bits_of};

use text::put_text;

// The highest of 64 bits, which has the sign of miles.
const SIGN_BIT: u64 = 1 << 63;
// The bits of the infinity: what is above them, but for the sign, are a NaN's.
const INFINITY_BITS: u64 = 0x7ff0_0000_0000_0000;
// The bits that every NaN is written as.
const NAN_BITS: u64 = 0x7ff8_0000_0000_0000;

// The miles of 64 bits, a NaN's too.
pub fn miles_of(bits: u64) -> f64
    ensures { result ≡ miles_of bits }
{
    if bits % SIGN_BIT > INFINITY_BITS {
        return f64::NAN;
    }
    f64::from_bits(bits)
}

// The 64 bits of miles, a NaN's too.
pub fn bits_of(miles: f64) -> u64
    ensures { result ≡ bits_of miles }
{
    if miles.is_nan() {
        return NAN_BITS;
    }
    miles.to_bits()
}

// Puts a number of 16 bits.
pub fn put_number16(out: &mut [u8], at: usize, n: u16) -> usize
    ensures { Put out.old at (bytes16 n) out.new result }
{
    put_text(out, at, &u16::to_le_bytes(n))
}

// Puts a number of 32 bits.
pub fn put_number32(out: &mut [u8], at: usize, n: u32) -> usize
    ensures { Put out.old at (bytes32 n) out.new result }
{
    put_text(out, at, &u32::to_le_bytes(n))
}

// Puts a number of 64 bits.
pub fn put_number64(out: &mut [u8], at: usize, n: u64) -> usize
    ensures { Put out.old at (bytes64 n) out.new result }
{
    put_text(out, at, &u64::to_le_bytes(n))
}

// Puts the 64 bits of miles.
pub fn put_bits(out: &mut [u8], at: usize, miles: f64) -> usize
    ensures { Put out.old at (bytes64 (bits_of miles)) out.new result }
{
    put_number64(out, at, bits_of(miles))
}
