// A number that C hands over, handed on in 8 or 16 bits: a C compiler narrows an argument without a word, so that none comes narrow.
ghost use Rattle.std.specs.Prelude.{◌≡◌};
ghost use Rattle.baguymo.specs.Widths.{in8, in16, number_in16};

use practice::FileLegs;

// A desk, a kind or a side.
pub(crate) fn in_8(n: usize) -> u8
    ensures { result ≡ in8 n }
{
    u8::try_from(n).unwrap_or(u8::MAX)
}

// A leg, a speed, an amount or a spacing.
pub(crate) fn in_16(n: usize) -> u16
    ensures { result ≡ in16 n }
{
    u16::try_from(n).unwrap_or(u16::MAX)
}

// An aircraft's number, for a request of a kind.
pub(crate) fn number_in_16(kind: usize, n: usize) -> u16
    ensures { result ≡ number_in16 kind n }
{
    match u16::try_from(n) {
        Ok(number) => number,
        Err(_) if kind == 12 => 1,
        Err(_) => 0,
    }
}

// The four legs of a file or of a start.
pub(crate) fn legs_in_16(
    base: usize,
    intermediate: usize,
    final_approach: usize,
    missed: usize,
) -> FileLegs
    ensures { result ≡ record { base = in16 base; intermediate = in16 intermediate; final_approach = in16 final_approach; missed = in16 missed } }
{
    FileLegs {
        base: in_16(base),
        intermediate: in_16(intermediate),
        final_approach: in_16(final_approach),
        missed: in_16(missed),
    }
}
