// A number as a program's argument says it, a word in decimal (specs/DecimalWord.antt).
#![tactic(auto)]

ghost use Rattle.std.specs.Prelude.{◌≡◌};
ghost use Rattle.decimal_word.specs.DecimalWord.{with_digit, number_said};

// The number that n and a digit behind it say; None where the byte is no digit, or it is no number of 16 bits.
fn with_digit(n: u16, byte: u8) -> Option<u16>
    ensures { result ≡ with_digit n byte }
{
    if !byte.is_ascii_digit() {
        return None;
    }
    n.checked_mul(10)?.checked_add(u16::from(byte - b'0'))
}

// The number of 16 bits that a word says; 0 where it says none.
pub fn number_said(word: &[u8]) -> u16
    ensures { result ≡ number_said word.now }
{
    let mut n = 0;
    for byte in word {
        let Some(next) = with_digit(n, *byte) else {
            return 0;
        };
        n = next;
    }
    n
}
