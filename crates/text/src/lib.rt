// Text put into a lent buffer, from a place on. Each function yields the place after what it put; a byte that finds no room is left out.
#![tactic(auto)]

ghost use Rattle.std.specs.Prelude.{[], ◌∷◌, ◌++◌};
ghost use Rattle.text.specs.Text.{decimal, line_of};
ghost use Rattle.text.specs.Buffer.{Put};

// The caller's buffer, long enough for every report.
pub type Buffer = [u8; 131072];

// One byte.
pub fn put_byte(out: &mut [u8], at: usize, byte: u8) -> usize
    ensures { Put out.old at (byte ∷ []) out.new result }
{
    if at < out.len() {
        out[at] = byte;
        return at + 1;
    }
    at
}

// The bytes of a text.
pub fn put_text(out: &mut [u8], at: usize, text: &[u8]) -> usize
    ensures { Put out.old at text.now out.new result }
{
    let mut end = at;
    for byte in text {
        end = put_byte(out, end, *byte);
    }
    end
}

// A number in decimal.
pub fn put_number(out: &mut [u8], at: usize, n: usize) -> usize
    ensures { Put out.old at (decimal n) out.new result }
{
    if n < 10 {
        return put_byte(out, at, 48 + n as u8);
    }
    let next = put_number(out, at, n / 10);
    put_byte(out, next, 48 + (n % 10) as u8)
}

// A line of numbers.
pub fn put_line(out: &mut [u8], at: usize, numbers: &[usize]) -> usize
    ensures { Put out.old at (line_of numbers.now) out.new result }
{
    let Some((last, others)) = numbers.split_last() else {
        return at;
    };
    let mut end = at;
    for n in others {
        end = put_number(out, end, *n);
        end = put_byte(out, end, b' ');
    }
    end = put_number(out, end, *last);
    put_byte(out, end, b'\n')
}

// A name, and the line of one number.
pub fn put_named(out: &mut [u8], at: usize, name: &[u8], n: usize) -> usize
    ensures { Put out.old at (name.now ++ line_of (n ∷ [])) out.new result }
{
    let next = put_text(out, at, name);
    put_line(out, next, &[n])
}
