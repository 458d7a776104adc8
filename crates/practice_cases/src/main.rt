// Writes a line for each of some practice files, at and past the boundaries of document 01: what the file is, and its number.
#![tactic(auto)]

ghost use Rattle.std.specs.Prelude.{◌+◌, ◌<◌};

use practice::check_file;
use refusals::outcome_number;
use std::io;

// Writes the line of one file.
fn line(rt: &impl Print, name: &str, file: &[u8]) -> io::Result<()> {
    let number = outcome_number(check_file(file));
    println!(rt; "{name}: {number}")
}

// Writes the line of a file's first n bytes.
fn cut(rt: &impl Print, name: &str, file: &[u8], n: usize) -> io::Result<()> {
    if n <= file.len() {
        line(rt, name, &file[..n])?;
    }
    Ok(())
}

// A file of 34 bytes, with legs of 64 and no request, and the number at a place of it set.
fn with(at: usize, low: u8, high: u8) -> [u8; 34]
    requires { at + 1 < 34 }
{
    let mut file =
        *b"SCAP\x02\x00\x01\x00\x1a\x00\x00\x00\x08\x00\x00\x00\x02\x00\x22\x00\x00\x00\x00\x00\x00\x00\x40\x00\x40\x00\x40\x00\x40\x00";
    file[at] = low;
    file[at + 1] = high;
    file
}

// 24,616 bytes that start as such a file, with a second body of 24,576 bytes and `more`.
fn large(more: u8) -> [u8; 24616] {
    let mut file = [0u8; 24616];
    file[0] = b'S';
    file[1] = b'C';
    file[2] = b'A';
    file[3] = b'P';
    file[4] = 2;
    file[6] = 1;
    file[8] = 26;
    file[12] = 8;
    file[16] = 2;
    file[18] = 34;
    file[22] = more;
    file[23] = 96;
    file[26] = 64;
    file[28] = 64;
    file[30] = 64;
    file[32] = 64;
    file
}

// Writes the lines of files that differ in length and in the letters.
fn openings(rt: &impl Print) -> io::Result<()> {
    let file = with(4, 2, 0);
    line(rt, "34 bytes", &file)?;
    cut(rt, "no bytes", &file, 0)?;
    cut(rt, "25 bytes", &file, 25)?;
    cut(rt, "26 bytes", &file, 26)?;
    cut(rt, "33 bytes", &file, 33)?;
    let full = large(0);
    cut(rt, "24610 bytes", &full, 24610)?;
    let odd = large(1);
    cut(rt, "24611 bytes", &odd, 24611)?;
    line(rt, "24616 bytes", &large(6))?;
    line(rt, "letters SCAQ", &with(2, b'A', b'Q'))?;
    line(rt, "letters sCAP", &with(0, b's', b'C'))
}

// Writes the lines of files that differ in the count and in the two entries.
fn contents(rt: &impl Print) -> io::Result<()> {
    line(rt, "count 1", &with(4, 1, 0))?;
    line(rt, "count 258", &with(4, 2, 1))?;
    line(rt, "first kind 2", &with(6, 2, 0))?;
    line(rt, "first offset 27", &with(8, 27, 0))?;
    line(rt, "first offset 65562", &with(10, 1, 0))?;
    line(rt, "first length 7", &with(12, 7, 0))?;
    line(rt, "second kind 3", &with(16, 3, 0))?;
    line(rt, "second offset 33", &with(18, 33, 0))?;
    line(rt, "second length 6 in 34 bytes", &with(22, 6, 0))?;
    line(rt, "second length 16777216 in 34 bytes", &with(24, 0, 1))
}

// Writes the lines of files with second bodies of 6 and of 5 bytes.
fn bodies(rt: &impl Print) -> io::Result<()> {
    let six =
        b"SCAP\x02\x00\x01\x00\x1a\x00\x00\x00\x08\x00\x00\x00\x02\x00\x22\x00\x00\x00\x06\x00\x00\x00\x40\x00\x40\x00\x40\x00\x40\x00\x01\x01\x07\x00\x40\x00";
    line(rt, "40 bytes with second length 6", six)?;
    cut(rt, "39 of them", six, 39)?;
    let five =
        b"SCAP\x02\x00\x01\x00\x1a\x00\x00\x00\x08\x00\x00\x00\x02\x00\x22\x00\x00\x00\x05\x00\x00\x00\x40\x00\x40\x00\x40\x00\x40\x00\x01\x01\x07\x00\x40";
    line(rt, "39 bytes with second length 5", five)
}

// Writes the lines of files with the shortest leg, with the longest, and with one past each at every leg.
fn legs(rt: &impl Print) -> io::Result<()> {
    line(rt, "base 1", &with(26, 1, 0))?;
    line(rt, "base 4096", &with(26, 0, 16))?;
    line(rt, "base 0", &with(26, 0, 0))?;
    line(rt, "base 4097", &with(26, 1, 16))?;
    line(rt, "intermediate 0", &with(28, 0, 0))?;
    line(rt, "intermediate 4097", &with(28, 1, 16))?;
    line(rt, "final 0", &with(30, 0, 0))?;
    line(rt, "final 4097", &with(30, 1, 16))?;
    line(rt, "missed 0", &with(32, 0, 0))?;
    line(rt, "missed 4097", &with(32, 1, 16))
}

// Writes the lines of all files.
fn main(rt: HostRuntime) -> io::Result<()> {
    openings(&rt)?;
    contents(&rt)?;
    bodies(&rt)?;
    legs(&rt)
}
