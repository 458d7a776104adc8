// Plays each practice file that its arguments name, in order, and prints each report under the file's name.
#![tactic(auto)]

use std::fs::File;
use std::io::Read;
use std::rt::Files;
use std::{env, io};

// Prints the report of an open practice file, of which at most 24,611 bytes are read.
fn play(rt: &(impl Print + Alloc), opened: impl Read + Drop) -> io::Result<()> {
    let mut file = Vec::new(rt.alloc());
    opened.take(24611).read_to_end(&mut file)?;
    let mut out = [0u8; 131072];
    let size = session::report(&file[..], &mut out);
    rt.write_all(&out[..size])
}

// The system's words in std's text of an error, which has the error's number behind them.
fn words_of(text: &str) -> &str {
    match text.split_once(" (os error ") {
        Some((words, _)) => words,
        None => text,
    }
}

// Says on standard error why a file is not open.
fn fail(rt: &(impl Eprint + Alloc), path: &str, error: io::Error) -> io::Result<()> {
    let text = error.to_string(rt.alloc())?;
    let words = words_of(text.as_str());
    eprintln!(rt; "{path}: {words}")
}

// Prints the name of a practice file, and its report under it.
fn play_named(rt: &(impl Files + Print + Eprint + Alloc), path: &str) -> io::Result<()> {
    println!(rt; "{path}")?;
    match File::open(rt, path) {
        Ok(file) => play(rt, file),
        Err(error) => fail(rt, path, error),
    }
}

fn main(rt: HostRuntime) -> io::Result<()> {
    for path in env::args(&rt)?.skip(1) {
        play_named(&rt, path.as_str())?;
    }
    Ok(())
}
