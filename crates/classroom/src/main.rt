// With the argument `list`, reads one practice file from standard input, plays it from the empty field, and writes the list of the field to standard
// output. With any other, reads legs, a speed and entries, and writes the next fix and the list of the field that they build.
#![tactic(auto)]

use std::env::Env;
use std::io;
use std::io::Read;

fn main(rt: HostRuntime) -> io::Result<()> {
    let mut word = [0u8; 4096];
    // the argument's bytes, which need not be text; one that is missing or does not fit counts as no byte, which is not `list`
    let k = rt.arg(1, &mut word).unwrap_or(0);
    let is_list = &word[..k] == b"list".as_slice();
    let mut input = Vec::new(rt.alloc());
    // one byte more than the longest file, so that a longer one is refused
    rt.reader().take(24611).read_to_end(&mut input)?;
    let mut out = [0u8; 512];
    let m = if is_list {
        listing::listed(&input[..], &mut out)
    } else {
        listing::rebuilt(&input[..], &mut out)
    };
    rt.write_all(&out[..m])
}
