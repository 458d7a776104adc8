// Reads four legs and calls by two desks from standard input, and writes their answers, or the line that refuses them, to standard output.
#![tactic(auto)]

use std::io;
use std::io::Read;

fn main(rt: HostRuntime) -> io::Result<()> {
    let mut input = Vec::new(rt.alloc());
    // one byte more than four legs and 4,096 calls, so that a longer input is refused
    rt.reader().take(32777).read_to_end(&mut input)?;
    let mut out = [0u8; 131072];
    let m = calls_report::desks(&input[..], &mut out);
    rt.write_all(&out[..m])
}
