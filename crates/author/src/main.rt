// Reads four legs and requests from standard input, and writes their practice file, or the line that refuses them, to standard output.
#![tactic(auto)]

use std::io;
use std::io::Read;

fn main(rt: HostRuntime) -> io::Result<()> {
    let mut input = Vec::new(rt.alloc());
    // one byte more than four legs and 4,096 requests, so that a longer input is refused
    rt.reader().take(24585).read_to_end(&mut input)?;
    let mut out = [0u8; 24610];
    let m = authored::authored(&input[..], &mut out);
    rt.write_all(&out[..m])
}
