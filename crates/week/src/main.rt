// Reads one binder from standard input, plays its practice files, and writes the report over all of them to standard output.
#![tactic(auto)]

use std::io;
use std::io::Read;

fn main(rt: HostRuntime) -> io::Result<()> {
    let mut binder = Vec::new(rt.alloc());
    // one byte more than the longest binder, so that a longer one is refused
    rt.reader().take(65537).read_to_end(&mut binder)?;
    let mut out = [0u8; 131072];
    let m = binder::week(&binder[..], &mut out);
    rt.write_all(&out[..m])
}
