// Reads one practice file from standard input, plays it from the empty field, and writes the field after each of its requests to standard output.
#![tactic(auto)]

use std::io;
use std::io::Read;

fn main(rt: HostRuntime) -> io::Result<()> {
    let mut file = Vec::new(rt.alloc());
    // one byte more than the longest file, so that a longer one is refused
    rt.reader().take(24611).read_to_end(&mut file)?;
    let mut out = [0u8; 1048576];
    let m = positions::positions(&file[..], &mut out);
    rt.write_all(&out[..m])
}
