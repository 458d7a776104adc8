// Reads one practice file from standard input, plays it from the empty field, and writes the spacing of the pairs on the approach to standard
// output, by the spacing in 64ths of a mile that its argument says.
#![tactic(auto)]

use std::env::Env;
use std::io;
use std::io::Read;

fn main(rt: HostRuntime) -> io::Result<()> {
    let mut word = [0u8; 4096];
    // the argument's bytes, which need not be text; one that is missing or does not fit counts as no byte, which says no spacing
    let k = rt.arg(1, &mut word).unwrap_or(0);
    let spacing = decimal_word::number_said(&word[..k]);
    let mut file = Vec::new(rt.alloc());
    // one byte more than the longest file, so that a longer one is refused
    rt.reader().take(24611).read_to_end(&mut file)?;
    let mut out = [0u8; 1024];
    let m = spaced::spaced(&file[..], spacing, &mut out);
    rt.write_all(&out[..m])
}
