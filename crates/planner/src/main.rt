// The planning program: a plan file on standard input, settled; its text on standard output.
#![tactic(auto)]

use report::{MOST_READ, TEXT_ROOM};
use std::io;

fn main(rt: HostRuntime) -> io::Result<()> {
    let mut file = [0u8; MOST_READ];
    let n = input::read_full(&mut rt.stdin(), &mut file)?;
    let mut out = [0u8; TEXT_ROOM];
    let r = report::report(&file[..n], &mut out);
    rt.write_all(&out[..r])
}
