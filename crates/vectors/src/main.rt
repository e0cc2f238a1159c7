// A stream of plan files on standard input, each with its length in front as 4 bytes little-endian; for each what the planning
// program prints. The files, and the second program's answers to them, are made by tools/vectors.
#![tactic(auto)]

ghost use Rattle.std.specs.Prelude.{◌≤◌, length};
ghost use Rattle.std.specs.Io.{ReadsAtMost};

use report::{MOST_READ, TEXT_ROOM};
use std::io;
use std::io::Read;

pub const LENGTH_SIZE: usize = 4;

// The next file's length, or none where the stream ends.
fn next_length(from: &mut impl Read) -> io::Result<Option<usize>> {
    let mut bytes = [0; LENGTH_SIZE];
    let n = input::read_full(from, &mut bytes)?;
    if n < LENGTH_SIZE {
        return Ok(None);
    }
    Ok(Some(u32::from_le_bytes(bytes) as usize))
}

// So many bytes into the start of what is lent, or those that are left.
fn read_file(from: &mut impl Read, n: usize, file: &mut [u8]) -> io::Result<usize>
    requires { n ≤ length file.old }
    ensures { ReadsAtMost result file.new }
{
    input::read_full(from, &mut file[..n])
}

// The next file read, settled and told: whether there was one. No file of a stream is longer than the planning program reads.
fn answer_next(rt: &impl Print, from: &mut impl Read) -> io::Result<bool> {
    let Some(length) = next_length(from)? else {
        return Ok(false);
    };
    if MOST_READ < length {
        return Ok(false);
    }
    let mut file = [0; MOST_READ];
    let n = read_file(from, length, &mut file)?;
    let mut out = [0; TEXT_ROOM];
    let r = report::report(&file[..n], &mut out);
    rt.write_all(&out[..r])?;
    Ok(true)
}

// A proved loop has to end, and nothing says that a stream does: no stream has so many files.
fn main(rt: HostRuntime) -> io::Result<()> {
    let mut from = rt.stdin();
    for _ in 0..u64::MAX {
        if !answer_next(&rt, &mut from)? {
            break;
        }
    }
    Ok(())
}
