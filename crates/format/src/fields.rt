// Numbers in lent bytes at a place: little-endian, signed ones in two's complement.
ghost use Rattle.std.specs.Prelude.{◌≡◌, ◌+◌, ◌≤◌, ◌<◌, length};
ghost use Rattle.std.proofs.lemmas.List.Edits.{sets};
ghost use Rattle.std.specs.Int.{w32};
ghost use Rattle.std.proofs.Common.{SFits};
ghost use Rattle.integers.specs.Hull.{range};
ghost use Rattle.format.specs.Numbers.{bytes_of, number_at, signed_of, unsigned_of};
ghost use Rattle.format.specs.Writing.{Small, range_stored};

use plan::{Number, Span};

// A byte has so many values, two bytes so many.
const BYTE: u32 = 1 << 8;

const PAIR: u32 = 1 << 16;

#[tactic(auto, using(crate::proofs::Numbers::number_one))]
pub fn one_at(b: &[u8], at: usize) -> u32
    requires { at + 1 ≤ length b.now }
    ensures value { result ≡ number_at b.now 1 at }
    ensures upper_bound { result < 256 }
{
    u32::from(b[at])
}

#[tactic(auto, using(crate::proofs::Numbers::number_two))]
pub fn two_at(b: &[u8], at: usize) -> u32
    requires { at + 2 ≤ length b.now }
    ensures value { result ≡ number_at b.now 2 at }
    ensures upper_bound { result < 65536 }
{
    u32::from(u16::from_le_bytes([b[at], b[at + 1]]))
}

#[tactic(auto, using(crate::proofs::Numbers::number_four))]
fn four_at(b: &[u8], at: usize) -> u32
    requires { at + 4 ≤ length b.now }
    ensures { result ≡ number_at b.now 4 at }
{
    u32::from_le_bytes([b[at], b[at + 1], b[at + 2], b[at + 3]])
}

pub fn id_at(b: &[u8], at: usize) -> i32
    requires { at + 4 ≤ length b.now }
    ensures { result ≡ signed_of (number_at b.now 4 at) }
{
    four_at(b, at).cast_signed()
}

// A signed number of four bytes, widened to eight.
pub fn cell_at(b: &[u8], at: usize) -> i64
    requires { at + 4 ≤ length b.now }
    ensures { result ≡ signed_of (number_at b.now 4 at) }
{
    i64::from(id_at(b, at))
}

// Low, then high.
pub fn span_at<T: Number>(b: &[u8], at: usize) -> Span<T>
    requires { at + 8 ≤ length b.now }
    ensures low { result.low ≡ T.numbered (signed_of (number_at b.now 4 at)) }
    ensures high { result.high ≡ T.numbered (signed_of (number_at b.now 4 (at + 4))) }
{
    Span {
        low: T::numbered(cell_at(b, at)),
        high: T::numbered(cell_at(b, at + 4)),
    }
}

#[tactic(auto, unfolding(crate::specs::Numbers::bytes_of))]
pub fn put_one(b: &mut [u8], at: usize, n: u32)
    requires { at + 1 ≤ length b.old }
    ensures { b.new ≡ sets b.old at (bytes_of 1 n) }
{
    b[at] = (n % BYTE) as u8;
}

#[tactic(auto, using(crate::proofs::Numbers::bytes_two, crate::proofs::Stores::mid_stored))]
pub fn put_two(b: &mut [u8], at: usize, n: u32)
    requires { at + 2 ≤ length b.old }
    ensures { b.new ≡ sets b.old at (bytes_of 2 n) }
{
    b[at..at + 2].copy_from_slice(&((n % PAIR) as u16).to_le_bytes());
}

#[tactic(auto, using(crate::proofs::Numbers::bytes_four, crate::proofs::Stores::mid_stored))]
fn put_four(b: &mut [u8], at: usize, n: u32)
    requires { at + 4 ≤ length b.old }
    ensures { b.new ≡ sets b.old at (bytes_of 4 n) }
{
    b[at..at + 4].copy_from_slice(&n.to_le_bytes());
}

pub fn put_signed(b: &mut [u8], at: usize, x: i64)
    requires { (at + 4 ≤ length b.old) × SFits w32 x }
    ensures { b.new ≡ sets b.old at (bytes_of 4 (unsigned_of x)) }
{
    put_four(b, at, (x as i32).cast_unsigned());
}

// Low, then high.
pub fn put_span<T: Number>(b: &mut [u8], at: usize, s: Span<T>)
    requires { (at + 8 ≤ length b.old) × Small (range (T.number s.low) (T.number s.high)) }
    ensures { b.new ≡ range_stored b.old at (range (T.number s.low) (T.number s.high)) }
{
    put_signed(b, at, s.low.number());
    put_signed(b, at + 4, s.high.number());
}
