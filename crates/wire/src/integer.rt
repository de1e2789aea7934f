// Little-endian integers: read at a position of an input, written into a part of an output.
ghost use Rattle.std.specs.Prelude.{◌≡◌, ◌+◌, ◌-◌, ◌≤◌, length, leb};
ghost use Rattle.wire.specs.Read.{pick, read_bytes, told};
ghost use Rattle.wire.specs.Integers.{int_at, read_int, int_bytes};
ghost use Rattle.wire.specs.Output.{put};

use crate::bytes::{copy_into, lacks};
use crate::error::Error;

// The `N` bytes at `at`.
#[tactic(auto, unfolding(crate::specs::Read::read_bytes), using(crate::proofs::Laws::whole_fits, crate::proofs::Laws::whole_short))]
fn bytes_at<const N: usize>(s: &[u8], at: usize) -> Result<[u8; N], Error>
    ensures { told result ≡ read_bytes s.now at N }
{
    if lacks(s.len(), at, N) {
        return Err(Error::short(s.len()));
    }
    let mut bytes = [0; N];
    bytes.copy_from_slice(&s[at..at + N]);
    Ok(bytes)
}

// The integer of one byte at `at`.
#[tactic(auto, using(crate::proofs::Laws::int_of_bytes, crate::proofs::Laws::value_one))]
pub fn u8_at(s: &[u8], at: usize) -> Result<usize, Error>
    ensures { told result ≡ read_int s.now at 1 }
{
    let bytes = bytes_at::<1>(s, at)?;
    Ok(usize::from(bytes[0]))
}

// The integer of two bytes at `at`.
#[tactic(auto, using(crate::proofs::Laws::int_of_bytes, crate::proofs::Laws::value_two))]
pub fn u16_at(s: &[u8], at: usize) -> Result<usize, Error>
    ensures { told result ≡ read_int s.now at 2 }
{
    let bytes = bytes_at(s, at)?;
    Ok(usize::from(u16::from_le_bytes(bytes)))
}

// The integer of four bytes at `at`.
#[tactic(auto, using(crate::proofs::Laws::int_of_bytes, crate::proofs::Laws::value_four))]
pub fn u32_at(s: &[u8], at: usize) -> Result<usize, Error>
    ensures { told result ≡ read_int s.now at 4 }
{
    let bytes = bytes_at(s, at)?;
    Ok(u32::from_le_bytes(bytes) as usize)
}

// The integer of the four bytes at `at`, low byte first.
#[tactic(auto, using(crate::proofs::Laws::int_four))]
fn four(s: &[u8], at: usize) -> usize
    requires { at + 4 ≤ length s.now }
    ensures { result ≡ int_at s.now at 4 }
{
    u32::from_le_bytes([s[at], s[at + 1], s[at + 2], s[at + 3]]) as usize
}

// The integer of four bytes at `at`; 0 where the bytes are not there.
pub fn u32_or_zero(s: &[u8], at: usize) -> usize
    ensures { result ≡ pick (leb (at + 4) (length s.now)) (int_at s.now at 4) 0 }
{
    if lacks(s.len(), at, 4) {
        return 0;
    }
    four(s, at)
}

// The same of the four bytes that end at `end`.
pub fn u32_before(s: &[u8], end: usize) -> usize
    ensures { result ≡ pick (leb end (length s.now)) (pick (leb 4 end) (int_at s.now (end - 4) 4) 0) 0 }
{
    if s.len() < end || end < 4 {
        return 0;
    }
    four(s, end - 4)
}

// Writes the two bytes of `n` into `out` from `at` on, where they fit.
// Kept: beside `put_u32`, since each is the one call of `to_le_bytes` of its own type.
#[tactic(auto, unfolding(crate::specs::Integers::int_bytes))]
pub fn put_u16(out: &mut [u8], at: usize, n: u16)
    ensures { out.new ≡ put out.old at (int_bytes 2 n) }
{
    let bytes: [u8; 2] = n.to_le_bytes();
    copy_into(out, at, &bytes);
}

// Writes the four bytes of `n` into `out` from `at` on, where they fit.
#[tactic(auto, unfolding(crate::specs::Integers::int_bytes))]
pub fn put_u32(out: &mut [u8], at: usize, n: u32)
    ensures { out.new ≡ put out.old at (int_bytes 4 n) }
{
    let bytes: [u8; 4] = n.to_le_bytes();
    copy_into(out, at, &bytes);
}
