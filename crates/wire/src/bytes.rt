// Bytes of an input: whether so many are there, whether they are the constant ones; and bytes copied into an output.
ghost use Rattle.std.specs.Prelude.{◌≡◌, ◌+◌, ltb};
ghost use Rattle.wire.specs.Read.{constants, told};
ghost use Rattle.wire.specs.Output.{put};

use crate::error::{Error, ErrorKind};

// Whether some of the `n` bytes from `at` on lie past the end of `size` bytes.
pub fn lacks(size: usize, at: usize, n: usize) -> bool
    ensures { result ≡ ltb size (at + n) }
{
    size < at || size - at < n
}

// Whether the bytes of `s` from `at` on are those of `expected`; an error at the first that is missing or differs.
#[tactic(auto, using(crate::proofs::Laws::constants_end, crate::proofs::Laws::constants_short, crate::proofs::Laws::constants_differ, crate::proofs::Laws::constants_next))]
pub fn match_at(s: &[u8], at: usize, expected: &[u8]) -> Result<(), Error>
    ensures { told result ≡ constants s.now at expected.now }
{
    let mut p = at;
    for &byte in expected {
        if s.len() <= p {
            return Err(Error::short(s.len()));
        }
        if s[p] != byte {
            return Err(Error::at(ErrorKind::Constant, p));
        }
        p += 1;
    }
    Ok(())
}

// Copies `part` into `out` from `at` on, where it fits; else `out` stays as it is.
#[tactic(auto, using(crate::proofs::Laws::put_not))]
pub fn copy_into<T: Copy>(out: &mut [T], at: usize, part: &[T])
    ensures { out.new ≡ put out.old at part.now }
{
    if lacks(out.len(), at, part.len()) {
        return;
    }
    // Kept: (a) with `copy_from_slice` the archive needs one more function from outside, `memmove`.
    for i in 0..part.len() {
        out[at + i] = part[i];
    }
}
