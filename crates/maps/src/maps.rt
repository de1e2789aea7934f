// Maps as numbers: the first 64 bits of a map in one number, its first bit on top.
ghost use Rattle.std.specs.Prelude.{◌≡◌, ◌+◌, ◌≤◌, ◌<◌, length};
ghost use Rattle.maps.specs.Maps.{map_bits};

use wire::bytes::lacks;

// The eight bytes at `at`.
fn eight(s: &[u8], at: usize) -> u64
    requires { at + 8 ≤ length s.now }
    ensures { result ≡ map_bits s.now at }
{
    let mut bytes = [0; 8];
    bytes.copy_from_slice(&s[at..at + 8]);
    u64::from_be_bytes(bytes)
}

// The bytes from `at` on, where there are less than eight. It is not inlined: maps are read in loops, and few of them so near the end.
#[inline(never)]
fn few(s: &[u8], at: usize) -> u64
    requires { length s.now < at + 8 }
    ensures { result ≡ map_bits s.now at }
{
    let mut bits = 0;
    for p in at..s.len() {
        bits += u64::from(s[p]) << (56 - 8 * (p - at));
    }
    bits
}

// The first 64 bits of the map at `at`; 0 past the end of `s`.
pub fn bits_at(s: &[u8], at: usize) -> u64
    ensures { result ≡ map_bits s.now at }
{
    if lacks(s.len(), at, 8) {
        return few(s, at);
    }
    eight(s, at)
}
