// Maps of bits: one bit of a map, and the bytes that a map takes.
ghost use Rattle.std.specs.Prelude.{◌≡◌};
ghost use Rattle.wire.specs.Bits.{bit_set, map_bytes};

// Whether bit `i` of a map is 1, counted from the top bit of the map's first byte; not past its end.
#[tactic(auto, unfolding(crate::specs::Bits::bit_set, crate::specs::Bits::bit_at), using(crate::proofs::Laws::bit_past))]
pub fn is_set(map: &[u8], i: usize) -> bool
    ensures { result ≡ bit_set map.now i }
{
    i / 8 < map.len() && (map[i / 8] >> (7 - i % 8)) % 2 == 1
}

// The bytes that a map of `bits` bits takes.
#[tactic(auto, unfolding(crate::specs::Bits::map_bytes))]
pub fn map_bytes(bits: usize) -> usize
    ensures { result ≡ map_bytes bits }
{
    bits.div_ceil(8)
}
