// The maps of a row: which columns have a bit, which bit an entry has, and the bytes of a map's bits.
ghost use Rattle.std.specs.Prelude.{◌≡◌, ◌+◌, ◌*◌, ◌≤◌, ◌<◌, drop};
ghost use Rattle.wire.specs.Output.{put};
ghost use Rattle.encode.specs.Encoding.{byte_of, pack_in};
ghost use Rattle.encode.specs.Steps.{told_entry, has_bit, bit_of};

use crate::entry::Entry;
use column::column::Column;
use wire::bytes::copy_into;

// The maps of a row.
#[derive(Clone, Copy)]
pub(crate) enum Map {
    Presence,
    Update,
    Force,
}

// The bits of a map, and how many they are; those behind them are 0.
// Kept: a buffer with its count, since a function that finds the bits hands them out (fixed memory).
#[derive(Clone, Copy)]
pub(crate) struct Bits {
    pub(crate) bits: [bool; 64],
    pub(crate) count: usize,
}

// Whether a column has a bit in a map.
#[tactic(auto, unfolding(crate::specs::Steps::has_bit))]
pub(crate) fn has_bit(map: Map, column: Column) -> bool
    ensures { result ≡ has_bit map column }
{
    // Kept: a map is an enum, and its cases are written once; closures for them are no plainer.
    match map {
        Map::Presence => column.is_nullable(),
        Map::Update | Map::Force => true,
    }
}

// The bit of an entry in a map.
#[tactic(auto, unfolding(crate::specs::Steps::bit_of))]
pub(crate) fn bit_of(map: Map, given: Entry) -> bool
    ensures { result ≡ bit_of map (told_entry given.entry) }
{
    match map {
        Map::Presence => matches!(given, Entry::Value(_)),
        Map::Update => !matches!(given, Entry::Unchanged),
        Map::Force => matches!(given, Entry::Null),
    }
}

// Byte `j` of the map of these bits, the first as its top bit.
fn map_byte(bits: &[bool; 64], j: usize) -> u8
    requires { j < 8 }
    ensures { result ≡ byte_of (drop (8 * j) bits.now) }
{
    let mut byte = 0;
    for bit in &bits[8 * j..8 * j + 8] {
        byte = 2 * byte + u8::from(*bit);
    }
    byte
}

// Writes `size` bytes of the map of these bits from `at` on, where they fit.
pub(crate) fn put_bytes(out: &mut [u8], at: usize, bits: &[bool; 64], size: usize)
    requires { size ≤ 8 }
    ensures { out.new ≡ put out.old at (pack_in size bits.now) }
{
    let mut bytes = [0u8; 8];
    for (j, byte) in bytes.iter_mut().enumerate() {
        *byte = map_byte(bits, j);
    }
    copy_into(out, at, &bytes[..size]);
}
