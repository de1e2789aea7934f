// A column in one number: its code, its flags and its maximum in the low 32 bits. What stands above them is left to who holds the number.
ghost use Rattle.std.specs.Prelude.{◌≡◌, ◌<◌};
ghost use Rattle.column.specs.Packed.{packed_column, unpacked_column};

use crate::column::Column;

// The places of flags and maximum.
const FLAGS: usize = 256;

const MAXIMUM: usize = 65_536;

// The number of a column.
#[tactic(auto, unfolding(crate::specs::Packed::packed_column), using(crate::proofs::PackedLaws::column_of_lem))]
pub fn pack(column: Column) -> usize
    ensures { (result ≡ packed_column column) × (result < 4294967296) × (unpacked_column result ≡ column) }
{
    usize::from(column.code)
        + FLAGS * usize::from(column.flags)
        + MAXIMUM * usize::from(column.maximum)
}

// The column in the low 32 bits of a number.
pub fn unpack(number: usize) -> Column
    ensures { result ≡ unpacked_column number }
{
    Column {
        code: (number % 256) as u8,
        flags: (number / FLAGS % 256) as u8,
        maximum: (number / MAXIMUM % 65_536) as u16,
    }
}

// The column in a number of 32 bits.
pub fn unpack_slot(slot: u32) -> Column
    ensures { result ≡ unpacked_column slot }
{
    unpack(slot as usize)
}
