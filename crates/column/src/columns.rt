// The columns of one schema by value, for all that walks or plans rows; and each of them in one number.
ghost use Rattle.std.specs.Prelude.{◌≡◌, min};
ghost use Rattle.column.specs.Layout.{columns_in};
ghost use Rattle.column.specs.Packed.{packed_from};

use crate::column::Column;
use crate::packed::pack;

// The most columns that a schema has.
pub const MOST_COLUMNS: usize = 64;

// Up to so many columns; behind the last one all are of zeros.
#[derive(Clone, Copy)]
pub struct Columns {
    pub count: usize,
    pub columns: [Column; 64],
}

impl Columns {
    // The columns themselves.
    pub fn as_slice(&self) -> &[Column]
        ensures { result.now ≡ columns_in self.now }
    {
        &self.columns[..self.count.min(64)]
    }
}

// The same columns, each in one number.
pub fn pack_all(columns: Columns) -> [u32; 64]
    ensures { packed_from (min columns.count 64) 0 result ≡ columns_in columns }
{
    let mut slots = [0u32; 64];
    for i in 0..64 {
        slots[i] = pack(columns.columns[i]) as u32;
    }
    slots
}
