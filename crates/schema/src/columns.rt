// The columns of a schema, out of the table that the reader filled: by value, and in slots of 32 bits.
ghost use Rattle.std.specs.Prelude.{◌≡◌, map, min};
ghost use Rattle.column.specs.Layout.{layout};
ghost use Rattle.column.specs.Packed.{packed_from};
ghost use Rattle.tree.specs.Schemas.{as_column};
ghost use Rattle.tree.specs.Table.{entries_in};

use crate::MOST_FILE_COLUMNS;
use crate::slot::ID;
use column::column::Column;
use column::columns::{Columns, MOST_COLUMNS};
use column::packed::unpack;

// The columns in `count` slots from `start` on. Of more than a schema has, the first; from slots of columns, at most the last.
pub fn columns_in(table: &[u64; 512], start: usize, count: usize) -> Columns
    ensures { result ≡ layout (map as_column (entries_in (min start 256) (min count 64) table.now)) }
{
    let first = start.min(MOST_FILE_COLUMNS);
    let n = count.min(MOST_COLUMNS);
    let mut columns = Columns {
        count: n,
        columns: [Column {
            code: 0,
            flags: 0,
            maximum: 0,
        }; 64],
    };
    for i in 0..n {
        columns.columns[i] = unpack(table[first + i] as usize);
    }
    columns
}

// The same columns, each in a slot of 32 bits.
pub fn slots_in(table: &[u64; 512], start: usize, count: usize, slots: &mut [u32; 64])
    ensures { packed_from (min count 64) 0 slots.new ≡ map as_column (entries_in (min start 256) (min count 64) table.now) }
{
    let first = start.min(MOST_FILE_COLUMNS);
    let n = count.min(MOST_COLUMNS);
    *slots = [0u32; 64];
    for i in 0..n {
        slots[i] = (table[first + i] % ID) as u32;
    }
}
