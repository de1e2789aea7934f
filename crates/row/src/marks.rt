// What an original row is asked by others, piece by piece: whether it opens, and which columns it has a field of.
ghost use Rattle.std.specs.Prelude.{◌≡◌, ◌<◌, length};
ghost use Rattle.wire.specs.Read.{told};
ghost use Rattle.column.specs.Layout.{columns_in};
ghost use Rattle.walk.specs.Presence.{mark_of, present};
ghost use Rattle.walk.specs.Rows.{opened};

use crate::rows::{count_nullable, is_present, open_row};
use column::columns::{Columns, pack_all};
use column::packed::unpack_slot;
use wire::error::Error;

// The row at `at` opens: where its fields start.
pub fn opened(columns: Columns, row: &[u8], at: usize) -> Result<usize, Error>
    ensures { told result ≡ opened (columns_in columns) row.now at }
{
    let slots = pack_all(columns);
    open_row(&slots[..columns.count.min(64)], row, at)
}

// Whether a row with this map has a field of column `i`.
pub fn has_field(columns: Columns, map: &[u8], i: usize) -> bool
    ensures { i < length (columns_in columns) → result ≡ present map.now (mark_of (columns_in columns) i) }
{
    if 64 <= i {
        return false;
    }
    let slots = pack_all(columns);
    is_present(unpack_slot(slots[i]), count_nullable(&slots[..i]), map)
}
