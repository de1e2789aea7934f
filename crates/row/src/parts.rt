// The bytes of a field that a look-up finds, as a part of the caller's row.
ghost use Rattle.std.specs.Prelude.{◌≡◌};
ghost use Rattle.column.specs.Layout.{columns_in};
ghost use Rattle.walk.specs.Rows.{look_up_row};
ghost use Rattle.walk.specs.Parts.{part_of};

use crate::rows::{LookUp, look_up};
use column::columns::Columns;

// The bytes of the field of column `k`, as a part of the row; empty where no field is found.
#[tactic(auto, unfolding(walk::specs::Parts::part_of), using(walk::proofs::Parts::look_up_inside))]
pub fn field_part<'a>(columns: Columns, row: &'a [u8], k: usize) -> &'a [u8]
    ensures { result.now ≡ part_of row.now (look_up_row (columns_in columns) row.now k) }
{
    match look_up(columns, row, k) {
        Ok(LookUp::Found(f)) => &row[f.start..f.end],
        _ => &row[0..0],
    }
}
