// Questions about a row, with the schema file and the schema number that say its columns.
ghost use Rattle.std.specs.Prelude.{◌≡◌};
ghost use Rattle.wire.specs.Read.{told};
ghost use Rattle.walk.specs.Parts.{part_of};
ghost use Rattle.row.specs.Told.{told_look_up};
ghost use Rattle.adtg.specs.Rows.{look_up_in, field_count_in, row_end_in};

use crate::{columns_for, slots_for};
use row::rows::{LookUp, field_count_packed, look_up_packed, row_end_packed};
use wire::error::{Error, Input, about};

// What a row has at column `column`: its field, null, or that the column is a chapter.
// Kept: the calls here differ in what they ask and answer; a closure in place of their last line is no plainer.
#[tactic(auto, using(crate::proofs::Laws::look_listed, column::proofs::PackedLaws::packed_front))]
pub fn look_up(file: &[u8], number: usize, row: &[u8], column: usize) -> Result<LookUp, Error>
    ensures { told_look_up result ≡ look_up_in file.now number row.now column }
{
    let mut slots = [0u32; 64];
    let count = slots_for(file, number, row, Input::Row, &mut slots)?;
    look_up_packed(&slots[..count], row, column)
}

// The bytes of the field of column `column`, as a part of the row; empty where no field is found.
#[tactic(auto, unfolding(walk::specs::Parts::part_of), using(crate::proofs::Laws::look_listed))]
pub fn field_part<'a>(file: &[u8], number: usize, row: &'a [u8], column: usize) -> &'a [u8]
    ensures { result.now ≡ part_of row.now (look_up_in file.now number row.now column) }
{
    match columns_for(file, number, row, Input::Row) {
        Ok(columns) => row::parts::field_part(columns, row, column),
        Err(_) => &row[0..0],
    }
}

// The number of fields of a row, by its map alone.
#[tactic(auto, using(crate::proofs::Laws::count_listed, column::proofs::PackedLaws::packed_front))]
pub fn field_count(file: &[u8], number: usize, row: &[u8]) -> Result<usize, Error>
    ensures { told result ≡ field_count_in file.now number row.now }
{
    let mut slots = [0u32; 64];
    let count = slots_for(file, number, row, Input::Row, &mut slots)?;
    field_count_packed(&slots[..count], row)
}

// Where the row at `at` of an input ends, all its fields included.
#[tactic(auto, using(crate::proofs::Laws::end_listed, column::proofs::PackedLaws::packed_front))]
pub fn row_end(file: &[u8], number: usize, row: &[u8], at: usize) -> Result<usize, Error>
    ensures { told result ≡ row_end_in file.now number row.now at }
{
    let mut slots = [0u32; 64];
    let count = slots_for(file, number, row, Input::Row, &mut slots)?;
    about(row_end_packed(&slots[..count], row, at), Input::Row)
}
