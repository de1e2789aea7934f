// Questions about update data and about a changed row, with the schema file and the schema number that say the columns.
ghost use Rattle.std.specs.Prelude.{◌≡◌};
ghost use Rattle.wire.specs.Read.{told};
ghost use Rattle.walk.specs.Parts.{current_part};
ghost use Rattle.update.specs.Told.{told_update, told_current};
ghost use Rattle.adtg.specs.InSchema.{listed, told_columns};
ghost use Rattle.adtg.specs.Updates.{look_update_in, update_end_in, sizes_of, current_in};

use crate::{columns_beside, columns_for};
use column::columns::Columns;
use update::current::CurrentValue;
use update::updates::UpdateLookUp;
use wire::check_size;
use wire::error::{Error, Input, about};

// What update data say of column `column`; they are examined in full first.
// Kept: the calls here differ in what they ask and answer; a closure in place of their last line is no plainer.
#[tactic(auto, using(crate::proofs::Laws::update_listed))]
pub fn look_update(
    file: &[u8],
    number: usize,
    update: &[u8],
    column: usize,
) -> Result<UpdateLookUp, Error>
    ensures { told_update result ≡ look_update_in file.now number update.now column }
{
    let columns = columns_for(file, number, update, Input::Update)?;
    update::updates::look_update(columns, update, column)
}

// Where the update data at `at` of an input end, all their fields included.
#[tactic(auto, using(crate::proofs::Laws::update_end_listed))]
pub fn update_end(file: &[u8], number: usize, update: &[u8], at: usize) -> Result<usize, Error>
    ensures { told result ≡ update_end_in file.now number update.now at }
{
    let columns = columns_for(file, number, update, Input::Update)?;
    about(
        update::updates::update_end(columns, update, at),
        Input::Update,
    )
}

// The columns of schema `number`, beside update data and a row.
#[tactic(auto, unfolding(wire::specs::Read::sized))]
fn columns_for_both(file: &[u8], number: usize, row: &[u8], update: &[u8]) -> Result<Columns, Error>
    ensures { told_columns result ≡ listed file.now (sizes_of row.now update.now) number }
{
    let update_size = check_size(update.len(), Input::Update);
    let row_size = check_size(row.len(), Input::Row);
    columns_beside(file, number, update_size.and(row_size))
}

// The current value of column `column` of a changed row. The row is looked at only where the update data say nothing.
#[tactic(auto, using(crate::proofs::Laws::current_listed))]
pub fn current(
    file: &[u8],
    number: usize,
    row: &[u8],
    update: &[u8],
    column: usize,
) -> Result<CurrentValue, Error>
    ensures { told_current result ≡ current_in file.now number row.now update.now column }
{
    let columns = columns_for_both(file, number, row, update)?;
    update::current::current(columns, row, update, column)
}

// The bytes of the current value of column `column`, as a part of the row that holds it; empty where no field is found.
#[tactic(auto, unfolding(walk::specs::Parts::current_part), using(crate::proofs::Laws::current_listed))]
pub fn current_part<'a>(
    file: &[u8],
    number: usize,
    row: &'a [u8],
    update: &'a [u8],
    column: usize,
) -> &'a [u8]
    ensures { result.now ≡ current_part row.now update.now (current_in file.now number row.now update.now column) }
{
    match columns_for_both(file, number, row, update) {
        Ok(columns) => update::current::current_part(columns, row, update, column),
        Err(_) => &row[0..0],
    }
}
