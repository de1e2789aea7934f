// The current value of a column of a changed row, and its bytes as a part of the caller's rows.
ghost use Rattle.std.specs.Prelude.{◌≡◌};
ghost use Rattle.column.specs.Layout.{columns_in};
ghost use Rattle.walk.specs.Updates.{current_row};
ghost use Rattle.walk.specs.Parts.{current_part};
ghost use Rattle.update.specs.Told.{told_current};

use crate::updates::{UpdateLookUp, look_update};
use column::columns::Columns;
use column::field::Field;
use row::rows::{LookUp, look_up};
use wire::LIMIT;
use wire::error::{Error, ErrorKind, Input};

// The current value: a field of the update data, null by them, or what the original row answers.
#[derive(Clone, Copy)]
pub enum CurrentValue {
    Updated(Field),
    Forced,
    Original(LookUp),
}

// The current value of column `k` of a changed row. The original row is looked at only where the update data say nothing.
#[tactic(auto, unfolding(walk::specs::Updates::from_row), using(walk::proofs::UpdateLaws::look_update_sized, walk::proofs::UpdateLaws::current_large_update, walk::proofs::UpdateLaws::current_large_row, walk::proofs::UpdateLaws::current_sized, walk::proofs::UpdateLaws::current_refused, walk::proofs::UpdateLaws::current_updated, walk::proofs::UpdateLaws::current_forced, walk::proofs::UpdateLaws::current_unchanged, walk::proofs::UpdateLaws::current_chapter, walk::proofs::Laws::look_up_sized))]
pub fn current(columns: Columns, row: &[u8], update: &[u8], k: usize) -> Result<CurrentValue, Error>
    ensures { told_current result ≡ current_row (columns_in columns) row.now update.now k }
{
    if update.len() > LIMIT {
        return Err(Error::at_start(ErrorKind::TooLarge, Input::Update));
    }
    if row.len() > LIMIT {
        return Err(Error::at_start(ErrorKind::TooLarge, Input::Row));
    }
    match look_update(columns, update, k)? {
        UpdateLookUp::Found(f) => Ok(CurrentValue::Updated(f)),
        UpdateLookUp::Null => Ok(CurrentValue::Forced),
        UpdateLookUp::Unchanged | UpdateLookUp::Chapter => {
            Ok(CurrentValue::Original(look_up(columns, row, k)?))
        }
    }
}

// The bytes of the current value of column `k`, as a part of the row that holds it; empty where no field is found.
#[tactic(auto, unfolding(walk::specs::Parts::current_part, walk::specs::Parts::part_of), using(walk::proofs::Parts::current_updated_inside, walk::proofs::Parts::current_original_inside))]
pub fn current_part<'a>(columns: Columns, row: &'a [u8], update: &'a [u8], k: usize) -> &'a [u8]
    ensures { result.now ≡ current_part row.now update.now (current_row (columns_in columns) row.now update.now k) }
{
    match current(columns, row, update, k) {
        Ok(CurrentValue::Updated(f)) => { &update[f.start..f.end] }
        Ok(CurrentValue::Original(LookUp::Found(f))) => { &row[f.start..f.end] }
        _ => &row[0..0],
    }
}
