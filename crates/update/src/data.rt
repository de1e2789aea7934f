// Row data of either kind, opened and gone over column by column: update data where `update` says so, else original row data.
ghost use Rattle.std.specs.Prelude.{◌≡◌, true, false, ◌<◌, length};
ghost use Rattle.wire.specs.Read.{told};
ghost use Rattle.column.specs.Layout.{columns_in};
ghost use Rattle.walk.specs.Presence.{mark, mark_of, no_column};
ghost use Rattle.walk.specs.Data.{data_opened, data_passed, HasAt};

use crate::updates::{is_carried, open_update};
use column::columns::Columns;
use column::field::field_at;
use row::marks::{has_field, opened};
use wire::bits::map_bytes;
use wire::error::Error;

// The row data at `at` open: where their fields start.
#[inline(always)]
pub fn open_data(columns: Columns, update: bool, s: &[u8], at: usize) -> Result<usize, Error>
    ensures { told result ≡ data_opened update (columns_in columns) s.now at }
{
    // Kept: a choice of two calls, here and below; a closure for them is no plainer.
    if update {
        open_update(columns.as_slice(), s, at)
    } else {
        opened(columns, s, at)
    }
}

// Whether the row data at `start` have a field of column `i`.
#[tactic(auto, unfolding(walk::specs::Updates::update_bytes), using(walk::proofs::Data::has_carried, walk::proofs::Data::has_present, walk::proofs::Laws::map_few))]
fn has_data(columns: Columns, update: bool, s: &[u8], start: usize, i: usize) -> bool
    ensures { i < length (columns_in columns) → HasAt update (columns_in columns) s.now start i result }
{
    let from = start.min(s.len());
    if update {
        let list = columns.as_slice();
        if list.len() <= i {
            return false;
        }
        let force = (from + map_bytes(list.len())).min(s.len());
        return is_carried(list[i], i, &s[from..], &s[force..]);
    }
    has_field(columns, &s[from..], i)
}

// Past column `i` of the row data at `start`, from a position.
#[tactic(auto, using(walk::proofs::Data::data_column, walk::proofs::Data::passed_absent, walk::proofs::Data::passed_field, walk::proofs::Data::passed_refused))]
pub fn pass_column(
    columns: Columns,
    update: bool,
    s: &[u8],
    start: usize,
    i: usize,
    at: usize,
) -> Result<usize, Error>
    ensures { i < length (columns_in columns) → told result ≡ data_passed update (columns_in columns) s.now start i at }
{
    let list = columns.as_slice();
    if list.len() <= i || !has_data(columns, update, s, start, i) {
        return Ok(at);
    }
    let f = field_at(list[i], s, at)?;
    Ok(f.end)
}
