// Update data: their two maps checked in full, the walk over their fields, their end, and look-up in them.
ghost use Rattle.std.specs.Prelude.{◌≡◌, ◌+◌, ◌≤◌, ◌<◌, length, drop, Err};
ghost use Rattle.wire.specs.Read.{ok, told};
ghost use Rattle.wire.specs.Bits.{map_bytes};
ghost use Rattle.wire.specs.declared.error.Input.TheVariants as input;
ghost use Rattle.column.specs.Layout.{columns_in};
ghost use Rattle.walk.specs.Presence.{mark, clear};
ghost use Rattle.walk.specs.Rows.{place, walk};
ghost use Rattle.walk.specs.Updates.{numbered, chapter_marked, force_broken, carried, update_opened, update_end, look_update, look_update_row};
ghost use Rattle.update.specs.declared.updates.UpdateLookUp.TheVariants as look;
ghost use Rattle.row.specs.Told.{told_walk};
ghost use Rattle.update.specs.Told.{told_update};

use column::column::Column;
use column::columns::Columns;
use column::field::{Field, field_at};
use row::rows::Walked;
use wire::LIMIT;
use wire::bits::{is_set, map_bytes};
use wire::bytes::lacks;
use wire::error::{Error, ErrorKind, Input, about};

// What update data say of a column.
#[derive(Clone, Copy)]
pub enum UpdateLookUp {
    Found(Field),
    Null,
    Unchanged,
    Chapter,
}

// Whether column `i` is a chapter whose bit is set in a map.
#[tactic(auto, unfolding(walk::specs::Updates::chapter_marked))]
pub fn is_chapter_marked(column: Column, i: usize, map: &[u8]) -> bool
    ensures { result ≡ chapter_marked map.now (mark column i) }
{
    column.is_chapter() && is_set(map, i)
}

// Whether column `i` is forced to null where it is not changed or may not be null.
#[tactic(auto, unfolding(walk::specs::Updates::force_broken))]
pub fn breaks_force(column: Column, i: usize, update: &[u8], force: &[u8]) -> bool
    ensures { result ≡ force_broken update.now force.now (mark column i) }
{
    is_set(force, i) && !(is_set(update, i) && column.is_nullable())
}

// Whether update data hold a field of column `i`.
#[tactic(auto, unfolding(walk::specs::Updates::carried))]
pub fn is_carried(column: Column, i: usize, update: &[u8], force: &[u8]) -> bool
    ensures { result ≡ carried update.now force.now (mark column i) }
{
    is_set(update, i) && !is_set(force, i)
}

// A map of update data, which stands at `at` of an input, has no chapter's bit set.
#[tactic(auto, using(walk::proofs::UpdateLaws::rule_end, walk::proofs::UpdateLaws::rule_found, walk::proofs::UpdateLaws::rule_next, walk::proofs::UpdateLaws::map_byte))]
fn check_chapters(columns: &[Column], map: &[u8], at: usize) -> Result<(), Error>
    requires { at + map_bytes (length columns.now) < 18446744073709551616 }
    ensures { told result ≡ clear (chapter_marked map.now) 12 at (numbered 0 columns.now) }
{
    for (i, column) in columns.iter().enumerate() {
        if is_chapter_marked(*column, i, map) {
            return Err(Error::at(ErrorKind::ChapterBit, at + i / 8));
        }
    }
    Ok(())
}

// The force-null map, which stands at `at` of an input, keeps its rule with the update map.
// Kept: one loop for both rules, with the rule as a closure, would need the rule in its contract as well, which is no plainer.
#[tactic(auto, using(walk::proofs::UpdateLaws::rule_end, walk::proofs::UpdateLaws::rule_found, walk::proofs::UpdateLaws::rule_next, walk::proofs::UpdateLaws::map_byte))]
fn check_force(columns: &[Column], update: &[u8], force: &[u8], at: usize) -> Result<(), Error>
    requires { at + map_bytes (length columns.now) < 18446744073709551616 }
    ensures { told result ≡ clear (force_broken update.now force.now) 13 at (numbered 0 columns.now) }
{
    for (i, column) in columns.iter().enumerate() {
        if breaks_force(*column, i, update, force) {
            return Err(Error::at(ErrorKind::ForceNull, at + i / 8));
        }
    }
    Ok(())
}

// Opens the update data at `at`: their maps are whole and keep all rules. Where their fields start.
#[tactic(auto, unfolding(walk::specs::Updates::update_bytes), using(walk::proofs::UpdateLaws::update_short, walk::proofs::UpdateLaws::update_chapter, walk::proofs::UpdateLaws::force_chapter, walk::proofs::UpdateLaws::force_rule, walk::proofs::UpdateLaws::update_well, walk::proofs::Laws::map_few, walk::proofs::Arrays::rest))]
pub(crate) fn open_update(columns: &[Column], row: &[u8], at: usize) -> Result<usize, Error>
    requires { length columns.now ≤ 64 }
    ensures { told result ≡ update_opened columns.now row.now at }
{
    let size = map_bytes(columns.len());
    if lacks(row.len(), at, 2 * size) {
        return Err(Error::short(row.len()));
    }
    let update = &row[at..];
    let force = &row[at + size..];
    check_chapters(columns, update, at)?;
    check_chapters(columns, force, at + size)?;
    check_force(columns, update, force, at + size)?;
    Ok(at + 2 * size)
}

// The walk of update data from `start` over the first `k` columns, by these maps.
#[tactic(auto, using(walk::proofs::Laws::walk_zero))]
fn walk_update(
    columns: &[Column],
    update: &[u8],
    force: &[u8],
    row: &[u8],
    start: usize,
    k: usize,
) -> Result<Walked, Error>
    requires { length columns.now ≤ 64 }
    ensures { told_walk result ≡ walk (carried update.now force.now) row.now k (numbered 0 columns.now) (place start 0) }
{
    let mut position = start;
    let mut prefixes = 0;
    for i in 0..k.min(columns.len()) {
        let column = columns[i];
        if is_carried(column, i, update, force) {
            let f = field_at(column, row, position)?;
            position = f.end;
            prefixes += f.prefixes;
        }
    }
    Ok(Walked { position, prefixes })
}

// Where the update data at `at` end, all their fields included; they are examined in full.
#[tactic(auto, unfolding(walk::specs::Updates::update_bytes), using(walk::proofs::UpdateLaws::update_end_closed, walk::proofs::UpdateLaws::update_end_refused, walk::proofs::UpdateLaws::update_end_reached, walk::proofs::UpdateLaws::update_walked_from, walk::proofs::UpdateFound::update_opened_ok, walk::proofs::Arrays::rest, walk::proofs::Laws::map_few))]
fn end_of_update(columns: &[Column], row: &[u8], at: usize) -> Result<usize, Error>
    requires { length columns.now ≤ 64 }
    ensures { told result ≡ update_end columns.now row.now at }
{
    let start = open_update(columns, row, at)?;
    let force = at + map_bytes(columns.len());
    let walked = walk_update(
        columns,
        &row[at..],
        &row[force..],
        row,
        start,
        columns.len(),
    )?;
    Ok(walked.position)
}

// Column `k` of update data that are well formed and end at `end`.
#[tactic(auto, unfolding(walk::specs::Updates::update_bytes), using(walk::proofs::UpdateLaws::look_update_chapter, walk::proofs::UpdateLaws::look_update_unchanged, walk::proofs::UpdateLaws::look_update_null, walk::proofs::UpdateLaws::look_update_walk, walk::proofs::UpdateLaws::look_update_bad, walk::proofs::UpdateLaws::look_update_found, walk::proofs::UpdateLaws::update_walked_from, walk::proofs::UpdateFound::update_end_told, walk::proofs::Arrays::rest, walk::proofs::Arrays::few_prefixes, walk::proofs::Found::walk_few, walk::proofs::Laws::map_few, wire::proofs::Pieces::about_was, wire::proofs::Pieces::about_err))]
fn update_at(columns: &[Column], update: &[u8], k: usize, end: usize) -> Result<UpdateLookUp, Error>
    requires { (length columns.now ≤ 64) × (k < length columns.now) × (update_end columns.now update.now 0 ≡ ok end) }
    ensures { told_update result ≡ look_update columns.now update.now k }
{
    let column = columns[k];
    if column.is_chapter() {
        return Ok(UpdateLookUp::Chapter);
    }
    if !is_set(update, k) {
        return Ok(UpdateLookUp::Unchanged);
    }
    let size = map_bytes(columns.len());
    let force = &update[size..];
    if is_set(force, k) {
        return Ok(UpdateLookUp::Null);
    }
    let walked = walk_update(columns, update, force, update, 2 * size, k);
    let Walked { position, prefixes } = about(walked, Input::Update)?;
    let f = about(field_at(column, update, position), Input::Update)?;
    Ok(UpdateLookUp::Found(Field {
        prefixes: prefixes + f.prefixes,
        ..f
    }))
}

// What update data of these columns say of column `k`; they are examined in full first.
#[tactic(auto, using(walk::proofs::UpdateLaws::look_update_large, walk::proofs::UpdateLaws::look_update_sized, walk::proofs::UpdateLaws::look_update_column, walk::proofs::UpdateLaws::look_update_refused, wire::proofs::Pieces::about_was, wire::proofs::Pieces::about_err))]
pub fn look_update(columns: Columns, update: &[u8], k: usize) -> Result<UpdateLookUp, Error>
    ensures { told_update result ≡ look_update_row (columns_in columns) update.now k }
{
    if update.len() > LIMIT {
        return Err(Error::at_start(ErrorKind::TooLarge, Input::Update));
    }
    let list = columns.as_slice();
    if k >= list.len() {
        return Err(Error::at_start(ErrorKind::Missing, Input::Column));
    }
    let end = about(end_of_update(list, update, 0), Input::Update)?;
    update_at(list, update, k, end)
}

// Where the update data at `at` of an input end, all their fields included.
pub fn update_end(columns: Columns, row: &[u8], at: usize) -> Result<usize, Error>
    ensures { told result ≡ update_end (columns_in columns) row.now at }
{
    end_of_update(columns.as_slice(), row, at)
}
