// Pieces that are whole: ids, maps, lengths. Each is judged by the layer that knows it.
ghost use Rattle.std.specs.Prelude.{◌≡◌, suc, ◌+◌, ◌-◌, ◌≤◌, ◌<◌, [], ◌++◌, map, List, true, false, length, take, IfErr};
ghost use Rattle.wire.specs.Read.{ok, told};
ghost use Rattle.wire.specs.Integers.{read_int};
ghost use Rattle.tree.specs.Schemas.{Schema, as_column};
ghost use Rattle.tree.specs.Table.{entries_in};
ghost use Rattle.walk.specs.Presence.{presence_bytes};
ghost use Rattle.walk.specs.Rows.{opened};
ghost use Rattle.grammar.specs.Reader.{token_of, follows};
ghost use Rattle.feeding.specs.Machine.{from, settle, column_for, map_size, body_of, seek_from, mapped, row_from, tokened, judge, feed, child_id, change_id, delete_id, prefix};
ghost use Rattle.incremental.specs.Parts.{before_told, kind_told};
ghost use Rattle.incremental.specs.Record.{before_by, kind_in, held_in, map_in, stage_in, state_in, numbers, paired_of, paired_id};
ghost use Rattle.incremental.specs.Steps.{schemas_of, Sane, Whole, Stands, Reached};

use crate::fields::{Block, bits_before, block_of, seek};
use crate::record::{
    BETWEEN, BODY, CHANGE_ID, CHILD_ID, DELETE_ID, FINISHED, MAPS, Reader, RowKind, plain,
};
use crate::sheet::Sheet;
use column::column::Column;
use column::field::length_at;
use column::packed::unpack;
use row::rows::is_chapter_set;
use schema::children::child_number;
use schema::columns::columns_in;
use section::heads::{CHANGE, CHILD, DELETE, DONE, PARENT};
use update::data::open_data;
use wire::bits::map_bytes;
use wire::error::{Error, ErrorKind};
use wire::integer::u32_at;

// What is read of a piece by itself, where the piece stands at `start`.
fn from<T>(start: usize, answer: Result<T, Error>) -> Result<T, Error>
    requires { (start ≤ 16777216) × IfErr answer (λ e. e.offset ≤ 16777216) }
    ensures { told result ≡ from start (told answer) }
{
    answer.map_err(|e| Error {
        offset: start + e.offset,
        ..e
    })
}

// Whether a presence map is whole and has no chapter's bit set.
#[tactic(auto, using(shapes::proofs::Slots::in_slots, shapes::proofs::Slots::length_slots, shapes::proofs::Slots::slot_at, crate::proofs::FieldLaws::slot_counted, crate::proofs::PieceLaws::opening_start, crate::proofs::PieceLaws::opening_next, crate::proofs::PieceLaws::opening_end))]
fn opens(slots: &[u64; 512], block: Block, bits: &[u8]) -> bool
    requires { (block.first + block.count ≤ 256) × (block.count ≤ 64) }
    ensures { result ≡ true → opened (map as_column (entries_in block.first block.count slots.now)) bits.now 0 ≡ ok (presence_bytes (map as_column (entries_in block.first block.count slots.now))) }
{
    let mut bit = 0;
    for i in 0..block.count {
        let column = unpack(slots[block.first + i] as usize);
        if is_chapter_set(column, bit, bits) {
            return false;
        }
        bit += usize::from(column.is_nullable());
    }
    map_bytes(bit) <= bits.len()
}

// The fields of row data whose maps are the piece that is whole.
fn from_maps(sheet: &Sheet, r: &Reader) -> Reader
    requires { Whole r.now }
    ensures { Stands (seek_from (schemas_of sheet.now) r.now.rows (r.now.at + r.now.filled) (kind_in r.now) (held_in r.now) 0) (r.now.at + r.now.filled) result }
{
    let row = Reader {
        map: r.held,
        mapped: r.filled,
        ..*r
    };
    seek(sheet, &row, r.at + r.filled, 0)
}

// The maps of row data are whole: their rules, then the fields.
#[tactic(auto, using(crate::proofs::PieceLaws::data_early, crate::proofs::PieceLaws::columns_open, crate::proofs::PieceLaws::map_opened, crate::proofs::PieceLaws::maps_stopped, crate::proofs::PieceLaws::maps_kept, crate::proofs::PieceLaws::reached_exit))]
fn open_maps(sheet: &Sheet, r: &Reader) -> Result<Reader, Error>
    requires { Whole r.now }
    ensures { Reached (settle (mapped (schemas_of sheet.now) r.now.rows r.now.at (held_in r.now) (kind_in r.now))) (r.now.at + r.now.filled) result }
{
    let kind = r.row_kind();
    let block = block_of(sheet, kind);
    let update = kind.is_update();
    let piece = r.piece();
    if update || !opens(sheet.slots, block, piece) {
        let columns = columns_in(sheet.slots, block.first, block.count);
        from(r.at, open_data(columns, update, piece, 0))?;
    }
    Ok(from_maps(sheet, r))
}

// The bytes of the maps of row data.
fn maps_size(sheet: &Sheet, kind: RowKind) -> usize
    ensures { (result ≡ map_size (schemas_of sheet.now) (kind_told kind)) × (result ≤ 16) }
{
    let block = block_of(sheet, kind);
    if kind.is_update() {
        2 * map_bytes(block.count)
    } else {
        map_bytes(bits_before(sheet.slots, block, block.count))
    }
}

// Row data that start at `at`; there may be no map.
fn start_row(sheet: &Sheet, rows: usize, at: usize, kind: RowKind) -> Result<Reader, Error>
    requires { (rows < at) × (at ≤ 16777216) }
    ensures { Reached (settle (row_from (schemas_of sheet.now) rows at (kind_told kind))) at result }
{
    let row = plain(MAPS, rows, at).of_kind(kind);
    match maps_size(sheet, kind) {
        0 => open_maps(sheet, &row),
        size => Ok(Reader {
            more: size - 1,
            ..row
        }),
    }
}

// An id behind a token.
fn start_id(stage: u32, rows: usize, at: usize, before: Option<usize>) -> Reader
    ensures { result ≡ numbers stage 0 0 (paired_id (before_told before)) (paired_of (before_told before)) rows at 3 0 0 [] [] }
{
    Reader {
        more: 3,
        ..plain(stage, rows, at).behind(before)
    }
}

// A token.
#[tactic(auto, using(crate::proofs::PieceLaws::child_waits, crate::proofs::PieceLaws::change_waits, crate::proofs::PieceLaws::delete_waits, crate::proofs::PieceLaws::done_read, crate::proofs::PieceLaws::token_parent, crate::proofs::PieceLaws::token_done, crate::proofs::PieceLaws::token_unknown))]
pub(crate) fn read_token(
    sheet: &Sheet,
    rows: usize,
    at: usize,
    before: Option<usize>,
    token: u8,
) -> Result<Reader, Error>
    requires { (rows ≤ at) × (at < 16777216) }
    ensures { Reached (settle (tokened (schemas_of sheet.now) rows at (before_told before) (token_of token))) (at + 1) result }
{
    match token {
        PARENT => start_row(sheet, rows, at + 1, RowKind::Parent),
        CHILD => Ok(start_id(CHILD_ID, rows, at + 1, None)),
        CHANGE => Ok(start_id(CHANGE_ID, rows, at + 1, before)),
        DELETE => Ok(start_id(DELETE_ID, rows, at + 1, before)),
        DONE => Ok(plain(FINISHED, rows, at + 1)),
        _ => Err(Error::at(ErrorKind::UnknownToken, at)),
    }
}

// The id in a piece that is whole.
#[tactic(auto, using(crate::proofs::PieceLaws::int_early))]
fn id_in(r: &Reader) -> Result<usize, Error>
    requires { (r.now.filled ≤ 16) × (r.now.at ≤ 16777216) }
    ensures { (told result ≡ from r.now.at (read_int (held_in r.now) 0 4)) × (length (held_in r.now) ≡ r.now.filled) }
{
    from(r.at, u32_at(r.piece(), 0))
}

// The id of an 87 element is whole.
#[tactic(auto, using(crate::proofs::PieceLaws::child_stopped, crate::proofs::PieceLaws::child_unknown, crate::proofs::PieceLaws::child_known, crate::proofs::PieceLaws::reached_exit))]
fn judge_child(sheet: &Sheet, r: &Reader) -> Result<Reader, Error>
    requires { Whole r.now }
    ensures { Reached (settle (judge (schemas_of sheet.now) r.now.rows r.now.at (held_in r.now) (child_id (r.now.at - 1)))) (r.now.at + r.now.filled) result }
{
    let id = id_in(r)?;
    match child_number(sheet.slots, sheet.schemas, id as u64) {
        None => Err(Error::at(ErrorKind::UnknownId, r.at - 1)),
        Some(_) => start_row(sheet, r.rows, r.at + r.filled, RowKind::Child(id)),
    }
}

// Whether an 87 element with the id stands directly before.
fn follows(before: Option<usize>, id: usize) -> bool
    ensures { result ≡ follows (before_told before) id }
{
    before == Some(id)
}

// That of an 8A element.
#[tactic(auto, using(crate::proofs::PieceLaws::change_stopped, crate::proofs::PieceLaws::change_alone, crate::proofs::PieceLaws::change_unknown, crate::proofs::PieceLaws::change_known, crate::proofs::PieceLaws::reached_exit))]
fn judge_change(sheet: &Sheet, r: &Reader) -> Result<Reader, Error>
    requires { Whole r.now }
    ensures { Reached (settle (judge (schemas_of sheet.now) r.now.rows r.now.at (held_in r.now) (change_id (before_by r.now.paired r.now.id) (r.now.at - 1)))) (r.now.at + r.now.filled) result }
{
    let id = id_in(r)?;
    if !follows(r.before(), id) {
        return Err(Error::at(ErrorKind::Unpaired, r.at - 1));
    }
    match child_number(sheet.slots, sheet.schemas, id as u64) {
        None => Err(Error::at(ErrorKind::UnknownId, r.at - 1)),
        Some(_) => start_row(sheet, r.rows, r.at + r.filled, RowKind::Change(id)),
    }
}

// That of an 8C element.
#[tactic(auto, using(crate::proofs::PieceLaws::delete_stopped, crate::proofs::PieceLaws::delete_alone, crate::proofs::PieceLaws::delete_read, crate::proofs::PieceLaws::between_read, crate::proofs::PieceLaws::reached_exit))]
fn judge_delete(r: &Reader) -> Result<Reader, Error>
    requires { Whole r.now }
    ensures { (S : List Schema) → Reached (settle (judge S r.now.rows r.now.at (held_in r.now) (delete_id (before_by r.now.paired r.now.id) (r.now.at - 1)))) (r.now.at + r.now.filled) result }
{
    let id = id_in(r)?;
    if !follows(r.before(), id) {
        return Err(Error::at(ErrorKind::Unpaired, r.at - 1));
    }
    Ok(plain(BETWEEN, r.rows, r.at + r.filled))
}

// Column `j` of row data; past the last one of no type.
// Kept: (a) `column_for` of the machine has this column there.
#[tactic(auto, using(shapes::proofs::Slots::slot_at, crate::proofs::PieceLaws::column_in_lem, crate::proofs::PieceLaws::column_past))]
fn column_at(sheet: &Sheet, kind: RowKind, j: usize) -> Column
    ensures { result ≡ column_for (schemas_of sheet.now) (kind_told kind) j }
{
    let block = block_of(sheet, kind);
    if j < block.count {
        unpack(sheet.slots[block.first + j] as usize)
    } else {
        Column {
            code: 0,
            flags: 0,
            maximum: 0,
        }
    }
}

// The length in front of a field of column `j` is whole, and allowed: its bytes come next.
#[tactic(auto, using(crate::proofs::PieceLaws::body_started))]
fn start_body(sheet: &Sheet, r: &Reader, at: usize, size: usize) -> Reader
    requires { (r.now.mapped ≤ 16) × (r.now.rows < at) × (at ≤ 16777216) × (r.now.column < 64) }
    ensures { Stands (body_of r.now.rows at size (kind_in r.now) (map_in r.now) (suc r.now.column) (seek_from (schemas_of sheet.now) r.now.rows (at + size) (kind_in r.now) (map_in r.now) (suc r.now.column))) at result }
{
    if size == 0 {
        seek(sheet, r, at, r.column + 1)
    } else {
        Reader {
            stage: BODY,
            at,
            more: size - 1,
            column: r.column + 1,
            ..*r
        }
    }
}

// The length in front of a field is whole.
#[tactic(auto, using(column::proofs::Laws::code_positive, crate::proofs::PieceLaws::int_early, crate::proofs::PieceLaws::prefix_stopped, crate::proofs::PieceLaws::prefix_long, crate::proofs::PieceLaws::prefix_read, crate::proofs::PieceLaws::reached_exit))]
fn judge_prefix(sheet: &Sheet, r: &Reader) -> Result<Reader, Error>
    requires { Whole r.now × (r.now.mapped ≤ 16) × (r.now.column < 64) }
    ensures { Reached (settle (judge (schemas_of sheet.now) r.now.rows r.now.at (held_in r.now) (prefix (kind_in r.now) (map_in r.now) r.now.column))) (r.now.at + r.now.filled) result }
{
    let column = column_at(sheet, r.row_kind(), r.column);
    let size = from(r.at, length_at(column, r.piece(), 0))?;
    match column.length_error(size) {
        Err(kind) => Err(Error::at(kind, r.at)),
        Ok(()) => Ok(start_body(sheet, r, r.at + r.filled, size)),
    }
}

// A piece is whole.
#[tactic(auto, using(crate::proofs::StateLaws::stage_child, crate::proofs::StateLaws::stage_change, crate::proofs::StateLaws::stage_delete, crate::proofs::StateLaws::stage_maps, crate::proofs::StateLaws::stage_prefix, crate::proofs::PieceLaws::maps_judged))]
fn judge(sheet: &Sheet, r: &Reader) -> Result<Reader, Error>
    requires { Whole r.now × (r.now.mapped ≤ 16) × (r.now.column < 64) × (1 ≤ r.now.stage) × (r.now.stage ≤ 5) }
    ensures { Reached (settle (judge (schemas_of sheet.now) r.now.rows r.now.at (held_in r.now) (stage_in r.now))) (r.now.at + r.now.filled) result }
{
    match r.stage {
        CHILD_ID => judge_child(sheet, r),
        CHANGE_ID => judge_change(sheet, r),
        DELETE_ID => judge_delete(r),
        MAPS => open_maps(sheet, r),
        _ => judge_prefix(sheet, r),
    }
}

// The bytes of a part behind those of a piece.
fn with_bytes(bytes: [u8; 16], filled: usize, part: &[u8]) -> [u8; 16]
    requires { filled + length part.now ≤ 16 }
    ensures { take (filled + length part.now) result ≡ take filled bytes ++ part.now }
{
    let mut next = bytes;
    next[filled..filled + part.len()].copy_from_slice(part);
    next
}

// So many bytes more of a piece, which has room for them.
#[tactic(auto, using(crate::proofs::PieceLaws::piece_whole, crate::proofs::PieceLaws::piece_some))]
pub(crate) fn keep_bytes(sheet: &Sheet, r: &Reader, part: &[u8]) -> Result<Reader, Error>
    requires { (1 ≤ r.now.stage) × (r.now.stage ≤ 5) × Sane r.now (r.now.at + r.now.filled) × (r.now.at + r.now.filled + length part.now ≤ 16777216) × (1 ≤ length part.now) × (length part.now ≤ r.now.more + 1) }
    ensures { Reached (feed (schemas_of sheet.now) (state_in r.now) part.now) (r.now.at + r.now.filled + length part.now) result }
{
    let next = Reader {
        held: with_bytes(r.held, r.filled, part),
        filled: r.filled + part.len(),
        ..*r
    };
    if r.more < part.len() {
        judge(sheet, &next)
    } else {
        Ok(Reader {
            more: r.more - part.len(),
            ..next
        })
    }
}
