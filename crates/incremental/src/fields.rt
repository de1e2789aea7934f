// The fields of row data in progress: from one column on, the next that has a field.
ghost use Rattle.std.specs.Prelude.{◌≡◌, [], map, true, false, ltb, suc, ◌+◌, ◌-◌, ◌≤◌, ◌<◌, length, drop};
ghost use Rattle.wire.specs.Read.{pick};
ghost use Rattle.tree.specs.Schemas.{as_column};
ghost use Rattle.tree.specs.Table.{entries_in};
ghost use Rattle.column.specs.Columns.{is_variable, prefix_size, width};
ghost use Rattle.walk.specs.Presence.{bit_of, mark, present};
ghost use Rattle.walk.specs.Updates.{carried};
ghost use Rattle.feeding.specs.Machine.{between, keep, skip, prefix, adds, behind, columns_for, seek_from};
ghost use Rattle.incremental.specs.Parts.{kind_told};
ghost use Rattle.incremental.specs.Record.{kind_in, map_in};
ghost use Rattle.incremental.specs.Steps.{schemas_of, number_for, Columns, FieldsPassed, Sought, Stands};

use crate::record::{BETWEEN, BODY, PREFIX, Reader, RowKind, plain};
use crate::sheet::Sheet;
use column::column::Column;
use column::field::field_at;
use column::packed::unpack;
use row::rows::is_present;
use schema::children::child_number;
use shapes::shapes::{PART, SCHEMAS};
use update::updates::is_carried;
use wire::bits::map_bytes;

// Where the columns of one schema stand in a table of slots.
#[derive(Clone, Copy)]
pub struct Block {
    pub first: usize,
    pub count: usize,
}

// The number of the schema of row data.
fn number_of(sheet: &Sheet, kind: RowKind) -> usize
    ensures { (result ≡ number_for (schemas_of sheet.now) (kind_told kind)) × (result < 256) }
{
    match kind {
        RowKind::Parent => 0,
        RowKind::Child(id) | RowKind::Change(id) => child_number(
            sheet.slots,
            sheet.schemas,
            id as u64,
        ).unwrap_or(0),
    }
}

// Where the columns of row data stand.
pub(crate) fn block_of(sheet: &Sheet, kind: RowKind) -> Block
    ensures { Columns sheet.now.slots.now (columns_for (schemas_of sheet.now) (kind_told kind)) result }
{
    let slot = sheet.slots[SCHEMAS + number_of(sheet, kind)];
    Block {
        first: (slot % PART) as usize,
        count: (slot / PART % PART) as usize,
    }
}

// Whether column `i` with this bit has a field by the maps of row data; the force-null map starts at `half`.
fn has_field(column: Column, update: bool, i: usize, bit: usize, map: &[u8], half: usize) -> bool
    requires { half ≤ length map.now }
    ensures { result ≡ pick update (carried map.now (drop half map.now) (mark column i)) (present map.now (mark column bit)) }
{
    // Kept: a choice of two calls; a closure for them is no plainer.
    if update {
        is_carried(column, i, map, &map[half..])
    } else {
        is_present(column, bit, map)
    }
}

// Whether column `i` has a field with bytes, or with a length in front of it.
fn is_next(column: Column, update: bool, i: usize, bit: usize, bits: &[u8], half: usize) -> bool
    requires { half ≤ length bits.now }
    ensures { result ≡ pick (pick update (carried bits.now (drop half bits.now) (mark column i)) (present bits.now (mark column bit))) (pick (is_variable column) true (ltb 0 (width column))) false }
{
    has_field(column, update, i, bit, bits, half) && (column.is_variable() || 0 < column.width())
}

// How many of the first `n` columns of a block are nullable.
#[tactic(auto, using(walk::proofs::Laws::bit_zero, crate::proofs::FieldLaws::slot_counted))]
pub(crate) fn bits_before(slots: &[u64; 512], block: Block, n: usize) -> usize
    requires { (block.first + block.count ≤ 256) × (block.count ≤ 64) × (n ≤ block.count) }
    ensures { (result ≡ bit_of (map as_column (entries_in block.first block.count slots.now)) n) × (result ≤ n) }
{
    let mut bit = 0;
    for i in 0..n {
        bit += usize::from(unpack(slots[block.first + i] as usize).is_nullable());
    }
    bit
}

// Fields that were passed: where they end, and the column that comes next.
#[derive(Clone, Copy)]
pub struct Fields {
    pub at: usize,
    pub column: usize,
}

// Passes the fields from column `j` on that lie whole in a fragment, from `start` on: up to one that does not, or to the last column.
fn pass_fields(
    slots: &[u64; 512],
    block: Block,
    update: bool,
    bits: &[u8],
    j: usize,
    fragment: &[u8],
    start: usize,
) -> Fields
    requires { (block.first + block.count ≤ 256) × (block.count ≤ 64) × (start ≤ length fragment.now) × (length fragment.now ≤ 16777216) }
    ensures { FieldsPassed update (map as_column (entries_in block.first block.count slots.now)) bits.now j fragment.now start result }
{
    let half = map_bytes(block.count).min(bits.len());
    let from = j.min(block.count);
    let mut bit = bits_before(slots, block, from);
    let mut at = start;
    for i in from..block.count {
        let column = unpack(slots[block.first + i] as usize);
        if is_next(column, update, i, bit, bits, half) {
            let Ok(field) = field_at(column, fragment, at) else {
                return Fields { at, column: i };
            };
            at = field.end;
        }
        bit += usize::from(column.is_nullable());
    }
    Fields {
        at,
        column: block.count,
    }
}

// Row data of which no field is left: what stands between elements.
#[tactic(auto, using(crate::proofs::StateLaws::between_stands))]
fn row_ended(kind: RowKind, rows: usize, at: usize) -> Reader
    requires { (rows < at) × (at ≤ 16777216) }
    ensures { Stands (between (rows + adds (kind_told kind)) at (behind (kind_told kind))) at result }
{
    match kind {
        RowKind::Parent => plain(BETWEEN, rows + 1, at),
        RowKind::Child(id) => plain(BETWEEN, rows + 1, at).behind(Some(id)),
        RowKind::Change(_) => plain(BETWEEN, rows, at),
    }
}

// The field of column `i` comes next: its length, or its bytes.
#[tactic(auto, using(crate::proofs::StateLaws::prefix_stands, crate::proofs::StateLaws::body_stands, crate::proofs::FieldLaws::prefix_few, feeding::proofs::Fed::prefix_positive))]
fn at_field(r: &Reader, at: usize, i: usize, column: Column) -> Reader
    requires { (r.now.mapped ≤ 16) × (r.now.rows ≤ at) × (1 ≤ at) × (i < 64) }
    ensures { Stands (pick (is_variable column) (keep r.now.rows at [] (prefix_size column - 1) (prefix (kind_in r.now) (map_in r.now) i)) (skip r.now.rows at (width column - 1) (kind_in r.now) (map_in r.now) (suc i))) at result }
{
    if column.is_variable() {
        Reader {
            stage: PREFIX,
            at,
            more: column.prefix_size() - 1,
            column: i,
            filled: 0,
            ..*r
        }
    } else {
        Reader {
            stage: BODY,
            at,
            more: column.width().saturating_sub(1),
            column: i + 1,
            filled: 0,
            ..*r
        }
    }
}

// Where a part of a fragment led.
#[derive(Clone, Copy)]
pub struct Moved {
    pub reader: Reader,
    pub at: usize,
}

// From column `j` on, where the row data have come to `place`: passes the fields that lie whole in a fragment from `start` on. Then comes the first that
// does not, or the row data end.
#[tactic(auto, using(shapes::proofs::Slots::length_slots, shapes::proofs::Slots::slot_at, crate::proofs::FieldLaws::found_field, crate::proofs::FieldLaws::found_none, crate::proofs::FieldLaws::sought))]
pub(crate) fn seek_on(
    sheet: &Sheet,
    r: &Reader,
    place: usize,
    j: usize,
    fragment: &[u8],
    start: usize,
) -> Moved
    requires { (r.now.mapped ≤ 16) × (r.now.rows < place) × (start ≤ length fragment.now) × (place + (length fragment.now - start) ≤ 16777216) × (length fragment.now ≤ 16777216) }
    ensures { Sought (schemas_of sheet.now) fragment.now r.now place j start result }
{
    let kind = r.row_kind();
    let block = block_of(sheet, kind);
    let update = kind.is_update();
    let passed = pass_fields(sheet.slots, block, update, r.maps(), j, fragment, start);
    let at = passed.at;
    let i = passed.column;
    let to = place + (at - start);
    let reader = if i < block.count {
        at_field(r, to, i, unpack(sheet.slots[block.first + i] as usize))
    } else {
        row_ended(kind, r.rows, to)
    };
    Moved { reader, at }
}

// The first field from column `j` on, where the row data have come to `at` and no byte of it is at hand.
#[tactic(auto, using(crate::proofs::FieldLaws::sought_none))]
pub(crate) fn seek(sheet: &Sheet, r: &Reader, at: usize, j: usize) -> Reader
    requires { (r.now.mapped ≤ 16) × (r.now.rows < at) × (at ≤ 16777216) }
    ensures { Stands (seek_from (schemas_of sheet.now) r.now.rows at (kind_in r.now) (map_in r.now) j) at result }
{
    seek_on(sheet, r, at, j, &[], 0).reader
}
