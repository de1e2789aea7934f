// Original rows: presence, opening, the walk, look-up by the walk, the end of a row, the number of fields.
ghost use Rattle.std.specs.Prelude.{◌≡◌, ◌+◌, ◌≤◌, ◌<◌, ◌*◌, min, length, false, not, leb, Err};
ghost use Rattle.wire.specs.Read.{ok, pick, told};
ghost use Rattle.column.specs.Columns.{width, is_chapter, is_nullable, is_variable};
ghost use Rattle.column.specs.Layout.{columns_in};
ghost use Rattle.column.specs.Packed.{packed_from};
ghost use Rattle.walk.specs.Presence.{mark, marks, nullables, presence_bytes, present, chapter_present};
ghost use Rattle.walk.specs.Rows.{opened, place, walk, row_end, look_up, look_up_row, always, set_bits, field_count};
ghost use Rattle.wire.specs.declared.error.Input.TheVariants as input;
ghost use Rattle.row.specs.declared.rows.LookUp.TheVariants as look;
ghost use Rattle.row.specs.Told.{told_walk, told_look_up, NoChapter};

use column::column::Column;
use column::columns::{Columns, pack_all};
use column::field::{Field, field_at};
use column::packed::unpack_slot;
use wire::LIMIT;
use wire::bits::{is_set, map_bytes};
use wire::bytes::lacks;
use wire::error::{Error, ErrorKind, Input, about};

// Where a walk stands: the position, and the prefixes counted so far.
#[derive(Clone, Copy)]
pub struct Walked {
    pub position: usize,
    pub prefixes: usize,
}

// What a look-up answers.
#[derive(Clone, Copy)]
pub enum LookUp {
    Found(Field),
    Null,
    Chapter,
}

// Whether a column with this bit has a field.
#[tactic(auto, unfolding(walk::specs::Presence::present))]
pub fn is_present(column: Column, bit: usize, map: &[u8]) -> bool
    ensures { result ≡ present map.now (mark column bit) }
{
    !column.is_chapter() && (!column.is_nullable() || is_set(map, bit))
}

// Whether a column with this bit is a chapter whose bit is set.
#[tactic(auto, unfolding(walk::specs::Presence::chapter_present))]
pub fn is_chapter_set(column: Column, bit: usize, map: &[u8]) -> bool
    ensures { result ≡ chapter_present map.now (mark column bit) }
{
    column.is_chapter() && column.is_nullable() && is_set(map, bit)
}

// No more slots than a schema has columns.
fn few(slots: &[u32]) -> &[u32]
    ensures { (length result.now ≤ 64) × (packed_from (length result.now) 0 result.now ≡ packed_from (min (length slots.now) 64) 0 slots.now) }
{
    &slots[..slots.len().min(64)]
}

// How many of the columns are nullable.
// Kept: this count and the next two are sums without a branch, which the compiler makes of several columns at a time; as chains of std's
// `filter`, `count` and `any` a count of fields takes a third more instructions.
pub(crate) fn count_nullable(slots: &[u32]) -> usize
    ensures { result ≡ nullables (packed_from (length slots.now) 0 slots.now) }
{
    let mut bits = 0;
    for i in 0..slots.len() {
        bits += usize::from(unpack_slot(slots[i]).is_nullable());
    }
    bits
}

// Whether a column is one that every row has a field of.
fn is_always(column: Column) -> bool
    ensures { result ≡ pick (is_chapter column) false (not (is_nullable column)) }
{
    !column.is_chapter() && !column.is_nullable()
}

// How many of the columns every row has a field of.
fn count_always(slots: &[u32]) -> usize
    ensures { result ≡ always (packed_from (length slots.now) 0 slots.now) }
{
    let mut count = 0;
    for i in 0..slots.len() {
        count += usize::from(is_always(unpack_slot(slots[i])));
    }
    count
}

// Whether one of the columns is a chapter.
fn has_chapter(slots: &[u32]) -> bool
    ensures { result ≡ false → NoChapter slots.now (length slots.now) }
{
    let mut chapters = 0;
    for i in 0..slots.len() {
        chapters += usize::from(unpack_slot(slots[i]).is_chapter());
    }
    chapters > 0
}

// The bytes of the presence map of the columns in no more than 64 slots.
#[tactic(auto, unfolding(walk::specs::Presence::presence_bytes))]
pub fn presence_bytes(slots: &[u32]) -> usize
    ensures { result ≡ presence_bytes (packed_from (min (length slots.now) 64) 0 slots.now) }
{
    map_bytes(count_nullable(few(slots)))
}

// Opens the row at `at`: its map is whole and no chapter's bit is set. Where its data start.
pub(crate) fn open_row(slots: &[u32], row: &[u8], at: usize) -> Result<usize, Error>
    requires { length slots.now ≤ 64 }
    ensures { told result ≡ opened (packed_from (length slots.now) 0 slots.now) row.now at }
{
    let size = map_bytes(count_nullable(slots));
    if lacks(row.len(), at, size) {
        return Err(Error::short(row.len()));
    }
    if !has_chapter(slots) {
        return Ok(at + size);
    }
    let map = &row[at..];
    let mut bit = 0;
    for i in 0..slots.len() {
        let column = unpack_slot(slots[i]);
        if is_chapter_set(column, bit, map) {
            return Err(Error::at(ErrorKind::ChapterBit, at + bit / 8));
        }
        bit += usize::from(column.is_nullable());
    }
    Ok(at + size)
}

// Whether a field of fixed width stands at `at` of so many bytes, whole.
fn is_whole(column: Column, size: usize, at: usize) -> bool
    ensures { result ≡ pick (is_variable column) false (leb (at + width column) size) }
{
    !column.is_variable() && !lacks(size, at, column.width())
}

// The walk from `start` over the first `k` columns, by this map.
fn walk_row(slots: &[u32], map: &[u8], row: &[u8], start: usize, k: usize) -> Result<Walked, Error>
    requires { length slots.now ≤ 64 }
    ensures { told_walk result ≡ walk (present map.now) row.now k (marks 0 (packed_from (length slots.now) 0 slots.now)) (place start 0) }
{
    let mut bit = 0;
    let mut position = start;
    let mut prefixes = 0;
    for i in 0..k.min(slots.len()) {
        let column = unpack_slot(slots[i]);
        if is_present(column, bit, map) {
            if is_whole(column, row.len(), position) {
                position += column.width();
            } else {
                let f = field_at(column, row, position)?;
                position = f.end;
                prefixes += f.prefixes;
            }
        }
        bit += usize::from(column.is_nullable());
    }
    Ok(Walked { position, prefixes })
}

// Column `k` of a row that opens, its data from `start` on: a chapter, null, or its field by the walk to it.
// Kept: (b) a `match` that names the row in each error; through `about` the compiler puts the walk's position together from bytes.
fn look_at(slots: &[u32], row: &[u8], start: usize, k: usize) -> Result<LookUp, Error>
    requires { (length slots.now ≤ 64) × (k < length slots.now) × (opened (packed_from (length slots.now) 0 slots.now) row.now 0 ≡ ok start) }
    ensures { told_look_up result ≡ look_up (packed_from (length slots.now) 0 slots.now) row.now k }
{
    let column = unpack_slot(slots[k]);
    if column.is_chapter() {
        return Ok(LookUp::Chapter);
    }
    let bit = count_nullable(&slots[..k]);
    if !is_present(column, bit, row) {
        return Ok(LookUp::Null);
    }
    match walk_row(slots, row, row, start, k) {
        Err(e) => Err(e.about(Input::Row)),
        Ok(Walked { position, prefixes }) => match field_at(column, row, position) {
            Err(e) => Err(e.about(Input::Row)),
            Ok(f) => Ok(LookUp::Found(Field {
                prefixes: prefixes + f.prefixes,
                ..f
            })),
        },
    }
}

// What a row of the columns in no more than 64 slots has at column `k`.
#[tactic(auto, using(walk::proofs::Laws::look_up_large, walk::proofs::Laws::look_up_sized, walk::proofs::Laws::look_up_column, walk::proofs::Laws::look_up_closed, walk::proofs::Slots::length_from, wire::proofs::Pieces::about_was, wire::proofs::Pieces::about_err))]
pub fn look_up_packed(slots: &[u32], row: &[u8], k: usize) -> Result<LookUp, Error>
    ensures { told_look_up result ≡ look_up_row (packed_from (min (length slots.now) 64) 0 slots.now) row.now k }
{
    if row.len() > LIMIT {
        return Err(Error::at_start(ErrorKind::TooLarge, Input::Row));
    }
    let columns = few(slots);
    if k >= columns.len() {
        return Err(Error::at_start(ErrorKind::Missing, Input::Column));
    }
    let start = about(open_row(columns, row, 0), Input::Row)?;
    look_at(columns, row, start, k)
}

// What a row of these columns has at column `k`.
pub fn look_up(columns: Columns, row: &[u8], k: usize) -> Result<LookUp, Error>
    ensures { told_look_up result ≡ look_up_row (columns_in columns) row.now k }
{
    let slots = pack_all(columns);
    look_up_packed(&slots[..columns.count.min(64)], row, k)
}

// Where the row at `at` of an input ends, all its fields included; of the columns in no more than 64 slots.
#[tactic(auto, using(walk::proofs::Laws::end_closed, walk::proofs::Laws::end_refused, walk::proofs::Laws::end_reached, walk::proofs::Found::opened_ok, walk::proofs::Found::walked_from, walk::proofs::Arrays::rest, walk::proofs::Slots::length_from))]
pub fn row_end_packed(slots: &[u32], row: &[u8], at: usize) -> Result<usize, Error>
    ensures { told result ≡ row_end (packed_from (min (length slots.now) 64) 0 slots.now) row.now at }
{
    let columns = few(slots);
    let start = open_row(columns, row, at)?;
    let walked = walk_row(columns, &row[at..], row, start, columns.len())?;
    Ok(walked.position)
}

// How many of the first `n` bits of a map are set: the ones of each byte, the reserved bits of the last one cleared.
#[tactic(auto, using(walk::proofs::Laws::set_zero, walk::proofs::BitCounts::set_le, walk::proofs::BitCounts::set_byte, walk::proofs::BitCounts::set_last_kept))]
fn count_set(map: &[u8], n: usize) -> usize
    requires { n ≤ 8 * length map.now }
    ensures { result ≡ set_bits map.now n }
{
    let whole = n / 8;
    let left = n % 8;
    let mut count: usize = 0;
    for i in 0..whole {
        count += u8::count_ones(map[i]) as usize;
    }
    if left != 0 {
        let reserved = 8 - left;
        let kept = map[whole] >> reserved << reserved;
        count += u8::count_ones(kept) as usize;
    }
    count
}

// The number of fields of a row, by its map alone; of the columns in no more than 64 slots.
#[tactic(auto, unfolding(walk::specs::Presence::presence_bytes), using(walk::proofs::Laws::count_large, walk::proofs::Laws::count_closed, walk::proofs::Laws::count_well, walk::proofs::Found::opened_ok, walk::proofs::Laws::map_bits_lem, walk::proofs::Laws::always_few, walk::proofs::Laws::always_end, walk::proofs::Laws::bit_all, walk::proofs::Laws::bit_few, walk::proofs::BitCounts::set_le, walk::proofs::Slots::length_from, wire::proofs::Pieces::about_was, wire::proofs::Pieces::about_err))]
pub fn field_count_packed(slots: &[u32], row: &[u8]) -> Result<usize, Error>
    ensures { told result ≡ field_count (packed_from (min (length slots.now) 64) 0 slots.now) row.now }
{
    if row.len() > LIMIT {
        return Err(Error::at_start(ErrorKind::TooLarge, Input::Row));
    }
    let columns = few(slots);
    about(open_row(columns, row, 0), Input::Row)?;
    Ok(count_always(columns) + count_set(row, count_nullable(columns)))
}
