// Where row data end: by the shapes, or else by their columns one after the other, which say where or why not.
ghost use Rattle.std.specs.Prelude.{◌≡◌, ◌+◌, ◌≤◌, length};
ghost use Rattle.wire.specs.Read.{told};
ghost use Rattle.walk.specs.Data.{data_end};
ghost use Rattle.shapes.specs.Shapes.{Held, slot_columns};
ghost use Rattle.section.specs.Ends.{QuickEnd, turned};

use quick::ends::{quick_row, quick_update};
use row::rows::row_end_packed;
use schema::columns::{columns_in, slots_in};
use shapes::shapes::{PART, SCHEMAS};
use update::data::{open_data, pass_column};
use update::updates::update_end;
use wire::error::Error;

// Where the data at `start` of a row of schema `number` end, as far as the shapes say: update data where `update` says so, else original ones.
pub(crate) fn quick_end(
    shapes: &[usize],
    number: usize,
    update: bool,
    section: &[u8],
    start: usize,
) -> Option<usize>
    ensures { QuickEnd shapes.now number update section.now start result }
{
    // Kept: a choice of two calls, here and below; a closure for them is no plainer.
    if update {
        if number == 0 {
            return None;
        }
        return quick_update(shapes, number, section, start);
    }
    quick_row(shapes, number, section, start)
}

// Where they end, or the first error. It is not inlined: only a call of it needs room for columns.
#[inline(never)]
pub(crate) fn data_end(
    slots: &[u64; 512],
    number: usize,
    update: bool,
    section: &[u8],
    start: usize,
) -> Result<usize, Error>
    requires { Held slots.now number }
    ensures { told result ≡ data_end update (slot_columns slots.now number) section.now start }
{
    let slot = slots[SCHEMAS + number];
    let first = (slot % PART) as usize;
    let count = (slot / PART % PART) as usize;
    if update {
        return update_end(columns_in(slots, first, count), section, start);
    }
    let mut columns = [0u32; 64];
    slots_in(slots, first, count, &mut columns);
    row_end_packed(&columns[..count], section, start)
}

// How many turns row data of schema `number` take: one that opens them, and one for each column.
#[tactic(auto, using(shapes::proofs::Slots::length_slots))]
pub(crate) fn turns_of(slots: &[u64; 512], number: usize) -> usize
    requires { Held slots.now number }
    ensures { result ≡ length (slot_columns slots.now number) + 1 }
{
    (slots[SCHEMAS + number] / PART % PART) as usize + 1
}

// One turn over row data: first they are opened, then each column is passed, from where the turn before came to. It is not inlined: only a
// call of it needs room for columns.
#[tactic(auto, using(shapes::proofs::Slots::columns_held, crate::proofs::Turns::turned_first, crate::proofs::Turns::turned_later))]
#[inline(never)]
pub(crate) fn turn(
    slots: &[u64; 512],
    number: usize,
    update: bool,
    section: &[u8],
    start: usize,
    i: usize,
    at: usize,
) -> Result<usize, Error>
    requires { Held slots.now number × (i ≤ length (slot_columns slots.now number)) }
    ensures { told result ≡ turned update (slot_columns slots.now number) section.now start at i }
{
    let slot = slots[SCHEMAS + number];
    let first = (slot % PART) as usize;
    let count = (slot / PART % PART) as usize;
    let columns = columns_in(slots, first, count);
    if i == 0 {
        return open_data(columns, update, section, start);
    }
    pass_column(columns, update, section, start, i - 1, at)
}
