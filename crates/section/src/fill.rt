// The table of a section that was accepted: its rows, from element to element.
ghost use Rattle.std.specs.Prelude.{◌≡◌, ◌≤◌, ◌<◌, length};
ghost use Rattle.tree.specs.Table.{schemas_in};
ghost use Rattle.shapes.specs.Shapes.{Sound, Held};
ghost use Rattle.section.specs.Sizes.{number_for, start_for, ElementEnd, Accepted};
ghost use Rattle.section.specs.Scan.{Ready, Filled};

use crate::children::find_child;
use crate::ends::{data_end, quick_end};
use crate::heads::{DONE, RowKind};
use crate::notes::{is_stepped, noted_at};
use crate::runs::put_run;
use crate::sheet::Sheet;
use crate::table::{entry_at, put_row};

// Where the data of a row of `kind` start, whose element is at `at`.
fn start_for(kind: usize, at: usize) -> usize
    requires { at ≤ 16777216 }
    ensures { result ≡ start_for kind at }
{
    if kind == RowKind::Parent as usize {
        return at + 1;
    }
    at + 5
}

// Where the element at `at` ends, whose row is of `kind` and of schema `number`: by the shapes, or else by its columns.
#[tactic(auto, using(crate::proofs::Filling::element_quick, crate::proofs::Filling::element_walked))]
fn element_end(sheet: &Sheet, number: usize, kind: usize, at: usize) -> usize
    requires { Held sheet.now.slots.now number × (at < length sheet.now.section.now) }
    ensures { ElementEnd sheet.now.slots.now sheet.now.shapes.now number kind sheet.now.section.now at result }
{
    if kind == RowKind::Delete as usize {
        return at + 5;
    }
    let update = kind == RowKind::Change as usize;
    let start = start_for(kind, at);
    match quick_end(sheet.shapes, number, update, sheet.section, start) {
        Some(end) => end,
        None => data_end(sheet.slots, number, update, sheet.section, start).unwrap_or(0),
    }
}

// The number of the schema of a row of `kind` with a child id.
fn number_for(sheet: &Sheet, last: usize, kind: usize, id: usize) -> usize
    requires { Sound sheet.now.slots.now sheet.now.schemas × (last < sheet.now.schemas) }
    ensures { result ≡ number_for (schemas_in 0 sheet.now.schemas sheet.now.slots.now) kind id }
{
    if kind == RowKind::Parent as usize {
        return 0;
    }
    find_child(sheet, last, id).unwrap_or(0)
}

// Fills the table with the rows of a section that was accepted: runs of parents, sizes that were noted, and else ends that are asked again.
pub(crate) fn fill(sheet: &Sheet, sizes: &[u8], table: &mut [u32])
    requires { Ready sheet.now.slots.now sheet.now.shapes.now sheet.now.schemas sheet.now.section.now sheet.now.step × Accepted (schemas_in 0 sheet.now.schemas sheet.now.slots.now) sheet.now.section.now sheet.now.step sizes.now }
    ensures { Filled (schemas_in 0 sheet.now.schemas sheet.now.slots.now) sheet.now.section.now table.old table.new }
{
    let section = sheet.section;
    let step = sheet.step;
    let mut at = 0;
    let mut rows = 0;
    let mut origin = 0;
    let mut i = 0;
    let mut last = 0;
    // Kept: what was noted, or the columns, say how far the next element is.
    while section[at] != DONE {
        let n = put_run(sheet, at, table, rows);
        if n == 0 {
            let row = entry_at(section, at, origin);
            let size = noted_at(sizes, i, is_stepped(step, section[at]));
            rows += 1 - row.kind / 3;
            put_row(table, rows - 1, row);
            origin = row.original;
            match size {
                None => {
                    last = number_for(sheet, last, row.kind, row.id);
                    at = element_end(sheet, last, row.kind, at);
                }
                Some(size) => {
                    at += size.bytes;
                    i = size.next;
                }
            }
        } else {
            rows += n;
            at += n * step;
        }
    }
}
