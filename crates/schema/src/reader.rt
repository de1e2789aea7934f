// The schema file: the schema reader and the column reader, which call each other, and the table that they fill.
// Each column and each schema is one number of the table (specs/Table.antt); the columns of a schema lie together.
ghost use Rattle.std.specs.Prelude.{◌≡◌, ◌<◌, ◌≤◌};
ghost use Rattle.tree.specs.Numbers.{number_limit};
ghost use Rattle.tree.specs.Tree.{member};
ghost use Rattle.tree.specs.Table.{ids_in, packed, block};
ghost use Rattle.tree.specs.Filling.{fill_column, fill_schema, fill_file};
ghost use Rattle.schema.specs.Told.{placed, told_place, Ready, Told};

use crate::children::id_in;
use crate::runs::read_columns;
use crate::slot::{COUNT, ID};
use crate::{MOST_DEPTH, MOST_FILE_COLUMNS};
use column::column::Column;
use column::columns::MOST_COLUMNS;
use column::packed::pack;
use column::types::ColumnType;
use entry::head::{ColumnHead, head_at};
use entry::number::{Number, range_at};
use wire::LIMIT;
use wire::error::{Error, ErrorKind, Input};

// Where the reader stands: the offset of what it reads next, how many columns have a slot, how many schemas a number.
#[derive(Clone, Copy)]
pub struct Place {
    pub at: usize,
    pub columns: usize,
    pub schemas: usize,
}

// Whether a nested schema has this id, where so many schemas have a number.
fn is_seen(table: &[u64; 512], schemas: usize, id: u64) -> bool
    requires { schemas ≤ 256 }
    ensures { result ≡ member id (ids_in schemas table.now) }
{
    (1..schemas).any(|k| id == id_in(table[MOST_FILE_COLUMNS + k]))
}

// The columns of a schema from `start` on, so many, and its id, in one number.
fn block(start: usize, count: usize, id: usize) -> u64
    requires { (start ≤ 256) × (count ≤ 64) × (id < number_limit) }
    ensures { result ≡ block start count id }
{
    start as u64 + COUNT * count as u64 + ID * id as u64
}

// A column, and the child id of a chapter, in one number.
#[tactic(auto, unfolding(column::specs::Packed::packed_column))]
fn packed(column: Column, id: usize) -> u64
    requires { id < number_limit }
    ensures { result ≡ packed column.code column.flags column.maximum id }
{
    pack(column) as u64 + ID * id as u64
}

// A schema, and all that are nested in it.
#[cycle(read_column_read_schema)]
fn read_schema(
    file: &[u8],
    depth: usize,
    id: usize,
    place: Place,
    table: &mut [u64; 512],
) -> Result<Place, Error>
    requires { Ready file.now place × (id < number_limit) }
    ensures { Told file.now place (fill_schema depth file.now id (placed place table.old)) table.new result }
{
    let at = place.at;
    let start = place.columns;
    let number = place.schemas;
    if depth == 0 {
        return Err(Error::at(ErrorKind::Limit, at));
    }
    let Number { value: count, end } = range_at(file, at, 1, MOST_COLUMNS)?;
    if MOST_FILE_COLUMNS < start + count {
        return Err(Error::at(ErrorKind::Limit, at));
    }
    table[MOST_FILE_COLUMNS + number] = block(start, count, id);
    let mut here = Place {
        at: end,
        columns: start + count,
        schemas: number + 1,
    };
    let mut i = 0;
    // Kept: each turn goes on behind a run of columns, and only reading tells how many these are, which no range says.
    while i < count {
        let run = read_columns(file, here.at, start + i, count - i, table);
        here.at = run.at;
        i += run.count;
        if i < count {
            here = read_column(file, depth - 1, start + i, here, table)?;
            i += 1;
        }
    }
    Ok(here)
}

// A column, into its slot, and a chapter's schema with it.
#[cycle(read_column_read_schema)]
fn read_column(
    file: &[u8],
    depth: usize,
    slot: usize,
    place: Place,
    table: &mut [u64; 512],
) -> Result<Place, Error>
    requires { Ready file.now place × (slot < place.columns) }
    ensures { Told file.now place (fill_column (fill_schema depth file.now) file.now slot (placed place table.old)) table.new result }
{
    let at = place.at;
    let columns = place.columns;
    let schemas = place.schemas;
    let head = head_at(file, at)?;
    match head {
        ColumnHead::Field { column, end } => {
            table[slot] = packed(column, 0);
            Ok(Place {
                at: end,
                columns,
                schemas,
            })
        }
        ColumnHead::Chapter {
            flags,
            id,
            id_at,
            end,
        } => {
            if is_seen(table, schemas, id as u64) {
                return Err(Error::at(ErrorKind::RepeatedId, id_at));
            }
            let chapter = Column {
                code: ColumnType::CHAPTER,
                flags,
                maximum: 0,
            };
            table[slot] = packed(chapter, id);
            let next = Place {
                at: end,
                columns,
                schemas,
            };
            read_schema(file, depth, id, next, table)
        }
    }
}

// A whole file, into a table: how much it has.
// Kept: the table is one array of numbers, since memory is fixed, and since `fill_file` and the theorems on it speak of one list.
#[tactic(auto, unfolding(wire::specs::Read::check, tree::specs::Filling::fill_file), using(wire::proofs::Laws::sized_over, wire::proofs::Laws::sized_within))]
pub fn read_file(file: &[u8], table: &mut [u64; 512]) -> Result<Place, Error>
    ensures { told_place result table.new ≡ fill_file file.now table.old }
{
    if LIMIT < file.len() {
        return Err(Error::at(ErrorKind::TooLarge, 0));
    }
    let start = Place {
        at: 0,
        columns: 0,
        schemas: 0,
    };
    let p = read_schema(file, MOST_DEPTH, 0, start, table)?;
    let at = p.at;
    if at < file.len() {
        return Err(Error::at(ErrorKind::Trailing, at));
    }
    Ok(p)
}
