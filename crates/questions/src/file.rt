// What is asked of a schema file: how much it has, its schemas by number or child id, their columns.
// Each call reads the whole file and refuses in one order: 19, the file's own errors, 18.
ghost use Rattle.std.specs.Prelude.{◌≡◌, ◌+◌, ◌≤◌, ◌<◌, map, length};
ghost use Rattle.wire.specs.Read.{told};
ghost use Rattle.column.specs.Layout.{layout};
ghost use Rattle.tree.specs.Schemas.{as_column};
ghost use Rattle.tree.specs.Table.{table_size, entry_in, entries_in, schemas_in};
ghost use Rattle.questions.specs.Questions.{counts_of, Opening, column_count_of, columns_of, Slotted, child_of, nested_of, column_of, told_column};

use column::columns::Columns;
use column::types::ColumnType;
use schema::MOST_FILE_COLUMNS;
use schema::children::{child_number, id_in};
use schema::columns::{columns_in, slots_in};
use schema::flat::read_flat;
use schema::reader::read_file;
use schema::slot::{COUNT, FLAGS, MAXIMUM};
use wire::error::{Error, ErrorKind, Input, about};

// How many schemas and columns a file has.
#[derive(Clone, Copy)]
pub struct Counts {
    pub schemas: usize,
    pub columns: usize,
}

// A schema of a file that was read into a table: the slots of its columns, and how many schemas the table has.
#[derive(Clone, Copy)]
struct Block {
    start: usize,
    count: usize,
    schemas: usize,
}

// A column that was asked for. Of a chapter: its child id and the number of its schema, else 0.
// Kept: these numbers stand in the answer of the C call as they are, and there 0 is the number of no schema.
#[derive(Clone, Copy)]
pub struct ColumnInfo {
    pub code: usize,
    pub flags: usize,
    pub maximum: usize,
    pub id: usize,
    pub nested: usize,
}

// How many schemas and columns a file has.
pub fn count_file(file: &[u8]) -> Result<Counts, Error>
    ensures { told result ≡ counts_of file.now }
{
    let mut table = [0u64; 512];
    let p = read_file(file, &mut table)?;
    Ok(Counts {
        schemas: p.schemas,
        columns: p.columns,
    })
}

// Schema `number` of a file, which is read into the table.
fn open_schema(file: &[u8], number: usize, table: &mut [u64; 512]) -> Result<Block, Error>
    requires { length table.old ≡ table_size }
    ensures { Opening file.now number table.new result }
{
    let p = about(read_file(file, table), Input::Schema)?;
    let schemas = p.schemas;
    if schemas <= number {
        return Err(Error::at_start(ErrorKind::Missing, Input::SchemaNumber));
    }
    let slot = table[MOST_FILE_COLUMNS + number];
    Ok(Block {
        start: (slot % COUNT) as usize,
        count: (slot / COUNT % COUNT) as usize,
        schemas,
    })
}

// How many columns schema `number` has.
pub fn column_count(file: &[u8], number: usize) -> Result<usize, Error>
    ensures { told result ≡ column_count_of file.now number }
{
    let mut table = [0u64; 512];
    let block = open_schema(file, number, &mut table)?;
    Ok(block.count)
}

// The number of the schema with a child id.
pub fn child_schema(file: &[u8], id: u32) -> Result<usize, Error>
    ensures { told result ≡ child_of file.now id }
{
    let mut table = [0u64; 512];
    let p = about(read_file(file, &mut table), Input::Schema)?;
    child_number(&table, p.schemas, u64::from(id)).ok_or(Error::at_start(
        ErrorKind::Missing,
        Input::ChildId,
    ))
}

// The number of a chapter's schema, by the child id in the slot of a column; 0 for any other column.
fn nested_number(table: &[u64; 512], schemas: usize, slot: u64) -> usize
    requires { (1 ≤ schemas) × (schemas ≤ 256) }
    ensures { result ≡ nested_of (schemas_in 0 schemas table.now) (entry_in slot) }
{
    if slot % FLAGS != u64::from(ColumnType::CHAPTER) {
        return 0;
    }
    child_number(table, schemas, id_in(slot)).unwrap_or(0)
}

// Column `column` of schema `number`.
pub fn column_at(file: &[u8], number: usize, column: usize) -> Result<ColumnInfo, Error>
    ensures { told_column result ≡ column_of file.now number column }
{
    let mut table = [0u64; 512];
    let Block {
        start,
        count,
        schemas,
    } = open_schema(file, number, &mut table)?;
    if count <= column {
        return Err(Error::at_start(ErrorKind::Missing, Input::Column));
    }
    let slot = table[start + column];
    Ok(ColumnInfo {
        code: (slot % FLAGS) as usize,
        flags: (slot / FLAGS % FLAGS) as usize,
        maximum: (slot / MAXIMUM % MAXIMUM) as usize,
        id: id_in(slot) as usize,
        nested: nested_number(&table, schemas, slot),
    })
}

// The columns of schema `number` by value.
pub fn columns_of(file: &[u8], number: usize) -> Result<Columns, Error>
    ensures { told result ≡ columns_of file.now number }
{
    let mut table = [0u64; 512];
    let block = open_schema(file, number, &mut table)?;
    Ok(columns_in(&table, block.start, block.count))
}

// The columns of schema `number` into slots, out of the whole file's table.
fn patient_slots(file: &[u8], number: usize, slots: &mut [u32; 64]) -> Result<usize, Error>
    ensures { Slotted file.now number slots.new result }
{
    let mut table = [0u64; 512];
    let block = open_schema(file, number, &mut table)?;
    slots_in(&table, block.start, block.count, slots);
    Ok(block.count)
}

// The columns of schema `number` into slots. A file without chapters needs no table.
pub fn slots_of(file: &[u8], number: usize, slots: &mut [u32; 64]) -> Result<usize, Error>
    ensures { Slotted file.now number slots.new result }
{
    if number == 0 {
        if let Some(count) = read_flat(file, slots) {
            return Ok(count);
        }
    }
    patient_slots(file, number, slots)
}
