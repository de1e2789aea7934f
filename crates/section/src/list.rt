// A section's rows in a table: a pass that checks, and one that fills.
ghost use Rattle.std.specs.Prelude.{◌≤◌, ◌+◌, ◌*◌, length};
ghost use Rattle.tree.specs.Table.{schemas_in};
ghost use Rattle.tree.specs.Schemas.{column_count};
ghost use Rattle.shapes.specs.Shapes.{Sound};
ghost use Rattle.section.specs.Table.{rows_fitting, rows_listed, Listed};
ghost use Rattle.section.specs.Scan.{Ready};

use crate::check::{FEW_NUMBERS, MOST_NUMBERS, read_schemas};
use crate::fill::fill;
use crate::read::scan;
use crate::sheet::Sheet;
use quick::ends::row_step;
use shapes::shapes::keep_schemas;
use wire::error::{Error, ErrorKind, Input, about};

// A section of up to so many bytes has few sizes, and to clear more takes time.
const SHORT: usize = 16_384;

const FEW: usize = 1_024;

const MANY: usize = 65_536;

// Lists a section, with `N` bytes for the sizes of its elements: a pass that checks it, and where the table has room for all rows, one that
// fills it.
#[tactic(auto, using(crate::proofs::Noting::zeros, crate::proofs::Noting::blank_of))]
#[inline(never)]
fn list_noting<const N: usize>(sheet: &Sheet, table: &mut [u32]) -> Result<usize, Error>
    requires { Ready sheet.now.slots.now sheet.now.shapes.now sheet.now.schemas sheet.now.section.now sheet.now.step × (N ≤ 65536) }
    ensures { Listed (rows_fitting (schemas_in 0 sheet.now.schemas sheet.now.slots.now) sheet.now.section.now (length table.old)) table.old table.new result }
{
    let mut sizes = [0; N];
    let n = about(scan(sheet, &mut sizes), Input::Section)?;
    if table.len() / 4 < n {
        return Err(Error::at(ErrorKind::Capacity, n).about(Input::Table));
    }
    fill(sheet, &sizes, table);
    Ok(n)
}

// Lists a section by the schemas in a table of slots, whose shapes have room in `N` numbers. A short section has few sizes.
#[inline(never)]
fn list_shaped<const N: usize>(
    slots: &[u64; 512],
    schemas: usize,
    section: &[u8],
    table: &mut [u32],
) -> Result<usize, Error>
    requires { Sound slots.now schemas × (8 * schemas + 4 * column_count (schemas_in 0 schemas slots.now) ≤ N) × (N ≤ 3072) × (length section.now ≤ 16777216) }
    ensures { Listed (rows_fitting (schemas_in 0 schemas slots.now) section.now (length table.old)) table.old table.new result }
{
    let mut shapes = [0; N];
    keep_schemas(slots, schemas, &mut shapes);
    let step = row_step(&shapes);
    let sheet = Sheet {
        slots,
        schemas,
        shapes: &shapes,
        section,
        step,
    };
    if section.len() <= SHORT {
        return list_noting::<FEW>(&sheet, table);
    }
    list_noting::<MANY>(&sheet, table)
}

// Lists a section by the schemas in a table of slots, which have so many columns. Few schemas need few numbers.
// Kept: beside `check_rows`, as `list_section` beside `check_section`: another call in the last line, for which a closure is no plainer.
fn list_rows(
    slots: &[u64; 512],
    schemas: usize,
    columns: usize,
    section: &[u8],
    table: &mut [u32],
) -> Result<usize, Error>
    requires { Sound slots.now schemas × (column_count (schemas_in 0 schemas slots.now) ≤ columns) × (columns ≤ 256) × (length section.now ≤ 16777216) }
    ensures { Listed (rows_fitting (schemas_in 0 schemas slots.now) section.now (length table.old)) table.old table.new result }
{
    if 8 * schemas + 4 * columns <= FEW_NUMBERS {
        return list_shaped::<FEW_NUMBERS>(slots, schemas, section, table);
    }
    list_shaped::<MOST_NUMBERS>(slots, schemas, section, table)
}

// Checks a whole section and lists its rows in a table, four numbers a row: how many rows. An error leaves the table as it was.
#[tactic(auto, using(crate::proofs::Listing::listed_error, crate::proofs::Listing::listed_refused, crate::proofs::Listing::listed_fitting))]
pub fn list_section(file: &[u8], section: &[u8], table: &mut [u32]) -> Result<usize, Error>
    ensures { Listed (rows_listed file.now section.now (length table.old)) table.old table.new result }
{
    let mut slots = [0u64; 512];
    let p = read_schemas(file, section, &mut slots)?;
    list_rows(&slots, p.schemas, p.columns, section, table)
}
