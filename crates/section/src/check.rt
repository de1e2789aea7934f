// A section checked: the sizes, the schema file, and the rows, which are counted.
ghost use Rattle.std.specs.Prelude.{◌≤◌, ◌≡◌, ◌+◌, ◌*◌, length};
ghost use Rattle.wire.specs.Read.{about, told};
ghost use Rattle.wire.specs.declared.error.Input.TheVariants as input;
ghost use Rattle.tree.specs.Table.{schemas_in};
ghost use Rattle.tree.specs.Schemas.{column_count};
ghost use Rattle.schema.specs.Told.{blank};
ghost use Rattle.shapes.specs.Shapes.{Sound};
ghost use Rattle.grammar.specs.Reader.{section as section_rows};
ghost use Rattle.section.specs.Table.{rows_checked, row_count};
ghost use Rattle.section.specs.Scan.{Opened};

use crate::read::scan;
use crate::sheet::Sheet;
use quick::ends::row_step;
use schema::reader::{Place, read_file};
use shapes::shapes::keep_schemas;
use wire::LIMIT;
use wire::error::{Error, ErrorKind, Input, about};

// So many numbers hold the shapes of a few schemas, and to clear more takes time.
pub const FEW_NUMBERS: usize = 256;

// So many hold those of any file.
pub const MOST_NUMBERS: usize = 3_072;

// Reads the schema file of a section into a table of slots, where neither is over the limit.
pub(crate) fn read_schemas(
    file: &[u8],
    section: &[u8],
    slots: &mut [u64; 512],
) -> Result<Place, Error>
    requires { slots.old ≡ blank }
    ensures { Opened file.now section.now slots.new result }
{
    if file.len() > LIMIT {
        return Err(Error::at_start(ErrorKind::TooLarge, Input::Schema));
    }
    if section.len() > LIMIT {
        return Err(Error::at_start(ErrorKind::TooLarge, Input::Section));
    }
    about(read_file(file, slots), Input::Schema)
}

// Checks a section by the schemas in a table of slots, whose shapes have room in `N` numbers. No size is noted. It is not inlined: a call
// needs the stack of one table of shapes.
#[tactic(auto, using(crate::proofs::Listing::about_count, crate::proofs::Noting::zeros, crate::proofs::Noting::blank_of))]
#[inline(never)]
fn check_shaped<const N: usize>(
    slots: &[u64; 512],
    schemas: usize,
    section: &[u8],
) -> Result<usize, Error>
    requires { Sound slots.now schemas × (8 * schemas + 4 * column_count (schemas_in 0 schemas slots.now) ≤ N) × (N ≤ 3072) × (length section.now ≤ 16777216) }
    ensures { told result ≡ row_count (about input.Section (section_rows (schemas_in 0 schemas slots.now) section.now)) }
{
    let mut shapes = [0; N];
    keep_schemas(slots, schemas, &mut shapes);
    let step = row_step(&shapes);
    let sheet = Sheet {
        slots,
        schemas,
        shapes: &shapes,
        section,
        step,
    };
    about(scan(&sheet, &mut [0]), Input::Section)
}

// Checks a section by the schemas in a table of slots, which have so many columns. Few schemas need few numbers.
fn check_rows(
    slots: &[u64; 512],
    schemas: usize,
    columns: usize,
    section: &[u8],
) -> Result<usize, Error>
    requires { Sound slots.now schemas × (column_count (schemas_in 0 schemas slots.now) ≤ columns) × (columns ≤ 256) × (length section.now ≤ 16777216) }
    ensures { told result ≡ row_count (about input.Section (section_rows (schemas_in 0 schemas slots.now) section.now)) }
{
    if 8 * schemas + 4 * columns <= FEW_NUMBERS {
        return check_shaped::<FEW_NUMBERS>(slots, schemas, section);
    }
    check_shaped::<MOST_NUMBERS>(slots, schemas, section)
}

// Checks a whole section: how many rows it has.
pub fn check_section(file: &[u8], section: &[u8]) -> Result<usize, Error>
    ensures { told result ≡ row_count (rows_checked file.now section.now) }
{
    let mut slots = [0u64; 512];
    let p = read_schemas(file, section, &mut slots)?;
    check_rows(&slots, p.schemas, p.columns, section)
}
