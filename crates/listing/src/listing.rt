// The listing: the rows of a section under a schema file, or why one of the two is refused.
ghost use Rattle.std.specs.Prelude.{◌+◌, ◌*◌, ◌≤◌, length, take};
ghost use Rattle.section.specs.Table.{Listed};
ghost use Rattle.listing.specs.Lines.{Text};
ghost use Rattle.listing.specs.Listing.{listing};

use crate::lines::{add_count, add_error, add_rows};
use section::list::list_section;
use wire::error::{Error, ErrorKind, Input};

// The most bytes that a file may have.
pub const FILE_LIMIT: usize = 16_384;

// Reads the rows of a section under a schema file into a table, where both are small enough.
fn list_rows(sheet: &[u8], rows: &[u8], table: &mut [u32]) -> Result<usize, Error>
    ensures { Listed (listing sheet.now rows.now (length table.old)) table.old table.new result }
{
    // Kept: both tests have names, since the edits rows_before_sheet and file_at_the_limit change the first one, and the proof cites its name.
    let sheet_over = sheet.len() > FILE_LIMIT;
    if sheet_over {
        return Err(Error::at_start(ErrorKind::TooLarge, Input::Schema));
    }
    let rows_over = rows.len() > FILE_LIMIT;
    if rows_over {
        return Err(Error::at_start(ErrorKind::TooLarge, Input::Section));
    }
    list_section(sheet, rows, table)
}

// The text of a listing. How many bytes it has.
pub(crate) fn list_text(sheet: &[u8], rows: &[u8], table: &mut [u32], text: &mut [u8]) -> usize
    requires { 84 + 21 * length table.old ≤ length text.old }
    ensures size { result ≤ length text.new }
    ensures text { Text (listing sheet.now rows.now (length table.old)) (take result text.new) }
{
    match list_rows(sheet, rows, table) {
        Err(e) => add_error(text, e),
        Ok(n) => {
            let at = add_count(text, n);
            add_rows(text, at, &table[..4 * n])
        }
    }
}
