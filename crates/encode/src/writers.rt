// The writers of original rows and of update data: checks first, then the maps, then field after field.
ghost use Rattle.std.specs.Prelude.{◌≤◌, length};
ghost use Rattle.column.specs.Layout.{columns_in};
ghost use Rattle.encode.specs.Writers.{writing, write_original, write_update, values_sized, WroteAt};
ghost use Rattle.encode.specs.Steps.{stands_in, row_in};

use crate::entry::are_entries;
use crate::row::Row;
use column::column::Column;
use column::columns::Columns;
use wire::LIMIT;
use wire::error::{Error, ErrorKind, Input};

// Writes update data or an original row from `place` on.
fn write_row(
    update: bool,
    columns: &[Column],
    entries: &[u32],
    values: &[u8],
    out: &mut [u8],
    place: usize,
) -> Result<usize, Error>
    requires { length columns.now ≤ 64 }
    ensures { WroteAt (values_sized values.now (writing (stands_in update) (row_in update) columns.now entries.now values.now (length out.old) place)) place out.old out.new result }
{
    if values.len() > LIMIT {
        return Err(Error::at_start(ErrorKind::TooLarge, Input::Values));
    }
    if place > out.len() {
        return Err(Error::at_start(ErrorKind::Missing, Input::Place));
    }
    if entries.len() != 3 * columns.len() || !are_entries(entries, values, columns.len()) {
        return Err(Error::at_start(ErrorKind::Missing, Input::Entries));
    }
    let row = Row {
        update,
        columns,
        entries,
        values,
    };
    row.write(out, place)
}

// Writes an original row with these entries from `place` on.
pub fn write_original(
    columns: Columns,
    entries: &[u32],
    values: &[u8],
    out: &mut [u8],
    place: usize,
) -> Result<usize, Error>
    ensures { WroteAt (values_sized values.now (write_original (columns_in columns) entries.now values.now (length out.old) place)) place out.old out.new result }
{
    write_row(false, columns.as_slice(), entries, values, out, place)
}

// Writes update data with these entries from `place` on.
// Kept: a call of its own beside `write_original`, as the theorems on both name them.
pub fn write_update(
    columns: Columns,
    entries: &[u32],
    values: &[u8],
    out: &mut [u8],
    place: usize,
) -> Result<usize, Error>
    ensures { WroteAt (values_sized values.now (write_update (columns_in columns) entries.now values.now (length out.old) place)) place out.old out.new result }
{
    write_row(true, columns.as_slice(), entries, values, out, place)
}
