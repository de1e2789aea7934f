// Row sections.
ghost use Rattle.std.specs.Prelude.{◌≡◌, length};
ghost use Rattle.section.specs.Table.{rows_checked, rows_listed, table_after, row_count};
ghost use Rattle.answers.specs.Answers.{Answered, size_values};

use answers::answer::answer_size;
use section::check::check_section;
use section::list::list_section;

// Checks a whole row section: how many rows it has.
#[unsafe(no_mangle)]
pub extern "C" fn adtg_check_section(file: &[u8], section: &[u8], out: &mut [u64; 16]) -> u32
    ensures { Answered size_values (row_count (rows_checked file.now section.now)) result out.new }
{
    answer_size(check_section(file, section), out)
}

// Checks a whole row section and lists its rows in `table`, four numbers a row: how many rows.
#[unsafe(no_mangle)]
pub extern "C" fn adtg_list_section(
    file: &[u8],
    section: &[u8],
    table: &mut [u32],
    out: &mut [u64; 16],
) -> u32
    ensures answers { Answered size_values (row_count (rows_listed file.now section.now (length table.old))) result out.new }
    ensures leaves { table.new ≡ table_after (rows_listed file.now section.now (length table.old)) table.old }
{
    answer_size(list_section(file, section, table), out)
}
