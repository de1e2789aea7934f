// Files of one schema: no column is a chapter. Their columns are read into slots of 32 bits, without a table.
ghost use Rattle.schema.specs.Flat.{SaysFlat};

use crate::runs::read_run;
use column::columns::MOST_COLUMNS;
use entry::number::{Number, range_at};
use wire::LIMIT;

// The most bytes of a column that is no chapter: a file with more has other schemas, or is refused.
const MOST_BYTES: usize = 6;

// How many columns such a file has, and each in its slot; none where the file is another, or is refused.
pub fn read_flat(file: &[u8], slots: &mut [u32; 64]) -> Option<usize>
    ensures { SaysFlat file.now slots.new result }
{
    if LIMIT < file.len() {
        return None;
    }
    let Number { value: count, end } = range_at(file, 0, 1, MOST_COLUMNS).ok()?;
    if MOST_BYTES * count < file.len() - end {
        return None;
    }
    *slots = [0u32; 64];
    let run = read_run(file, end, count, slots);
    if run.count < count {
        return None;
    }
    if run.at < file.len() {
        return None;
    }
    Some(count)
}
