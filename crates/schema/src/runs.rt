// Columns that are no chapters, read one after the other into slots, up to the first that is one or is refused.
ghost use Rattle.std.specs.Prelude.{◌+◌, ◌≤◌, ◌≡◌, length};
ghost use Rattle.schema.specs.Runs.{laid_from, Ran, RanInto};

use column::columns::MOST_COLUMNS;
use entry::usual::{Usual, plain_at};

// So many columns that were read one after the other, and the offset behind them.
#[derive(Clone, Copy)]
pub struct Run {
    pub count: usize,
    pub at: usize,
}

// Columns from `from` on, up to so many, into slots of 32 bits.
pub(crate) fn read_run(file: &[u8], from: usize, most: usize, slots: &mut [u32; 64]) -> Run
    requires { (from ≤ length file.now) × (most ≤ 64) × (length slots.old ≡ 64) }
    ensures { RanInto file.now from most slots.new result }
{
    let mut at = from;
    for count in 0..most {
        match plain_at(file, at) {
            None => {
                return Run { count, at };
            }
            Some(Usual { slot, end }) => {
                slots[count] = slot as u32;
                at = end;
            }
        }
    }
    Run { count: most, at }
}

// The first so many slots into those of a table from `slot` on.
fn lay(slots: &[u32; 64], count: usize, slot: usize, table: &mut [u64; 512])
    requires { (count ≤ 64) × (slot + count ≤ 256) }
    ensures { table.new ≡ laid_from slot count slots.now table.old }
{
    for i in 0..count {
        table[slot + i] = u64::from(slots[i]);
    }
}

// Columns from `from` on, up to so many, into the slots of a table from `slot` on.
pub(crate) fn read_columns(
    file: &[u8],
    from: usize,
    slot: usize,
    most: usize,
    table: &mut [u64; 512],
) -> Run
    requires { (from ≤ length file.now) × (slot + most ≤ 256) }
    ensures { Ran file.now from slot most table.old table.new result }
{
    let mut slots = [0u32; 64];
    let run = read_run(file, from, most.min(MOST_COLUMNS), &mut slots);
    lay(&slots, run.count, slot, table);
    run
}
