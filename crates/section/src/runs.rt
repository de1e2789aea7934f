// Runs of parents whose row data all have one size.
ghost use Rattle.std.specs.Prelude.{◌≡◌, ◌≤◌, length};
ghost use Rattle.section.specs.Runs.{Run, laid_run};

use crate::heads::{PARENT, RowKind};
use crate::sheet::Sheet;
use crate::table::{Entry, put_row};

// The most bytes of a step.
pub(crate) const MOST_STEP: usize = 65_536;

// How many parents follow each other from `start` on, each by a step from the one before. Without a step it says none. Two are passed at a turn.
#[tactic(auto, using(crate::proofs::RunLaws::run_none, crate::proofs::RunLaws::run_next, crate::proofs::RunLaws::run_two, crate::proofs::RunLaws::run_few))]
pub(crate) fn run(sheet: &Sheet, start: usize) -> usize
    requires { start ≤ length sheet.now.section.now }
    ensures { Run sheet.now.section.now start sheet.now.step result }
{
    let section = sheet.section;
    let step = sheet.step;
    if step == 0 {
        return 0;
    }
    let mut n = 0;
    let mut at = start;
    // Kept: the schemas give the stride, and an iterator over chunks of such a size divides first. Two at a turn are faster than one.
    while at + 2 * step <= section.len() {
        if section[at] != PARENT {
            return n;
        }
        if section[at + step] != PARENT {
            return n + 1;
        }
        at += 2 * step;
        n += 2;
    }
    if at + step <= section.len() && section[at] == PARENT {
        return n + 1;
    }
    n
}

// The same, and their rows are laid into a table, from row `first` on.
#[tactic(auto, using(crate::proofs::RunLaws::run_none, crate::proofs::RunLaws::run_next, crate::proofs::RunLaws::run_few, crate::proofs::RunLaws::run_more, crate::proofs::RunLaws::laid_run_none, crate::proofs::RunLaws::laid_run_next))]
pub(crate) fn put_run(sheet: &Sheet, start: usize, table: &mut [u32], first: usize) -> usize
    requires { (start ≤ length sheet.now.section.now) × (first ≤ start) }
    ensures { Run sheet.now.section.now start sheet.now.step result × (table.new ≡ laid_run first start sheet.now.step result table.old) }
{
    let section = sheet.section;
    let step = sheet.step;
    if step == 0 {
        return 0;
    }
    let mut n = 0;
    let mut at = start;
    // Kept: the schemas give the stride.
    while at + step <= section.len() && section[at] == PARENT {
        let row = Entry {
            kind: RowKind::Parent as usize,
            id: 0,
            original: at + 1,
            update: 0,
        };
        put_row(table, first + n, row);
        at += step;
        n += 1;
    }
    n
}
