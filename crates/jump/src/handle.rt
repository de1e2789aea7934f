// Row handles: a row that was opened once by a plan, kept on the caller's bytes, and look-up through it. `open_row`, `look_up` and
// `field_part` of module `look` do the work.
ghost use Rattle.std.specs.Prelude.{◌≡◌};
ghost use Rattle.walk.specs.Parts.{part_of};
ghost use Rattle.row.specs.Told.{told_look_up};
ghost use Rattle.jump.specs.Jumps.{planned_row};
ghost use Rattle.jump.specs.Handles.{opened_row, start_of};

use crate::look::{field_part, look_up, open_row};
use plan::plan::Plan;
use row::rows::LookUp;
use wire::error::Error;

// A row of the caller, and where its data start; nothing of a row that is refused.
#[derive(Clone, Copy)]
pub struct RowHandle<'a> {
    pub row: &'a [u8],
    pub start: Option<usize>,
}

// Opens a row by a plan. The handle of a row that is refused has no start, and a look-up through it answers the refusal.
pub fn open_handle<'a>(plan: Plan, row: &'a [u8]) -> RowHandle<'a>
    ensures { (result.row ≡ row.entry) × (result.start ≡ start_of (opened_row plan row.now)) }
{
    let start = open_row(plan, row).ok();
    RowHandle { row, start }
}

// Column `k` of a handle's row, by a plan.
pub fn look_in<'a>(h: RowHandle<'a>, plan: Plan, k: usize) -> Result<LookUp, Error>
    ensures { told_look_up result ≡ planned_row plan h.entry.row.now k }
{
    look_up(plan, h.row, k)
}

// The bytes of its field, as a part of the handle's row; empty where no field is found.
pub fn part_in<'a>(h: RowHandle<'a>, plan: Plan, k: usize) -> &'a [u8]
    ensures { result.now ≡ part_of h.entry.row.now (planned_row plan h.entry.row.now k) }
{
    field_part(plan, h.row, k)
}

// A look-up through a handle that is made for it: whoever calls it needs no handle.
pub fn find(plan: Plan, row: &[u8], k: usize) -> Result<LookUp, Error>
    ensures { told_look_up result ≡ planned_row plan row.now k }
{
    look_in(open_handle(plan, row), plan, k)
}
