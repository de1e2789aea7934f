// Plans are compared in all that they hold.
ghost use Rattle.std.specs.Prelude.{length, min};
ghost use Rattle.wire.specs.Read.{told};
ghost use Rattle.column.specs.Packed.{packed_from};
ghost use Rattle.plan.specs.Compare.{Compared, Tells};

use crate::make::make_into;
use crate::plan::Plan;
use wire::error::{Error, ErrorKind, Input};

// Whether the numbers of two plans are the same. What differs is gathered and asked for once, so that several are compared at a time.
#[tactic(auto, using(crate::proofs::Alike::gather_start, crate::proofs::Alike::gather_next, crate::proofs::Alike::gather_end))]
fn same<'a>(a: &'a [usize; 131], b: &'a [usize; 131]) -> bool
    ensures { Tells result a.now b.now }
{
    // Kept: (b) as `a == b` the comparison of a plan takes 31 percent more instructions.
    let mut differs: usize = 0;
    for i in 0..131 {
        differs = differs | (a[i] ^ b[i]);
    }
    differs == 0
}

// Whether a plan is that of the columns in no more than 64 slots; else error 17.
pub fn check(plan: Plan, slots: &[u32]) -> Result<(), Error>
    ensures { Compared plan (packed_from (min (length slots.now) 64) 0 slots.now) (told result) }
{
    let mut made = [0usize; 131];
    make_into(slots, &mut made);
    if same(&plan.numbers, &made) {
        return Ok(());
    }
    Err(Error::at_start(ErrorKind::PlanMismatch, Input::Plan))
}
