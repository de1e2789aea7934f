// Plans, with the schema file and the schema number that they are made from or compared with. What is asked of a plan alone, with a
// row or without, is in crate `plan`.
ghost use Rattle.std.specs.Prelude.{◌≡◌};
ghost use Rattle.wire.specs.Read.{told};
ghost use Rattle.adtg.specs.Plans.{plan_in, MadeInto, Checked};

use crate::slots_beside;
use plan::compare::check;
use plan::make::make;
use plan::plan::Plan;
use wire::error::Error;

// The plan of schema `number`, into a plan that is lent; an error leaves that as it was.
#[tactic(auto, using(crate::proofs::Laws::plan_listed, crate::proofs::Planning::made_refused, crate::proofs::Planning::made_found, column::proofs::PackedLaws::packed_front))]
pub fn make_lent(file: &[u8], number: usize, plan: &mut Plan) -> Result<(), Error>
    ensures { MadeInto (plan_in file.now number) plan.old plan.new result }
{
    let mut slots = [0u32; 64];
    let columns = slots_beside(file, number, Ok(()), &mut slots)?;
    *plan = make(&slots[..columns]);
    Ok(())
}

// The plan of schema `number`.
#[tactic(auto, using(crate::proofs::Planning::made_ok, crate::proofs::Planning::made_err))]
pub fn make_plan(file: &[u8], number: usize) -> Result<Plan, Error>
    ensures { told result ≡ plan_in file.now number }
{
    let mut plan = Plan {
        numbers: [0usize; 131],
    };
    make_lent(file, number, &mut plan)?;
    Ok(plan)
}

// Whether a plan is the one that schema `number` makes now; else error 17.
// Kept: beside `make_lent`: another call in the last line, for which a closure is no plainer.
#[tactic(auto, using(crate::proofs::Laws::plan_listed, crate::proofs::Planning::checked_refused, crate::proofs::Planning::checked_found, column::proofs::PackedLaws::packed_front))]
pub fn check_plan(plan: Plan, file: &[u8], number: usize) -> Result<(), Error>
    ensures { Checked plan (plan_in file.now number) (told result) }
{
    let mut slots = [0u32; 64];
    let count = slots_beside(file, number, Ok(()), &mut slots)?;
    check(plan, &slots[..count])
}
