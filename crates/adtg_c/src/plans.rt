// Plans: made and compared with a schema file, places, and look-up through a plan. A look-up is lent the numbers of the plan, so that
// no call copies them.
ghost use Rattle.std.specs.Prelude.{◌≡◌};
ghost use Rattle.plan.specs.Plans.{fixed_place, lent};
ghost use Rattle.jump.specs.Jumps.{planned_row};
ghost use Rattle.jump.specs.Handles.{opened_row};
ghost use Rattle.adtg.specs.Plans.{plan_in, blank};
ghost use Rattle.answers.specs.Answers.{Answered, size_values};
ghost use Rattle.answers.specs.PlanAnswers.{found_answer, place_values};
ghost use Rattle.adtg_c.specs.PlanAnswers.{plan_answer, CheckTold};

use adtg::plans::{check_plan, make_lent};
use answers::answer::{answer_match, answer_size};
use answers::plans::{FoundAnswer, answer_place, found_answer};
use jump::look::{look_lent, open_row};
use plan::fixed::fixed_place;
use plan::plan::Plan;

// A plan that was made, or the error with the blank plan beside it.
// Kept: a struct of the C interface, which has no `Result`.
#[repr(C)]
#[derive(Clone, Copy)]
pub struct PlanAnswer {
    pub code: u32,
    pub offset: u64,
    pub input: u64,
    pub plan: Plan,
}

// The plan of no columns.
fn blank_plan() -> Plan
    ensures { result ≡ blank }
{
    Plan {
        numbers: [0usize; 131],
    }
}

// The plan of schema `number`.
#[unsafe(no_mangle)]
pub extern "C" fn adtg_make_plan(file: &[u8], number: usize) -> PlanAnswer
    ensures { result ≡ plan_answer (plan_in file.now number) }
{
    let mut plan = blank_plan();
    match make_lent(file, number, &mut plan) {
        Err(e) => PlanAnswer {
            code: e.kind.code(),
            offset: e.offset as u64,
            input: e.input.number(),
            plan,
        },
        Ok(()) => PlanAnswer {
            code: 0,
            offset: 0,
            input: 0,
            plan,
        },
    }
}

// Whether a plan is the one that schema `number` makes now.
#[unsafe(no_mangle)]
pub extern "C" fn adtg_check_plan(
    plan: Plan,
    file: &[u8],
    number: usize,
    out: &mut [u64; 16],
) -> u32
    ensures { CheckTold plan (plan_in file.now number) result out.new }
{
    answer_match(check_plan(plan, file, number), out)
}

// The place of a column's field, which a plan names without any row.
#[unsafe(no_mangle)]
pub extern "C" fn adtg_fixed_place(plan: Plan, column: usize, out: &mut [u64; 16]) -> u32
    ensures { Answered place_values (fixed_place plan column) result out.new }
{
    answer_place(fixed_place(plan, column), out)
}

// Opens a row by a plan: where its data start.
#[unsafe(no_mangle)]
pub extern "C" fn adtg_open_row(plan: Plan, row: &[u8], out: &mut [u64; 16]) -> u32
    ensures { Answered size_values (opened_row plan row.now) result out.new }
{
    answer_size(open_row(plan, row), out)
}

// What a row has at a column, by a plan whose numbers are lent.
#[unsafe(no_mangle)]
pub extern "C" fn adtg_planned_look_up(
    plan: &[usize; 131],
    row: &[u8],
    column: usize,
) -> FoundAnswer
    ensures { result ≡ found_answer (planned_row (lent plan.now) row.now column) }
{
    found_answer(look_lent(plan, row, column))
}
