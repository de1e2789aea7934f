// The fixed place of a column's field, which a plan names without any row.
ghost use Rattle.std.specs.Prelude.{◌≡◌, ◌≤◌, ◌↔◌, false, length, take, IsTrue, EachIndex};
ghost use Rattle.column.specs.Columns.{is_stop};
ghost use Rattle.column.specs.Packed.{packed_at};
ghost use Rattle.plan.specs.Plans.{fixed_place};
ghost use Rattle.plan.specs.Told.{told_place};

use crate::parts::{COUNTS, count_in, first_in, gap_in};
use crate::plan::Plan;
use column::packed::unpack;
use wire::error::{Error, ErrorKind, Input};

// Whether none of the first `k` columns is a stop.
// Kept: (b) a sum without a branch; where none of 64 columns is a stop, std's `all` takes half as long again.
fn counts_no_stop(plan: &[usize; 131], k: usize) -> bool
    requires { k ≤ 64 }
    ensures { (IsTrue result ↔ EachIndex (take k plan.now) (λ i. is_stop (packed_at (take k plan.now) i) ≡ false)) × (k ≤ length plan.now) }
{
    let mut stops = 0;
    for i in 0..k {
        stops += usize::from(unpack(plan[i]).is_stop());
    }
    stops == 0
}

// Whether none of the first `k` columns of a plan's numbers is a stop. The first stop that the plan lists is asked first: of a plan that was
// made it tells at once.
fn no_stops(plan: &[usize; 131], k: usize) -> bool
    requires { k ≤ 64 }
    ensures { (IsTrue result ↔ EachIndex (take k plan.now) (λ i. is_stop (packed_at (take k plan.now) i) ≡ false)) × (k ≤ length plan.now) }
{
    let first = first_in(plan[COUNTS]);
    if first < k && unpack(plan[first]).is_stop() {
        return false;
    }
    counts_no_stop(plan, k)
}

// The fixed place of column `k`, by a plan; none for a chapter, nor behind a stop.
#[tactic(auto, using(crate::proofs::Named::prefix_few, crate::proofs::Named::place_missing, crate::proofs::Named::place_chapter, crate::proofs::Named::place_moving, crate::proofs::Named::place_fixed))]
pub fn fixed_place(plan: Plan, k: usize) -> Result<Option<usize>, Error>
    ensures { told_place result ≡ fixed_place plan k }
{
    if count_in(plan.numbers[COUNTS]).min(64) <= k {
        return Err(Error::at_start(ErrorKind::Missing, Input::Column));
    }
    let word = plan.numbers[k];
    let column = unpack(word);
    if column.is_chapter() || !no_stops(&plan.numbers, k) {
        return Ok(None);
    }
    Ok(Some(gap_in(word) + column.prefix_bytes()))
}
