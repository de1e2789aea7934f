// Batches: one column of every row of one table, by a plan whose numbers are lent.
ghost use Rattle.std.specs.Prelude.{◌≡◌, length};
ghost use Rattle.plan.specs.Plans.{lent};
ghost use Rattle.batch.specs.Spans.{spans_found, spans_after, span_count};
ghost use Rattle.answers.specs.Answers.{Answered, size_values};

use answers::answer::answer_size;
use batch::find::find_lent;

// Finds a column in every row of one owner, into `spans`, two numbers a row: how many rows.
#[unsafe(no_mangle)]
pub extern "C" fn adtg_find_column(
    plan: &[usize; 131],
    section: &[u8],
    rows: &[u32],
    owner: usize,
    column: usize,
    spans: &mut [u32],
    out: &mut [u64; 16],
) -> u32
    ensures answers { Answered size_values (span_count (spans_found (lent plan.now) section.now rows.now owner column (length spans.old))) result out.new }
    ensures leaves { spans.new ≡ spans_after (spans_found (lent plan.now) section.now rows.now owner column (length spans.old)) spans.old }
{
    answer_size(find_lent(plan, section, rows, owner, column, spans), out)
}
