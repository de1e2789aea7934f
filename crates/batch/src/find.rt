// The batch call: a pass over a table of rows that counts, and for many rows one that fills the caller's numbers.
ghost use Rattle.std.specs.Prelude.{◌≡◌, length};
ghost use Rattle.plan.specs.Plans.{lent};
ghost use Rattle.batch.specs.Spans.{rows_of, spans_in, spans_found, Batched};
ghost use Rattle.batch.specs.Scan.{Scanned};
ghost use Rattle.batch.specs.Search.{look_of};

use crate::search::{RowSpan, Search};
use plan::plan::Plan;
use wire::LIMIT;
use wire::bytes::copy_into;
use wire::error::{Error, ErrorKind, Input};

// The owner of the parent's rows. Rows of a child have its id.
// Kept: a number of the C interface, as are the two marks.
pub const PARENTS: usize = 18_446_744_073_709_551_615;

// What both numbers of a span are where the row has null, or the column is a chapter.
pub const NULL_MARK: u32 = 4_294_967_295;

pub const CHAPTER_MARK: u32 = 4_294_967_294;

// One pass over a table of rows: how many spans there are, or the first error. Spans that the caller's numbers have room for are
// written into them.
#[tactic(auto, using(crate::proofs::Pass::at_refused, crate::proofs::Pass::at_end))]
fn scan(search: &Search, rows: &[u32], spans: &mut [u32]) -> Result<usize, Error>
    ensures { Scanned (spans_in (look_of search.now) search.now.section.now search.now.owner (rows_of rows.now)) spans.old spans.new result }
{
    let mut count = 0;
    for i in 0..rows.len() / 4 {
        if search.is_owned(rows, i) {
            // Kept: (b) a `match`; with `?` a row takes a tenth more instructions.
            match search.span_at(rows[4 * i + 2] as usize) {
                Err(e) => return Err(e),
                Ok(RowSpan { start, end }) => {
                    copy_into(spans, 2 * count, &[start, end]);
                    count += 1;
                }
            }
        }
    }
    Ok(count)
}

// The spans of a column, through a plan whose numbers are lent.
pub fn find_lent(
    plan: &[usize; 131],
    section: &[u8],
    rows: &[u32],
    owner: usize,
    column: usize,
    spans: &mut [u32],
) -> Result<usize, Error>
    ensures { Batched (spans_found (lent plan.now) section.now rows.now owner column (length spans.old)) spans.old spans.new result }
{
    if section.len() > LIMIT {
        return Err(Error::at_start(ErrorKind::TooLarge, Input::Section));
    }
    let search = Search {
        plan,
        section,
        owner,
        column,
    };
    // Kept: a buffer whose first numbers count, since memory is fixed.
    let mut held = [0u32; 512];
    let n = scan(&search, rows, &mut held)?;
    if spans.len() / 2 < n {
        return Err(Error::at(ErrorKind::Capacity, n).about(Input::Output));
    }
    if n <= 256 {
        copy_into(spans, 0, &held[..2 * n]);
        return Ok(n);
    }
    scan(&search, rows, spans)
}

// The spans of a column in the rows of one owner, two numbers a row; an error leaves the numbers as they were.
pub fn find_column(
    plan: Plan,
    section: &[u8],
    rows: &[u32],
    owner: usize,
    column: usize,
    spans: &mut [u32],
) -> Result<usize, Error>
    ensures { Batched (spans_found plan section.now rows.now owner column (length spans.old)) spans.old spans.new result }
{
    find_lent(&plan.numbers, section, rows, owner, column, spans)
}
