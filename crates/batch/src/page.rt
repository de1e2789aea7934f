// A page of a batch: one column in the rows of one owner, from one row of a table on.
ghost use Rattle.std.specs.Prelude.{◌*◌, ◌≤◌, length};
ghost use Rattle.plan.specs.Plans.{lent};
ghost use Rattle.batch.specs.Pages.{Paged, page_found};
ghost use Rattle.batch.specs.PageScan.{page_scanned};
ghost use Rattle.batch.specs.Search.{look_of};

use crate::search::{RowSpan, Search};
use wire::LIMIT;
use wire::bytes::copy_into;
use wire::error::{Error, ErrorKind, Input};

// How many spans are found and which row comes next, or why there is none.
#[derive(Clone, Copy)]
pub struct PageCount {
    pub spans: usize,
    pub next: usize,
}

// The page from row `from` on, of rows that the table has. A row that is refused ends the page; it refuses the call where it is the first.
#[tactic(auto, using(crate::proofs::PagePass::at_start))]
// Kept: beside `scan` of `find`: this one stops at the room and at a refusal, that one counts on; one function with a rule as a closure is no plainer.
fn scan(
    search: &Search,
    table: &[u32],
    rows: usize,
    from: usize,
    spans: &mut [u32],
) -> Result<PageCount, Error>
    requires { (4 * rows ≤ length table.now) × (rows ≤ 16777216) × (from ≤ rows) }
    ensures { Paged (page_scanned (look_of search.now) search.now.section.now table.now rows from search.now.owner (length spans.old)) spans.old spans.new result }
{
    let room = spans.len() / 3;
    let mut count = 0;
    for i in from..rows {
        if search.is_owned(table, i) {
            if room <= count {
                return Ok(PageCount {
                    spans: count,
                    next: i,
                });
            }
            match search.span_at(table[4 * i + 2] as usize) {
                Ok(RowSpan { start, end }) => {
                    copy_into(spans, 3 * count, &[i as u32, start, end]);
                    count += 1;
                }
                Err(e) if count == 0 => return Err(e),
                Err(_) => {
                    return Ok(PageCount {
                        spans: count,
                        next: i,
                    });
                }
            }
        }
    }
    Ok(PageCount {
        spans: count,
        next: rows,
    })
}

// The spans of a column in the rows of one owner, from row `from` of a table of `rows` rows on, three numbers each: the row, and the two
// positions. As many as there is room for, up to a row that is refused; an error leaves the numbers as they were.
pub fn find_page(
    plan: &[usize; 131],
    section: &[u8],
    table: &[u32],
    rows: usize,
    from: usize,
    owner: usize,
    column: usize,
    spans: &mut [u32],
) -> Result<PageCount, Error>
    ensures { Paged (page_found (lent plan.now) section.now table.now rows from owner column (length spans.old)) spans.old spans.new result }
{
    if section.len() > LIMIT {
        return Err(Error::at_start(ErrorKind::TooLarge, Input::Section));
    }
    if (table.len() / 4).min(LIMIT) < rows {
        return Err(Error::at_start(ErrorKind::Missing, Input::Table));
    }
    if rows < from {
        return Err(Error::at_start(ErrorKind::Missing, Input::Place));
    }
    let search = Search {
        plan,
        section,
        owner,
        column,
    };
    scan(&search, table, rows, from, spans)
}
