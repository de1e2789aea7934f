// Pages of a batch: one column of the rows of one owner, by a plan whose numbers are lent.
ghost use Rattle.std.specs.Prelude.{◌≡◌, length};
ghost use Rattle.plan.specs.Plans.{lent};
ghost use Rattle.batch.specs.Pages.{page_found, page_after, page_count, told_page};
ghost use Rattle.adtg_c.specs.PageAnswers.{page_answer};

use batch::page::{PageCount, find_page};
use wire::error::Error;

// What a page answers: 0, the row that comes next and how many spans there are; or the error's code, offset and input.
// Kept: a struct of the C interface, which has no `Result`.
#[repr(C)]
#[derive(Clone, Copy)]
pub struct PageAnswer {
    pub code: u32,
    pub first: u64,
    pub second: u64,
    pub spans: u64,
}

// The answer of a page, as a value.
fn answer_page(page: Result<PageCount, Error>) -> PageAnswer
    ensures { result ≡ page_answer (told_page page) }
{
    match page {
        Err(e) => PageAnswer {
            code: e.kind.code(),
            first: e.offset as u64,
            second: e.input.number(),
            spans: 0,
        },
        Ok(PageCount { spans, next }) => PageAnswer {
            code: 0,
            first: next as u64,
            second: 0,
            spans: spans as u64,
        },
    }
}

// Finds a column in the rows of one owner from row `from` on, into `spans`, three numbers a row.
#[unsafe(no_mangle)]
pub extern "C" fn adtg_find_page(
    plan: &[usize; 131],
    section: &[u8],
    table: &[u32],
    rows: usize,
    from: usize,
    owner: usize,
    column: usize,
    spans: &mut [u32],
) -> PageAnswer
    ensures answers { result ≡ page_answer (page_count (page_found (lent plan.now) section.now table.now rows from owner column (length spans.old))) }
    ensures leaves { spans.new ≡ page_after (page_found (lent plan.now) section.now table.now rows from owner column (length spans.old)) spans.old }
{
    answer_page(find_page(plan, section, table, rows, from, owner, column, spans))
}
