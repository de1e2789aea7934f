// What a batch looks for, and the answer of one row.
ghost use Rattle.std.specs.Prelude.{◌≡◌, ◌+◌, ◌≤◌, length};
ghost use Rattle.wire.specs.Read.{refused};
ghost use Rattle.batch.specs.Spans.{Span, moved};

use crate::find::{CHAPTER_MARK, NULL_MARK, PARENTS};
use jump::look::look_lent;
use row::rows::LookUp;
use wire::error::{Error, Input};

// The span of one row: two positions in the section, or two marks.
#[derive(Clone, Copy)]
pub(crate) struct RowSpan {
    pub(crate) start: u32,
    pub(crate) end: u32,
}

// A column of the rows of one owner, through a plan, in a section of allowed size.
#[derive(Clone, Copy)]
pub(crate) struct Search<'a> {
    pub(crate) plan: &'a [usize; 131],
    pub(crate) section: &'a [u8],
    pub(crate) owner: usize,
    pub(crate) column: usize,
    ghost sized: { length section.now ≤ 16777216 },
}

// An error about the part of a section from `from` on, as one about the section; any other stays.
#[tactic(auto, using(crate::proofs::Parts::moved_row, crate::proofs::Parts::moved_other))]
fn moved(from: usize, e: Error) -> Error
    requires { from + e.offset ≤ 4294967296 }
    ensures { refused {A = Span} result ≡ moved from (refused e) }
{
    match e.input {
        Input::Row => Error::at(e.kind, from + e.offset).about(Input::Section),
        _ => e,
    }
}

impl Search<'_> {
    ghost use Rattle.std.specs.Prelude.{◌≡◌, ◌+◌, ◌*◌, ◌≤◌, length, eqb};
    ghost use Rattle.batch.specs.Spans.{row_at, owner_of, span_in};
    ghost use Rattle.batch.specs.Scan.{told_span};
    ghost use Rattle.batch.specs.Search.{look_of};

    // Whether row `i` of a table is the owner's. Of a child's rows the id is looked at first: rows of many owners are told apart by one test.
    #[tactic(auto, using(crate::proofs::Owners::owned_parent, crate::proofs::Owners::owned_other, crate::proofs::Owners::owned_child))]
    pub(crate) fn is_owned(&self, table: &[u32], i: usize) -> bool
        requires { 4 * i + 4 ≤ length table.now }
        ensures { result ≡ eqb (owner_of (row_at table.now i)) self.now.owner }
    {
        if self.owner == PARENTS {
            return table[4 * i] == 1;
        }
        table[4 * i + 1] as usize == self.owner && table[4 * i] != 1
    }

    // The span of the column in the row whose data start at `start`.
    #[tactic(auto, using(crate::proofs::Parts::span_null, crate::proofs::Parts::span_chapter, crate::proofs::Parts::span_found, crate::proofs::Parts::span_refused, crate::proofs::Parts::found_inside, crate::proofs::Parts::refused_inside))]
    pub(crate) fn span_at(&self, start: usize) -> Result<RowSpan, Error>
        ensures { told_span result ≡ span_in (look_of self.now) self.now.section.now start }
    {
        let from = start.min(self.section.len());
        match look_lent(self.plan, &self.section[from..], self.column) {
            Err(e) => Err(moved(from, e)),
            Ok(LookUp::Null) => Ok(RowSpan {
                start: NULL_MARK,
                end: NULL_MARK,
            }),
            Ok(LookUp::Chapter) => Ok(RowSpan {
                start: CHAPTER_MARK,
                end: CHAPTER_MARK,
            }),
            Ok(LookUp::Found(f)) => Ok(RowSpan {
                start: (from + f.start) as u32,
                end: (from + f.end) as u32,
            }),
        }
    }
}
