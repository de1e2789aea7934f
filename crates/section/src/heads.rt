// The head of an element: its token and its child id.
ghost use Rattle.std.specs.Prelude.{◌≡◌, ◌<◌, [], length, eqb, ltb};
ghost use Rattle.wire.specs.Read.{told};
ghost use Rattle.tree.specs.Table.{schemas_in};
ghost use Rattle.shapes.specs.Shapes.{Sound};
ghost use Rattle.section.specs.Heads.{head_at, head_by, before_in, paired_id, kind_number, told_head};
ghost use Rattle.grammar.specs.Grammar.{other};
ghost use Rattle.grammar.specs.Reader.{child_token, change_token, delete_token, done_token};

use crate::children::is_child;
use crate::sheet::Sheet;
use schema::children::child_number;
use wire::error::{Error, ErrorKind};
use wire::integer::u32_at;

// Tokens of the elements, and of the section's end.
pub const PARENT: u8 = 0x07;

pub const CHILD: u8 = 0x87;

pub const CHANGE: u8 = 0x8A;

pub const DELETE: u8 = 0x8C;

pub const DONE: u8 = 0x0F;

// Kinds of rows, by their numbers in the table of rows.
#[derive(Clone, Copy)]
pub enum RowKind {
    Parent = 1,
    Child = 2,
    Change = 3,
    Delete = 4,
}

impl RowKind {
    // Whether an element of the kind has update data.
    pub(crate) fn is_change(self) -> bool
        ensures { result ≡ eqb (kind_number self) 3 }
    {
        matches!(self, RowKind::Change)
    }

    // Whether an element of the kind adds a row to the table.
    pub(crate) fn is_new(self) -> bool
        ensures { result ≡ ltb (kind_number self) 3 }
    {
        matches!(self, RowKind::Parent | RowKind::Child)
    }
}

// A head that was read. Of row data: the kind of its row so far, the number of its schema, its child id, where the data start.
#[derive(Clone, Copy)]
pub enum Head {
    Done,
    Delete(usize),
    Data {
        kind: RowKind,
        number: usize,
        id: usize,
        start: usize,
    },
}

// An 87 element's head.
#[tactic(auto, using(crate::proofs::HeadLaws::id_short, crate::proofs::HeadLaws::id_read, crate::proofs::HeadLaws::child_short, crate::proofs::HeadLaws::child_unknown, crate::proofs::HeadLaws::child_known))]
fn child_head(sheet: &Sheet, at: usize) -> Result<Head, Error>
    requires { Sound sheet.now.slots.now sheet.now.schemas × (at < length sheet.now.section.now) }
    ensures { told_head result ≡ head_by (schemas_in 0 sheet.now.schemas sheet.now.slots.now) sheet.now.section.now (before_in sheet.now.slots.now 0) at child_token }
{
    let id = u32_at(sheet.section, at + 1)?;
    match child_number(sheet.slots, sheet.schemas, id as u64) {
        None => Err(Error::at(ErrorKind::UnknownId, at)),
        Some(number) => Ok(Head::Data {
            kind: RowKind::Child,
            number,
            id,
            start: at + 5,
        }),
    }
}

// The child id behind a token, where it is that of the 87 element directly before, whose schema has the number `child`.
#[tactic(auto, using(crate::proofs::HeadLaws::id_short, crate::proofs::HeadLaws::id_read, crate::proofs::HeadLaws::paired_short, crate::proofs::HeadLaws::paired_found, crate::proofs::HeadLaws::paired_other))]
pub(crate) fn paired_id(sheet: &Sheet, at: usize, child: usize) -> Result<usize, Error>
    requires { (child < sheet.now.schemas) × (at < length sheet.now.section.now) }
    ensures { told result ≡ paired_id sheet.now.section.now (before_in sheet.now.slots.now child) at }
{
    let id = u32_at(sheet.section, at + 1)?;
    if is_child(sheet.slots, child, id) {
        return Ok(id);
    }
    Err(Error::at(ErrorKind::Unpaired, at))
}

// An 8A element's head: it changes the row of the 87 element directly before.
#[tactic(auto, using(crate::proofs::HeadLaws::change_refused, crate::proofs::HeadLaws::change_followed))]
fn change_head(sheet: &Sheet, at: usize, child: usize) -> Result<Head, Error>
    requires { Sound sheet.now.slots.now sheet.now.schemas × (child < sheet.now.schemas) × (at < length sheet.now.section.now) }
    ensures { told_head result ≡ head_by (schemas_in 0 sheet.now.schemas sheet.now.slots.now) sheet.now.section.now (before_in sheet.now.slots.now child) at change_token }
{
    let id = paired_id(sheet, at, child)?;
    Ok(Head::Data {
        kind: RowKind::Change,
        number: child,
        id,
        start: at + 5,
    })
}

// An 8C element's head.
#[tactic(auto, using(crate::proofs::HeadLaws::delete_refused, crate::proofs::HeadLaws::delete_read))]
fn delete_head(sheet: &Sheet, at: usize, child: usize) -> Result<Head, Error>
    requires { (child < sheet.now.schemas) × (at < length sheet.now.section.now) }
    ensures { told_head result ≡ head_by [] sheet.now.section.now (before_in sheet.now.slots.now child) at delete_token }
{
    let id = paired_id(sheet, at, child)?;
    Ok(Head::Delete(id))
}

// The done token's head: no byte is behind it.
#[tactic(auto, using(crate::proofs::HeadLaws::done_end, crate::proofs::HeadLaws::done_trailing))]
fn done_head(section: &[u8], at: usize) -> Result<Head, Error>
    requires { at < length section.now }
    ensures { told_head result ≡ head_by [] section.now other at done_token }
{
    if section.len() == at + 1 {
        return Ok(Head::Done);
    }
    Err(Error::at(ErrorKind::Trailing, at + 1))
}

// The head of the element at `at`, where `child` is the schema number of an 87 element directly before it, else 0.
#[tactic(auto, using(crate::proofs::HeadLaws::head_short, crate::proofs::HeadLaws::head_parent, crate::proofs::HeadLaws::head_child, crate::proofs::HeadLaws::head_change, crate::proofs::HeadLaws::head_delete, crate::proofs::HeadLaws::head_done, crate::proofs::HeadLaws::head_unknown))]
pub(crate) fn head_at(sheet: &Sheet, at: usize, child: usize) -> Result<Head, Error>
    requires { Sound sheet.now.slots.now sheet.now.schemas × (child < sheet.now.schemas) }
    ensures { told_head result ≡ head_at (schemas_in 0 sheet.now.schemas sheet.now.slots.now) sheet.now.section.now (before_in sheet.now.slots.now child) at }
{
    if sheet.section.len() <= at {
        return Err(Error::short(sheet.section.len()));
    }
    match sheet.section[at] {
        PARENT => Ok(Head::Data {
            kind: RowKind::Parent,
            number: 0,
            id: 0,
            start: at + 1,
        }),
        CHILD => child_head(sheet, at),
        CHANGE => change_head(sheet, at, child),
        DELETE => delete_head(sheet, at, child),
        DONE => done_head(sheet.section, at),
        _ => Err(Error::at(ErrorKind::UnknownToken, at)),
    }
}
