// The element at a position by the quick way, which says what it is where nothing is wrong.
ghost use Rattle.std.specs.Prelude.{◌≡◌, true, ◌≤◌, ◌<◌, IfSome, length};
ghost use Rattle.section.specs.Heads.{before_in};
ghost use Rattle.section.specs.Said.{SaidIn};
ghost use Rattle.section.specs.Elements.{DeletedAt, ElementIn};

use crate::children::{find_child, is_child};
use crate::ends::quick_end;
use crate::heads::{CHANGE, CHILD, DELETE, PARENT, RowKind, paired_id};
use crate::sheet::Sheet;
use crate::table::id_behind;
use wire::bytes::lacks;

// An element with row data: the kind of its row, the number of its schema, where its data start.
#[derive(Clone, Copy)]
pub(crate) struct Said {
    pub(crate) kind: RowKind,
    pub(crate) number: usize,
    pub(crate) start: usize,
}

// An element: its kind, the number of its schema, and where it ends.
#[derive(Clone, Copy)]
pub(crate) struct Element {
    pub(crate) kind: RowKind,
    pub(crate) number: usize,
    pub(crate) end: usize,
}

// Kept: 0 for no child, here and below, as `pass_elements` takes and answers it.

// The element with row data at `at`, where `child` is the schema number of an 87 element directly before it, else 0, and `last` that of the
// last child.
#[tactic(auto, using(crate::proofs::HeadLaws::said_parent_in, crate::proofs::HeadLaws::said_child_in, crate::proofs::HeadLaws::said_change_in, wire::proofs::Laws::enough_le))]
#[inline(always)]
fn head_said(sheet: &Sheet, at: usize, child: usize, last: usize) -> Option<Said>
    requires { (child < sheet.now.schemas) × (last < sheet.now.schemas) }
    ensures { IfSome result (λ r. SaidIn sheet.now.slots.now sheet.now.schemas sheet.now.section.now (before_in sheet.now.slots.now child) at r) }
{
    if lacks(sheet.section.len(), at, 5) {
        return None;
    }
    let token = sheet.section[at];
    if token == PARENT {
        return Some(Said {
            kind: RowKind::Parent,
            number: 0,
            start: at + 1,
        });
    }
    let id = id_behind(sheet.section, at);
    if token == CHILD {
        let number = find_child(sheet, last, id)?;
        return Some(Said {
            kind: RowKind::Child,
            number,
            start: at + 5,
        });
    }
    if token == CHANGE && is_child(sheet.slots, child, id) {
        return Some(Said {
            kind: RowKind::Change,
            number: child,
            start: at + 5,
        });
    }
    None
}

// Whether a whole 8C element stands at `at`, behind its 87 element, whose schema has the number `child`.
#[tactic(auto, using(crate::proofs::ElementLaws::deleted_by))]
fn is_deleted(sheet: &Sheet, at: usize, child: usize) -> bool
    requires { child < sheet.now.schemas }
    ensures { result ≡ true → DeletedAt sheet.now.slots.now sheet.now.section.now child at }
{
    at < sheet.section.len() && sheet.section[at] == DELETE && paired_id(sheet, at, child).is_ok()
}

// The element at `at`, as far as the quick way says.
#[tactic(auto, using(crate::proofs::ElementLaws::element_said, crate::proofs::ElementLaws::element_deleted))]
#[inline(always)]
pub(crate) fn quick_element(sheet: &Sheet, at: usize, child: usize, last: usize) -> Option<Element>
    requires { (child < sheet.now.schemas) × (last < sheet.now.schemas) }
    ensures { IfSome result (λ e. ElementIn sheet.now.slots.now sheet.now.shapes.now sheet.now.schemas sheet.now.section.now (before_in sheet.now.slots.now child) at e) }
{
    match head_said(sheet, at, child, last) {
        Some(said) => {
            let update = said.kind.is_change();
            let end = quick_end(sheet.shapes, said.number, update, sheet.section, said.start)?;
            Some(Element {
                kind: said.kind,
                number: said.number,
                end,
            })
        }
        None if is_deleted(sheet, at, child) => Some(Element {
            kind: RowKind::Delete,
            number: child,
            end: at + 5,
        }),
        None => None,
    }
}
