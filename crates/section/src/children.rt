// The schema that a child id names, with the last one remembered.
ghost use Rattle.std.specs.Prelude.{◌≡◌, ◌<◌, IfSome};
ghost use Rattle.tree.specs.Table.{schemas_in};
ghost use Rattle.tree.specs.Schemas.{child_number};
ghost use Rattle.schema.specs.Children.{told_child};
ghost use Rattle.shapes.specs.Shapes.{Sound};
ghost use Rattle.grammar.specs.Reader.{follows};
ghost use Rattle.section.specs.Heads.{before_in};

use crate::sheet::Sheet;
use schema::children::{child_number, id_in};
use shapes::shapes::SCHEMAS;

// Whether an element of schema `number` is an 87 element with this child id. A number of 0 is no child's.
#[tactic(auto, using(crate::proofs::HeadLaws::follows_child, crate::proofs::HeadLaws::follows_nothing))]
pub(crate) fn is_child(slots: &[u64; 512], number: usize, id: usize) -> bool
    requires { number < 256 }
    ensures { result ≡ follows (before_in slots.now number) id }
{
    0 < number && id_in(slots[SCHEMAS + number]) == id as u64
}

// The number of the schema with a child id. That of the last child is looked at first.
#[tactic(auto, using(crate::proofs::HeadLaws::followed, crate::proofs::HeadLaws::found_low))]
pub(crate) fn find_child(sheet: &Sheet, last: usize, id: usize) -> Option<usize>
    requires { last < sheet.now.schemas }
    ensures low { IfSome result (λ k. k < sheet.now.schemas) }
    ensures found { Sound sheet.now.slots.now sheet.now.schemas → told_child result ≡ child_number (schemas_in 0 sheet.now.schemas sheet.now.slots.now) id }
{
    if is_child(sheet.slots, last, id) {
        return Some(last);
    }
    child_number(sheet.slots, sheet.schemas, id as u64)
}
