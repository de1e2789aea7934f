// The pass over a section that checks it, element by element and column by column.
ghost use Rattle.std.specs.Prelude.{◌≡◌, length};
ghost use Rattle.tree.specs.Table.{schemas_in};
ghost use Rattle.section.specs.Sizes.{Blank};
ghost use Rattle.section.specs.Scan.{Ready, Scanned};

use crate::elements::{Element, quick_element};
use crate::ends::{turn, turns_of};
use crate::heads::{Head, RowKind, head_at};
use crate::notes::{is_stepped, note};
use crate::runs::run;
use crate::sheet::Sheet;
use wire::error::Error;

// The pass that checks a section: how many rows it has, or the first error. The sizes of elements are noted, as far as there is room.
// What the quick way does not say is asked of the head and of the columns; the first refusal leaves both loops.
pub(crate) fn scan(sheet: &Sheet, sizes: &mut [u8]) -> Result<usize, Error>
    requires { Ready sheet.now.slots.now sheet.now.shapes.now sheet.now.schemas sheet.now.section.now sheet.now.step × Blank sizes.old }
    ensures { Scanned (schemas_in 0 sheet.now.schemas sheet.now.slots.now) sheet.now.section.now sheet.now.step sizes.new result × (length sizes.new ≡ length sizes.old) }
{
    // A copy, whose numbers the loop need not read anew after each write into `sizes`.
    let own = *sheet;
    let mut at = 0;
    let mut rows = 0;
    let mut child = 0;
    let mut last = 0;
    let mut used = 0;
    // Kept: the project's scope wants this form here: a loop over elements and columns, left by a label; an element says where the next one is.
    'section: loop {
        let n = run(&own, at);
        if n > 0 {
            rows += n;
            at += n * own.step;
            child = 0;
        } else {
            let element = match quick_element(&own, at, child, last) {
                Some(element) => element,
                None => match head_at(&own, at, child) {
                    Err(e) => {
                        break 'section Err(e);
                    }
                    Ok(Head::Done) => {
                        break 'section Ok(rows);
                    }
                    Ok(Head::Delete(_)) => Element {
                        kind: RowKind::Delete,
                        number: child,
                        end: at + 5,
                    },
                    Ok(
                        Head::Data {
                            kind,
                            number,
                            id: _,
                            start,
                        },
                    ) => {
                        let update = kind.is_change();
                        let mut end = 0;
                        for i in 0..turns_of(own.slots, number) {
                            match turn(own.slots, number, update, own.section, start, i, end) {
                                Err(fault) => {
                                    break 'section Err(fault);
                                }
                                Ok(p) => {
                                    end = p;
                                }
                            }
                        }
                        Element { kind, number, end }
                    }
                },
            };
            let stepped = is_stepped(own.step, own.section[at]);
            used = note(sizes, used, element.end - at, stepped);
            at = element.end;
            if element.kind.is_new() {
                rows += 1;
                child = element.number;
                last = element.number;
            } else {
                child = 0;
            }
        }
    }
}
