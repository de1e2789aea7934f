// Whole elements of a part of a section, passed by the quick way.
ghost use Rattle.std.specs.Prelude.{◌≡◌, true, false, ◌≤◌, ◌<◌, length};
ghost use Rattle.shapes.specs.Shapes.{Sound};
ghost use Rattle.shapes.specs.Masks.{Shaped};
ghost use Rattle.quick.specs.Quick.{RowStep};
ghost use Rattle.section.specs.Passes.{PassedTo, PassedIn, InBounds};

use crate::elements::quick_element;
use crate::runs::{MOST_STEP, run};
use crate::sheet::Sheet;
use shapes::shapes::SCHEMAS;
use wire::LIMIT;

// Elements that were passed: the rows that they add, where the next element stands, the child before it.
#[derive(Clone, Copy)]
pub struct Passed {
    pub rows: usize,
    pub at: usize,
    pub child: usize,
}

// Whether some number that a pass is given is out of its bounds.
fn is_outside(schemas: usize, child: usize, size: usize, start: usize, step: usize) -> bool
    ensures { result ≡ false → InBounds schemas child size start step }
{
    SCHEMAS < schemas || schemas <= child || LIMIT < size || size < start || MOST_STEP < step
}

// Whether an end lies behind `at`, in a section of `size` bytes.
fn lies(at: usize, end: usize, size: usize) -> bool
    ensures { result ≡ true → (at < end) × (end ≤ size) }
{
    at < end && end <= size
}

// Goes over whole elements from `start` on, as far as the quick way says where they end: how many rows they add, where the next element
// stands, and the schema number of an 87 element directly before it, else 0. `child` is that number before the first.
pub fn pass_elements(
    slots: &[u64; 512],
    shapes: &[usize],
    schemas: usize,
    section: &[u8],
    step: usize,
    start: usize,
    child: usize,
) -> Passed
    ensures passes { Sound slots.now schemas → Shaped slots.now shapes.now schemas → RowStep shapes.now step → child < schemas → start ≤ length section.now → length section.now ≤ 16777216 → PassedTo slots.now schemas section.now start child result }
    ensures keeps { PassedIn schemas (length section.now) start child result }
{
    if is_outside(schemas, child, section.len(), start, step) {
        return Passed {
            rows: 0,
            at: start,
            child,
        };
    }
    let sheet = Sheet {
        slots,
        schemas,
        shapes,
        section,
        step,
    };
    let mut rows = 0;
    let mut at = start;
    let mut before = child;
    let mut last = child;
    // Kept: each element says where the next one is.
    loop {
        let n = run(&sheet, at);
        if n == 0 {
            match quick_element(&sheet, at, before, last) {
                Some(element) if lies(at, element.end, section.len()) => {
                    at = element.end;
                    if element.kind.is_new() {
                        rows += 1;
                        before = element.number;
                        last = element.number;
                    } else {
                        before = 0;
                    }
                }
                _ => {
                    return Passed {
                        rows,
                        at,
                        child: before,
                    };
                }
            }
        } else {
            rows += n;
            at += n * step;
            before = 0;
        }
    }
}
