// Where row data end, from stop to stop. Where nothing is said, the columns say where, or why not.
ghost use Rattle.std.specs.Prelude.{◌≡◌, true, ◌+◌, ◌≤◌, length, IfSome};
ghost use Rattle.shapes.specs.Shapes.{tail_in};
ghost use Rattle.quick.specs.Quick.{Keeps, Over, QuickRow, QuickUpdate, RowStep};

use crate::steps::{TOO_LONG, bit_by, lead_over, length_over};
use maps::maps::bits_at;
use shapes::forms::{always_in, first_in, is_rigid, map_in, stops_in, tail_in};
use shapes::shapes::HEAD;
use stops::stop::gap_in;
use wire::LIMIT;

// Whether so many bytes from `start` on lie in a section of `size` bytes, which keeps the limit.
fn holds(size: usize, start: usize, bytes: usize) -> bool
    requires { bytes ≤ 65536 }
    ensures { result ≡ true → (size ≤ 16777216) × (start + bytes ≤ size) }
{
    // Kept: (b) as one `&&` the check of a section takes 1.4 percent more instructions, here and in `keeps`.
    if LIMIT < size || size < start {
        return false;
    }
    start + bytes <= size
}

// Over the stops of a form by these bits, from `fields` on, and over the bytes behind the last. Two sums, so that from one length to the
// next nothing is on the way but the lengths themselves.
fn over(shapes: &[usize], form: usize, bits: u64, section: &[u8], fields: usize) -> Option<usize>
    requires { (fields ≤ length section.now) × (length section.now ≤ 16777216) }
    ensures { Over shapes.now form bits section.now fields result }
{
    let first = first_in(form);
    if shapes.len() < first + 2 * stops_in(form) {
        return None;
    }
    let mut lead = fields;
    let mut lengths = 0;
    for i in 0..stops_in(form) {
        let word = shapes[first + 2 * i];
        let has = bit_by(shapes[first + 2 * i + 1], bits);
        let next = lead + lead_over(word, has);
        let length = length_over(word, has, section, lead + gap_in(word) + lengths);
        if length == TOO_LONG {
            return None;
        }
        lengths += length;
        lead = next;
    }
    let end = lead + lengths + tail_in(form);
    if section.len() < end {
        return None;
    }
    Some(end)
}

// Whether the two maps of update data keep their rules, by the masks of their columns.
fn keeps(updated: u64, forced: u64, chapters: u64, unforced: u64, all: u64) -> bool
    ensures { result ≡ true → Keeps updated forced chapters unforced all }
{
    if updated & chapters != 0 || forced & unforced != 0 {
        return false;
    }
    let force = forced & all;
    force & updated == force
}

// The end of original row data that all have one size, which is the form's bytes behind the last stop.
fn rigid_end(form: usize, size: usize, start: usize) -> Option<usize>
    ensures { IfSome result (λ end. (end ≡ start + tail_in form) × (end ≤ size)) }
{
    if holds(size, start, tail_in(form)) {
        return Some(start + tail_in(form));
    }
    None
}

// How far it is from one parent to the next, where the row data of all have one size; else 0.
// Kept: (a) `RowStep` of this number stands in the promises of `pass_elements` and of the reader's takes, and a step of 0 is added like any other.
pub fn row_step(shapes: &[usize]) -> usize
    ensures { RowStep shapes.now result × (result ≤ 65536) }
{
    if shapes.len() == 0 {
        return 0;
    }
    let form = shapes[0];
    if is_rigid(form) {
        return 1 + tail_in(form);
    }
    0
}

// Where the original row data at `start` of schema `k` end.
pub fn quick_row(shapes: &[usize], k: usize, section: &[u8], start: usize) -> Option<usize>
    ensures { QuickRow shapes.now k section.now start result }
{
    if shapes.len() / HEAD <= k {
        return None;
    }
    let form = shapes[HEAD * k];
    if is_rigid(form) {
        return rigid_end(form, section.len(), start);
    }
    let size = map_in(form);
    if holds(section.len(), start, size) {
        let bits = bits_at(section, start);
        if bits & (shapes[HEAD * k + 2] as u64) == 0 {
            return over(
                shapes,
                form,
                bits | (always_in(form) as u64),
                section,
                start + size,
            );
        }
    }
    None
}

// Where the update data at `start` of schema `k` end.
pub fn quick_update(shapes: &[usize], k: usize, section: &[u8], start: usize) -> Option<usize>
    ensures { QuickUpdate shapes.now k section.now start result }
{
    if shapes.len() / HEAD <= k {
        return None;
    }
    let form = shapes[HEAD * k + 1];
    let size = map_in(form);
    if holds(section.len(), start, 2 * size) {
        let bits = bits_at(section, start);
        let forced = bits_at(section, start + size);
        let chapters = shapes[HEAD * k + 3] as u64;
        let unforced = shapes[HEAD * k + 4] as u64;
        let all = shapes[HEAD * k + 5] as u64;
        if keeps(bits, forced, chapters, unforced, all) {
            return over(
                shapes,
                form,
                bits ^ (bits & forced),
                section,
                start + 2 * size,
            );
        }
    }
    None
}
