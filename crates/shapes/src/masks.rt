// Masks of bits of maps, made once a call: that of a stop's bit, and those of columns, by which a map is seen at once to keep its rules.
ghost use Rattle.std.specs.Prelude.{◌≡◌, ◌+◌, ◌*◌, ◌≤◌, ◌<◌, length};
ghost use Rattle.wire.specs.Read.{pick};
ghost use Rattle.walk.specs.Presence.{mark};
ghost use Rattle.shapes.specs.Shapes.{bit_mask, slice_columns};
ghost use Rattle.shapes.specs.Masks.{BitAdded, ForcedAdded, MasksAdded, is_marked, is_unforced};

use column::column::Column;
use column::packed::unpack;

// The first bit of a map, as a mask.
const TOP: usize = 9_223_372_036_854_775_808;

// The mask of a stop: the one bit of a map that decides on its field. A field that is always there has the last.
#[tactic(auto, using(crate::proofs::MaskLaws::mask_is))]
pub(crate) fn stop_mask(free: bool, bit: usize) -> usize
    requires { bit < 64 }
    ensures { result ≡ bit_mask (pick free bit 63) }
{
    if free { TOP >> bit } else { 1 }
}

// A mask with bit `i` set where `on` says so.
#[tactic(auto, using(crate::proofs::MaskLaws::bit_added, crate::proofs::MaskLaws::bit_kept))]
fn with_bit(mask: usize, i: usize, on: bool) -> usize
    requires { i < 64 }
    ensures { BitAdded mask i on result }
{
    if on { mask | (TOP >> i) } else { mask }
}

// Whether a column is a chapter that is nullable.
fn is_marked(column: Column) -> bool
    ensures { result ≡ is_marked (mark column 0) }
{
    column.is_chapter() && column.is_nullable()
}

// Whether no force bit of a column may be set: it is a chapter, or not nullable.
fn is_unforced(column: Column) -> bool
    ensures { result ≡ is_unforced (mark column 0) }
{
    column.is_chapter() || !column.is_nullable()
}

// The masks of update data of schema `k`, whose columns these are.
fn add_forced(columns: &[u64], k: usize, shapes: &mut [usize])
    requires { (length columns.now ≤ 64) × (8 * k + 8 ≤ length shapes.old) }
    ensures { ForcedAdded (slice_columns columns.now) k shapes.old shapes.new }
{
    let mut chapters = 0;
    let mut unforced = 0;
    let mut all = 0;
    for (i, &slot) in columns.iter().enumerate() {
        let column = unpack(slot as usize);
        chapters = with_bit(chapters, i, column.is_chapter());
        unforced = with_bit(unforced, i, is_unforced(column));
        all = with_bit(all, i, true);
    }
    shapes[8 * k + 3] = chapters;
    shapes[8 * k + 4] = unforced;
    shapes[8 * k + 5] = all;
}

// The masks of schema `k`, whose columns these are. No row of the top schema has update data.
pub(crate) fn add_masks(columns: &[u64], k: usize, shapes: &mut [usize])
    requires { (length columns.now ≤ 64) × (8 * k + 8 ≤ length shapes.old) }
    ensures { MasksAdded (slice_columns columns.now) k shapes.old shapes.new }
{
    let mut present = 0;
    let mut bit = 0;
    for &slot in columns {
        let column = unpack(slot as usize);
        present = with_bit(present, bit, is_marked(column));
        bit += usize::from(column.is_nullable());
    }
    shapes[8 * k + 2] = present;
    if k > 0 {
        add_forced(columns, k, shapes);
    }
}
