// The plan of the columns of a schema: one loop over them.
ghost use Rattle.std.specs.Prelude.{◌≡◌, ◌-◌, ◌^◌, ◌≤◌, ◌<◌, length, min, eqb, replicate};
ghost use Rattle.wire.specs.Read.{pick};
ghost use Rattle.column.specs.Columns.{width, is_chapter};
ghost use Rattle.column.specs.Packed.{packed_from};
ghost use Rattle.walk.specs.Presence.{presence_bytes};
ghost use Rattle.plan.specs.Packed.{packed};
ghost use Rattle.plan.specs.Plans.{plan_of, lent};

use crate::parts::{BEFORE, BIT, CHAPTERS, COUNTS, FIRST, GAP, MAP, STOPS, WIDTH};
use crate::plan::Plan;
use column::column::Column;
use column::packed::{pack, unpack_slot};
use row::rows::presence_bytes;
use stops::stop::stop_sized;

// What a plan holds as the gap of a column: nothing for a chapter.
fn gap_of(column: Column, gap: usize) -> usize
    ensures { (result ≡ pick (is_chapter column) 0 gap) × (result ≤ gap) }
{
    if column.is_chapter() { 0 } else { gap }
}

// The number of a column of this width, with its gap, its bit and the stops before it.
#[tactic(auto, unfolding(crate::specs::Packed::packed))]
fn number_of(column: Column, size: usize, gap: usize, bit: usize, before: usize) -> usize
    requires { (size ≡ width column) × (size ≤ 16) × (gap < 4096) × (bit < 64) × (before < 64) }
    ensures { result ≡ packed column (pick (is_chapter column) 0 gap) bit before }
{
    pack(column) + GAP * gap_of(column, gap) + BIT * bit + BEFORE * before + WIDTH * size
}

// The number of the first stop: column `i`, where no stop stands before it.
fn first_of(stops: usize, i: usize, first: usize) -> usize
    ensures { result ≡ pick (eqb stops 0) i first }
{
    if stops == 0 { i } else { first }
}

// What a column that is no stop adds to the bits of nullable chapters: its bit, where it is nullable.
#[tactic(auto, using(crate::proofs::Fill::power_down))]
fn chapter_bit(nullable: bool, bit: usize) -> usize
    requires { bit < 64 }
    ensures { result ≡ pick nullable (2 ^ (63 - bit)) 0 }
{
    if nullable {
        9_223_372_036_854_775_808 >> bit
    } else {
        0
    }
}

// The numbers of the plan of the columns in these slots, whose presence map has so many bytes, into an array of zeros.
fn fill(slots: &[u32], map: usize, numbers: &mut [usize; 131])
    requires { (length slots.now ≤ 64) × (map ≡ presence_bytes (packed_from (length slots.now) 0 slots.now)) × (numbers.old ≡ replicate 131 0) }
    ensures { lent numbers.new ≡ plan_of (packed_from (length slots.now) 0 slots.now) }
{
    let mut gap = map;
    let mut bit = 0;
    let mut stops = 0;
    let mut first = 0;
    let mut mask = 0;
    for (i, &slot) in slots.iter().enumerate() {
        let column = unpack_slot(slot);
        let nullable = column.is_nullable();
        let size = column.width();
        numbers[i] = number_of(column, size, gap, bit, stops);
        if column.is_stop() {
            numbers[STOPS + stops] = stop_sized(column, size, nullable, gap, bit);
            first = first_of(stops, i, first);
            stops += 1;
            gap = 0;
        } else {
            mask += chapter_bit(nullable, bit);
            gap += size;
        }
        bit += usize::from(nullable);
    }
    numbers[COUNTS] = slots.len() + FIRST * first;
    numbers[MAP] = map;
    numbers[CHAPTERS] = mask;
}

// The numbers of the plan of the columns in no more than 64 slots, into an array of zeros: what is lent is not copied.
pub(crate) fn make_into(slots: &[u32], numbers: &mut [usize; 131])
    requires { numbers.old ≡ replicate 131 0 }
    ensures { lent numbers.new ≡ plan_of (packed_from (min (length slots.now) 64) 0 slots.now) }
{
    let few = &slots[..slots.len().min(64)];
    fill(few, presence_bytes(few), numbers);
}

// The plan of the columns in no more than 64 slots.
pub fn make(slots: &[u32]) -> Plan
    ensures { result ≡ plan_of (packed_from (min (length slots.now) 64) 0 slots.now) }
{
    let mut numbers = [0usize; 131];
    make_into(slots, &mut numbers);
    Plan { numbers }
}
