// Stops in one number: what is needed to go over a column whose field depends on the row, made from the column and read again.
ghost use Rattle.std.specs.Prelude.{◌≡◌, true, false, ℕ, ◌+◌, ◌-◌, ◌%◌, ◌≤◌, ◌<◌};
ghost use Rattle.wire.specs.Read.{pick};
ghost use Rattle.maps.specs.Maps.{top_bit};
ghost use Rattle.column.specs.Columns.{width, is_variable, prefix_size};
ghost use Rattle.column.specs.Stops.{flag, stop_flags, stop_of, stop_word, stop_in, prefix_of, length_at};

use column::column::Column;
use wire::integer::{u32_before, u32_or_zero};

// Gaps are less than this.
const GAPS: usize = 65_536;

// The places of the bit, the flags, the size and the greatest length.
const BIT: usize = 65_536;

const VARIABLE: usize = 4_194_304;

const LONG: usize = 8_388_608;

const EVEN: usize = 16_777_216;

const FREE: usize = 33_554_432;

const SIZE: usize = 134_217_728;

const MOST: usize = 4_294_967_296;

// The place of the stop's bit, from the lowest one up; 0 where the field is always there.
fn place_of(free: bool, bit: usize) -> usize
    ensures { (result ≡ 63 - pick free (bit % 64) 63) × (result < 64) }
{
    if free { 63 - bit % 64 } else { 0 }
}

// The bytes of the prefix, or of the whole field where it has none; `size` is the column's width.
#[tactic(auto, using(column::proofs::Stops::width_few, crate::proofs::StopLaws::size_width))]
fn size_of(column: Column, size: usize) -> usize
    ensures { (size ≡ width column → result ≡ pick (is_variable column) (prefix_size column) (width column)) × (result < 32) }
{
    if column.is_variable() {
        column.prefix_size()
    } else {
        size % 32
    }
}

// The flags, in their places.
#[tactic(auto, unfolding(column::specs::Stops::stop_flags))]
fn flags_of(column: Column, free: bool) -> usize
    ensures { (result ≡ stop_flags free column) × (result < 67108864) }
{
    VARIABLE * usize::from(column.is_variable())
        + LONG * usize::from(column.prefix_size() == 4)
        + EVEN * usize::from(column.is_wide())
        + FREE * usize::from(free)
}

// The number of the stop of a column of width `size`: the gap before it, its bit in the map, and whether that bit decides on its field.
#[tactic(auto, unfolding(column::specs::Stops::stop_word, column::specs::Stops::stop_of, column::specs::Stops::stop_flags))]
pub fn stop_sized(column: Column, size: usize, free: bool, gap: usize, bit: usize) -> usize
    ensures { size ≡ width column → result ≡ stop_word (stop_of free column (gap % 65536) (bit % 64)) }
{
    gap % GAPS
        + BIT * place_of(free, bit)
        + flags_of(column, free)
        + SIZE * size_of(column, size)
        + MOST * column.greatest()
}

// The same of a column whose width is not at hand.
pub fn stop_word(column: Column, free: bool, gap: usize, bit: usize) -> usize
    ensures { result ≡ stop_word (stop_of free column (gap % 65536) (bit % 64)) }
{
    stop_sized(column, column.width(), free, gap, bit)
}

// The bytes from the end of the last stop up to this one.
#[tactic(auto, unfolding(column::specs::Stops::stop_in))]
pub fn gap_in(word: usize) -> usize
    ensures { (result ≡ (stop_in word).gap) × (result < 65536) }
{
    word % GAPS
}

// The bytes of its prefix, or of the whole field where it has none.
#[tactic(auto, unfolding(column::specs::Stops::stop_in))]
pub fn size_in(word: usize) -> usize
    ensures { (result ≡ (stop_in word).size) × (result < 32) }
{
    word / SIZE % 32
}

// The greatest length.
#[tactic(auto, unfolding(column::specs::Stops::stop_in))]
pub fn most_in(word: usize) -> usize
    ensures { (result ≡ (stop_in word).most) × (result < 4294967296) }
{
    word / MOST
}

// Whether its field carries a length.
#[tactic(auto, unfolding(column::specs::Stops::stop_in))]
pub fn is_variable_in(word: usize) -> bool
    ensures { result ≡ (stop_in word).variable }
{
    word / VARIABLE % 2 == 1
}

// Whether that length takes four bytes, else one.
#[tactic(auto, unfolding(column::specs::Stops::stop_in))]
pub fn is_long_in(word: usize) -> bool
    ensures { result ≡ (stop_in word).long }
{
    word / LONG % 2 == 1
}

// The bytes of that length.
pub fn prefix_in(word: usize) -> usize
    ensures { (result ≡ prefix_of (stop_in word)) × (result ≤ 4) }
{
    if is_long_in(word) { 4 } else { 1 }
}

// Whether it must be even.
#[tactic(auto, unfolding(column::specs::Stops::stop_in))]
pub fn is_even_in(word: usize) -> bool
    ensures { result ≡ (stop_in word).even }
{
    word / EVEN % 2 == 1
}

// Whether a bit of the map decides on the field.
#[tactic(auto, unfolding(column::specs::Stops::stop_in))]
pub fn is_free_in(word: usize) -> bool
    ensures { result ≡ (stop_in word).free }
{
    word / FREE % 2 == 1
}

// The stop's bit among the first 64 bits of a map.
#[tactic(auto, using(crate::proofs::StopLaws::bit_placed))]
pub fn bit_on(word: usize, bits: u64) -> usize
    ensures { (result ≡ top_bit bits (stop_in word).bit) × (result ≤ 1) }
{
    ((bits >> (word / BIT % 64)) % 2) as usize
}

// The length that the prefix at `at` says; 0 where the prefix is not whole.
#[tactic(auto, using(crate::proofs::StopLaws::long_length, crate::proofs::StopLaws::short_none, crate::proofs::StopLaws::short_whole))]
pub fn length_at(word: usize, s: &[u8], at: usize) -> usize
    ensures { result ≡ length_at (stop_in word) s.now at }
{
    if is_long_in(word) {
        return u32_or_zero(s, at);
    }
    if s.len() <= at {
        return 0;
    }
    usize::from(s[at])
}

// The length in the four bytes that end at `end`; 0 where they are not there.
#[tactic(auto, using(crate::proofs::StopLaws::long_before))]
pub fn long_before(s: &[u8], end: usize) -> usize
    ensures { (word at : ℕ) → (stop_in word).long ≡ true → end ≡ at + 4 → result ≡ length_at (stop_in word) s.now at }
{
    u32_before(s, end)
}

// The length in the byte that ends at `end`; 0 where it is not there.
#[tactic(auto, using(crate::proofs::StopLaws::short_none, crate::proofs::StopLaws::short_before))]
pub fn short_before(s: &[u8], end: usize) -> usize
    ensures { (word at : ℕ) → (stop_in word).long ≡ false → end ≡ at + 1 → result ≡ length_at (stop_in word) s.now at }
{
    if s.len() < end || end < 1 {
        return 0;
    }
    usize::from(s[end - 1])
}
