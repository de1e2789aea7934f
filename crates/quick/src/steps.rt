// One stop on the way over row data.
ghost use Rattle.std.specs.Prelude.{◌≡◌, ◌+◌, ◌*◌, ◌≤◌, ◌<◌};
ghost use Rattle.column.specs.Stops.{stop_in};
ghost use Rattle.quick.specs.Quick.{Tells, length_over};

use column::column::allows;
use stops::stop::{gap_in, is_even_in, is_variable_in, length_at, most_in, size_in};

// What stands for a length that is not allowed: no stop allows it.
pub(crate) const TOO_LONG: usize = 4_294_967_296;

// A number, or 0 where `has` is 0. Of a choice the compiler makes no branch here, where a product would be slower.
fn kept(n: usize, has: usize) -> usize
    requires { has ≤ 1 }
    ensures { (result ≡ n * has) × (result ≤ n) }
{
    if has == 0 { 0 } else { n }
}

// A stop's bit among the first 64 bits of a map, by the stop's mask: in a loop this takes less than a shift.
pub(crate) fn bit_by(mask: usize, bits: u64) -> usize
    ensures { Tells mask bits result × (result ≤ 1) }
{
    if bits & (mask as u64) == 0 { 0 } else { 1 }
}

// The bytes of a stop that the bits of a map decide on: its gap, and where the field is there its prefix, or the whole field where it has none.
pub(crate) fn lead_over(word: usize, has: usize) -> usize
    requires { has ≤ 1 }
    ensures { (result ≡ (stop_in word).gap + (stop_in word).size * has) × (result < 131072) }
{
    gap_in(word) + kept(size_in(word), has)
}

// The length of a stop's field whose prefix stands at `p`: 0 where it has none or is not there.
pub(crate) fn length_over(word: usize, has: usize, section: &[u8], p: usize) -> usize
    requires { has ≤ 1 }
    ensures { (result ≡ length_over (stop_in word) has section.now p) × (result ≤ 4294967296) }
{
    if is_variable_in(word) {
        let length = kept(length_at(word, section, p), has);
        if allows(most_in(word), is_even_in(word), length) {
            return length;
        }
        return TOO_LONG;
    }
    0
}
