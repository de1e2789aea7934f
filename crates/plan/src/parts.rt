// The parts of a plan's numbers, and where each number stands.
ghost use Rattle.std.specs.Prelude.{◌≡◌, ◌<◌};
ghost use Rattle.plan.specs.Packed.{gap_in, bit_in, before_in, width_in, count_in, first_in};

// Where the numbers of the stops start, and the last three: the counts, the bytes of the presence map, the bits of nullable chapters.
pub const STOPS: usize = 64;

pub const COUNTS: usize = 128;

pub const MAP: usize = 129;

pub const CHAPTERS: usize = 130;

// The places of a column's gap, its bit, the stops before it and its width in its number.
pub const GAP: usize = 4_294_967_296;

pub const BIT: usize = 17_592_186_044_416;

pub const BEFORE: usize = 1_125_899_906_842_624;

pub const WIDTH: usize = 72_057_594_037_927_936;

// The place of the first stop's number in the counts.
pub const FIRST: usize = 256;

// The gap in a column's number.
pub fn gap_in(word: usize) -> usize
    ensures { (result ≡ gap_in word) × (result < 4096) }
{
    word / GAP % 4096
}

// The column's bit in the presence map.
pub fn bit_in(word: usize) -> usize
    ensures { (result ≡ bit_in word) × (result < 64) }
{
    word / BIT % 64
}

// How many stops stand before it.
pub fn before_in(word: usize) -> usize
    ensures { (result ≡ before_in word) × (result < 64) }
{
    word / BEFORE % 64
}

// Its width.
pub fn width_in(word: usize) -> usize
    ensures { (result ≡ width_in word) × (result < 256) }
{
    word / WIDTH
}

// How many columns there are, by the counts.
pub fn count_in(counts: usize) -> usize
    ensures { (result ≡ count_in counts) × (result < 256) }
{
    counts % FIRST
}

// The number of the first stop.
pub fn first_in(counts: usize) -> usize
    ensures { result ≡ first_in counts }
{
    counts / FIRST
}
