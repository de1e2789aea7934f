// Look-up through a plan: from stop to stop, then to the column. A look-up is lent the plan's numbers, so that none of them is copied.
ghost use Rattle.std.specs.Prelude.{◌≡◌, true, false, map, ◌≤◌, ◌<◌, ◌+◌, ◌*◌, ◌-◌, ◌%◌, length, eqb};
ghost use Rattle.wire.specs.Read.{pick, about, told};
ghost use Rattle.wire.specs.Bits.{bit_set};
ghost use Rattle.maps.specs.Maps.{top_bit};
ghost use Rattle.wire.specs.declared.error.Input.TheVariants as input;
ghost use Rattle.column.specs.Columns.{is_variable};
ghost use Rattle.column.specs.Fields.{variable_at};
ghost use Rattle.column.specs.Stops.{stop_in, prefix_of, length_at, there};
ghost use Rattle.walk.specs.Rows.{place};
ghost use Rattle.walk.specs.Leaps.{passed, leaps};
ghost use Rattle.row.specs.declared.rows.LookUp.TheVariants as look;
ghost use Rattle.walk.specs.Parts.{part_of};
ghost use Rattle.row.specs.Told.{told_walk, told_look_up};
ghost use Rattle.plan.specs.Plans.{planned_stop, lent};
ghost use Rattle.jump.specs.Jumps.{tabled, starts_before, stops_gone, by_bit, field_in, jumped, unset, planned_open, planned_answer, planned_row};
ghost use Rattle.jump.specs.Handles.{opened_row};
ghost use Rattle.jump.specs.Lent.{come, told_way, way_over, Near, Far, Behind, Small, BitsOf, over, found_in, asked};

use column::column::{Column, check_length};
use column::field::{Field, variable_at};
use column::packed::unpack;
use maps::maps::bits_at;
use plan::parts::{
    CHAPTERS, COUNTS, MAP, STOPS, before_in, bit_in, count_in, first_in, gap_in, width_in,
};
use plan::plan::Plan;
use row::rows::{LookUp, Walked, is_present};
use stops::stop;
use stops::stop::{
    bit_on, is_even_in, is_free_in, is_long_in, is_variable_in, long_before, most_in, prefix_in,
    short_before, size_in,
};
use wire::LIMIT;
use wire::bits::is_set;
use wire::error::{Error, ErrorKind, Input, about};

// Whether a row has the field of a stop, by the bits of its map.
#[tactic(auto, using(crate::proofs::Laws::there_bit, crate::proofs::Laws::there_always))]
fn is_there(word: usize, bits: u64, row: &[u8]) -> bool
    requires { BitsOf row.now bits }
    ensures { result ≡ there (bit_set row.now) (stop_in word) }
{
    // Kept: (b) as one `||` a look-up behind stops takes up to 18 percent more instructions.
    if is_free_in(word) {
        return bit_on(word, bits) == 1;
    }
    true
}

// A way over stops. It has come to `base` and `length` together: the last length read stands apart, so that from one prefix to the next
// there is one sum only.
#[derive(Clone, Copy)]
struct Way {
    base: usize,
    length: usize,
    prefixes: usize,
}

// A prefix: where it ends, and the length that it says.
#[derive(Clone, Copy)]
struct Prefix {
    end: usize,
    length: usize,
}

// The prefix at `at` of a field of variable length.
fn prefix_at(word: usize, row: &[u8], at: usize) -> Prefix
    requires { at ≤ 1099511627776 }
    ensures { (result.end ≡ at + prefix_of (stop_in word)) × (result.length ≡ length_at (stop_in word) row.now at) × (result.end ≤ at + 4) }
{
    // Kept: (b) with one end for both lengths a look-up behind stops takes up to 18 percent more instructions.
    if is_long_in(word) {
        let end = at + prefix_in(word);
        return Prefix {
            end,
            length: long_before(row, end),
        };
    }
    let end = at + prefix_in(word);
    Prefix {
        end,
        length: short_before(row, end),
    }
}

// Past a field of variable length whose prefix stands at `at`, after so many prefixes.
#[tactic(auto, using(crate::proofs::Laws::over_refused, crate::proofs::Laws::over_past, column::proofs::Laws::code_positive, column::proofs::Laws::rule_most))]
fn hop(word: usize, row: &[u8], at: usize, prefixes: usize) -> Result<Way, Error>
    requires { ((stop_in word).variable ≡ true) × (at ≤ 1099511627776) × (prefixes ≤ 64) }
    ensures answers { told_way result ≡ over (stop_in word) row.now at prefixes }
    ensures near { Near (at + 4294967300) prefixes result }
{
    let Prefix { end, length } = prefix_at(word, row, at);
    match check_length(most_in(word), is_even_in(word), length) {
        Ok(()) => Ok(Way {
            base: end,
            length,
            prefixes: prefixes + 1,
        }),
        Err(kind) => Err(Error::at(kind, at)),
    }
}

// Past the stop that a plan holds as this number, in a row with these bits, from a place on the way.
#[tactic(auto, using(crate::proofs::Laws::passed_fixed, crate::proofs::Laws::passed_absent, crate::proofs::Laws::passed_there, crate::proofs::Laws::near_more, crate::proofs::Laws::times_one))]
fn pass(word: usize, bits: u64, row: &[u8], way: Way) -> Result<Way, Error>
    requires { BitsOf row.now bits × (way.base + way.length ≤ 549755813888) × (way.prefixes ≤ 64) }
    ensures answers { told_way result ≡ passed (bit_set row.now) row.now (by_bit (stop_in word)) (come way) }
    ensures near { Near (way.base + way.length + 4295032836) way.prefixes result }
{
    let base = way.base + stop::gap_in(word);
    if is_variable_in(word) {
        if is_there(word, bits, row) {
            return hop(word, row, base + way.length, way.prefixes);
        }
        return Ok(Way { base, ..way });
    }
    let base = base + size_in(word) * bit_on(word, bits);
    Ok(Way { base, ..way })
}

// Past stop `j`, which is the next on the way, and the three behind it.
fn pass_four(plan: &[usize; 131], j: usize, bits: u64, row: &[u8], way: Way) -> Result<Way, Error>
    requires { BitsOf row.now bits × (j + 4 ≤ 64) × Far j way }
    ensures answers { told_way result ≡ way_over (lent plan.now) row.now 4 j (come way) }
    ensures behind { Behind (j + 4) result }
{
    let first = pass(plan[STOPS + j], bits, row, way)?;
    let second = pass(plan[STOPS + (j + 1)], bits, row, first)?;
    let third = pass(plan[STOPS + (j + 2)], bits, row, second)?;
    pass(plan[STOPS + (j + 3)], bits, row, third)
}

// From stop to stop, over the first `n` stops listed.
fn pass_few(plan: &[usize; 131], n: usize, bits: u64, row: &[u8]) -> Result<Way, Error>
    requires { BitsOf row.now bits × (n ≤ 64) }
    ensures answers { told_way result ≡ way_over (lent plan.now) row.now n 0 (place 0 0) }
    ensures behind { Behind n result }
{
    let mut way = Way {
        base: 0,
        length: 0,
        prefixes: 0,
    };
    for j in 0..n {
        way = pass(plan[STOPS + j], bits, row, way)?;
    }
    Ok(way)
}

// From a place on the way over the other stops, four at a turn.
fn pass_rest(
    plan: &[usize; 131],
    n: usize,
    bits: u64,
    row: &[u8],
    start: Way,
) -> Result<Walked, Error>
    requires { BitsOf row.now bits × (n ≤ 64) × Far (n % 4) start }
    ensures answers { told_walk result ≡ way_over (lent plan.now) row.now (n - n % 4) (n % 4) (come start) }
    ensures small { Small 549755813888 result }
{
    let mut way = start;
    for turn in 0..n / 4 {
        way = pass_four(plan, n % 4 + 4 * turn, bits, row, way)?;
    }
    Ok(Walked {
        position: way.base + way.length,
        prefixes: way.prefixes,
    })
}

// From stop to stop, over the first `n` stops listed: those that are left over by fours, then four at a turn.
fn follow(plan: &[usize; 131], n: usize, row: &[u8]) -> Result<Walked, Error>
    requires { n ≤ 64 }
    ensures answers { told_walk result ≡ leaps (bit_set row.now) row.now (map by_bit (tabled (planned_stop (lent plan.now)) n 0)) (place 0 0) }
    ensures small { Small 549755813888 result }
{
    let bits = bits_at(row, 0);
    let way = pass_few(plan, n % 4, bits, row)?;
    pass_rest(plan, n, bits, row, way)
}

// Whether a plan's list of stops starts with one before column `k`.
#[tactic(auto, using(crate::proofs::Laws::starts_behind, crate::proofs::Laws::starts_at))]
fn starts_before(plan: &[usize; 131], k: usize) -> bool
    requires { k < 64 }
    ensures { result ≡ starts_before (lent plan.now) k }
{
    let i = first_in(plan[COUNTS]);
    i < k && unpack(plan[i]).is_stop()
}

// How many stops a look-up of column `k` goes over.
#[tactic(auto, using(crate::proofs::Laws::gone_none, crate::proofs::Laws::gone_all, crate::proofs::Laws::gone_few))]
fn stops_gone(plan: &[usize; 131], k: usize) -> usize
    requires { k < 64 }
    ensures { (result ≡ stops_gone (lent plan.now) k) × (result ≤ 64) }
{
    let n = before_in(plan[k]);
    if n > 0 && starts_before(plan, k) {
        n
    } else {
        0
    }
}

// The way to column `k`: from the row's start over the stops before it, then its gap.
fn jump(plan: &[usize; 131], row: &[u8], k: usize) -> Result<Walked, Error>
    requires { k < 64 }
    ensures answers { told_walk result ≡ jumped (lent plan.now) row.now k }
    ensures small { Small 1099511627776 result }
{
    let n = stops_gone(plan, k);
    if n == 0 {
        return Ok(Walked {
            position: gap_in(plan[k]),
            prefixes: 0,
        });
    }
    let walked = follow(plan, n, row)?;
    Ok(Walked {
        position: walked.position + gap_in(plan[k]),
        ..walked
    })
}

// The field of variable length whose prefix stands where a walk has come to.
#[tactic(auto, using(crate::proofs::Laws::variable_one))]
fn find_variable(column: Column, row: &[u8], walked: Walked) -> Result<LookUp, Error>
    requires { (is_variable column ≡ true) × (walked.prefixes ≤ 64) }
    ensures { told_look_up result ≡ found_in (place walked.position walked.prefixes) (variable_at column row.now walked.position) }
{
    let f = about(variable_at(column, row, walked.position), Input::Row)?;
    Ok(LookUp::Found(Field {
        prefixes: walked.prefixes + f.prefixes,
        ..f
    }))
}

// The field, where a walk has come to, of a column that a plan holds as this number.
#[tactic(auto, using(crate::proofs::Answers::found_variable, crate::proofs::Answers::found_short, crate::proofs::Answers::found_fixed))]
fn find_at(word: usize, row: &[u8], walked: Walked) -> Result<LookUp, Error>
    requires { (walked.position ≤ 1099511627776) × (walked.prefixes ≤ 64) }
    ensures { told_look_up result ≡ found_in (place walked.position walked.prefixes) (field_in word row.now walked.position) }
{
    let column = unpack(word);
    if column.is_variable() {
        return find_variable(column, row, walked);
    }
    let start = walked.position;
    let end = start + width_in(word);
    if row.len() < end {
        return Err(Error::at(ErrorKind::Short, row.len()).about(Input::Row));
    }
    Ok(LookUp::Found(Field {
        start,
        end,
        prefixes: walked.prefixes,
    }))
}

// Column `k` of a row that opens: a chapter, null, or its field by the way to it.
#[tactic(auto, using(crate::proofs::Answers::answer_chapter, crate::proofs::Answers::answer_null, crate::proofs::Answers::answer_refused, crate::proofs::Answers::answer_found))]
fn look_at(plan: &[usize; 131], row: &[u8], k: usize) -> Result<LookUp, Error>
    requires { (k < 64) × (length row.now ≤ 16777216) }
    ensures { told_look_up result ≡ about input.Row (planned_answer (lent plan.now) row.now k) }
{
    let word = plan[k];
    let column = unpack(word);
    if column.is_chapter() {
        return Ok(LookUp::Chapter);
    }
    if !is_present(column, bit_in(word), row) {
        return Ok(LookUp::Null);
    }
    let walked = about(jump(plan, row, k), Input::Row)?;
    find_at(word, row, walked)
}

// Whether a bit is set both in the mask and in the row's map.
#[tactic(auto, using(crate::proofs::Laws::marked_set, crate::proofs::Laws::marked_none))]
fn is_marked(mask: usize, b: usize, row: &[u8]) -> bool
    requires { b < 64 }
    ensures { result ≡ pick (eqb (top_bit mask b) 1) (bit_set row.now b) false }
{
    (mask >> (63 - b)) % 2 == 1 && is_set(row, b)
}

// No bit is, bit by bit: this finds the first.
#[tactic(auto, using(crate::proofs::Laws::unset_found, crate::proofs::Laws::unset_next, crate::proofs::Laws::unset_end))]
fn check_bits(mask: usize, row: &[u8]) -> Result<(), Error>
    ensures { told result ≡ unset row.now mask }
{
    for b in 0..64 {
        if is_marked(mask, b, row) {
            return Err(Error::at(ErrorKind::ChapterBit, b / 8));
        }
    }
    Ok(())
}

// No bit is: mostly the mask is 0, or no bit of all is.
#[tactic(auto, using(crate::proofs::Laws::unset_nothing, crate::proofs::Laws::unset_apart))]
fn check_mask(mask: usize, row: &[u8]) -> Result<(), Error>
    ensures { told result ≡ unset row.now mask }
{
    if mask == 0 || bits_at(row, 0) as usize & mask == 0 {
        return Ok(());
    }
    check_bits(mask, row)
}

// Opens a row by a plan's map size and its bits of nullable chapters. Where its data start.
#[tactic(auto, using(crate::proofs::Answers::open_short, crate::proofs::Answers::open_marked, crate::proofs::Answers::open_well))]
fn open_map(plan: &[usize; 131], row: &[u8]) -> Result<usize, Error>
    ensures { told result ≡ planned_open (lent plan.now) row.now }
{
    if row.len() < plan[MAP] {
        return Err(Error::short(row.len()));
    }
    check_mask(plan[CHAPTERS], row)?;
    Ok(plan[MAP])
}

// The same, behind a copy of the row's place and length: it is made where this is called, and not on the way that opens at once.
fn open_slowly(plan: &[usize; 131], row: &[u8]) -> Result<usize, Error>
    ensures { told result ≡ planned_open (lent plan.now) row.now }
{
    open_map(plan, row)
}

// The same, at once where a plan has no nullable chapter, as most have none.
#[tactic(auto, using(crate::proofs::Laws::unset_nothing, crate::proofs::Answers::open_well))]
fn open_plain(plan: &[usize; 131], row: &[u8]) -> Result<usize, Error>
    ensures { told result ≡ planned_open (lent plan.now) row.now }
{
    if plan[CHAPTERS] == 0 && plan[MAP] <= row.len() {
        return Ok(plan[MAP]);
    }
    open_slowly(plan, row)
}

// The row's size, then the column number.
#[tactic(auto, using(crate::proofs::Answers::asked_large, crate::proofs::Answers::asked_column, crate::proofs::Answers::asked_well))]
fn check_asked(plan: &[usize; 131], row: &[u8], k: usize) -> Result<(), Error>
    ensures { told result ≡ asked (lent plan.now) row.now k }
{
    if row.len() > LIMIT {
        return Err(Error::at_start(ErrorKind::TooLarge, Input::Row));
    }
    if k < count_in(plan[COUNTS]).min(64) {
        return Ok(());
    }
    Err(Error::at_start(ErrorKind::Missing, Input::Column))
}

// Column `k` of a row, by a plan whose numbers are lent.
#[tactic(auto, using(crate::proofs::Answers::row_refused, crate::proofs::Answers::row_closed, crate::proofs::Answers::row_open, crate::proofs::Answers::asked_sized, crate::proofs::Answers::asked_known))]
pub fn look_lent(plan: &[usize; 131], row: &[u8], k: usize) -> Result<LookUp, Error>
    ensures { told_look_up result ≡ planned_row (lent plan.now) row.now k }
{
    check_asked(plan, row, k)?;
    let _ = about(open_plain(plan, row), Input::Row)?;
    look_at(plan, row, k)
}

// What a row has at column `k`, by a plan.
pub fn look_up(plan: Plan, row: &[u8], k: usize) -> Result<LookUp, Error>
    ensures { told_look_up result ≡ planned_row plan row.now k }
{
    look_lent(&plan.numbers, row, k)
}

// The bytes of the field of column `k`, as a part of the row; empty where no field is found.
#[tactic(auto, unfolding(walk::specs::Parts::part_of), using(crate::proofs::Inside::row_inside))]
pub fn field_part<'a>(plan: Plan, row: &'a [u8], k: usize) -> &'a [u8]
    ensures { result.now ≡ part_of row.now (planned_row plan row.now k) }
{
    match look_up(plan, row, k) {
        Ok(LookUp::Found(f)) => {
            let start = f.start;
            let end = f.end;
            &row[start..end]
        }
        _ => &row[0..0],
    }
}

// Opens a row by a plan. Where its data start.
#[tactic(auto, using(crate::proofs::Handled::opened_large, crate::proofs::Handled::opened_open))]
pub fn open_row(plan: Plan, row: &[u8]) -> Result<usize, Error>
    ensures { told result ≡ opened_row plan row.now }
{
    if row.len() > LIMIT {
        return Err(Error::at_start(ErrorKind::TooLarge, Input::Row));
    }
    about(open_map(&plan.numbers, row), Input::Row)
}
