// `from_rows` and `from_ranges`. All work is done in the output: the input's pairs are gathered at its front, sorted and joined there, and the rest is cleared.
ghost use Rattle.std.specs.Prelude.{◌≡◌, true, ◌%◌, ◌≤◌, length, take};
ghost use Rattle.fields.specs.Refusal.{refusal_of};
ghost use Rattle.fields.specs.Answers.{Gives, answer_of};
ghost use Rattle.run_list.specs.Rising.{Rising};
ghost use Rattle.bitmap_build.specs.Build.{joined, ranges, rows_fault, ranges_fault, Built};
ghost use Rattle.bitmap_build.specs.Joining.{Normal};

use crate::join::{gather, join};
use crate::sort::sort_pairs;
use fields::Refusal;

const MAX_ROWS: usize = 268435455;

// Too many rows, or one that is no row.
fn check_rows(rows: &[u64]) -> Result<(), Refusal>
    ensures { refusal_of result ≡ rows_fault rows.now }
{
    if MAX_ROWS < rows.len() {
        return Err(Refusal::TooLong);
    }
    // By hand: `contains` looks by four rows at once, and takes a fifth longer.
    for row in rows {
        if *row == fields::NONE {
            return Err(Refusal::NoRow);
        }
    }
    Ok(())
}

// Too many words, or an odd number.
fn check_ranges(words: &[u64]) -> Result<(), Refusal>
    ensures { refusal_of result ≡ ranges_fault words.now }
{
    if bitmap::MAX_WORDS < words.len() {
        return Err(Refusal::TooLong);
    }
    if words.len() % 2 == 1 {
        return Err(Refusal::OddWords);
    }
    Ok(())
}

// Makes the run list of the pairs' rows at the front, and returns its length. Words that strictly rise are a run list already. Here and in the sort nothing holds
// of an odd number of words, which can't be lent as pairs to be written.
fn normalize(s: &mut [u64]) -> usize
    requires { length s.old % 2 ≡ 0 }
    ensures { Normal s.old result s.new }
{
    if s.is_sorted_by(|a, b| a < b) {
        return s.len();
    }
    sort_pairs(s);
    join(s)
}

// Makes the run list of the pairs in the first m words, clears the words after it, up to need, and returns its length.
fn finish(out: &mut [u64], m: usize, need: usize) -> usize
    requires m_value { m % 2 ≡ 0 }
    requires m_le_need { m ≤ need }
    requires need_in_bounds { need ≤ length out.old }
    ensures { Gives 0 (joined (take m out.old)) need out.old (record { refusal = 0; len = result }) out.new }
{
    let n = normalize(&mut out[..m]);
    fields::clear_words(out, n, need);
    n
}

// The run list of rows in any order, repeats allowed.
pub fn from_rows(rows: &[u64], out: &mut [u64]) -> Result<usize, Refusal>
    ensures { Built (rows_fault rows.now) (ranges rows.now) out.old (answer_of result) out.new }
{
    check_rows(rows)?;
    let need = rows.len() * 2;
    if out.len() < need {
        return Err(Refusal::NoRoom);
    }
    let m = gather(rows, out);
    Ok(finish(out, m, need))
}

// The run list of ranges in any order: a start, an end, a start, an end. Empty ones have no rows.
pub fn from_ranges(ranges: &[u64], out: &mut [u64]) -> Result<usize, Refusal>
    ensures { Built (ranges_fault ranges.now) ranges.now out.old (answer_of result) out.new }
{
    check_ranges(ranges)?;
    let need = ranges.len();
    if out.len() < need {
        return Err(Refusal::NoRoom);
    }
    let (pairs, _) = ranges.as_chunks::<2>();
    let m = gather(pairs, out);
    Ok(finish(out, m, need))
}
