// Filters: the kept rows, changed step by step by the rows of a named value.
ghost use Rattle.fields.specs.Answers.{answer_of};
ghost use Rattle.bitmap_index.specs.Filter.{Filtered, Intersected};

use crate::plan::{MAX_STEPS, keep_rows};
use crate::steps::{Steps, check_steps};
use fields::Refusal;
use index::BitmapIndex;

// A step is two words.
const MAX_STEP_WORDS: usize = 2 * MAX_STEPS;

// The rows that a filter keeps, as runs at the front of out, since no call allocates. The index must have an entry for the value of each step. The scratch holds
// the rows between two steps; both lists need two words for each run of the index. Both lengths above their limits are refused by the same number.
pub fn filter(
    index: &[u8],
    steps: &[u64],
    out: &mut [u64],
    scratch: &mut [u64],
) -> Result<usize, Refusal>
    ensures { Filtered index.now steps.now out.old scratch.old (answer_of result) out.new scratch.new }
{
    let read = BitmapIndex::try_from(index);
    if MAX_STEP_WORDS < steps.len() {
        return Err(Refusal::TooLong);
    }
    let index = read?;
    check_steps(steps)?;
    keep_rows(index, Steps::Pairs(steps), out, scratch)
}

// The rows that all values list, as runs in out; none for no values, and none where the index lacks one of them. The lists are those of `filter`.
pub fn intersect_values(
    index: &[u8],
    values: &[u64],
    out: &mut [u64],
    scratch: &mut [u64],
) -> Result<usize, Refusal>
    ensures { Intersected index.now values.now out.old scratch.old (answer_of result) out.new scratch.new }
{
    let read = BitmapIndex::try_from(index);
    if MAX_STEPS < values.len() {
        return Err(Refusal::TooLong);
    }
    let index = read?;
    keep_rows(index, Steps::Values(values), out, scratch)
}
