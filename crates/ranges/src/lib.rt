// `contains` and `count` over a lent list of records, as the Rust's `ranges()` gives. Each record is a start and an end of the word list with which they agree.
#![tactic(auto)]

mod range;
mod scan;

ghost use Rattle.fields.specs.Answers.{number_of};
ghost use Rattle.run_list.specs.Calls.{Contains, Counts, listed_of};
ghost use Rattle.ranges.specs.Ranges.{words};

use fields::Refusal;
pub use range::RowRange;
use scan::scan;

// Whether a row is listed.
pub fn contains(ranges: &[RowRange], row: u64) -> Result<bool, Refusal>
    ensures { Contains (words ranges.now) row (listed_of result) }
{
    let found = scan(ranges, row)?;
    Ok(found.listed)
}

// The number of listed rows.
pub fn count(ranges: &[RowRange]) -> Result<u64, Refusal>
    ensures { Counts (words ranges.now) (number_of result) }
{
    let found = scan(ranges, 0)?;
    Ok(found.rows)
}
