// Rows of a run list.
ghost use Rattle.std.specs.Prelude.{◌≡◌};
ghost use Rattle.fields.specs.Answers.{number_of};
ghost use Rattle.run_list.specs.Calls.{Contains, Counts, Searches, listed_of, place_of};

use crate::{Place, RunList};
use fields::Refusal;

// Where a row is among the runs: the number of those that start at or below it, and whether it is listed.
pub fn search(runs: &[u64], row: u64) -> Result<Place, Refusal>
    ensures { Searches runs.now row (place_of result) }
{
    let runs = RunList::try_from(runs)?;
    Ok(runs.search(row))
}

// Whether a row is listed.
pub fn contains(runs: &[u64], row: u64) -> Result<bool, Refusal>
    ensures { Contains runs.now row (listed_of result) }
{
    let runs = RunList::try_from(runs)?;
    Ok(runs.contains(row))
}

// The number of listed rows.
pub fn count(runs: &[u64]) -> Result<u64, Refusal>
    ensures { Counts runs.now (number_of result) }
{
    let runs = RunList::try_from(runs)?;
    Ok(runs.count())
}
