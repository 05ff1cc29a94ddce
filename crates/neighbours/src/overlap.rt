// The first run that shares a row with a range.
ghost use Rattle.neighbours.specs.Neighbours.{OverlapOption};

use crate::searched::Searched;
use fields::Refusal;
use run_list::RunList;

// The number of the first run that shares a row with the range from start to end, if one does. The end is no row of the range.
pub fn first_overlap(runs: &[u64], start: u64, end: u64) -> Result<Option<usize>, Refusal>
    ensures { OverlapOption runs.now start end result }
{
    let list = RunList::try_from(runs)?;
    if end <= start {
        return Err(Refusal::EmptyRun);
    }
    let searched = Searched::new(list, start);
    Ok(searched.overlap(end))
}
