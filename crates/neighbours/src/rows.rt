// The nearest listed rows.
ghost use Rattle.neighbours.specs.Neighbours.{NearestOptions};

use crate::Nearest;
use crate::searched::Searched;
use fields::Refusal;
use run_list::RunList;

// The nearest listed rows at or above a row and at or below it.
pub fn neighbours(runs: &[u64], row: u64) -> Result<Nearest, Refusal>
    ensures { NearestOptions runs.now row result }
{
    let list = RunList::try_from(runs)?;
    let searched = Searched::new(list, row);
    Ok(Nearest {
        above: searched.above(),
        below: searched.below(),
    })
}
