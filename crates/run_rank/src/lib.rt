// Rank and select over a run list, with a directory of the rows in the runs before each run and the total (the Rust's `RankSelect`).
#![tactic(auto)]

mod directory;
mod index;
mod lookup;

ghost use Rattle.std.specs.Prelude.{◌≤◌, length};
ghost use Rattle.fields.specs.Answers.{answer_of};
ghost use Rattle.run_rank.specs.RunRanks.{Directory, Ranks, Selects, RanksAndContains};
ghost use Rattle.run_rank.specs.Inner.{RanksAndFlags};

use directory::fill;
use fields::Refusal;
use index::RunIndex;
use lookup::{Ranked, Selected};
use run_list::{Place, RunList, look_up_sorted, upper_bounds};

// Builds the directory of a run list.
pub fn from_runs(runs: &[u64], out: &mut [u64]) -> Result<usize, Refusal>
    ensures { Directory runs.now out.old (answer_of result) out.new }
{
    let list = RunList::try_from(runs)?;
    let n = runs.len() / 2 + 1;
    if out.len() < n {
        return Err(Refusal::NoRoom);
    }
    fill(list, out);
    Ok(n)
}

// For each position, the listed rows below it.
pub fn rank(
    runs: &[u64],
    directory: &[u64],
    positions: &[u64],
    out: &mut [u64],
) -> Result<usize, Refusal>
    ensures { Ranks runs.now directory.now positions.now out.old (answer_of result) out.new }
{
    let ranked = Ranked(RunIndex::new(runs, directory)?);
    look_up_sorted(&ranked, positions, out)
}

// For each position k, the listed row with k listed rows below it, or none.
pub fn select(
    runs: &[u64],
    directory: &[u64],
    positions: &[u64],
    out: &mut [u64],
) -> Result<usize, Refusal>
    ensures { Selects runs.now directory.now positions.now out.old (answer_of result) out.new }
{
    let selected = Selected(RunIndex::new(runs, directory)?);
    look_up_sorted(&selected, positions, out)
}

// Writes the rank of each position, and whether it is listed: from what the searches found, which the flags hold on the way.
fn put_both(index: RunIndex<'_>, positions: &[u64], out: &mut [u64], flags: &mut [u64])
    requires ranks { length positions.now ≤ length out.old }
    requires flags { length positions.now ≤ length flags.old }
    ensures { RanksAndFlags index.entry.runs.words.now positions.now out.old flags.old out.new flags.new }
{
    upper_bounds(index.runs.words, positions, flags);
    for (i, position) in positions.iter().enumerate() {
        let found = Place::after(flags[i] as usize);
        out[i] = index.rank_at(found, *position);
        flags[i] = u64::from(found.listed);
    }
}

// For each position, the listed rows below it, and 1 or 0 as it is listed or not.
pub fn rank_and_contains(
    runs: &[u64],
    directory: &[u64],
    positions: &[u64],
    out: &mut [u64],
    flags: &mut [u64],
) -> Result<usize, Refusal>
    ensures { RanksAndContains runs.now directory.now positions.now out.old flags.old (answer_of result) out.new flags.new }
{
    let index = RunIndex::new(runs, directory)?;
    if out.len() < positions.len() {
        return Err(Refusal::NoRoom);
    }
    if flags.len() < positions.len() {
        return Err(Refusal::NoRoom);
    }
    put_both(index, positions, out, flags);
    Ok(positions.len())
}
