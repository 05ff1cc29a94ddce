// Rank and select over run lists.
ghost use Rattle.run_rank.specs.RunRanks.{Directory, Ranks, Selects, RanksAndContains};

use fields::Answer;

#[unsafe(no_mangle)]
pub extern "C" fn mudcanvas_raw_run_directory(runs: &[u64], out: &mut [u64]) -> Answer
    ensures { Directory runs.now out.old result out.new }
{
    rank_select::runs::from_runs(runs, out).into()
}

#[unsafe(no_mangle)]
pub extern "C" fn mudcanvas_raw_run_rank(
    runs: &[u64],
    directory: &[u64],
    positions: &[u64],
    out: &mut [u64],
) -> Answer
    ensures { Ranks runs.now directory.now positions.now out.old result out.new }
{
    rank_select::runs::rank(runs, directory, positions, out).into()
}

#[unsafe(no_mangle)]
pub extern "C" fn mudcanvas_raw_run_select(
    runs: &[u64],
    directory: &[u64],
    positions: &[u64],
    out: &mut [u64],
) -> Answer
    ensures { Selects runs.now directory.now positions.now out.old result out.new }
{
    rank_select::runs::select(runs, directory, positions, out).into()
}

#[unsafe(no_mangle)]
pub extern "C" fn mudcanvas_raw_run_rank_and_contains(
    runs: &[u64],
    directory: &[u64],
    positions: &[u64],
    out: &mut [u64],
    flags: &mut [u64],
) -> Answer
    ensures { RanksAndContains runs.now directory.now positions.now out.old flags.old result out.new flags.new }
{
    rank_select::runs::rank_and_contains(runs, directory, positions, out, flags).into()
}
