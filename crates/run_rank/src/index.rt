// A run list with its directory.
ghost use Rattle.std.specs.Prelude.{◌≡◌, IfOk};
ghost use Rattle.fields.specs.Refusal.{refusal_of};
ghost use Rattle.fields.specs.Answers.{option_of};
ghost use Rattle.run_list.specs.Rows.{rows_below};
ghost use Rattle.run_list.specs.Places.{place};
ghost use Rattle.run_list.specs.Search.{searched};
ghost use Rattle.run_rank.specs.RunRanks.{run_directory, run_select, directory_fault};

use crate::directory::is_indexed;
use fields::Refusal;
use run_list::{Place, RunList};

#[derive(Clone, Copy)]
pub(crate) struct RunIndex<'a> {
    pub(crate) runs: RunList<'a>,
    pub(crate) directory: &'a [u64],
    pub(crate) ghost entries: { directory.now ≡ run_directory runs.words.now },
}

impl<'a> RunIndex<'a> {
    // The faults of the runs, then 9 for a directory that is not theirs.
    pub(crate) fn new(runs: &'a [u64], directory: &'a [u64]) -> Result<RunIndex<'a>, Refusal>
        ensures judged { refusal_of result ≡ directory_fault runs.entry.now directory.entry.now }
        ensures ok { IfOk result (λ x. x.runs.words.now ≡ runs.entry.now) }
    {
        // One pass where there is no fault; else it is looked for.
        if is_indexed(runs, directory) {
            return Ok(RunIndex {
                runs: RunList { words: runs },
                directory,
            });
        }
        RunList::try_from(runs)?;
        Err(Refusal::OtherDirectory)
    }

    // The rows below a position: those of the runs that end by then, and of the run after them those below the position, none where it starts above.
    pub(crate) fn rank_at(&self, found: Place, position: u64) -> u64
        requires { found ≡ place self.now.runs.words.now position }
        ensures { result ≡ rows_below self.now.runs.words.now position }
    {
        let ended = found.begun - usize::from(found.listed);
        let before = self.directory[ended];
        if 2 * ended == self.runs.words.len() {
            return before;
        }
        before + position.saturating_sub(self.runs.words[2 * ended])
    }

    // The row with k rows below it, where n words of the directory are at most k: it is in the last of their runs. If all are, the total too, there is none.
    pub(crate) fn select_at(&self, n: usize, k: u64) -> Option<u64>
        requires { n ≡ searched k self.now.directory.now }
        ensures { result ≡ option_of (run_select self.now.runs.words.now k) }
    {
        if n == self.directory.len() {
            return None;
        }
        let j = n - 1;
        Some(self.runs.words[2 * j] + (k - self.directory[j]))
    }
}
