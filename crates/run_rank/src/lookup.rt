// What rank and select over a run list look up for each position.
ghost use Rattle.run_list.specs.Rows.{rows_below};
ghost use Rattle.run_rank.specs.RunRanks.{run_select};

use crate::index::RunIndex;
use fields::NONE;
use run_list::{Place, SortedLookup};

// The listed rows below a position.
#[derive(Clone, Copy)]
pub(crate) struct Ranked<'a>(pub(crate) RunIndex<'a>);

impl SortedLookup for Ranked<'_> {
    ghost sorted = { λ r. r.0.runs.words.now };

    ghost number = { λ r position. rows_below r.0.runs.words.now position };

    fn words(&self) -> &[u64] {
        self.0.runs.words
    }

    fn look_up_at(&self, n: usize, key: u64) -> u64 {
        self.0.rank_at(Place::after(n), key)
    }
}

// The listed row with a number, or the mark for none.
#[derive(Clone, Copy)]
pub(crate) struct Selected<'a>(pub(crate) RunIndex<'a>);

impl SortedLookup for Selected<'_> {
    ghost sorted = { λ s. s.0.directory.now };

    ghost number = { λ s k. run_select s.0.runs.words.now k };

    fn words(&self) -> &[u64] {
        self.0.directory
    }

    fn look_up_at(&self, n: usize, key: u64) -> u64 {
        self.0.select_at(n, key).unwrap_or(NONE)
    }
}
