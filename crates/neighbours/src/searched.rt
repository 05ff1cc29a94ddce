// A row and its place among the runs of a list: what stands beside it.
ghost use Rattle.std.specs.Prelude.{◌≡◌, ◌<◌};
ghost use Rattle.fields.specs.Answers.{option_of};
ghost use Rattle.run_list.specs.Places.{place};
ghost use Rattle.neighbours.specs.Neighbours.{row_above, row_below, first_shared};

use run_list::{Place, RunList};

#[derive(Clone, Copy)]
pub(crate) struct Searched<'a> {
    pub(crate) runs: RunList<'a>,
    pub(crate) row: u64,
    pub(crate) found: Place,
    pub(crate) ghost placed: { found ≡ place runs.words.now row },
}

impl<'a> Searched<'a> {
    pub(crate) fn new(runs: RunList<'a>, row: u64) -> Searched<'a>
        ensures runs { result.runs.words.now ≡ runs.entry.words.now }
        ensures row { result.row ≡ row }
    {
        Searched {
            runs,
            row,
            found: runs.search(row),
        }
    }

    // The nearest row at or above the row: where it is in a gap, the start of the run after the gap.
    pub(crate) fn above(&self) -> Option<u64>
        ensures { result ≡ option_of (row_above self.now.runs.words.now self.now.row) }
    {
        if self.found.listed {
            return Some(self.row);
        }
        self.runs.words.get(2 * self.found.begun).copied()
    }

    // The nearest row at or below it: where it is in a gap, the last row of the run before the gap. That run's end is no row of it.
    pub(crate) fn below(&self) -> Option<u64>
        ensures { result ≡ option_of (row_below self.now.runs.words.now self.now.row) }
    {
        let n = self.found.begun;
        if n == 0 {
            return None;
        }
        if !self.found.listed {
            return Some(self.runs.words[2 * n - 1] - 1);
        }
        Some(self.row)
    }

    // The number of the first run that shares a row with the range from the row to an end. The runs before it end at the row or below it.
    pub(crate) fn overlap(&self, end: u64) -> Option<usize>
        requires { self.now.row < end }
        ensures { result ≡ option_of (first_shared self.now.runs.words.now self.now.row end) }
    {
        let words = self.runs.words;
        let k = self.found.begun - usize::from(self.found.listed);
        if 2 * k < words.len() && words[2 * k] < end {
            return Some(k);
        }
        None
    }
}
