// The directory of a run list: for each run the rows in the runs before it, and then the rows in all runs.
ghost use Rattle.std.specs.Prelude.{◌≡◌, ◌+◌, ◌/◌, ◌<◌, eqb, length};
ghost use Rattle.std.proofs.lemmas.List.Edits.{sets};
ghost use Rattle.run_rank.specs.RunRanks.{run_directory, directory_fault};
ghost use Rattle.run_rank.specs.Inner.{rows_before};

use run_list::{MAX_WORDS, RunList, check_run};

// The rows in the runs before run i + 1, from those before run i.
fn next_entry(runs: RunList<'_>, i: usize, before: u64) -> u64
    requires within { i < length runs.words.now / 2 }
    requires before { before ≡ rows_before i runs.words.now }
    ensures { result ≡ rows_before (i + 1) runs.entry.words.now }
{
    before + (runs.words[2 * i + 1] - runs.words[2 * i])
}

// Writes the directory; an entry is stored once its run is added. Not by `packed::fill`, which sums up the set bits of blocks.
pub(crate) fn fill(runs: RunList<'_>, out: &mut [u64])
    requires { length runs.words.now / 2 < length out.old }
    ensures { out.new ≡ sets out.old 0 (run_directory runs.entry.words.now) }
{
    let n = runs.words.len() / 2;
    let mut before: u64 = 0;
    for i in 0..n {
        let next = next_entry(runs, i, before);
        out[i] = before;
        before = next;
    }
    out[n] = before;
}

// Whether words are a run list and a directory is theirs, in one pass over both. What is at fault first is not asked here.
pub(crate) fn is_indexed(runs: &[u64], directory: &[u64]) -> bool
    ensures { result ≡ eqb (directory_fault runs.now directory.now) 0 }
{
    let n = runs.len() / 2;
    if MAX_WORDS < runs.len() {
        return false;
    }
    if runs.len() % 2 == 1 {
        return false;
    }
    if directory.len() != n + 1 {
        return false;
    }
    let mut last = None;
    let mut before: u64 = 0;
    for i in 0..n {
        let start = runs[2 * i];
        let end = runs[2 * i + 1];
        if directory[i] != before {
            return false;
        }
        if check_run(last, start, end).is_err() {
            return false;
        }
        before += end - start;
        last = Some(end);
    }
    directory[n] == before
}
