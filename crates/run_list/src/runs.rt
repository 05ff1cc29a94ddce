// Judging run lists.
ghost use Rattle.std.specs.Prelude.{◌≡◌};
ghost use Rattle.fields.specs.Refusal.{refusal_of};
ghost use Rattle.run_list.specs.Runs.{run_fault, runs_fault, own_fault, fault2};
ghost use Rattle.run_list.specs.Calls.{above};

use crate::MAX_WORDS;
use fields::{Refusal, Word};

// Judges a run, after one that ends at last, if there is one.
pub fn check_run(last: Option<u64>, start: u64, end: u64) -> Result<(), Refusal>
    ensures { refusal_of result ≡ run_fault (above last) start end }
{
    if end <= start {
        return Err(Refusal::EmptyRun);
    }
    match last {
        Some(last) if start <= last => Err(Refusal::RunOrder),
        _ => Ok(()),
    }
}

// Judges words in pairs, front to back. A last word alone is left out.
pub(crate) fn check_runs<W: Word>(words: &[W]) -> Result<(), Refusal>
    ensures { refusal_of result ≡ runs_fault 0 (W.words words.now) }
{
    // By index: pairs of a type parameter, as arrays, would owe a bound on its size.
    let mut last = None;
    for k in 0..words.len() / 2 {
        let end = words[2 * k + 1].word();
        check_run(last, words[2 * k].word(), end)?;
        last = Some(end);
    }
    Ok(())
}

// Judges a word list, but for its length limit.
pub(crate) fn check_own(words: &[u64]) -> Result<(), Refusal>
    ensures { refusal_of result ≡ own_fault words.now }
{
    if words.len() % 2 == 1 {
        return Err(Refusal::OddWords);
    }
    check_runs(words)
}

// Judges two run lists: the lengths of both before the words of either.
pub fn check_both(left: &[u64], right: &[u64]) -> Result<(), Refusal>
    ensures { refusal_of result ≡ fault2 left.now right.now }
{
    if MAX_WORDS < left.len() {
        return Err(Refusal::TooLong);
    }
    if MAX_WORDS < right.len() {
        return Err(Refusal::TooLong);
    }
    check_own(left)?;
    check_own(right)
}
