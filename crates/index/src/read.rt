// Reading an index: judging it, and counting its entries and runs.
ghost use Rattle.std.specs.Prelude.{◌≡◌, ◌≤◌, ltb, length};
ghost use Rattle.fields.specs.Refusal.{refusal_of};
ghost use Rattle.run_list.specs.Calls.{above};
ghost use Rattle.index.specs.Index.{head_fault};
ghost use Rattle.index.specs.Calls.{Read, read_of};

use crate::words::{block_word, length_at, value_at};
use crate::{Counts, MAX_INDEX};
use fields::Refusal;
use run_list::check_run;

// Whether an entry may not have this value, after an entry that has last, if there is one.
fn is_too_low(value: u64, last: Option<u64>) -> bool
    ensures { result ≡ ltb value (above last) }
{
    match last {
        Some(last) => value <= last,
        None => false,
    }
}

// Judges the head of an entry, its value and its length field, after an entry that has the value last, if there is one.
fn check_head(index: &[u8], at: usize, last: Option<u64>) -> Result<(), Refusal>
    requires { at ≤ length index.now }
    ensures { refusal_of result ≡ head_fault index.now at (above last) }
{
    let left = index.len() - at;
    if left < 8 {
        return Err(Refusal::CutShort);
    }
    if is_too_low(value_at(index, at), last) {
        return Err(Refusal::ValueOrder);
    }
    if left < 12 {
        return Err(Refusal::CutShort);
    }
    if left - 12 < length_at(index, at) as usize {
        return Err(Refusal::CutShort);
    }
    Ok(())
}

// Reads an index entry by entry and run by run, up to the first refusal. Bytes after the last entry are ignored. One function has both loops: document 01 names
// a nested walk that is left by its label.
pub fn decode(index: &[u8]) -> Result<Counts, Refusal>
    ensures { Read index.now (read_of result) }
{
    if MAX_INDEX < index.len() {
        return Err(Refusal::TooLong);
    }
    if index.len() < 4 {
        return Err(Refusal::CutShort);
    }
    let entries = fields::u32_at(index, 0) as usize;
    let mut runs = 0;
    let mut last = None;
    let mut at = 4;
    'entries: {
        for _ in 0..entries {
            if let Err(refusal) = check_head(index, at, last) {
                break 'entries Err(refusal);
            }
            let start = at + 12;
            let end = start + length_at(index, at) as usize;
            let block = &index[start..end];
            if block.len() < 4 {
                break 'entries Err(Refusal::CutShort);
            }
            let n = run_list::block_runs(block);
            let mut previous = None;
            for j in 0..n {
                let run_end = block_word(block, 2 * j + 1);
                if let Err(refusal) = check_run(previous, block_word(block, 2 * j), run_end) {
                    break 'entries Err(refusal);
                }
                previous = Some(run_end);
            }
            if n < fields::u32_at(block, 0) as usize {
                break 'entries Err(Refusal::CutShort);
            }
            runs += n;
            last = Some(value_at(index, at));
            at = end;
        }
        Ok(Counts { entries, runs })
    }
}
