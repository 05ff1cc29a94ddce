// Blocks: a run list in bytes.
ghost use Rattle.std.specs.Prelude.{◌≡◌, map, ◌+◌, ◌*◌, ◌<◌, ◌≤◌, length, get_or};
ghost use Rattle.std.proofs.lemmas.List.Edits.{sets};
ghost use Rattle.fields.specs.Bytes.{from_le, number_at};
ghost use Rattle.fields.specs.Limits.{max_words};
ghost use Rattle.fields.specs.Refusal.{refusal_of};
ghost use Rattle.fields.specs.Answers.{answer_of};
ghost use Rattle.run_list.specs.Blocks.{block_runs, block_words, block_fault, block_bytes};
ghost use Rattle.run_list.specs.Calls.{Decoded, Encoded, RunAt};

use crate::runs::{check_run, check_runs};
use crate::words::block_words;
use crate::{MAX_BLOCK, RunList};
use fields::{Refusal, Word};

// The counted runs that are whole within a block.
pub fn block_runs(block: &[u8]) -> usize
    ensures { result ≡ block_runs block.now }
{
    if block.len() < 4 {
        return 0;
    }
    let n = fields::u32_at(block, 0) as usize;
    let whole = (block.len() - 4) / 16;
    n.min(whole)
}

// Judges run k of a block, after a run that ends at last, if there is one, and gives its end.
pub fn run_at(block: &[u8], k: usize, last: Option<u64>) -> Result<u64, Refusal>
    ensures { RunAt block.now k last result }
{
    if block.len() < 20 {
        return Err(Refusal::CutShort);
    }
    if (block.len() - 20) / 16 < k {
        return Err(Refusal::CutShort);
    }
    let at = 4 + 16 * k;
    let end = fields::u64_at(block, at + 8);
    check_run(last, fields::u64_at(block, at), end)?;
    Ok(end)
}

// Judges a block, but for its length limit.
fn check_block(block: &[u8]) -> Result<(), Refusal>
    ensures { refusal_of result ≡ block_fault block.now }
{
    if block.len() < 4 {
        return Err(Refusal::CutShort);
    }
    check_runs(block_words(block))?;
    if block_runs(block) < fields::u32_at(block, 0) as usize {
        return Err(Refusal::CutShort);
    }
    Ok(())
}

// Copies the words of a block.
fn copy_words(words: &[[u8; 8]], out: &mut [u64])
    requires { length words.now ≤ length out.old }
    ensures { out.new ≡ sets out.old 0 (map from_le words.now) }
{
    // By index: what is written through `iter_mut().zip(..)` is not known any more after the loop.
    for (i, word) in words.iter().enumerate() {
        out[i] = word.word();
    }
}

// Reads a block as a run list. Bytes after its last run are ignored.
pub fn decode(block: &[u8], out: &mut [u64]) -> Result<usize, Refusal>
    ensures { Decoded block.now out.old (answer_of result) out.new }
{
    if MAX_BLOCK < block.len() {
        return Err(Refusal::TooLong);
    }
    check_block(block)?;
    let words = block_words(block);
    if out.len() < words.len() {
        return Err(Refusal::NoRoom);
    }
    copy_words(words, out);
    Ok(words.len())
}

// Writes a block at the front of an output that has room for it.
fn put_block(words: &[u64], out: &mut [u8])
    requires words_len_bound { length words.now ≤ max_words }
    requires words_in_bounds { 4 + 8 * length words.now ≤ length out.old }
    ensures { out.new ≡ sets out.old 0 (block_bytes words.now) }
{
    fields::put_u32(out, 0, (words.len() / 2) as u32);
    // By index: what `as_chunks_mut` and `chunks_exact_mut` lend is not known any more when it is given back.
    for (i, word) in words.iter().enumerate() {
        let at = 4 + 8 * i;
        out[at..at + 8].copy_from_slice(&word.to_le_bytes());
    }
}

// Writes a run list as a block.
pub fn encode(runs: &[u64], out: &mut [u8]) -> Result<usize, Refusal>
    ensures { Encoded runs.now out.old (answer_of result) out.new }
{
    RunList::try_from(runs)?;
    let n = 4 + 8 * runs.len();
    if out.len() < n {
        return Err(Refusal::NoRoom);
    }
    put_block(runs, out);
    Ok(n)
}
