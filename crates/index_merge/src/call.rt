// The call: judging both indexes, measuring the result where it may not fit, and writing it.
ghost use Rattle.std.specs.Prelude.{◌≡◌, length};
ghost use Rattle.fields.specs.Answers.{answer_of};
ghost use Rattle.fields.specs.Refusal.{refusal_of};
ghost use Rattle.fields.specs.Limits.{no_room, max_bytes};
ghost use Rattle.index_merge.specs.Calls.{merged_bytes, Merged};

use crate::walk::merge_entries;
use fields::Refusal;
use index::{BitmapIndex, MAX_INDEX};

// 10 where the result does not fit room bytes or its limit. It is not measured where the entries of both fit side by side, after one entry count.
fn check_space(first: BitmapIndex<'_>, second: BitmapIndex<'_>, room: usize) -> Result<(), Refusal>
    ensures { refusal_of result ≡ no_room max_bytes (length (merged_bytes first.entry.bytes.now second.entry.bytes.now)) room }
{
    let most = first.written_len() + second.written_len() - 4;
    if fields::check_room(most, room, MAX_INDEX).is_ok() {
        return Ok(());
    }
    let mut none = [0u8; 1];
    let n = merge_entries(first, second, &mut none);
    fields::check_room(n, room, MAX_INDEX)
}

// Merges two indexes: all values of both, and for a value in both the union of its rows. Refuses by 1 for either, then by the faults of the first, then by
// those of the second.
pub fn merge(first: &[u8], second: &[u8], out: &mut [u8]) -> Result<usize, Refusal>
    ensures { Merged first.now second.now out.old (answer_of result) out.new }
{
    if MAX_INDEX < second.len() {
        return Err(Refusal::TooLong);
    }
    let first = BitmapIndex::try_from(first)?;
    let second = BitmapIndex::try_from(second)?;
    check_space(first, second, out.len())?;
    Ok(merge_entries(first, second, out))
}
