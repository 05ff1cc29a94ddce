// The set operations.
ghost use Rattle.std.specs.Prelude.{◌≡◌, length};
ghost use Rattle.fields.specs.Answers.{answer_of};
ghost use Rattle.fields.specs.Limits.{no_room, max_words};
ghost use Rattle.fields.specs.Refusal.{refusal_of};
ghost use Rattle.boundary.specs.Merge.{combine, op_of, either, both, left_only};
ghost use Rattle.run_list.specs.Blocks.{block_words};
ghost use Rattle.bitmap.specs.Calls.{StoredBlock, Combined};

use boundary::{DIFFERENCE, INTERSECT, Operation, UNION};
use fields::Refusal;
use merge::{merge_bytes, merge_words, union_blocks};
use run_list::{MAX_WORDS, check_both};

// Writes the combination of a word list with the words of a block as a block: its words as far as there is room, then the number of its runs in front of
// them. Returns the number of its words.
pub fn merge_to_block(left: &[u64], block: &[u8], op: Operation, out: &mut [u8]) -> usize
    ensures { StoredBlock (combine (op_of op.table) left.now (block_words block.now)) out.old result out.new }
{
    let n = merge_bytes(left, block, op, out);
    fields::put_u32(out, 0, (n / 2 % 4294967296) as u32);
    n
}

// The same of the union of two blocks.
pub fn union_to_block(left: &[u8], right: &[u8], out: &mut [u8]) -> usize
    ensures { StoredBlock (combine either (block_words left.now) (block_words right.now)) out.old result out.new }
{
    let words = union_blocks(left, right, out);
    fields::put_u32(out, 0, (words / 2 % 4294967296) as u32);
    words
}

// The number of words of the combination.
fn measure(left: &[u64], right: &[u64], op: Operation) -> usize
    ensures { result ≡ length (combine (op_of op.table) left.now right.now) }
{
    let mut none = [0u64; 1];
    merge_words(left, right, op, &mut none)
}

// 10 where the result does not fit room words or has too many runs. It is not measured where the words of both lists fit.
fn check_room(left: &[u64], right: &[u64], op: Operation, room: usize) -> Result<(), Refusal>
    ensures { refusal_of result ≡ no_room max_words (length (combine (op_of op.table) left.now right.now)) room }
{
    let most = left.len() + right.len();
    if most <= room && most <= MAX_WORDS {
        return Ok(());
    }
    fields::check_room(measure(left, right, op), room, MAX_WORDS)
}

// The combination, with the refusals of the set calls.
fn combined(left: &[u64], right: &[u64], op: Operation, out: &mut [u64]) -> Result<usize, Refusal>
    ensures { Combined (op_of op.table) left.now right.now out.old (answer_of result) out.new }
{
    check_both(left, right)?;
    check_room(left, right, op, out.len())?;
    let n = merge_words(left, right, op, out);
    Ok(n)
}

// The rows of either list.
pub fn union(left: &[u64], right: &[u64], out: &mut [u64]) -> Result<usize, Refusal>
    ensures { Combined either left.now right.now out.old (answer_of result) out.new }
{
    combined(left, right, UNION, out)
}

// The rows of both lists.
pub fn intersect(left: &[u64], right: &[u64], out: &mut [u64]) -> Result<usize, Refusal>
    ensures { Combined both left.now right.now out.old (answer_of result) out.new }
{
    combined(left, right, INTERSECT, out)
}

// The rows of the left list that are not in the right one.
pub fn difference(left: &[u64], right: &[u64], out: &mut [u64]) -> Result<usize, Refusal>
    ensures { Combined left_only left.now right.now out.old (answer_of result) out.new }
{
    combined(left, right, DIFFERENCE, out)
}
