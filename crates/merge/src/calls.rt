// The merges of word lists and blocks.
ghost use Rattle.fields.specs.Answers.{Stored};
ghost use Rattle.boundary.specs.Merge.{combine, op_of};
ghost use Rattle.boundary.specs.Stores.{StoredWords};
ghost use Rattle.run_list.specs.Blocks.{block_words};

use crate::merging::Merge;
use boundary::Operation;
use run_list::block_words;

// Writes the boundaries of the combination of two word lists as far as there is room, and returns their number.
pub fn merge_words(left: &[u64], right: &[u64], op: Operation, out: &mut [u64]) -> usize
    ensures { Stored (combine (op_of op.table) left.now right.now) out.old result out.new }
{
    Merge { left, right, op }.write(out)
}

// The same of a word list with the words of a block, read in place.
pub fn merge_block(left: &[u64], block: &[u8], op: Operation, out: &mut [u64]) -> usize
    ensures { Stored (combine (op_of op.table) left.now (block_words block.now)) out.old result out.new }
{
    let right = block_words(block);
    Merge { left, right, op }.write(out)
}

// The same, the boundaries written as the words of a block. Apart from `merge_block`, so that each has the definition of its output.
pub fn merge_bytes(left: &[u64], block: &[u8], op: Operation, out: &mut [u8]) -> usize
    ensures { StoredWords (combine (op_of op.table) left.now (block_words block.now)) out.old result out.new }
{
    let right = block_words(block);
    Merge { left, right, op }.write(out)
}
