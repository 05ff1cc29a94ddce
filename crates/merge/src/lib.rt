// The merge of the boundaries of two lists of words, read as words or as a block's bytes, and written as either; and the union of two blocks. No list
// need rise: what a merge gives is defined on any words.
#![tactic(auto)]

mod blocks;
mod branchless;
mod calls;
mod copy;
mod merging;
mod output;
mod reading;
mod stretch;

pub use blocks::union_blocks;
pub use calls::{merge_block, merge_bytes, merge_words};
