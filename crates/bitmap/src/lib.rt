// Set operations on run lists. The calls on a single list are those of crate run_list, passed on here.
#![tactic(auto)]

mod sets;

pub use boundary::{DIFFERENCE, INTERSECT, Operation, RIGHT, UNION};
pub use merge::merge_block;
pub use run_list::{
    Listed, MAX_BLOCK, MAX_WORDS, Place, PlaceAnswer, RunList, contains, count, decode, encode,
    run_at, search, upper_bound,
};
pub use sets::{difference, intersect, merge_to_block, union, union_to_block};
