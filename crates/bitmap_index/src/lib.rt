// Filters over a bitmap index, and the calls of the crates index, index_write and index_merge.
#![tactic(auto)]

mod filters;
mod plan;
mod steps;

pub use filters::{filter, intersect_values};
pub use index::{BitmapIndex, Counts, IndexRead, MAX_INDEX, Part, bitmap, bitmap_at, decode};
pub use index_merge::merge;
pub use index_write::{encode, insert};
pub use steps::StepKind;
