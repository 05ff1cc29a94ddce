// Two indexes merged into one, from their bytes into those of the result.
#![tactic(auto)]

mod call;
mod entries;
mod walk;
mod write;

pub use call::merge;
