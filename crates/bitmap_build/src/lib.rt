// Run lists built from rows and from ranges; passes on the one built from packed bits.
#![tactic(auto)]

mod build;
mod join;
mod pivot;
mod select;
mod sort;

pub use build::{from_ranges, from_rows};
pub use packed_build::from_packed_bits;
