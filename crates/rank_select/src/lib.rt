// Rank and select. Over packed bits: module bits. Over run lists: module runs.
#![tactic(auto)]

pub mod bits;
pub mod runs;
