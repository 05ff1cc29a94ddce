// Rank and select over packed bits: the calls of crates bit_rank and bit_select, passed on here.
pub use bit_rank::{count_range, new, rank, total};
pub use bit_select::select;
