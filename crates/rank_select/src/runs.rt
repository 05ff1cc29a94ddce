// Rank and select over a run list: the calls of crate run_rank, passed on here.
pub use run_rank::{from_runs, rank, rank_and_contains, select};
