// The text that the program prints for an index and a filter.
#![tactic(auto)]

mod lines;
mod outcome;
mod print;
mod program;

pub use program::report;
