// Run lists as words: start, end, start, end. Judging, searching, counting, and their blocks of bytes.
#![tactic(auto)]

mod batch;
mod block;
mod list;
mod lookup;
mod pass;
mod place;
mod rows;
mod runs;
mod words;

ghost use Rattle.std.specs.Prelude.{◌≡◌};
ghost use Rattle.run_list.specs.Calls.{listed_of};

pub use batch::{upper_bound, upper_bounds};
pub use block::{block_runs, decode, encode, run_at};
use fields::Refusal;
pub use list::RunList;
pub use lookup::{SortedLookup, look_up_sorted};
pub use place::{Place, PlaceAnswer};
pub use rows::{contains, count, search};
pub use runs::{check_both, check_run};
pub use words::block_words;

// A run list has at most 268,435,455 runs.
pub const MAX_WORDS: usize = 536870910;

// A block has at most 4,294,967,295 bytes.
pub const MAX_BLOCK: usize = 4294967295;

// A refusal, or 0; and yes or no. So the answer crosses to C.
#[repr(C)]
#[derive(Clone, Copy, Debug, PartialEq, Eq)]
pub struct Listed {
    pub refusal: u64,
    pub yes: bool,
}

impl From<Result<bool, Refusal>> for Listed {
    ghost from_gives = { λ r a. a ≡ listed_of r };

    fn from(outcome: Result<bool, Refusal>) -> Listed {
        match outcome {
            Ok(yes) => Listed { refusal: 0, yes },
            Err(refusal) => Listed {
                refusal: refusal.number(),
                yes: false,
            },
        }
    }
}
