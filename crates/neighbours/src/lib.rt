// The neighbours of a row in a run list, and the first run that shares a row with a range. The list is judged in one pass, and one search answers.
#![tactic(auto)]

mod overlap;
mod rows;
mod searched;

ghost use Rattle.std.specs.Prelude.{◌≡◌};
ghost use Rattle.neighbours.specs.Neighbours.{nearest_of};

use fields::{NONE, Refusal};
pub use overlap::first_overlap;
pub use rows::neighbours;

// The nearest listed rows at or above a row and at or below it, where there are such rows.
#[derive(Clone, Copy, Debug, PartialEq, Eq)]
pub struct Nearest {
    pub above: Option<u64>,
    pub below: Option<u64>,
}

// A refusal, or 0; and both rows: the mark for none where there is no such row, 0 where the call is refused. So the answer crosses to C.
#[repr(C)]
#[derive(Clone, Copy, Debug, PartialEq, Eq)]
pub struct NearestAnswer {
    pub refusal: u64,
    pub above: u64,
    pub below: u64,
}

impl From<Result<Nearest, Refusal>> for NearestAnswer {
    ghost from_gives = { λ r a. a ≡ nearest_of r };

    fn from(outcome: Result<Nearest, Refusal>) -> NearestAnswer {
        match outcome {
            Ok(nearest) => NearestAnswer {
                refusal: 0,
                above: nearest.above.unwrap_or(NONE),
                below: nearest.below.unwrap_or(NONE),
            },
            Err(refusal) => NearestAnswer {
                refusal: refusal.number(),
                above: 0,
                below: 0,
            },
        }
    }
}
