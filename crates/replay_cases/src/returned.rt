// What a call returns, as a case holds it: one place for the answers of the library.
use fields::{NONE, Refusal};
use index::{Counts, Part};
use neighbours::Nearest;
use run_list::Place;

// The refusal of a call or 0, and the numbers that it returns with it, or 0.
#[derive(Clone, Copy, Debug, PartialEq, Eq)]
pub struct Returned {
    pub refusal: u64,
    pub first: u64,
    pub second: u64,
}

// The numbers of a call that has no refusals.
impl From<(u64, u64)> for Returned {
    fn from((first, second): (u64, u64)) -> Returned {
        Returned {
            refusal: 0,
            first,
            second,
        }
    }
}

impl From<u64> for Returned {
    fn from(number: u64) -> Returned {
        Returned::from((number, 0))
    }
}

impl From<Result<(u64, u64), Refusal>> for Returned {
    fn from(outcome: Result<(u64, u64), Refusal>) -> Returned {
        match outcome {
            Ok(numbers) => Returned::from(numbers),
            Err(refusal) => Returned {
                refusal: refusal.number(),
                first: 0,
                second: 0,
            },
        }
    }
}

impl From<Result<u64, Refusal>> for Returned {
    fn from(outcome: Result<u64, Refusal>) -> Returned {
        Returned::from(outcome.map(|number| (number, 0)))
    }
}

impl From<Result<usize, Refusal>> for Returned {
    fn from(outcome: Result<usize, Refusal>) -> Returned {
        Returned::from(outcome.map(|len| (len as u64, 0)))
    }
}

impl From<Result<bool, Refusal>> for Returned {
    fn from(outcome: Result<bool, Refusal>) -> Returned {
        Returned::from(outcome.map(|yes| (u64::from(yes), 0)))
    }
}

// The mark for none stands where there is no number.
impl From<Result<Option<u64>, Refusal>> for Returned {
    fn from(outcome: Result<Option<u64>, Refusal>) -> Returned {
        Returned::from(outcome.map(|number| (number.unwrap_or(NONE), 0)))
    }
}

impl From<Result<Option<usize>, Refusal>> for Returned {
    fn from(outcome: Result<Option<usize>, Refusal>) -> Returned {
        Returned::from(outcome.map(|place| (place.map_or(NONE, |place| place as u64), 0)))
    }
}

impl From<Result<Counts, Refusal>> for Returned {
    fn from(outcome: Result<Counts, Refusal>) -> Returned {
        Returned::from(outcome.map(|counts| (counts.entries as u64, counts.runs as u64)))
    }
}

// The place of a value's block in an index, and its length.
impl From<Option<Part>> for Returned {
    fn from(part: Option<Part>) -> Returned {
        Returned::from(part.map_or((0, 0), |part| (part.at as u64, part.len as u64)))
    }
}

impl From<Result<Place, Refusal>> for Returned {
    fn from(outcome: Result<Place, Refusal>) -> Returned {
        Returned::from(outcome.map(|place| (place.begun as u64, u64::from(place.listed))))
    }
}

impl From<Result<Nearest, Refusal>> for Returned {
    fn from(outcome: Result<Nearest, Refusal>) -> Returned {
        Returned::from(outcome.map(|nearest| {
            (nearest.above.unwrap_or(NONE), nearest.below.unwrap_or(NONE))
        }))
    }
}
