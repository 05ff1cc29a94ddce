// Where a row is among the runs of a list.
ghost use Rattle.std.specs.Prelude.{◌≡◌};
ghost use Rattle.run_list.specs.Places.{place_after};
ghost use Rattle.run_list.specs.Calls.{place_of};

use fields::Refusal;

// What the search for a row gives.
#[derive(Clone, Copy, Debug, PartialEq, Eq)]
pub struct Place {
    // The number of runs whose start is at or below the row.
    pub begun: usize,
    // Whether the row is listed. Then the last of these runs has it; else it is in the gap after that run.
    pub listed: bool,
}

impl Place {
    // The place of a row that n words are at most. They are starts and ends in turn: where the last is a start, its run has the row.
    pub fn after(n: usize) -> Place
        ensures { result ≡ place_after n }
    {
        Place {
            begun: n / 2 + n % 2,
            listed: n % 2 == 1,
        }
    }
}

// A refusal, or 0; and the place, 0 and no where the call is refused. So the answer crosses to C.
#[repr(C)]
#[derive(Clone, Copy, Debug, PartialEq, Eq)]
pub struct PlaceAnswer {
    pub refusal: u64,
    pub begun: u64,
    pub listed: bool,
}

impl From<Result<Place, Refusal>> for PlaceAnswer {
    ghost from_gives = { λ r a. a ≡ place_of r };

    fn from(outcome: Result<Place, Refusal>) -> PlaceAnswer {
        match outcome {
            Ok(place) => PlaceAnswer {
                refusal: 0,
                begun: place.begun as u64,
                listed: place.listed,
            },
            Err(refusal) => PlaceAnswer {
                refusal: refusal.number(),
                begun: 0,
                listed: false,
            },
        }
    }
}
