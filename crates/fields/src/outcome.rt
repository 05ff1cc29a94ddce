// Why a call is refused, and the answers of calls as they cross to C: there a refusal is its number, and 0 is none.
ghost use Rattle.std.specs.Prelude.{◌≡◌};
ghost use Rattle.fields.specs.Refusal.{refusal_number};
ghost use Rattle.fields.specs.Answers.{answer_of, number_of, word_number_of};

use crate::NONE;
use std::error::Error;
use std::fmt;

// By document 01's numbers, and those that the jobs of docs/REQUESTS.md add.
#[derive(Clone, Copy, Debug, PartialEq, Eq, Hash)]
pub enum Refusal {
    TooLong = 1,
    CutShort = 2,
    EmptyRun = 3,
    RunOrder = 4,
    ValueOrder = 5,
    OddWords = 6,
    NoRow = 7,
    StepKind = 8,
    OtherDirectory = 9,
    NoRoom = 10,
    MissingValue = 11,
}

impl Refusal {
    pub fn number(self) -> u64
        ensures { result ≡ refusal_number self }
    {
        self as u64
    }
}

impl fmt::Display for Refusal {
    fn fmt<W: fmt::Write>(&self, f: &mut fmt::Formatter<W>) -> fmt::Result {
        let text = match self {
            Refusal::TooLong => "a length is above its limit",
            Refusal::CutShort => "bytes end inside a field or block",
            Refusal::EmptyRun => "a run's end is not above its start",
            Refusal::RunOrder => "a run's start is not above the previous end",
            Refusal::ValueOrder => "an index value is not above the previous",
            Refusal::OddWords => "an odd number of words where pairs are due",
            Refusal::NoRow => "2^64 - 1 is not a row",
            Refusal::StepKind => "a step kind is outside 1 to 4",
            Refusal::OtherDirectory => "the directory is not the one of its data",
            Refusal::NoRoom =>
                "an output is shorter than needed, or a result is past its length limit",
            Refusal::MissingValue => "a step names a value that the index lacks",
        };
        f.write_str(text)
    }
}

impl Error for Refusal {}

// A refusal, or 0; and the length of the result, 0 where the call is refused.
#[repr(C)]
#[derive(Clone, Copy, Debug, PartialEq, Eq)]
pub struct Answer {
    pub refusal: u64,
    pub len: usize,
}

impl From<Result<usize, Refusal>> for Answer {
    ghost from_gives = { λ r a. a ≡ answer_of r };

    fn from(outcome: Result<usize, Refusal>) -> Answer {
        match outcome {
            Ok(len) => Answer { refusal: 0, len },
            Err(refusal) => Answer {
                refusal: refusal.number(),
                len: 0,
            },
        }
    }
}

// A refusal, or 0; and a number, 0 where the call is refused.
#[repr(C)]
#[derive(Clone, Copy, Debug, PartialEq, Eq)]
pub struct Number {
    pub refusal: u64,
    pub number: u64,
}

impl From<Result<u64, Refusal>> for Number {
    ghost from_gives = { λ r a. a ≡ number_of r };

    fn from(outcome: Result<u64, Refusal>) -> Number {
        match outcome {
            Ok(number) => Number { refusal: 0, number },
            Err(refusal) => Number {
                refusal: refusal.number(),
                number: 0,
            },
        }
    }
}

impl From<Result<Option<u64>, Refusal>> for Number {
    ghost from_gives = { λ r a. a ≡ word_number_of r };

    fn from(outcome: Result<Option<u64>, Refusal>) -> Number {
        Number::from(outcome.map(|found| found.unwrap_or(NONE)))
    }
}

impl From<Result<Option<usize>, Refusal>> for Number {
    ghost from_gives = { λ r a. a ≡ word_number_of r };

    fn from(outcome: Result<Option<usize>, Refusal>) -> Number {
        Number::from(outcome.map(|found| found.map(|place| place as u64)))
    }
}
