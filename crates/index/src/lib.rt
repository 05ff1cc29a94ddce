// A bitmap index in its bytes: reading and lookup.
#![tactic(auto)]

mod bitmap_index;
mod lookup;
mod read;
mod words;

ghost use Rattle.std.specs.Prelude.{◌≡◌};
ghost use Rattle.index.specs.Calls.{read_of, part_of};

pub use bitmap_index::BitmapIndex;
use fields::Refusal;
pub use lookup::{bitmap, bitmap_at, seek};
pub use read::decode;

// An index has at most 4,294,967,295 bytes.
pub const MAX_INDEX: usize = 4294967295;

// The counts of an index.
#[derive(Clone, Copy, Debug, PartialEq, Eq)]
pub struct Counts {
    pub entries: usize,
    pub runs: usize,
}

// A refusal, or 0; and the counts of an index, 0 where it is refused. So the answer crosses to C.
#[repr(C)]
#[derive(Clone, Copy, Debug, PartialEq, Eq)]
pub struct IndexRead {
    pub refusal: u64,
    pub entries: u64,
    pub runs: u64,
}

impl From<Result<Counts, Refusal>> for IndexRead {
    ghost from_gives = { λ r a. a ≡ read_of r };

    fn from(outcome: Result<Counts, Refusal>) -> IndexRead {
        match outcome {
            Ok(counts) => IndexRead {
                refusal: 0,
                entries: counts.entries as u64,
                runs: counts.runs as u64,
            },
            Err(refusal) => IndexRead {
                refusal: refusal.number(),
                entries: 0,
                runs: 0,
            },
        }
    }
}

// A part of lent bytes: its place and its length.
#[repr(C)]
#[derive(Clone, Copy, Debug, PartialEq, Eq)]
pub struct Part {
    pub at: usize,
    pub len: usize,
}

// The part where there is one, else one of no bytes at 0. So it crosses to C.
impl From<Option<Part>> for Part {
    ghost from_gives = { λ r a. a ≡ part_of r };

    fn from(part: Option<Part>) -> Part {
        part.unwrap_or(Part { at: 0, len: 0 })
    }
}

// Where the entry of a value is, or would be inserted: the number of entries before it, its place, and whether it is there. The first two are of use also
// where it is not, so they are in no `Option`.
#[derive(Clone, Copy, Debug, PartialEq, Eq)]
pub struct Place {
    pub below: usize,
    pub at: usize,
    pub known: bool,
}
