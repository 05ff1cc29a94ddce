// One boundary of a merge: the lesser of two words that may be missing, what the operation says on both sides of it, and the words held past it. The
// laws of the merges are here too. No function asks anything of its caller.
#![tactic(auto)]

mod branchless;
mod table;

ghost use Rattle.std.specs.Prelude.{◌≡◌};
ghost use Rattle.boundary.specs.Values.{lesser_word, alone};

pub use branchless::{no_stretch, settle, sixteen_left};
pub use table::{DIFFERENCE, INTERSECT, Operation, RIGHT, UNION};

// A merge between two boundaries: the indices in its lists, the words written so far, and what the operation says there.
#[derive(Clone, Copy)]
pub struct Cursor {
    pub i: usize,
    pub j: usize,
    pub k: usize,
    pub was: bool,
}

// A cursor with the last word written and the next two words of each list, held so that a boundary need not wait for its own loads.
#[derive(Clone, Copy)]
pub struct Sweep {
    pub at: Cursor,
    pub last: u64,
    pub x: u64,
    pub y: u64,
    pub x1: u64,
    pub y1: u64,
}

// The lesser of two words that may be missing, if there is one.
pub fn least_word(a: Option<u64>, b: Option<u64>) -> Option<u64>
    ensures { result ≡ lesser_word a b }
{
    match (a, b) {
        (Some(x), Some(y)) => Some(x.min(y)),
        _ => a.or(b),
    }
}

// Whether the first of two words that may be missing comes alone: the other is missing or greater.
pub fn leads(a: Option<u64>, b: Option<u64>) -> bool
    ensures { result ≡ alone a b }
{
    match (a, b) {
        (Some(x), Some(y)) => x < y,
        (Some(_), None) => true,
        (None, _) => false,
    }
}
