// A boundary taken without a branch on the words, for lists whose words are mixed.
ghost use Rattle.std.specs.Prelude.{◌≡◌, cond, leb};
ghost use Rattle.boundary.specs.Values.{no_stretch};
ghost use Rattle.boundary.specs.Walk.{Settled, sixteen_left};

use crate::{Cursor, Sweep};

// The word after x where x is passed, which is where it is at most y; else x. Compiled to a conditional move.
fn after(x: u64, y: u64, next: u64) -> u64
    ensures { result ≡ cond (leb x y) next x }
{
    if x <= y { next } else { x }
}

// A sweep one boundary further, with x1 and y1 the words after those at its indices. Its caller stores the last word, which is a new one where the states
// differ.
pub fn settle(s: Sweep, at: Cursor, x1: u64, y1: u64) -> Sweep
    ensures { Settled s at x1 y1 result }
{
    let least = s.x.min(s.y);
    Sweep {
        at,
        last: if s.at.was == at.was { s.last } else { least },
        x: after(s.x, s.y, s.x1),
        y: after(s.y, s.x, s.y1),
        x1,
        y1,
    }
}

// Whether lists of left and right words have words for sixteen boundaries and the two after them, and an output of len words has room for theirs.
#[tactic(auto, unfolding(crate::specs::Walk::sixteen_left))]
pub fn sixteen_left(at: Cursor, left: usize, right: usize, len: usize) -> bool
    ensures { result ≡ sixteen_left left right at len }
{
    18 <= left.saturating_sub(at.i)
        && 18 <= right.saturating_sub(at.j)
        && 16 <= len.saturating_sub(at.k)
}

// Whether no stretch of sixteen words is in sight, of one list or of both, by the second and the last of the next sixteen words of each.
#[tactic(auto, unfolding(crate::specs::Values::no_stretch))]
pub fn no_stretch(x1: u64, x15: u64, y1: u64, y15: u64) -> bool
    ensures { result ≡ no_stretch x1 x15 y1 y15 }
{
    y1 <= x15 && x1 <= y15 && x15 != y15
}
