// Sixteen boundaries with no branch on the words, where the words of the lists are mixed: which list comes next cannot be foreseen there.
ghost use Rattle.std.specs.Prelude.{◌≡◌, true, length};
ghost use Rattle.boundary.specs.Merge.{op_of};
ghost use Rattle.boundary.specs.Walk.{Between, Moved, Holds, RoomForOne, MoreWords, Swept, SixteenLeft, Held};

use crate::merging::Merge;
use crate::output::Output;
use crate::reading::{count, word_at};
use boundary::{Cursor, Sweep, no_stretch, settle, sixteen_left};
use fields::Word;

impl<A: Word, B: Word> Merge<'_, A, B> {
    // The words at the indices and after them.
    fn hold<C: Output>(&self, at: Cursor, out: &[C]) -> Sweep
        requires { SixteenLeft (length (A.words self.now.left.now)) (length (B.words self.now.right.now)) at (C.room (length (C.cells out.now))) }
        ensures { Held C.store (A.words self.now.left.now) (B.words self.now.right.now) at (C.cells out.now) result }
    {
        Sweep {
            at,
            last: C::get(out, at.k.saturating_sub(1)),
            x: word_at(self.left, at.i),
            y: word_at(self.right, at.j),
            x1: word_at(self.left, at.i + 1),
            y1: word_at(self.right, at.j + 1),
        }
    }

    // One boundary. Where the operation does not change there, the last word is stored again in its place. The words after the indices are loaded
    // before the store: else the compiler loads them in a branch.
    fn step<C: Output>(&self, s: Sweep, out: &mut [C]) -> Sweep
        requires holds { Holds C.store (A.words self.now.left.now) (B.words self.now.right.now) s (C.cells out.old) }
        requires more_words { MoreWords (length (A.words self.now.left.now)) (length (B.words self.now.right.now)) s }
        requires room_for_one { RoomForOne s (C.room (length (C.cells out.old))) }
        ensures { Swept C.store (op_of self.now.op.table) (A.words self.now.left.now) (B.words self.now.right.now) s (C.cells out.old) result (C.cells out.new) }
    {
        let i = s.at.i + usize::from(s.x <= s.y);
        let j = s.at.j + usize::from(s.y <= s.x);
        let was = self.op.state(i, j);
        let k = s.at.k + usize::from(s.at.was != was);
        let x1 = word_at(self.left, i + 1);
        let y1 = word_at(self.right, j + 1);
        let r = settle(s, Cursor { i, j, k, was }, x1, y1);
        C::set(out, k.saturating_sub(1), r.last);
        r
    }

    // Sixteen boundaries: enough that looking for stretches between them costs little.
    pub(crate) fn sweep<C: Output>(&self, at: Cursor, out: &mut [C]) -> Cursor
        requires between { Between (op_of self.now.op.table) (A.words self.now.left.now) (B.words self.now.right.now) at }
        requires sixteen_left { SixteenLeft (length (A.words self.now.left.now)) (length (B.words self.now.right.now)) at (C.room (length (C.cells out.old))) }
        ensures { Moved C.store (op_of self.now.op.table) (A.words self.now.left.now) (B.words self.now.right.now) at (C.cells out.old) result (C.cells out.new) }
    {
        let mut s = self.hold(at, out);
        for _n in 0..16usize {
            s = self.step(s, out);
        }
        s.at
    }

    // Whether no stretch is in sight.
    fn no_stretch_ahead(&self, at: Cursor, room: usize) -> bool
        requires { SixteenLeft (length (A.words self.now.left.now)) (length (B.words self.now.right.now)) at room }
    {
        no_stretch(
            word_at(self.left, at.i + 1),
            word_at(self.left, at.i + 15),
            word_at(self.right, at.j + 1),
            word_at(self.right, at.j + 15),
        )
    }

    // Whether the next sixteen boundaries are to be taken without branches.
    pub(crate) fn mixed(&self, at: Cursor, room: usize) -> bool
        ensures { result ≡ true → SixteenLeft (length (A.words self.now.left.now)) (length (B.words self.now.right.now)) at room }
    {
        sixteen_left(at, count(self.left), count(self.right), room)
            && self.no_stretch_ahead(at, room)
    }
}
