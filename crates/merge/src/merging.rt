// A merge of two lists.
ghost use Rattle.std.specs.Prelude.{◌+◌, ◌<◌, ◌^◌, length};

use crate::output::Output;
use crate::reading::{count, front_at};
use boundary::{Cursor, Operation, leads};
use fields::Word;

#[derive(Drop)]
pub(crate) struct Merge<'a, A: Word, B: Word> {
    pub(crate) left: &'a [A],
    pub(crate) right: &'a [B],
    pub(crate) op: Operation,
    ghost few: { length (A.words left.now) + length (B.words right.now) < 2 ^ 62 },
}

impl<A: Word, B: Word> Merge<'_, A, B> {
    ghost use Rattle.boundary.specs.Merge.{combine, op_of};
    ghost use Rattle.boundary.specs.Stores.{StoredBy};
    ghost use Rattle.boundary.specs.Walk.{Between, Moved};

    // Sixteen boundaries where the lists are mixed; else a stretch of the list whose word comes next, or of both.
    fn advance<C: Output>(&self, at: Cursor, out: &mut [C]) -> Cursor
        requires { Between (op_of self.now.op.table) (A.words self.now.left.now) (B.words self.now.right.now) at }
        ensures { Moved C.store (op_of self.now.op.table) (A.words self.now.left.now) (B.words self.now.right.now) at (C.cells out.old) result (C.cells out.new) }
    {
        if self.mixed(at, C::room(out)) {
            return self.sweep(at, out);
        }
        let f = front_at(self.left, at.i);
        let g = front_at(self.right, at.j);
        if leads(f, g) {
            return self.pass_left(g, at, out);
        }
        if leads(g, f) {
            return self.pass_right(f, at, out);
        }
        self.pass_both(at, out)
    }

    // Writes the combination's boundaries as far as there is room, and returns their number.
    pub(crate) fn write<C: Output>(&self, out: &mut [C]) -> usize
        ensures { StoredBy C.store (combine (op_of self.now.op.table) (A.words self.now.left.now) (B.words self.now.right.now)) (C.cells out.old) result (C.cells out.new) }
    {
        let total = count(self.left) + count(self.right);
        let mut at = Cursor {
            i: 0,
            j: 0,
            k: 0,
            was: self.op.state(0, 0),
        };
        // By what is left: a turn takes as many words of either list as it can.
        while at.i + at.j < total {
            at = self.advance(at, out);
        }
        at.k
    }
}
