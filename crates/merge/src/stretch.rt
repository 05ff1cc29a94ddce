// Stretches: words of one list before the next word of the other, or words that both share, taken at once.
ghost use Rattle.std.specs.Prelude.{◌≡◌, true, false, ◌+◌, ◌≤◌, length, Some};
ghost use Rattle.std.proofs.Math.Seq.{slice};
ghost use Rattle.boundary.specs.Merge.{op_of};
ghost use Rattle.boundary.specs.Stores.{Puts, Part};
ghost use Rattle.boundary.specs.Walk.{FourBelow, FourSame, Below, Same, Ahead, PassedLeft, PassedRight, PassedBoth};

use crate::merging::Merge;
use crate::output::Output;
use crate::reading::{count, word_at};
use boundary::Cursor;
use fields::Word;

// Whether four words come before another.
fn four_below<A: Word>(words: &[A], i: usize, bound: u64) -> bool
    requires { i + 4 ≤ length (A.words words.now) }
    ensures { result ≡ true → FourBelow (A.words words.now) i bound }
{
    word_at(words, i) < bound
        && word_at(words, i + 1) < bound
        && word_at(words, i + 2) < bound
        && word_at(words, i + 3) < bound
}

// The words of a stretch by fours, as far as all four come before the bound: one taken branch for four words.
fn below_fours<A: Word>(words: &[A], from: usize, bound: u64) -> usize
    requires { from ≤ length (A.words words.now) }
    ensures { Below (A.words words.now) from (Some bound) result }
{
    let mut i = from;
    // By index, which is what it gives: four words at once.
    while 4 <= count(words) - i && four_below(words, i, bound) {
        i += 4;
    }
    i
}

// The end of a stretch: the first index, from one on, whose word does not come before a word that may be missing. Each word is compared, so that the
// list need not rise.
fn below<A: Word>(words: &[A], from: usize, bound: Option<u64>) -> usize
    requires { from ≤ length (A.words words.now) }
    ensures { Below (A.words words.now) from bound result }
{
    let Some(bound) = bound else {
        return count(words);
    };
    // By index, likewise.
    for i in below_fours(words, from, bound)..count(words) {
        if bound <= word_at(words, i) {
            return i;
        }
    }
    count(words)
}

// Writes the words between two indices from k on, as far as there is room; returns the next place. The output and the place in it are apart, since the place is
// what each of these functions gives.
fn store<A: Word, C: Output>(out: &mut [C], k: usize, words: &[A], from: usize, to: usize) -> usize
    requires { Part (A.words words.now) from to k }
    ensures { Puts C.store false true (slice from to (A.words words.now)) k (C.cells out.old) result (C.cells out.new) }
{
    let n = to - from;
    let most = n.min(C::room(out).saturating_sub(k));
    for i in 0..most {
        C::set(out, k + i, word_at(words, from + i));
    }
    k + n
}

// The same if the states before and after differ; each of them is data, and chooses nothing by itself.
fn copy<A: Word, C: Output>(
    out: &mut [C],
    k: usize,
    words: &[A],
    from: usize,
    to: usize,
    before: bool,
    after: bool,
) -> usize
    requires { Part (A.words words.now) from to k }
    ensures { Puts C.store before after (slice from to (A.words words.now)) k (C.cells out.old) result (C.cells out.new) }
{
    if before == after {
        return k;
    }
    store(out, k, words, from, to)
}

impl<A: Word, B: Word> Merge<'_, A, B> {
    // Whether four words of one list are those of the other.
    fn four_same(&self, i: usize, j: usize) -> bool
        requires i_in_bounds { i + 4 ≤ length (A.words self.now.left.now) }
        requires j_in_bounds { j + 4 ≤ length (B.words self.now.right.now) }
        ensures { result ≡ true → FourSame (A.words self.now.left.now) (B.words self.now.right.now) i j }
    {
        word_at(self.left, i) == word_at(self.right, j)
            && word_at(self.left, i + 1) == word_at(self.right, j + 1)
            && word_at(self.left, i + 2) == word_at(self.right, j + 2)
            && word_at(self.left, i + 3) == word_at(self.right, j + 3)
    }

    // The words that the lists share from two indices on, of the most that there can be, by fours.
    fn shared_fours(&self, i: usize, j: usize, most: usize) -> usize
        requires most_in_bounds { i + most ≤ length (A.words self.now.left.now) }
        requires most_in_bounds_2 { j + most ≤ length (B.words self.now.right.now) }
        ensures { Same (A.words self.now.left.now) (B.words self.now.right.now) i j result }
    {
        let mut n = 0;
        // By index, as above.
        while 4 <= most - n && self.four_same(i + n, j + n) {
            n += 4;
        }
        n
    }

    // How many words the lists share from two indices on.
    fn shared(&self, i: usize, j: usize) -> usize
        requires i_in_bounds { i ≤ length (A.words self.now.left.now) }
        requires j_in_bounds { j ≤ length (B.words self.now.right.now) }
        ensures { Same (A.words self.now.left.now) (B.words self.now.right.now) i j result }
    {
        let most = (count(self.left) - i).min(count(self.right) - j);
        for n in self.shared_fours(i, j, most)..most {
            if word_at(self.left, i + n) != word_at(self.right, j + n) {
                return n;
            }
        }
        most
    }

    // A stretch of the left list, before the next word of the right one. On it the operation changes at each word or at none.
    pub(crate) fn pass_left<C: Output>(&self, g: Option<u64>, at: Cursor, out: &mut [C]) -> Cursor
        requires { Ahead (A.words self.now.left.now) at.i at.k }
        ensures { PassedLeft C.store (op_of self.now.op.table) (A.words self.now.left.now) g at (C.cells out.old) result (C.cells out.new) }
    {
        let i = below(self.left, at.i + 1, g);
        let after = self.op.state(at.i + 1, at.j);
        let k = copy(out, at.k, self.left, at.i, i, at.was, after);
        let was = self.op.state(i, at.j);
        Cursor { i, j: at.j, k, was }
    }

    // A stretch of the right list.
    pub(crate) fn pass_right<C: Output>(&self, f: Option<u64>, at: Cursor, out: &mut [C]) -> Cursor
        requires { Ahead (B.words self.now.right.now) at.j at.k }
        ensures { PassedRight C.store (op_of self.now.op.table) (B.words self.now.right.now) f at (C.cells out.old) result (C.cells out.new) }
    {
        let j = below(self.right, at.j + 1, f);
        let after = self.op.state(at.i, at.j + 1);
        let k = copy(out, at.k, self.right, at.j, j, at.was, after);
        let was = self.op.state(at.i, j);
        Cursor { i: at.i, j, k, was }
    }

    // A boundary of both lists, and the words after it that they share.
    pub(crate) fn pass_both<C: Output>(&self, at: Cursor, out: &mut [C]) -> Cursor
        requires ahead { Ahead (A.words self.now.left.now) at.i at.k }
        requires ahead_2 { Ahead (B.words self.now.right.now) at.j at.k }
        ensures { PassedBoth C.store (op_of self.now.op.table) (A.words self.now.left.now) (B.words self.now.right.now) at (C.cells out.old) result (C.cells out.new) }
    {
        let n = 1 + self.shared(at.i + 1, at.j + 1);
        let i = at.i + n;
        let j = at.j + n;
        let after = self.op.state(at.i + 1, at.j + 1);
        let k = copy(out, at.k, self.left, at.i, i, at.was, after);
        let was = self.op.state(i, j);
        Cursor { i, j, k, was }
    }
}
