// The union of two blocks, by a loop of its own that has no branch on the words, also where the output has no room, as in measuring. By the general merge
// a merge of two indexes took 1.1 times as long, and 1.8 times where its result was measured first.
ghost use Rattle.std.specs.Prelude.{◌≡◌, ◌+◌, ◌%◌, ◌<◌, ◌^◌, length, map};
ghost use Rattle.fields.specs.Bytes.{from_le};
ghost use Rattle.boundary.specs.Merge.{combine, either};
ghost use Rattle.boundary.specs.Values.{odd_at};
ghost use Rattle.boundary.specs.Stores.{StoredWords, StoredBy, set_bytes};
ghost use Rattle.boundary.specs.Walk.{Moved};
ghost use Rattle.boundary.specs.Uniting.{BothLeft, ThreeLeft, HoldsNext, HeldOn};
ghost use Rattle.run_list.specs.Blocks.{block_words};

use crate::copy::copy_words;
use crate::output::Output;
use crate::reading::{count, word_at};
use boundary::{Cursor, Sweep, settle};
use run_list::block_words;

// The words of two blocks, and the blocks that they are read from: what is left of one when the other is used up is copied as bytes.
#[derive(Drop)]
struct Union<'a> {
    left: &'a [[u8; 8]],
    right: &'a [[u8; 8]],
    left_block: &'a [u8],
    right_block: &'a [u8],
    ghost words_left: { map from_le left.now ≡ block_words left_block.now },
    ghost words_right: { map from_le right.now ≡ block_words right_block.now },
    ghost few: { length (map from_le left.now) + length (map from_le right.now) < 2 ^ 62 },
    ghost even_left: { length (map from_le left.now) % 2 ≡ 0 },
    ghost even_right: { length (map from_le right.now) % 2 ≡ 0 },
}

// What the union says before the words at two indices: the rows before an odd index are in a run. By itself it is less code than by a truth table.
fn inside(i: usize, j: usize) -> bool
    ensures { result ≡ either (odd_at i) (odd_at j) }
{
    i % 2 == 1 || j % 2 == 1
}

// Writes x as the word k of a block, where it fits. By the tests of `room`, which do not change in a loop, the compiler would make a loop of its own for an
// output with no room, and in that load words in a branch.
fn put(out: &mut [u8], k: usize, x: u64)
    requires { k < 2 ^ 63 }
    ensures { out.new ≡ set_bytes out.old k x }
{
    if k + 1 < (out.len() + 4) / 8 {
        u8::set(out, k, x);
    }
}

// That each block has a word left at a cursor stands in the contracts: a cursor does not know its blocks, and one that lent them would carry them through each
// step of the loops.
impl Union<'_> {
    // One boundary. Its word is stored also where the union does not change there: the union then goes on past it, so that a later boundary is stored in
    // its place.
    fn unite(&self, at: Cursor, out: &mut [u8]) -> Cursor
        requires { BothLeft (map from_le self.now.left.now) (map from_le self.now.right.now) at }
        ensures { Moved set_bytes either (map from_le self.now.left.now) (map from_le self.now.right.now) at out.old result out.new }
    {
        let x = word_at(self.left, at.i);
        let y = word_at(self.right, at.j);
        let i = at.i + usize::from(x <= y);
        let j = at.j + usize::from(y <= x);
        let was = inside(i, j);
        let k = at.k + usize::from(at.was != was);
        put(out, at.k, x.min(y));
        Cursor { i, j, k, was }
    }

    // One boundary by the words that s holds. Which are the words after it is known at once; those loaded here are needed two boundaries later.
    fn unite_held(&self, s: Sweep, out: &mut [u8]) -> Sweep
        requires both_left { BothLeft (map from_le self.now.left.now) (map from_le self.now.right.now) s.at }
        requires three_left { ThreeLeft (map from_le self.now.left.now) (map from_le self.now.right.now) s.at }
        requires holds_next { HoldsNext (map from_le self.now.left.now) (map from_le self.now.right.now) s }
        ensures { HeldOn (map from_le self.now.left.now) (map from_le self.now.right.now) s out.old result out.new }
    {
        let i = s.at.i + usize::from(s.x <= s.y);
        let j = s.at.j + usize::from(s.y <= s.x);
        let was = inside(i, j);
        let k = s.at.k + usize::from(s.at.was != was);
        let x1 = word_at(self.left, i + 1);
        let y1 = word_at(self.right, j + 1);
        let r = settle(s, Cursor { i, j, k, was }, x1, y1);
        put(out, s.at.k, s.x.min(s.y));
        r
    }

    // The boundaries from two indices on while each block has three words left.
    fn unite_many(&self, at: Cursor, out: &mut [u8]) -> Cursor
        requires both_left { BothLeft (map from_le self.now.left.now) (map from_le self.now.right.now) at }
        requires three_left { ThreeLeft (map from_le self.now.left.now) (map from_le self.now.right.now) at }
        ensures { Moved set_bytes either (map from_le self.now.left.now) (map from_le self.now.right.now) at out.old result out.new }
    {
        let mut s = Sweep {
            at,
            last: 0,
            x: word_at(self.left, at.i),
            y: word_at(self.right, at.j),
            x1: word_at(self.left, at.i + 1),
            y1: word_at(self.right, at.j + 1),
        };
        let m = count(self.left) - 2;
        let n = count(self.right) - 2;
        // By what is left: a boundary takes a word of one block or of both.
        while s.at.i < m && s.at.j < n {
            s = self.unite_held(s, out);
        }
        s.at
    }

    // The boundaries while each block has three words left; else one.
    fn unite_some(&self, at: Cursor, out: &mut [u8]) -> Cursor
        requires { BothLeft (map from_le self.now.left.now) (map from_le self.now.right.now) at }
        ensures { Moved set_bytes either (map from_le self.now.left.now) (map from_le self.now.right.now) at out.old result out.new }
    {
        if at.i + 2 < count(self.left) && at.j + 2 < count(self.right) {
            return self.unite_many(at, out);
        }
        self.unite(at, out)
    }

    // Writes the union's boundaries as far as there is room, and returns their number. When a block is used up, the words that the other still has are the
    // boundaries that are left.
    fn write(&self, out: &mut [u8]) -> usize
        ensures { StoredBy set_bytes (combine either (map from_le self.now.left.now) (map from_le self.now.right.now)) out.old result out.new }
    {
        let m = count(self.left);
        let n = count(self.right);
        let mut at = Cursor {
            i: 0,
            j: 0,
            k: 0,
            was: inside(0, 0),
        };
        // By what is left, as above.
        while at.i < m && at.j < n {
            at = self.unite_some(at, out);
        }
        let k = copy_words(self.left_block, m, at.i, at.k, out);
        copy_words(self.right_block, n, at.j, k, out)
    }
}

// Writes the boundaries of the union of two blocks as the words of a third, as far as there is room, and returns their number.
pub fn union_blocks(left: &[u8], right: &[u8], out: &mut [u8]) -> usize
    ensures { StoredWords (combine either (block_words left.now) (block_words right.now)) out.old result out.new }
{
    Union {
        left: block_words(left),
        right: block_words(right),
        left_block: left,
        right_block: right,
    }
    .write(out)
}
