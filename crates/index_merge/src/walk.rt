// The walk over the entries of two indexes.
ghost use Rattle.std.specs.Prelude.{◌≡◌};
ghost use Rattle.index.specs.Index.{entries};
ghost use Rattle.index_merge.specs.Calls.{merged};
ghost use Rattle.index_merge.specs.Inner.{WrittenIndex};

use crate::entries::Entries;
use crate::write::write_union;
use boundary::least_word;
use index::BitmapIndex;

// Writes the entries of both indexes, merged, and then their number in front of them, where all of it fits; returns its length. Each is that of the least
// value that is left, with the rows that either index lists under it.
pub(crate) fn merge_entries(
    first: BitmapIndex<'_>,
    second: BitmapIndex<'_>,
    out: &mut [u8],
) -> usize
    ensures { WrittenIndex (merged (entries first.entry.bytes.now) (entries second.entry.bytes.now)) out.old result out.new }
{
    let mut first = Entries::of(first);
    let mut second = Entries::of(second);
    let mut count: usize = 0;
    let mut to = 4;
    // Each turn takes an entry of one index or of both.
    while let Some(value) = least_word(first.value(), second.value()) {
        let left = first.take(value);
        let right = second.take(value);
        to = write_union(value, left, right, out, to);
        count += 1;
    }
    fields::put_u32(out, 0, count as u32);
    to
}
