// Writing an entry whose block is the union of two blocks.
ghost use Rattle.std.specs.Prelude.{◌≡◌, ◌+◌, ◌*◌, ◌≤◌, length};
ghost use Rattle.fields.specs.Limits.{max_bytes};
ghost use Rattle.boundary.specs.Merge.{combine, either};
ghost use Rattle.run_list.specs.Blocks.{block_words};
ghost use Rattle.index.specs.Index.{entry, entry_bytes};
ghost use Rattle.index_merge.specs.Inner.{WrittenAt, HeadStored};

use bitmap::union_to_block;
use index::MAX_INDEX;

// Writes the head of an entry at a place: its value and the length of its block, which has that many words.
fn write_head(value: u64, words: usize, out: &mut [u8], to: usize)
    requires { to + 16 + 8 * words ≤ max_bytes }
    ensures { HeadStored value words out.old to out.new }
{
    fields::put_u64(out, to, value);
    fields::put_u32(out, to + 8, (4 + 8 * words) as u32);
}

// The place after an entry at a place whose block has that many words.
fn entry_end(to: usize, words: usize) -> usize
    requires to_bound { to ≤ 2 * max_bytes }
    requires words_bound { words ≤ 2147483640 }
    ensures { result ≡ to + 16 + 8 * words }
{
    to + 16 + 8 * words
}

// Writes the entry of a value at a place, where it fits: the union of two blocks straight into its place, then the head in front of it, since the union's
// length is known only then. Returns the place after it.
pub(crate) fn write_union(value: u64, left: &[u8], right: &[u8], out: &mut [u8], to: usize) -> usize
    requires left_len_bound { length left.now ≤ max_bytes }
    requires right_len_bound { length right.now ≤ max_bytes }
    requires to_bound { to ≤ 2 * max_bytes }
    ensures { WrittenAt (entry_bytes (entry value (combine either (block_words left.now) (block_words right.now)))) out.old to result out.new }
{
    let end = out.len();
    let from = (to + 12).min(end);
    let words = union_to_block(left, right, &mut out[from..end]);
    let next = entry_end(to, words);
    if fields::check_room(next, end, MAX_INDEX).is_ok() {
        write_head(value, words, out, to);
    }
    next
}
