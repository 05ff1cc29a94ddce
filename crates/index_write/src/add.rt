// Inserting runs under a value.
ghost use Rattle.std.specs.Prelude.{◌≡◌, ◌+◌, ◌-◌, ◌*◌, ◌≤◌, length};
ghost use Rattle.std.proofs.lemmas.List.Edits.{sets};
ghost use Rattle.fields.specs.Answers.{StoredAt, answer_of};
ghost use Rattle.fields.specs.Limits.{max_words, max_bytes};
ghost use Rattle.boundary.specs.Merge.{combine, either};
ghost use Rattle.run_list.specs.Blocks.{block_words};
ghost use Rattle.index.specs.Index.{entries, entry, entry_bytes, index_bytes};
ghost use Rattle.index_write.specs.Calls.{inserted, Inserted};
ghost use Rattle.index_write.specs.Inner.{Fitting, Fitted, joined, inserted_at, InsertsAt};

use crate::InsertionPoint;
use crate::write::copy_entries;
use bitmap::RunList;
use fields::Refusal;
use index::{BitmapIndex, MAX_INDEX, Place, seek};

// The insertion point of a value in an index.
fn insertion_point(index: BitmapIndex<'_>, value: u64) -> InsertionPoint
    ensures { InsertsAt index.entry.bytes.now value result }
{
    let bytes = index.bytes;
    let count = index.counts.entries;
    let Place { below, at, known } = seek(bytes, value);
    if known {
        let from = at + 12;
        return InsertionPoint {
            below,
            from,
            next: from + fields::u32_at(bytes, at + 8) as usize,
            rest: count - below - 1,
            old: 16 + 16 * fields::u32_at(bytes, from) as usize,
        };
    }
    InsertionPoint {
        below,
        from: at,
        next: at,
        rest: count - below,
        old: 0,
    }
}

// The words of the union of runs with those of a block.
fn union_words(runs: &[u64], block: &[u8]) -> usize
    ensures { result ≡ length (combine either runs.now (block_words block.now)) }
{
    let mut none = [0u64; 1];
    bitmap::merge_block(runs, block, bitmap::UNION, &mut none)
}

// The bytes of an index that had size bytes, with an entry of that many words in place of one that had old bytes.
fn grown(size: usize, old: usize, words: usize) -> usize
    requires le_size { old ≤ size }
    requires size_le_max_bytes { size ≤ max_bytes }
    requires words_bound { words ≤ 1073741820 }
    ensures { result ≡ size + (16 + 8 * words) - old }
{
    let bytes = 16 + 8 * words;
    size + bytes - old
}

// Writes the entry of a value at a place: the union of runs with those of a block, straight into its place. Returns the place after it.
fn write_union(
    value: u64,
    runs: &[u64],
    block: &[u8],
    words: usize,
    out: &mut [u8],
    to: usize,
) -> usize
    requires words_value { words ≡ length (combine either runs.now (block_words block.now)) }
    requires words_le_max_words { words ≤ max_words }
    requires words_in_bounds { to + 16 + 8 * words ≤ length out.old }
    ensures { StoredAt (entry_bytes (entry value (combine either runs.now (block_words block.now)))) out.old to result out.new }
{
    let len = 4 + 8 * words;
    let from = to + 12;
    let upto = from + len;
    fields::put_u64(out, to, value);
    fields::put_u32(out, to + 8, len as u32);
    bitmap::merge_to_block(runs, block, bitmap::UNION, &mut out[from..upto]);
    upto
}

// Writes an index with runs inserted under the value at its insertion point, where it fits.
fn write_inserted(
    index: &[u8],
    point: InsertionPoint,
    value: u64,
    runs: &[u64],
    words: usize,
    out: &mut [u8],
)
    requires inserts_at { InsertsAt index.now value point }
    requires words_value { words ≡ length (joined runs.now index.now point.from point.next) }
    requires fitting { Fitting (inserted_at index.now value runs.now point) out.old }
    ensures { out.new ≡ sets out.old 0 (index_bytes (inserted_at index.now value runs.now point)) }
{
    let InsertionPoint {
        below,
        from,
        next,
        rest,
        ..
    } = point;
    fields::put_u32(out, 0, (below + 1 + rest) as u32);
    let to = copy_entries(index, 4, below, out, 4);
    let end = write_union(value, runs, &index[from..next], words, out, to);
    copy_entries(index, next, rest, out, end);
}

// Inserts runs into an index.
fn insert_right(
    index: BitmapIndex<'_>,
    value: u64,
    runs: RunList<'_>,
    out: &mut [u8],
) -> Result<usize, Refusal>
    ensures { Fitted (index_bytes (inserted value runs.entry.words.now (entries index.entry.bytes.now))) out.old (answer_of result) out.new }
{
    let bytes = index.bytes;
    let point = insertion_point(index, value);
    let words = union_words(runs.words, &bytes[point.from..point.next]);
    let n = grown(index.written_len(), point.old, words);
    fields::check_room(n, out.len(), MAX_INDEX)?;
    write_inserted(bytes, point, value, runs.words, words, out);
    Ok(n)
}

// Inserts runs under a value and writes the new index: a known value gets the union, a new one an entry, even with no runs. Both lengths are judged first:
// above their limits they are refused by the same number.
pub fn insert(index: &[u8], value: u64, runs: &[u64], out: &mut [u8]) -> Result<usize, Refusal>
    ensures { Inserted index.now value runs.now out.old (answer_of result) out.new }
{
    if bitmap::MAX_WORDS < runs.len() {
        return Err(Refusal::TooLong);
    }
    let index = BitmapIndex::try_from(index)?;
    let runs = RunList::try_from(runs)?;
    insert_right(index, value, runs, out)
}
