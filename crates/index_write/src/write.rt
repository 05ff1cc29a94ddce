// Writing an index with exact lengths.
ghost use Rattle.std.specs.Prelude.{◌≡◌, ◌++◌, ◌+◌, ◌≤◌, length};
ghost use Rattle.std.proofs.lemmas.List.Edits.{sets};
ghost use Rattle.fields.specs.Answers.{StoredAt, answer_of};
ghost use Rattle.fields.specs.Bytes.{to_le};
ghost use Rattle.fields.specs.Limits.{max_bytes};
ghost use Rattle.index.specs.Inner.{EntriesFit};
ghost use Rattle.index_write.specs.Calls.{Encoded};
ghost use Rattle.index_write.specs.Inner.{bytes_from};

use fields::Refusal;
use index::BitmapIndex;

// Writes an entry at a place of the output: its value, the length of its block, and the block straight into its place.
fn write_entry(value: u64, block: &[u8], out: &mut [u8], to: usize)
    requires block_len_bound { length block.now ≤ max_bytes }
    requires to_in_bounds { to + 12 + length block.now ≤ length out.old }
    ensures { out.new ≡ sets out.old to (to_le 8 value ++ (to_le 4 (length block.now) ++ block.now)) }
{
    let from = to + 12;
    let upto = from + block.len();
    fields::put_u64(out, to, value);
    fields::put_u32(out, to + 8, block.len() as u32);
    fields::copy_bytes(block, &mut out[from..upto]);
}

// Writes n entries from a place of an index on to a place of the output, their ignored bytes left out, their lengths exact; returns the place after
// them. By places and not by a cursor over entries: what is read of a head is written anew, and the place in the output is what it gives.
pub(crate) fn copy_entries(
    index: &[u8],
    start: usize,
    n: usize,
    out: &mut [u8],
    first: usize,
) -> usize
    requires entries_fit { EntriesFit index.now start n }
    requires n_in_bounds { first + length (bytes_from index.now start n) ≤ length out.old }
    ensures { StoredAt (bytes_from index.now start n) out.old first result out.new }
{
    let mut at = start;
    let mut to = first;
    for _ in 0..n {
        let start = at + 12;
        let upto = at + 16;
        let head = &index[at..upto];
        let end = upto + 16 * fields::u32_at(head, 12) as usize;
        write_entry(fields::load_word(head), &index[start..end], out, to);
        to = to + (end - at);
        at = start + fields::u32_at(head, 8) as usize;
    }
    to
}

// Writes an index that was read: its ignored bytes cut, its lengths made exact. One as long as what is written has nothing to cut, and is copied at once.
pub fn encode(index: &[u8], out: &mut [u8]) -> Result<usize, Refusal>
    ensures { Encoded index.now out.old (answer_of result) out.new }
{
    let read = BitmapIndex::try_from(index)?;
    let n = read.written_len();
    if out.len() < n {
        return Err(Refusal::NoRoom);
    }
    if n == index.len() {
        fields::copy_bytes(index, out);
        return Ok(n);
    }
    let count = fields::u32_at(index, 0);
    fields::put_u32(out, 0, count);
    copy_entries(index, 4, count as usize, out, 4);
    Ok(n)
}
