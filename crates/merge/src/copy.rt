// The words of a block copied to another.
ghost use Rattle.std.specs.Prelude.{◌≡◌, true, false, ◌+◌, ◌*◌, ◌≤◌, length, take, drop};
ghost use Rattle.std.proofs.lemmas.List.Edits.{sets};
ghost use Rattle.run_list.specs.Blocks.{block_words};
ghost use Rattle.boundary.specs.Stores.{set_bytes, Puts, Part};

use crate::output::Output;

// Writes the n words of a block from an index on as those of another from index k on.
fn copy_part(block: &[u8], from: usize, k: usize, n: usize, out: &mut [u8])
    requires n_in_bounds { 4 + 8 * from + 8 * n ≤ length block.now }
    requires n_in_bounds_2 { 4 + 8 * k + 8 * n ≤ length out.old }
    ensures { out.new ≡ sets out.old (4 + 8 * k) (take (8 * n) (drop (4 + 8 * from) block.now)) }
{
    let start = 4 + 8 * from;
    let end = start + 8 * n;
    let to = 4 + 8 * k;
    let upto = to + 8 * n;
    fields::copy_bytes(&block[start..end], &mut out[to..upto]);
}

// Writes the words of a block, which are count, from an index on as those of another from index k on, as far as there is room; returns the next index.
// Its contract is that of boundaries at each of which the state changes.
pub(crate) fn copy_words(block: &[u8], count: usize, from: usize, k: usize, out: &mut [u8]) -> usize
    requires count_value { count ≡ length (block_words block.now) }
    requires part { Part (block_words block.now) from count k }
    ensures { Puts set_bytes false true (drop from (block_words block.now)) k out.old result out.new }
{
    let n = count - from;
    let fit = n.min(u8::room(out).saturating_sub(k));
    if fit == 0 {
        return k + n;
    }
    copy_part(block, from, k, fit, out);
    k + n
}
