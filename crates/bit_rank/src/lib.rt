// Ranks over packed bits, with a directory of the set bits before each block of 512 (the Rust's `BitRankDirectory`).
#![tactic(auto)]

mod ranks;

ghost use Rattle.std.specs.Prelude.{◌≡◌, ◌/◌, ◌≤◌, length};
ghost use Rattle.std.proofs.lemmas.List.Edits.{sets};
ghost use Rattle.fields.specs.Answers.{answer_of, number_of};
ghost use Rattle.bit_rank.specs.BitRanks.{bit_ranges, Directory, Ranks, Ranges, Total};

use fields::{Refusal, look_up_all};
use packed::{PackedBits, cut_to, fill};
pub use ranks::BitRanks;
use ranks::blocks;

// The words of a block of the directory: 512 bits.
pub const RANK_SUPERBLOCK_WORDS: usize = 8;

// Builds the directory of bits up to len.
pub fn new(bits: &[u8], len: usize, out: &mut [u64]) -> Result<usize, Refusal>
    ensures { Directory bits.now len out.old (answer_of result) out.new }
{
    let packed = PackedBits::try_from(bits)?;
    let n = blocks(cut_to(bits, len));
    if out.len() < n {
        return Err(Refusal::NoRoom);
    }
    fill(packed, RANK_SUPERBLOCK_WORDS, n, out);
    Ok(n)
}

// For each position, the set bits before it and before len.
pub fn rank(
    bits: &[u8],
    len: usize,
    directory: &[u64],
    positions: &[u64],
    out: &mut [u64],
) -> Result<usize, Refusal>
    ensures { Ranks bits.now len directory.now positions.now out.old (answer_of result) out.new }
{
    let packed = PackedBits::try_from(bits)?;
    let ranks = BitRanks::new(packed, cut_to(bits, len), directory)?;
    look_up_all(&ranks, positions, out)
}

// Writes the count of each range. Not by `look_up_all`: its keys are pairs, and the definition is of the words that they stand in.
fn put_ranges(ranks: &BitRanks<'_>, pairs: &[u64], out: &mut [u64])
    requires { length pairs.now / 2 ≤ length out.old }
    ensures { out.new ≡ sets out.old 0 (bit_ranges ranks.now.indexed.bits.bytes.now ranks.now.end pairs.now) }
{
    let (ranges, _) = pairs.as_chunks::<2>();
    for (i, [start, end]) in ranges.iter().enumerate() {
        out[i] = ranks.count_range(*start, *end);
    }
}

// For each pair of a start and an end, the set bits from the one up to the other and before len.
pub fn count_range(
    bits: &[u8],
    len: usize,
    directory: &[u64],
    pairs: &[u64],
    out: &mut [u64],
) -> Result<usize, Refusal>
    ensures { Ranges bits.now len directory.now pairs.now out.old (answer_of result) out.new }
{
    let packed = PackedBits::try_from(bits)?;
    if pairs.len() % 2 == 1 {
        return Err(Refusal::OddWords);
    }
    let ranks = BitRanks::new(packed, cut_to(bits, len), directory)?;
    let n = pairs.len() / 2;
    if out.len() < n {
        return Err(Refusal::NoRoom);
    }
    put_ranges(&ranks, pairs, out);
    Ok(n)
}

// The set bits before len.
pub fn total(bits: &[u8], len: usize, directory: &[u64]) -> Result<u64, Refusal>
    ensures { Total bits.now len directory.now (number_of result) }
{
    let packed = PackedBits::try_from(bits)?;
    let end = cut_to(bits, len);
    let ranks = BitRanks::new(packed, end, directory)?;
    Ok(ranks.rank(end as u64))
}
