// Presence over packed bits: a set row's position is the number of set rows before it (the Rust's `presence` module).
#![tactic(auto)]

ghost use Rattle.std.specs.Prelude.{◌≡◌, ◌+◌, ◌/◌, length, IfOk};
ghost use Rattle.fields.specs.Refusal.{refusal_of};
ghost use Rattle.fields.specs.Answers.{answer_of, number_of};
ghost use Rattle.fields.specs.Directory.{other_directory};
ghost use Rattle.presence.specs.Present.{position, position_of, presence_directory, SetBits, PresentPosition, Directory, Positions};

use fields::{Lookup, NONE, Refusal, look_up_all};
use packed::{IndexedBits, PackedBits, bit_at, count_from, fill, is_directory};

// The words of a block of the directory.
const BLOCK_WORDS: usize = 1;

// The set bits below len.
pub fn count_set_bits(bits: &[u8], len: usize) -> Result<u64, Refusal>
    ensures { SetBits bits.now len (number_of result) }
{
    let packed = PackedBits::try_from(bits)?;
    Ok(count_from(packed.bytes, 0, len))
}

// The set bits before a row, counted from the start, if it is set.
fn position_in(bits: &[u8], row: usize) -> Option<u64>
    ensures { result ≡ position bits.now row }
{
    if bit_at(bits, row) {
        return Some(count_from(bits, 0, row));
    }
    None
}

// The position of a row, if it is set.
pub fn present_position(bits: &[u8], row: usize) -> Result<Option<u64>, Refusal>
    ensures { PresentPosition bits.now row result }
{
    let packed = PackedBits::try_from(bits)?;
    Ok(position_in(packed.bytes, row))
}

// The number of blocks that are begun.
fn blocks(bits: PackedBits<'_>) -> usize
    ensures { result ≡ (length bits.entry.bytes.now + 7) / 8 }
{
    (bits.bytes.len() + 7) / 8
}

// Builds the directory: the set bits before each begun block of 64.
pub fn new(bits: &[u8], out: &mut [u32]) -> Result<usize, Refusal>
    ensures { Directory bits.now out.old (answer_of result) out.new }
{
    let packed = PackedBits::try_from(bits)?;
    let n = blocks(packed);
    if out.len() < n {
        return Err(Refusal::NoRoom);
    }
    fill(packed, BLOCK_WORDS, n, out);
    Ok(n)
}

// Packed bits with their directory.
#[derive(Drop)]
struct Presence<'a> {
    indexed: IndexedBits<'a, u32, BLOCK_WORDS>,
}

impl<'a> Presence<'a> {
    // 9 for a directory that is not the one of the bits. Not by a constructor of `IndexedBits`, as in crate bit_rank.
    fn new(bits: PackedBits<'a>, directory: &'a [u32]) -> Result<Presence<'a>, Refusal>
        ensures judged { refusal_of result ≡ other_directory directory.entry.now (presence_directory bits.entry.bytes.now) }
        ensures ok { IfOk result (λ r. r.indexed.bits.bytes.now ≡ bits.entry.bytes.now) }
    {
        if !is_directory(bits, BLOCK_WORDS, blocks(bits), directory) {
            return Err(Refusal::OtherDirectory);
        }
        let indexed = IndexedBits { bits, directory };
        Ok(Presence { indexed })
    }

    // The position of a row, counted from the entry of its block, if it is set.
    fn position(&self, row: usize) -> Option<u64>
        ensures { result ≡ position self.now.indexed.bits.bytes.now row }
    {
        if bit_at(self.indexed.bits.bytes, row) {
            return Some(self.indexed.set_below(row));
        }
        None
    }
}

impl Lookup for Presence<'_> {
    ghost number = { λ p row. position_of p.indexed.bits.bytes.now row };

    fn look_up(&self, key: u64) -> u64 {
        self.position(key as usize).unwrap_or(NONE)
    }
}

// For each row its position, or none.
pub fn position(
    bits: &[u8],
    directory: &[u32],
    rows: &[u64],
    out: &mut [u64],
) -> Result<usize, Refusal>
    ensures { Positions bits.now directory.now rows.now out.old (answer_of result) out.new }
{
    let packed = PackedBits::try_from(bits)?;
    let presence = Presence::new(packed, directory)?;
    look_up_all(&presence, rows, out)
}
