// Packed bits with their directory, up to a length.
ghost use Rattle.std.specs.Prelude.{◌≡◌, ◌+◌, ◌/◌, ◌^◌, ◌<◌, length, IfOk};
ghost use Rattle.fields.specs.Refusal.{refusal_of};
ghost use Rattle.fields.specs.Directory.{other_directory};
ghost use Rattle.bit_rank.specs.BitRanks.{bit_directory, bit_rank, bit_range};

use crate::RANK_SUPERBLOCK_WORDS;
use fields::{Lookup, Refusal};
use packed::{IndexedBits, PackedBits, count_from, is_directory};

// The number of blocks that begin up to a length.
pub(crate) fn blocks(end: usize) -> usize
    ensures { result ≡ end / 512 + 1 }
{
    end / 64 / RANK_SUPERBLOCK_WORDS + 1
}

#[derive(Drop)]
pub struct BitRanks<'a> {
    pub indexed: IndexedBits<'a, u64, RANK_SUPERBLOCK_WORDS>,
    pub end: usize,
    pub ghost blocks: { length indexed.directory.now ≡ end / 512 + 1 },
    pub ghost small: { end < 2 ^ 64 },
}

impl<'a> BitRanks<'a> {
    // 9 for a directory that is not the one of the bits up to a length. Not by a constructor of `IndexedBits`: an open one would ask that blocks have words.
    pub fn new(
        bits: PackedBits<'a>,
        end: usize,
        directory: &'a [u64],
    ) -> Result<BitRanks<'a>, Refusal>
        ensures judged { refusal_of result ≡ other_directory directory.entry.now (bit_directory 512 bits.entry.bytes.now end) }
        ensures ok { IfOk result (λ r. (r.indexed.bits.bytes.now ≡ bits.entry.bytes.now) × (r.end ≡ end)) }
    {
        let n = blocks(end);
        if !is_directory(bits, RANK_SUPERBLOCK_WORDS, n, directory) {
            return Err(Refusal::OtherDirectory);
        }
        let indexed = IndexedBits { bits, directory };
        Ok(BitRanks { indexed, end })
    }

    // The set bits before a position, which is cut to the length.
    pub(crate) fn rank(&self, position: u64) -> u64
        ensures { result ≡ bit_rank self.now.indexed.bits.bytes.now self.now.end position }
    {
        let place = position.min(self.end as u64) as usize;
        // Not by `set_below`, which tests that there is an entry: up to the length there is.
        let block = place / 64 / RANK_SUPERBLOCK_WORDS;
        let bits = self.indexed.bits.bytes;
        self.indexed.directory[block] + count_from(bits, block * RANK_SUPERBLOCK_WORDS, place)
    }

    // The set bits from a start up to an end.
    pub(crate) fn count_range(&self, from: u64, to: u64) -> u64
        ensures { result ≡ bit_range self.now.indexed.bits.bytes.now self.now.end from to }
    {
        if to <= from {
            return 0;
        }
        self.rank(to) - self.rank(from)
    }
}

impl Lookup for BitRanks<'_> {
    ghost number = { λ r position. bit_rank r.indexed.bits.bytes.now r.end position };

    fn look_up(&self, key: u64) -> u64 {
        self.rank(key)
    }
}
