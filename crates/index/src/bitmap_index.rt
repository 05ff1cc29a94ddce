// An index that was read.
ghost use Rattle.std.specs.Prelude.{◌≡◌, ℕ, ◌^◌, ◌*◌, ◌<◌, ◌≤◌, length, slice_index, IfOk};
ghost use Rattle.fields.specs.Refusal.{refusal_of};
ghost use Rattle.fields.specs.Limits.{max_bytes};
ghost use Rattle.index.specs.Index.{index_fault, entries, all_runs, index_bytes};
ghost use Rattle.index.specs.Search.{place_of, block_from};

use crate::Counts;
use crate::lookup::seek;
use crate::read::decode;
use fields::Refusal;

// The bytes of an index that is not refused, and its counts.
#[derive(Clone, Copy)]
pub struct BitmapIndex<'a> {
    pub bytes: &'a [u8],
    pub counts: Counts,
    pub ghost accepted: { index_fault bytes.now ≡ 0 },
    pub ghost entry_count: { counts.entries ≡ length (entries bytes.now) },
    pub ghost run_count: { counts.runs ≡ all_runs (entries bytes.now) },
    pub ghost small: { (i : ℕ) → slice_index bytes.now i < 2 ^ 8 },
}

impl<'a> TryFrom<&'a [u8]> for BitmapIndex<'a> {
    type Error = Refusal;

    ghost try_from_gives = { λ bytes r. (refusal_of r ≡ index_fault bytes.now) × IfOk r (λ i. i.bytes.now ≡ bytes.now) };

    fn try_from(bytes: &'a [u8]) -> Result<BitmapIndex<'a>, Refusal> {
        let counts = decode(bytes)?;
        Ok(BitmapIndex { bytes, counts })
    }
}

impl<'a> BitmapIndex<'a> {
    // The block at a place that `place_of` gives, cut to its runs; empty at 0. So a value is looked up once for all uses of its block.
    pub fn block_at(&self, place: u32) -> &'a [u8]
        ensures { result.now ≡ block_from self.now.bytes.now place }
    {
        let start = self.bytes.len().min(place as usize);
        if start == 0 {
            return &self.bytes[..0];
        }
        let counted = 4 + 16 * fields::u32_at(self.bytes, start) as usize;
        let len = counted.min(self.bytes.len() - start);
        &self.bytes[start..start + len]
    }
}

impl BitmapIndex<'_> {
    // The length that the index has when it is written: without its ignored bytes, its lengths exact.
    pub fn written_len(&self) -> usize
        ensures len { result ≡ length (index_bytes (entries self.now.bytes.now)) }
        ensures short { result ≤ max_bytes }
    {
        4 + 16 * (self.counts.entries + self.counts.runs)
    }

    // The words of all its runs.
    pub fn words(&self) -> usize
        ensures { result ≡ 2 * all_runs (entries self.now.bytes.now) }
    {
        2 * self.counts.runs
    }

    // The place of the block of a value, after its length field; 0 where the value is missing. It fits 32 bits, as the length of an index does.
    pub fn place_of(&self, value: u64) -> u32
        ensures { result ≡ place_of self.now.bytes.now value }
    {
        let place = seek(self.bytes, value);
        if place.known {
            return (place.at + 12) as u32;
        }
        0
    }
}
