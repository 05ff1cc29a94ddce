// Directories of packed bits: the set bits before each block of so many words. With one, the set bits before a place are counted in its block alone.
ghost use Rattle.std.specs.Prelude.{◌≡◌, refl, List, ℕ, ◌+◌, ◌*◌, ◌%◌, ◌^◌, ◌<◌, min, length, get_or, set};
ghost use Rattle.std.proofs.lemmas.List.Edits.{sets};
ghost use Rattle.fields.specs.Directory.{same};
ghost use Rattle.fields.specs.Words.{index_same};
ghost use Rattle.packed.specs.Bits.{set_below, counts, narrow_set};

use crate::{PackedBits, count_block, count_from};

// A number of set bits, of which there are fewer than 2^32.
pub trait Entry: Copy {
    // The number that an entry is, the entry of a number, and the numbers of a list of entries.
    ghost number: { Self → ℕ };

    ghost of_number: { ℕ → Self };

    ghost numbers: { List Self → List ℕ };

    fn number(self) -> u64
        ensures { result ≡ number self };

    fn from_number(x: u64) -> Self
        ensures { result ≡ of_number x };

    ghost numbers_length: { (es : List Self) → length (numbers es) ≡ length es };

    ghost numbers_index: { (es : List Self) (i : ℕ) (none : Self) → i < length es → get_or (numbers es) i 0 ≡ number (get_or es i none) };

    ghost numbers_set: { (es : List Self) (i x : ℕ) → x < 2 ^ 32 → numbers (set es i (of_number x)) ≡ set (numbers es) i x };
}

impl Entry for u64 {
    ghost number = { λ x. x };

    ghost of_number = { λ x. x };

    ghost numbers = { λ es. es };

    fn number(self) -> u64 {
        self
    }

    fn from_number(x: u64) -> u64 {
        x
    }

    ghost numbers_length = { λ es. refl };

    ghost numbers_index = { index_same };

    ghost numbers_set = { λ es i x h. refl };
}

impl Entry for u32 {
    ghost number = { λ x. x };

    ghost of_number = { λ x. x % 2 ^ 32 };

    ghost numbers = { λ es. es };

    fn number(self) -> u64 {
        u64::from(self)
    }

    fn from_number(x: u64) -> u32 {
        (x & 0xffff_ffff) as u32
    }

    ghost numbers_length = { λ es. refl };

    ghost numbers_index = { index_same };

    ghost numbers_set = { narrow_set };
}

// Writes the directory of n blocks of `size` words, as far as there is room.
pub fn fill<E: Entry>(bits: PackedBits<'_>, size: usize, n: usize, out: &mut [E])
    ensures { E.numbers out.new ≡ sets (E.numbers out.old) 0 (counts (64 * size) bits.entry.bytes.now 0 (min n (length out.old))) }
{
    let mut before: u64 = 0;
    // By index: a block is counted by its number.
    for i in 0..n.min(out.len()) {
        out[i] = E::from_number(before);
        before += count_block(bits.bytes, size, i);
    }
}

// Whether a directory is the one of n blocks.
pub fn is_directory<E: Entry>(bits: PackedBits<'_>, size: usize, n: usize, directory: &[E]) -> bool
    ensures { result ≡ same (E.numbers directory.now) (counts (64 * size) bits.entry.bytes.now 0 n) }
{
    if directory.len() != n {
        return false;
    }
    let mut before: u64 = 0;
    // By index, as above.
    for i in 0..n {
        if directory[i].number() != before {
            return false;
        }
        before += count_block(bits.bytes, size, i);
    }
    true
}

// Packed bits and the directory of their blocks of SIZE words, or the entries at its front. A place's block is found by shifts, since SIZE is a constant.
#[derive(Drop)]
pub struct IndexedBits<'a, E: Entry, const SIZE: usize> {
    pub bits: PackedBits<'a>,
    pub directory: &'a [E],
    pub ghost some: { 0 < SIZE },
    pub ghost entries: { E.numbers directory.now ≡ counts (64 * SIZE) bits.bytes.now 0 (length directory.now) },
}

// The set bits before a place where no entry serves. Out of line: in a loop over places its own loop would take the registers.
#[cold]
#[inline(never)]
fn count_from_start(bits: &[u8], place: usize) -> u64
    ensures { result ≡ set_below bits.now place }
{
    count_from(bits, 0, place)
}

impl<E: Entry, const SIZE: usize> IndexedBits<'_, E, SIZE> {
    // The set bits before a place, from the entry of its block where there is one.
    pub fn set_below(&self, place: usize) -> u64
        ensures { result ≡ set_below self.now.bits.bytes.now place }
    {
        let block = place / 64 / SIZE;
        if block < self.directory.len() {
            return self.directory[block].number()
                + count_from(self.bits.bytes, block * SIZE, place);
        }
        count_from_start(self.bits.bytes, place)
    }
}
