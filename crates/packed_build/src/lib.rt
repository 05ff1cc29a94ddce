// Run lists from packed bits, by 64-bit words.
#![tactic(auto)]

ghost use Rattle.std.specs.Prelude.{◌≡◌, [], ◌∷◌, ◌<◌, ◌≤◌, length};
ghost use Rattle.fields.specs.Refusal.{refusal_of};
ghost use Rattle.fields.specs.Limits.{no_room, max_words, max_bits};
ghost use Rattle.fields.specs.Answers.{Stored, StoredAt, answer_of};
ghost use Rattle.packed_build.specs.Packed.{list_of, Packed};
ghost use Rattle.packed_build.specs.Marks.{marks, changes_at};

use fields::{Refusal, Word};
use packed::PackedBits;
use run_list::MAX_WORDS;

// Writes a boundary at k, where there is room; returns the next place, which is why the output and the place in it are apart. By index: of a slice that
// `get_mut` lent an element, a proof knows no element.
fn put(out: &mut [u64], k: usize, x: u64) -> usize
    requires { k < 9223372036854775808 }
    ensures { StoredAt (x ∷ []) out.old k result out.new }
{
    if k < out.len() {
        out[k] = x;
    }
    k + 1
}

// Writes a boundary for each set bit of a word whose lowest bit is the row base, from the place first on; returns the next place.
fn put_marks(word: u64, base: u64, first: usize, out: &mut [u64]) -> usize
    requires base_bound { base < 9223372036854775808 }
    requires first_bound { first < 4611686018427387904 }
    ensures { StoredAt (marks 64 base word) out.old first result out.new }
{
    let mut left = word;
    let mut k = first;
    // By what is left: each turn clears the lowest set bit.
    while left != 0 {
        k = put(out, k, base + u64::trailing_zeros(left) as u64);
        left = left & (left - 1);
    }
    k
}

// Writes a boundary for each bit of word i that differs from the one before it, which is carry for the lowest; returns the next place.
fn put_changes(word: u64, carry: u64, i: usize, first: usize, out: &mut [u64]) -> usize
    requires carry_bound { carry < 2 }
    requires i_bound { i ≤ 67108864 }
    requires first_bound { first < 4611686018427387904 }
    ensures { StoredAt (changes_at i word carry) out.old first result out.new }
{
    put_marks(word ^ ((word << 1) + carry), (i * 64) as u64, first, out)
}

// Counts the boundaries, and writes them as far as there is room. The last word has bits past the bytes, which are zero and end a run that is still open.
fn scan(bits: &[u8], out: &mut [u64]) -> usize
    requires { length bits.now ≤ max_bits }
    ensures { Stored (list_of bits.now) out.old result out.new }
{
    let words = packed::words(bits);
    let mut carry: u64 = 0;
    let mut k = 0;
    for (i, eight) in words.iter().enumerate() {
        let word = eight.word();
        k = put_changes(word, carry, i, k, out);
        carry = word >> 63;
    }
    let tail = fields::u64_at(bits, words.len() * 8);
    put_changes(tail, carry, words.len(), k, out)
}

// The number of boundaries.
fn measure(bits: PackedBits<'_>) -> usize
    ensures { result ≡ length (list_of bits.entry.bytes.now) }
{
    let mut none = [0u64; 1];
    scan(bits.bytes, &mut none)
}

// 10 where the result does not fit room words or has too many runs. It is not measured where a word for each bit fits.
fn check_room(bits: PackedBits<'_>, room: usize) -> Result<(), Refusal>
    ensures { refusal_of result ≡ no_room max_words (length (list_of bits.entry.bytes.now)) room }
{
    let most = bits.bytes.len() * 8;
    if most <= room && most <= MAX_WORDS {
        return Ok(());
    }
    fields::check_room(measure(bits), room, MAX_WORDS)
}

// The run list of packed bits: row r is bit r mod 8, lowest first, of byte r div 8.
pub fn from_packed_bits(bits: &[u8], out: &mut [u64]) -> Result<usize, Refusal>
    ensures { Packed bits.now out.old (answer_of result) out.new }
{
    let packed = PackedBits::try_from(bits)?;
    check_room(packed, out.len())?;
    Ok(scan(packed.bytes, out))
}
