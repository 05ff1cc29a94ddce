// Packed bits: a bit, and the population count by words of 64 bits, up to a place and of a block.
#![tactic(auto)]

ghost use Rattle.std.specs.Prelude.{◌≡◌, ◌+◌, ◌*◌, ◌-◌, ◌%◌, ◌^◌, ◌<◌, ◌≤◌, length, IfOk};
ghost use Rattle.fields.specs.Refusal.{refusal_of};
ghost use Rattle.fields.specs.Limits.{too_long, max_bits};
ghost use Rattle.packed.specs.Bits.{bit_at, set_below, cut_to, block_count, WholeWords, Ones};

mod directory;

pub use directory::{Entry, IndexedBits, fill, is_directory};
use fields::{Refusal, Word};

// Packed bits have at most 536,870,911 bytes.
pub const MAX_BYTES: usize = 536870911;

// The words of 64 bits that they fill, the last one in part.
const MAX_WORDS: usize = 67108864;

// Packed bits that were judged: they are within their limit.
#[derive(Clone, Copy)]
pub struct PackedBits<'a> {
    pub bytes: &'a [u8],
    pub ghost short: { length bytes.now ≤ max_bits },
}

impl<'a> TryFrom<&'a [u8]> for PackedBits<'a> {
    type Error = Refusal;

    ghost try_from_gives = { λ bits r. (refusal_of r ≡ too_long max_bits bits.now) × IfOk r (λ b. b.bytes.now ≡ bits.now) };

    fn try_from(bits: &'a [u8]) -> Result<PackedBits<'a>, Refusal> {
        if MAX_BYTES < bits.len() {
            return Err(Refusal::TooLong);
        }
        Ok(PackedBits { bytes: bits })
    }
}

// The bit at a place; past the bytes it is clear.
pub fn bit_at(bits: &[u8], place: usize) -> bool
    ensures { result ≡ bit_at bits.now place }
{
    let at = place / 8;
    let shift = (place % 8) as u8;
    if at < bits.len() {
        return (bits[at] >> shift) % 2 == 1;
    }
    false
}

// The lesser of a place and the number of bits.
pub fn cut_to(bits: &[u8], place: usize) -> usize
    ensures { result ≡ cut_to bits.now place }
{
    if bits.len() <= place / 8 {
        return bits.len() * 8;
    }
    place
}

// The words of eight bytes, in place. Bytes after the last whole word are left out.
pub fn words(bits: &[u8]) -> &[[u8; 8]]
    ensures { WholeWords bits.now result.now }
{
    let (words, _) = bits.as_chunks::<8>();
    words
}

// The set bits of a word.
pub fn count_word(word: u64) -> u64
    ensures { Ones word result }
{
    u64::count_ones(word) as u64
}

// The lowest n bits of a word.
fn low_bits(word: u64, n: usize) -> u64
    requires { n < 64 }
    ensures { result ≡ word % 2 ^ n }
{
    word % (1u64 << (n as u8))
}

// The set bits of words from up to to.
fn count_words(bits: &[u8], from: usize, to: usize) -> u64
    requires from_le_to { from ≤ to }
    requires to_bound { to * 64 < 18446744073709551616 }
    requires to_in_bounds { to * 8 ≤ length bits.now }
    ensures { result + set_below bits.now (from * 64) ≡ set_below bits.now (to * 64) }
{
    let mut sum: u64 = 0;
    for word in &words(bits)[from..to] {
        sum += count_word(word.word());
    }
    sum
}

// The set bits from 64 times word on, up to a place.
pub fn count_from(bits: &[u8], word: usize, place: usize) -> u64
    ensures { result ≡ set_below bits.now place - set_below bits.now (word * 64) }
{
    let end = cut_to(bits, place);
    let last = end / 64;
    if last < word {
        return 0;
    }
    let sum = count_words(bits, word, last);
    sum + count_word(low_bits(fields::u64_at(bits, last * 8), end % 64))
}

// The set bits of block i, of `size` words of 64 bits; 0 where there are too many bytes. A block of one word is read in place with one test of its place, and
// the last of them, of which bytes may be missing, as a number.
pub fn count_block(bits: &[u8], size: usize, i: usize) -> u64
    ensures { result ≡ block_count (64 * size) bits.now i }
{
    if MAX_BYTES < bits.len() {
        return 0;
    }
    let words = words(bits);
    if size == 1 && i < words.len() {
        return count_word(words[i].word());
    }
    if MAX_WORDS < i {
        return 0;
    }
    if size == 1 {
        return count_word(fields::u64_at(bits, i * 8));
    }
    let size = size.min(MAX_WORDS);
    let first = i * size;
    count_from(bits, first, (first + size) * 64)
}
