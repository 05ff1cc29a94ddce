// The place of a set bit: by the directory, then by words, then within a word.
ghost use Rattle.std.specs.Prelude.{◌≡◌, ◌+◌, ◌*◌, ◌^◌, ◌<◌, ◌≤◌, length, MatchOption};
ghost use Rattle.fields.specs.Answers.{option_of};
ghost use Rattle.fields.specs.Limits.{max_bits};
ghost use Rattle.run_list.specs.Search.{searched};
ghost use Rattle.packed.specs.Bits.{set_below};
ghost use Rattle.bit_select.specs.BitSelects.{bit_select};
ghost use Rattle.bit_select.specs.Inner.{InWord, Placed};

use crate::word::select_in_word;
use bit_rank::{BitRanks, RANK_SUPERBLOCK_WORDS};
use fields::{NONE, Word, u64_at};
use packed::{count_word, words};
use run_list::SortedLookup;

// A word, its digits, and how many of its set ones are left to pass.
#[derive(Drop)]
struct Spot {
    word: usize,
    digits: u64,
    left: u64,
}

// Of the eight words from `first` on, the one with more set bits than are left to pass. For the end of the bits, where a word may be cut short; out of line,
// since a loop over places has better use for the registers.
#[cold]
#[inline(never)]
fn find_last_word(bits: &[u8], first: usize, left: u64) -> Option<Spot>
    requires { first < 2 ^ 60 }
    ensures { MatchOption result (set_below bits.now ((first + 8) * 64) ≤ set_below bits.now (first * 64) + left) (λ spot. InWord bits.now (set_below bits.now (first * 64) + left) spot.word spot.digits spot.left) }
{
    let mut left = left;
    for word in first..first + RANK_SUPERBLOCK_WORDS {
        let digits = u64_at(bits, word * 8);
        let count = count_word(digits);
        if left < count {
            return Some(Spot { word, digits, left });
        }
        left -= count;
    }
    None
}

// The same for any block.
fn find_word(bits: &[u8], first: usize, left: u64) -> Option<Spot>
    requires { first < 2 ^ 60 }
    ensures { MatchOption result (set_below bits.now ((first + 8) * 64) ≤ set_below bits.now (first * 64) + left) (λ spot. InWord bits.now (set_below bits.now (first * 64) + left) spot.word spot.digits spot.left) }
{
    let words = words(bits);
    if words.len() < first + RANK_SUPERBLOCK_WORDS {
        return find_last_word(bits, first, left);
    }
    let mut left = left;
    for (i, word) in words[first..first + RANK_SUPERBLOCK_WORDS]
        .iter()
        .enumerate()
    {
        let digits = word.word();
        let count = count_word(digits);
        if left < count {
            let word = first + i;
            return Some(Spot { word, digits, left });
        }
        left -= count;
    }
    None
}

// The place of the set bit with `left` more set bits before it than word `first` has, if it is in the eight words from there on.
fn select_in_block(bits: &[u8], first: usize, left: u64) -> Option<usize>
    requires first_bound { first < 2 ^ 60 }
    requires short { length bits.now ≤ max_bits }
    ensures { MatchOption result (set_below bits.now ((first + 8) * 64) ≤ set_below bits.now (first * 64) + left) (λ place. Placed bits.now (set_below bits.now (first * 64) + left) place) }
{
    let spot = find_word(bits, first, left)?;
    Some(spot.word * 64 + select_in_word(spot.digits, spot.left))
}

#[derive(Drop)]
pub(crate) struct Selected<'a>(pub(crate) BitRanks<'a>);

impl Selected<'_> {
    // The place with k set bits before it, where n words of the directory are at most k: it is in the block of the last of them.
    fn select_at(&self, n: usize, k: u64) -> Option<u64>
        requires { n ≡ searched k self.now.0.indexed.directory.now }
        ensures { result ≡ option_of (bit_select self.now.0.indexed.bits.bytes.now self.now.0.end k) }
    {
        let block = n - 1;
        let left = k - self.0.indexed.directory[block];
        let first = block * RANK_SUPERBLOCK_WORDS;
        let place = select_in_block(self.0.indexed.bits.bytes, first, left)?;
        if self.0.end <= place {
            return None;
        }
        Some(place as u64)
    }
}

impl SortedLookup for Selected<'_> {
    ghost sorted = { λ s. s.0.indexed.directory.now };

    ghost number = { λ s k. bit_select s.0.indexed.bits.bytes.now s.0.end k };

    fn words(&self) -> &[u64] {
        self.0.indexed.directory
    }

    fn look_up_at(&self, n: usize, key: u64) -> u64 {
        self.select_at(n, key).unwrap_or(NONE)
    }
}
