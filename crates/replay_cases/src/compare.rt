// An output compared with what is expected: its first elements, and the mark after them, which it held before the call.

// What an output holds.
pub trait Element: Copy + PartialEq {
    // What each place holds before a call.
    const MARK: Self;

    // The element that a word of a case stands for, if there is one.
    fn from_word(word: u64) -> Option<Self>;
}

impl Element for u64 {
    const MARK: u64 = 0xa5a5_a5a5_a5a5_a5a5;

    fn from_word(word: u64) -> Option<u64> {
        Some(word)
    }
}

impl Element for u32 {
    const MARK: u32 = 0xa5a5_a5a5;

    fn from_word(word: u64) -> Option<u32> {
        u32::try_from(word).ok()
    }
}

// Of a word that stands for a byte the lowest byte counts.
impl Element for u8 {
    const MARK: u8 = 0xa5;

    fn from_word(word: u64) -> Option<u8> {
        Some((word % 256) as u8)
    }
}

// Whether an output begins with the elements of words, as far as it has places, and holds marks after them.
pub fn is_as_expected<T: Element>(out: &[T], words: &[u64]) -> bool {
    let (written, kept) = out.split_at(words.len().min(out.len()));
    written
        .iter()
        .zip(words)
        .all(|(element, word)| T::from_word(*word) == Some(*element))
        && kept.iter().all(|element| *element == T::MARK)
}
