// Reading the words of a case. No reader has a condition on the bytes: words past the end count as zero.
ghost use Rattle.std.specs.Prelude.{◌≤◌, length};

// The most words that a list of a case has.
pub const MOST: usize = 128;

// The words of a list, then zeros.
pub type WordArray = [u64; MOST];

// How many bytes each word of a list takes: one, or eight where the file has a flag for it.
#[derive(Clone, Copy)]
pub(crate) enum Width {
    One,
    Eight,
}

impl From<u8> for Width {
    fn from(flag: u8) -> Width {
        if flag == 0 { Width::One } else { Width::Eight }
    }
}

// A word of one byte: a byte from 0 to 127 is the word itself, a greater one means a word as far below 2^64 as it is below 256.
fn near(byte: u8) -> u64 {
    if byte < 128 {
        return u64::from(byte);
    }
    u64::MAX - u64::from(255 - byte)
}

impl Width {
    pub(crate) fn bytes(self) -> usize
        ensures { result ≤ 8 }
    {
        match self {
            Width::One => 1,
            Width::Eight => 8,
        }
    }

    // The word at a place.
    pub(crate) fn word_at(self, file: &[u8], at: usize) -> u64 {
        match self {
            Width::One => near(file.get(at).copied().unwrap_or(0)),
            Width::Eight => fields::u64_at(file, at),
        }
    }
}

// A list of words where it stands in a file.
#[derive(Clone, Copy)]
pub(crate) struct WordList<'a> {
    file: &'a [u8],
    count: usize,
    width: Width,
}

impl WordList<'_> {
    // Puts its words at the front of others.
    pub(crate) fn read(&self, words: &mut WordArray) {
        for (i, word) in words.iter_mut().take(self.count).enumerate() {
            *word = self.width.word_at(self.file, i * self.width.bytes());
        }
    }
}

// A list of count words at the front of a file, and what is left after it.
pub(crate) fn split_list(file: &[u8], count: u8, width: Width) -> (WordList<'_>, &[u8])
    ensures { length result.1.now ≤ length file.now }
{
    let count = usize::from(count).min(MOST);
    let size = (count * width.bytes()).min(file.len());
    (WordList { file, count, width }, &file[size..])
}

// The count words of a list from a place on, or none where they go past the most.
pub(crate) fn part(words: &WordArray, from: usize, count: u8) -> &[u64] {
    match words.split_at_checked(from) {
        Some((_, rest)) => match rest.split_at_checked(usize::from(count)) {
            Some((part, _)) => part,
            None => &[],
        },
        None => &[],
    }
}
