// Reading the words of a case as values, off the front of a list. A list that is cut short has no value.
ghost use Rattle.std.specs.Prelude.{◌≤◌, length};

use crate::reader::Width;
use arrayvec::ArrayVec;

// The words of a list: a case gives their number in a byte.
pub type Words = ArrayVec<u64, 255>;

// What is left of a list of words.
#[derive(Clone, Copy)]
pub(crate) struct WordReader<'a> {
    rest: &'a [u8],
    width: Width,
}

impl<'a> WordReader<'a> {
    // Takes a list of count words off the front of a file.
    pub(crate) fn split_off(file: &mut &'a [u8], count: u8, width: Width) -> Option<WordReader<'a>>
        ensures { length file.new.now ≤ length file.old.now }
    {
        let rest = file.split_off(..width.bytes() * usize::from(count))?;
        Some(WordReader { rest, width })
    }

    pub(crate) fn word(&mut self) -> Option<u64> {
        let word = self.rest.split_off(..self.width.bytes())?;
        Some(self.width.word_at(word, 0))
    }

    pub(crate) fn words(&mut self, count: u8) -> Option<Words> {
        let mut words = Words::new();
        for _i in 0..count {
            words.push(self.word()?);
        }
        Some(words)
    }
}
