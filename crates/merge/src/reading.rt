// The words of a list, of either kind.
ghost use Rattle.std.specs.Prelude.{◌≡◌, ◌<◌, length, get_or};
ghost use Rattle.std.specs.List.{slice_get};

use fields::Word;

pub(crate) fn count<A: Word>(words: &[A]) -> usize
    ensures { result ≡ length (A.words words.now) }
{
    words.len()
}

// The word at an index.
pub(crate) fn word_at<A: Word>(words: &[A], i: usize) -> u64
    requires { i < length (A.words words.now) }
    ensures { result ≡ get_or (A.words words.now) i 0 }
{
    words[i].word()
}

// The word at an index, if there is one: `get` would give an element, of which the word has still to be told.
pub(crate) fn front_at<A: Word>(words: &[A], i: usize) -> Option<u64>
    ensures { result ≡ slice_get (A.words words.now) i }
{
    if i < count(words) {
        Some(word_at(words, i))
    } else {
        None
    }
}
