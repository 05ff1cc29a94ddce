// The fields of an entry's head, and the words of its block. Each is read from a part of the bytes that has just its length, so that a walk makes no test of
// its place.
ghost use Rattle.std.specs.Prelude.{◌≡◌, ◌+◌, ◌≤◌, ◌<◌, length, get_or};
ghost use Rattle.run_list.specs.Blocks.{block_words};
ghost use Rattle.index.specs.Index.{value_at, length_at};

// The value of the entry at a place.
pub(crate) fn value_at(index: &[u8], at: usize) -> u64
    requires { at + 8 ≤ length index.now }
    ensures { result ≡ value_at index.now at }
{
    let end = at + 8;
    fields::load_word(&index[at..end])
}

// The length of its block.
pub(crate) fn length_at(index: &[u8], at: usize) -> u32
    requires { at + 12 ≤ length index.now }
    ensures { result ≡ length_at index.now at }
{
    let start = at + 8;
    let end = at + 12;
    fields::u32_at(&index[start..end], 0)
}

// The word at an index of a block's words.
pub(crate) fn block_word(block: &[u8], i: usize) -> u64
    requires { i < length (block_words block.now) }
    ensures { result ≡ get_or (block_words block.now) i 0 }
{
    let at = 4 + 8 * i;
    let end = at + 8;
    fields::load_word(&block[at..end])
}
