// The words of a block, read in place.
ghost use Rattle.std.specs.Prelude.{◌≡◌, map};
ghost use Rattle.fields.specs.Bytes.{from_le};
ghost use Rattle.run_list.specs.Blocks.{block_words};

use crate::block::block_runs;

// The words of a block: of its counted runs, those that are whole within it.
pub fn block_words(block: &[u8]) -> &[[u8; 8]]
    ensures { map from_le result.now ≡ block_words block.now }
{
    if block.len() < 4 {
        return &[];
    }
    let (words, _) = block[4..].as_chunks::<8>();
    &words[..2 * block_runs(block)]
}
