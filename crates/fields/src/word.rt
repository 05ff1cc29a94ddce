// Words as numbers, and as the eight bytes that stand for them.
ghost use Rattle.std.specs.Prelude.{◌≡◌, refl, List, ℕ, ◌<◌, length, get_or, map};
ghost use Rattle.fields.specs.Bytes.{from_le};
ghost use Rattle.std.proofs.lemmas.List.{length-map, get_or-map};
ghost use Rattle.fields.specs.Words.{index_same};

// What a list of words may consist of, so that one code reads all such lists.
pub trait Word: Copy {
    // The number that a word is, and the numbers of a list of words.
    ghost word: { Self → ℕ };

    ghost words: { List Self → List ℕ };

    fn word(self) -> u64
        ensures { result ≡ word self };

    ghost words_length: { (ws : List Self) → length (words ws) ≡ length ws };

    ghost words_index: { (ws : List Self) (i : ℕ) (none : Self) → i < length ws → get_or (words ws) i 0 ≡ word (get_or ws i none) };
}

impl Word for u64 {
    ghost word = { λ x. x };

    ghost words = { λ ws. ws };

    fn word(self) -> u64 {
        self
    }

    ghost words_length = { λ ws. refl };

    ghost words_index = { index_same };
}

// Little-endian, as in a block.
impl Word for [u8; 8] {
    ghost word = { from_le };

    ghost words = { map from_le };

    fn word(self) -> u64 {
        u64::from_le_bytes(self)
    }

    ghost words_length = { λ ws. length-map ws from_le };

    ghost words_index = { λ ws i none h. get_or-map from_le ws i none 0 h };
}
