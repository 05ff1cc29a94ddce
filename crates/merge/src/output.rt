// What a merge writes into: words, or the bytes of a block.
ghost use Rattle.std.specs.Prelude.{◌≡◌, List, ℕ, ◌<◌, ◌-◌, ◌/◌, length, set};
ghost use Rattle.boundary.specs.Stores.{set_bytes, Storing};
ghost use Rattle.boundary.proofs.Storing.{storing_words, storing-bytes};

pub(crate) trait Output: Copy {
    // An output's places as numbers, how a word is stored at an index, and how many words an output of so many places has room for.
    ghost cells: { List Self → List ℕ };

    ghost store: { List ℕ → ℕ → ℕ → List ℕ };

    ghost room: { ℕ → ℕ };

    fn room(out: &[Self]) -> usize
        ensures { result ≡ room (length (cells out.now)) };

    // The word at an index: stored there it changes nothing.
    fn get(out: &[Self], k: usize) -> u64
        requires { k < room (length (cells out.now)) }
        ensures { store (cells out.now) k result ≡ cells out.now };

    fn set(out: &mut [Self], k: usize, x: u64)
        requires { k < room (length (cells out.old)) }
        ensures { cells out.new ≡ store (cells out.old) k x };

    ghost storing: { Storing store room };
}

impl Output for u64 {
    ghost cells = { λ out. out };

    ghost store = { set };

    ghost room = { λ n. n };

    fn room(out: &[u64]) -> usize {
        out.len()
    }

    fn get(out: &[u64], k: usize) -> u64 {
        out[k]
    }

    fn set(out: &mut [u64], k: usize, x: u64) {
        out[k] = x;
    }

    ghost storing = { storing_words };
}

// A block's words stand behind its count, which takes four bytes.
impl Output for u8 {
    ghost cells = { λ out. out };

    ghost store = { set_bytes };

    ghost room = { λ n. (n - 4) / 8 };

    fn room(out: &[u8]) -> usize {
        out.len().saturating_sub(4) / 8
    }

    fn get(out: &[u8], k: usize) -> u64 {
        let from = 4 + 8 * k;
        let end = from + 8;
        fields::load_word(&out[from..end])
    }

    fn set(out: &mut [u8], k: usize, x: u64) {
        let at = 4 + 8 * k;
        let end = at + 8;
        fields::put_u64(&mut out[at..end], 0, x);
    }

    ghost storing = { storing-bytes };
}
