// The steps of a search by quarters: the three tests of each pass are summed, so that the compiler makes no branch of them.
ghost use Rattle.std.specs.Prelude.{◌≡◌, ◌+◌, ◌*◌, ◌<◌, ◌≤◌, length};
ghost use Rattle.run_list.specs.Search.{linear, quarter};

use fields::at_most;

// The words that b of three tests pass.
fn times(b: usize, q: usize) -> usize
    requires b_bound { b ≤ 3 }
    requires q_bound { q < 2305843009213693952 }
    ensures { (result ≡ b * q) × (result ≤ 3 * q) }
{
    b * q
}

// Moves a place past as many steps of q words, of three, as have only words at most row.
pub(crate) fn narrow(words: &[u64], row: u64, base: usize, q: usize) -> usize
    requires { base + 3 * q < length words.now }
    ensures { result ≡ quarter row words.now base q }
{
    let b = at_most(words[base + q], row)
        + at_most(words[base + 2 * q], row)
        + at_most(words[base + 3 * q], row);
    base + times(b, q)
}

// The same by single words, for the last of them.
pub(crate) fn linear(words: &[u64], row: u64, base: usize, size: usize) -> usize
    requires { base + size ≤ length words.now }
    ensures { result ≡ linear row words.now base size }
{
    let mut at = base;
    for _ in 0..size {
        at += at_most(words[at], row);
    }
    at
}
