// Searches for several rows at once. They take turns, pass by pass: while one waits for words from memory, the others go on.
ghost use Rattle.std.specs.Prelude.{◌≡◌, ℕ, ◌+◌, ◌*◌, ◌<◌, ◌≤◌, length, get_or, map};
ghost use Rattle.std.proofs.lemmas.List.Edits.{sets};
ghost use Rattle.run_list.specs.Search.{linear, quarter, searched, Moved};

use crate::pass::{linear, narrow};
use fields::clear_words;

// More searches at once were no faster.
const BATCH: usize = 16;

// A pass of each search, from its place among the words.
fn narrow_all(words: &[u64], rows: &[u64], q: usize, places: &mut [u64])
    requires one_each { length places.old ≡ length rows.now }
    requires fit { (j : ℕ) → j < length rows.now → get_or places.old j 0 + 3 * q < length words.now }
    ensures { Moved (λ r at. quarter r words.now at q) rows.now places.old places.new }
{
    for (j, row) in rows.iter().enumerate() {
        places[j] = narrow(words, *row, places[j] as usize, q) as u64;
    }
}

// The last pass of each search, by single words.
fn linear_all(words: &[u64], rows: &[u64], size: usize, places: &mut [u64])
    requires one_each { length places.old ≡ length rows.now }
    requires fit { (j : ℕ) → j < length rows.now → get_or places.old j 0 + size ≤ length words.now }
    ensures { Moved (λ r at. linear r words.now at size) rows.now places.old places.new }
{
    for (j, row) in rows.iter().enumerate() {
        places[j] = linear(words, *row, places[j] as usize, size) as u64;
    }
}

// A search for each row, whose place is kept in the output on the way.
fn search_all(words: &[u64], rows: &[u64], places: &mut [u64])
    requires { length places.old ≡ length rows.now }
    ensures { places.new ≡ map (λ r. searched r words.now) rows.now }
{
    clear_words(places, 0, rows.len());
    let mut size = words.len();
    // By what is left: each pass leaves a quarter of the words.
    while 3 < size {
        let q = size / 4;
        narrow_all(words, rows, q, places);
        size -= 3 * q;
    }
    linear_all(words, rows, size, places);
}

// For each row, the number of words at most it, where the words do not fall; as far as there is room.
pub fn upper_bounds(words: &[u64], rows: &[u64], out: &mut [u64])
    ensures { out.new ≡ sets out.old 0 (map (λ r. searched r words.now) rows.now) }
{
    let n = rows.len().min(out.len());
    let mut from = 0;
    while from < n {
        let to = n.min(from + BATCH);
        search_all(words, &rows[from..to], &mut out[from..to]);
        from = to;
    }
}

// The same for one row.
pub fn upper_bound(words: &[u64], row: u64) -> usize
    ensures { result ≡ searched row words.now }
{
    let mut places = [0];
    search_all(words, &[row], &mut places);
    places[0] as usize
}
