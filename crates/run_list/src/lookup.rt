// Answering a list of keys by a search for each among words that do not fall.
ghost use Rattle.std.specs.Prelude.{◌≡◌, List, ℕ, map};
ghost use Rattle.fields.specs.Answers.{Writes, answer_of};
ghost use Rattle.run_list.specs.Search.{searched};

use crate::batch::upper_bounds;
use fields::Refusal;

// What has a number for each key, found from the number of words that are at most the key.
pub trait SortedLookup {
    // The words that are searched, and the number that a key has.
    ghost sorted: { Self → List ℕ };

    ghost number: { Self → ℕ → ℕ };

    fn words(&self) -> &[u64]
        ensures { result.now ≡ sorted self.now };

    fn look_up_at(&self, n: usize, key: u64) -> u64
        requires { n ≡ searched key (sorted self.now) }
        ensures { result ≡ number self.now key };
}

// Writes the number of each key. On the way the output holds what the searches found: they are made for several keys at once.
pub fn look_up_sorted<L: SortedLookup>(
    table: &L,
    keys: &[u64],
    out: &mut [u64],
) -> Result<usize, Refusal>
    ensures { Writes (map (L.number table.now) keys.now) out.old (answer_of result) out.new }
{
    if out.len() < keys.len() {
        return Err(Refusal::NoRoom);
    }
    upper_bounds(table.words(), keys, out);
    for (i, key) in keys.iter().enumerate() {
        out[i] = table.look_up_at(out[i] as usize, *key);
    }
    Ok(keys.len())
}
