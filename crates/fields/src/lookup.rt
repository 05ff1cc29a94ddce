// Answering a list of keys, one word for each.
ghost use Rattle.std.specs.Prelude.{◌≡◌, ℕ, map};
ghost use Rattle.fields.specs.Answers.{Writes, answer_of};

use crate::Refusal;

// What has a number for each key.
pub trait Lookup {
    ghost number: { Self → ℕ → ℕ };

    fn look_up(&self, key: u64) -> u64
        ensures { result ≡ number self.now key };
}

// Writes the number of each key.
pub fn look_up_all<L: Lookup>(table: &L, keys: &[u64], out: &mut [u64]) -> Result<usize, Refusal>
    ensures { Writes (map (L.number table.now) keys.now) out.old (answer_of result) out.new }
{
    if out.len() < keys.len() {
        return Err(Refusal::NoRoom);
    }
    for (i, key) in keys.iter().enumerate() {
        out[i] = table.look_up(*key);
    }
    Ok(keys.len())
}
