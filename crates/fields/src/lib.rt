// Little-endian numbers in lent bytes, the refusal numbers, and the answers that calls share.
#![tactic(auto)]

ghost use Rattle.std.specs.Prelude.{◌≡◌};
ghost use Rattle.fields.specs.Counting.{Test};
ghost use Rattle.fields.specs.Refusal.{refusal_of};
ghost use Rattle.fields.specs.Limits.{no_room};

mod lookup;
mod outcome;
mod read;
mod word;
mod write;

pub use lookup::{Lookup, look_up_all};
pub use outcome::{Answer, Number, Refusal};
pub use read::{load_word, u32_at, u64_at};
pub use word::Word;
pub use write::{clear_words, copy_bytes, put_u32, put_u64};

// What is written for none; it is never a row.
pub const NONE: u64 = 18446744073709551615;

// 1 where a word is at most a row, else 0: a test by name, since laws of searches sum such tests up.
pub fn at_most(word: u64, row: u64) -> usize
    ensures { Test word row result }
{
    usize::from(word <= row)
}

// 10 where a result of n places does not fit, or is past its limit. Where measuring it takes a pass, the caller tests a bound first: of a closure that measures
// the contract would say what it gives though it is not called.
pub fn check_room(n: usize, room: usize, limit: usize) -> Result<(), Refusal>
    ensures { refusal_of result ≡ no_room limit n room }
{
    if room < n {
        return Err(Refusal::NoRoom);
    }
    if limit < n {
        return Err(Refusal::NoRoom);
    }
    Ok(())
}
