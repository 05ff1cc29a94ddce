// A run list that was judged.
ghost use Rattle.std.specs.Prelude.{◌≡◌, ℕ, ◌^◌, ◌<◌, slice_index, IfOk};
ghost use Rattle.fields.specs.Refusal.{refusal_of};
ghost use Rattle.run_list.specs.Runs.{has, fault};
ghost use Rattle.run_list.specs.Rows.{rows};
ghost use Rattle.run_list.specs.Places.{place};

use crate::MAX_WORDS;
use crate::batch::upper_bound;
use crate::place::Place;
use crate::runs::check_own;
use fields::Refusal;

// Words that are a run list: start, end, start, end.
#[derive(Clone, Copy)]
pub struct RunList<'a> {
    pub words: &'a [u64],
    pub ghost accepted: { fault words.now ≡ 0 },
    pub ghost small: { (i : ℕ) → slice_index words.now i < 2 ^ 64 },
}

impl<'a> TryFrom<&'a [u64]> for RunList<'a> {
    type Error = Refusal;

    ghost try_from_gives = { λ words r. (refusal_of r ≡ fault words.now) × IfOk r (λ l. l.words.now ≡ words.now) };

    fn try_from(words: &'a [u64]) -> Result<RunList<'a>, Refusal> {
        if MAX_WORDS < words.len() {
            return Err(Refusal::TooLong);
        }
        check_own(words)?;
        Ok(RunList { words })
    }
}

impl RunList<'_> {
    // Where a row is among the runs.
    pub fn search(&self, row: u64) -> Place
        ensures { result ≡ place self.now.words.now row }
    {
        Place::after(upper_bound(self.words, row))
    }

    // Whether a row is listed.
    pub fn contains(&self, row: u64) -> bool
        ensures { result ≡ has self.now.words.now row }
    {
        self.search(row).listed
    }

    // The number of listed rows.
    pub fn count(&self) -> u64
        ensures { result ≡ rows self.now.words.now }
    {
        let (pairs, _) = self.words.as_chunks::<2>();
        let mut sum: u64 = 0;
        for [start, end] in pairs {
            sum += *end - *start;
        }
        sum
    }
}
