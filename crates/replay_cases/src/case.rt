// A case as values, read whole from the bytes of a file. README.md of the crate replay has the format.
ghost use Rattle.std.specs.Prelude.{◌≡◌, ◌<◌, length, MatchResult, IfSome};
ghost use Rattle.std.specs.Iterator.{at_most};
ghost use Rattle.replay_cases.specs.declared.call.Call.TheVariants.{Another};

use crate::call::Call;
use crate::reader::Width;
use crate::returned::Returned;
use crate::words::{WordReader, Words};

// A call, what it is given, and what is expected of it.
#[derive(Drop)]
pub struct Case<'a> {
    pub call: Call,
    pub bytes: &'a [u8],
    pub number: u64,
    pub first: Words,
    pub second: Words,
    pub third: Words,
    pub returned: Returned,
    // The lengths of the outputs, and what is written to them.
    pub room: u8,
    pub spare: u8,
    pub written: Words,
    pub more_written: Words,
}

// A case that is cut short or has a number that no call has, and its call where that is known.
#[derive(Clone, Copy, Debug, PartialEq, Eq)]
pub struct Damaged {
    pub call: Option<Call>,
}

// The cases of a file. One that is damaged is the last.
#[derive(Drop)]
pub struct Cases<'a> {
    rest: &'a [u8],
}

impl<'a> Cases<'a> {
    pub fn new(file: &'a [u8]) -> Cases<'a> {
        Cases { rest: file }
    }
}

// The call with a number, if there is one: `Another` stands for a number that no call has.
fn call_of(number: u8) -> Option<Call>
    ensures { IfSome result (λ call. call ≡ Another → ⊥) }
{
    match Call::try_from(number) {
        Ok(Call::Another) | Err(_) => None,
        Ok(call) => Some(call),
    }
}

// The case at the front of a file, and what is left after it.
fn split_case(file: &[u8]) -> Option<(Case<'_>, &[u8])>
    ensures known { IfSome result (λ (case, rest). case.call ≡ Another → ⊥) }
    ensures shorter { IfSome result (λ (case, rest). length rest.now < length file.now) }
{
    let ([call, refusal, room, spare, bytes], rest) = file.split_first_chunk::<5>()?;
    let ([first, second, third, written, more_written], rest) = rest.split_first_chunk::<5>()?;
    let ([given, given_wide, expected, expected_wide], mut rest) = rest.split_first_chunk::<4>()?;
    let bytes = rest.split_off(..usize::from(*bytes))?;
    let mut given = WordReader::split_off(&mut rest, *given, Width::from(*given_wide))?;
    let mut expected = WordReader::split_off(&mut rest, *expected, Width::from(*expected_wide))?;
    let case = Case {
        call: call_of(*call)?,
        bytes,
        number: given.word()?,
        returned: Returned {
            refusal: u64::from(*refusal),
            first: given.word()?,
            second: given.word()?,
        },
        first: given.words(*first)?,
        second: given.words(*second)?,
        third: given.words(*third)?,
        room: *room,
        spare: *spare,
        written: expected.words(*written)?,
        more_written: expected.words(*more_written)?,
    };
    Some((case, rest))
}

impl<'a> Iterator for Cases<'a> {
    type Item = Result<Case<'a>, Damaged>;

    // No case is one of `Another`, damaged or not.
    ghost next_gives = { λ _ r _. IfSome r (λ item.
        MatchResult item (λ case. case.call ≡ Another → ⊥) (λ damaged. IfSome damaged.call (λ call. call ≡ Another → ⊥))) };

    ghost remaining = { λ s. at_most (length s.rest.now) };

    fn next(&mut self) -> Option<Result<Case<'a>, Damaged>> {
        let (number, _) = self.rest.split_first()?;
        let Some((case, rest)) = split_case(self.rest) else {
            self.rest = &[];
            let call = call_of(*number);
            return Some(Err(Damaged { call }));
        };
        self.rest = rest;
        Some(Ok(case))
    }
}
