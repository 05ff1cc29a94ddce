// What a call returns and writes, compared with what a case expects.
use replay_cases::{Case, Element, Returned, is_as_expected};

// Outputs before a call, of the greatest length that a case gives. A caller of `writes` lends one: an array of a type parameter would owe a bound on its size.
pub(crate) const WORDS: [u64; 255] = [u64::MARK; 255];

pub(crate) const HALVES: [u32; 255] = [u32::MARK; 255];

pub(crate) const BYTES: [u8; 255] = [u8::MARK; 255];

// Compares what a call returns.
pub(crate) fn returns<R: Into<Returned>>(case: &Case, answer: R) -> bool {
    answer.into() == case.returned
}

// Whether an output has a place for each element that is expected, and is as expected.
fn holds<T: Element>(out: &[T], words: &[u64]) -> bool {
    words.len() <= out.len() && is_as_expected(out, words)
}

// Runs a call that writes to the front of marks, and compares.
pub(crate) fn writes<T: Element, R: Into<Returned>, F: FnOnce(&mut [T]) -> R>(
    case: &Case,
    marks: &mut [T; 255],
    call: F,
) -> bool
    requires { F.IsAlwaysCallable call }
{
    let out = &mut marks[..usize::from(case.room)];
    returns(case, call(out)) && holds(out, &case.written)
}

// The same of a call that writes two lists of words.
pub(crate) fn writes_two<R: Into<Returned>, F: FnOnce(&mut [u64], &mut [u64]) -> R>(
    case: &Case,
    call: F,
) -> bool
    requires { F.IsAlwaysCallable call }
{
    let room = usize::from(case.room);
    let spare = usize::from(case.spare);
    let mut marks = WORDS;
    let mut more_marks = WORDS;
    let out = &mut marks[..room];
    let more = &mut more_marks[..spare];
    returns(case, call(out, more)) && holds(out, &case.written) && holds(more, &case.more_written)
}
