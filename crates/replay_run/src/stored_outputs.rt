// What a call returns and writes, compared with what a case expects that is read where it stands in a file.
use replay_cases::{Element, MOST, ReadCase, Returned, is_as_expected};

// Outputs before a call, of the greatest length.
const WORDS: [u64; MOST] = [u64::MARK; MOST];

const HALVES: [u32; MOST] = [u32::MARK; MOST];

const BYTES: [u8; MOST] = [u8::MARK; MOST];

// Compares what a call returns.
pub(crate) fn returns<R: Into<Returned>>(case: &ReadCase, answer: R) -> bool {
    answer.into() == case.returned()
}

// Runs a call that writes to the front of marks, and compares. A caller lends them: an array of a type parameter would owe a bound on its size.
fn writes<T: Element, R: Into<Returned>, F: FnOnce(&mut [T]) -> R>(
    case: &ReadCase,
    marks: &mut [T; MOST],
    call: F,
) -> bool
    requires { F.IsAlwaysCallable call }
{
    let room = case.room().min(MOST);
    let out = &mut marks[..room];
    returns(case, call(out)) && is_as_expected(out, case.written())
}

// The same for each kind of output. Each makes its marks itself: in one function with all calls they would be made for every call.
pub(crate) fn writes_words<R: Into<Returned>, F: FnOnce(&mut [u64]) -> R>(
    case: &ReadCase,
    call: F,
) -> bool
    requires { F.IsAlwaysCallable call }
{
    let mut marks = WORDS;
    writes(case, &mut marks, call)
}

pub(crate) fn writes_halves<R: Into<Returned>, F: FnOnce(&mut [u32]) -> R>(
    case: &ReadCase,
    call: F,
) -> bool
    requires { F.IsAlwaysCallable call }
{
    let mut marks = HALVES;
    writes(case, &mut marks, call)
}

pub(crate) fn writes_bytes<R: Into<Returned>, F: FnOnce(&mut [u8]) -> R>(
    case: &ReadCase,
    call: F,
) -> bool
    requires { F.IsAlwaysCallable call }
{
    let mut marks = BYTES;
    writes(case, &mut marks, call)
}

// The same of a call that writes two lists of words.
pub(crate) fn writes_two<R: Into<Returned>, F: FnOnce(&mut [u64], &mut [u64]) -> R>(
    case: &ReadCase,
    call: F,
) -> bool
    requires { F.IsAlwaysCallable call }
{
    let room = case.room().min(MOST);
    let spare = case.spare().min(MOST);
    let mut marks = WORDS;
    let mut more_marks = WORDS;
    let out = &mut marks[..room];
    let more = &mut more_marks[..spare];
    returns(case, call(out, more))
        && is_as_expected(out, case.written())
        && is_as_expected(more, case.more_written())
}
