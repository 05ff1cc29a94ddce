// A case where it stands in a file, and with its words read. No reader has a condition on the bytes. README.md of the crate replay has the format.
ghost use Rattle.std.specs.Prelude.{◌<◌, ◌≤◌, length};
ghost use Rattle.std.specs.Iterator.{at_most};

use crate::call::Call;
use crate::reader::{Width, WordArray, WordList, part, split_list};
use crate::returned::Returned;

// The first bytes of a case.
type Head = [u8; 14];

// A case in a file. Its words are read into lists of the caller, since they would be moved with it.
#[derive(Clone, Copy)]
pub struct StoredCase<'a> {
    head: Head,
    bytes: &'a [u8],
    given: WordList<'a>,
    expected: WordList<'a>,
}

impl StoredCase<'_> {
    // The call, where its number is that of one.
    pub fn call(&self) -> Option<Call> {
        Call::try_from(self.head[0]).ok()
    }

    // The case, with its words in two lists that hold zeros.
    pub fn read<'w>(
        &'w self,
        given: &'w mut WordArray,
        expected: &'w mut WordArray,
    ) -> ReadCase<'w> {
        self.given.read(given);
        self.expected.read(expected);
        ReadCase {
            head: self.head,
            bytes: self.bytes,
            given,
            expected,
        }
    }
}

// What a call is given, and what is expected of it.
#[derive(Clone, Copy)]
pub struct ReadCase<'a> {
    head: Head,
    pub bytes: &'a [u8],
    given: &'a WordArray,
    expected: &'a WordArray,
}

impl ReadCase<'_> {
    pub fn number(&self) -> u64 {
        self.given[0]
    }

    pub fn returned(&self) -> Returned {
        Returned {
            refusal: u64::from(self.head[1]),
            first: self.given[1],
            second: self.given[2],
        }
    }

    // The lists of words that are given.
    pub fn first(&self) -> &[u64] {
        part(self.given, 3, self.head[5])
    }

    pub fn second(&self) -> &[u64] {
        part(self.given, 3 + usize::from(self.head[5]), self.head[6])
    }

    pub fn third(&self) -> &[u64] {
        let from = 3 + usize::from(self.head[5]) + usize::from(self.head[6]);
        part(self.given, from, self.head[7])
    }

    // The lengths of the outputs, and what is written to them.
    pub fn room(&self) -> usize {
        usize::from(self.head[2])
    }

    pub fn spare(&self) -> usize {
        usize::from(self.head[3])
    }

    pub fn written(&self) -> &[u64] {
        part(self.expected, 0, self.head[8])
    }

    pub fn more_written(&self) -> &[u64] {
        part(self.expected, usize::from(self.head[8]), self.head[9])
    }
}

// The cases of a file. A head that is cut short is all zeros.
#[derive(Drop)]
pub struct StoredCases<'a> {
    rest: &'a [u8],
}

impl<'a> StoredCases<'a> {
    pub fn new(file: &'a [u8]) -> StoredCases<'a> {
        StoredCases { rest: file }
    }
}

// The head of a case, and what is left after it: all zeros, and nothing, where it is cut short.
fn split_head(file: &[u8]) -> (Head, &[u8])
    ensures { 0 < length file.now → length result.1.now < length file.now }
{
    match file.split_first_chunk::<14>() {
        Some((head, rest)) => (*head, rest),
        None => ([0u8; 14], &[]),
    }
}

// The given bytes, and what is left after them: nothing of either where they go past the end.
fn split_bytes(file: &[u8], count: u8) -> (&[u8], &[u8])
    ensures { length result.1.now ≤ length file.now }
{
    match file.split_at_checked(usize::from(count)) {
        Some(parts) => parts,
        None => (&[], &[]),
    }
}

impl<'a> Iterator for StoredCases<'a> {
    type Item = StoredCase<'a>;

    ghost remaining = { λ s. at_most (length s.rest.now) };

    fn next(&mut self) -> Option<StoredCase<'a>> {
        if self.rest.is_empty() {
            return None;
        }
        let (head, rest) = split_head(self.rest);
        let (bytes, rest) = split_bytes(rest, head[4]);
        let (given, rest) = split_list(rest, head[10], Width::from(head[11]));
        let (expected, rest) = split_list(rest, head[12], Width::from(head[13]));
        self.rest = rest;
        Some(StoredCase {
            head,
            bytes,
            given,
            expected,
        })
    }
}
