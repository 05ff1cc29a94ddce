// Writing text.
ghost use Rattle.std.specs.Prelude.{◌≡◌, [], ◌∷◌, ◌+◌, ◌*◌, ◌^◌, ◌<◌, ◌≤◌, length};
ghost use Rattle.report.specs.Report.{decimal, number_line, run_line, run_lines, kept_text};
ghost use Rattle.report.specs.Inner.{Puts, outcome_text};

use crate::outcome::Outcome;
use bitmap::RunList;
use itoa::Buffer;

// A text that is written to a slice from the front: its bytes as far as there is room, and the number of all of them.
#[derive(Drop)]
pub(crate) struct Page<'a> {
    pub(crate) bytes: &'a mut [u8],
    pub(crate) len: usize,
}

impl Page<'_> {
    fn put_byte(&mut self, byte: u8)
        requires { self.old.len < 2 ^ 62 }
        ensures { Puts (byte ∷ []) self.old self.new }
    {
        // By index: of a slice that `get_mut` lent an element, a proof knows no element.
        if self.len < self.bytes.len() {
            self.bytes[self.len] = byte;
        }
        self.len += 1;
    }

    fn put_bytes(&mut self, bytes: &[u8])
        requires { self.old.len + length bytes.now < 2 ^ 62 }
        ensures { Puts bytes.now self.old self.new }
    {
        for byte in bytes {
            self.put_byte(*byte);
        }
    }

    fn put_number(&mut self, x: u64)
        requires { self.old.len + 20 < 2 ^ 62 }
        ensures { Puts (decimal x) self.old self.new }
    {
        let mut buffer = Buffer::new();
        self.put_bytes(buffer.format(x).as_bytes());
    }

    fn put_number_line(&mut self, word: &[u8], x: u64)
        requires { self.old.len + length word.now + 20 < 2 ^ 62 }
        ensures { Puts (number_line word.now x) self.old self.new }
    {
        self.put_bytes(word);
        self.put_number(x);
        self.put_byte(b'\n');
    }

    fn put_run(&mut self, start: u64, end: u64)
        requires { self.old.len + 46 < 2 ^ 62 }
        ensures { Puts (run_line start end) self.old self.new }
    {
        self.put_bytes(b"run,");
        self.put_number(start);
        self.put_number_line(b",", end);
    }

    fn put_runs(&mut self, runs: &[u64])
        requires { self.old.len + 23 * length runs.now < 2 ^ 62 }
        ensures { Puts (run_lines runs.now) self.old self.new }
    {
        let (pairs, _) = runs.as_chunks::<2>();
        for [start, end] in pairs {
            self.put_run(*start, *end);
        }
    }

    // What is printed of kept runs.
    fn put_kept(&mut self, runs: RunList<'_>)
        requires { self.old.len < 2 ^ 61 }
        ensures { Puts (kept_text runs.entry.words.now) self.old self.new }
    {
        self.put_number_line(b"count,", runs.count());
        self.put_runs(runs.words);
    }

    // What is printed of kept runs, or of a refusal.
    pub(crate) fn put_outcome(&mut self, outcome: Outcome<'_>)
        requires { self.old.len < 2 ^ 61 }
        ensures { Puts (outcome_text outcome.entry) self.old self.new }
    {
        match outcome {
            Ok(runs) => self.put_kept(runs),
            Err(refusal) => self.put_number_line(b"refused,", refusal.number()),
        }
    }
}
