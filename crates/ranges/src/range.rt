// A run as a record.
ghost use Rattle.std.specs.Prelude.{◌≡◌};
ghost use Rattle.run_list.specs.Runs.{covers};

// A run, as in the Rust.
#[repr(C)]
#[derive(Clone, Copy, Debug, PartialEq, Eq)]
pub struct RowRange {
    pub end: u64,
    pub start: u64,
}

impl RowRange {
    // Whether the run holds a row. Its end is no row of it.
    pub fn contains(self, row: u64) -> bool
        ensures { result ≡ covers self.start self.end row }
    {
        self.start <= row && row < self.end
    }
}
