// One pass over records: it judges them, adds up their rows and looks for a row.
ghost use Rattle.std.specs.Prelude.{◌≡◌, ◌||◌, ◌+◌, ◌-◌, ◌<◌, ◌≤◌, IfOk};
ghost use Rattle.fields.specs.Refusal.{refusal_of};
ghost use Rattle.run_list.specs.Runs.{covers, has, fault};
ghost use Rattle.run_list.specs.Rows.{rows};
ghost use Rattle.ranges.specs.Ranges.{words};

use crate::RowRange;
use fields::Refusal;
use run_list::check_run;

// A run list has at most 268,435,455 runs.
const MAX_RUNS: usize = 268435455;

#[derive(Clone, Copy)]
pub(crate) struct Found {
    pub(crate) rows: u64,
    pub(crate) listed: bool,
}

impl Found {
    // The same with a record more, which has its rows past those that were found.
    fn with(self, range: RowRange, row: u64) -> Found
        requires past { self.rows ≤ range.start }
        requires some { range.start < range.end }
        ensures rows { result.rows ≡ self.rows + (range.end - range.start) }
        ensures listed { result.listed ≡ (self.listed || covers range.start range.end row) }
    {
        Found {
            rows: self.rows + (range.end - range.start),
            listed: self.listed | range.contains(row),
        }
    }
}

// The number of rows of all records, and whether a row is among them.
pub(crate) fn scan(ranges: &[RowRange], row: u64) -> Result<Found, Refusal>
    ensures judged { refusal_of result ≡ fault (words ranges.now) }
    ensures rows { IfOk result (λ f. f.rows ≡ rows (words ranges.now)) }
    ensures listed { IfOk result (λ f. f.listed ≡ has (words ranges.now) row) }
{
    if MAX_RUNS < ranges.len() {
        return Err(Refusal::TooLong);
    }
    let mut last = None;
    let mut found = Found {
        rows: 0,
        listed: false,
    };
    for range in ranges {
        check_run(last, range.start, range.end)?;
        last = Some(range.end);
        found = found.with(*range, row);
    }
    Ok(found)
}
