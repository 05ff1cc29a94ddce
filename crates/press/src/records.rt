// The calls over a lent list of records.
ghost use Rattle.run_list.specs.Calls.{Contains, Counts};
ghost use Rattle.ranges.specs.Ranges.{words};

use bitmap::Listed;
use fields::Number;
use ranges::RowRange;

// Whether a row is listed.
#[unsafe(no_mangle)]
pub extern "C" fn mudcanvas_raw_ranges_contains(ranges: &[RowRange], row: u64) -> Listed
    ensures { Contains (words ranges.now) row result }
{
    ranges::contains(ranges, row).into()
}

// The number of listed rows.
#[unsafe(no_mangle)]
pub extern "C" fn mudcanvas_raw_ranges_count(ranges: &[RowRange]) -> Number
    ensures { Counts (words ranges.now) result }
{
    ranges::count(ranges).into()
}
