// Index bytes and filters.
ghost use Rattle.index.specs.Calls.{Read, PartOf};
ghost use Rattle.index_write.specs.Calls.{Encoded, Inserted};
ghost use Rattle.index_merge.specs.Calls.{Merged};
ghost use Rattle.bitmap_index.specs.Filter.{Filtered, Intersected};

use bitmap_index::{IndexRead, Part};
use fields::Answer;

#[unsafe(no_mangle)]
pub extern "C" fn mudcanvas_raw_index_decode(index: &[u8]) -> IndexRead
    ensures { Read index.now result }
{
    bitmap_index::decode(index).into()
}

// A returned slice cannot cross, so the place and the length of what `bitmap` gives back.
#[unsafe(no_mangle)]
pub extern "C" fn mudcanvas_raw_index_bitmap(index: &[u8], value: u64) -> Part
    ensures { PartOf index.now value result }
{
    bitmap_index::bitmap_at(index, value).into()
}

#[unsafe(no_mangle)]
pub extern "C" fn mudcanvas_raw_index_encode(index: &[u8], out: &mut [u8]) -> Answer
    ensures { Encoded index.now out.old result out.new }
{
    bitmap_index::encode(index, out).into()
}

#[unsafe(no_mangle)]
pub extern "C" fn mudcanvas_raw_index_insert(
    index: &[u8],
    value: u64,
    runs: &[u64],
    out: &mut [u8],
) -> Answer
    ensures { Inserted index.now value runs.now out.old result out.new }
{
    bitmap_index::insert(index, value, runs, out).into()
}

#[unsafe(no_mangle)]
pub extern "C" fn mudcanvas_raw_index_merge(first: &[u8], second: &[u8], out: &mut [u8]) -> Answer
    ensures { Merged first.now second.now out.old result out.new }
{
    bitmap_index::merge(first, second, out).into()
}

#[unsafe(no_mangle)]
pub extern "C" fn mudcanvas_raw_filter(
    index: &[u8],
    steps: &[u64],
    out: &mut [u64],
    scratch: &mut [u64],
) -> Answer
    ensures { Filtered index.now steps.now out.old scratch.old result out.new scratch.new }
{
    bitmap_index::filter(index, steps, out, scratch).into()
}

#[unsafe(no_mangle)]
pub extern "C" fn mudcanvas_raw_intersect_values(
    index: &[u8],
    values: &[u64],
    out: &mut [u64],
    scratch: &mut [u64],
) -> Answer
    ensures { Intersected index.now values.now out.old scratch.old result out.new scratch.new }
{
    bitmap_index::intersect_values(index, values, out, scratch).into()
}
