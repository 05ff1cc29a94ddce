// Run lists from rows, ranges and packed bits.
ghost use Rattle.bitmap_build.specs.Build.{ranges, rows_fault, ranges_fault, Built};
ghost use Rattle.packed_build.specs.Packed.{Packed};

use fields::Answer;

#[unsafe(no_mangle)]
pub extern "C" fn mudcanvas_raw_from_rows(rows: &[u64], out: &mut [u64]) -> Answer
    ensures { Built (rows_fault rows.now) (ranges rows.now) out.old result out.new }
{
    bitmap_build::from_rows(rows, out).into()
}

#[unsafe(no_mangle)]
pub extern "C" fn mudcanvas_raw_from_ranges(ranges: &[u64], out: &mut [u64]) -> Answer
    ensures { Built (ranges_fault ranges.now) ranges.now out.old result out.new }
{
    bitmap_build::from_ranges(ranges, out).into()
}

#[unsafe(no_mangle)]
pub extern "C" fn mudcanvas_raw_from_packed_bits(bits: &[u8], out: &mut [u64]) -> Answer
    ensures { Packed bits.now out.old result out.new }
{
    bitmap_build::from_packed_bits(bits, out).into()
}
