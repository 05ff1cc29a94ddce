// Run lists: set operations, rows, blocks.
ghost use Rattle.boundary.specs.Merge.{either, both, left_only};
ghost use Rattle.bitmap.specs.Calls.{Combined};
ghost use Rattle.run_list.specs.Calls.{Contains, Counts, Decoded, Encoded, Searches};
ghost use Rattle.neighbours.specs.Neighbours.{NearestRows, FirstOverlap};

use bitmap::{Listed, PlaceAnswer};
use fields::{Answer, Number};
use neighbours::NearestAnswer;

#[unsafe(no_mangle)]
pub extern "C" fn mudcanvas_raw_union(left: &[u64], right: &[u64], out: &mut [u64]) -> Answer
    ensures { Combined either left.now right.now out.old result out.new }
{
    bitmap::union(left, right, out).into()
}

#[unsafe(no_mangle)]
pub extern "C" fn mudcanvas_raw_intersect(left: &[u64], right: &[u64], out: &mut [u64]) -> Answer
    ensures { Combined both left.now right.now out.old result out.new }
{
    bitmap::intersect(left, right, out).into()
}

#[unsafe(no_mangle)]
pub extern "C" fn mudcanvas_raw_difference(left: &[u64], right: &[u64], out: &mut [u64]) -> Answer
    ensures { Combined left_only left.now right.now out.old result out.new }
{
    bitmap::difference(left, right, out).into()
}

#[unsafe(no_mangle)]
pub extern "C" fn mudcanvas_raw_contains(runs: &[u64], row: u64) -> Listed
    ensures { Contains runs.now row result }
{
    bitmap::contains(runs, row).into()
}

#[unsafe(no_mangle)]
pub extern "C" fn mudcanvas_raw_search(runs: &[u64], row: u64) -> PlaceAnswer
    ensures { Searches runs.now row result }
{
    bitmap::search(runs, row).into()
}

#[unsafe(no_mangle)]
pub extern "C" fn mudcanvas_raw_count(runs: &[u64]) -> Number
    ensures { Counts runs.now result }
{
    bitmap::count(runs).into()
}

#[unsafe(no_mangle)]
pub extern "C" fn mudcanvas_raw_neighbours(runs: &[u64], row: u64) -> NearestAnswer
    ensures { NearestRows runs.now row result }
{
    neighbours::neighbours(runs, row).into()
}

#[unsafe(no_mangle)]
pub extern "C" fn mudcanvas_raw_first_overlap(runs: &[u64], start: u64, end: u64) -> Number
    ensures { FirstOverlap runs.now start end result }
{
    neighbours::first_overlap(runs, start, end).into()
}

#[unsafe(no_mangle)]
pub extern "C" fn mudcanvas_raw_block_decode(block: &[u8], out: &mut [u64]) -> Answer
    ensures { Decoded block.now out.old result out.new }
{
    bitmap::decode(block, out).into()
}

#[unsafe(no_mangle)]
pub extern "C" fn mudcanvas_raw_block_encode(runs: &[u64], out: &mut [u8]) -> Answer
    ensures { Encoded runs.now out.old result out.new }
{
    bitmap::encode(runs, out).into()
}
