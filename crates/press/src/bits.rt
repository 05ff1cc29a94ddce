// Rank and select over packed bits.
ghost use Rattle.bit_rank.specs.BitRanks.{Directory, Ranks, Ranges, Total};
ghost use Rattle.bit_select.specs.BitSelects.{Selects};

use fields::{Answer, Number};

#[unsafe(no_mangle)]
pub extern "C" fn mudcanvas_raw_bit_directory(bits: &[u8], len: usize, out: &mut [u64]) -> Answer
    ensures { Directory bits.now len out.old result out.new }
{
    rank_select::bits::new(bits, len, out).into()
}

#[unsafe(no_mangle)]
pub extern "C" fn mudcanvas_raw_bit_rank(
    bits: &[u8],
    len: usize,
    directory: &[u64],
    positions: &[u64],
    out: &mut [u64],
) -> Answer
    ensures { Ranks bits.now len directory.now positions.now out.old result out.new }
{
    rank_select::bits::rank(bits, len, directory, positions, out).into()
}

#[unsafe(no_mangle)]
pub extern "C" fn mudcanvas_raw_bit_count_range(
    bits: &[u8],
    len: usize,
    directory: &[u64],
    pairs: &[u64],
    out: &mut [u64],
) -> Answer
    ensures { Ranges bits.now len directory.now pairs.now out.old result out.new }
{
    rank_select::bits::count_range(bits, len, directory, pairs, out).into()
}

#[unsafe(no_mangle)]
pub extern "C" fn mudcanvas_raw_bit_total(bits: &[u8], len: usize, directory: &[u64]) -> Number
    ensures { Total bits.now len directory.now result }
{
    rank_select::bits::total(bits, len, directory).into()
}

#[unsafe(no_mangle)]
pub extern "C" fn mudcanvas_raw_bit_select(
    bits: &[u8],
    len: usize,
    directory: &[u64],
    ks: &[u64],
    out: &mut [u64],
) -> Answer
    ensures { Selects bits.now len directory.now ks.now out.old result out.new }
{
    rank_select::bits::select(bits, len, directory, ks, out).into()
}
