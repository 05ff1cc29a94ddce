// Presence over packed bits.
ghost use Rattle.presence.specs.Present.{SetBits, Position, Directory, Positions};

use fields::{Answer, Number};

#[unsafe(no_mangle)]
pub extern "C" fn mudcanvas_raw_count_set_bits(bits: &[u8], len: usize) -> Number
    ensures { SetBits bits.now len result }
{
    presence::count_set_bits(bits, len).into()
}

#[unsafe(no_mangle)]
pub extern "C" fn mudcanvas_raw_present_position(bits: &[u8], row: usize) -> Number
    ensures { Position bits.now row result }
{
    presence::present_position(bits, row).into()
}

#[unsafe(no_mangle)]
pub extern "C" fn mudcanvas_raw_presence_directory(bits: &[u8], out: &mut [u32]) -> Answer
    ensures { Directory bits.now out.old result out.new }
{
    presence::new(bits, out).into()
}

#[unsafe(no_mangle)]
pub extern "C" fn mudcanvas_raw_position(
    bits: &[u8],
    directory: &[u32],
    rows: &[u64],
    out: &mut [u64],
) -> Answer
    ensures { Positions bits.now directory.now rows.now out.old result out.new }
{
    presence::position(bits, directory, rows, out).into()
}
