// Select over packed bits, with the directory of crate bit_rank.
#![tactic(auto)]

mod selected;
mod word;

ghost use Rattle.fields.specs.Answers.{answer_of};
ghost use Rattle.bit_select.specs.BitSelects.{Selects};

use bit_rank::BitRanks;
use fields::Refusal;
use packed::{PackedBits, cut_to};
use run_list::look_up_sorted;
use selected::Selected;

// For each k, the place of the set bit with k set bits before it, where there is one below len.
pub fn select(
    bits: &[u8],
    len: usize,
    directory: &[u64],
    ks: &[u64],
    out: &mut [u64],
) -> Result<usize, Refusal>
    ensures { Selects bits.now len directory.now ks.now out.old (answer_of result) out.new }
{
    let packed = PackedBits::try_from(bits)?;
    let selected = Selected(BitRanks::new(packed, cut_to(bits, len), directory)?);
    look_up_sorted(&selected, ks, out)
}
