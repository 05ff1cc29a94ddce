// The place of a set digit of a word: by halves down to a byte, whose places are in a table.
ghost use Rattle.std.specs.Prelude.{◌≡◌, ◌+◌, ◌<◌, ◌≤◌};
ghost use Rattle.fields.specs.Counting.{count_below};
ghost use Rattle.byte_select.specs.Select.{nth_with};
ghost use Rattle.bit_select.specs.Inner.{digit, Narrowed};

use byte_select::select_in_byte;
use fields::at_most;
use packed::count_word;

// The digits from a place on, and how many set ones of them are left to pass.
#[derive(Drop)]
struct Part {
    digits: u64,
    left: u64,
    at: usize,
}

// The half of 2 * half digits in which the set one is. Without a branch: where the data decide it, half of the guesses would be wrong.
fn narrow(digits: u64, left: u64, half: u8) -> Part
    requires some { left < count_below (digit digits) (half + half) }
    requires small { half ≤ 32 }
    ensures { Narrowed digits left half result.digits result.left result.at }
{
    let count = count_word(digits % (1u64 << half));
    let passed = at_most(count, left) as u8;
    Part {
        digits: digits >> (half * passed),
        left: left - count * passed as u64,
        at: (half * passed) as usize,
    }
}

// The place of the set digit with so many set ones below it.
pub(crate) fn select_in_word(word: u64, left: u64) -> usize
    requires { left < count_below (digit word) 64 }
    ensures { result ≡ nth_with (digit word) 64 left }
{
    let a = narrow(word, left, 32);
    let b = narrow(a.digits, a.left, 16);
    let c = narrow(b.digits, b.left, 8);
    a.at + b.at + c.at + select_in_byte((c.digits % 256) as u8, c.left) as usize
}
