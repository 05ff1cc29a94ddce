// Reading filter lines. Each reader splits what it reads from the front of a text.
ghost use Rattle.std.specs.Prelude.{◌≡◌, false, ◌^◌, ◌<◌, ◌≤◌, length, MatchOption, SomeIff};
ghost use Rattle.bitmap_index.specs.Filter.{kind_number};
ghost use Rattle.report.specs.Lines.{word_kind, digit_count, number_from, value_good, line_kind, text_fault};
ghost use Rattle.report.specs.Inner.{SplitsWord, SplitsValue, SplitsLine, StepsRead};

use bitmap_index::StepKind;

// A value has 1 to 20 digits.
const MAX_DIGITS: usize = 20;

struct Line {
    kind: StepKind,
    value: u64,
}

// The word of a line with its comma.
fn split_word(text: &[u8]) -> Option<(StepKind, &[u8])>
    ensures { MatchOption result (word_kind text.now ≡ 0) (λ (kind, rest). SplitsWord text.now (kind_number kind) rest.now) }
{
    if let Some(rest) = text.strip_prefix(b"take,") {
        return Some((StepKind::Take, rest));
    }
    if let Some(rest) = text.strip_prefix(b"and,") {
        return Some((StepKind::And, rest));
    }
    if let Some(rest) = text.strip_prefix(b"or,") {
        return Some((StepKind::Or, rest));
    }
    let rest = text.strip_prefix(b"without,")?;
    Some((StepKind::Without, rest))
}

// The number of digits that a text starts with.
fn digit_count(text: &[u8]) -> usize
    ensures { result ≡ digit_count text.now }
{
    text.iter()
        .position(|byte| !byte.is_ascii_digit())
        .unwrap_or(text.len())
}

// The number of some digits, where it is below 2^64.
fn number(digits: &[u8]) -> Option<u64>
    ensures { SomeIff result (number_from 0 (length digits.now) digits.now < 2 ^ 64) (number_from 0 (length digits.now) digits.now) }
{
    let mut number: u64 = 0;
    for digit in digits {
        let value = u64::from(digit.saturating_sub(b'0'));
        number = number.checked_mul(10)?.checked_add(value)?;
    }
    Some(number)
}

// The value of a line, with the line feed after it.
fn split_value(text: &[u8]) -> Option<(u64, &[u8])>
    ensures { MatchOption result (value_good text.now ≡ false) (λ (value, rest). SplitsValue text.now value rest.now) }
{
    let count = digit_count(text);
    if count == 0 || MAX_DIGITS < count {
        return None;
    }
    let (digits, rest) = text.split_at(count);
    let rest = rest.strip_prefix(b"\n")?;
    Some((number(digits)?, rest))
}

fn split_line(text: &[u8]) -> Option<(Line, &[u8])>
    ensures { MatchOption result (line_kind text.now ≡ 0) (λ (line, rest). SplitsLine text.now (kind_number line.kind) line.value rest.now) }
{
    let (kind, rest) = split_word(text)?;
    let (value, rest) = split_value(rest)?;
    Some((Line { kind, value }, rest))
}

// The steps of all lines of a text, which has no more bytes than there is room for words, and how many words they are; none where a line is malformed.
pub(crate) fn read_steps(text: &[u8], steps: &mut [u64]) -> Option<usize>
    requires text_len_bound { length text.now ≤ 8192 }
    requires text_in_bounds { length text.now ≤ length steps.old }
    ensures { MatchOption result (text_fault text.now ≡ 8) (λ len. StepsRead text.now steps.old len steps.new) }
{
    let mut rest = text;
    let mut len = 0;
    // By what is left: each line has a length of its own.
    while !rest.is_empty() {
        let (Line { kind, value }, after) = split_line(rest)?;
        steps[len] = kind as u64;
        steps[len + 1] = value;
        rest = after;
        len += 2;
    }
    Some(len)
}
