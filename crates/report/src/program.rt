// What the program prints.
ghost use Rattle.std.specs.Prelude.{MatchResult};
ghost use Rattle.report.specs.Report.{Reported};
ghost use Rattle.fields.specs.Answers.{answer_of};
ghost use Rattle.report.specs.Inner.{Kept, Refused};

use crate::lines::read_steps;
use crate::outcome::{Outcome, write_outcome};
use bitmap::RunList;
use fields::Refusal;

// The index and the filter have at most 8,192 bytes.
const MAX_BYTES: usize = 8192;

// The runs that the filter keeps, or the refusal of an index and a filter. An index of at most 8,192 bytes has fewer than 512 runs, so that
// lists of 1,024 words have room for all of them; the steps of a text are no more words than it has bytes.
fn judge<'a>(
    index: &[u8],
    text: &[u8],
    steps: &mut [u64; 8192],
    kept: &'a mut [u64; 1024],
    scratch: &mut [u64; 1024],
) -> Outcome<'a>
    ensures { MatchResult result (λ runs. Kept index.now text.now runs.words.now) (λ refusal. Refused index.now text.now refusal) }
{
    if MAX_BYTES < index.len() || MAX_BYTES < text.len() {
        return Err(Refusal::TooLong);
    }
    let Some(words) = read_steps(text, steps) else {
        return Err(Refusal::StepKind);
    };
    let len = bitmap_index::filter(index, &steps[..words], kept, scratch)?;
    Ok(RunList {
        words: &kept[..len],
    })
}

// Writes the text that the program prints for an index and a filter. A refusal of theirs is text; the call itself is refused only where the text does not
// fit.
pub fn report(index: &[u8], text: &[u8], out: &mut [u8]) -> Result<usize, Refusal>
    ensures { Reported index.now text.now out.old (answer_of result) out.new }
{
    let mut steps = [0u64; 8192];
    let mut kept = [0u64; 1024];
    let mut scratch = [0u64; 1024];
    write_outcome(judge(index, text, &mut steps, &mut kept, &mut scratch), out)
}
