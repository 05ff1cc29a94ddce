// The text of a refusal or of kept runs, all of it or nothing.
ghost use Rattle.fields.specs.Answers.{StoredAt, Writes, answer_of};
ghost use Rattle.report.specs.Inner.{outcome_text};

use crate::print::Page;
use bitmap::RunList;
use fields::Refusal;

// The runs that are kept, or a refusal.
pub(crate) type Outcome<'a> = Result<RunList<'a>, Refusal>;

// Stores the text as far as there is room; returns its length.
fn store(outcome: Outcome<'_>, out: &mut [u8]) -> usize
    ensures { StoredAt (outcome_text outcome.entry) out.old 0 result out.new }
{
    let mut page = Page { bytes: out, len: 0 };
    page.put_outcome(outcome);
    page.len
}

// Writes the text, or nothing where there is no room for all of it.
pub(crate) fn write_outcome(outcome: Outcome<'_>, out: &mut [u8]) -> Result<usize, Refusal>
    ensures { Writes (outcome_text outcome.entry) out.old (answer_of result) out.new }
{
    let len = store(outcome, &mut []);
    if out.len() < len {
        return Err(Refusal::NoRoom);
    }
    store(outcome, out);
    Ok(len)
}
