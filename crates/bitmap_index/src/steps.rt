// The steps of a filter, as the words of a call.
ghost use Rattle.std.specs.Prelude.{◌≡◌, true, ◌*◌, ◌<◌, length, get_or, MatchResult};
ghost use Rattle.fields.specs.Refusal.{refusal_of, refusal_number};
ghost use Rattle.boundary.specs.Merge.{op_of};
ghost use Rattle.bitmap_index.specs.Filter.{step, kind_number, unknown_kind, kinds_fault, named};
ghost use Rattle.bitmap_index.specs.Inner.{steps_fault, steps_of};

use bitmap::Operation;
use fields::Refusal;

// The kinds of step, by their numbers in a filter.
#[derive(Clone, Copy, Debug, PartialEq, Eq)]
pub enum StepKind {
    Take = 1,
    And = 2,
    Or = 3,
    Without = 4,
}

impl TryFrom<u64> for StepKind {
    type Error = Refusal;

    ghost try_from_gives = { λ number r. MatchResult r (λ kind. kind_number kind ≡ number) (λ e. (refusal_number e ≡ 8) × (unknown_kind number ≡ true)) };

    fn try_from(number: u64) -> Result<StepKind, Refusal> {
        match number {
            1 => Ok(StepKind::Take),
            2 => Ok(StepKind::And),
            3 => Ok(StepKind::Or),
            4 => Ok(StepKind::Without),
            _ => Err(Refusal::StepKind),
        }
    }
}

impl StepKind {
    pub(crate) fn operation(self) -> Operation
        ensures { op_of result.table ≡ step (kind_number self) }
    {
        match self {
            StepKind::Take => bitmap::RIGHT,
            StepKind::And => bitmap::INTERSECT,
            StepKind::Or => bitmap::UNION,
            StepKind::Without => bitmap::DIFFERENCE,
        }
    }
}

// Judges the kinds of steps.
fn check_kinds(steps: &[u64]) -> Result<(), Refusal>
    ensures { refusal_of result ≡ kinds_fault steps.now }
{
    let (pairs, _) = steps.as_chunks::<2>();
    for [kind, _] in pairs {
        StepKind::try_from(*kind)?;
    }
    Ok(())
}

// Judges steps, but for their length limit.
pub(crate) fn check_steps(steps: &[u64]) -> Result<(), Refusal>
    ensures { refusal_of result ≡ steps_fault steps.now }
{
    if steps.len() % 2 == 1 {
        return Err(Refusal::OddWords);
    }
    check_kinds(steps)
}

// The steps of a filter as pairs of kind and value, or the values of an intersection, to be taken and then to be intersected.
#[derive(Clone, Copy)]
pub(crate) enum Steps<'a> {
    Pairs(&'a [u64]),
    Values(&'a [u64]),
}

impl Steps<'_> {
    // How many there are, each naming a value.
    pub(crate) fn len(self) -> usize
        ensures { result ≡ length (named (steps_of self.entry)) }
    {
        match self {
            Steps::Pairs(words) => words.len() / 2,
            Steps::Values(values) => values.len(),
        }
    }

    // The value that step i names.
    pub(crate) fn value(self, i: usize) -> u64
        requires few { i < 4096 }
        requires within { i < length (named (steps_of self)) }
        ensures { result ≡ get_or (named (steps_of self.entry)) i 0 }
    {
        match self {
            Steps::Pairs(words) => words[2 * i + 1],
            Steps::Values(values) => values[i],
        }
    }

    // The kind of step i. A number that is no kind, which the call refuses, counts as the last.
    pub(crate) fn kind(self, i: usize) -> StepKind
        requires few { i < 4096 }
        requires within { i < length (named (steps_of self)) }
        ensures { step (kind_number result) ≡ step (get_or (steps_of self.entry) (2 * i) 0) }
    {
        match self {
            Steps::Pairs(words) => StepKind::try_from(words[2 * i]).unwrap_or(StepKind::Without),
            Steps::Values(_) if i == 0 => StepKind::Take,
            Steps::Values(_) => StepKind::And,
        }
    }
}
