// Steps carried out over an index.
ghost use Rattle.std.specs.Prelude.{◌≡◌, ◌*◌, ◌<◌, ◌≤◌, length, map};
ghost use Rattle.fields.specs.Answers.{Stored, answer_of};
ghost use Rattle.fields.specs.Refusal.{refusal_of};
ghost use Rattle.index.specs.Index.{entries};
ghost use Rattle.index.specs.Search.{place_of};
ghost use Rattle.bitmap_index.specs.Filter.{named, need, Kept};
ghost use Rattle.bitmap_index.specs.Inner.{steps_of, value_fault, StepsKept, stepped, first_kept, FirstStep, Ran, Cleared};

use crate::steps::Steps;
use fields::Refusal;
use index::BitmapIndex;

// A filter has at most 4,096 steps, and an intersection as many values.
pub(crate) const MAX_STEPS: usize = 4096;

// Most filters have no more.
const FEW_STEPS: usize = 64;

// Steps over an index, and the place of the block of each step's value: each is looked up once.
#[derive(Clone, Copy)]
struct Plan<'a> {
    index: BitmapIndex<'a>,
    steps: Steps<'a>,
    places: &'a [u32],
    ghost few: { length places.now ≤ 4096 },
    ghost number: { 2 * length places.now ≡ length (steps_of steps) },
    ghost placed: { places.now ≡ map (place_of index.bytes.now) (named (steps_of steps)) },
}

// Writes zeros after the kept words and into the scratch, up to a place.
fn clear_both(out: &mut [u64], len: usize, scratch: &mut [u64], room: usize)
    ensures { Cleared len room out.old scratch.old out.new scratch.new }
{
    fields::clear_words(out, len, room);
    fields::clear_words(scratch, 0, room);
}

impl<'a> Plan<'a> {
    // Looks up the value of each step. The places are stored at the front of a list that has room for them.
    fn new(index: BitmapIndex<'a>, steps: Steps<'a>, room: &'a mut [u32]) -> Plan<'a>
        requires few { length (named (steps_of steps)) ≤ 4096 }
        requires fits { length (named (steps_of steps)) ≤ length room.now }
        requires number { 2 * length (named (steps_of steps)) ≡ length (steps_of steps) }
        ensures bytes { result.index.bytes.now ≡ index.entry.bytes.now }
        ensures steps { result.steps ≡ steps.entry }
    {
        let n = steps.len();
        for i in 0..n {
            room[i] = index.place_of(steps.value(i));
        }
        Plan {
            index,
            steps,
            places: &room[..n],
        }
    }
}

impl Plan<'_> {
    // Refuses a filter that names a value which the index has no entry for; an entry without runs is one. To an intersection such a value is empty.
    fn check_values(&self) -> Result<(), Refusal>
        ensures { refusal_of result ≡ value_fault (entries self.now.index.bytes.now) self.now.steps }
    {
        match self.steps {
            Steps::Pairs(_) if self.places.contains(&0) => Err(Refusal::MissingValue),
            _ => Ok(()),
        }
    }

    // Carries out step i on the kept rows. The rows of its value are read in place, in the index.
    fn apply(&self, i: usize, kept: &[u64], out: &mut [u64]) -> usize
        requires { i < length self.now.places.now }
        ensures { Stored (stepped (entries self.now.index.bytes.now) (steps_of self.now.steps) i kept.now) out.old result out.new }
    {
        let block = self.index.block_at(self.places[i]);
        let operation = self.steps.kind(i).operation();
        bitmap::merge_block(kept, block, operation, out)
    }

    // The first step of an odd number of steps, and otherwise nothing: returns the number of kept words.
    fn apply_first(&self, out: &mut [u64]) -> usize
        ensures { Stored (first_kept (entries self.now.index.bytes.now) (steps_of self.now.steps) (length self.now.places.now)) out.old result out.new }
    {
        if self.places.len() % 2 == 0 {
            return 0;
        }
        self.apply(0, &[], out)
    }

    // Carries out the steps after the first of an odd number, or all of an even one, two at a time: from out to the scratch and back. Returns the number of
    // kept words.
    fn apply_pairs(&self, first: usize, out: &mut [u64], scratch: &mut [u64]) -> usize
        requires { FirstStep self.now.index.bytes.now (steps_of self.now.steps) (length self.now.places.now) first out.old scratch.old }
        ensures { Ran self.now.index.bytes.now (steps_of self.now.steps) out.old scratch.old result out.new scratch.new }
    {
        let mut len = first;
        let n = self.places.len();
        for i in (n % 2..n).step_by(2) {
            let mid = self.apply(i, &out[..len], scratch);
            len = self.apply(i + 1, &scratch[..mid], out);
        }
        len
    }

    // Carries out the steps. The two lists hold the kept rows alternately, and out holds them after the last step: returns the number of their words.
    fn apply_all(&self, out: &mut [u64], scratch: &mut [u64]) -> usize
        requires index_in_bounds { need (entries self.now.index.bytes.now) ≤ length out.old }
        requires index_in_bounds_2 { need (entries self.now.index.bytes.now) ≤ length scratch.old }
        ensures { Ran self.now.index.bytes.now (steps_of self.now.steps) out.old scratch.old result out.new scratch.new }
    {
        let first = self.apply_first(out);
        self.apply_pairs(first, out, scratch)
    }

    // Carries out the steps where each list has the room that it needs, and clears the rest of that room.
    fn keep_rows(&self, out: &mut [u64], scratch: &mut [u64]) -> Result<usize, Refusal>
        ensures { Kept 0 self.now.index.bytes.now (steps_of self.now.steps) out.old scratch.old (answer_of result) out.new scratch.new }
    {
        let room = self.index.words();
        if out.len() < room {
            return Err(Refusal::NoRoom);
        }
        if scratch.len() < room {
            return Err(Refusal::NoRoom);
        }
        let len = self.apply_all(out, scratch);
        clear_both(out, len, scratch, room);
        Ok(len)
    }
}

// Looks up the values of steps, with room for their places, and carries the steps out.
fn keep_rows_with(
    room: &mut [u32],
    index: BitmapIndex<'_>,
    steps: Steps<'_>,
    out: &mut [u64],
    scratch: &mut [u64],
) -> Result<usize, Refusal>
    requires few { length (named (steps_of steps)) ≤ 4096 }
    requires fits { length (named (steps_of steps)) ≤ length room.now }
    requires number { 2 * length (named (steps_of steps)) ≡ length (steps_of steps) }
    ensures { StepsKept index.entry.bytes.now steps.entry out.old scratch.old (answer_of result) out.new scratch.new }
{
    let plan = Plan::new(index, steps, room);
    plan.check_values()?;
    plan.keep_rows(out, scratch)
}

// Carries out steps over an index. Few steps have a short list of places: to clear a long one takes longer than a filter over a small index does.
pub(crate) fn keep_rows(
    index: BitmapIndex<'_>,
    steps: Steps<'_>,
    out: &mut [u64],
    scratch: &mut [u64],
) -> Result<usize, Refusal>
    requires few { length (named (steps_of steps)) ≤ 4096 }
    requires number { 2 * length (named (steps_of steps)) ≡ length (steps_of steps) }
    ensures { StepsKept index.entry.bytes.now steps.entry out.old scratch.old (answer_of result) out.new scratch.new }
{
    if steps.len() <= FEW_STEPS {
        return keep_rows_with(&mut [0; FEW_STEPS], index, steps, out, scratch);
    }
    keep_rows_with(&mut [0; MAX_STEPS], index, steps, out, scratch)
}
