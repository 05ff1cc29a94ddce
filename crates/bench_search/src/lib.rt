// The search alone, for the benchmark: one list, judged once, and many rows. The library's own call takes one row, and judges the list each time.
#![tactic(auto)]

ghost use Rattle.std.specs.Prelude.{◌≡◌, ◌≤◌, length, map};
ghost use Rattle.std.proofs.lemmas.List.Edits.{sets};
ghost use Rattle.fields.specs.Answers.{answer_of};
ghost use Rattle.bench_search.specs.BenchSearch.{place_word, SearchesEach};

use fields::{Answer, Refusal};
use run_list::RunList;

// For each row twice the number of runs that start at or below it, and 1 more where it is listed.
fn search_each(list: RunList<'_>, rows: &[u64], out: &mut [u64])
    requires { length rows.now ≤ length out.old }
    ensures { out.new ≡ sets out.old 0 (map (place_word list.entry.words.now) rows.now) }
{
    for (i, row) in rows.iter().enumerate() {
        let place = list.search(*row);
        out[i] = 2 * place.begun as u64 + u64::from(place.listed);
    }
}

fn search(runs: &[u64], rows: &[u64], out: &mut [u64]) -> Result<usize, Refusal>
    ensures { SearchesEach runs.now rows.now out.old (answer_of result) out.new }
{
    let list = RunList::try_from(runs)?;
    if out.len() < rows.len() {
        return Err(Refusal::NoRoom);
    }
    search_each(list, rows, out);
    Ok(rows.len())
}

#[unsafe(no_mangle)]
pub extern "C" fn mudcanvas_bench_search(runs: &[u64], rows: &[u64], out: &mut [u64]) -> Answer
    ensures { SearchesEach runs.now rows.now out.old result out.new }
{
    search(runs, rows, out).into()
}
