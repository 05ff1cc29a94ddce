// Ranges appended one after another to a list in an output: the last run is pending, not yet written, since the next range may extend it.
ghost use Rattle.std.specs.Prelude.{◌≡◌, ◌&&◌, ℕ, ◌+◌, ◌*◌, ◌%◌, ◌^◌, ◌≤◌, ◌<◌, leb, length, get_or};
ghost use Rattle.std.specs.List.{All};
ghost use Rattle.fields.specs.Answers.{none};
ghost use Rattle.bitmap_build.specs.Joining.{run, PutRun, Appended, pairs, Gathered, Normal};
ghost use Rattle.bitmap_build.specs.Sorting.{Sorted};

// The number of words written, and the pending run, which may be empty.
#[derive(Clone, Copy)]
struct Pending {
    k: usize,
    a: u64,
    b: u64,
}

// Writes the run from a to b at k, where it has a row; returns the next place.
fn put_run(s: &mut [u64], k: usize, a: u64, b: u64) -> usize
    requires { k + length (run a b) ≤ length s.old }
    ensures { PutRun k a b s.old result s.new }
{
    if a < b {
        s[k] = a;
        s[k + 1] = b;
        return k + 2;
    }
    k
}

// Whether a range that starts at s extends the run from a to b.
fn touches(a: u64, b: u64, s: u64) -> bool
    ensures { result ≡ (leb a s && leb s b) }
{
    a <= s && s <= b
}

// Appends the rows from s up to e. An empty range must not end the pending run, which the next range may touch.
fn append_range(out: &mut [u64], o: Pending, s: u64, e: u64) -> Pending
    requires k_value { o.k % 2 ≡ 0 }
    requires b_in_bounds { o.k + length (run o.a o.b) ≤ length out.old }
    ensures { Appended o.k o.a o.b out.old s e result.k result.a result.b out.new }
{
    let Pending { k, a, b } = o;
    if touches(a, b, s) {
        return Pending { k, a, b: b.max(e) };
    }
    if e <= s {
        return o;
    }
    let n = put_run(out, k, a, b);
    Pending { k: n, a: s, b: e }
}

// Joins sorted pairs in place: no word is written before it is read. Returns the number of words written.
pub(crate) fn join(s: &mut [u64]) -> usize
    requires { Sorted 0 none s.old }
    ensures { Normal s.old result s.new }
{
    let mut o = Pending { k: 0, a: 0, b: 0 };
    // By index: runs are written where pairs were read.
    for i in 0..s.len() / 2 {
        let (start, end) = (s[2 * i], s[2 * i + 1]);
        o = append_range(s, o, start, end);
    }
    put_run(s, o.k, o.a, o.b)
}

// What stands for a range of rows in the input: a row, or a start and an end.
pub(crate) trait Item: Copy {
    ghost start: { Self → ℕ };

    ghost end: { Self → ℕ };

    fn start(self) -> u64
        ensures { result ≡ start self };

    fn end(self) -> u64
        requires { end self < 2 ^ 64 }
        ensures { result ≡ end self };
}

impl Item for u64 {
    ghost start = { λ r. r };

    ghost end = { λ r. r + 1 };

    fn start(self) -> u64 {
        self
    }

    fn end(self) -> u64 {
        self + 1
    }
}

impl Item for [u64; 2] {
    ghost start = { λ p. get_or p 0 0 };

    ghost end = { λ p. get_or p 1 0 };

    fn start(self) -> u64 {
        self[0]
    }

    fn end(self) -> u64 {
        self[1]
    }
}

// Whether the last item starts below the first one. The result of `gather` is right with any answer.
fn is_descending<I: Item>(items: &[I]) -> bool {
    match items {
        [first, .., last] => last.start() < first.start(),
        _ => false,
    }
}

// Writes the items' ranges as pairs at the front of the output, neighbours that touch joined; returns the number of words written. Descending input is read
// in reverse, so that it need not be sorted.
pub(crate) fn gather<I: Item>(items: &[I], out: &mut [u64]) -> usize
    requires ends_fit { All (λ x. I.end x < 2 ^ 64) items.now }
    requires in_bounds { length items.now * 2 ≤ length out.old }
    ensures { Gathered (pairs I.start I.end items.now) (length items.now * 2) out.old result out.new }
{
    let n = items.len();
    let descending = is_descending(items);
    let mut o = Pending { k: 0, a: 0, b: 0 };
    // By index: items are read from either end by one loop.
    for i in 0..n {
        let at = if descending { n - 1 - i } else { i };
        let item = items[at];
        o = append_range(out, o, item.start(), item.end());
    }
    put_run(out, o.k, o.a, o.b)
}
