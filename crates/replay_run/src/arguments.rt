// What a case gives, in the forms that the calls take.
use ranges::RowRange;
use replay_cases::Returned;

// Puts what is made of values at the front of an array, and gives that part. A vector of a fixed capacity would do, but that records have no `Default`.
fn filled<'a, S, T: Copy, F: Fn(&S) -> T>(room: &'a mut [T], values: &[S], make: F) -> &'a [T]
    requires { F.IsAlwaysCallable make }
{
    for (place, value) in room.iter_mut().zip(values) {
        *place = make(value);
    }
    let count = values.len().min(room.len());
    &room[..count]
}

// Words in pairs as records.
pub(crate) fn records<'a>(room: &'a mut [RowRange], words: &[u64]) -> &'a [RowRange] {
    let (pairs, _) = words.as_chunks::<2>();
    filled(
        room,
        pairs,
        |[start, end]| RowRange {
            start: *start,
            end: *end,
        },
    )
}

fn lowest_half(word: &u64) -> u32 {
    (*word % 4294967296) as u32
}

// The lowest 32 bits of words.
pub(crate) fn halves<'a>(room: &'a mut [u32], words: &[u64]) -> &'a [u32] {
    filled(room, words, lowest_half)
}

// Merges the index in the first bytes, as many as a length says, with the one in the others.
pub(crate) fn merge_parts(bytes: &[u8], len: usize, out: &mut [u8]) -> Returned {
    let (first, second) = bytes.split_at(len.min(bytes.len()));
    bitmap_index::merge(first, second, out).into()
}
