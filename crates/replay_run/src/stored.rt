// The calls of the library on a case that is read where it stands in a file.
use crate::arguments::{halves, merge_parts, records};
use crate::stored_outputs::{returns, writes_bytes, writes_halves, writes_two, writes_words};
use bitmap_build::{from_packed_bits, from_ranges, from_rows};
use bitmap_index::{filter, insert, intersect_values};
use ranges::RowRange;
use rank_select::bits::count_range;
use rank_select::runs::rank_and_contains;
use rank_select::{bits, runs};
use replay_cases::{Call, MOST, ReadCase, Returned, StoredCase};

// As many records as a list has words for.
const NO_RECORDS: [RowRange; MOST / 2] = [RowRange { start: 0, end: 0 }; MOST / 2];

// The calls over records, on words in pairs.
fn ranges_contains(words: &[u64], row: u64) -> Returned {
    let mut room = NO_RECORDS;
    ranges::contains(records(&mut room, words), row).into()
}

fn ranges_count(words: &[u64]) -> Returned {
    let mut room = NO_RECORDS;
    ranges::count(records(&mut room, words)).into()
}

// `presence::position` with a directory in words.
fn position(bytes: &[u8], directory: &[u64], rows: &[u64], out: &mut [u64]) -> Returned {
    let mut room = [0u32; MOST];
    presence::position(bytes, halves(&mut room, directory), rows, out).into()
}

// Whether a case gives what is expected: what the call returns, and what it writes.
pub fn stored_agrees(call: Call, stored: &StoredCase) -> bool {
    let mut given = [0u64; MOST];
    let mut expected = [0u64; MOST];
    case_agrees(call, &stored.read(&mut given, &mut expected))
}

fn case_agrees(call: Call, case: &ReadCase) -> bool {
    let bytes = case.bytes;
    let words = case.first();
    let number = case.number();
    let place = number as usize;
    let end = case.second().first().copied().unwrap_or(0);
    match call {
        Call::U32At => returns(case, u64::from(fields::u32_at(bytes, place))),
        Call::U64At => returns(case, fields::u64_at(bytes, place)),
        Call::LoadWord => returns(case, fields::load_word(bytes)),
        Call::Contains => returns(case, bitmap::contains(words, number)),
        Call::Search => returns(case, bitmap::search(words, number)),
        Call::Count => returns(case, bitmap::count(words)),
        Call::IndexDecode => returns(case, bitmap_index::decode(bytes)),
        Call::IndexBitmap => returns(case, bitmap_index::bitmap_at(bytes, number)),
        Call::BitTotal => returns(case, bits::total(bytes, place, words)),
        Call::CountSetBits => returns(case, presence::count_set_bits(bytes, place)),
        Call::PresentPosition | Call::Another => returns(
            case,
            presence::present_position(bytes, place),
        ),
        Call::RangesContains => returns(case, ranges_contains(words, number)),
        Call::RangesCount => returns(case, ranges_count(words)),
        Call::Neighbours => returns(case, neighbours::neighbours(words, number)),
        Call::FirstOverlap => returns(case, neighbours::first_overlap(words, number, end)),
        _ => agrees_in_outputs(call, case),
    }
}

// The same of the calls that write. One that is named in neither function disagrees.
fn agrees_in_outputs(call: Call, case: &ReadCase) -> bool {
    let bytes = case.bytes;
    let number = case.number();
    let len = number as usize;
    let w1 = case.first();
    let w2 = case.second();
    let w3 = case.third();
    match call {
        Call::Union => writes_words(case, |out| bitmap::union(w1, w2, out)),
        Call::Intersect => writes_words(case, |out| bitmap::intersect(w1, w2, out)),
        Call::Difference => writes_words(case, |out| bitmap::difference(w1, w2, out)),
        Call::BlockDecode => writes_words(case, |out| bitmap::decode(bytes, out)),
        Call::BlockEncode => writes_bytes(case, |out| bitmap::encode(w1, out)),
        Call::FromRows => writes_words(case, |out| from_rows(w1, out)),
        Call::FromRanges => writes_words(case, |out| from_ranges(w1, out)),
        Call::FromPackedBits => writes_words(case, |out| from_packed_bits(bytes, out)),
        Call::IndexEncode => writes_bytes(case, |out| bitmap_index::encode(bytes, out)),
        Call::IndexInsert => writes_bytes(case, |out| insert(bytes, number, w1, out)),
        Call::Filter => writes_two(case, |out, more| filter(bytes, w1, out, more)),
        Call::IntersectValues => writes_two(
            case,
            |out, more| intersect_values(bytes, w1, out, more),
        ),
        Call::RunDirectory => writes_words(case, |out| runs::from_runs(w1, out)),
        // The second output of these two keeps its marks.
        Call::RunRank => writes_two(case, |out, _more| runs::rank(w1, w2, w3, out)),
        Call::RunSelect => writes_two(case, |out, _more| runs::select(w1, w2, w3, out)),
        Call::RunRankAndContains => writes_two(
            case,
            |out, more| rank_and_contains(w1, w2, w3, out, more),
        ),
        Call::BitDirectory => writes_words(case, |out| bits::new(bytes, len, out)),
        Call::BitRank => writes_words(case, |out| bits::rank(bytes, len, w1, w2, out)),
        Call::BitCountRange => writes_words(case, |out| count_range(bytes, len, w1, w2, out)),
        Call::PresenceDirectory => writes_halves(case, |out| presence::new(bytes, out)),
        Call::Position => writes_words(case, |out| position(bytes, w1, w2, out)),
        Call::BitSelect => writes_words(case, |out| bits::select(bytes, len, w1, w2, out)),
        Call::IndexMerge => writes_bytes(case, |out| merge_parts(bytes, len, out)),
        _ => false,
    }
}
