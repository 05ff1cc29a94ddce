// The calls of the library on a case.
use crate::arguments::{halves, merge_parts, records};
use crate::outputs::{BYTES, HALVES, WORDS, returns, writes, writes_two};
use bitmap_build::{from_packed_bits, from_ranges, from_rows};
use bitmap_index::{filter, insert, intersect_values};
use ranges::RowRange;
use rank_select::bits::count_range;
use rank_select::runs::rank_and_contains;
use rank_select::{bits, runs};
use replay_cases::{Call, Case, Returned};

// An array of records before it is filled.
const RECORDS: [RowRange; 127] = [RowRange { start: 0, end: 0 }; 127];

// `presence::position` with a directory in words.
fn position(bytes: &[u8], directory: &[u64], rows: &[u64], out: &mut [u64]) -> Returned {
    presence::position(bytes, halves(&mut HALVES, directory), rows, out).into()
}

// Whether a case gives what is expected: what the call returns, and what it writes.
pub fn agrees(case: &Case) -> bool {
    let bytes = case.bytes;
    let words = case.first.as_slice();
    let number = case.number;
    let place = number as usize;
    let end = case.second.first().copied().unwrap_or(0);
    match case.call {
        Call::U32At => returns(case, u64::from(fields::u32_at(bytes, place))),
        Call::U64At => returns(case, fields::u64_at(bytes, place)),
        Call::LoadWord => returns(case, fields::load_word(bytes)),
        Call::Contains => returns(case, bitmap::contains(words, number)),
        Call::Search => returns(case, bitmap::search(words, number)),
        Call::Count => returns(case, bitmap::count(words)),
        Call::IndexDecode => returns(case, bitmap_index::decode(bytes)),
        Call::IndexBitmap => returns(case, bitmap_index::bitmap_at(bytes, number)),
        Call::BitTotal => returns(case, bits::total(bytes, place, words)),
        Call::CountSetBits => returns(case, presence::count_set_bits(bytes, place)),
        Call::PresentPosition | Call::Another => returns(
            case,
            presence::present_position(bytes, place),
        ),
        Call::RangesContains => returns(
            case,
            ranges::contains(records(&mut RECORDS, words), number),
        ),
        Call::RangesCount => returns(case, ranges::count(records(&mut RECORDS, words))),
        Call::Neighbours => returns(case, neighbours::neighbours(words, number)),
        Call::FirstOverlap => returns(case, neighbours::first_overlap(words, number, end)),
        _ => agrees_in_outputs(case),
    }
}

// The same of the calls that write. One that is named in neither function disagrees.
fn agrees_in_outputs(case: &Case) -> bool {
    let bytes = case.bytes;
    let number = case.number;
    let len = number as usize;
    let w1 = case.first.as_slice();
    let w2 = case.second.as_slice();
    let w3 = case.third.as_slice();
    match case.call {
        Call::Union => writes(case, &mut WORDS, |out| bitmap::union(w1, w2, out)),
        Call::Intersect => writes(case, &mut WORDS, |out| bitmap::intersect(w1, w2, out)),
        Call::Difference => writes(case, &mut WORDS, |out| bitmap::difference(w1, w2, out)),
        Call::BlockDecode => writes(case, &mut WORDS, |out| bitmap::decode(bytes, out)),
        Call::BlockEncode => writes(case, &mut BYTES, |out| bitmap::encode(w1, out)),
        Call::FromRows => writes(case, &mut WORDS, |out| from_rows(w1, out)),
        Call::FromRanges => writes(case, &mut WORDS, |out| from_ranges(w1, out)),
        Call::FromPackedBits => writes(case, &mut WORDS, |out| from_packed_bits(bytes, out)),
        Call::IndexEncode => writes(case, &mut BYTES, |out| bitmap_index::encode(bytes, out)),
        Call::IndexInsert => writes(case, &mut BYTES, |out| insert(bytes, number, w1, out)),
        Call::Filter => writes_two(case, |out, more| filter(bytes, w1, out, more)),
        Call::IntersectValues => writes_two(
            case,
            |out, more| intersect_values(bytes, w1, out, more),
        ),
        Call::RunDirectory => writes(case, &mut WORDS, |out| runs::from_runs(w1, out)),
        Call::RunRank => writes(case, &mut WORDS, |out| runs::rank(w1, w2, w3, out)),
        Call::RunSelect => writes(case, &mut WORDS, |out| runs::select(w1, w2, w3, out)),
        Call::RunRankAndContains => writes_two(
            case,
            |out, more| rank_and_contains(w1, w2, w3, out, more),
        ),
        Call::BitDirectory => writes(case, &mut WORDS, |out| bits::new(bytes, len, out)),
        Call::BitRank => writes(case, &mut WORDS, |out| bits::rank(bytes, len, w1, w2, out)),
        Call::BitCountRange => writes(case, &mut WORDS, |out| count_range(bytes, len, w1, w2, out)),
        Call::PresenceDirectory => writes(case, &mut HALVES, |out| presence::new(bytes, out)),
        Call::Position => writes(case, &mut WORDS, |out| position(bytes, w1, w2, out)),
        Call::BitSelect => writes(
            case,
            &mut WORDS,
            |out| bits::select(bytes, len, w1, w2, out),
        ),
        Call::IndexMerge => writes(case, &mut BYTES, |out| merge_parts(bytes, len, out)),
        _ => false,
    }
}
