// The calls of the library, in the order of their numbers in a file, with the names of its documents.
use std::error::Error;
use std::fmt;

#[derive(Clone, Copy, Debug, PartialEq, Eq, PartialOrd, Ord)]
pub enum Call {
    U32At,
    U64At,
    LoadWord,
    Union,
    Intersect,
    Difference,
    Contains,
    Count,
    BlockDecode,
    BlockEncode,
    FromRows,
    FromRanges,
    FromPackedBits,
    IndexDecode,
    IndexBitmap,
    IndexEncode,
    IndexInsert,
    Filter,
    IntersectValues,
    RunDirectory,
    RunRank,
    RunSelect,
    RunRankAndContains,
    BitDirectory,
    BitRank,
    BitCountRange,
    BitTotal,
    CountSetBits,
    PresentPosition,
    PresenceDirectory,
    Position,
    RangesContains,
    RangesCount,
    IndexMerge,
    Neighbours,
    FirstOverlap,
    BitSelect,
    Search,
    // The first number that no call has. Its cases are run as those of present_position; `Cases` gives none.
    Another,
}

// Each call at its number, with its name.
pub const CALLS: [(Call, &str); 39] = [
    (Call::U32At, "u32_at"),
    (Call::U64At, "u64_at"),
    (Call::LoadWord, "load_word"),
    (Call::Union, "union"),
    (Call::Intersect, "intersect"),
    (Call::Difference, "difference"),
    (Call::Contains, "contains"),
    (Call::Count, "count"),
    (Call::BlockDecode, "block_decode"),
    (Call::BlockEncode, "block_encode"),
    (Call::FromRows, "from_rows"),
    (Call::FromRanges, "from_ranges"),
    (Call::FromPackedBits, "from_packed_bits"),
    (Call::IndexDecode, "index_decode"),
    (Call::IndexBitmap, "index_bitmap"),
    (Call::IndexEncode, "index_encode"),
    (Call::IndexInsert, "index_insert"),
    (Call::Filter, "filter"),
    (Call::IntersectValues, "intersect_values"),
    (Call::RunDirectory, "run_directory"),
    (Call::RunRank, "run_rank"),
    (Call::RunSelect, "run_select"),
    (Call::RunRankAndContains, "run_rank_and_contains"),
    (Call::BitDirectory, "bit_directory"),
    (Call::BitRank, "bit_rank"),
    (Call::BitCountRange, "bit_count_range"),
    (Call::BitTotal, "bit_total"),
    (Call::CountSetBits, "count_set_bits"),
    (Call::PresentPosition, "present_position"),
    (Call::PresenceDirectory, "presence_directory"),
    (Call::Position, "position"),
    (Call::RangesContains, "ranges_contains"),
    (Call::RangesCount, "ranges_count"),
    (Call::IndexMerge, "index_merge"),
    (Call::Neighbours, "neighbours"),
    (Call::FirstOverlap, "first_overlap"),
    (Call::BitSelect, "bit_select"),
    (Call::Search, "search"),
    (Call::Another, "another"),
];

// A number that no call has.
#[derive(Clone, Copy, Debug, PartialEq, Eq)]
pub struct UnknownCall(pub u8);

impl TryFrom<u8> for Call {
    type Error = UnknownCall;

    fn try_from(number: u8) -> Result<Call, UnknownCall> {
        match CALLS.get(usize::from(number)) {
            Some((call, _)) => Ok(*call),
            None => Err(UnknownCall(number)),
        }
    }
}

impl fmt::Display for Call {
    fn fmt<W: fmt::Write>(&self, f: &mut fmt::Formatter<W>) -> fmt::Result {
        f.write_str(CALLS[*self as usize].1)
    }
}

impl fmt::Display for UnknownCall {
    fn fmt<W: fmt::Write>(&self, f: &mut fmt::Formatter<W>) -> fmt::Result {
        write!(f, "no call has number {}", self.0)
    }
}

impl Error for UnknownCall {}
