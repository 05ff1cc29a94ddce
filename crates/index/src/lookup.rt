// The block of a value.
ghost use Rattle.std.specs.Prelude.{◌≡◌, ◌<◌, IfSome, true};
ghost use Rattle.index.specs.Calls.{lookup, PartOf, part_of};
ghost use Rattle.index.specs.Search.{PlaceOf, FoundAt, found, is_known};

use crate::read::decode;
use crate::words::{length_at, value_at};
use crate::{Part, Place};

// Where the entry of a value is, or would be inserted, in any bytes. Only heads of entries are read, up to the first value that is not lesser.
pub fn seek(index: &[u8], value: u64) -> Place
    ensures { PlaceOf index.now value result }
{
    let count = fields::u32_at(index, 0) as usize;
    // The place of an entry is known when the one before it was read, and the bytes may end first.
    let mut at = 4;
    for below in 0..count {
        if index.len() < at + 12 {
            return Place {
                below,
                at,
                known: false,
            };
        }
        let x = value_at(index, at);
        if value <= x {
            return Place {
                below,
                at,
                known: value == x,
            };
        }
        at = at + 12 + length_at(index, at) as usize;
    }
    Place {
        below: count,
        at,
        known: false,
    }
}

// The part of any bytes that is the block of a value, where it has one: cut to its counted runs, to its length and to the bytes that there are.
fn block_part(index: &[u8], value: u64) -> Option<Part>
    ensures part { FoundAt index.now value (part_of result) }
    ensures some { IfSome result (λ p. is_known index.now value ≡ true) }
{
    let place = seek(index, value);
    if place.known {
        let start = place.at + 12;
        let counted = 4 + 16 * fields::u32_at(index, start) as usize;
        let stated = length_at(index, place.at) as usize;
        let len = counted.min(stated).min(index.len() - start);
        return Some(Part { at: start, len });
    }
    None
}

// The block of a value in any bytes, as far as they have it, cut to its runs; empty where the value is missing. The index is not judged.
fn find<'a>(index: &'a [u8], value: u64) -> &'a [u8]
    ensures { result.now ≡ found index.now value }
{
    match block_part(index, value) {
        Some(part) => &index[part.at..part.at + part.len],
        None => &index[..0],
    }
}

// The block of a value in the lent index, cut to its runs; empty where the value is missing or the index is refused.
pub fn bitmap<'a>(index: &'a [u8], value: u64) -> &'a [u8]
    ensures { result.now ≡ lookup index.now value }
{
    if decode(index).is_err() {
        return &index[..0];
    }
    find(index, value)
}

// The place of that block in the index, for callers that no part can be given back to; none exactly where the block is empty.
pub fn bitmap_at(index: &[u8], value: u64) -> Option<Part>
    ensures part { PartOf index.now value (part_of result) }
    ensures some { IfSome result (λ p. 0 < p.len) }
{
    if decode(index).is_err() {
        return None;
    }
    block_part(index, value)
}
