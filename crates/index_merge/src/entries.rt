// The entries of one index that are still to be merged. A field of a head is read from the part of the bytes where it is.
ghost use Rattle.std.specs.Prelude.{◌≡◌, ◌≤◌, length};
ghost use Rattle.fields.specs.Limits.{max_bytes};
ghost use Rattle.index.specs.Index.{entries, entries_fault};

use index::BitmapIndex;

// The entries of an index that are left, from a place on.
#[derive(Drop)]
pub(crate) struct Entries<'a> {
    bytes: &'a [u8],
    at: usize,
    left: usize,
    ghost short: { length bytes.now ≤ max_bytes },
    ghost place: { at ≤ length bytes.now },
    ghost right: { entries_fault left bytes.now at 0 ≡ 0 },
}

impl<'a> Entries<'a> {
    ghost use Rattle.index_merge.specs.Inner.{listed, head_of, Taken};

    // All of an index.
    pub(crate) fn of(index: BitmapIndex<'a>) -> Entries<'a>
        ensures { listed result ≡ entries index.entry.bytes.now }
    {
        Entries {
            bytes: index.bytes,
            at: 4,
            left: index.counts.entries,
        }
    }

    // The value of the first one, if there is one.
    pub(crate) fn value(&self) -> Option<u64>
        ensures { result ≡ head_of (listed self.now) }
    {
        if self.left == 0 {
            return None;
        }
        let end = self.at + 8;
        Some(fields::load_word(&self.bytes[self.at..end]))
    }

    // Takes the first one where it has the value, and gives its block; else no bytes.
    pub(crate) fn take(&mut self, value: u64) -> &'a [u8]
        ensures { Taken value (listed self.old) result.now (listed self.new) }
    {
        let bytes = self.bytes;
        if self.value() != Some(value) {
            return &bytes[..0];
        }
        let start = self.at + 8;
        let from = self.at + 12;
        let next = from + fields::u32_at(&bytes[start..from], 0) as usize;
        self.at = next;
        self.left -= 1;
        &bytes[from..next]
    }
}
