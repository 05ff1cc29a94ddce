// Writing numbers, bytes and zeros.
ghost use Rattle.std.specs.Prelude.{◌≡◌};
ghost use Rattle.std.proofs.lemmas.List.Edits.{sets};
ghost use Rattle.fields.specs.Bytes.{to_le, stored};
ghost use Rattle.fields.specs.Answers.{zeroed};

// Writes N bytes at a place, where they fit; nothing where they do not.
fn put_field<const N: usize>(out: &mut [u8], at: usize, field: &[u8; N])
    ensures { out.new ≡ stored out.old at field.now }
{
    if N <= out.len() && at <= out.len() - N {
        out[at..at + N].copy_from_slice(field);
    }
}

// Writes a number as four bytes at a place, where they fit; nothing where they do not.
pub fn put_u32(out: &mut [u8], at: usize, x: u32)
    ensures { out.new ≡ stored out.old at (to_le 4 x) }
{
    put_field::<4>(out, at, &x.to_le_bytes());
}

// Writes a number as eight bytes at a place, where they fit; nothing where they do not.
pub fn put_u64(out: &mut [u8], at: usize, x: u64)
    ensures { out.new ≡ stored out.old at (to_le 8 x) }
{
    put_field::<8>(out, at, &x.to_le_bytes());
}

// Copies bytes to the front of an output, as far as it has places.
pub fn copy_bytes(bytes: &[u8], out: &mut [u8])
    ensures { out.new ≡ sets out.old 0 bytes.now }
{
    let n = bytes.len().min(out.len());
    // By index: `copy_from_slice` is a call of memmove, which the archive for C would need from outside.
    for i in 0..n {
        out[i] = bytes[i];
    }
}

// Writes zeros from a place up to another, as far as there are words.
pub fn clear_words(words: &mut [u64], from: usize, to: usize)
    ensures { words.new ≡ zeroed from to words.old }
{
    let end = to.min(words.len());
    if from < end {
        // This loop is one call of memset; `fill` makes two writes of it.
        for word in words[from..end].iter_mut() {
            *word = 0;
        }
    }
}
