// Reading. A number is a tree of halves down to single bytes, which compiles to one load: no small array stands between (docs/REQUESTS.md, job 3).
ghost use Rattle.std.specs.Prelude.{◌≡◌, ◌+◌, ◌-◌, ◌<◌, ◌≤◌, length};
ghost use Rattle.fields.specs.Bytes.{number_at};
ghost use Rattle.fields.specs.Reading.{Read};

fn byte_at(bytes: &[u8], at: usize) -> u64
    requires { at < length bytes.now }
    ensures { Read 1 bytes.now at result }
{
    bytes[at] as u64
}

fn pair_at(bytes: &[u8], at: usize) -> u64
    requires { at + 2 ≤ length bytes.now }
    ensures { Read 2 bytes.now at result }
{
    byte_at(bytes, at) + byte_at(bytes, at + 1) * 256
}

fn half_at(bytes: &[u8], at: usize) -> u64
    requires { at + 4 ≤ length bytes.now }
    ensures { Read 4 bytes.now at result }
{
    pair_at(bytes, at) + pair_at(bytes, at + 2) * 65536
}

fn whole_at(bytes: &[u8], at: usize) -> u64
    requires { at + 8 ≤ length bytes.now }
    ensures { Read 8 bytes.now at result }
{
    half_at(bytes, at) + half_at(bytes, at + 4) * 4294967296
}

// The number of the bytes from a place on, of which there are fewer than eight.
fn tail_at(bytes: &[u8], at: usize) -> u64
    requires at_in_bounds { at ≤ length bytes.now }
    requires bytes_len_bound { length bytes.now < at + 8 }
    ensures { Read (length bytes.now - at) bytes.now at result }
{
    let mut sum: u64 = 0;
    // By index: a byte is read at its place, as in the tree.
    for i in (at..bytes.len()).rev() {
        sum = byte_at(bytes, i) + sum * 256;
    }
    sum
}

// The same where the place may be past the end.
fn part_at(bytes: &[u8], at: usize) -> u64
    requires { length bytes.now < at + 8 }
    ensures { Read (length bytes.now - at) bytes.now at result }
{
    if bytes.len() < at {
        return 0;
    }
    tail_at(bytes, at)
}

// The number of four bytes at a place. Absent bytes count as zero.
pub fn u32_at(bytes: &[u8], at: usize) -> u32
    ensures { result ≡ number_at 4 bytes.now at }
{
    if 4 <= bytes.len() {
        if at <= bytes.len() - 4 {
            return half_at(bytes, at) as u32;
        }
        return part_at(bytes, at) as u32;
    }
    part_at(bytes, at) as u32
}

// The number of eight bytes at a place. Absent bytes count as zero. The first test does not depend on the place, so that a loop over places has one
// test for each number. It differs from `u32_at` by the tree that it reads, of which there is one for each size.
pub fn u64_at(bytes: &[u8], at: usize) -> u64
    ensures { result ≡ number_at 8 bytes.now at }
{
    if 8 <= bytes.len() {
        if at <= bytes.len() - 8 {
            return whole_at(bytes, at);
        }
        return part_at(bytes, at);
    }
    part_at(bytes, at)
}

// The word at the front of packed bits. Absent bytes count as zero.
pub fn load_word(bytes: &[u8]) -> u64
    ensures { result ≡ number_at 8 bytes.now 0 }
{
    u64_at(bytes, 0)
}
