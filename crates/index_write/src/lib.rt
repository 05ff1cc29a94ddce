// Writing a bitmap index, and inserting runs into one.
#![tactic(auto)]

mod add;
mod write;

pub use add::insert;
pub use write::encode;

// The insertion point of a value: the number of entries with lesser values, then from `next` on that of entries with greater ones. The bytes between
// `from` and `next` are the block of the value, none where it is missing; `old` is the length of its entry when it is written.
#[derive(Clone, Copy)]
struct InsertionPoint {
    below: usize,
    from: usize,
    next: usize,
    rest: usize,
    old: usize,
}
