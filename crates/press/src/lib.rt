// The calls of document 01, exported for C and Rust. A slice crosses as a pointer and a length, an answer as a struct by value, a part that a call gives
// back as its place and length. Each export only calls the function that it stands for, whose contract it repeats. The kit says nothing of a null pointer, so
// the exports are called mudcanvas_raw_..: the functions without `raw`, in C's header, allow one for an empty list.
#![tactic(auto)]

mod bitmaps;
mod bits;
mod build;
mod indexes;
mod numbers;
mod present;
mod records;
mod runs;
