// Prints the rows that a filter keeps: the index is `bales.idx`, the filter is read from standard input.
#![tactic(auto)]

use std::io;

fn main(rt: HostRuntime) -> io::Result<()> {
    program::run(&rt)
}
