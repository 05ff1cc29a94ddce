// The program on a file and a filter of 8,193 bytes each: 1, the file first.
#![tactic(auto)]

use std::io;

fn main(rt: HostRuntime) -> io::Result<()> {
    program::run(&rt)
}
