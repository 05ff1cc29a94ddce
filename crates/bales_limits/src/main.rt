// The program on a file and a filter of 8,192 bytes each: both are read to their last byte.
#![tactic(auto)]

use std::io;

fn main(rt: HostRuntime) -> io::Result<()> {
    program::run(&rt)
}
