// The program on a file of 8,193 bytes: 1, though the filter is malformed too.
#![tactic(auto)]

use std::io;

fn main(rt: HostRuntime) -> io::Result<()> {
    program::run(&rt)
}
