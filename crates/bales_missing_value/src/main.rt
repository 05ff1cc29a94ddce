// The program on a filter whose last step names a value that the index lacks, 71 in place of 7: 11.
#![tactic(auto)]

use std::io;

fn main(rt: HostRuntime) -> io::Result<()> {
    program::run(&rt)
}
