// The program on a filter whose last line has no line feed: 8, though the index is cut short too.
#![tactic(auto)]

use std::io;

fn main(rt: HostRuntime) -> io::Result<()> {
    program::run(&rt)
}
