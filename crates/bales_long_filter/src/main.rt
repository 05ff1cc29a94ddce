// The program on a filter of 8,193 bytes, all of it well formed: 1.
#![tactic(auto)]

use std::io;

fn main(rt: HostRuntime) -> io::Result<()> {
    program::run(&rt)
}
