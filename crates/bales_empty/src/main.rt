// The program on an empty file, which is refused, since an index begins with its entry count.
#![tactic(auto)]

use std::io;

fn main(rt: HostRuntime) -> io::Result<()> {
    program::run(&rt)
}
