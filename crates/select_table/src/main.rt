// Prints the table of the places of set bits in bytes, one number to a line.
#![tactic(auto)]

mod text;

use std::io;

fn main(rt: HostRuntime) -> io::Result<()> {
    text::print(&mut io::writer(&rt))
}
