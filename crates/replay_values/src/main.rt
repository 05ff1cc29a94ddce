// Runs the stored cases as values, and prints for each file how many cases it has and how many agree. README.md of the crate replay says what the files are.
#![tactic(auto)]

use replay_cases::Cases;
use std::io;
use std::rt::Files;

// How many cases a file has, and how many agree. One that is damaged disagrees.
fn tally(file: &[u8]) -> (u64, u64) {
    let (mut cases, mut agreed) = (0u64, 0u64);
    for case in Cases::new(file) {
        let agrees = match case {
            Ok(case) => replay_run::agrees(&case),
            Err(_) => false,
        };
        cases = cases.saturating_add(1);
        agreed = agreed.saturating_add(u64::from(agrees));
    }
    (cases, agreed)
}

fn report(rt: &(impl Files + Print), name: &str) -> io::Result<()> {
    let mut buf = [0u8; 65536];
    let (cases, agreed) = tally(inputs::read_file(rt, name, &mut buf));
    println!(rt; "{name},{cases},{agreed}")
}

fn main(rt: HostRuntime) -> io::Result<()> {
    for name in [
        "cases0.bin",
        "cases1.bin",
        "cases2.bin",
        "cases3.bin",
        "wrong.bin",
    ] {
        report(&rt, name)?;
    }
    Ok(())
}
