// Replays stored cases with the answers that are expected, and prints for each call how many there are and how many agree; then the same of cases with a
// wrong answer. README.md says how the cases were made and how the files hold them.
#![tactic(auto)]

use replay_cases::{CALLS, StoredCases};
use std::rt::Files;
use std::{fmt, io};

// How many cases there are of a call, and how many agree.
#[derive(Clone, Copy, Default)]
struct Tally {
    cases: u64,
    agreed: u64,
}

impl Tally {
    fn add(&mut self, agrees: bool) {
        self.cases = self.cases.saturating_add(1);
        self.agreed = self.agreed.saturating_add(u64::from(agrees));
    }
}

impl fmt::Display for Tally {
    fn fmt<W: fmt::Write>(&self, f: &mut fmt::Formatter<W>) -> fmt::Result {
        write!(f, "{},{}", self.cases, self.agreed)
    }
}

// The tallies of the calls, in the order of their numbers.
#[derive(Drop)]
struct Tallies {
    calls: [Tally; 39],
}

impl Tallies {
    fn new() -> Tallies {
        Tallies {
            calls: [Tally::default(); 39],
        }
    }

    // Counts the cases of a file, but for those whose number no call has.
    fn replay(&mut self, file: &[u8]) {
        for case in StoredCases::new(file) {
            if let Some(call) = case.call() {
                self.calls[call as usize].add(replay_run::stored_agrees(call, &case));
            }
        }
    }

    fn replay_file(&mut self, rt: &impl Files, name: &str) {
        let mut buf = [0u8; 65536];
        self.replay(inputs::read_file(rt, name, &mut buf));
    }

    fn print(&self, rt: &impl Print) -> io::Result<()> {
        for ((call, _), tally) in CALLS.iter().zip(&self.calls) {
            if tally.cases != 0 {
                println!(rt; "{call},{tally}")?;
            }
        }
        Ok(())
    }
}

// Replays files, and prints.
fn report(rt: &(impl Files + Print), names: &[&str]) -> io::Result<()> {
    let mut tallies = Tallies::new();
    for name in names {
        tallies.replay_file(rt, name);
    }
    tallies.print(rt)
}

fn main(rt: HostRuntime) -> io::Result<()> {
    let right = ["cases0.bin", "cases1.bin", "cases2.bin", "cases3.bin"];
    report(&rt, &right)?;
    report(&rt, &["wrong.bin"])
}
