// The program, but for its name: it reads `bales.idx` and standard input and writes to standard output. What is written is `report::report` of the two.
#![tactic(auto)]

ghost use Rattle.std.specs.Prelude.{◌≤◌, length, OnOk};
ghost use Rattle.std.specs.Io.KnownBytes.{Appends};
ghost use Rattle.report.specs.Report.{report};
ghost use Rattle.program.specs.Answering.{Answers};

use inputs::{read_file, read_full};
use std::io;
use std::io::{Read, Write};
use std::rt::Files;

// Writes the text for an index and a filter by way of a buffer. The text has at most 32,768 bytes, so that the call is not refused and all of it is
// written.
fn print_by<W: Write>(index: &[u8], text: &[u8], out: &mut [u8], to: &mut W) -> io::Result<()>
    requires { 32768 ≤ length out.old }
    ensures { OnOk result (Appends (W.contents to.old) (W.contents to.new) (report index.now text.now)) }
{
    let n = report::report(index, text, out).unwrap_or(0);
    to.write_all(&out[..n])
}

fn print<W: Write>(index: &[u8], text: &[u8], to: &mut W) -> io::Result<()>
    ensures { OnOk result (Appends (W.contents to.old) (W.contents to.new) (report index.now text.now)) }
{
    let mut out = [0u8; 32768];
    print_by(index, text, &mut out, to)
}

// Reads the filter, of which one byte more than 8,192 shows that it is too long, and writes the text for it. A read that fails ends the filter.
fn with_index<F: Read, W: Write>(index: &[u8], filter: &mut F, to: &mut W) -> io::Result<()>
    ensures { OnOk result (Answers index.now (F.remaining filter.old) (F.remaining filter.new) (W.contents to.old) (W.contents to.new)) }
{
    let mut text = [0u8; 8193];
    let (n, _) = read_full(filter, &mut text);
    print(index, &text[..n], to)
}

// Reads the index, likewise, and then the filter. A file that can't be opened counts as empty.
pub fn run(rt: &(impl Files + Input + Print)) -> io::Result<()> {
    let mut buf = [0u8; 8193];
    let index = read_file(rt, "bales.idx", &mut buf);
    with_index(index, &mut rt.reader(), &mut io::writer(rt))
}
