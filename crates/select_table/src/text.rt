// The text of the table.
ghost use Rattle.std.specs.Prelude.{◌≡◌, OnOk};
ghost use Rattle.std.specs.Io.KnownBytes.{Appends};
ghost use Rattle.select_table.specs.Text.{text};

use byte_select::SELECT_IN_BYTE;
use std::io;
use std::io::Write;

// Writes the lines: each is a digit and a line feed.
fn put_text(out: &mut [u8; 4096])
    ensures { out.new ≡ text }
{
    for (i, place) in SELECT_IN_BYTE.iter().enumerate() {
        let digit = b'0' + *place;
        out[2 * i] = digit;
        out[2 * i + 1] = b'\n';
    }
}

pub(crate) fn print<W: Write>(to: &mut W) -> io::Result<()>
    ensures { OnOk result (Appends (W.contents to.old) (W.contents to.new) text) }
{
    let mut out = [0u8; 4096];
    put_text(&mut out);
    to.write_all(&out)
}
