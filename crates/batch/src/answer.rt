// The lines that are written.
ghost use Rattle.std.specs.Prelude.{◌≡◌, OnOk};
ghost use Rattle.std.specs.Io.KnownBytes.{Appends};
ghost use Rattle.batch.specs.Lines.{answer_line};

use arrayvec::ArrayVec;
use checker::{Checked, checked_number, checked_place};
use std::io::{Result, Write};

// The most bytes of a line: two numbers of 20 digits, a space and a line end.
const LINE: usize = 42;

/// Writes the line that answers a check, all at once: its number and its place.
pub fn check_line<W: Write>(out: &mut W, c: Checked) -> Result<()>
    ensures { OnOk result (Appends (W.contents out.old) (W.contents out.new) (answer_line c)) }
{
    let mut line: ArrayVec<u8, LINE> = ArrayVec::new();
    writeln!(line, "{} {}", checked_number(c), checked_place(c))?;
    out.write_all(line.as_slice())
}
