//! The file to which lines are added.

ghost use Rattle.std.specs.Prelude.{◌++◌, OnOk, string_bytes};
ghost use Rattle.std.specs.Io.KnownBytes.{Appends};
ghost use Rattle.user_lines.specs.Files.{AddsLines, line_start};

use std::io::{self, Write};

/// What lines are added to. A line may have been written in part, as on a full device: then the next one begins with the end of that.
#[derive(Drop)]
pub(crate) struct LineFile<W> {
    out: W,
    is_cut: bool,
}

impl<W> LineFile<W> {
    /// One that ends with a whole line, or has none.
    pub(crate) fn new(out: W) -> LineFile<W> {
        LineFile { out, is_cut: false }
    }
}

impl<W: Write> LineFile<W> {
    /// Adds whole lines.
    pub(crate) fn add(&mut self, lines: &String) -> io::Result<()>
        ensures { OnOk result (AddsLines W.contents self.old self.new (string_bytes lines.now)) }
    {
        if lines.is_empty() {
            return Ok(());
        }
        let written = write_lines(&mut self.out, self.is_cut, lines);
        self.is_cut = written.is_err();
        written
    }
}

// Writes lines, and the end of the last one before them where that was cut short.
fn write_lines<W: Write>(out: &mut W, is_cut: bool, lines: &String) -> io::Result<()>
    ensures { OnOk result (Appends (W.contents out.old) (W.contents out.new) (line_start is_cut ++ string_bytes lines.now)) }
{
    if is_cut {
        out.write_all(b"\n")?;
    }
    out.write_all(lines.as_bytes())
}
