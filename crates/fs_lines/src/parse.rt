//! What a line says.
ghost use Rattle.std.specs.Prelude.{◌≡◌, true, Err, IfOk};
ghost use Rattle.std.specs.List.{find, list_all};
ghost use Rattle.fs_lines.specs.declared.line.LineFault.TheVariants.{OutOfMemory};
ghost use Rattle.fs_lines.specs.Lines.{is_no_space, is_silent, is_printable};
ghost use Rattle.fs_lines.specs.Commands.{clean_value, has_words, line_value};
ghost use Rattle.fs_lines.specs.Readings.{GivesSaid, IsOffered};

use crate::command::read_event;
use crate::line::{Line, LineFault, MAX_LINE};
use crate::words::read_words;
use std::alloc::Global;

/// What a line says, without its newline, or the first thing that is wrong with it.
///
/// Memory aside: `OutOfMemory` may stand in for any other answer once the words are read, so not for lines that are too
/// long, say nothing, or have a byte that may not stand in a line.
#[tactic(auto, unfolding(crate::specs::Commands::line_value))]
pub fn parse_line(alloc: Global, line: &[u8]) -> Result<Line, LineFault>
    ensures said { GivesSaid (λ line. line) result (line_value line.now) }
    ensures memory { result ≡ Err OutOfMemory → has_words line.now ≡ true }
    ensures offered { IfOk result IsOffered }
{
    if line.len() > MAX_LINE {
        return Err(LineFault::TooLong);
    }
    if is_silent(line) {
        return Ok(Line::Blank);
    }
    if !is_clean(line) {
        return Err(LineFault::BadByte);
    }
    read_clean(alloc, line)
}

// What the words of a line say.
fn read_clean(alloc: Global, line: &[u8]) -> Result<Line, LineFault>
    ensures said { GivesSaid (λ line. line) result (clean_value line.now) }
    ensures offered { IfOk result IsOffered }
{
    let words = read_words(alloc, line)?;
    read_event(alloc, &words).map(Line::Event)
}

// Whether it has no words, or is a comment.
fn is_silent(line: &[u8]) -> bool
    ensures { result ≡ is_silent line.now }
{
    match first_past_spaces(line) {
        Some(byte) => byte == b'#',
        None => true,
    }
}

fn first_past_spaces(line: &[u8]) -> Option<u8>
    ensures { result ≡ find is_no_space line.now }
{
    line.iter().copied().find(|byte| *byte != b' ')
}

// Whether it has only bytes that a line may have. Not stopping at the first other byte, it tests many at once.
fn is_clean(line: &[u8]) -> bool
    ensures { result ≡ list_all is_printable line.now }
{
    let mut clean = true;
    for byte in line {
        clean &= is_printable(*byte);
    }
    clean
}

fn is_printable(byte: u8) -> bool
    ensures { result ≡ is_printable byte }
{
    matches!(byte, b' '..=b'~')
}
