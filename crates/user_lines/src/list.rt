//! Lines about users, one after another.

ghost use Rattle.std.specs.Prelude.{◌≡◌, OnOk, OnErr, string_bytes};
ghost use Rattle.user_lines.specs.Files.{AddsLines};
ghost use Rattle.user_lines.specs.Seconds.{new_second, with_line, left_out_text};
ghost use Rattle.user_lines.specs.Telling.{TellsLine, ending_at, second_at};

use crate::file::LineFile;
use crate::second::Second;
use std::alloc::Global;
use std::io::{self, Write};

/// Writes lines about users: of one second at most 20 of one user, and 500 of all. How many more there were is told when the second has
/// ended: before the next line, or at the end.
///
/// What can't be told, for want of memory or since the file takes nothing, is counted as left out. Where that can't be told either, the
/// second goes on.
#[derive(Drop)]
pub struct UserLines<W> {
    alloc: Global,
    file: LineFile<W>,
    second: Second,
}

impl<W> UserLines<W> {
    /// Lines are added to this, which ends with a whole line or has none.
    pub fn new(alloc: Global, out: W) -> UserLines<W> {
        UserLines {
            alloc,
            file: LineFile::new(out),
            second: Second::new(alloc, 0),
        }
    }
}

impl<W: Write> UserLines<W> {
    /// Writes a line, with its end, of this user and this second, or counts it.
    pub fn tell(&mut self, second: u64, user: u32, line: &String) {
        let told = tell(
            self.alloc,
            &mut self.file,
            &mut self.second,
            second,
            user,
            line,
        );
        if told.is_err() {
            self.second.leave_out(user);
        }
    }

    /// Counts a line of this user and this second that there isn't.
    pub fn leave_out(&mut self, second: u64, user: u32) {
        let _ = reach_second(self.alloc, &mut self.file, &mut self.second, second);
        self.second.leave_out(user);
    }

    /// Tells how many the last second has left out.
    pub fn end(&mut self) -> io::Result<()> {
        end_second(self.alloc, &mut self.file, &mut self.second, 0)
    }
}

// Tells what the second before has left out, where this is another one, and then writes the line, where there is room.
fn tell<W: Write>(
    alloc: Global,
    file: &mut LineFile<W>,
    second: &mut Second,
    number: u64,
    user: u32,
    line: &String,
) -> io::Result<()>
    ensures { OnOk result (TellsLine W.contents file.old file.new second.old second.new number user (string_bytes line.now)) }
{
    reach_second(alloc, file, second, number)?;
    if !second.has_room_for(user) {
        second.leave_out(user);
        return Ok(());
    }
    add_line(file, second, user, line)?;
    Ok(())
}

// Ends the second where this is another one. A clock that is set back leads to another one too.
fn reach_second<W: Write>(
    alloc: Global,
    file: &mut LineFile<W>,
    second: &mut Second,
    number: u64,
) -> io::Result<()>
    ensures ended { OnOk result (AddsLines W.contents file.old file.new (ending_at second.old number)) }
    ensures reached { OnOk result (second.new ≡ second_at second.old number) }
{
    if second.number() == number {
        return Ok(());
    }
    end_second(alloc, file, second, number)
}

// Tells what the second has left out, and begins this one.
fn end_second<W: Write>(
    alloc: Global,
    file: &mut LineFile<W>,
    second: &mut Second,
    number: u64,
) -> io::Result<()>
    ensures ended { OnOk result (AddsLines W.contents file.old file.new (left_out_text second.old)) }
    ensures begun { OnOk result (second.new ≡ new_second number) }
    ensures kept { OnErr result (second.new ≡ second.old) }
{
    let left_out = second.left_out_text(alloc)?;
    file.add(&left_out)?;
    second.begin(number);
    Ok(())
}

// Writes a line, which takes some of the second's room also where it can't be written.
fn add_line<W: Write>(
    file: &mut LineFile<W>,
    second: &mut Second,
    user: u32,
    line: &String,
) -> io::Result<()>
    ensures told { OnOk result (AddsLines W.contents file.old file.new (string_bytes line.now)) }
    ensures counted { OnOk result (second.new ≡ with_line second.old user) }
{
    second.add_line(user)?;
    file.add(line)
}
