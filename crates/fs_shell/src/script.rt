//! Reads a script, a line at a time.
ghost use Rattle.std.specs.Prelude.{◌≡◌, ◌≢◌, ◌+◌, ◌++◌, ◌<◌, ◌≤◌, [], length, true, false, Ok, Err, IfOk, IfErr, OnOk};
ghost use Rattle.std.specs.List.{list_any, before_first, after_first};
ghost use Rattle.std.specs.Io.KnownBytes.{Keeps, IsAtEnd};
ghost use Rattle.fs_shell.specs.declared.fault.RunFault.TheVariants.{ReadFault, WriteFault, TooMuch};
ghost use Rattle.posix_acl.specs.Text.{is_newline};
ghost use Rattle.fs_shell.specs.Watching.{FailsWhere};
ghost use Rattle.fs_shell.specs.Scripts.{bytes_left, script_limit, kept_front, FindsEnd, IsOver, ReadsLine};

use crate::fault::RunFault;
use crate::runner::Watched;
use fs_lines::{MAX_LINE, len_before};
use std::alloc::{AllocError, Global};
use std::io::Read;
use std::marker::Model;

/// The most bytes that a script has.
pub const MAX_SCRIPT: usize = 16_777_216;

// How many bytes are read at once.
const CHUNK: usize = 4096;

/// What has been read of a script, and not yet been given.
#[derive(Drop)]
pub struct Pending {
    bytes: Vec<u8>,
    next: usize,
    end: usize,
    given: usize,
}

impl Model for Pending {
    ghost use Rattle.std.specs.Prelude.{◌<◌, ◌≤◌, ◌-◌, take, drop, length};
    ghost use Rattle.fs_shell.specs.Scripts.{Pending, script_limit};

    ghost Value = { Pending };

    ghost view = { λ p. record { ahead = take (p.end - p.next) (drop p.next p.bytes.items); given = p.given } };

    ghost invariant = { λ p. (0 < length p.bytes.items) × (p.next ≤ p.end) × (p.end ≤ length p.bytes.items) × (p.given ≤ script_limit) };
}

impl Pending {
    /// Nothing has been read yet.
    pub fn new(alloc: Global) -> Result<Pending, AllocError>
        ensures { IfOk result (λ p. p ≡ record { ahead = []; given = 0 }) }
    {
        let bytes = vec![in alloc; 0; CHUNK]?;
        Ok(Pending {
            bytes,
            next: 0,
            end: 0,
            given: 0,
        })
    }

    /// Reads the next line into `line`, without its newline, and says whether one was there.
    ///
    /// Of a line that is longer than lines may be, `line` gets one byte more than that, and no more.
    pub fn read_line<R: Read>(
        &mut self,
        reader: &mut Watched<R>,
        line: &mut Vec<u8>,
    ) -> Result<bool, RunFault>
        ensures line { result ≡ Ok true
            → ReadsLine self.old (R.remaining reader.old.inner) self.new (R.remaining reader.new.inner) line.new.items }
        ensures end { result ≡ Ok false → IsAtEnd (bytes_left self.old (R.remaining reader.old.inner))
            × IsAtEnd (R.remaining reader.new.inner) × (self.new.given ≡ self.old.given) }
        ensures limit { self.new.given ≤ script_limit }
        ensures over { IfErr result (λ fault. fault ≡ TooMuch
            → IsOver (bytes_left self.old (R.remaining reader.old.inner)) self.old.given) }
        ensures failed { FailsWhere reader.old.failed reader.new.failed (result ≡ Err ReadFault) }
        ensures fault { IfErr result (λ fault. fault ≢ WriteFault) }
    {
        line.clear();
        while self.has_more(reader)? {
            if self.take_piece(line)? {
                return Ok(true);
            }
        }
        Ok(!line.is_empty())
    }

    // Whether bytes are still to come. If so, the next ones have been read then.
    fn has_more<R: Read>(&mut self, reader: &mut Watched<R>) -> Result<bool, RunFault>
        ensures more { result ≡ Ok true → self.new.ahead ≢ [] }
        ensures end { result ≡ Ok false
            → FindsEnd self.old (R.remaining reader.old.inner) self.new (R.remaining reader.new.inner) }
        ensures kept { OnOk result (Keeps (bytes_left self.old (R.remaining reader.old.inner))
            (bytes_left self.new (R.remaining reader.new.inner))) }
        ensures count { self.new.given ≡ self.old.given }
        ensures limit { self.new.given ≤ script_limit }
        ensures failed { FailsWhere reader.old.failed reader.new.failed (result ≡ Err ReadFault) }
        ensures fault { IfErr result (λ fault. fault ≡ ReadFault) }
    {
        if self.next == self.end {
            self.fill(reader)?;
        }
        Ok(self.next < self.end)
    }

    // Gives the bytes up to the next newline to `line`, or all that have been read, and says whether it was there.
    fn take_piece(&mut self, line: &mut Vec<u8>) -> Result<bool, RunFault>
        requires room { length line.old.items ≤ 4097 }
        ensures newline { IfOk result (λ newline. newline ≡ list_any is_newline self.old.ahead) }
        ensures line { OnOk result (line.new.items ≡ kept_front (line.old.items ++ before_first is_newline self.old.ahead)) }
        ensures rest { OnOk result (self.new.ahead ≡ after_first is_newline self.old.ahead) }
        ensures count { OnOk result (self.new.given + length self.new.ahead ≡ self.old.given + length self.old.ahead) }
        ensures limit { self.new.given ≤ script_limit }
        ensures over { IfErr result (λ fault. fault ≡ TooMuch → script_limit < self.old.given + length self.old.ahead) }
        ensures fault { IfErr result (λ fault. (fault ≢ ReadFault) × (fault ≢ WriteFault)) }
    {
        let ahead = &self.bytes[self.next..self.end];
        let piece = &ahead[..len_before(b'\n', ahead)];
        let taken = ahead.len().min(piece.len() + 1);
        if taken > MAX_SCRIPT - self.given {
            return Err(RunFault::TooMuch);
        }
        push_front(line, piece)?;
        let newline = piece.len() < ahead.len();
        self.next += taken;
        self.given += taken;
        Ok(newline)
    }

    // Reads a part of the script, instead of what has been given. An interruption is an error too.
    fn fill<R: Read>(&mut self, reader: &mut Watched<R>) -> Result<(), RunFault>
        requires { self.old.ahead ≡ [] }
        ensures kept { OnOk result (Keeps (R.remaining reader.old.inner) (bytes_left self.new (R.remaining reader.new.inner))) }
        ensures end { OnOk result (self.new.ahead ≡ [] → IsAtEnd (R.remaining reader.new.inner)) }
        ensures count { self.new.given ≡ self.old.given }
        ensures failed { FailsWhere reader.old.failed reader.new.failed (result ≡ Err ReadFault) }
        ensures fault { IfErr result (λ fault. fault ≡ ReadFault) }
    {
        let Ok(count) = reader.read(&mut self.bytes) else {
            return Err(RunFault::ReadFault);
        };
        self.next = 0;
        self.end = count;
        Ok(())
    }
}

// Adds what is kept of a line.
fn push_front(line: &mut Vec<u8>, piece: &[u8]) -> Result<(), AllocError>
    requires { length line.old.items ≤ 4097 }
    ensures { OnOk result (line.new.items ≡ kept_front (line.old.items ++ piece.now)) }
{
    let room = MAX_LINE + 1 - line.len();
    line.extend_from_slice(&piece[..room.min(piece.len())])?;
    Ok(())
}
