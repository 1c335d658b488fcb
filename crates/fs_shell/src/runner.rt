//! Runs scripts, with readers and writers that remember whether a call of them has failed, and whether all has been flushed.

ghost use Rattle.std.specs.Prelude.{◌≡◌, [], Ok, Err, OnOk, IsTrue, true, false, IsFalse};
ghost use Rattle.std.specs.Io.KnownBytes.{IsAtEnd, Appends, Keeps, ReadConsumes, WriteAppends};
ghost use Rattle.fs_system.specs.Playing.{IsConfig};
ghost use Rattle.fs_system.specs.Histories.{Config};
ghost use Rattle.fs_shell.specs.declared.fault.RunFault.TheVariants.{ReadFault, WriteFault};
ghost use Rattle.fs_shell.specs.Runs.{LinePerformed, Ran};
ghost use Rattle.fs_shell.specs.Watching.{FailsWhere, Remembers};
ghost use Rattle.std.specs.Io.{ReadsAtMost, WritesAtMost};

use crate::answer::{Answer, Count, write_answer};
use crate::fault::RunFault;
use crate::script::Pending;
use fs_lines::{Line, MAX_LINE, parse_line};
use fs_system::Fs;
use sector_disk::Disk;
use std::alloc::Global;
use std::io::{self, Read, Write};

/// Runs a script, line by line, and writes what is answered, each reply as soon as its line was performed.
///
/// The replies are those of a history of the disk over the events that the lines ask for. So EIO is answered only where the
/// device failed then, or a commit had failed before; a stop during the run or after it leaves what the history tells; and
/// what was done before an fsync or a sync that was answered ok is stable. The disk lets go of its past before each event.
///
/// # Errors
///
/// See [`RunFault`]: a fault of the reader or the writer is told exactly where it has failed. The file system stands where the
/// last line that was performed has left it, also where the reply to that line wasn't written.
pub fn run<R: Read, W: Write, D: Disk + Drop>(
    alloc: Global,
    reader: &mut Watched<R>,
    writer: &mut Watched<W>,
    fs: &mut Fs<D>,
) -> Result<Count, RunFault>
    ensures ran { (c : Config D) → IsConfig D.state (Ok fs.old) c → (d : Config D) × IsConfig D.state (Ok fs.new) d
        × Ran D.state (R.remaining reader.old.inner) (W.contents writer.old.inner) (W.contents writer.new.inner) c d result }
    ensures end { OnOk result (IsAtEnd (R.remaining reader.new.inner)) }
    ensures read_fault { FailsWhere reader.old.failed reader.new.failed (result ≡ Err ReadFault) }
    ensures write_fault { FailsWhere writer.old.failed writer.new.failed (result ≡ Err WriteFault) }
    ensures flushed { OnOk result (IsTrue writer.new.flushed) }
{
    let mut pending = Pending::new(alloc)?;
    let mut line = Vec::with_capacity(alloc, MAX_LINE + 1)?;
    run_lines(alloc, reader, writer, fs, &mut pending, &mut line)
}

// Performs and answers line after line, each in this buffer, and flushes what was written.
fn run_lines<R: Read, W: Write, D: Disk + Drop>(
    alloc: Global,
    reader: &mut Watched<R>,
    writer: &mut Watched<W>,
    fs: &mut Fs<D>,
    pending: &mut Pending,
    line: &mut Vec<u8>,
) -> Result<Count, RunFault>
    requires { pending.old ≡ record { ahead = []; given = 0 } }
    ensures ran { (c : Config D) → IsConfig D.state (Ok fs.old) c → (d : Config D) × IsConfig D.state (Ok fs.new) d
        × Ran D.state (R.remaining reader.old.inner) (W.contents writer.old.inner) (W.contents writer.new.inner) c d result }
    ensures end { OnOk result (IsAtEnd (R.remaining reader.new.inner)) }
    ensures read_fault { FailsWhere reader.old.failed reader.new.failed (result ≡ Err ReadFault) }
    ensures write_fault { FailsWhere writer.old.failed writer.new.failed (result ≡ Err WriteFault) }
    ensures flushed { OnOk result (IsTrue writer.new.flushed) }
{
    let mut count = Count {
        lines: 0,
        faults: 0,
    };
    while pending.read_line(reader, line)? {
        let answer = perform_line(alloc, fs, line);
        count.lines += 1;
        count.faults += answer.faults();
        write_answer(alloc, writer, answer)?;
    }
    match writer.flush() {
        Ok(()) => Ok(count),
        Err(_) => Err(RunFault::WriteFault),
    }
}

// Performs a line, if nothing is wrong with it. Else nothing changes.
fn perform_line<D: Disk + Drop>(alloc: Global, fs: &mut Fs<D>, line: &[u8]) -> Answer
    ensures { LinePerformed D.state line.now result fs.old fs.new }
{
    match parse_line(alloc, line) {
        Ok(Line::Blank) => Answer::Nothing,
        Ok(Line::Event(event)) => {
            let reply = fs.serve(&event);
            event.discard();
            Answer::Reply(reply)
        }
        Err(fault) => Answer::Fault(fault),
    }
}

/// A reader or a writer that remembers whether a call of it has failed, and whether all that was written has been flushed.
///
/// An interruption fails a call too, if the call doesn't try again.
#[derive(Drop)]
pub struct Watched<T> {
    inner: T,
    failed: bool,
    flushed: bool,
}

impl<T> Watched<T> {
    /// None has failed yet, and nothing was written.
    pub fn new(inner: T) -> Self
        ensures { result ≡ record { inner = inner; failed = false; flushed = true } }
    {
        Watched {
            inner,
            failed: false,
            flushed: true,
        }
    }

    /// Whether a call has failed.
    pub fn has_failed(&self) -> bool
        ensures { result ≡ self.now.failed }
    {
        self.failed
    }

    /// Whether nothing was written after the last flush that succeeded, or at all.
    pub fn is_flushed(&self) -> bool
        ensures { result ≡ self.now.flushed }
    {
        self.flushed
    }
}

impl<R: Read> Read for Watched<R> {
    ghost remaining = { λ watched. R.remaining watched.inner };

    fn read(&mut self, buf: &mut [u8]) -> io::Result<usize>
        ensures bound { ReadsAtMost result buf.new }
        ensures bytes { ReadConsumes (R.remaining self.old.inner) (R.remaining self.new.inner) result buf.new }
        ensures failed { Remembers self.old.failed self.new.failed result }
    {
        let result = self.inner.read(buf);
        if result.is_err() {
            self.failed = true;
        }
        result
    }
}

impl<W: Write> Write for Watched<W> {
    ghost contents = { λ watched. W.contents watched.inner };

    fn write(&mut self, buf: &[u8]) -> io::Result<usize>
        ensures bound { WritesAtMost result buf.now }
        ensures bytes { WriteAppends (W.contents self.old.inner) (W.contents self.new.inner) result buf.now }
        ensures failed { Remembers self.old.failed self.new.failed result }
        ensures flushed { IsFalse self.new.flushed }
    {
        self.flushed = false;
        let result = self.inner.write(buf);
        if result.is_err() {
            self.failed = true;
        }
        result
    }

    fn flush(&mut self) -> io::Result<()>
        ensures bytes { Keeps (W.contents self.old.inner) (W.contents self.new.inner) }
        ensures failed { Remembers self.old.failed self.new.failed result }
        ensures flushed { OnOk result (IsTrue self.new.flushed) }
    {
        let result = self.inner.flush();
        match &result {
            Ok(()) => self.flushed = true,
            Err(_) => self.failed = true,
        }
        result
    }

    fn write_all(&mut self, buf: &[u8]) -> io::Result<()>
        ensures bytes { OnOk result (Appends (W.contents self.old.inner) (W.contents self.new.inner) buf.now) }
        ensures failed { Remembers self.old.failed self.new.failed result }
        ensures flushed { IsFalse self.new.flushed }
    {
        self.flushed = false;
        let result = self.inner.write_all(buf);
        if result.is_err() {
            self.failed = true;
        }
        result
    }
}
