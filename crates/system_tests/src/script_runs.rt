//! Runs over readers and writers of several kinds. What file systems answer to lines is tried by the program `player`.

use crate::mounts::{TestDisk, new_fs};
use fs_layout::Version;
use fs_shell::{Count, RunFault, Watched, run};
use fs_system::Fs;
use std::alloc::{AllocError, Global};
use std::io::{self, ErrorKind, Read, Write};
use std::mem;
use std::test::Fail;

// ---- readers and writers

// Gives the front, a unit so many times, and the back, in pieces of so many bytes at most; then fails, if it has a
// kind of error, or ends.
#[derive(Clone, Copy)]
struct Source<'a> {
    front: &'a [u8],
    unit: &'a [u8],
    times: usize,
    back: &'a [u8],
    error: Option<ErrorKind>,
    piece: usize,
}

// Ends at once.
const EMPTY: Source<'static> = Source {
    front: b"",
    unit: b"",
    times: 0,
    back: b"",
    error: None,
    piece: usize::MAX,
};

impl Source<'_> {
    // Goes on to the next part, where the front has been given.
    fn go_on(&mut self) {
        if !self.front.is_empty() {
            return;
        }
        if self.times > 0 {
            self.times -= 1;
            self.front = self.unit;
        } else {
            self.front = self.back;
            self.back = b"";
        }
    }
}

impl Read for Source<'_> {
    fn read(&mut self, buf: &mut [u8]) -> io::Result<usize> {
        self.go_on();
        if self.front.is_empty() {
            return match self.error {
                Some(kind) => Err(io::Error::from(kind)),
                None => Ok(0),
            };
        }
        let count = self.front.len().min(buf.len()).min(self.piece);
        buf[..count].copy_from_slice(&self.front[..count]);
        self.front = &self.front[count..];
        Ok(count)
    }
}

// Takes so many bytes, and keeps how many it could still take when it was last flushed; a flush may fail.
#[derive(Clone, Copy)]
struct Sink {
    room: usize,
    flushed: Option<usize>,
    fails: bool,
}

// Takes a hundred bytes.
const WIDE: Sink = Sink {
    room: 100,
    flushed: None,
    fails: false,
};

impl Write for Sink {
    fn write(&mut self, buf: &[u8]) -> io::Result<usize> {
        let count = buf.len().min(self.room);
        self.room -= count;
        Ok(count)
    }

    fn flush(&mut self) -> io::Result<()> {
        if self.fails {
            return Err(io::Error::from(ErrorKind::Other));
        }
        self.flushed = Some(self.room);
        Ok(())
    }
}

// ---- scripts

// Adds what a run came to, on a line of its own.
fn push_outcome(seen: &mut String, outcome: Result<Count, RunFault>) -> Result<(), AllocError> {
    match outcome {
        Ok(Count { lines, faults }) => writeln!(seen, "{lines} lines, {faults} faults"),
        Err(fault) => writeln!(seen, "{fault}"),
    }
}

// Runs a script on an empty file system.
fn ran(
    alloc: Global,
    script: Source<'_>,
    written: &mut Vec<u8>,
) -> Result<Result<Count, RunFault>, Fail> {
    let mut fs = new_fs(alloc, Version::Two, u64::MAX)?;
    let outcome = run(
        alloc,
        &mut Watched::new(script),
        &mut Watched::new(written),
        &mut fs,
    );
    mem::drop(fs.unmount());
    Ok(outcome)
}

// Adds what was written, and what the run came to.
fn push_seen(
    alloc: Global,
    seen: &mut String,
    written: &[u8],
    outcome: Result<Count, RunFault>,
) -> Result<(), AllocError> {
    let text = String::from_utf8_lossy(alloc, written)?;
    seen.push_str(text.as_str())?;
    push_outcome(seen, outcome)
}

// Adds what a script on an empty file system comes to.
fn push_run(alloc: Global, seen: &mut String, script: Source<'_>) -> Result<(), Fail> {
    let mut written = Vec::new(alloc);
    let pushed = match ran(alloc, script, &mut written) {
        Ok(outcome) => Ok(push_seen(alloc, seen, &written, outcome)),
        Err(fail) => Err(fail),
    };
    mem::drop(written);
    Ok(pushed??)
}

// Whether a script on an empty file system comes to that.
fn comes_to(alloc: Global, script: Source<'_>, wanted: &str) -> Result<bool, Fail> {
    let mut seen = String::new(alloc);
    let pushed = push_run(alloc, &mut seen, script);
    let is_wanted = seen.as_str() == wanted;
    mem::drop(seen);
    pushed?;
    Ok(is_wanted)
}

// What a reader gives, and what is seen.
static SOURCES: [(Source<'static>, &str); 7] = [
    // Each fault of a line, the first of those that it has. A line has 4,097 bytes.
    (
        Source {
            front: b"1 frobnicate\nspawn 1\na\tb\n1 stat /\\zz\n# x\n\n1 stat \x80\n",
            unit: b"a",
            times: 4097,
            back: b"\n1 spawn 0 0\n01 stat /\nspawn 4294967296 0\n\
                    spawn 0 0 1,2,3,4,5,6,7,8,9,10,11,12,13,14,15,16,17\n",
            ..EMPTY
        },
        "fault 4 UnknownCommand\n\
         fault 5 WordCount\n\
         fault 2 BadByte\n\
         fault 3 BadEscape\n\
         fault 2 BadByte\n\
         fault 1 TooLong\n\
         fault 4 UnknownCommand\n\
         fault 6 BadNumber\n\
         fault 6 BadNumber\n\
         fault 6 BadNumber\n\
         12 lines, 10 faults\n",
    ),
    // 4,096 bytes are no fault. The last line has no newline.
    (
        Source {
            front: b"spawn 0 0\n1 stat /",
            unit: b" ",
            times: 4088,
            ..EMPTY
        },
        "pid 1\n\
         ino 1 dir 0755 links 1 uid 0 gid 0 size 0\n\
         2 lines, 0 faults\n",
    ),
    // Pieces make no difference.
    (
        Source {
            front: b"spawn 0 0\n\n1 stat /\n1 access / rw\n# x\n1 access / rw-",
            piece: 1,
            ..EMPTY
        },
        "pid 1\n\
         ino 1 dir 0755 links 1 uid 0 gid 0 size 0\n\
         fault 6 BadNumber\n\
         granted cap:dac-override\n\
         6 lines, 1 faults\n",
    ),
    // A reader that fails or is interrupted ends the run.
    (
        Source {
            front: b"spawn 0 0\n1 st",
            error: Some(ErrorKind::Other),
            ..EMPTY
        },
        "pid 1\n\
         ReadFault\n",
    ),
    (
        Source {
            front: b"spawn 0 0\n1 st",
            error: Some(ErrorKind::Interrupted),
            ..EMPTY
        },
        "pid 1\n\
         ReadFault\n",
    ),
    // A script has 16,777,216 bytes at most.
    (
        Source {
            unit: b"aaaaaaaaaaaaaaaaaaaaaaaaaaaaaaaa",
            times: 524_288,
            ..EMPTY
        },
        "fault 1 TooLong\n\
         1 lines, 1 faults\n",
    ),
    (
        Source {
            front: b"\n",
            unit: b"\n\n\n\n\n\n\n\n\n\n\n\n\n\n\n\n",
            times: 1_048_576,
            ..EMPTY
        },
        "TooMuch\n",
    ),
];

// The first text that isn't what its script comes to.
fn first_other(alloc: Global) -> Result<Option<&'static str>, Fail> {
    for (source, wanted) in &SOURCES {
        if !comes_to(alloc, *source, wanted)? {
            return Ok(Some(*wanted));
        }
    }
    Ok(None)
}

#[test]
fn readers_get_their_replies(rt: HostRuntime) -> Result<(), Fail> {
    let other = first_other(rt.alloc())?;
    assert!(rt; other == None, "{other:?}");
    Ok(())
}

// ---- writers

// Runs a script, and adds how many bytes the writer can still take, how many it could when it was last flushed, whether it
// has failed, and what the run came to.
fn push_run_into(
    alloc: Global,
    seen: &mut String,
    script: &[u8],
    sink: Sink,
    fs: &mut Fs<TestDisk>,
) -> Result<(), AllocError> {
    let mut sink = sink;
    let mut writer = Watched::new(&mut sink);
    let outcome = run(alloc, &mut Watched::new(script), &mut writer, fs);
    let failed = writer.has_failed();
    let Sink { room, flushed, .. } = sink;
    write!(seen, "{room} {flushed:?} {failed} ")?;
    push_outcome(seen, outcome)
}

// Scripts, and what each is written to.
static SINKS: [(&[u8], Sink); 5] = [
    // The text of two replies, of six bytes and of 42, is flushed.
    (b"spawn 0 0\n1 stat /\n", WIDE),
    // A script without replies needs no room.
    (b"# x\n", Sink { room: 0, ..WIDE }),
    // What can't be written ends the run. What was performed stays.
    (b"# x\nspawn 0 0\n", Sink { room: 0, ..WIDE }),
    (b"2 access / rwx\n", WIDE),
    // A flush fails.
    (
        b"2 stat \"\"\n",
        Sink {
            fails: true,
            ..WIDE
        },
    ),
];

// Adds what the scripts come to, one after another on one file system.
fn push_runs(alloc: Global, seen: &mut String, fs: &mut Fs<TestDisk>) -> Result<(), AllocError> {
    for (script, sink) in &SINKS {
        push_run_into(alloc, seen, script, *sink, fs)?;
    }
    Ok(())
}

// Adds what the scripts come to on a new file system.
fn push_writers(alloc: Global, seen: &mut String) -> Result<(), Fail> {
    let mut fs = new_fs(alloc, Version::Two, u64::MAX)?;
    let pushed = push_runs(alloc, seen, &mut fs);
    mem::drop(fs.unmount());
    Ok(pushed?)
}

static WRITTEN: &str = "52 Some(52) false 2 lines, 0 faults\n\
                        0 Some(0) false 1 lines, 0 faults\n\
                        0 None true WriteFault\n\
                        75 Some(75) false 1 lines, 0 faults\n\
                        85 None true WriteFault\n";

// Whether the scripts come to that on a new file system.
fn are_flushed(alloc: Global) -> Result<bool, Fail> {
    let mut seen = String::new(alloc);
    let pushed = push_writers(alloc, &mut seen);
    let is_wanted = seen.as_str() == WRITTEN;
    mem::drop(seen);
    pushed?;
    Ok(is_wanted)
}

#[test]
fn a_run_flushes_its_writer(rt: HostRuntime) -> Result<(), Fail> {
    assert!(rt; are_flushed(rt.alloc())?);
    Ok(())
}
