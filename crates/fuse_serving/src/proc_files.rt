//! The processes of a machine, as the files of /proc show them.
ghost use Rattle.std.specs.Prelude.{◌≤◌, length, IfOk};

use crate::processes::Processes;
use std::alloc::{AllocError, Global};
use std::os::unix::fs::FileExt;
use std::path::PathBuf;
use std::rt::Files;
use std::{fs, io};

// Of /proc/PID/status so many bytes are read, or all. Its groups stand near the front, and 4,096 of them take 45,056 bytes at most, so the
// front has them and the capabilities behind them, or more groups than are known.
const STATUS_ROOM: usize = 65_536;

// The status of a process, which stays open: to open it anew takes longer than to read it.
#[derive(Drop)]
struct Seen<F> {
    pid: u32,
    status: F,
}

/// The files of /proc. std tells nothing of what stands in them, so nothing is claimed of it here.
#[derive(Drop)]
pub struct ProcFiles<R: Files> {
    rt: R,
    // The path that is asked, in place of the one before.
    path: String,
    // The process that was looked up last.
    last: Option<Seen<R::File>>,
}

// Reads the front of a file of /proc, and tells how many bytes that is. It is one read, so that all is of one moment.
fn read_front<F: FileExt>(file: &F, room: &mut Vec<u8>) -> io::Result<usize>
    ensures { IfOk result (λ size. size ≤ length room.new.items) }
{
    room.resize(STATUS_ROOM, 0)?;
    file.read_at(room, 0)
}

impl<R: Files<File: FileExt> + AllocGlobal> ProcFiles<R> {
    /// No process was looked up yet.
    pub fn new(rt: R) -> ProcFiles<R> {
        let path = String::new(rt.alloc());
        ProcFiles {
            rt,
            path,
            last: None,
        }
    }

    // What is asked of a process is its file with this name.
    fn name_file(&mut self, pid: u32, name: &str) -> Result<(), AllocError> {
        self.path.clear();
        write!(self.path, "/proc/{pid}/{name}")
    }

    // Opens the status of a process, and reads it.
    fn read_opened(&mut self, pid: u32, room: &mut Vec<u8>) -> io::Result<usize>
        ensures { IfOk result (λ size. size ≤ length room.new.items) }
    {
        self.name_file(pid, "status")?;
        let status = fs::open(&self.rt, self.path.as_str())?;
        let size = read_front(&status, room)?;
        self.last = Some(Seen { pid, status });
        Ok(size)
    }
}

impl<R: Files<File: FileExt> + AllocGlobal> Processes for ProcFiles<R> {
    ghost use Rattle.std.specs.Prelude.{⊤};

    ghost Shows = { λ old showing new. ⊤ };

    // What is open of the process that was looked up last tells of that process alone: once it has ended reading fails, also where
    // another has got its number.
    fn read_status(&mut self, pid: u32, room: &mut Vec<u8>) -> io::Result<usize> {
        if let Some(last) = &self.last {
            if last.pid == pid {
                if let Ok(size) = read_front(&last.status, room) {
                    return Ok(size);
                }
            }
        }
        self.last = None;
        self.read_opened(pid, room)
    }

    fn users(&mut self, pid: u32) -> io::Result<PathBuf<Global>> {
        self.name_file(pid, "ns/user")?;
        fs::read_link(&self.rt, self.path.as_str())
    }

    fn own_users(&mut self) -> io::Result<PathBuf<Global>> {
        fs::read_link(&self.rt, "/proc/self/ns/user")
    }
}
