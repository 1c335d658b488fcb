//! The kernel at the standard input and output of a process.
ghost use Rattle.std.specs.Prelude.{◌≡◌, ◌⊎◌, IfOk, IsTrue};
ghost use Rattle.std.specs.Option.{ForSome};
ghost use Rattle.std.specs.Path.{path_buf_bytes};
ghost use Rattle.fs_cred.specs.Capabilities.{no_caps};
ghost use Rattle.fuse_serving.specs.Processes.{HasShown, SharesUsers, IsLearnt, LearnsBy};
ghost use Rattle.fuse_serving.specs.Processes.Showing.{OwnUsers};

use crate::caller::Caller;
use crate::kernel::Kernel;
use crate::processes::Processes;
use crate::status::caller_of_status;
use bitflags::Flags;
use fs_cred::Caps;
use fuse_protocol::Time;
use std::alloc::Global;
use std::io::{self, ErrorKind, Read, Write};
use std::path::PathBuf;
use std::rt::Clock;
use std::time::{SystemTime, UNIX_EPOCH};

// The errors of errno(3) that tell more than a failure.
const ENOENT: i32 = 2;

const EINTR: i32 = 4;

const ENODEV: i32 = 19;

/// Reads requests from a stream and writes replies to another: who mounts opens /dev/fuse and gives it as both. Of who asks it knows what
/// is shown of processes, and of the time what the system's clock says.
///
/// std tells nothing of what is read from a device or written to it, so nothing is claimed of it here.
#[derive(Drop)]
pub struct Standard<R, P: Processes, I, O> {
    rt: R,
    processes: P,
    input: I,
    output: O,
    // The status of a process is read into it, over what was read before.
    room: Vec<u8>,
    // The user namespace of this process, once it was asked for: it stays in it.
    own_users: Option<PathBuf<Global>>,
    ghost own_shown: { ForSome own_users (λ name. HasShown P.Shows (OwnUsers (path_buf_bytes name))) },
}

impl<R: AllocGlobal, P: Processes, I, O> Standard<R, P, I, O> {
    /// The kernel at these streams, and the processes of its machine.
    pub fn new(rt: R, processes: P, input: I, output: O) -> Standard<R, P, I, O>
        ensures { result.processes ≡ processes }
    {
        let room = Vec::new(rt.alloc());
        Standard {
            rt,
            processes,
            input,
            output,
            room,
            own_users: None,
        }
    }

    // Whether a user namespace is that of this process.
    fn is_own(&mut self, users: &str) -> io::Result<bool>
        ensures { IfOk result (λ is_own. IsTrue is_own → HasShown P.Shows (OwnUsers users.now)) }
    {
        if self.own_users.is_none() {
            self.own_users = Some(self.processes.own_users()?);
        }
        match &self.own_users {
            Some(own) => Ok(own.as_str() == users),
            None => Ok(false),
        }
    }

    // Whether a process is in the user namespace of this one: user_namespaces(7).
    fn shares_users(&mut self, pid: u32) -> io::Result<bool>
        ensures { IfOk result (λ shares. IsTrue shares → SharesUsers P.Shows self.old.processes pid) }
    {
        let theirs = self.processes.users(pid)?;
        self.is_own(theirs.as_str())
    }

    // The capabilities that a process holds in its user namespace count here only where that is this one's.
    fn caps_here(&mut self, pid: u32, held: Caps) -> io::Result<Caps>
        ensures { IfOk result (λ caps. (caps ≡ no_caps) ⊎ ((caps ≡ held) × SharesUsers P.Shows self.old.processes pid)) }
    {
        if held.is_empty() || self.shares_users(pid)? {
            return Ok(held);
        }
        Ok(Caps::empty())
    }

    // What is shown of a process that asks as this user and this group.
    fn look_up(&mut self, pid: u32, uid: u32, gid: u32) -> io::Result<Caller>
        ensures { IfOk result (IsLearnt P.Shows self.old.processes pid uid gid) }
    {
        let size = self.processes.read_status(pid, &mut self.room)?;
        let text = &self.room[..size];
        let Caller { groups, caps } = caller_of_status(self.rt.alloc(), text, uid, gid)?;
        let caps = self.caps_here(pid, caps)?;
        Ok(Caller { groups, caps })
    }
}

fn is_errno(fault: &io::Error, errno: i32) -> bool {
    fault.raw_os_error() == Some(errno)
}

fn time_of<R: Clock>(rt: &R) -> io::Result<Time> {
    match SystemTime::now(rt)?.duration_since(UNIX_EPOCH) {
        Ok(since) => Ok(Time {
            seconds: since.as_secs(),
            nanoseconds: since.subsec_nanos(),
        }),
        Err(_) => Err(io::Error::from(ErrorKind::InvalidData)),
    }
}

impl<R: AllocGlobal + Clock, P: Processes, I: Read, O: Write> Kernel for Standard<R, P, I, O> {
    ghost Does = { λ old exchange new. LearnsBy P.Shows old.processes exchange new.processes };

    fn read(&mut self, buffer: &mut [u8]) -> io::Result<Option<usize>> {
        // Bounded, since each function has to end.
        for _ in 0..u64::MAX {
            match self.input.read(buffer) {
                Ok(0) => return Ok(None),
                Ok(size) => return Ok(Some(size)),
                Err(fault) if is_errno(&fault, EINTR) => {}
                // The request was given up while it was read.
                Err(fault) if is_errno(&fault, ENOENT) => {}
                Err(fault) if is_errno(&fault, ENODEV) => return Ok(None),
                Err(fault) => return Err(fault),
            }
        }
        Ok(None)
    }

    fn write(&mut self, reply: &[u8]) -> io::Result<bool> {
        match self.output.write(reply) {
            Ok(size) if size == reply.len() => Ok(true),
            Ok(_) => Err(io::Error::from(ErrorKind::WriteZero)),
            Err(fault) if is_errno(&fault, ENOENT) => Ok(false),
            Err(fault) => Err(fault),
        }
    }

    fn caller(&mut self, pid: u32, uid: u32, gid: u32) -> Caller {
        match self.look_up(pid, uid, gid) {
            Ok(caller) => caller,
            Err(_) => Caller::unknown(),
        }
    }

    fn now(&mut self) -> io::Result<Time> {
        time_of(&self.rt)
    }
}
