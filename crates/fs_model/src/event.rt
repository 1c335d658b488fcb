//! What comes to a file system and its disk, and what comes back.
use crate::bytes::Bytes;
use crate::call::Call;
use crate::reply::Reply;
use fs_cred::Cred;
use std::mem;

/// Who makes a call and is no process: the credential, the mask of what is made, and the objects at which the first path of the call
/// starts, and the second.
#[derive(Drop)]
pub struct Actor {
    pub cred: Cred,
    pub umask: u16,
    pub start: u32,
    pub second_start: u32,
}

/// What is done by a handle. Permission was asked when it was opened.
#[derive(Drop)]
pub enum HandleCall {
    /// At most so many bytes, from an offset on.
    Read { offset: u64, len: usize },
    /// Bytes, from an offset on.
    Write { offset: u64, bytes: Bytes },
    /// The file gets this size.
    Resize(u64),
    /// What stat(2) shows.
    Show,
    /// The names in a directory.
    List,
    /// The handle goes.
    Close,
}

/// What comes to a file system and its disk.
#[derive(Drop)]
pub enum Event {
    /// A process with this credential begins.
    Spawn(Cred),
    /// The process with this number ends.
    Exit(usize),
    /// The process with this number makes a call.
    Call(usize, Call),
    /// A call by someone who is no process. A path that isn't absolute starts at the object that is given, and an empty one leads to
    /// that object, as with AT_EMPTY_PATH of openat(2). What it opens stays open under a handle.
    CallAt(Actor, Call),
    /// What is done by the handle with this number, whoever has it.
    CallBy(u64, HandleCall),
    /// The times of a node are set to those that are given, and answered as they are then. It is trusted: nothing is asked of
    /// anyone's permissions.
    Stamp {
        ino: u32,
        atime: Option<u64>,
        mtime: Option<u64>,
        ctime: Option<u64>,
    },
    /// The time is this, in nanoseconds since 1970, until another is told. It is trusted.
    Clock(u64),
    /// fsync, by the process with this number, of one of its descriptors.
    Fsync {
        pid: usize,
        fd: usize,
    },
    /// All that was done becomes stable.
    Sync,
    /// Asks for the space that is free.
    Statfs,
    /// The disk is to fail after so many writes and syncs.
    Arm(u64),
    /// The disk stops, with these choices of what it keeps, may be told to fail again after so many writes and syncs,
    /// and is mounted.
    Restart {
        choice: Bytes,
        arm: Option<u64>,
    },
}

impl Event {
    /// Lets go of an event, as [`Call::discard`] does of a call.
    pub fn discard(self) {
        mem::drop(self);
    }
}

/// Why a file system isn't mounted again.
#[derive(Clone, Copy)]
pub enum RestartFault {
    /// The disk failed.
    DiskFault,
    /// Memory ran out.
    OutOfMemory,
}

/// The answer to an event.
#[derive(Drop)]
pub enum EventReply {
    /// What the file system answers.
    Reply(Reply),
    /// The disk is armed.
    Armed,
    /// The disk is mounted again.
    Mounted,
    /// The disk is not mounted again.
    MountFailed(RestartFault),
    /// No file system is mounted.
    Down,
}
