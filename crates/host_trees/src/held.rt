//! Directories of the host that are held open: what lies in one is reached through it, whatever becomes of its path.
use crate::fault::CopyFault;
use crate::lack::Lack;
use std::alloc::{AllocError, Global};
use std::fs::{self, FileType, Metadata, OpenFile};
use std::os::fd::AsRawFd;
use std::os::unix::fs::MetadataExt;
use std::rt::Files;
use std::time::SystemTime;

/// Which object of the host one is.
#[derive(Clone, Copy, PartialEq, Eq)]
pub(crate) struct Identity {
    device: u64,
    number: u64,
    kind: FileType,
    // The number of an object that is gone may come again.
    created: Option<SystemTime>,
}

impl Identity {
    /// Which object this is of.
    pub(crate) fn of(metadata: &Metadata) -> Identity {
        Identity {
            device: metadata.dev(),
            number: metadata.ino(),
            kind: metadata.file_type(),
            created: metadata.created().ok(),
        }
    }

    /// Refuses another object than this one.
    pub(crate) fn check(self, metadata: &Metadata) -> Result<(), Lack> {
        if Identity::of(metadata) == self {
            Ok(())
        } else {
            Err(Lack::Changed)
        }
    }
}

/// The path of a directory that is open. It stays the path of this one as long as it is open.
pub(crate) fn path_through<F: AsRawFd>(alloc: Global, directory: &F) -> Result<String, AllocError> {
    let descriptor = directory.as_raw_fd();
    format!(in alloc; "/proc/self/fd/{descriptor}")
}

/// Opens a directory, and nothing else: no other object has a name `.` in it.
pub(crate) fn open_directory<R: Files>(rt: &R, alloc: Global, path: &str) -> Result<R::File, Lack> {
    let path = format!(in alloc; "{path}/.")?;
    Ok(fs::open(rt, path.as_str())?)
}

/// Opens a directory that was seen. Where another object has its path now, that is refused.
pub(crate) fn open_seen<R: Files>(
    rt: &R,
    alloc: Global,
    path: &str,
    seen: Identity,
) -> Result<R::File, Lack> {
    let directory = open_directory(rt, alloc, path)?;
    seen.check(&directory.metadata()?)?;
    Ok(directory)
}

/// Whether an open directory of this system has such a path. Where memory runs out that isn't known, and taken to be so.
pub fn has_proc<R: Files<File: AsRawFd> + AllocGlobal>(rt: &R) -> bool {
    !matches!(check_proc(rt, rt.alloc()), Err(CopyFault::NoProc))
}

/// Refuses a system on which an open directory has no such path.
pub(crate) fn check_proc<R: Files<File: AsRawFd>>(rt: &R, alloc: Global) -> Result<(), CopyFault> {
    match open_through(rt, alloc) {
        Ok(_) => Ok(()),
        Err(Lack::Memory) => Err(CopyFault::OutOfMemory),
        Err(_) => Err(CopyFault::NoProc),
    }
}

// Opens the host's root by the path through it.
fn open_through<R: Files<File: AsRawFd>>(rt: &R, alloc: Global) -> Result<R::File, Lack> {
    let root = open_directory(rt, alloc, "")?;
    let path = path_through(alloc, &root)?;
    open_seen(rt, alloc, path.as_str(), Identity::of(&root.metadata()?))
}
