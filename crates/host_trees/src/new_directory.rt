//! The directory of the host that is made for a tree.
use crate::fault::CopyFault;
use crate::held::{Identity, check_proc, open_seen, path_through};
use crate::lack::Lack;
use std::alloc::Global;
use std::fs::{self, DirBuilder, Metadata, OpenFile, OpenOptions};
use std::io;
use std::os::fd::AsRawFd;
use std::os::unix::fs::{DirBuilderExt, MetadataExt, OpenOptionsExt};
use std::rt::Files;

// Nobody else looks at what is still being copied.
const PRIVATE_DIRECTORY: u32 = 0o700;

const PRIVATE_FILE: u32 = 0o600;

// The bits of a mode by which others than the owner read and write.
const OF_OTHERS: u32 = 0o066;

/// Makes a directory for its owner alone.
pub(crate) fn make_private<R: Files>(rt: &R, path: &str) -> io::Result<()> {
    DirBuilder::new().mode(PRIVATE_DIRECTORY).create(rt, path)
}

/// Makes a directory, and opens it. Where another one has its path then, that is refused: who owns a directory above may have put
/// it there.
pub(crate) fn make_and_hold<R: Files<File: AsRawFd> + AllocGlobal>(
    rt: &R,
    path: &str,
) -> Result<R::File, CopyFault> {
    check_proc(rt, rt.alloc())?;
    if make_private(rt, path).is_err() {
        return Err(CopyFault::NoDirectory);
    }
    match hold(rt, path) {
        Ok(directory) => Ok(directory),
        Err(Lack::Memory) => Err(CopyFault::OutOfMemory),
        Err(Lack::Changed) => Err(CopyFault::Changed),
        Err(_) => Err(CopyFault::NoDirectory),
    }
}

// Opens the directory that was made.
fn hold<R: Files<File: AsRawFd> + AllocGlobal>(rt: &R, path: &str) -> Result<R::File, Lack> {
    // Behind a slash a link would be followed.
    let path = path.trim_end_matches('/');
    let seen = fs::symlink_metadata(rt, path)?;
    let directory = open_seen(rt, rt.alloc(), path, Identity::of(&seen))?;
    let through = path_through(rt.alloc(), &directory)?;
    check_empty(rt, through.as_str())?;
    check_own(rt, rt.alloc(), through.as_str(), &seen)?;
    Ok(directory)
}

// Refuses a directory that has a name.
fn check_empty<R: Files + AllocGlobal>(rt: &R, path: &str) -> Result<(), Lack> {
    match fs::read_dir(&rt, path)?.next() {
        None => Ok(()),
        Some(_) => Err(Lack::Changed),
    }
}

// Refuses a directory that has another owner than what is made in it, or that others may read or write as they may not what is made
// for its owner alone. Some file systems of hosts give all objects one owner and one mode.
fn check_own<R: Files>(rt: &R, alloc: Global, path: &str, seen: &Metadata) -> Result<(), Lack> {
    let path = format!(in alloc; "{path}/new")?;
    let file = make_file(rt, path.as_str())?;
    let made = file.metadata();
    fs::remove_file(rt, path.as_str())?;
    let made = made?;
    if made.uid() == seen.uid() && made.mode() & OF_OTHERS == seen.mode() & OF_OTHERS {
        Ok(())
    } else {
        Err(Lack::Changed)
    }
}

/// Makes a file for its owner alone, and opens it for writing.
pub(crate) fn make_file<R: Files>(rt: &R, path: &str) -> io::Result<R::File> {
    OpenOptions::new()
        .write(true)
        .create_new(true)
        .mode(PRIVATE_FILE)
        .open(rt, path)
}
