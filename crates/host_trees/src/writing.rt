//! The bytes of files, to a file system and from it.
ghost use Rattle.std.specs.Prelude.{◌≤◌, length, IfOk};
ghost use Rattle.fs_model.specs.Reading.{IsReading};
ghost use Rattle.host_trees.specs.Copies.{Asks, IsMaking};

use crate::asker::Asker;
use crate::file_system::FileSystem;
use crate::lack::Lack;
use fs_model::{Bytes, Call, Reply};
use std::alloc::Global;
use std::io::{ErrorKind, Read, Write};

/// The most bytes of one call.
const PIECE: usize = 4096;

/// Writes all that is read from a file of the host.
pub(crate) fn write_contents<F: Read, M: FileSystem>(
    alloc: Global,
    asker: &mut Asker<M>,
    pid: usize,
    fd: usize,
    from: &mut F,
    room: &mut [u8],
) -> Result<(), Lack>
    ensures { Asks M.Serves IsMaking asker.old.machine asker.new.machine asker.old.is_whole asker.new.is_whole }
{
    // Bounded, since each function has to end.
    for _ in 0..u64::MAX {
        let size = read_some(from, room)?;
        if size == 0 {
            return Ok(());
        }
        write_pieces(alloc, asker, pid, fd, &room[..size])?;
    }
    Err(Lack::Short)
}

// Reads the next bytes, and tells how many; none at the end.
fn read_some<F: Read>(from: &mut F, room: &mut [u8]) -> Result<usize, Lack>
    ensures { IfOk result (λ size. size ≤ length room.new) }
{
    // Bounded, since each function has to end.
    for _ in 0..u64::MAX {
        match from.read(room) {
            Ok(size) => return Ok(size),
            Err(error) if error.kind() == ErrorKind::Interrupted => {}
            Err(error) => return Err(Lack::from(error)),
        }
    }
    Err(Lack::Short)
}

// Writes some bytes, a piece after another.
fn write_pieces<M: FileSystem>(
    alloc: Global,
    asker: &mut Asker<M>,
    pid: usize,
    fd: usize,
    bytes: &[u8],
) -> Result<(), Lack>
    ensures { Asks M.Serves IsMaking asker.old.machine asker.new.machine asker.old.is_whole asker.new.is_whole }
{
    for piece in bytes.chunks(PIECE) {
        let bytes = Bytes::from_slice(alloc, piece)?;
        asker.perform(pid, Call::Write(fd, bytes))?;
    }
    Ok(())
}

/// Reads all bytes of a file, and writes them to one of the host.
pub(crate) fn read_contents<F: Write, M: FileSystem>(
    asker: &mut Asker<M>,
    pid: usize,
    fd: usize,
    to: &mut F,
) -> Result<(), Lack>
    ensures { Asks M.Serves IsReading asker.old.machine asker.new.machine asker.old.is_whole asker.new.is_whole }
{
    // Bounded, since each function has to end.
    for _ in 0..u64::MAX {
        if !copy_piece(asker, pid, fd, to)? {
            return Ok(());
        }
    }
    Err(Lack::Short)
}

// Reads the next bytes of a file, and writes them to one of the host. Whether there were any.
fn copy_piece<F: Write, M: FileSystem>(
    asker: &mut Asker<M>,
    pid: usize,
    fd: usize,
    to: &mut F,
) -> Result<bool, Lack>
    ensures { Asks M.Serves IsReading asker.old.machine asker.new.machine asker.old.is_whole asker.new.is_whole }
{
    let bytes = read_piece(asker, pid, fd)?;
    to.write_all(bytes.bytes())?;
    Ok(!bytes.bytes().is_empty())
}

// The next bytes of a file.
fn read_piece<M: FileSystem>(asker: &mut Asker<M>, pid: usize, fd: usize) -> Result<Bytes, Lack>
    ensures { Asks M.Serves IsReading asker.old.machine asker.new.machine asker.old.is_whole asker.new.is_whole }
{
    data_in(asker.call(pid, Call::Read { fd, len: PIECE })?)
}

// The bytes that a reply gives.
fn data_in(reply: Reply) -> Result<Bytes, Lack> {
    match reply {
        Reply::Data(bytes) => Ok(bytes),
        other => {
            other.discard();
            Err(Lack::Short)
        }
    }
}
