//! The bytes of a file: POSIX.1-2017, read(), lseek(), write(), truncate() and ftruncate().

ghost use Rattle.std.specs.Prelude.{◌≡◌, min, take, drop, pos, ◌+ℤ◌, ◌+◌, ◌-◌, ◌<◌, ◌≤◌, length, if◌then◌else◌, nat_lt};
ghost use Rattle.block_map.specs.Blocks.{IsWithin};
ghost use Rattle.fs_layout.specs.Images.{Holds, inode_at, free_sectors};
ghost use Rattle.fs_model.specs.declared.call.Call.TheVariants.{Lseek, Truncate};
ghost use Rattle.fs_model.specs.DescriptorCalls.{seekable};
ghost use Rattle.fs_model.specs.Limits.{handle_write_limit, free_for};
ghost use Rattle.sector_txn.specs.Sectors.{IsUnchanged};
ghost use Rattle.call_parts.specs.BothTables.{both};
ghost use Rattle.call_parts.specs.Performing.{MayPerform, Performs, IsReadyFor, PerformsFor};
ghost use Rattle.call_parts.specs.Callers.{ByProcess, ByCaller};
ghost use Rattle.file_calls.specs.Places.{offset_at, read_through, write_through, resize_through, read_most, write_most};
ghost use Rattle.call_parts.specs.Telling.{ReadsInode, checked};
ghost use Rattle.fs_layout.specs.declared.inode.Kind.TheVariants.{File};
ghost use Rattle.fs_layout.specs.Bytes.{overwritten, resized};
ghost use Rattle.fs_layout.specs.Version.{max_file_size};
ghost use Rattle.call_parts.specs.Altering.{MayAlter, AltersDisk};
ghost use Rattle.call_parts.specs.ByteChanges.{ChangesBytes};
ghost use Rattle.fs_cred.specs.declared.errno.Errno.TheVariants.{EFBIG};
ghost use Rattle.fs_model.specs.Demands.{refuse};

use block_map::{MAX_WRITE, read_at, set_size, write_at};
use call_parts::{
    CallResult, Caller, OpenAt, OpenFor, Site, ask_to_write, check_no_directory, find_open,
    permitted, reach, reach_open, refuse_if, seek_at, touch,
};
use fs_cred::{Errno, Refusal};
use fs_layout::{Geometry, Inode, Kind};
use fs_model::{Bytes, Form, Path, Reply, Touch, Whence};
use open_files::{Descriptor, Openings, Procs};
use path_walk::load_inode;
use posix_acl::Perms;
use sector_txn::Sectors;
use std::alloc::Global;

/// The most bytes that one read of a process gives, and that one write of it writes.
const MAX_MOVE: usize = 4096;

/// The most bytes that one read by a handle gives.
pub const MAX_HANDLE_READ: usize = 1_048_576;

// The least number that is no offset.
const OFFSET_END: u64 = 1 << 63;

// The most bytes that are read at once of what is open there.
fn read_most(place: OpenAt) -> usize
    ensures { result ≡ read_most place }
{
    match place {
        OpenAt::Descriptor { .. } => MAX_MOVE,
        OpenAt::Handle { .. } => MAX_HANDLE_READ,
    }
}

// The most bytes that are written at once to what is open there.
fn write_most(place: OpenAt) -> usize
    ensures most { result ≡ write_most place }
    ensures few { result ≤ handle_write_limit }
{
    match place {
        OpenAt::Descriptor { .. } => MAX_MOVE,
        OpenAt::Handle { .. } => MAX_WRITE,
    }
}

// At most `len` bytes of what a file holds from `offset` on. ENOMEM: there is no memory for them.
fn read_bytes<S: Sectors>(
    alloc: Global,
    s: &mut S,
    inode: &Inode,
    offset: u64,
    len: usize,
) -> Result<Bytes, Refusal>
    requires within { IsWithin (S.state s.old).header (S.state s.old).disk.size (S.state s.old).sectors inode.now }
    ensures { ReadsInode inode.now Holds (λ bytes. take len (drop offset bytes)) (S.state s.old) (S.state s.new) result }
{
    let count = len.min(inode.size.saturating_sub(offset) as usize);
    let mut bytes = Vec::new(alloc);
    let Ok(_) = bytes.resize(count, 0) else {
        return Err(Refusal::Failed(Errno::ENOMEM));
    };
    let Ok(_) = read_at(s, inode, offset, &mut bytes) else {
        return Err(Refusal::Failed(Errno::EIO));
    };
    Ok(Bytes::new(bytes))
}

// Where a read begins.
fn start_of(descriptor: Descriptor) -> u64
    ensures { result ≡ descriptor.offset }
{
    descriptor.offset
}

/// Reads at most `len` bytes from the offset of a descriptor on, which moves by their number, or from the offset that a handle comes
/// with. One read gives a process at most 4,096 bytes, and a handle at most 1,048,576.
///
/// EBADF: it isn't open for reading. EISDIR: it is for a directory.
pub fn read<S: Sectors>(
    s: &mut S,
    site: Site,
    procs: &mut Procs,
    openings: &Openings,
    place: OpenAt,
    len: usize,
) -> CallResult
    requires ready { MayPerform site.geometry (S.state s.old) (both procs.old openings.now.0) }
    ensures performs { Performs site.geometry site.time (read_through place len) (S.state s.old) (S.state s.new)
        (both procs.old openings.now.0) (both procs.new openings.now.0) result }
    ensures same { IsUnchanged (S.state s.old) (S.state s.new) }
{
    let geometry = site.geometry;
    let (descriptor, inode) = reach_open(s, geometry, procs, openings, place, OpenFor::Reading)?;
    check_no_directory(inode.kind)?;
    let most = len.min(read_most(place));
    let from = start_of(descriptor);
    let bytes = read_bytes(site.alloc, s, &inode, from, most)?;
    let to = from + bytes.bytes().len() as u64;
    seek_at(procs, openings, place, to);
    Ok(Reply::Data(bytes))
}

// From where an offset moves.
fn base(whence: Whence, offset: u64, size: u64) -> u64
    ensures start { whence ≡ Whence.Set → result ≡ 0 }
    ensures present { whence ≡ Whence.Cur → result ≡ offset }
    ensures end { whence ≡ Whence.End → result ≡ size }
{
    match whence {
        Whence::Set => 0,
        Whence::Cur => offset,
        Whence::End => size,
    }
}

// Where an offset moves, from 0 to 2^63 - 1.
fn moved(base: u64, by: i64) -> Option<u64>
    ensures { result ≡ seekable (pos base +ℤ by) }
{
    let Some(offset) = base.checked_add_signed(by) else {
        return None;
    };
    if offset < OFFSET_END {
        Some(offset)
    } else {
        None
    }
}

/// Moves the offset of a descriptor: to a number counted from the start, from the present offset or from the end.
///
/// EBADF: it isn't open. EISDIR: it is for a directory. EINVAL: that would be below 0 or above 2^63 - 1.
pub fn lseek<S: Sectors>(
    s: &mut S,
    site: Site,
    procs: &mut Procs,
    openings: &Openings,
    pid: usize,
    fd: usize,
    whence: Whence,
    by: i64,
) -> CallResult
    requires ready { MayPerform site.geometry (S.state s.old) (both procs.old openings.now.0) }
    ensures performs { Performs site.geometry site.time (ByCaller (ByProcess pid) (Lseek fd whence by))
        (S.state s.old) (S.state s.new) (both procs.old openings.now.0) (both procs.new openings.now.0) result }
    ensures same { IsUnchanged (S.state s.old) (S.state s.new) }
{
    let geometry = site.geometry;
    let place = OpenAt::Descriptor { pid, fd };
    let (descriptor, inode) = reach_open(s, geometry, procs, openings, place, OpenFor::Anything)?;
    check_no_directory(inode.kind)?;
    let Some(offset) = moved(base(whence, descriptor.offset, inode.size), by) else {
        return Err(Refusal::Failed(Errno::EINVAL));
    };
    seek_at(procs, openings, place, offset);
    Ok(Reply::At(offset))
}

// How many of so many bytes are written at an offset within the limit of a file.
fn write_count(geometry: Geometry, len: usize, offset: u64) -> usize
    requires { offset ≤ max_file_size geometry.version }
    ensures { result ≡ min len (max_file_size geometry.version - offset) }
{
    let left = (geometry.max_file_size() - offset) as usize;
    len.min(left)
}

// Writes bytes that fit into what inode `ino`, a file, holds. EIO: the disk has failed.
fn write_bytes<S: Sectors>(
    s: &mut S,
    geometry: Geometry,
    ino: u32,
    inode: Inode,
    offset: u64,
    bytes: &[u8],
) -> Result<(), Refusal>
    requires ready { MayAlter geometry 47 (S.state s.old) }
    requires below { ino < geometry.inodes }
    requires inode { inode ≡ inode_at geometry (S.state s.old).sectors ino }
    requires file { inode.kind ≡ File }
    requires few { length bytes.now ≤ handle_write_limit }
    requires fits { offset + length bytes.now ≤ max_file_size geometry.version }
    requires space { free_for (length bytes.now) ≤ free_sectors geometry (S.state s.old).sectors }
    ensures { AltersDisk geometry 40 (λ done. ChangesBytes geometry ino (λ held. overwritten held offset bytes.now))
        (S.state s.old) (S.state s.new) result }
{
    let mut inode = inode;
    match write_at(s, geometry, ino, &mut inode, offset, bytes) {
        Ok(()) => Ok(()),
        Err(_) => Err(Refusal::Failed(Errno::EIO)),
    }
}

// Where bytes are written: at the offset, or at the end with O_APPEND.
fn write_offset(descriptor: Descriptor, inode: &Inode) -> u64
    ensures { result ≡ if descriptor.append then inode.now.size else descriptor.offset }
{
    if descriptor.append {
        inode.size
    } else {
        descriptor.offset
    }
}

/// Writes bytes from the offset of a descriptor on, which moves behind them, or from the offset that a handle comes with; with
/// O_APPEND from the end of the file on. Zeros fill what lies between the end and these, and the file is modified.
///
/// As many are written as fit: at most 4,096 of a process, and 16,384 by a handle. EBADF: it isn't open for writing. EFBIG: nothing
/// fits. ENOSPC: fewer than 16 data sectors are free, or 40 for more than 4,096 bytes. To write nothing is never refused.
pub fn write<S: Sectors>(
    s: &mut S,
    site: Site,
    procs: &mut Procs,
    openings: &Openings,
    place: OpenAt,
    bytes: &[u8],
) -> CallResult
    requires ready { MayPerform site.geometry (S.state s.old) (both procs.old openings.now.0) }
    ensures { Performs site.geometry site.time (write_through place bytes.now)
        (S.state s.old) (S.state s.new) (both procs.old openings.now.0) (both procs.new openings.now.0) result }
{
    let descriptor = find_open(procs, openings, place, OpenFor::Writing)?;
    if bytes.is_empty() {
        return Ok(Reply::Wrote(0));
    }
    let ino = descriptor.ino;
    let inode = load_inode(s, site.geometry, ino)?;
    let offset = write_offset(descriptor, &inode);
    let limit = site.geometry.max_file_size();
    if offset >= limit {
        return Err(Refusal::Failed(Errno::EFBIG));
    }
    let most = write_most(place);
    let asked = bytes.len().min(most);
    ask_to_write(s, site.geometry, asked)?;
    let count = write_count(site.geometry, asked, offset);
    write_bytes(s, site.geometry, ino, inode, offset, &bytes[..count])?;
    touch(s, site.geometry, site.time, &[(ino, Touch::Modified)])?;
    seek_at(procs, openings, place, offset + count as u64);
    Ok(Reply::Wrote(count))
}

const WRITE: Perms = Perms {
    read: false,
    write: true,
    execute: false,
};

// Refuses a size that no file on this disk has.
fn check_size(geometry: Geometry, size: u64) -> Result<(), Refusal>
    ensures { result ≡ checked (refuse EFBIG (nat_lt (max_file_size geometry.version) size)) }
{
    refuse_if(Errno::EFBIG, size > geometry.max_file_size())
}

/// Cuts inode `ino`, a file, to this size, or fills it up with zeros.
pub(crate) fn give_size<S: Sectors>(
    s: &mut S,
    geometry: Geometry,
    ino: u32,
    inode: Inode,
    size: u64,
) -> Result<(), Refusal>
    requires ready { MayAlter geometry 5 (S.state s.old) }
    requires below { ino < geometry.inodes }
    requires inode { inode ≡ inode_at geometry (S.state s.old).sectors ino }
    requires file { inode.kind ≡ Kind.File }
    requires fits { size ≤ max_file_size geometry.version }
    ensures { AltersDisk geometry 5 (λ done. ChangesBytes geometry ino (λ held. resized held size)) (S.state s.old) (S.state s.new) result }
{
    let mut inode = inode;
    match set_size(s, geometry, ino, &mut inode, size) {
        Ok(()) => Ok(()),
        Err(_) => Err(Refusal::Failed(Errno::EIO)),
    }
}

/// Cuts the file that a path leads to, or fills it up with zeros.
///
/// ENOENT: the path leads to nothing. EISDIR: it leads to a directory. EFBIG: the size is more than a file may have on this disk.
pub fn truncate<S: Sectors>(s: &mut S, caller: &Caller, path: &Path, size: u64) -> CallResult
    requires ready { IsReadyFor caller.now (S.state s.old) }
    ensures { PerformsFor caller.now (Truncate path.now size) (S.state s.old) (S.state s.new) result }
{
    let reached = reach(s, caller, Ok(()), path, false, Form::Follow)?;
    let inode = reached.inode;
    check_no_directory(inode.kind)?;
    let cred = reached.process.cred();
    let step = reached.found.step;
    permitted(s, caller, cred, &inode, WRITE, 1, step)?;
    check_size(caller.geometry, size)?;
    let ino = reached.ino;
    give_size(s, caller.geometry, ino, inode, size)?;
    touch(s, caller.geometry, caller.time, &[(ino, Touch::Modified)])?;
    Ok(Reply::Done)
}

/// Cuts the file of a descriptor or a handle, or fills it up with zeros.
///
/// EBADF: it isn't open for writing. EFBIG: the size is more than a file may have on this disk.
pub fn ftruncate<S: Sectors>(
    s: &mut S,
    site: Site,
    procs: &Procs,
    openings: &Openings,
    place: OpenAt,
    size: u64,
) -> CallResult
    requires ready { MayPerform site.geometry (S.state s.old) (both procs.now openings.now.0) }
    requires start { offset_at place ≡ 0 }
    ensures { Performs site.geometry site.time (resize_through place size) (S.state s.old) (S.state s.new)
        (both procs.now openings.now.0) (both procs.now openings.now.0) result }
{
    let geometry = site.geometry;
    let (descriptor, inode) = reach_open(s, geometry, procs, openings, place, OpenFor::Writing)?;
    check_size(geometry, size)?;
    let ino = descriptor.ino;
    give_size(s, geometry, ino, inode, size)?;
    touch(s, geometry, site.time, &[(ino, Touch::Modified)])?;
    Ok(Reply::Done)
}
