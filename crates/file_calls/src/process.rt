//! What a process changes of itself, what is closed, and the end of a process: POSIX.1-2017, umask() and close().

ghost use Rattle.std.specs.Prelude.{ℕ, ◌≡◌, Ok, IsSome};
ghost use Rattle.fs_model.specs.declared.call.Call.TheVariants.{Umask};
ghost use Rattle.call_parts.specs.BothTables.{both, users_of};
ghost use Rattle.file_calls.specs.Places.{offset_at, close_through};
ghost use Rattle.call_parts.specs.Performing.{MayPerform, Performs};
ghost use Rattle.file_calls.specs.Settling.{Settles};
ghost use Rattle.std.specs.Ordering.{nat_cmp};
ghost use Rattle.fs_layout.specs.Maps.{get};
ghost use Rattle.fs_model.specs.Processes.{Descriptor as OpenFile, is_open};
ghost use Rattle.open_files.specs.Tables.{open_in};
ghost use Rattle.bit_alloc.specs.declared.bitmap.Bitmap.TheVariants.{Inodes};
ghost use Rattle.bit_alloc.specs.Bitmaps.{IsNumber};
ghost use Rattle.call_parts.specs.Altering.{MayAlter, AltersTransaction};
ghost use Rattle.file_calls.specs.Exiting.{ended, Exits, LeavesAt, LeavesAll};

use call_parts::{CallResult, OpenAt, OpenFor, Site, close_at, find_open, leave, stays_open};
use fs_cred::Refusal;
use fs_layout::Geometry;
use fs_model::Reply;
use open_files::{MAX_DESCRIPTORS, Openings, Procs};
use sector_txn::Sectors;

/// Sets the umask of a process to the bits 0777 of `mask`, and answers the old one.
pub fn umask(procs: &mut Procs, pid: usize, mask: u16) -> CallResult
    ensures { Settles pid (Umask mask) procs.old procs.new result }
{
    let old = procs.umask(pid, mask)?;
    Ok(Reply::Mask(old))
}

/// Closes a descriptor, or a handle. What it was for is freed, where nothing names it and nobody else has it open. It moves no time.
///
/// EBADF: it isn't open.
pub fn close<S: Sectors>(
    s: &mut S,
    site: Site,
    procs: &mut Procs,
    openings: &mut Openings,
    place: OpenAt,
) -> CallResult
    requires ready { MayPerform site.geometry (S.state s.old) (both procs.old openings.old.0) }
    requires start { offset_at place ≡ 0 }
    ensures { Performs site.geometry site.time (close_through place)
        (S.state s.old) (S.state s.new) (both procs.old openings.old.0) (both procs.new openings.new.0) result }
{
    let descriptor = find_open(procs, openings, place, OpenFor::Anything)?;
    let ino = descriptor.ino;
    let stays_open = stays_open(procs, openings, place, ino);
    leave(s, site.geometry, ino, stays_open)?;
    close_at(procs, openings, place);
    Ok(Reply::Done)
}

// Whether an inode stays open, once this process, which is there, has ended.
fn stays_open_without(procs: &Procs, openings: &Openings, pid: usize, ino: u32) -> bool
    requires found { IsSome (get nat_cmp procs.now pid) }
    ensures { result ≡ is_open (users_of (ended (both procs.now openings.now.0) pid)) ino }
{
    openings.is_open(ino) || procs.is_open_by_others(pid, ino)
}

// Frees what a process that ends has open at a descriptor, unless another process or a handle has it open, it has a name, or
// it was freed before. EIO: the disk has failed.
fn leave_descriptor<S: Sectors>(
    s: &mut S,
    geometry: Geometry,
    procs: &Procs,
    openings: &Openings,
    pid: usize,
    fd: usize,
) -> Result<(), Refusal>
    requires ready { MayAlter geometry 1 (S.state s.old) }
    requires found { IsSome (get nat_cmp procs.now pid) }
    requires number { (d : OpenFile) → open_in procs.now pid fd ≡ Ok d → IsNumber geometry Inodes d.ino }
    ensures { AltersTransaction (LeavesAt geometry (both procs.now openings.now.0) pid fd) (S.state s.old) (S.state s.new) result }
{
    let descriptor = match procs.get(pid, fd) {
        Ok(descriptor) => descriptor,
        Err(_) => return Ok(()),
    };
    let ino = descriptor.ino;
    let stays_open = stays_open_without(procs, openings, pid, ino);
    leave(s, geometry, ino, stays_open)?;
    Ok(())
}

// Frees what a process that ends has open alone, and that has no name. EIO: the disk has failed.
fn leave_all<S: Sectors>(
    s: &mut S,
    geometry: Geometry,
    procs: &Procs,
    openings: &Openings,
    pid: usize,
) -> Result<(), Refusal>
    requires ready { MayPerform geometry (S.state s.old) (both procs.now openings.now.0) }
    requires found { IsSome (get nat_cmp procs.now pid) }
    ensures { AltersTransaction (LeavesAll geometry (both procs.now openings.now.0) pid) (S.state s.old) (S.state s.new) result }
{
    for fd in 0..MAX_DESCRIPTORS {
        leave_descriptor(s, geometry, procs, openings, pid, fd)?;
    }
    Ok(())
}

/// Ends a process. What it alone has open, and nothing names, is freed.
///
/// ESRCH: there is no such process. EIO: the disk has failed.
pub fn exit<S: Sectors>(
    s: &mut S,
    geometry: Geometry,
    procs: &mut Procs,
    openings: &Openings,
    pid: usize,
) -> Result<(), Refusal>
    requires ready { MayPerform geometry (S.state s.old) (both procs.old openings.now.0) }
    ensures { Exits geometry pid (S.state s.old) (S.state s.new) (both procs.old openings.now.0) (both procs.new openings.now.0) result }
{
    procs.process(pid)?;
    leave_all(s, geometry, procs, openings, pid)?;
    procs.exit(pid)?;
    Ok(())
}
