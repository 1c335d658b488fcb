//! Times of an inode that are set as they are given.

ghost use Rattle.std.specs.Prelude.{◌≡◌, ℕ, IsTrue, MatchResult, OnOk};
ghost use Rattle.sector_txn.specs.Sectors.{SameStore};
ghost use Rattle.bit_alloc.specs.Inodes.{IsSound};
ghost use Rattle.bit_alloc.specs.Room.{HasSpare};
ghost use Rattle.fs_model.specs.Nodes.{stamped};
ghost use Rattle.call_parts.specs.BothTables.{Tables};
ghost use Rattle.fs_model.specs.Ranges.{IsSomeCount};
ghost use Rattle.fs_model.specs.States.{State};
ghost use Rattle.fs_model.specs.StoredStamps.{stamps_in};
ghost use Rattle.fs_model.specs.declared.reply.Stamps.{Stamps as Times};
ghost use Rattle.call_parts.specs.Performing.{IsStateOf};
ghost use Rattle.call_parts.specs.Times.{with_times};
ghost use Rattle.fs_system.specs.Stamping.{AreCounts, IsStamped, IsNotStamped};

use fs_cred::Errno;
use fs_layout::{Geometry, Inode, Kind};
use fs_model::Stamps;
use inode_table::{load, save};
use sector_txn::Sectors;

// What is read is in the range of its type.
fn read<T: Copy>(_value: T) {}

// A time that is given has 64 bits.
fn time_is_in_range(time: Option<u64>)
    ensures { IsSomeCount time }
{
    if let Some(time) = time {
        read(time);
    }
}

/// Times that are given are in the range of their type.
pub(crate) fn times_are_in_range(atime: Option<u64>, mtime: Option<u64>, ctime: Option<u64>)
    ensures { AreCounts atime mtime ctime }
{
    time_is_in_range(atime);
    time_is_in_range(mtime);
    time_is_in_range(ctime);
}

// The times of an inode.
fn stamps_in(inode: &Inode) -> Stamps
    ensures { result ≡ stamps_in inode.now }
{
    Stamps {
        atime: inode.atime,
        mtime: inode.mtime,
        ctime: inode.ctime,
    }
}

// Whether no time is given.
fn gives_none(atime: Option<u64>, mtime: Option<u64>, ctime: Option<u64>) -> bool
    ensures { IsTrue result → (x : Times) → stamped atime mtime ctime x ≡ x }
{
    matches!((atime, mtime, ctime), (None, None, None))
}

// The inode with the times that are given, and else its own.
fn with_given(inode: &Inode, atime: Option<u64>, mtime: Option<u64>, ctime: Option<u64>) -> Inode
    ensures { result ≡ with_times inode.now (stamped atime mtime ctime (stamps_in inode.now)) }
{
    Inode {
        atime: atime.unwrap_or(inode.atime),
        mtime: mtime.unwrap_or(inode.mtime),
        ctime: ctime.unwrap_or(inode.ctime),
        ..*inode
    }
}

/// Sets times of an inode that is used, where the disk keeps any, and answers all three. Where none is given nothing is put.
pub(crate) fn stamp<S: Sectors>(
    s: &mut S,
    geometry: Geometry,
    ino: u32,
    atime: Option<u64>,
    mtime: Option<u64>,
    ctime: Option<u64>,
) -> Result<Stamps, Errno>
    requires sound { IsSound geometry (S.state s.old) }
    requires counts { AreCounts atime mtime ctime }
    requires spare { HasSpare geometry 1 (S.state s.old) }
    ensures store { SameStore (S.state s.old) (S.state s.new) }
    ensures superblock { OnOk result ((S.state s.new).sectors 0 ≡ (S.state s.old).sectors 0) }
    ensures each { (tables : Tables) (t : State) → IsStateOf geometry (S.state s.old).sectors tables t
        → MatchResult result (λ stamps. IsStamped geometry (S.state s.new).sectors t ino atime mtime ctime stamps)
        (λ errno. IsNotStamped (S.state s.old).disk (S.state s.new).disk t ino atime mtime ctime errno) }
{
    if ino >= geometry.inodes {
        return Err(Errno::ENOENT);
    }
    let Ok(inode) = load(s, geometry, ino) else {
        return Err(Errno::EIO);
    };
    if inode.kind == Kind::Free {
        return Err(Errno::ENOENT);
    }
    if !geometry.version.keeps_times() || gives_none(atime, mtime, ctime) {
        return Ok(stamps_in(&inode));
    }
    let given = with_given(&inode, atime, mtime, ctime);
    let Ok(()) = save(s, geometry, ino, &given) else {
        return Err(Errno::EIO);
    };
    Ok(stamps_in(&given))
}
