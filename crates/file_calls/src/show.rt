//! What is shown of an object: POSIX.1-2017, stat(), lstat() and fstat().

ghost use Rattle.std.specs.Prelude.{◌≡◌, ◌≢◌, Some, Ok, true, IsFalse};
ghost use Rattle.fs_model.specs.declared.call.Call.{Call};
ghost use Rattle.fs_model.specs.declared.call.Call.TheVariants.{Stat, Lstat};
ghost use Rattle.fs_model.specs.declared.reply.FileType.{FileType as ShownType};
ghost use Rattle.fs_model.specs.AttributeCalls.{stat_demands, stat_effect};
ghost use Rattle.fs_model.specs.Kinds.{type_of_kind};
ghost use Rattle.sector_txn.specs.Sectors.{IsUnchanged};
ghost use Rattle.call_parts.specs.Given.{size_shown};
ghost use Rattle.call_parts.specs.BothTables.{both};
ghost use Rattle.call_parts.specs.Performing.{MayPerform, Performs, IsReadyFor, PerformsFor};
ghost use Rattle.call_parts.specs.Callers.{who_of, is_told};
ghost use Rattle.file_calls.specs.Places.{offset_at, show_through};
ghost use Rattle.call_parts.specs.Reaching.{WalksPath};

use call_parts::{CallResult, Caller, OpenAt, OpenFor, Site, reach, reach_open};
use fs_layout::{Inode, Kind, SLOT_SIZE, Version};
use fs_model::{FileType, Form, Path, Reply, Status};
use open_files::{Openings, Procs};
use sector_txn::Sectors;

// The size that is shown: of a directory as many bytes for each slot as the smallest slot has.
fn size_of(version: Version, inode: &Inode) -> u64
    ensures { result ≡ size_shown version inode.now }
{
    if inode.kind == Kind::Directory {
        let slots = inode.size / version.slot_size() as u64;
        return SLOT_SIZE as u64 * slots;
    }
    inode.size
}

// What is shown of inode `ino`, which is used, on a disk of this version.
fn status(version: Version, ino: u32, inode: &Inode) -> Status
    requires used { inode.now.kind ≢ Kind.Free }
    ensures { (kind : ShownType) → type_of_kind inode.now.kind ≡ Some kind → result ≡ record {
      ino = ino;
      kind = kind;
      mode = inode.now.mode;
      links = inode.now.names;
      owner = inode.now.uid;
      group = inode.now.gid;
      size = size_shown version inode.now;
    } }
{
    let Some(kind) = FileType::of_kind(inode.kind) else {
        unreachable!()
    };
    Status {
        ino,
        kind,
        mode: inode.mode,
        links: inode.names,
        owner: inode.uid,
        group: inode.gid,
        size: size_of(version, inode),
    }
}

// Shows what a path leads to. ENOENT: nothing.
fn show_path<S: Sectors>(s: &mut S, caller: &Caller, path: &Path, form: Form) -> CallResult
    requires ready { IsReadyFor caller.now (S.state s.old) }
    ensures performs { (call : Call) → WalksPath (who_of caller.now.by) call (Ok tt) true form path.now stat_demands stat_effect
        → IsFalse (is_told call) → PerformsFor caller.now call (S.state s.old) (S.state s.new) result }
    ensures same { IsUnchanged (S.state s.old) (S.state s.new) }
{
    let reached = reach(s, caller, Ok(()), path, true, form)?;
    let version = caller.geometry.version;
    Ok(Reply::Shown(status(version, reached.ino, &reached.inode)))
}

/// Shows what a path leads to. ENOENT: nothing.
pub fn stat<S: Sectors>(s: &mut S, caller: &Caller, path: &Path) -> CallResult
    requires ready { IsReadyFor caller.now (S.state s.old) }
    ensures performs { PerformsFor caller.now (Stat path.now) (S.state s.old) (S.state s.new) result }
    ensures same { IsUnchanged (S.state s.old) (S.state s.new) }
{
    show_path(s, caller, path, Form::Follow)
}

/// Shows what a path leads to, and a symbolic link that is its last name itself. ENOENT: nothing.
pub fn lstat<S: Sectors>(s: &mut S, caller: &Caller, path: &Path) -> CallResult
    requires ready { IsReadyFor caller.now (S.state s.old) }
    ensures performs { PerformsFor caller.now (Lstat path.now) (S.state s.old) (S.state s.new) result }
    ensures same { IsUnchanged (S.state s.old) (S.state s.new) }
{
    show_path(s, caller, path, Form::NoFollow)
}

/// Shows what a descriptor or a handle is for. EBADF: nothing.
pub fn fstat<S: Sectors>(
    s: &mut S,
    site: Site,
    procs: &Procs,
    openings: &Openings,
    place: OpenAt,
) -> CallResult
    requires ready { MayPerform site.geometry (S.state s.old) (both procs.now openings.now.0) }
    requires start { offset_at place ≡ 0 }
    ensures performs { Performs site.geometry site.time (show_through place) (S.state s.old) (S.state s.new)
        (both procs.now openings.now.0) (both procs.now openings.now.0) result }
    ensures same { IsUnchanged (S.state s.old) (S.state s.new) }
{
    let geometry = site.geometry;
    let (descriptor, inode) = reach_open(s, geometry, procs, openings, place, OpenFor::Anything)?;
    let version = geometry.version;
    Ok(Reply::Shown(status(version, descriptor.ino, &inode)))
}
