//! The calls on files, handed to their functions.

ghost use Rattle.std.specs.Prelude.{◌≡◌, ◌||◌, not, MatchOption, IsTrue};
ghost use Rattle.call_parts.specs.Performing.{MayPerform, Performs, IsReadyFor, PerformsFor, is_on_names};
ghost use Rattle.call_parts.specs.BothTables.{both};
ghost use Rattle.call_parts.specs.Callers.{ByProcess, ByCaller, ByHandle, opens};
ghost use Rattle.fs_model.specs.Actors.{is_actor_call};

use crate::attributes::{chmod, chown, get_acl, set_acl};
use crate::listing::readdir;
use crate::process::{close, umask};
use crate::rights::access;
use crate::show::{fstat, lstat, stat};
use crate::transfer::{ftruncate, lseek, read, truncate, write};
use call_parts::{CallResult, Caller, OpenAt, Site};
use fs_model::{Call, HandleCall};
use open_files::{Openings, Procs};
use sector_txn::Sectors;

/// Performs a call on a file by its path, at this time. `None`: it is a call on names, one that no actor makes, or one that opens, and
/// nothing is done.
pub fn perform<S: Sectors>(s: &mut S, caller: &Caller, call: &Call) -> Option<CallResult>
    requires ready { IsReadyFor caller.now (S.state s.old) }
    ensures { MatchOption result (IsTrue (is_on_names call.now || not (is_actor_call call.now) || opens call.now) × (s.new ≡ s.old))
        (λ r. PerformsFor caller.now call.now (S.state s.old) (S.state s.new) r) }
{
    match call {
        Call::Stat(path) => Some(stat(s, caller, path)),
        Call::Lstat(path) => Some(lstat(s, caller, path)),
        Call::Access(path, want) => Some(access(s, caller, path, *want)),
        Call::Truncate(path, size) => Some(truncate(s, caller, path, *size)),
        Call::Chmod(path, mode) => Some(chmod(s, caller, path, *mode)),
        Call::Chown { path, owner, group } => Some(chown(s, caller, path, *owner, *group)),
        Call::GetAcl(path, which) => Some(get_acl(s, caller, path, *which)),
        Call::SetAcl(path, which, acl) => Some(set_acl(s, caller, path, *which, acl.as_ref())),
        _ => None,
    }
}

/// Performs a call that processes alone make, at this time: by a descriptor, or on the process itself. `None`: it is a call on names,
/// or actors make it too, and nothing is done.
pub fn perform_for_process<S: Sectors>(
    s: &mut S,
    site: Site,
    procs: &mut Procs,
    openings: &mut Openings,
    pid: usize,
    call: &Call,
) -> Option<CallResult>
    requires ready { MayPerform site.geometry (S.state s.old) (both procs.old openings.old.0) }
    ensures { MatchOption result (IsTrue (is_on_names call.now || is_actor_call call.now)
        × (s.new ≡ s.old) × (procs.new ≡ procs.old) × (openings.new ≡ openings.old))
        (λ r. Performs site.geometry site.time (ByCaller (ByProcess pid) call.now) (S.state s.old) (S.state s.new)
        (both procs.old openings.old.0) (both procs.new openings.new.0) r) }
{
    match call {
        Call::Read { fd, len } => {
            let place = OpenAt::Descriptor { pid, fd: *fd };
            Some(read(s, site, procs, openings, place, *len))
        }
        Call::Write(fd, bytes) => {
            let place = OpenAt::Descriptor { pid, fd: *fd };
            Some(write(s, site, procs, openings, place, bytes.bytes()))
        }
        Call::Lseek(fd, whence, by) => {
            Some(lseek(s, site, procs, openings, pid, *fd, *whence, *by))
        }
        Call::Close(fd) => {
            let place = OpenAt::Descriptor { pid, fd: *fd };
            Some(close(s, site, procs, openings, place))
        }
        Call::Fstat(fd) => {
            let place = OpenAt::Descriptor { pid, fd: *fd };
            Some(fstat(s, site, procs, openings, place))
        }
        Call::Ftruncate(fd, size) => {
            let place = OpenAt::Descriptor { pid, fd: *fd };
            Some(ftruncate(s, site, procs, openings, place, *size))
        }
        Call::Readdir(fd) => {
            let place = OpenAt::Descriptor { pid, fd: *fd };
            Some(readdir(s, site, procs, openings, place))
        }
        Call::Umask(mask) => Some(umask(procs, pid, *mask)),
        _ => None,
    }
}

/// Performs what is done by a handle, at this time. EBADF: there is no such handle, or it isn't for that.
pub fn perform_by_handle<S: Sectors>(
    s: &mut S,
    site: Site,
    procs: &mut Procs,
    openings: &mut Openings,
    handle: u64,
    call: &HandleCall,
) -> CallResult
    requires ready { MayPerform site.geometry (S.state s.old) (both procs.old openings.old.0) }
    ensures { Performs site.geometry site.time (ByHandle handle call.now) (S.state s.old) (S.state s.new)
        (both procs.old openings.old.0) (both procs.new openings.new.0) result }
{
    let place = OpenAt::Handle { handle, offset: 0 };
    match call {
        HandleCall::Read { offset, len } => {
            let place = OpenAt::Handle {
                handle,
                offset: *offset,
            };
            read(s, site, procs, openings, place, *len)
        }
        HandleCall::Write { offset, bytes } => {
            let place = OpenAt::Handle {
                handle,
                offset: *offset,
            };
            write(s, site, procs, openings, place, bytes.bytes())
        }
        HandleCall::Resize(size) => ftruncate(s, site, procs, openings, place, *size),
        HandleCall::Show => fstat(s, site, procs, openings, place),
        HandleCall::List => readdir(s, site, procs, openings, place),
        HandleCall::Close => close(s, site, procs, openings, place),
    }
}
