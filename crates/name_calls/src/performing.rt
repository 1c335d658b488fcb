//! The calls on names, handed to their functions.

ghost use Rattle.call_parts.specs.BothTables.{both};
ghost use Rattle.call_parts.specs.Callers.{ByProcess, ByCaller};
ghost use Rattle.fs_model.specs.Actors.{is_actor_call};
ghost use Rattle.std.specs.Prelude.{◌≡◌, MatchOption, IsFalse, ◌&&◌, not};
ghost use Rattle.call_parts.specs.Performing.{MayPerform, Performs, IsReadyFor, PerformsFor, is_on_names};

use crate::making::{chdir, link, mkdir, readlink, symlink};
use crate::removal::{rmdir, unlink};
use crate::renaming::rename;
use call_parts::{CallResult, Caller, Site};
use fs_model::Call;
use open_files::{Openings, Procs};
use sector_txn::Sectors;

/// Performs a call on names, at this time. `None`: it is none, or one that no actor makes, and nothing is done.
pub fn perform<S: Sectors>(s: &mut S, caller: &Caller, call: &Call) -> Option<CallResult>
    requires ready { IsReadyFor caller.now (S.state s.old) }
    ensures { MatchOption result (IsFalse (is_on_names call.now && is_actor_call call.now) × (s.new ≡ s.old))
        (λ r. PerformsFor caller.now call.now (S.state s.old) (S.state s.new) r) }
{
    match call {
        Call::Mkdir(path, mode) => Some(mkdir(s, caller, path, *mode)),
        Call::Rmdir(path) => Some(rmdir(s, caller, path)),
        Call::Link { old, new } => Some(link(s, caller, old, new)),
        Call::Symlink { target, path } => Some(symlink(s, caller, target, path)),
        Call::Readlink(path) => Some(readlink(s, caller, path)),
        Call::Unlink(path) => Some(unlink(s, caller, path)),
        Call::Rename { old, new } => Some(rename(s, caller, old, new)),
        _ => None,
    }
}

/// Performs a call on names that processes alone make, at this time. `None`: it is none.
pub fn perform_for_process<S: Sectors>(
    s: &mut S,
    site: Site,
    procs: &mut Procs,
    openings: &mut Openings,
    pid: usize,
    call: &Call,
) -> Option<CallResult>
    requires ready { MayPerform site.geometry (S.state s.old) (both procs.old openings.old.0) }
    ensures { MatchOption result (IsFalse (is_on_names call.now && not (is_actor_call call.now)))
        (λ r. Performs site.geometry site.time (ByCaller (ByProcess pid) call.now) (S.state s.old) (S.state s.new)
        (both procs.old openings.old.0) (both procs.new openings.new.0) r) }
{
    match call {
        Call::Chdir(path) => Some(chdir(s, site, procs, openings, pid, path)),
        _ => None,
    }
}
