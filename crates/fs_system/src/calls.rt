//! The calls of processes and of actors, and what is done by handles, each of them performed in a transaction.

ghost use Rattle.std.specs.Prelude.{◌≡◌, ◌||◌, not, IsFalse, IsTrue, MatchOption};
ghost use Rattle.call_parts.specs.BothTables.{both};
ghost use Rattle.call_parts.specs.Performing.{MayPerform, Performs, IsReadyFor, PerformsFor};
ghost use Rattle.call_parts.specs.Callers.{ByProcess, ByCaller, HasCredential, opens, who_of};
ghost use Rattle.call_parts.specs.Callers.{ByHandle};
ghost use Rattle.fs_model.specs.Actors.{is_actor_call};
ghost use Rattle.fs_model.specs.Ranges.{IsHandleCall};
ghost use Rattle.fs_model.specs.declared.event.HandleCall.TheVariants.{Write as WriteAt};
ghost use Rattle.fs_system.specs.Asked.{handle_call};

use call_parts::{By, Caller, OpenAt, Site};
use fs_cred::{Errno, Refusal};
use fs_model::{Call, HandleCall, Reply, handle_call_is_in_range};
use open_files::{Openings, Procs};
use sector_txn::Sectors;

/// Shows that the numbers of an actor's credential are in range.
pub(crate) fn credential_is_in_range(by: By)
    ensures { HasCredential (who_of by.entry) }
{
    if let By::Actor(actor) = by {
        let cred = &actor.cred;
        let _groups = cred.groups();
    }
}

/// What is done by a handle: a call, or a write of bytes that are lent.
#[derive(Clone, Copy)]
pub(crate) enum AskedByHandle<'a> {
    Call(&'a HandleCall),
    Write { offset: u64, bytes: &'a [u8] },
}

// What is read is in the range of its type.
fn read<T: Copy>(_value: T) {}

// The offset and the bytes of a write.
fn write_is_in_range(offset: u64, bytes: &[u8])
    ensures { IsHandleCall (WriteAt offset bytes.now) }
{
    read((offset, bytes));
}

/// Shows that the numbers of what is done by a handle are in range.
pub(crate) fn asked_is_in_range(asked: AskedByHandle<'_>)
    ensures { IsHandleCall (handle_call asked.entry) }
{
    match asked {
        AskedByHandle::Call(call) => handle_call_is_in_range(call),
        AskedByHandle::Write { offset, bytes } => write_is_in_range(offset, bytes),
    }
}

// Performs a call that processes alone make.
fn perform_for_process<S: Sectors>(
    s: &mut S,
    site: Site,
    procs: &mut Procs,
    openings: &mut Openings,
    pid: usize,
    call: &Call,
) -> Result<Reply, Refusal>
    requires ready { MayPerform site.geometry (S.state s.old) (both procs.old openings.old.0) }
    requires alone { IsFalse (is_actor_call call.now) }
    ensures { Performs site.geometry site.time (ByCaller (ByProcess pid) call.now) (S.state s.old) (S.state s.new)
        (both procs.old openings.old.0) (both procs.new openings.new.0) result }
{
    if let Some(result) = file_calls::perform_for_process(s, site, procs, openings, pid, call) {
        return result;
    }
    match name_calls::perform_for_process(s, site, procs, openings, pid, call) {
        Some(result) => result,
        None => unreachable!(),
    }
}

// Performs a call by its path, which leaves both tables as they are. `None`: it opens something, or no actor makes it.
fn perform_by_path<S: Sectors>(
    s: &mut S,
    caller: &Caller,
    call: &Call,
) -> Option<Result<Reply, Refusal>>
    requires ready { IsReadyFor caller.now (S.state s.old) }
    ensures { MatchOption result (IsTrue (not (is_actor_call call.now) || opens call.now) × (s.new ≡ s.old))
        (λ r. PerformsFor caller.now call.now (S.state s.old) (S.state s.new) r) }
{
    if let Some(result) = file_calls::perform(s, caller, call) {
        return Some(result);
    }
    name_calls::perform(s, caller, call)
}

/// Performs a call at this time. At `Err` its changes are to be dropped. ESRCH: there is no such process. EBADF: no actor makes such a
/// call.
pub(crate) fn perform<S: Sectors>(
    s: &mut S,
    site: Site,
    by: By,
    procs: &mut Procs,
    openings: &mut Openings,
    call: &Call,
) -> Result<Reply, Refusal>
    requires ready { MayPerform site.geometry (S.state s.old) (both procs.old openings.old.0) }
    ensures { Performs site.geometry site.time (ByCaller (who_of by.entry) call.now) (S.state s.old) (S.state s.new)
        (both procs.old openings.old.0) (both procs.new openings.new.0) result }
{
    if let Call::Open(path, flags, mode) = call {
        return file_calls::open(s, site, procs, openings, by, path, *flags, *mode);
    }
    let caller = site.caller(procs, openings, by);
    if let Some(result) = perform_by_path(s, &caller, call) {
        return result;
    }
    let By::Process(pid) = by else {
        return Err(Refusal::Failed(Errno::EBADF));
    };
    perform_for_process(s, site, procs, openings, pid, call)
}

/// Performs what is done by a handle, at this time. At `Err` its changes are to be dropped.
pub(crate) fn perform_by_handle<S: Sectors>(
    s: &mut S,
    site: Site,
    procs: &mut Procs,
    openings: &mut Openings,
    handle: u64,
    asked: AskedByHandle<'_>,
) -> Result<Reply, Refusal>
    requires ready { MayPerform site.geometry (S.state s.old) (both procs.old openings.old.0) }
    ensures { Performs site.geometry site.time (ByHandle handle (handle_call asked.entry)) (S.state s.old) (S.state s.new)
        (both procs.old openings.old.0) (both procs.new openings.new.0) result }
{
    match asked {
        AskedByHandle::Call(call) => {
            file_calls::perform_by_handle(s, site, procs, openings, handle, call)
        }
        AskedByHandle::Write { offset, bytes } => {
            let place = OpenAt::Handle { handle, offset };
            file_calls::write(s, site, procs, openings, place, bytes)
        }
    }
}
