//! What events do to a store.

ghost use Rattle.std.specs.Prelude.{◌≡◌};
ghost use Rattle.call_parts.specs.BothTables.{both};
ghost use Rattle.call_parts.specs.Callers.{event, who_of};
ghost use Rattle.sector_txn.specs.Stores.{present, disk_after};
ghost use Rattle.fs_model.specs.States.{State};
ghost use Rattle.fs_model.specs.declared.event.Event.TheVariants.{CallBy, Exit, Stamp, Statfs};
ghost use Rattle.fs_system.specs.Asked.{handle_call};
ghost use Rattle.fs_system.specs.Running.{IsRunning};
ghost use Rattle.fs_system.specs.Seen.{IsOn, base_left};
ghost use Rattle.fs_system.specs.Doing.{Does};
ghost use Rattle.fs_system.specs.Replies.{finished, counted, stamped_reply};
ghost use Rattle.fs_model.specs.declared.reply.Reply.TheVariants.{Refused};
ghost use Rattle.fs_cred.specs.declared.refusal.Refusal.TheVariants.{Failed};

use crate::calls::{
    AskedByHandle, asked_is_in_range, credential_is_in_range, perform, perform_by_handle,
};
use crate::counted::{CountedStore, count_both, drop_delta, keep};
use crate::stamping::{stamp, times_are_in_range};
use call_parts::{By, Site};
use file_calls::exit;
use fs_cred::{Errno, Refusal};
use fs_layout::Geometry;
use fs_model::{Call, Reply, Stamps, call_is_in_range};
use open_files::{Openings, Procs};
use redo_journal::Broken;
use sector_disk::{Disk, DiskFault};

/// The reply to a call that fails.
pub(crate) fn failed(errno: Errno) -> Reply
    ensures { result ≡ Refused (Failed errno) }
{
    Reply::Refused(Refusal::Failed(errno))
}

/// Performs a call at this time. Its changes are kept whole, or where it is refused, not at all. At `Err` a commit has failed.
pub(crate) fn perform_kept<D: Disk>(
    store: CountedStore<D>,
    site: Site,
    procs: &mut Procs,
    openings: &mut Openings,
    by: By,
    call: &Call,
) -> (Reply, Result<CountedStore<D>, Broken<D>>)
    requires running { (s : State)
        × IsRunning (D.state store.disk).size site.geometry (present D.state store) (both procs.old openings.old.0) s }
    ensures does { (s : State) → IsRunning (D.state store.disk).size site.geometry (present D.state store) (both procs.old openings.old.0) s
        → s.now ≡ site.time
        → (t : State) × IsOn D.state site.geometry s.now (both procs.new openings.new.0) (base_left result.1) t
        × Does (D.state store.disk) (D.state (disk_after result.1)) s (event (who_of by.entry) call.now) result.0 t }
{
    call_is_in_range(call);
    credential_is_in_range(by);
    let (mut txn, known) = store.begin();
    match perform(&mut txn, site, by, procs, openings, call) {
        Ok(reply) => match keep(txn, known) {
            Ok(store) => (reply, Ok(store)),
            Err(broken) => (failed(Errno::EIO), Err(broken)),
        },
        Err(refusal) => (Reply::Refused(refusal), Ok(drop_delta(txn, known))),
    }
}

/// Performs what is done by a handle, at this time, as [`perform_kept`] does a call.
pub(crate) fn perform_by_handle_kept<D: Disk>(
    store: CountedStore<D>,
    site: Site,
    procs: &mut Procs,
    openings: &mut Openings,
    handle: u64,
    asked: AskedByHandle<'_>,
) -> (Reply, Result<CountedStore<D>, Broken<D>>)
    requires running { (s : State)
        × IsRunning (D.state store.disk).size site.geometry (present D.state store) (both procs.old openings.old.0) s }
    ensures does { (s : State) → IsRunning (D.state store.disk).size site.geometry (present D.state store) (both procs.old openings.old.0) s
        → s.now ≡ site.time
        → (t : State) × IsOn D.state site.geometry s.now (both procs.new openings.new.0) (base_left result.1) t
        × Does (D.state store.disk) (D.state (disk_after result.1)) s (CallBy handle (handle_call asked.entry)) result.0 t }
{
    asked_is_in_range(asked);
    let (mut txn, known) = store.begin();
    match perform_by_handle(&mut txn, site, procs, openings, handle, asked) {
        Ok(reply) => match keep(txn, known) {
            Ok(store) => (reply, Ok(store)),
            Err(broken) => (failed(Errno::EIO), Err(broken)),
        },
        Err(refusal) => (Reply::Refused(refusal), Ok(drop_delta(txn, known))),
    }
}

/// Ends a process. What it alone had open, and nothing names, is freed with it, or where that is refused, nothing. At `Err` a
/// commit has failed.
pub(crate) fn exit_kept<D: Disk>(
    store: CountedStore<D>,
    geometry: Geometry,
    procs: &mut Procs,
    openings: &Openings,
    pid: usize,
) -> (Result<(), Errno>, Result<CountedStore<D>, Broken<D>>)
    requires running { (s : State)
        × IsRunning (D.state store.disk).size geometry (present D.state store) (both procs.old openings.now.0) s }
    ensures does { (s : State) → IsRunning (D.state store.disk).size geometry (present D.state store) (both procs.old openings.now.0) s
        → (t : State) × IsOn D.state geometry s.now (both procs.new openings.now.0) (base_left result.1) t
        × Does (D.state store.disk) (D.state (disk_after result.1)) s (Exit pid) (finished result.0) t }
{
    let (mut txn, known) = store.begin();
    match exit(&mut txn, geometry, procs, openings, pid) {
        Ok(()) => match keep(txn, known) {
            Ok(store) => (Ok(()), Ok(store)),
            Err(broken) => (Err(Errno::EIO), Err(broken)),
        },
        Err(Refusal::Failed(errno)) => (Err(errno), Ok(drop_delta(txn, known))),
        Err(Refusal::Denied(_)) => unreachable!(),
    }
}

/// Sets the times of an inode that are given, and answers all three. At `Err` a commit has failed.
pub(crate) fn stamp_kept<D: Disk>(
    store: CountedStore<D>,
    geometry: Geometry,
    procs: &Procs,
    openings: &Openings,
    ino: u32,
    atime: Option<u64>,
    mtime: Option<u64>,
    ctime: Option<u64>,
) -> (Result<Stamps, Errno>, Result<CountedStore<D>, Broken<D>>)
    requires running { (s : State)
        × IsRunning (D.state store.disk).size geometry (present D.state store) (both procs.now openings.now.0) s }
    ensures does { (s : State) → IsRunning (D.state store.disk).size geometry (present D.state store) (both procs.now openings.now.0) s
        → (t : State) × IsOn D.state geometry s.now (both procs.now openings.now.0) (base_left result.1) t
        × Does (D.state store.disk) (D.state (disk_after result.1)) s (Stamp ino atime mtime ctime) (stamped_reply result.0) t }
{
    let _processes = procs;
    let _openings = openings;
    times_are_in_range(atime, mtime, ctime);
    let (mut txn, known) = store.begin();
    match stamp(&mut txn, geometry, ino, atime, mtime, ctime) {
        Ok(stamps) => match keep(txn, known) {
            Ok(store) => (Ok(stamps), Ok(store)),
            Err(broken) => (Err(Errno::EIO), Err(broken)),
        },
        Err(errno) => (Err(errno), Ok(drop_delta(txn, known))),
    }
}

/// How many data sectors and inodes are free: as the store remembers it, or counted anew where that isn't known of a sector, which the
/// store remembers then.
pub(crate) fn count_space<D: Disk>(
    store: CountedStore<D>,
    geometry: Geometry,
    procs: &Procs,
    openings: &Openings,
) -> (Result<(u32, u32), Errno>, CountedStore<D>)
    requires running { (s : State)
        × IsRunning (D.state store.disk).size geometry (present D.state store) (both procs.now openings.now.0) s }
    ensures does { (s : State) → IsRunning (D.state store.disk).size geometry (present D.state store) (both procs.now openings.now.0) s
        → IsRunning (D.state result.1.disk).size geometry (present D.state result.1) (both procs.now openings.now.0) s
        × Does (D.state store.disk) (D.state result.1.disk) s Statfs (counted result.0) s }
{
    if let Some(free) = store.free() {
        return (Ok((free.sectors, free.inodes)), store);
    }
    let _processes = procs;
    let _openings = openings;
    let (mut txn, mut known) = store.begin();
    match count_both(&mut known.counts, &mut txn, geometry) {
        Ok(free) => {
            known.free = Some(free);
            (Ok((free.sectors, free.inodes)), drop_delta(txn, known))
        }
        Err(DiskFault) => (Err(Errno::EIO), drop_delta(txn, known)),
    }
}
