//! Events with stops of the disk among them.

ghost use Rattle.std.specs.Prelude.{◌≡◌, ◌∷◌, [], Some, IfOk, IfErr, IsTrue};
ghost use Rattle.fs_model.specs.Steps.{is_of_machine};
ghost use Rattle.fs_model.specs.declared.event.Event.TheVariants.{Arm, Restart};
ghost use Rattle.fs_model.specs.declared.event.EventReply.TheVariants.{Armed};
ghost use Rattle.fs_system.specs.declared.faults.PlayFault.TheVariants.{OutOfMemory};
ghost use Rattle.fs_system.specs.Played.{Played, Unplayed};
ghost use Rattle.fs_system.specs.Playing.{IsConfig, Plays, MayMount, HasDiskOf, IsOfRestart};
ghost use Rattle.fs_system.specs.Histories.{Stopped};
ghost use Rattle.fs_system.specs.Mounts.{FailsToMount, IsNotMounted};
ghost use Rattle.fs_system.specs.Mounting.{fault_of};
ghost use Rattle.fs_images.specs.Standing.{StandsForSome, EachStandsForSome};

use crate::faults::{MountFault, PlayFault};
use crate::fs::Fs;
use fs_model::{Event, EventReply, RestartFault};
use sector_disk::CrashDisk;
use std::alloc::Global;

// A file system, or a disk on which none is mounted.
type Served<D> = Result<Fs<D>, D>;

// The disk as it is.
fn into_disk<D: CrashDisk + Drop>(served: Served<D>) -> D
    requires { MayMount D.state served }
    ensures disk { HasDiskOf served result }
    ensures again { EachStandsForSome (D.state result) }
{
    match served {
        Ok(fs) => fs.into_disk(),
        Err(disk) => disk,
    }
}

// Lets this many writes and syncs of the disk pass, and fails all later ones.
fn arm<D: CrashDisk + Drop>(served: Served<D>, passes: u64) -> Served<D>
    requires { MayMount D.state served }
    ensures answers { Plays D.state served (Arm passes ∷ []) (Armed ∷ []) result }
    ensures armed { (disk : D) → HasDiskOf result disk → D.armed disk ≡ Some passes }
    ensures again { MayMount D.state result }
{
    match served {
        Ok(fs) => {
            let mut fs = fs;
            fs.arm(passes);
            Ok(fs)
        }
        Err(disk) => {
            let mut disk = disk;
            disk.arm(passes);
            Err(disk)
        }
    }
}

// Stops the disk, and may tell it to fail again after so many writes and syncs.
fn stop<D: CrashDisk + Drop>(disk: D, choice: &[u8], passes: Option<u64>) -> D
    requires { EachStandsForSome (D.state disk) }
    ensures stopped { Stopped (D.state disk) (D.state result) }
    ensures armed { D.armed result ≡ passes }
    ensures stands { StandsForSome (D.state result).seen }
{
    let mut disk = disk;
    disk.crash(choice);
    if let Some(passes) = passes {
        disk.arm(passes);
    }
    disk
}

// Why a disk that stands for a tree isn't mounted.
fn restart_fault(fault: MountFault) -> RestartFault
    requires { IsOfRestart fault }
    ensures { fault ≡ fault_of result }
{
    match fault {
        MountFault::DiskFault => RestartFault::DiskFault,
        MountFault::OutOfMemory => RestartFault::OutOfMemory,
        MountFault::NotAFileSystem | MountFault::Damaged(_) => unreachable!(),
    }
}

// Stops the disk, may tell it to fail again after so many writes and syncs, and mounts it.
fn restart<D: CrashDisk + Drop>(
    alloc: Global,
    served: Served<D>,
    choice: &[u8],
    passes: Option<u64>,
) -> (Served<D>, EventReply)
    requires { MayMount D.state served }
    ensures answers { Plays D.state served (Restart choice.now passes ∷ []) (result.1 ∷ []) result.0 }
    ensures again { MayMount D.state result.0 }
{
    let disk = stop(into_disk(served), choice, passes);
    match Fs::mount(alloc, disk) {
        Ok(fs) => (Ok(fs), EventReply::Mounted),
        Err((fault, disk)) => (Err(disk), EventReply::MountFailed(restart_fault(fault))),
    }
}

// The reply to an event that is not the disk's.
fn serve<D: CrashDisk + Drop>(served: Served<D>, event: &Event) -> (Served<D>, EventReply)
    requires machine { IsTrue (is_of_machine event.now) }
    requires may { MayMount D.state served }
    ensures answers { Plays D.state served (event.now ∷ []) (result.1 ∷ []) result.0 }
    ensures again { MayMount D.state result.0 }
{
    match served {
        Ok(fs) => {
            let mut fs = fs;
            let reply = fs.serve(event);
            (Ok(fs), EventReply::Reply(reply))
        }
        Err(disk) => (Err(disk), EventReply::Down),
    }
}

// The reply to an event.
fn answer<D: CrashDisk + Drop>(
    alloc: Global,
    served: Served<D>,
    event: &Event,
) -> (Served<D>, EventReply)
    requires { MayMount D.state served }
    ensures answers { Plays D.state served (event.now ∷ []) (result.1 ∷ []) result.0 }
    ensures again { MayMount D.state result.0 }
{
    match event {
        Event::Arm(passes) => (arm(served, *passes), EventReply::Armed),
        Event::Restart { choice, arm } => restart(alloc, served, choice.bytes(), *arm),
        _ => serve(served, event),
    }
}

// The replies to events, one after another. Room for all of them is taken first.
fn answer_all<D: CrashDisk + Drop>(
    alloc: Global,
    served: Served<D>,
    events: &[Event],
) -> (Served<D>, Result<Vec<EventReply>, PlayFault>)
    requires { MayMount D.state served }
    ensures answers { IfOk result.1 (λ replies. Plays D.state served events.now replies.items result.0) }
    ensures lacks { IfErr result.1 (λ fault. (fault ≡ OutOfMemory) × (result.0 ≡ served)) }
    ensures again { MayMount D.state result.0 }
{
    let mut served = served;
    let Ok(mut replies) = Vec::with_capacity(alloc, events.len()) else {
        return (served, Err(PlayFault::OutOfMemory));
    };
    for event in events {
        let (now, reply) = answer(alloc, served, event);
        served = now;
        replies.push_reserved(reply);
    }
    (served, Ok(replies))
}

/// Mounts a disk, lets events happen one after another, stops of the disk among them, and answers a reply to each.
///
/// The mount gives no reply. While nothing is mounted, because a restart found no memory or the device failed, each event but
/// arm and restart is answered [`EventReply::Down`]. The disk lets go of its past before each event that a file system answers.
/// It comes back as the last event, or the mount that was refused, left it: it isn't synced.
///
/// # Errors
///
/// [`PlayFault::Mount`] where the disk can't be mounted, and [`PlayFault::OutOfMemory`] where there is no room for the
/// replies. No event has happened then.
pub fn play<D: CrashDisk + Drop>(
    alloc: Global,
    disk: D,
    events: &[Event],
) -> (D, Result<Vec<EventReply>, PlayFault>)
    ensures played { IfOk result.1 (λ replies. Played (D.state disk) (D.state result.0) events.now replies.items) }
    ensures unplayed { IfErr result.1 (Unplayed (D.state disk) (D.state result.0)) }
{
    match Fs::mount(alloc, disk) {
        Ok(fs) => {
            let (served, replies) = answer_all(alloc, Ok(fs), events);
            (into_disk(served), replies)
        }
        Err((fault, disk)) => (disk, Err(PlayFault::Mount(fault))),
    }
}
