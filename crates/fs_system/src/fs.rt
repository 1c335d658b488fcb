//! A file system on a disk.

ghost use Rattle.std.specs.Prelude.{◌≡◌, ◌≤◌, None, Some, IfOk, IfErr};
ghost use Rattle.sector_disk.specs.Disk.{IsSame, ForgetsPast, Elapses, HasCause, HasFailed, LeavesOnly};
ghost use Rattle.redo_journal.specs.Meaning.{SameMap, EachReadsAs, MeansAsBefore, data_of};
ghost use Rattle.redo_journal.specs.States.{IsIdle};
ghost use Rattle.sector_txn.specs.Stores.{present};
ghost use Rattle.fs_model.specs.States.{State};
ghost use Rattle.fs_model.specs.declared.event.Event.{Event};
ghost use Rattle.fs_model.specs.declared.event.Event.TheVariants.{Spawn, Exit, Call as Calls, CallAt, CallBy, Stamp, Clock, Fsync, Sync, Statfs};
ghost use Rattle.fs_model.specs.declared.event.HandleCall.TheVariants.{Write as WriteAt};
ghost use Rattle.fs_system.specs.Asked.{handle_call};
ghost use Rattle.fs_system.specs.Playing.{HasDisk};
ghost use Rattle.fs_system.specs.Mounts.{Mounts, FailsToMount, IsNotMounted};
ghost use Rattle.fs_system.specs.Mounting.{StandsAsBefore, disk_mounted, disk_of_store, is_halted, LeavesHalted};
ghost use Rattle.fs_system.specs.declared.base.Base.TheVariants.{Halted};
ghost use Rattle.fs_system.specs.Seen.{disk_in, IsIn, IsInSomeState};
ghost use Rattle.fs_images.specs.Standing.{StandsForSome, EachStandsForSome, HasPartsAt};
ghost use Rattle.fs_system.specs.Doing.{Happens, HappensLast, FlushesFor};
ghost use Rattle.fs_system.specs.Replies.{spawned, finished, unmounted, counted, stamped_reply};
ghost use Rattle.fs_model.specs.declared.event.RestartFault.TheVariants.{DiskFault as Device};

use crate::base::Base;
use crate::calls::AskedByHandle;
use crate::counted::CountedStore;
use crate::faults::MountFault;
use crate::stored::{
    count_space, exit_kept, failed, perform_by_handle_kept, perform_kept, stamp_kept,
};
use crate::sweeping::sweep;
use call_parts::{By, Site};
use free_counts::FreeCounts;
use fs_check::check;
use fs_cred::{Cred, Errno};
use fs_layout::{Geometry, Super};
use fs_model::{Actor, Call, HandleCall, Reply, RestartFault, Stamps};
use open_files::{Openings, Procs};
use redo_journal::{Journal, OpenFault};
use sector_disk::{CrashDisk, Disk, DiskFault};
use sector_txn::Store;
use std::alloc::Global;
use std::marker::Model;

/// A file system on a disk, with its processes and what actors have open.
///
/// A contract sees its disk, where the parts of that lie, the processes, the handles, and the time as it was told last, which is 0 at
/// first. After a commit that fails it is halted: each call answers EIO, and the disk isn't called any more.
#[derive(Drop)]
pub struct Fs<D: Disk> {
    // It is taken only while an event happens to the store.
    base: Base<D>,
    geometry: Geometry,
    procs: Procs,
    // What actors have open.
    openings: Openings,
    // In nanoseconds since 1970; 0 until it is told.
    time: u64,
    alloc: Global,
}

impl<D: Disk> Model for Fs<D> {
    ghost use Rattle.fs_system.specs.Mounting.{IsSystem};
    ghost use Rattle.fs_system.specs.Seen.{System};

    ghost Value = { System D };

    ghost view = { λ fs. record { base = fs.base; geometry = fs.geometry; processes = fs.procs; openings = fs.openings.0; time = fs.time } };

    // A file system is in some state, and a stop leaves what may be mounted.
    ghost invariant = { λ fs. IsSystem D.state (record { base = fs.base; geometry = fs.geometry; processes = fs.procs; openings = fs.openings.0; time = fs.time }) };
}

// Reads where the parts of the disk lie.
pub(crate) fn read_geometry<D: Disk>(disk: &mut D) -> Result<Geometry, DiskFault>
    requires { StandsForSome (D.state disk.old).seen }
    ensures found { IfOk result (HasPartsAt (D.state disk.old).seen) }
    ensures same { IsSame (D.state disk.old) (D.state disk.new) }
    ensures time { Elapses (D.state disk.old) (D.state disk.new) }
    ensures cause { HasCause (D.state disk.old) (D.state disk.new) result }
    ensures quiet { (D.state disk.new).failed_writes ≡ (D.state disk.old).failed_writes }
{
    let mut sector = [0; 512];
    disk.read(0, &mut sector)?;
    let Ok(superblock) = Super::read_from(&sector, 0) else {
        unreachable!()
    };
    let Some(geometry) = superblock.geometry() else {
        unreachable!()
    };
    Ok(geometry)
}

// Settles what a stop has left, and reserves the memory of all transactions.
fn open_store<D: Disk + Drop>(
    alloc: Global,
    disk: D,
    salt: u64,
) -> Result<Store<D>, (RestartFault, D)>
    requires { StandsForSome (D.state disk).seen }
    ensures map { IfOk result (λ store. SameMap (present D.state store) (data_of (D.state disk))) }
    ensures lasting { IfOk result (λ store. EachReadsAs (present D.state store) (D.state store.disk)) }
    ensures any_moment { LeavesOnly (D.state disk) (D.state (disk_of_store result)) (MeansAsBefore (D.state disk)) }
    ensures size { (D.state (disk_of_store result)).size ≡ (D.state disk).size }
    ensures later { (D.state disk).failures ≤ (D.state (disk_of_store result)).failures }
    ensures cause { IfErr result (λ fault. fault.0 ≡ Device → HasFailed (D.state disk) (D.state fault.1)) }
    ensures quiet { IfOk result (λ store. (D.state store.disk).failed_writes ≡ (D.state disk).failed_writes) }
{
    match Journal::open(disk) {
        Ok(journal) => match Store::new(alloc, journal, salt) {
            Ok(store) => Ok(store),
            Err((_, journal)) => Err((RestartFault::OutOfMemory, journal.into_disk())),
        },
        Err((OpenFault::DiskFault, disk)) => Err((RestartFault::DiskFault, disk)),
        Err((OpenFault::BadCommitSector, _)) => unreachable!(),
    }
}

impl<D: Disk + Drop> Fs<D> {
    // Mounts a disk that stands for a tree.
    fn mount_checked(alloc: Global, disk: D, salt: u64) -> Result<Fs<D>, (RestartFault, D)>
        requires { StandsForSome (D.state disk).seen }
        ensures mounted { IfOk result (λ fs. (s : State) × IsIn D.state fs s × Mounts (D.state disk) (disk_mounted D.state result) s) }
        ensures failed { IfErr result (λ fault. FailsToMount (D.state disk) (D.state fault.1) fault.0) }
        ensures any_moment { LeavesOnly (D.state disk) (disk_mounted D.state result) (StandsAsBefore (D.state disk)) }
    {
        let mut disk = disk;
        let Ok(geometry) = read_geometry(&mut disk) else {
            return Err((RestartFault::DiskFault, disk));
        };
        let Ok(counts) = FreeCounts::new(alloc, geometry) else {
            return Err((RestartFault::OutOfMemory, disk));
        };
        match open_store(alloc, disk, salt) {
            Ok(store) => match sweep(store, geometry) {
                Ok(store) => Ok(Fs {
                    base: Base::Running(CountedStore::uncounted(store, counts)),
                    geometry,
                    procs: Procs::new(alloc),
                    openings: Openings::new(alloc),
                    time: 0,
                    alloc,
                }),
                Err(disk) => Err((RestartFault::DiskFault, disk)),
            },
            Err(fault) => Err(fault),
        }
    }

    /// The file system that the disk stands for, without processes or handles. Files without names, which a stop may have left, are
    /// freed. An error gives the disk back; where it is that of the device or of memory, the disk may be mounted again.
    ///
    /// The disk is checked first, and a disk that stands for no tree is only read.
    pub fn mount(alloc: Global, disk: D) -> Result<Fs<D>, (MountFault, D)>
        ensures mounted { IfOk result (λ fs. (s : State) × IsIn D.state fs s × Mounts (D.state disk) (disk_mounted D.state result) s) }
        ensures failed { IfErr result (λ fault. IsNotMounted (D.state disk) (D.state fault.1) fault.0) }

        // A stop at any moment of the call leaves what stands for what it did before, but for files without names.
        ensures any_moment { LeavesOnly (D.state disk) (disk_mounted D.state result) (StandsAsBefore (D.state disk)) }
    {
        Fs::mount_salted(alloc, disk, 0)
    }

    /// As [`mount`](Fs::mount), with a salt for the hints about where names stand: who doesn't know it can't make another's calls slow. No
    /// reply depends on it.
    pub fn mount_salted(alloc: Global, disk: D, salt: u64) -> Result<Fs<D>, (MountFault, D)>
        ensures mounted { IfOk result (λ fs. (s : State) × IsIn D.state fs s × Mounts (D.state disk) (disk_mounted D.state result) s) }
        ensures failed { IfErr result (λ fault. IsNotMounted (D.state disk) (D.state fault.1) fault.0) }
        ensures any_moment { LeavesOnly (D.state disk) (disk_mounted D.state result) (StandsAsBefore (D.state disk)) }
    {
        let mut disk = disk;
        if let Err(fault) = check(alloc, &mut disk) {
            return Err((MountFault::from(fault), disk));
        }
        match Fs::mount_checked(alloc, disk, salt) {
            Ok(fs) => Ok(fs),
            Err((fault, disk)) => Err((MountFault::from(fault), disk)),
        }
    }

    /// Does nothing: its clauses tell a caller's proof what is true of each file system.
    pub fn tell_state(&self)
        ensures state { IsInSomeState D.state self.now }
    {
        let _base = &self.base;
    }

    /// Where the parts of its disk lie.
    pub fn geometry(&self) -> Geometry
        ensures { result ≡ self.now.geometry }
    {
        self.geometry
    }

    // Whether a commit has failed.
    fn is_halted(&self) -> bool
        ensures { result ≡ is_halted self.now.base }
    {
        self.base.is_halted()
    }

    /// A new process. Its number is not that of another one, and is from 1 to 64.
    ///
    /// # Errors
    ///
    /// EIO where the file system is halted, EAGAIN where there are 64 processes, and ENOMEM.
    pub fn spawn(&mut self, cred: Cred) -> Result<usize, Errno>
        ensures does { Happens D.state self.old self.new (Spawn cred) (spawned result) }
        ensures halted { LeavesHalted self.old self.new }
    {
        if self.is_halted() {
            return Err(Errno::EIO);
        }
        self.procs.spawn(cred)
    }

    /// A new process with a copy of this credential, its capabilities among it.
    ///
    /// # Errors
    ///
    /// EIO where the file system is halted, EAGAIN where there are 64 processes, and ENOMEM.
    pub fn spawn_copy(&mut self, cred: &Cred) -> Result<usize, Errno>
        ensures does { Happens D.state self.old self.new (Spawn cred.now) (spawned result) }
        ensures halted { LeavesHalted self.old self.new }
    {
        if self.is_halted() {
            return Err(Errno::EIO);
        }
        if self.procs.is_full() {
            return Err(Errno::EAGAIN);
        }
        let Ok(copy) = cred.try_clone(self.alloc) else {
            return Err(Errno::ENOMEM);
        };
        self.spawn(copy)
    }

    /// A process ends, and what it has open is closed. A file that it alone had open, and that has no name, is freed.
    ///
    /// # Errors
    ///
    /// EIO where the device failed or the file system is halted, and ESRCH where there is no such process.
    pub fn exit(&mut self, pid: usize) -> Result<(), Errno>
        ensures does { Happens D.state self.old self.new (Exit pid) (finished result) }
        ensures halted { LeavesHalted self.old self.new }
    {
        if self.is_halted() {
            return Err(Errno::EIO);
        }
        let store = self.base.take();
        let (done, base) = exit_kept(store, self.geometry, &mut self.procs, &self.openings, pid);
        self.base.put(base);
        done
    }

    /// Tells the time, in nanoseconds since 1970. What calls change from then on gets this time, until another is told.
    ///
    /// Who calls this is trusted: it may be earlier than the one before.
    ///
    /// # Errors
    ///
    /// EIO where the file system is halted.
    pub fn tell_time(&mut self, now: u64) -> Result<(), Errno>
        ensures does { Happens D.state self.old self.new (Clock now) (finished result) }
        ensures halted { LeavesHalted self.old self.new }
    {
        if self.is_halted() {
            return Err(Errno::EIO);
        }
        self.time = now;
        Ok(())
    }

    /// Sets the times of an inode, by its number, to those that are given, and answers all three as they are then. A disk of
    /// a version that keeps no times leaves them 0.
    ///
    /// Who calls this is trusted, as with `spawn`: no permission is asked. Where no time is given nothing is written.
    ///
    /// # Errors
    ///
    /// EIO where the device failed or the file system is halted, and ENOENT where the inode isn't there.
    pub fn stamp(
        &mut self,
        ino: u32,
        atime: Option<u64>,
        mtime: Option<u64>,
        ctime: Option<u64>,
    ) -> Result<Stamps, Errno>
        ensures does { Happens D.state self.old self.new (Stamp ino atime mtime ctime) (stamped_reply result) }
        ensures halted { LeavesHalted self.old self.new }
    {
        if self.is_halted() {
            return Err(Errno::EIO);
        }
        let store = self.base.take();
        let (stamps, base) = stamp_kept(
            store,
            self.geometry,
            &self.procs,
            &self.openings,
            ino,
            atime,
            mtime,
            ctime,
        );
        self.base.put(base);
        stamps
    }

    /// What a process asks for.
    ///
    /// After a read that fails nothing has changed, and the call may be made again.
    pub fn call(&mut self, pid: usize, call: &Call) -> Reply
        ensures does { Happens D.state self.old self.new (Calls pid call.now) result }
        ensures halted { LeavesHalted self.old self.new }
    {
        if self.is_halted() {
            return failed(Errno::EIO);
        }
        let store = self.base.take();
        let site = Site {
            alloc: self.alloc,
            geometry: self.geometry,
            time: self.time,
        };
        let (reply, base) = perform_kept(
            store,
            site,
            &mut self.procs,
            &mut self.openings,
            By::Process(pid),
            call,
        );
        self.base.put(base);
        reply
    }

    /// What an actor asks for: someone who is no process, from the objects at which its paths start. EBADF: processes alone make such a
    /// call.
    ///
    /// After a read that fails nothing has changed, and the call may be made again.
    pub fn call_at(&mut self, actor: &Actor, call: &Call) -> Reply
        ensures does { Happens D.state self.old self.new (CallAt actor.now call.now) result }
        ensures halted { LeavesHalted self.old self.new }
    {
        if self.is_halted() {
            return failed(Errno::EIO);
        }
        let store = self.base.take();
        let site = Site {
            alloc: self.alloc,
            geometry: self.geometry,
            time: self.time,
        };
        let (reply, base) = perform_kept(
            store,
            site,
            &mut self.procs,
            &mut self.openings,
            By::Actor(actor),
            call,
        );
        self.base.put(base);
        reply
    }

    // What is done by a handle.
    fn perform_by(&mut self, handle: u64, asked: AskedByHandle<'_>) -> Reply
        ensures does { Happens D.state self.old self.new (CallBy handle (handle_call asked.entry)) result }
        ensures halted { LeavesHalted self.old self.new }
    {
        if self.is_halted() {
            return failed(Errno::EIO);
        }
        let store = self.base.take();
        let site = Site {
            alloc: self.alloc,
            geometry: self.geometry,
            time: self.time,
        };
        let (reply, base) = perform_by_handle_kept(
            store,
            site,
            &mut self.procs,
            &mut self.openings,
            handle,
            asked,
        );
        self.base.put(base);
        reply
    }

    /// What is done by a handle, whoever has got it. EBADF: there is no such handle, or it isn't for that.
    ///
    /// A handle is a secret of who opens: no permission is asked again. After a read that fails nothing has changed, and the call may be
    /// made again.
    pub fn call_by(&mut self, handle: u64, call: &HandleCall) -> Reply
        ensures does { Happens D.state self.old self.new (CallBy handle call.now) result }
        ensures halted { LeavesHalted self.old self.new }
    {
        self.perform_by(handle, AskedByHandle::Call(call))
    }

    /// The same of a write whose bytes are lent, and needn't be copied.
    pub fn write_by(&mut self, handle: u64, offset: u64, bytes: &[u8]) -> Reply
        ensures does { Happens D.state self.old self.new (CallBy handle (WriteAt offset bytes.now)) result }
        ensures halted { LeavesHalted self.old self.new }
    {
        self.perform_by(handle, AskedByHandle::Write { offset, bytes })
    }

    // Makes all stable that was done before. EIO where that fails, or the file system is halted.
    fn flush(&mut self) -> Result<(), Errno>
        ensures flushes { (e : Event) → FlushesFor D.state self.old self.new e (finished result) }
        ensures halted { LeavesHalted self.old self.new }
    {
        if self.is_halted() {
            return Err(Errno::EIO);
        }
        match self.base.take().flush() {
            Ok(store) => {
                self.base.put(Ok(store));
                Ok(())
            }
            Err(broken) => {
                self.base.put(Err(broken));
                Err(Errno::EIO)
            }
        }
    }

    /// Makes stable what was done before, for a process that has something open at a descriptor.
    ///
    /// # Errors
    ///
    /// EIO where the device failed or the file system is halted, ESRCH where there is no such process, and EBADF where it
    /// has nothing open there.
    pub fn fsync(&mut self, pid: usize, fd: usize) -> Result<(), Errno>
        ensures does { Happens D.state self.old self.new (Fsync pid fd) (finished result) }
        ensures halted { LeavesHalted self.old self.new }
    {
        if self.is_halted() {
            return Err(Errno::EIO);
        }
        match self.procs.get(pid, fd) {
            Ok(_) => self.flush(),
            Err(errno) => Err(errno),
        }
    }

    /// Makes stable what was done before.
    ///
    /// # Errors
    ///
    /// EIO where the device failed or the file system is halted.
    pub fn sync(&mut self) -> Result<(), Errno>
        ensures does { Happens D.state self.old self.new Sync (finished result) }
        ensures halted { LeavesHalted self.old self.new }
    {
        self.flush()
    }

    /// How many data sectors and inodes are free.
    ///
    /// # Errors
    ///
    /// EIO where a read failed or the file system is halted.
    pub fn statfs(&mut self) -> Result<(u32, u32), Errno>
        ensures does { Happens D.state self.old self.new Statfs (counted result) }
        ensures halted { LeavesHalted self.old self.new }
    {
        if self.is_halted() {
            return Err(Errno::EIO);
        }
        let store = self.base.take();
        let (free, store) = count_space(store, self.geometry, &self.procs, &self.openings);
        self.base.put(Ok(store));
        free
    }

    /// Lets go of what the disk keeps of its past: nothing is said any more of the moments before this one.
    ///
    /// The disk of a halted file system is let go of its past too: it is told so, and nothing it holds or counts changes.
    pub fn forget(&mut self)
        ensures state { (s : State) → IsIn D.state self.old s → IsIn D.state self.new s }
        ensures geometry { self.new.geometry ≡ self.old.geometry }
        ensures time { self.new.time ≡ self.old.time }
        ensures processes { self.new.processes ≡ self.old.processes }
        ensures openings { self.new.openings ≡ self.old.openings }
        ensures past { ForgetsPast (disk_in D.state self.old.base) (disk_in D.state self.new.base) }
    {
        self.base.forget_past();
    }

    /// Makes stable what was done before, and gives the disk back clean, without a commit; with an error as it is: EIO, where the
    /// device failed or the file system is halted. The disk may be mounted again.
    pub fn unmount(self) -> (D, Option<Errno>)
        ensures does { HappensLast D.state self result.0 Sync (unmounted result.1) }
        ensures clean { result.1 ≡ None → IsIdle (D.state result.0) }
        ensures halted { (disk : D) → self.base ≡ Halted disk → result.0 ≡ disk }
        ensures again { EachStandsForSome (D.state result.0) }
    {
        let Fs { base, .. } = self;
        match base {
            Base::Running(store) => match store.close() {
                Ok(disk) => (disk, None),
                Err(broken) => (broken.into_disk(), Some(Errno::EIO)),
            },
            Base::Halted(broken) => (broken.into_disk(), Some(Errno::EIO)),
            Base::Taken => unreachable!(),
        }
    }

    // The disk as it is: what was done since the last sync may be lost at a stop.
    pub(crate) fn into_disk(self) -> D
        ensures disk { HasDisk self.base result }
        ensures again { EachStandsForSome (D.state result) }
    {
        let Fs { base, .. } = self;
        base.into_disk()
    }
}

impl<D: CrashDisk + Drop> Fs<D> {
    // Lets this many writes and syncs of the disk pass, and fails all later ones.
    pub(crate) fn arm(&mut self, passes: u64)
        ensures state { (s : State) → IsIn D.state self.old s → IsIn D.state self.new s }
        ensures same { IsSame (disk_in D.state self.old.base) (disk_in D.state self.new.base) }
        ensures failures { (disk_in D.state self.new.base).failures ≡ (disk_in D.state self.old.base).failures }
        ensures armed { (disk : D) → HasDisk self.new.base disk → D.armed disk ≡ Some passes }
    {
        self.base.arm(passes);
    }
}
