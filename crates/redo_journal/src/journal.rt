//! The states of a commit. Each owns the disk, so that a disk has one of them at a time.

ghost use Rattle.std.specs.Prelude.{◌≡◌, ◌<◌, ◌≤◌, ℕ, List, length, Some, None, Ok, IfOk, IfSome, OnOk, Contains, IsTrue};
ghost use Rattle.redo_journal.specs.Batch.{IsOnDisk, targets, with_batch};
ghost use Rattle.redo_journal.specs.Meaning.{HasLayout, IsMapped, IsSpare, SameMap, data_of, disk_of, EachReadsAs, MeansUsed, LeavesSameMap, LeavesAllOrNone};
ghost use Rattle.fs_layout.specs.Header.{max_targets};
ghost use Rattle.redo_journal.specs.States.{header_at, HasHeader, IsBeside, IsIdle, IsLogged, IsSealed, StandsIn};
ghost use Rattle.sector_disk.specs.Disk.{IsSame, ForgetsPast, Elapses, LeavesOnly, OnlyReads, HasCause, HasWriteCause};

use crate::Batch;
use crate::beside::log_beside;
use crate::commit::{install_batch, log_only, seal_batch, settle_commit};
use fs_layout::{Geometry, SECTOR_BITS, Super};
use sector_disk::{CrashDisk, Disk, DiskFault};
use std::marker::Model;

/// A disk between two commits. Where the log has two areas the last one stays, with its batch in place; else none is there.
///
/// A contract sees each of the four states as its disk. Any of them may be dropped, which is as if the disk were
/// stopped: [`Journal::open`] settles what that leaves.
#[derive(Drop)]
pub struct Journal<D: Disk> {
    disk: D,
    // How many sectors the header of the log has.
    header: u32,
    // The log area that the next commit goes into.
    area: u32,
}

impl<D: Disk> Model for Journal<D> {
    ghost use Rattle.redo_journal.specs.States.{IsReady, HasHeader, HasNext};

    ghost Value = { D };

    ghost view = { λ j. j.disk };

    ghost invariant = { λ j. IsReady (D.state j.disk) × HasHeader j.header (D.state j.disk) × HasNext j.area (D.state j.disk) };
}

/// A disk with a batch in its log. Its images still read as without the batch.
#[derive(Drop)]
pub struct Logged<D: Disk> {
    disk: D,
    header: u32,
    area: u32,
}

impl<D: Disk> Model for Logged<D> {
    ghost use Rattle.redo_journal.specs.States.{HasHeader, HasNext};

    ghost Value = { D };

    ghost view = { λ j. j.disk };

    ghost invariant = { λ j. HasHeader j.header (D.state j.disk) × HasNext j.area (D.state j.disk) };
}

/// A disk with the commit of a batch. Its images read as with the batch, though the batch's sectors aren't written.
#[derive(Drop)]
pub struct Sealed<D: Disk> {
    disk: D,
    header: u32,
    area: u32,
}

impl<D: Disk> Model for Sealed<D> {
    ghost use Rattle.redo_journal.specs.States.{HasHeader, HasNext};

    ghost Value = { D };

    ghost view = { λ j. j.disk };

    ghost invariant = { λ j. HasHeader j.header (D.state j.disk) × HasNext j.area (D.state j.disk) };
}

/// A disk that has failed within a commit. Only [`Journal::open`] tells how far the commit came.
#[derive(Drop)]
pub struct Broken<D> {
    disk: D,
}

impl<D> Model for Broken<D> {
    ghost Value = { D };

    ghost view = { λ j. j.disk };
}

impl<D: Disk> Journal<D> {
    // A journal on this disk.
    pub(crate) fn on(disk: D, header: u32) -> Journal<D>
        requires idle { IsIdle (D.state disk) }
        requires header { HasHeader header (D.state disk) }
        ensures { result ≡ disk }
    {
        Journal {
            disk,
            header,
            area: 0,
        }
    }

    /// Does nothing: its clause tells a caller's proof what is true of each journal.
    pub fn tell_ready(&self)
        ensures { EachReadsAs (data_of (D.state self.now)) (D.state self.now) }
    {
        let _disk = &self.disk;
    }

    /// Writes the batch into the log and syncs: into the area that the last commit isn't in.
    pub fn log(self, batch: &Batch) -> Result<Logged<D>, Broken<D>>
        requires on_disk { IsOnDisk (header_at (D.state self).seen) (D.state self).size batch.now.entries }
        requires few { length batch.now.entries ≤ max_targets (header_at (D.state self).seen) }

        ensures logged { IfOk result (λ logged. IsLogged batch.now.entries (D.state logged)) }
        ensures same { IfOk result (λ logged. SameMap (data_of (D.state logged)) (data_of (D.state self))) }

        // A stop at any moment of the call leaves what reads as before it.
        ensures any_moment { LeavesSameMap (D.state self) (D.state (disk_of result)) }

        // With an empty batch the disk isn't called.
        ensures empty { length batch.now.entries ≡ 0 → result ≡ Ok self }

        ensures size { (D.state (disk_of result)).size ≡ (D.state self).size }
        ensures cause { HasCause (D.state self) (D.state (disk_of result)) result }
        ensures told { HasWriteCause (D.state self) (D.state (disk_of result)) result }
    {
        let Journal {
            mut disk,
            header,
            area,
        } = self;
        match log_only(&mut disk, header, area, batch) {
            Ok(()) => Ok(Logged { disk, header, area }),
            Err(DiskFault) => Err(Broken { disk }),
        }
    }

    /// Writes the first batch to its sectors and the second into the log, and syncs both. The sectors of the first are free in
    /// what the disk reads as, and the commit that stands has none of them.
    pub fn log_beside(self, placed: &Batch, batch: &Batch) -> Result<Logged<D>, Broken<D>>
        requires some { 0 < length batch.now.entries }
        requires on_disk { IsOnDisk (header_at (D.state self).seen) (D.state self).size batch.now.entries }
        requires few { length batch.now.entries ≤ max_targets (header_at (D.state self).seen) }
        requires places { IsOnDisk (header_at (D.state self).seen) (D.state self).size placed.now.entries }
        requires spare { (n : ℕ) → Contains (targets placed.now.entries) n → IsSpare (data_of (D.state self)) n }
        requires beside { IsBeside (targets placed.now.entries) (D.state self) }

        ensures logged { IfOk result (λ logged. IsLogged batch.now.entries (D.state logged)) }
        ensures placed { IfOk result (λ logged. SameMap (data_of (D.state logged))
            (with_batch placed.now.entries (data_of (D.state self)))) }

        // A stop at any moment of the call leaves what means as before it, but in sectors that are free.
        ensures any_moment { LeavesOnly (D.state self) (D.state (disk_of result)) (MeansUsed (D.state self).size (D.state self).seen) }

        // With an empty first batch it leaves what reads as before it.
        ensures none_placed { length placed.now.entries ≡ 0 → LeavesSameMap (D.state self) (D.state (disk_of result)) }

        ensures size { (D.state (disk_of result)).size ≡ (D.state self).size }
        ensures cause { HasCause (D.state self) (D.state (disk_of result)) result }
        ensures told { HasWriteCause (D.state self) (D.state (disk_of result)) result }
    {
        let Journal {
            mut disk,
            header,
            area,
        } = self;
        match log_beside(&mut disk, header, area, placed, batch) {
            Ok(()) => Ok(Logged { disk, header, area }),
            Err(DiskFault) => Err(Broken { disk }),
        }
    }

    /// How many sectors the header of the log has.
    pub fn header(&self) -> u32
        ensures { HasHeader result (D.state self.now) }
    {
        self.header
    }

    /// Reads sector 0, or one behind the log. At `Err` nothing is said of the buffer.
    pub fn read(&mut self, n: u32, to: &mut [u8; 512]) -> Result<(), DiskFault>
        requires part { IsMapped (header_at (D.state self.old).seen) n }
        requires on_disk { n < (D.state self.old).size }

        ensures content { OnOk result (to.new ≡ data_of (D.state self.old) n) }
        ensures same { (m : ℕ) → data_of (D.state self.new) m ≡ data_of (D.state self.old) m }
        ensures unchanged { IsSame (D.state self.old) (D.state self.new) }
        ensures reads { OnlyReads (D.state self.old) (D.state self.new) }
        ensures cause { HasCause (D.state self.old) (D.state self.new) result }
    {
        self.disk.read(n, to)
    }

    /// What a read of sector 0, or of one behind the log, gives, where the disk has that in memory.
    pub fn find(&self, n: u32) -> Option<&[u8; 512]>
        requires part { IsMapped (header_at (D.state self.now).seen) n }
        requires on_disk { n < (D.state self.now).size }
        ensures { IfSome result (λ content. content.now ≡ data_of (D.state self.now) n) }
    {
        self.disk.find(n)
    }

    /// The layout that sector 0 tells of, where the disk has that sector in memory and is as large as the layout. Of versions 1 and 2, which
    /// have no header sectors, none is told: all that a commit changes there goes through the log.
    pub fn layout(&self) -> Option<Geometry>
        ensures told { IfSome result (λ p. HasLayout (data_of (D.state self.now)) p × (p.sectors ≤ (D.state self.now).size)) }
        ensures alone { header_at (D.state self.now).seen ≡ 0 → result ≡ None }
    {
        if self.header == 0 {
            return None;
        }
        let size = self.disk.size();
        let content = self.find(0)?;
        let Ok(superblock) = Super::read_from(content, 0) else {
            return None;
        };
        let geometry = superblock.geometry()?;
        if size < geometry.sectors {
            return None;
        }
        Some(geometry)
    }

    /// Whether a sector is a data sector that is free in what the disk reads as. That is looked up where the disk has its bitmap in
    /// memory; where it hasn't, the answer is no.
    pub fn is_spare(&self, geometry: Geometry, n: u32) -> bool
        requires layout { HasLayout (data_of (D.state self.now)) geometry }
        requires on_disk { geometry.sectors ≤ (D.state self.now).size }
        ensures { IsTrue result → IsSpare (data_of (D.state self.now)) n }
    {
        if n < geometry.first_data || geometry.sectors <= n {
            return false;
        }
        match self.find(geometry.block_bitmap + n / SECTOR_BITS) {
            Some(content) => content[n as usize % 4096 / 8] >> (n % 8) & 1 == 0,
            None => false,
        }
    }

    /// Lets go of what the disk keeps of its past.
    pub fn forget(&mut self)
        ensures { ForgetsPast (D.state self.old) (D.state self.new) }
    {
        self.disk.forget();
    }

    /// Syncs, takes the last commit away, and syncs: so the disk is handed back clean.
    pub fn settle(self) -> Result<Journal<D>, Broken<D>>
        ensures idle { IfOk result (λ journal. IsIdle (D.state journal)) }
        ensures same { IfOk result (λ journal. SameMap (data_of (D.state journal)) (data_of (D.state self))) }

        // A stop at any moment of the call leaves what reads as before it.
        ensures any_moment { LeavesSameMap (D.state self) (D.state (disk_of result)) }

        // Where the log has one area no commit is there, and the disk isn't called.
        ensures alone { header_at (D.state self).seen ≡ 0 → result ≡ Ok self }

        ensures size { (D.state (disk_of result)).size ≡ (D.state self).size }
        ensures cause { HasCause (D.state self) (D.state (disk_of result)) result }
        ensures told { HasWriteCause (D.state self) (D.state (disk_of result)) result }
    {
        let Journal {
            mut disk,
            header,
            area,
        } = self;
        if header == 0 {
            return Ok(Journal { disk, header, area });
        }
        match settle_commit(&mut disk) {
            Ok(()) => Ok(Journal::on(disk, header)),
            Err(DiskFault) => Err(Broken { disk }),
        }
    }

    /// The disk.
    pub fn into_disk(self) -> D
        ensures disk { result ≡ self }
        ensures ready { EachReadsAs (data_of (D.state result)) (D.state result) }

        // Where the log has one area no commit is there.
        ensures alone { header_at (D.state result).seen ≡ 0 → IsIdle (D.state result) }
    {
        let Journal {
            disk,
            header: _,
            area: _,
        } = self;
        disk
    }
}

impl<D: CrashDisk> Journal<D> {
    /// Lets this many writes and syncs of the disk pass, and fails all later ones.
    pub fn arm(&mut self, passes: u64)
        ensures armed { D.armed self.new ≡ Some passes }
        ensures unchanged { IsSame (D.state self.old) (D.state self.new) }
        ensures time { Elapses (D.state self.old) (D.state self.new) }
        ensures failures { (D.state self.new).failures ≡ (D.state self.old).failures }
        ensures failed_writes { (D.state self.new).failed_writes ≡ (D.state self.old).failed_writes }
    {
        self.disk.arm(passes);
    }
}

impl<D: Disk> Logged<D> {
    /// Writes the commit sector and syncs. The batch is the one that was logged.
    pub fn seal(self, batch: &Batch) -> Result<Sealed<D>, Broken<D>>
        requires { IsLogged batch.now.entries (D.state self) }

        ensures sealed { IfOk result (λ sealed. IsSealed batch.now.entries (D.state sealed)) }
        ensures changed { IfOk result (λ sealed. SameMap (data_of (D.state sealed))
            (with_batch batch.now.entries (data_of (D.state self)))) }

        // A stop at any moment of the call leaves what reads as before it, or with the whole batch.
        ensures any_moment { LeavesAllOrNone batch.now.entries (D.state self) (D.state (disk_of result)) }

        // From `Ok` on it leaves what reads with the whole batch.
        ensures lasting { IfOk result (λ sealed. EachReadsAs (with_batch batch.now.entries (data_of (D.state self))) (D.state sealed)) }

        // With an empty batch the disk isn't called.
        ensures empty { length batch.now.entries ≡ 0 → result ≡ Ok self }

        ensures size { (D.state (disk_of result)).size ≡ (D.state self).size }
        ensures cause { HasCause (D.state self) (D.state (disk_of result)) result }
        ensures told { HasWriteCause (D.state self) (D.state (disk_of result)) result }
    {
        let Logged {
            mut disk,
            header,
            area,
        } = self;
        match seal_batch(&mut disk, header, area, batch) {
            Ok(area) => Ok(Sealed { disk, header, area }),
            Err(DiskFault) => Err(Broken { disk }),
        }
    }
}

impl<D: Disk> Sealed<D> {
    /// Writes the batch's sectors. The batch is the one that was sealed. Where the log has one area it then syncs, takes the
    /// commit away, and syncs.
    pub fn install(self, batch: &Batch) -> Result<Journal<D>, Broken<D>>
        requires { IsSealed batch.now.entries (D.state self) }

        ensures same { IfOk result (λ journal. SameMap (data_of (D.state journal)) (data_of (D.state self))) }

        // It is this batch's commit that stands then, or none.
        ensures stands { 0 < length batch.now.entries → IfOk result (λ journal. StandsIn (targets batch.now.entries) (D.state journal)) }

        // A stop at any moment of the call leaves what reads as before it, which is with the batch.
        ensures any_moment { LeavesSameMap (D.state self) (D.state (disk_of result)) }

        // With an empty batch the disk isn't called.
        ensures empty { length batch.now.entries ≡ 0 → result ≡ Ok self }

        ensures size { (D.state (disk_of result)).size ≡ (D.state self).size }
        ensures cause { HasCause (D.state self) (D.state (disk_of result)) result }
        ensures told { HasWriteCause (D.state self) (D.state (disk_of result)) result }
    {
        let Sealed {
            mut disk,
            header,
            area,
        } = self;
        match install_batch(&mut disk, header, batch) {
            Ok(()) => Ok(Journal { disk, header, area }),
            Err(DiskFault) => Err(Broken { disk }),
        }
    }
}

impl<D> Broken<D> {
    /// The disk.
    pub fn into_disk(self) -> D
        ensures { result ≡ self }
    {
        let Broken { disk } = self;
        disk
    }
}

impl<D: Disk> Broken<D> {
    /// Lets go of what the disk keeps of its past.
    pub fn forget(&mut self)
        ensures { ForgetsPast (D.state self.old) (D.state self.new) }
    {
        self.disk.forget();
    }
}

impl<D: CrashDisk> Broken<D> {
    /// Lets this many writes and syncs of the disk pass, and fails all later ones.
    pub fn arm(&mut self, passes: u64)
        ensures armed { D.armed self.new ≡ Some passes }
        ensures unchanged { IsSame (D.state self.old) (D.state self.new) }
        ensures time { Elapses (D.state self.old) (D.state self.new) }
        ensures failures { (D.state self.new).failures ≡ (D.state self.old).failures }
        ensures failed_writes { (D.state self.new).failed_writes ≡ (D.state self.old).failed_writes }
    {
        self.disk.arm(passes)
    }
}
