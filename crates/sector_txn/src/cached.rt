//! A journal whose sectors are kept in memory once they are read.

ghost use Rattle.std.specs.Prelude.{◌≡◌, ◌<◌, [], ℕ, Some, IfOk, OnOk};
ghost use Rattle.std.specs.Fn.{FnOnceReturnsAt};
ghost use Rattle.fs_layout.specs.Header.{max_targets};
ghost use Rattle.fs_layout.specs.Bytes.{SectorMap};
ghost use Rattle.redo_journal.specs.Batch.{IsOnDisk, with_batch};
ghost use Rattle.redo_journal.specs.Meaning.{EachReadsAs, LeavesSameMap, IsMapped, SameMap, data_of, disk_of};
ghost use Rattle.redo_journal.specs.States.{header_at, HasHeader, IsIdle};
ghost use Rattle.sector_disk.specs.Disk.{IsSame, ForgetsPast, Elapses, HasCause, HasWriteCause};
ghost use Rattle.sector_txn.specs.Images.{LeavesOldOr, LogsAll};
ghost use Rattle.sector_txn.specs.Stores.{all_waiting};
ghost use Rattle.sector_txn.specs.Waits.{IsRead, Waits, EntriesHavePlaces, EntriesHaveRoom, with_waiting};

use crate::clean::CleanSectors;
use crate::waiting::Waiting;
use fs_layout::Geometry;
use redo_journal::{Batch, Broken, Journal, absorb_beside, commit_beside};
use sector_disk::{CrashDisk, Disk, DiskFault};
use std::alloc::Global;
use std::marker::Model;

/// A journal with a cache of its sectors, each as the device reads it. A contract sees it as its disk, as it sees a
/// journal: of the cache it sees nothing.
#[derive(Drop)]
pub(crate) struct CachedJournal<D: Disk> {
    journal: Journal<D>,
    clean: CleanSectors,
    // What the last commit logged.
    last: Box<Batch>,
    // The layout that the disk tells of, where `last` is known: before the first commit another one may stand.
    layout: Option<Geometry>,
}

impl<D: Disk> Model for CachedJournal<D> {
    ghost use Rattle.redo_journal.specs.Meaning.{data_of};
    ghost use Rattle.redo_journal.specs.States.{header_at};
    ghost use Rattle.sector_txn.specs.Clean.{IsPartOf};
    ghost use Rattle.sector_txn.specs.Last.{HasLast};

    ghost Value = { D };

    ghost view = { λ cached. cached.journal };

    ghost invariant = { λ cached. IsPartOf (header_at (D.state cached.journal).seen) (data_of (D.state cached.journal)) cached.clean
        × HasLast (D.state cached.journal) cached.layout cached.last.value };
}

impl<D: Disk> CachedJournal<D> {
    /// The journal, with an empty cache.
    pub(crate) fn new(alloc: Global, journal: Journal<D>, last: Box<Batch>) -> CachedJournal<D>
        requires { last.value.most ≡ max_targets (header_at (D.state journal).seen) }
        ensures { result ≡ journal }
    {
        let header = journal.header();
        CachedJournal {
            journal,
            clean: CleanSectors::new(alloc, header),
            last,
            layout: None,
        }
    }

    /// Does nothing: its clause tells a caller's proof what is true of each journal.
    pub(crate) fn tell_ready(&self)
        ensures { EachReadsAs (data_of (D.state self.now)) (D.state self.now) }
    {
        self.journal.tell_ready();
    }

    /// How many sectors the header of the log has.
    pub(crate) fn header(&self) -> u32
        ensures { HasHeader result (D.state self.now) }
    {
        self.journal.header()
    }

    /// Reads a sector: where the disk has it in memory, as it was last read, or from the device. At `Err` nothing is said of the buffer.
    pub(crate) fn read(&mut self, n: u32, to: &mut [u8; 512]) -> Result<(), DiskFault>
        requires part { IsMapped (header_at (D.state self.old).seen) n }
        requires on_disk { n < (D.state self.old).size }
        ensures content { OnOk result (to.new ≡ data_of (D.state self.old) n) }
        ensures read { IsRead (D.state self.old) (D.state self.new) result }
    {
        if let Some(content) = self.journal.find(n) {
            *to = *content;
            return Ok(());
        }
        if self.clean.get(n, to) {
            return Ok(());
        }
        self.read_new(n, to)?;
        Ok(())
    }

    /// Reads a sector where it stands, if the disk has it in memory or it was read lately: what `read` makes of its content.
    pub(crate) fn read_with<T, F: FnOnce(&[u8; 512]) -> T + Drop>(
        &mut self,
        n: u32,
        read: F,
    ) -> Result<T, DiskFault>
        requires part { IsMapped (header_at (D.state self.old).seen) n }
        requires on_disk { n < (D.state self.old).size }
        requires callable { F.IsAlwaysCallable read }
        ensures content { IfOk result (λ x. FnOnceReturnsAt F.FnOnce read (data_of (D.state self.old) n) x) }
        ensures read { IsRead (D.state self.old) (D.state self.new) result }
    {
        if let Some(content) = self.journal.find(n) {
            return Ok(read(content));
        }
        if let Some(content) = self.clean.find(n) {
            return Ok(read(content));
        }
        let mut content = [0; 512];
        self.read_new(n, &mut content)?;
        Ok(read(&content))
    }

    // Reads a sector from the device, and keeps it.
    fn read_new(&mut self, n: u32, to: &mut [u8; 512]) -> Result<(), DiskFault>
        requires part { IsMapped (header_at (D.state self.old).seen) n }
        requires on_disk { n < (D.state self.old).size }
        ensures content { OnOk result (to.new ≡ data_of (D.state self.old) n) }
        ensures read { IsRead (D.state self.old) (D.state self.new) result }
    {
        self.journal.read(n, to)?;
        self.clean.put(n, to);
        Ok(())
    }

    /// Takes what a transaction changed into what waits. What is free in what the disk reads as goes to its place alone, but for what
    /// the last commit logged; before the first commit, and where no layout is known, all goes through the log.
    pub(crate) fn keep(&self, waiting: &mut Waiting, delta: &Batch)
        requires waits { Waits (D.state self.now) waiting.old }
        requires on_disk { IsOnDisk (header_at (D.state self.now).seen) (D.state self.now).size delta.now.entries }
        requires places { EntriesHavePlaces waiting.old.placed.value delta.now.entries }
        requires room { EntriesHaveRoom waiting.old.logged.value delta.now.entries }
        ensures waits { Waits (D.state self.now) waiting.new }
        ensures map { (f : SectorMap) (n : ℕ) →
            with_waiting waiting.new f n ≡ with_batch delta.now.entries (with_waiting waiting.old f) n }
    {
        match self.layout {
            Some(geometry) => absorb_beside(
                &self.journal,
                geometry,
                &self.last,
                delta,
                &mut waiting.placed,
                &mut waiting.logged,
            ),
            None => waiting.logged.absorb(delta),
        }
    }

    /// Commits what waits, and nothing waits then. What the cache has of its sectors is dropped before they are written.
    pub(crate) fn commit(self, waiting: &mut Waiting) -> Result<CachedJournal<D>, Broken<D>>
        requires waits { Waits (D.state self) waiting.old }
        ensures waits { IfOk result (λ after. Waits (D.state after) waiting.new) }
        ensures placed { IfOk result (λ after. waiting.new.placed.value.entries ≡ []) }
        ensures logged { IfOk result (λ after. waiting.new.logged.value.entries ≡ []) }
        ensures changed { IfOk result (λ after. SameMap (data_of (D.state after)) (with_waiting waiting.old (data_of (D.state self)))) }

        // The header stays.
        ensures header { IfOk result (λ after. header_at (D.state after).seen ≡ header_at (D.state self).seen) }

        // A stop at any moment of the call leaves what means as before it, or reads with all that waits.
        ensures images { LeavesOldOr (with_waiting waiting.old (data_of (D.state self))) (D.state self) (D.state (disk_of result)) }

        // Where the log has one area all that waits goes through it.
        ensures alone { header_at (D.state self).seen ≡ 0
            → LogsAll (all_waiting waiting.old.placed.value.entries waiting.old.logged.value.entries) (D.state self) (D.state (disk_of result)) }

        ensures cause { HasCause (D.state self) (D.state (disk_of result)) result }
        ensures told { HasWriteCause (D.state self) (D.state (disk_of result)) result }
    {
        self.tell_ready();
        if waiting.is_empty() {
            return Ok(self);
        }
        waiting.log_some();
        let CachedJournal {
            journal,
            mut clean,
            mut last,
            ..
        } = self;
        clean.forget_all(waiting.placed.sectors());
        clean.forget_all(waiting.logged.sectors());
        match commit_beside(journal, &waiting.placed, &waiting.logged) {
            Ok(journal) => {
                waiting.hand_over(&mut last);
                let layout = journal.layout();
                Ok(CachedJournal {
                    journal,
                    clean,
                    last,
                    layout,
                })
            }
            Err(broken) => Err(broken),
        }
    }

    /// Lets go of what the disk keeps of its past.
    pub(crate) fn forget(&mut self)
        ensures { ForgetsPast (D.state self.old) (D.state self.new) }
    {
        self.journal.forget();
    }

    /// Takes the last commit away, and gives the disk back, which has none then.
    pub(crate) fn close(self) -> Result<D, Broken<D>>
        ensures same { IfOk result (λ disk. SameMap (data_of (D.state disk)) (data_of (D.state self))) }
        ensures idle { IfOk result (λ disk. IsIdle (D.state disk)) }
        ensures lasting { IfOk result (λ disk. EachReadsAs (data_of (D.state disk)) (D.state disk)) }
        ensures any_moment { LeavesSameMap (D.state self) (D.state (disk_of result)) }
        ensures size { (D.state (disk_of result)).size ≡ (D.state self).size }
        ensures cause { HasCause (D.state self) (D.state (disk_of result)) result }
        ensures told { HasWriteCause (D.state self) (D.state (disk_of result)) result }
    {
        let CachedJournal { journal, .. } = self;
        match journal.settle() {
            Ok(journal) => Ok(journal.into_disk()),
            Err(broken) => Err(broken),
        }
    }

    /// The disk.
    pub(crate) fn into_disk(self) -> D
        ensures { result ≡ self }
    {
        let CachedJournal { journal, .. } = self;
        journal.into_disk()
    }
}

impl<D: CrashDisk> CachedJournal<D> {
    /// Lets this many writes and syncs of the disk pass, and fails all later ones.
    pub(crate) fn arm(&mut self, passes: u64)
        ensures armed { D.armed self.new ≡ Some passes }
        ensures unchanged { IsSame (D.state self.old) (D.state self.new) }
        ensures time { Elapses (D.state self.old) (D.state self.new) }
        ensures failures { (D.state self.new).failures ≡ (D.state self.old).failures }
        ensures failed_writes { (D.state self.new).failed_writes ≡ (D.state self.old).failed_writes }
    {
        self.journal.arm(passes);
    }
}
