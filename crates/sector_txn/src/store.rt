//! A store of sectors, and one call's transaction on it.
#![tactic(auto, unfolding(crate::specs::Stores::present, crate::specs::Stores::map_before, crate::specs::Stores::map_now))]

ghost use Rattle.std.specs.Prelude.{◌≡◌, ◌≤◌, ◌↔◌, ℕ, [], true, false, Some, Contains, IsOk, IfOk, MatchResult};
ghost use Rattle.fs_layout.specs.Header.{header_of, log_end, max_delta, max_targets};
ghost use Rattle.fs_layout.specs.declared.header.TheConstants.{MAX_HEADER};
ghost use Rattle.redo_journal.specs.Meaning.{SameMap, EachReadsAs, data_of, disk_of};
ghost use Rattle.redo_journal.specs.States.{header_at, IsIdle};
ghost use Rattle.sector_disk.specs.Disk.{IsSame, ForgetsPast, Elapses, HasCause, HasWriteCause};
ghost use Rattle.sector_txn.specs.Images.{LeavesOneOf, LeavesOldOr, LogsAll};
ghost use Rattle.sector_txn.specs.Stores.{present, map_before, map_now, txn_state, disk_after};
ghost use Rattle.sector_txn.specs.Waits.{AreReserved};

use crate::Sectors;
use crate::cached::CachedJournal;
use crate::commit::commit_if_full;
use crate::hints::Hints;
use crate::waiting::{Waiting, new_batch};
use fs_layout::{HEADER_TARGETS, max_targets};
use redo_journal::{Batch, Broken, Journal};
use sector_disk::{CrashDisk, Disk, DiskFault};
use std::alloc::{AllocError, Global};
use std::marker::Model;

// How many sectors one call may change, on a disk without a header.
const DELTA: usize = 64;

/// A map of sectors on a journal: sector 0 and those behind the log.
///
/// Sectors that were kept wait in memory for their commit, which [`Store::flush`] makes: of those that go through the log no more than it has
/// room for, and a few times as many that go to their places alone. It may be dropped, which is as if the disk were stopped.
#[derive(Drop)]
pub struct Store<D: Disk> {
    journal: CachedJournal<D>,
    // What was kept since the last commit.
    waiting: Waiting,
    // No sectors: its memory serves one transaction after another.
    delta: Box<Batch>,
    // What calls left for later ones.
    hints: Hints,
}

impl<D: Disk> Model for Store<D> {
    ghost use Rattle.std.specs.Prelude.{◌≡◌, []};
    ghost use Rattle.fs_layout.specs.Header.{max_delta};
    ghost use Rattle.redo_journal.specs.States.{header_at};
    ghost use Rattle.sector_txn.specs.Stores.{StoreView, IsWaiting, all_waiting};

    ghost Value = { StoreView D };

    ghost view = { λ store. record {
      disk = store.journal;
      waiting = all_waiting store.waiting.placed.value.entries store.waiting.logged.value.entries;
    } };

    ghost invariant = { λ store. (store.delta.value.entries ≡ [])
        × IsWaiting (D.state store.journal) store.waiting.placed.value store.waiting.logged.value
        × (store.delta.value.most ≡ max_delta (header_at (D.state store.journal).seen)) };
}

/// One call's changes to a store, at most 64 sectors where the disk has no header. Either [`Txn::keep`] or [`Txn::drop_delta`] has to be called.
#[must_use = "its changes are to be kept or dropped"]
pub struct Txn<D: Disk> {
    journal: CachedJournal<D>,
    waiting: Waiting,
    delta: Box<Batch>,
    hints: Hints,
}

impl<D: Disk> Model for Txn<D> {
    ghost use Rattle.std.specs.Prelude.{◌≡◌};
    ghost use Rattle.fs_layout.specs.Header.{max_delta};
    ghost use Rattle.redo_journal.specs.States.{header_at};
    ghost use Rattle.sector_txn.specs.Stores.{TxnView, IsTxn, IsWaiting, all_waiting};

    ghost Value = { TxnView D };

    ghost view = { λ txn. record {
      disk = txn.journal;
      waiting = all_waiting txn.waiting.placed.value.entries txn.waiting.logged.value.entries;
      delta = txn.delta.value.entries;
    } };

    ghost invariant = { λ txn. IsTxn (D.state txn.journal) txn.delta.value.entries
        × IsWaiting (D.state txn.journal) txn.waiting.placed.value txn.waiting.logged.value
        × (txn.delta.value.most ≡ max_delta (header_at (D.state txn.journal).seen)) };
}

impl<D: Disk> Store<D> {
    /// The store of a journal. It reserves the memory of all its transactions, and of what waits, by the disk's header; the cache takes
    /// what it finds. Only where hints stand depends on the [`salt`](Sectors::salt).
    pub fn new(
        alloc: Global,
        journal: Journal<D>,
        salt: u64,
    ) -> Result<Store<D>, (AllocError, Journal<D>)>
        ensures disk { MatchResult result (λ store. store.disk ≡ journal) (λ e. e.1 ≡ journal) }
        ensures map { IfOk result (λ store. SameMap (present D.state store) (data_of (D.state journal))) }
        ensures lasting { IfOk result (λ store. EachReadsAs (present D.state store) (D.state store.disk)) }
    {
        journal.tell_ready();
        match reserved(alloc, journal.header(), salt) {
            Ok((waiting, delta, last, hints)) => Ok(Store {
                journal: CachedJournal::new(alloc, journal, last),
                waiting,
                delta,
                hints,
            }),
            Err(error) => Err((error, journal)),
        }
    }

    /// A transaction without changes.
    pub fn begin(self) -> Txn<D>
        ensures disk { result.disk ≡ self.disk }
        ensures map { SameMap (txn_state D.state result).sectors (present D.state self) }
        ensures before { SameMap (txn_state D.state result).before (present D.state self) }
        ensures delta { (n : ℕ) → (txn_state D.state result).has_put n ≡ false }
        ensures header { (txn_state D.state result).header ≡ header_of ((txn_state D.state result).sectors 0) }
        ensures room { (txn_state D.state result).room ≡ max_delta (txn_state D.state result).header }
    {
        let Store {
            journal,
            waiting,
            delta,
            hints,
        } = self;
        Txn {
            journal,
            waiting,
            delta,
            hints,
        }
    }

    /// From `Ok` on, all that was kept outlasts a stop.
    pub fn flush(self) -> Result<Store<D>, Broken<D>>
        ensures map { IfOk result (λ store. SameMap (present D.state store) (present D.state self)) }

        // From `Ok` on it leaves what reads as the store.
        ensures lasting { IfOk result (λ store. EachReadsAs (present D.state self) (D.state store.disk)) }

        // The header stays.
        ensures header { IfOk result (λ store. header_at (D.state store.disk).seen ≡ header_at (D.state self.disk).seen) }

        // A stop at any moment of the call leaves what means as before it, or reads as the store.
        ensures images { LeavesOldOr (present D.state self) (D.state self.disk) (D.state (disk_after result)) }

        // Where the log has one area, all that waits goes through it: a stop leaves all of it or nothing, in free sectors too.
        ensures alone { header_at (D.state self.disk).seen ≡ 0 → LogsAll self.waiting (D.state self.disk) (D.state (disk_after result)) }

        ensures cause { HasCause (D.state self.disk) (D.state (disk_after result)) result }

        ensures told { HasWriteCause (D.state self.disk) (D.state (disk_after result)) result }
    {
        let Store {
            journal,
            mut waiting,
            delta,
            hints,
        } = self;
        match journal.commit(&mut waiting) {
            Ok(journal) => {
                journal.tell_ready();
                Ok(Store {
                    journal,
                    waiting,
                    delta,
                    hints,
                })
            }
            Err(broken) => Err(broken),
        }
    }

    /// The disk, handed back clean: all that was kept is in its place, and no commit is there.
    pub fn close(self) -> Result<D, Broken<D>>
        ensures map { IfOk result (λ disk. SameMap (data_of (D.state disk)) (present D.state self)) }
        ensures idle { IfOk result (λ disk. IsIdle (D.state disk)) }

        // A stop at any moment of the call leaves what means as before it, or reads as the store.
        ensures images { LeavesOldOr (present D.state self) (D.state self.disk) (D.state (disk_of result)) }

        // Where the log has one area, all that waits goes through it: a stop leaves all of it or nothing, in free sectors too.
        ensures alone { header_at (D.state self.disk).seen ≡ 0 → LogsAll self.waiting (D.state self.disk) (D.state (disk_of result)) }

        // From `Ok` on it leaves what reads as the store.
        ensures lasting { IfOk result (λ disk. EachReadsAs (present D.state self) (D.state disk)) }

        ensures cause { HasCause (D.state self.disk) (D.state (disk_of result)) result }

        ensures told { HasWriteCause (D.state self.disk) (D.state (disk_of result)) result }
    {
        let Store {
            journal,
            waiting: mut kept,
            delta: _,
            hints: _,
        } = self;
        match journal.commit(&mut kept) {
            Ok(journal) => journal.close(),
            Err(broken) => Err(broken),
        }
    }

    /// Lets go of what the disk keeps of its past.
    pub fn forget(&mut self)
        ensures map { SameMap (present D.state self.new) (present D.state self.old) }
        ensures past { ForgetsPast (D.state self.old.disk) (D.state self.new.disk) }
    {
        self.journal.forget();
    }

    /// The disk. What was kept since the last flush may be lost at a stop.
    pub fn into_disk(self) -> D
        ensures { result ≡ self.disk }
    {
        let Store {
            journal,
            waiting: _,
            delta: _,
            hints: _,
        } = self;
        journal.into_disk()
    }
}

impl<D: CrashDisk> Store<D> {
    /// Lets this many writes and syncs of the disk pass, and fails all later ones.
    pub fn arm(&mut self, passes: u64)
        ensures armed { D.armed self.new.disk ≡ Some passes }
        ensures map { SameMap (present D.state self.new) (present D.state self.old) }
        ensures unchanged { IsSame (D.state self.old.disk) (D.state self.new.disk) }
        ensures time { Elapses (D.state self.old.disk) (D.state self.new.disk) }
        ensures failures { (D.state self.new.disk).failures ≡ (D.state self.old.disk).failures }
        ensures failed_writes { (D.state self.new.disk).failed_writes ≡ (D.state self.old.disk).failed_writes }
    {
        self.journal.arm(passes);
    }
}

impl<D: Disk> Txn<D> {
    /// Makes the changes part of the store, all of them at once. Where they don't fit beside what waits, all of that is committed
    /// first; a sector that waits already takes no new place.
    pub fn keep(self) -> Result<Store<D>, Broken<D>>
        ensures map { IfOk result (λ store. SameMap (present D.state store) (txn_state D.state self).sectors) }

        // The header stays.
        ensures header { IfOk result (λ store. header_at (D.state store.disk).seen ≡ header_at (D.state self.disk).seen) }

        // A stop at any moment of the call leaves what means as before it, or reads as the store without the changes
        // or with all of them.
        ensures images { LeavesOneOf (map_before D.state self) (map_now D.state self) (D.state self.disk) (D.state (disk_after result)) }

        // Where the log has one area, all that waits goes through it: a stop leaves all of it or nothing, in free sectors too.
        ensures alone { header_at (D.state self.disk).seen ≡ 0 → LogsAll self.waiting (D.state self.disk) (D.state (disk_after result)) }

        // Without changes the disk isn't called.
        ensures empty { (txn_state D.state self).room ≡ max_delta (txn_state D.state self).header
            → IsOk result × (disk_after result ≡ self.disk) }

        ensures cause { HasCause (D.state self.disk) (D.state (disk_after result)) result }

        ensures told { HasWriteCause (D.state self.disk) (D.state (disk_after result)) result }
    {
        let Txn {
            journal,
            mut waiting,
            mut delta,
            hints,
        } = self;
        match commit_if_full(journal, &mut waiting, &delta) {
            Ok(journal) => {
                journal.keep(&mut waiting, &delta);
                delta.clear();
                Ok(Store {
                    journal,
                    waiting,
                    delta,
                    hints,
                })
            }
            Err(broken) => Err(broken),
        }
    }

    /// The sectors that were put. All others are as they were before the transaction.
    pub fn sectors_put(&self) -> &[u32]
        ensures put { (n : ℕ) → Contains result.now n ↔ ((txn_state D.state self.now).has_put n ≡ true) }

        // Sector 0 is not among them.
        ensures behind { (n : ℕ) → Contains result.now n → log_end (txn_state D.state self.now).header ≤ n }

        ensures others { (n : ℕ) → (Contains result.now n → ⊥)
            → (txn_state D.state self.now).sectors n ≡ (txn_state D.state self.now).before n }
    {
        self.delta.sectors()
    }

    /// Takes the changes back. The store is as it was.
    pub fn drop_delta(self) -> Store<D>
        ensures disk { result.disk ≡ self.disk }
        ensures map { SameMap (present D.state result) (txn_state D.state self).before }
    {
        let Txn {
            journal,
            waiting,
            mut delta,
            hints,
        } = self;
        delta.clear();
        Store {
            journal,
            waiting,
            delta,
            hints,
        }
    }
}

impl<D: Disk> Sectors for Txn<D> {
    ghost state = { λ txn. txn_state D.state txn };

    fn get(&mut self, n: u32, to: &mut [u8; 512]) -> Result<(), DiskFault> {
        match self.delta.get(n) {
            Some(content) => {
                *to = *content;
                Ok(())
            }
            None => match self.waiting.get(n) {
                Some(content) => {
                    *to = *content;
                    Ok(())
                }
                None => self.journal.read(n, to),
            },
        }
    }

    fn read_with<T, F: FnOnce(&[u8; 512]) -> T + Drop>(
        &mut self,
        n: u32,
        read: F,
    ) -> Result<T, DiskFault> {
        if let Some(content) = self.delta.get(n) {
            return Ok(read(content));
        }
        if let Some(content) = self.waiting.get(n) {
            return Ok(read(content));
        }
        self.journal.read_with(n, read)
    }

    fn put(&mut self, n: u32, from: &[u8; 512]) {
        self.delta.put(n, from);
    }

    fn room(&self) -> usize {
        most_delta(self.journal.header()) - self.delta.len()
    }

    fn salt(&self) -> u64 {
        self.hints.salt()
    }

    fn leave_hint(&mut self, key: u64, hint: u64) {
        self.hints.leave(key, hint);
    }

    fn hint(&self, key: u64) -> Option<u64> {
        self.hints.find(key)
    }
}

// How many sectors one call may change, on a disk whose header has so many sectors.
fn most_delta(header: u32) -> usize
    requires { header ≤ MAX_HEADER }
    ensures { result ≡ max_delta header }
{
    DELTA + HEADER_TARGETS * (header as usize)
}

// The memory of the sectors that wait, of a transaction's, of what the last commit logged, and of hints, on a disk whose header has so
// many sectors.
fn reserved(
    alloc: Global,
    header: u32,
    salt: u64,
) -> Result<(Waiting, Box<Batch>, Box<Batch>, Hints), AllocError>
    requires { header ≤ MAX_HEADER }
    ensures { IfOk result (λ parts. AreReserved header parts.0 parts.1.value parts.2.value) }
{
    let waiting = Waiting::new(alloc, header)?;
    let delta = new_batch(alloc, most_delta(header))?;
    let last = new_batch(alloc, max_targets(header))?;
    let hints = Hints::new(alloc, header, salt)?;
    Ok((waiting, delta, last, hints))
}
