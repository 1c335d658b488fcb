//! A store, and what is known of how much is free in it: in all, once that was counted, and in each sector of the bitmaps.

ghost use Rattle.std.specs.Prelude.{◌≡◌, ℕ, Contains, false, Some, IsOk, IfOk};
ghost use Rattle.fs_layout.specs.Bytes.{SectorMap};
ghost use Rattle.fs_layout.specs.Header.{header_of, max_delta};
ghost use Rattle.redo_journal.specs.Meaning.{SameMap, EachReadsAs, disk_of};
ghost use Rattle.redo_journal.specs.States.{IsIdle};
ghost use Rattle.sector_disk.specs.Disk.{ForgetsPast, HasCause, HasWriteCause};
ghost use Rattle.sector_txn.specs.Images.{LeavesOneOf, LeavesOldOr};
ghost use Rattle.sector_txn.specs.Stores.{TxnView, present, map_before, map_now, txn_state, disk_after};
ghost use Rattle.sector_txn.specs.Sectors.{IsUnchanged, SameStore};
ghost use Rattle.bit_alloc.specs.declared.bitmap.Bitmap.TheVariants.{Blocks, Inodes};
ghost use Rattle.bit_alloc.specs.Bitmaps.{HasBitmaps, free_numbers};
ghost use Rattle.fs_system.specs.Counting.{IsRemembered, TellsCounts, HasCounts, IsKnown, IsArmed};

use bit_alloc::Bitmap;
use free_counts::FreeCounts;
use fs_layout::Geometry;
use redo_journal::Broken;
use sector_disk::{CrashDisk, Disk, DiskFault};
use sector_txn::{Sectors, Store, Txn};
use std::marker::Model;

/// How much is free on a disk.
#[derive(Clone, Copy)]
pub(crate) struct FreeSpace {
    /// Data sectors.
    pub(crate) sectors: u32,
    pub(crate) inodes: u32,
}

/// What is known of how much is free on a disk.
#[derive(Drop)]
pub(crate) struct KnownSpace {
    /// In all, where that was counted.
    pub(crate) free: Option<FreeSpace>,
    /// In each sector of the bitmaps.
    pub(crate) counts: FreeCounts,
}

impl KnownSpace {
    // From now on nothing is known of these sectors: what was known of a map is so of each that differs there alone.
    fn forget(&mut self, sectors: &[u32])
        ensures { (size : ℕ) (before now : SectorMap) → (Contains sectors.now 0 → ⊥)
            → ((n : ℕ) → (Contains sectors.now n → ⊥) → now n ≡ before n)
            → IsKnown size before self.old → IsKnown size now self.new }
    {
        if sectors.is_empty() {
            return;
        }
        self.free = None;
        self.counts.forget(sectors);
    }
}

/// How many data sectors and inodes are free. Only sectors of which nothing is known are read.
pub(crate) fn count_both<S: Sectors>(
    counts: &mut FreeCounts,
    s: &mut S,
    geometry: Geometry,
) -> Result<FreeSpace, DiskFault>
    requires bitmaps { HasBitmaps geometry (S.state s.old) }
    requires told { HasCounts (S.state s.old) counts.old }
    ensures sectors { IfOk result (λ free. free.sectors ≡ free_numbers geometry Blocks (S.state s.old).sectors) }
    ensures inodes { IfOk result (λ free. free.inodes ≡ free_numbers geometry Inodes (S.state s.old).sectors) }
    ensures told { HasCounts (S.state s.old) counts.new }
    ensures same { IsUnchanged (S.state s.old) (S.state s.new) }
    ensures cause { HasCause (S.state s.old).disk (S.state s.new).disk result }
{
    let sectors = counts.count_free(s, geometry, Bitmap::Blocks)?;
    let inodes = counts.count_free(s, geometry, Bitmap::Inodes)?;
    Ok(FreeSpace { sectors, inodes })
}

/// A store, and what is known of how much is free in it. A contract sees the store alone.
#[derive(Drop)]
pub(crate) struct CountedStore<D: Disk> {
    store: Store<D>,
    known: KnownSpace,
}

impl<D: Disk> Model for CountedStore<D> {
    ghost use Rattle.sector_txn.specs.Stores.{StoreView, present};
    ghost use Rattle.fs_system.specs.Counting.{IsKnown};

    ghost Value = { StoreView D };

    ghost view = { λ counted. counted.store };

    ghost invariant = { λ counted. IsKnown (D.state counted.store.disk).size (present D.state counted.store) counted.known };
}

/// Makes the changes of a transaction part of its store, all of them at once. What was known of the sectors that it put is forgotten.
// A call of it would move the whole transaction once more.
#[inline(always)]
pub(crate) fn keep<D: Disk>(txn: Txn<D>, known: KnownSpace) -> Result<CountedStore<D>, Broken<D>>
    requires known { IsKnown (D.state txn.disk).size (map_before D.state txn) known }
    ensures map { IfOk result (λ store. SameMap (present D.state store) (txn_state D.state txn).sectors) }
    ensures images { LeavesOneOf (map_before D.state txn) (map_now D.state txn) (D.state txn.disk) (D.state (disk_after result)) }
    ensures empty { (txn_state D.state txn).room ≡ max_delta (txn_state D.state txn).header
        → IsOk result × (disk_after result ≡ txn.disk) }
    ensures cause { HasCause (D.state txn.disk) (D.state (disk_after result)) result }
    ensures told { HasWriteCause (D.state txn.disk) (D.state (disk_after result)) result }
{
    let mut known = known;
    known.forget(txn.sectors_put());
    match txn.keep() {
        Ok(store) => Ok(CountedStore { store, known }),
        Err(broken) => Err(broken),
    }
}

/// Takes the changes of a transaction back. The store is as it was, and so is what is known of it.
pub(crate) fn drop_delta<D: Disk>(txn: Txn<D>, known: KnownSpace) -> CountedStore<D>
    requires known { IsKnown (D.state txn.disk).size (map_before D.state txn) known }
    ensures disk { result.disk ≡ txn.disk }
    ensures map { SameMap (present D.state result) (txn_state D.state txn).before }
{
    let store = txn.drop_delta();
    CountedStore { store, known }
}

impl<D: Disk> CountedStore<D> {
    /// A store of which no more is known than these counts.
    pub(crate) fn uncounted(store: Store<D>, counts: FreeCounts) -> CountedStore<D>
        requires { TellsCounts (present D.state store) counts }
        ensures { result ≡ store }
    {
        CountedStore {
            store,
            known: KnownSpace { free: None, counts },
        }
    }

    /// How much is free, where that is known.
    pub(crate) fn free(&self) -> Option<FreeSpace>
        ensures { IsRemembered (D.state self.now.disk).size (present D.state self.now) result }
    {
        self.known.free
    }

    /// A transaction without changes, and what is known of the store. That stays so of what the transaction began with.
    pub(crate) fn begin(self) -> (Txn<D>, KnownSpace)
        ensures disk { result.0.disk ≡ self.disk }
        ensures map { SameMap (txn_state D.state result.0).sectors (present D.state self) }
        ensures before { SameMap (txn_state D.state result.0).before (present D.state self) }
        ensures delta { (n : ℕ) → (txn_state D.state result.0).has_put n ≡ false }
        ensures header { (txn_state D.state result.0).header ≡ header_of ((txn_state D.state result.0).sectors 0) }
        ensures room { (txn_state D.state result.0).room ≡ max_delta (txn_state D.state result.0).header }
        ensures known { (later : TxnView D) → SameStore (txn_state D.state result.0) (txn_state D.state later)
            → IsKnown (D.state later.disk).size (map_before D.state later) result.1 }
    {
        let CountedStore { store, known } = self;
        (store.begin(), known)
    }

    /// From `Ok` on, all that was kept outlasts a stop.
    pub(crate) fn flush(self) -> Result<CountedStore<D>, Broken<D>>
        ensures map { IfOk result (λ store. SameMap (present D.state store) (present D.state self)) }
        ensures images { LeavesOldOr (present D.state self) (D.state self.disk) (D.state (disk_after result)) }
        ensures lasting { IfOk result (λ store. EachReadsAs (present D.state self) (D.state store.disk)) }
        ensures cause { HasCause (D.state self.disk) (D.state (disk_after result)) result }
        ensures told { HasWriteCause (D.state self.disk) (D.state (disk_after result)) result }
    {
        let CountedStore { store, known } = self;
        match store.flush() {
            Ok(store) => Ok(CountedStore { store, known }),
            Err(broken) => Err(broken),
        }
    }

    /// Lets go of what the disk keeps of its past.
    pub(crate) fn forget(&mut self)
        ensures map { SameMap (present D.state self.new) (present D.state self.old) }
        ensures past { ForgetsPast (D.state self.old.disk) (D.state self.new.disk) }
    {
        self.store.forget();
    }

    /// The disk, handed back clean: all that was kept is in its place, and no commit is there.
    pub(crate) fn close(self) -> Result<D, Broken<D>>
        ensures images { LeavesOldOr (present D.state self) (D.state self.disk) (D.state (disk_of result)) }
        ensures lasting { IfOk result (λ disk. EachReadsAs (present D.state self) (D.state disk)) }
        ensures idle { IfOk result (λ disk. IsIdle (D.state disk)) }
        ensures cause { HasCause (D.state self.disk) (D.state (disk_of result)) result }
        ensures told { HasWriteCause (D.state self.disk) (D.state (disk_of result)) result }
    {
        let CountedStore { store, known: _ } = self;
        store.close()
    }

    /// The disk. What was kept since the last flush may be lost at a stop.
    pub(crate) fn into_disk(self) -> D
        ensures { result ≡ self.disk }
    {
        let CountedStore { store, known: _ } = self;
        store.into_disk()
    }
}

impl<D: CrashDisk> CountedStore<D> {
    /// Lets this many writes and syncs of the disk pass, and fails all later ones.
    pub(crate) fn arm(&mut self, passes: u64)
        ensures armed { D.armed self.new.disk ≡ Some passes }
        ensures map { SameMap (present D.state self.new) (present D.state self.old) }
        ensures disk { IsArmed (D.state self.old.disk) (D.state self.new.disk) }
    {
        self.store.arm(passes);
    }
}
