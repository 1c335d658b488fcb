//! A disk in memory, which can be stopped. A record of its writes and syncs answers for the moments since the last
//! stop.

ghost use Rattle.std.specs.Prelude.{◌≡◌, ◌≢◌, ◌↔◌, ◌^◌, ◌<◌, ◌-◌, length, vec_len, replicate, Some, option_map, IfOk, IfSome, IsErr, IsTrue, ◌+◌, min, ◌≤◌, slice_range};
ghost use Rattle.sector_disk.specs.Disk.{IsFresh};
ghost use Rattle.sector_disk.specs.Record.{recorded_state, replay};
ghost use Rattle.sector_disk.specs.Replay.{seen_is_image, counts_now, only_now};
ghost use Rattle.sector_disk.specs.Whole.{AreWhole, whole_sectors};

use crate::history::History;
use crate::sectors::Sectors;
use crate::{CrashDisk, Disk, DiskFault};
use std::alloc::{AllocError, Global};

/// A disk in memory, for tests and for a file system that isn't to last. A sector of zeros takes four bytes.
///
/// Each write and sync is recorded, until [`forget`](Disk::forget) lets go of what came before the last sync. One whose
/// record or content finds no memory fails and is counted, and its content isn't kept; one that fails because of
/// [`arm`](CrashDisk::arm) is recorded, so that a stop may leave its content. A stop needs no memory: a sector that gets zeros
/// keeps the place of its content until a sync.
#[derive(Drop)]
pub struct MemDisk {
    history: History,
    // How many writes and syncs pass before all fail.
    armed: Option<u64>,
    failures: u64,
    // What `Disk` wants to be told of any disk: its size is a u32, its count a u64, and each sector has 512 bytes.
    ghost small: { length history.start < 2 ^ 32 },
    ghost counted: { failures < 2 ^ 64 },
    ghost whole: { AreWhole history },
}

impl MemDisk {
    /// A disk of zeros, all of them stable.
    pub fn new(alloc: Global, size: u32) -> Result<Self, AllocError>
        ensures { IfOk result (λ disk. IsFresh (⟦<MemDisk as Disk>⟧.state disk) (replicate size (replicate 512 0))) }
    {
        Ok(MemDisk::with_sectors(alloc, Sectors::zeros(alloc, size)?))
    }

    /// A disk with these contents, all of them stable.
    pub fn from_sectors(alloc: Global, sectors: Vec<[u8; 512]>) -> Result<Self, AllocError>
        requires { vec_len sectors < 2 ^ 32 }
        ensures { IfOk result (λ disk. IsFresh (⟦<MemDisk as Disk>⟧.state disk) sectors.items) }
    {
        let mut kept = Sectors::zeros(alloc, sectors.len() as u32)?;
        kept.set_run(0, &sectors)?;
        Ok(MemDisk::with_sectors(alloc, kept))
    }

    /// A disk of sectors as a disk keeps them, all of them stable.
    pub(crate) fn with_sectors(alloc: Global, sectors: Sectors) -> Self
        requires { length sectors.shown < 2 ^ 32 }
        ensures { IsFresh (⟦<MemDisk as Disk>⟧.state result) sectors.shown }
    {
        sectors.tell_whole();
        MemDisk {
            history: History::new(alloc, sectors),
            armed: None,
            failures: 0,
        }
    }

    // Whether one write or sync more passes: unless none is left of those that may.
    fn passes(&mut self) -> bool
        ensures passes { IsTrue result ↔ self.old.armed ≢ Some 0 }
        ensures fewer { self.new.armed ≡ option_map (λ more. more - 1) self.old.armed }
        ensures history { self.new.history ≡ self.old.history }
        ensures failures { self.new.failures ≡ self.old.failures }
    {
        match self.armed {
            Some(0) => false,
            Some(more) => {
                self.armed = Some(more - 1);
                true
            }
            None => true,
        }
    }

    /// Counts a fault.
    pub(crate) fn fail(&mut self) -> Result<(), DiskFault>
        ensures history { self.new.history ≡ self.old.history }
        ensures counted { self.new.failures ≡ min (self.old.failures + 1) (2 ^ 64 - 1) }
        ensures result { IsErr result }
    {
        self.failures = self.failures.saturating_add(1);
        Err(DiskFault)
    }

    /// What reads of so many neighbours from one on give, where their contents are neighbours too.
    pub(crate) fn run(&self, first: u32, len: usize) -> Option<&[[u8; 512]]>
        requires { first + len ≤ (⟦<MemDisk as Disk>⟧.state self.now).size }
        ensures { IfSome result (λ run. run.now ≡ slice_range (⟦<MemDisk as Disk>⟧.state self.now).seen first (first + len)) }
    {
        self.history.run(first, len)
    }

    /// What reads of neighbours from one on give.
    pub(crate) fn copy_run(&self, first: u32, to: &mut [[u8; 512]])
        requires { first + length to.old ≤ (⟦<MemDisk as Disk>⟧.state self.now).size }
        ensures { to.new ≡ slice_range (⟦<MemDisk as Disk>⟧.state self.now).seen first (first + length to.new) }
    {
        self.history.copy_run(first, to);
    }
}

impl Disk for MemDisk {
    ghost state = { λ disk. recorded_state disk.history disk.failures };

    ghost size_fits = { λ disk. disk.small };

    ghost failures_fit = { λ disk. disk.counted };

    ghost whole_sectors = { λ disk. whole_sectors disk.history disk.whole };

    ghost seen_is_image = { λ disk. seen_is_image disk.history disk.failures };

    ghost counts_now = { λ disk. counts_now disk.history disk.failures };

    ghost only_now = { λ disk. only_now disk.history disk.failures };

    fn size(&self) -> u32 {
        self.history.len()
    }

    fn failures(&self) -> u64 {
        self.failures
    }

    fn read(&mut self, n: u32, to: &mut [u8; 512]) -> Result<(), DiskFault> {
        if self.failures == u64::MAX {
            return Err(DiskFault);
        }
        *to = *self.history.get(n);
        Ok(())
    }

    fn find(&self, n: u32) -> Option<&[u8; 512]> {
        Some(self.history.get(n))
    }

    fn write(&mut self, n: u32, from: &[u8; 512]) -> Result<(), DiskFault> {
        if self.failures == u64::MAX {
            return Err(DiskFault);
        }
        if self.history.write(n, from).is_err() {
            return self.fail();
        }
        // Where it fails because of `arm`, a stop may still leave the content.
        if self.passes() { Ok(()) } else { self.fail() }
    }

    fn sync(&mut self) -> Result<(), DiskFault> {
        if self.failures == u64::MAX {
            return Err(DiskFault);
        }
        if self.passes() && self.history.sync().is_ok() {
            Ok(())
        } else {
            self.fail()
        }
    }

    fn forget(&mut self) {
        self.history.forget();
    }
}

impl CrashDisk for MemDisk {
    ghost armed = { λ disk. disk.armed };

    ghost held = { λ disk. replay disk.history.start disk.history.events };

    ghost held_is = { λ _ _ _. (λ may. may, λ may. may) };

    fn arm(&mut self, passes: u64) {
        self.armed = Some(passes);
    }

    fn crash(&mut self, choice: &[u8]) {
        self.armed = None;
        self.history.stop(choice);
    }
}
