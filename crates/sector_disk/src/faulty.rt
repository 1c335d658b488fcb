//! Disks that fail by themselves at a call of one's choice, for tests of the layers above.

ghost use Rattle.std.specs.Prelude.{◌≡◌, ◌<◌, ◌-◌, ◌^◌, OnOk};
ghost use Rattle.sector_disk.specs.Disk.{HasCause, HasWriteCause};
ghost use Rattle.sector_disk.specs.Faults.{faulty_state, failures_fit, seen_is_image, counts_now, only_now};

use crate::{Disk, DiskFault};
use std::marker::Model;

/// Passes the first `call` reads, writes and syncs to the disk below, and fails from then on.
pub type FuseDisk<D> = FaultyDisk<D, { u64::MAX }>;

/// Fails the read, write or sync number `call`, counted from 0, and passes all others to the disk below.
pub type FailOnce<D> = FaultyDisk<D, 1>;

/// A disk over another, of which `FAULTS` calls in a row fail by themselves.
#[derive(Drop)]
pub struct FaultyDisk<D, const FAULTS: u64> {
    disk: D,
    // The first call that fails.
    call: u64,
    // How many calls there were; it stays at `u64::MAX`.
    calls: u64,
    failed_reads: u64,
    // Syncs too.
    failed_writes: u64,
}

impl<D, const FAULTS: u64> Model for FaultyDisk<D, FAULTS> {
    ghost use Rattle.sector_disk.specs.Faults.{Faulty};

    ghost Value = { Faulty D };

    ghost view = { λ faulty. record { disk = faulty.disk; call = faulty.call; failed_reads = faulty.failed_reads; failed_writes = faulty.failed_writes } };
}

impl<D, const FAULTS: u64> FaultyDisk<D, FAULTS> {
    /// Calls are counted from 0.
    pub fn new(disk: D, call: u64) -> Self
        ensures { result ≡ record { disk = disk; call = call; failed_reads = 0; failed_writes = 0 } }
    {
        FaultyDisk {
            disk,
            call,
            calls: 0,
            failed_reads: 0,
            failed_writes: 0,
        }
    }

    /// The disk below.
    pub fn into_inner(self) -> D
        ensures { result ≡ self.disk }
    {
        let FaultyDisk { disk, .. } = self;
        disk
    }

    // Counts a call, and says whether it fails.
    fn is_due(&mut self) -> bool
        ensures { self.new ≡ self.old }
    {
        let due = self.calls >= self.call && self.calls - self.call < FAULTS;
        self.calls = self.calls.saturating_add(1);
        due
    }
}

impl<D: Disk, const FAULTS: u64> FaultyDisk<D, FAULTS> {
    // Counts a read, which reaches the disk below where it is Ok.
    fn pass_read(&mut self) -> Result<(), DiskFault>
        ensures disk { self.new.disk ≡ self.old.disk }
        ensures quiet { self.new.failed_writes ≡ self.old.failed_writes }
        ensures failures { OnOk result (self.new ≡ self.old) }
        ensures worn { OnOk result ((faulty_state D.state self.old).failures < 2 ^ 64 - 1) }
        ensures cause { HasCause (faulty_state D.state self.old) (faulty_state D.state self.new) result }
    {
        if self.failures() == u64::MAX {
            return Err(DiskFault);
        }
        if self.is_due() {
            self.failed_reads += 1;
            return Err(DiskFault);
        }
        Ok(())
    }

    // Counts a write or a sync, which reaches the disk below where it is Ok.
    fn pass_write(&mut self) -> Result<(), DiskFault>
        ensures disk { self.new.disk ≡ self.old.disk }
        ensures failures { OnOk result (self.new ≡ self.old) }
        ensures worn { OnOk result ((faulty_state D.state self.old).failures < 2 ^ 64 - 1) }
        ensures cause { HasCause (faulty_state D.state self.old) (faulty_state D.state self.new) result }
        ensures told { HasWriteCause (faulty_state D.state self.old) (faulty_state D.state self.new) result }
    {
        if self.failures() == u64::MAX {
            return Err(DiskFault);
        }
        if self.is_due() {
            self.failed_writes += 1;
            return Err(DiskFault);
        }
        Ok(())
    }
}

impl<D: Disk, const FAULTS: u64> Disk for FaultyDisk<D, FAULTS> {
    ghost state = { λ faulty. faulty_state D.state faulty };

    ghost size_fits = { λ faulty. D.size_fits faulty.disk };

    ghost failures_fit = { λ faulty. failures_fit (D.state faulty.disk) faulty.failed_reads faulty.failed_writes };

    ghost whole_sectors = { λ faulty. D.whole_sectors faulty.disk };

    ghost seen_is_image = { λ faulty. seen_is_image (D.state faulty.disk) faulty.failed_reads faulty.failed_writes (D.seen_is_image faulty.disk) };

    ghost counts_now = { λ faulty. counts_now (D.state faulty.disk) faulty.failed_reads faulty.failed_writes (D.counts_now faulty.disk) };

    ghost only_now = { λ faulty. only_now (D.state faulty.disk) faulty.failed_reads faulty.failed_writes (D.only_now faulty.disk) };

    fn size(&self) -> u32 {
        self.disk.size()
    }

    fn failures(&self) -> u64 {
        let failed = self.failed_reads.saturating_add(self.failed_writes);
        self.disk.failures().saturating_add(failed)
    }

    fn read(&mut self, n: u32, to: &mut [u8; 512]) -> Result<(), DiskFault> {
        self.pass_read()?;
        self.disk.read(n, to)
    }

    fn write(&mut self, n: u32, from: &[u8; 512]) -> Result<(), DiskFault> {
        self.pass_write()?;
        self.disk.write(n, from)
    }

    fn sync(&mut self) -> Result<(), DiskFault> {
        self.pass_write()?;
        self.disk.sync()
    }

    fn forget(&mut self) {
        self.disk.forget();
    }
}
