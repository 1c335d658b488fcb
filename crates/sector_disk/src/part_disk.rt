//! A disk of which only some sectors can be read.

ghost use Rattle.std.specs.Prelude.{◌≡◌, ◌+◌, IsErr, IfSome};
ghost use Rattle.sector_disk.specs.Disk.{IsFresh, HasCause, HasWriteCause};
ghost use Rattle.sector_disk.specs.Parts.{IsImageOf, file_image, part_state, size_fits, failures_fit, whole_sectors, seen_is_image, counts_now, only_now};

use crate::{Disk, DiskFault, DiskFile, PartFile};

/// The disk that a file holds, of which only those sectors can be read that are in memory: a read of any other fails and is counted,
/// and so does each write and each sync.
///
/// Where it is known what the file holds, this disk is the file's image, in all of its sectors. So what is answered of it without a
/// failure is true of the file.
#[derive(Drop)]
pub struct PartDisk<F: DiskFile> {
    part: PartFile<F>,
    failed_reads: u64,
    // Syncs too.
    failed_writes: u64,
}

impl<F: DiskFile + Drop> PartDisk<F> {
    /// Those sectors can be read that were read of the file.
    pub fn new(part: PartFile<F>) -> Self
        ensures { IsFresh (⟦<PartDisk<F> as Disk>⟧.state result) (file_image (F.held part.file) part.sectors.shown) }
    {
        PartDisk {
            part,
            failed_reads: 0,
            failed_writes: 0,
        }
    }

    /// The file, whose image the disk was.
    pub fn into_file(self) -> F
        ensures { IfSome (F.held result) (IsImageOf (⟦<PartDisk<F> as Disk>⟧.state self).seen) }
    {
        let PartDisk { part, .. } = self;
        part.into_file()
    }

    // Counts a write or a sync, which fails.
    fn refuse(&mut self) -> Result<(), DiskFault>
        ensures image { file_image (F.held self.new.part.file) self.new.part.sectors.shown
            ≡ file_image (F.held self.old.part.file) self.old.part.sectors.shown }
        ensures result { IsErr result }
        ensures cause { HasCause (⟦<PartDisk<F> as Disk>⟧.state self.old) (⟦<PartDisk<F> as Disk>⟧.state self.new) result }
        ensures told { HasWriteCause (⟦<PartDisk<F> as Disk>⟧.state self.old) (⟦<PartDisk<F> as Disk>⟧.state self.new) result }
    {
        if self.failures() == u64::MAX {
            return Err(DiskFault);
        }
        self.failed_writes += 1;
        Err(DiskFault)
    }
}

impl<F: DiskFile + Drop> Disk for PartDisk<F> {
    ghost state = { λ disk. part_state (F.held disk.part.file) disk.part.sectors.shown disk.failed_reads disk.failed_writes };

    ghost size_fits = { λ disk. size_fits disk.part.follows disk.part.few };

    ghost failures_fit = { λ disk. failures_fit (F.held disk.part.file) disk.part.sectors.shown disk.failed_reads disk.failed_writes };

    ghost whole_sectors = { λ disk. whole_sectors disk.part.follows };

    ghost seen_is_image = { λ disk. seen_is_image (F.held disk.part.file) disk.part.sectors.shown disk.failed_reads disk.failed_writes };

    ghost counts_now = { λ disk. counts_now (F.held disk.part.file) disk.part.sectors.shown disk.failed_reads disk.failed_writes };

    ghost only_now = { λ disk. only_now (F.held disk.part.file) disk.part.sectors.shown disk.failed_reads disk.failed_writes };

    fn size(&self) -> u32 {
        self.part.count()
    }

    fn failures(&self) -> u64 {
        self.failed_reads.saturating_add(self.failed_writes)
    }

    fn read(&mut self, n: u32, to: &mut [u8; 512]) -> Result<(), DiskFault> {
        if self.failures() == u64::MAX {
            return Err(DiskFault);
        }
        let Some(content) = self.part.get(n) else {
            self.failed_reads += 1;
            return Err(DiskFault);
        };
        *to = *content;
        Ok(())
    }

    fn find(&self, n: u32) -> Option<&[u8; 512]> {
        self.part.get(n)
    }

    fn ends_in_zeros(&self, n: u32, first: usize) -> bool {
        self.part.ends_in_zeros(n, first)
    }

    fn write(&mut self, _n: u32, _from: &[u8; 512]) -> Result<(), DiskFault> {
        self.refuse()
    }

    fn sync(&mut self) -> Result<(), DiskFault> {
        self.refuse()
    }

    fn forget(&mut self) {
        // Nothing is known of the past.
    }
}
