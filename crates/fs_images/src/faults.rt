//! Why an image was not made, or not upgraded. The text of a fault is its name.

ghost use Rattle.std.specs.Prelude.{◌≡◌};
ghost use Rattle.fs_images.specs.Upgrading.{IsUpgradeFault};
ghost use Rattle.fs_images.specs.declared.faults.UpgradeFault.TheVariants.{DiskFault as Device};

use fs_check::{CheckFault, Finding};
use sector_disk::DiskFault;
use thiserror::Error;

/// Why [`mkfs`](crate::mkfs) made none: the first of these that holds, in this order.
#[derive(Clone, Copy, Debug, PartialEq, Eq, Error)]
pub enum MkfsFault {
    /// The disk has fewer than 1,024 sectors, or more than the version allows.
    #[error("BadSize")]
    BadSize,
    /// Fewer than 16 inodes are asked for, or more than the version allows.
    #[error("BadInodes")]
    BadInodes,
    /// So many inodes leave fewer than 64 sectors for data.
    #[error("TooSmall")]
    TooSmall,
    /// A write or a sync failed. The disk may be as it was, or without a superblock, or made.
    #[error("DiskFault")]
    DiskFault,
}

/// Why [`upgrade`](crate::upgrade) didn't upgrade a disk.
#[derive(Clone, Copy, Debug, PartialEq, Eq, Error)]
pub enum UpgradeFault {
    /// The superblock says no layout that a disk of this size may have. The disk was only read.
    #[error("NotAFileSystem")]
    NotAFileSystem,
    /// Another rule of the checker fails: the first, at its least number. The disk was only read.
    #[error("Damaged {0}")]
    Damaged(Finding),
    /// A read, a write or a sync failed. The disk may have been upgraded, or not.
    #[error("DiskFault")]
    DiskFault,
    /// There was no memory for the check's tables. The disk was only read.
    #[error("OutOfMemory")]
    OutOfMemory,
}

// The number of the rule on the superblock.
const SUPERBLOCK_RULE: u8 = 1;

impl From<CheckFault> for UpgradeFault {
    ghost from_gives = { IsUpgradeFault };

    fn from(fault: CheckFault) -> UpgradeFault {
        match fault {
            CheckFault::Found(finding) if finding.rule == SUPERBLOCK_RULE => {
                UpgradeFault::NotAFileSystem
            }
            CheckFault::Found(finding) => UpgradeFault::Damaged(finding),
            CheckFault::DiskFault => UpgradeFault::DiskFault,
            CheckFault::OutOfMemory => UpgradeFault::OutOfMemory,
        }
    }
}

impl From<DiskFault> for UpgradeFault {
    ghost from_gives = { λ _ fault. fault ≡ Device };

    fn from(_: DiskFault) -> UpgradeFault {
        UpgradeFault::DiskFault
    }
}
