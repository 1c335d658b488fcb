//! Why an image says nothing of itself. The text of a fault is its name.

ghost use Rattle.std.specs.Prelude.{◌≡◌};
ghost use Rattle.fs_info.specs.declared.faults.InfoFault.TheVariants.{DiskFault as Device};

use fs_check::Finding;
use sector_disk::DiskFault;
use thiserror::Error;

/// Why an image says nothing of itself.
#[derive(Clone, Copy, Debug, Error)]
pub enum InfoFault {
    /// The superblock says no layout that a disk of this size may have.
    #[error("NotAFileSystem")]
    NotAFileSystem,
    /// The checker's second rule fails: the commit is not valid, so nobody knows what the bitmaps are to be.
    #[error("Damaged {0}")]
    Damaged(Finding),
    /// A read failed.
    #[error("DiskFault")]
    DiskFault,
}

impl From<DiskFault> for InfoFault {
    ghost from_gives = { λ _ fault. fault ≡ Device };

    fn from(_: DiskFault) -> InfoFault {
        InfoFault::DiskFault
    }
}
