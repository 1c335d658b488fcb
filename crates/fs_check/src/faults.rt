//! What a check answers. The text of a fault is its name, that of a finding its two numbers.

ghost use Rattle.std.specs.Prelude.{◌≡◌};
ghost use Rattle.fs_check.specs.declared.faults.CheckFault.TheVariants.{DiskFault as Device, OutOfMemory};

use sector_disk::DiskFault;
use std::alloc::AllocError;
use thiserror::Error;

/// The first rule that fails, and the least number at which it does: that of an inode, but for the rules on the
/// superblock (0), the commit sector (1), a bit of the inode bitmap, and on owners and the block bitmap a sector.
#[derive(Clone, Copy, Debug, PartialEq, Eq, Error)]
#[error("{rule} {at}")]
pub struct Finding {
    /// 1 to 14.
    pub rule: u8,
    pub at: u32,
}

/// Why a check gives no summary.
#[derive(Clone, Copy, Debug, PartialEq, Eq, Error)]
pub enum CheckFault {
    /// A rule fails.
    #[error("Found {0}")]
    Found(Finding),
    /// A read of the disk failed.
    #[error("DiskFault")]
    DiskFault,
    /// There is no memory for the check's tables.
    #[error("OutOfMemory")]
    OutOfMemory,
}

/// What a clean disk has.
#[derive(Clone, Copy, Debug, PartialEq, Eq)]
pub struct Summary {
    /// The files with a name.
    pub files: usize,
    /// The directories, the root too.
    pub dirs: usize,
    /// The symbolic links.
    pub links: usize,
    /// The files without a name.
    pub nameless: usize,
    /// The free data sectors.
    pub blocks: usize,
    /// The free inodes.
    pub inodes: usize,
    /// A commit is sealed, and its sectors are still to be written.
    pub pending: bool,
}

/// What a part of a check answers.
pub(crate) type Checked<T> = Result<T, CheckFault>;

impl From<DiskFault> for CheckFault {
    ghost from_gives = { λ _ e. e ≡ Device };

    fn from(_: DiskFault) -> CheckFault {
        CheckFault::DiskFault
    }
}

impl From<AllocError> for CheckFault {
    ghost from_gives = { λ _ e. e ≡ OutOfMemory };

    fn from(_: AllocError) -> CheckFault {
        CheckFault::OutOfMemory
    }
}
