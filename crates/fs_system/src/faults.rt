//! Why there is no file system. The text of a fault is its name.

ghost use Rattle.std.specs.Prelude.{◌≡◌};
ghost use Rattle.fs_system.specs.Mounting.{IsFaultOfCheck, fault_of};

use fs_check::{CheckFault, Finding};
use fs_model::RestartFault;
use thiserror::Error;

/// Why a disk was not mounted.
#[derive(Clone, Copy, Debug, PartialEq, Eq, Error)]
pub enum MountFault {
    /// The superblock says no layout that a disk of this size may have. The disk was only read.
    #[error("NotAFileSystem")]
    NotAFileSystem,
    /// Another rule of the checker fails: the first, at its least number. The disk was only read.
    #[error("Damaged {0}")]
    Damaged(Finding),
    /// A read, a write or a sync failed.
    #[error("DiskFault")]
    DiskFault,
    /// There was no memory for the check's tables, or for the file system's own.
    #[error("OutOfMemory")]
    OutOfMemory,
}

/// Why [`play`](crate::play) played nothing.
#[derive(Clone, Copy, Debug, PartialEq, Eq, Error)]
pub enum PlayFault {
    /// The disk was not mounted.
    #[error("Mount {0}")]
    Mount(MountFault),
    /// The disk was mounted, and there was no memory for the replies.
    #[error("OutOfMemory")]
    OutOfMemory,
}

// The number of the rule on the superblock.
const SUPERBLOCK_RULE: u8 = 1;

impl From<CheckFault> for MountFault {
    ghost from_gives = { IsFaultOfCheck };

    fn from(fault: CheckFault) -> MountFault {
        match fault {
            CheckFault::Found(finding) if finding.rule == SUPERBLOCK_RULE => {
                MountFault::NotAFileSystem
            }
            CheckFault::Found(finding) => MountFault::Damaged(finding),
            CheckFault::DiskFault => MountFault::DiskFault,
            CheckFault::OutOfMemory => MountFault::OutOfMemory,
        }
    }
}

impl From<RestartFault> for MountFault {
    ghost from_gives = { λ fault given. given ≡ fault_of fault };

    fn from(fault: RestartFault) -> MountFault {
        match fault {
            RestartFault::DiskFault => MountFault::DiskFault,
            RestartFault::OutOfMemory => MountFault::OutOfMemory,
        }
    }
}
