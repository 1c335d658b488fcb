//! How a copy ends.
ghost use Rattle.std.specs.Prelude.{◌≡◌};

use fs_cred::Errno;
use std::alloc::{AllocError, AllocFailed};
use thiserror::Error;

/// How much of a tree was copied.
#[derive(Clone, Copy)]
pub enum Copied {
    /// All of the tree.
    Whole,
    /// What is lacking was named.
    InPart,
}

/// Why a tree isn't copied to the end.
#[derive(Clone, Copy, Debug, Drop, Error)]
pub enum CopyFault {
    /// The directory of the host can't be read, or can't be made.
    #[error("NoDirectory")]
    NoDirectory,
    /// The host has no `/proc/self/fd`, through which the tree is reached.
    #[error("NoProc")]
    NoProc,
    /// Another object took the name of the directory that was made.
    #[error("Changed")]
    Changed,
    /// What was copied may not last.
    #[error("NotSynced")]
    NotSynced,
    /// Memory ran out.
    #[error("OutOfMemory")]
    OutOfMemory,
}

impl From<AllocError> for CopyFault {
    ghost use Rattle.host_trees.specs.declared.fault.CopyFault.TheVariants.{OutOfMemory};

    ghost from_gives = { λ _ fault. fault ≡ OutOfMemory };

    fn from(_error: AllocError) -> CopyFault {
        CopyFault::OutOfMemory
    }
}

impl<T: Drop> From<AllocFailed<T>> for CopyFault {
    ghost use Rattle.host_trees.specs.declared.fault.CopyFault.TheVariants.{OutOfMemory};

    ghost from_gives = { λ _ fault. fault ≡ OutOfMemory };

    fn from(_error: AllocFailed<T>) -> CopyFault {
        CopyFault::OutOfMemory
    }
}
