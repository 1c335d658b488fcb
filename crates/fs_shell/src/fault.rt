//! Why a run ends early.
ghost use Rattle.std.specs.Prelude.{◌≡◌};
ghost use Rattle.fs_shell.specs.declared.fault.RunFault.TheVariants.{OutOfMemory};

use std::alloc::{AllocError, AllocFailed};
use thiserror::Error;

/// Why a run ends before its script does.
#[derive(Clone, Copy, Debug, Drop, Error)]
pub enum RunFault {
    /// The reader failed, or was interrupted.
    #[error("ReadFault")]
    ReadFault,
    /// The writer failed, or took no byte.
    #[error("WriteFault")]
    WriteFault,
    /// Memory ran out, for the run itself or for the text of a reply.
    #[error("OutOfMemory")]
    OutOfMemory,
    /// The script has more than 16,777,216 bytes.
    #[error("TooMuch")]
    TooMuch,
}

impl From<AllocError> for RunFault {
    ghost from_gives = { λ _ fault. fault ≡ OutOfMemory };

    fn from(_error: AllocError) -> RunFault {
        RunFault::OutOfMemory
    }
}

impl<T: Drop> From<AllocFailed<T>> for RunFault {
    ghost from_gives = { λ _ fault. fault ≡ OutOfMemory };

    fn from(_error: AllocFailed<T>) -> RunFault {
        RunFault::OutOfMemory
    }
}
