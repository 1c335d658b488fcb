//! Why a server ends before its time.

use crate::reply::ReplyFault;
use std::io;
use thiserror::Error;

/// Why a server ends before its time.
#[derive(Debug, Drop, Error)]
pub enum ServeFault {
    /// No request could be read.
    #[error("ReadFault")]
    Read(io::Error),
    /// A reply could not be written, and the kernel may wait for it still.
    #[error("WriteFault")]
    Write(io::Error),
    /// The time isn't known.
    #[error("ClockFault")]
    Clock(io::Error),
    /// Memory ran out before the first request.
    #[error("OutOfMemory")]
    OutOfMemory,
    /// A request was served, and its reply could not be made.
    #[error("ReplyFault")]
    Reply(ReplyFault),
}

impl From<ReplyFault> for ServeFault {
    ghost use Rattle.std.specs.Prelude.{◌≡◌};
    ghost use Rattle.fuse_serving.specs.declared.fault.ServeFault.TheVariants.{Reply};

    ghost from_gives = { λ fault e. e ≡ Reply fault };

    fn from(fault: ReplyFault) -> ServeFault {
        ServeFault::Reply(fault)
    }
}
