//! Why nothing is answered. The text of a fault is its name.
ghost use Rattle.std.specs.Prelude.{◌≡◌};
ghost use Rattle.fs_access.specs.Asking.{why_unanswered};
ghost use Rattle.fs_access.specs.declared.fault.AccessFault.TheVariants.{OutOfMemory};

use fs_cred::{Errno, Refusal};
use fs_model::Reply;
use std::alloc::AllocError;
use thiserror::Error;

/// Why nothing is answered.
#[derive(Clone, Copy, Debug, Drop, Error)]
pub enum AccessFault {
    /// The device failed.
    #[error("DiskFault")]
    DiskFault,
    /// Memory ran out.
    #[error("OutOfMemory")]
    OutOfMemory,
    /// The file system gave a reply that such an event never has.
    #[error("NoAnswer")]
    NoAnswer,
}

impl From<AllocError> for AccessFault {
    ghost from_gives = { λ _ fault. fault ≡ OutOfMemory };

    fn from(_error: AllocError) -> AccessFault {
        AccessFault::OutOfMemory
    }
}

impl AccessFault {
    /// Why nothing is answered where this was the reply.
    pub(crate) fn of_reply(reply: &Reply) -> AccessFault
        ensures { result ≡ why_unanswered reply.now }
    {
        match reply {
            Reply::Refused(Refusal::Failed(Errno::EIO)) => AccessFault::DiskFault,
            Reply::Refused(Refusal::Failed(Errno::ENOMEM)) => AccessFault::OutOfMemory,
            _ => AccessFault::NoAnswer,
        }
    }
}
