//! Why entries or a text make no list.
ghost use Rattle.std.specs.Prelude.{◌≡◌};
ghost use Rattle.posix_acl.specs.declared.fault.AclFault.TheVariants.{OutOfMemory};

use std::alloc::{AllocError, AllocFailed};

/// Why entries or a text make no access control list. The first fault in this order is named,
/// but `BadText` comes before the six that need the whole text, and `OutOfMemory` at any time.
#[derive(Clone, Copy, Debug, PartialEq, Eq)]
pub enum AclFault {
    /// A base entry is missing: the owner's, the owning group's or that of others.
    MissingBase,
    /// A base entry stands twice.
    TwiceBase,
    /// Two entries name the same user, or the same group.
    TwiceQualifier,
    /// There is a named entry and no mask.
    NoMask,
    /// There are two masks.
    TwoMasks,
    /// There are more than 32 entries.
    TooMany,
    /// Memory ran out.
    OutOfMemory,
    /// The text is not of the text form.
    BadText,
}

impl From<AllocError> for AclFault {
    ghost from_gives = { λ _ e. e ≡ OutOfMemory };

    fn from(_error: AllocError) -> AclFault {
        AclFault::OutOfMemory
    }
}

impl<T: Drop> From<AllocFailed<T>> for AclFault {
    ghost from_gives = { λ _ e. e ≡ OutOfMemory };

    fn from(_error: AllocFailed<T>) -> AclFault {
        AclFault::OutOfMemory
    }
}
