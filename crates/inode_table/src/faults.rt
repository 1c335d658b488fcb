//! Why an ACL isn't loaded.

/// Why an ACL isn't loaded.
#[derive(Clone, Copy, Debug, PartialEq, Eq)]
pub enum LoadAclFault {
    /// The disk has failed.
    DiskFault,
    /// Memory ran out.
    OutOfMemory,
}
