//! What is agreed on before a server serves.

use crate::keeping::Keeping;
use fuse_protocol::Time;

/// What a server tells the kernel, and what it shows of the whole file system.
#[derive(Clone, Copy)]
pub struct Settings {
    /// The most bytes of one write.
    pub max_write: u32,
    /// The kernel judges before it asks, by modes and ACLs: `FUSE_POSIX_ACL`. Until the first request this is only wanted.
    pub posix_acl: bool,
    /// What the kernel may keep of what it is told.
    pub keeping: Keeping,
    /// All data sectors.
    pub sectors: u32,
    /// All inodes.
    pub inodes: u32,
    /// The most bytes of a name.
    pub max_name: u32,
    /// Whether the disk keeps times. Where it doesn't, the server does.
    pub keeps_times: bool,
    /// When the server began: the time of each object of which no other is known.
    pub start: Time,
    /// So many seconds after the server itself made all last, it does so again, with the next request. 0: never for the time.
    pub commit: u32,
}
