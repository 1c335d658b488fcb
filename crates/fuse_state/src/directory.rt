//! Open directories.

/// An open directory.
#[derive(Clone, Copy)]
pub struct OpenDirectory {
    /// Its node. The number of its inode comes again for another directory, once it is removed.
    pub node: u64,
    /// The user who opened it.
    pub owner: u32,
}
