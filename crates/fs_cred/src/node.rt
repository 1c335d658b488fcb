//! What an access decision reads of a file or a directory.
use posix_acl::Acl;

/// What a node is, where access to it is decided: a symbolic link's is never asked.
#[derive(Clone, Copy, PartialEq, Eq)]
pub enum NodeKind {
    File,
    Directory,
}

/// What an access decision reads of a file or a directory.
#[derive(Drop)]
pub struct Node {
    pub kind: NodeKind,
    pub owner: u32,
    pub group: u32,
    /// The access ACL.
    pub acl: Acl,
}
