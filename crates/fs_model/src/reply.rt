//! What is answered.
ghost use Rattle.std.specs.Prelude.{◌≡◌};

use crate::bytes::{Bytes, Path};
use crate::listing::Listing;
use fs_cred::{NodeKind, Refusal, Rule};
use fs_layout::Kind;
use posix_acl::Acl;
use std::mem;

/// The file types of this file system.
#[derive(Clone, Copy)]
pub enum FileType {
    /// A regular file.
    File,
    Directory,
    /// A symbolic link.
    Link,
}

impl FileType {
    ghost use Rattle.fs_model.specs.Kinds.{type_of_kind, access_kind};

    /// The type of what an inode of this kind holds; a free one holds nothing.
    pub fn of_kind(kind: Kind) -> Option<FileType>
        ensures { result ≡ type_of_kind kind }
    {
        match kind {
            Kind::Free => None,
            Kind::File => Some(FileType::File),
            Kind::Directory => Some(FileType::Directory),
            Kind::Link => Some(FileType::Link),
        }
    }

    /// As what access is decided on an object of this type. On a symbolic link it never is.
    pub fn access_kind(self) -> Option<NodeKind>
        ensures { result ≡ access_kind self }
    {
        match self {
            FileType::File => Some(NodeKind::File),
            FileType::Directory => Some(NodeKind::Directory),
            FileType::Link => None,
        }
    }
}

impl From<FileType> for Kind {
    ghost use Rattle.fs_model.specs.Kinds.{kind_of_type};

    ghost from_gives = { λ t kind. kind ≡ kind_of_type t };

    fn from(file_type: FileType) -> Kind {
        match file_type {
            FileType::File => Kind::File,
            FileType::Directory => Kind::Directory,
            FileType::Link => Kind::Link,
        }
    }
}

/// What stat(2) shows of an object.
#[derive(Clone, Copy)]
pub struct Status {
    /// The number of the inode.
    pub ino: u32,
    pub kind: FileType,
    /// The permission bits, and of a directory S_ISGID and S_ISVTX.
    pub mode: u16,
    /// How many names it has; 1 for a directory.
    pub links: u32,
    pub owner: u32,
    pub group: u32,
    /// The bytes of a file or of a link's target; 128 for each name of a directory.
    pub size: u64,
}

/// The times of a node, in nanoseconds since 1970; 0 where one isn't known.
#[derive(Clone, Copy)]
pub struct Stamps {
    pub atime: u64,
    pub mtime: u64,
    pub ctime: u64,
}

/// The answer to a call, or to an event that is asked of the file system.
#[derive(Drop)]
pub enum Reply {
    /// What was asked is done, and there is no more to say.
    Done,
    /// A new process has this number.
    Pid(usize),
    /// What was opened has this descriptor.
    Fd(usize),
    /// What an actor opened has this handle, and this number.
    Opened { handle: u64, ino: u32 },
    /// What an actor made has this number.
    Made(u32),
    /// Bytes that were read.
    Data(Bytes),
    /// So many bytes were written.
    Wrote(usize),
    /// The new offset.
    At(u64),
    /// The target of a symbolic link.
    Target(Path),
    /// The umask as it was.
    Mask(u16),
    Shown(Status),
    /// Access is granted, and by which rule.
    Granted(Rule),
    /// The ACL, or none.
    Acl(Option<Acl>),
    Names(Listing),
    /// How many data sectors and inodes are free.
    Space { sectors: u32, inodes: u32 },
    /// The times of a node.
    Stamped(Stamps),
    Refused(Refusal),
}

impl Reply {
    /// Lets go of a reply, as [`Call::discard`](crate::Call::discard) does of a call.
    pub fn discard(self) {
        mem::drop(self);
    }
}
