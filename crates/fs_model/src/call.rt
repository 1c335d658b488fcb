//! What a process asks for.
ghost use Rattle.std.specs.Prelude.{◌||◌, IsTrue};

use crate::bytes::{Bytes, Path};
use posix_acl::{Acl, Perms};
use std::mem;

/// How a file is opened: the flags of open(2). At least one of `read` and `write` is set.
#[derive(Clone, Copy)]
pub struct Flags {
    /// For reading.
    pub read: bool,
    /// For writing.
    pub write: bool,
    /// O_CREAT: make the file where there is none.
    pub create: bool,
    /// O_EXCL: with `create`, refuse a file that is there.
    pub excl: bool,
    /// O_TRUNC: with `write`, the file loses its bytes.
    pub trunc: bool,
    /// O_APPEND: each write goes to the end.
    pub append: bool,
    /// O_NOFOLLOW: refuse a symbolic link.
    pub nofollow: bool,
    /// O_DIRECTORY: refuse what is no directory.
    pub directory: bool,
    // What is opened is opened to read or to write. The proof of that takes no room.
    pub ghost opens: { IsTrue (read || write) },
}

/// From where lseek(2) counts.
#[derive(Clone, Copy)]
pub enum Whence {
    /// The start of the file.
    Set,
    /// The present offset.
    Cur,
    /// The end of the file.
    End,
}

/// Which ACL of acl(5) is meant.
#[derive(Clone, Copy)]
pub enum AclType {
    /// The one that decides on access.
    Access,
    /// The one that a directory hands down to new objects.
    Default,
}

/// A call. Descriptors are numbers as `open` answers them.
#[derive(Drop)]
pub enum Call {
    /// open: path, flags, mode.
    Open(Path, Flags, u16),
    /// read: at most `len` bytes.
    Read {
        fd: usize,
        len: usize,
    },
    /// write: descriptor, bytes.
    Write(usize, Bytes),
    /// lseek: descriptor, from where, how far.
    Lseek(usize, Whence, i64),
    /// close: descriptor.
    Close(usize),
    /// fstat: descriptor.
    Fstat(usize),
    /// stat: path.
    Stat(Path),
    /// lstat: path.
    Lstat(Path),
    /// access: path, the permissions asked for.
    Access(Path, Perms),
    /// truncate: path, size.
    Truncate(Path, u64),
    /// ftruncate: descriptor, size.
    Ftruncate(usize, u64),
    /// chmod: path, mode.
    Chmod(Path, u16),
    /// chown: an owner or a group that is absent stays.
    Chown {
        path: Path,
        owner: Option<u32>,
        group: Option<u32>,
    },
    /// Reads an ACL: path, which one.
    GetAcl(Path, AclType),
    /// Sets an ACL, or removes the default one: path, which one, the ACL.
    SetAcl(Path, AclType, Option<Acl>),
    /// readdir: descriptor.
    Readdir(usize),
    /// mkdir: path, mode.
    Mkdir(Path, u16),
    /// rmdir: path.
    Rmdir(Path),
    /// link: what the path `old` leads to gets the name `new` too.
    Link {
        old: Path,
        new: Path,
    },
    /// symlink: a link to `target` is made at `path`.
    Symlink {
        target: Path,
        path: Path,
    },
    /// readlink: path.
    Readlink(Path),
    /// unlink: path.
    Unlink(Path),
    /// rename: what has the name `old` gets the name `new` in its stead.
    Rename {
        old: Path,
        new: Path,
    },
    /// chdir: path.
    Chdir(Path),
    /// umask: the mask.
    Umask(u16),
}

impl Call {
    /// Lets go of a call.
    ///
    /// Who has done with a value of many kinds calls this: so the going of each kind is proved here, and not in each crate again.
    pub fn discard(self) {
        mem::drop(self);
    }
}
