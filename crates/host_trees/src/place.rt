//! A place in the tree of a file system, as a process sees it.
ghost use Rattle.std.specs.Prelude.{IsTrue, IsFalse};
ghost use Rattle.fs_model.specs.Reading.{IsReading};
ghost use Rattle.host_trees.specs.Copies.{Asks, IsMaking};

use crate::asker::Asker;
use crate::file_system::FileSystem;
use crate::lack::Lack;
use crate::replies::{acl_in, fd_in, status_in};
use fs_model::{AclType, Call, Flags, Path, Status};
use posix_acl::Acl;
use std::alloc::{AllocError, Global};

/// A path in a file system, and the process that makes calls on what stands there.
#[derive(Clone, Copy)]
pub(crate) struct Place<'a> {
    pub(crate) alloc: Global,
    pub(crate) pid: usize,
    pub(crate) inside: &'a [u8],
}

/// What is opened for reading.
#[derive(Clone, Copy)]
pub(crate) enum Opened {
    File,
    Directory,
}

impl Opened {
    // What is there is opened, unless it is a link, and stays as it is.
    fn flags(self) -> Flags
        ensures create { IsFalse result.create }
        ensures trunc { IsFalse result.trunc }
        ensures write { IsFalse result.write }
    {
        Flags {
            read: true,
            write: false,
            create: false,
            excl: false,
            trunc: false,
            append: false,
            nofollow: true,
            directory: matches!(self, Opened::Directory),
        }
    }
}

// A file that isn't there yet is made, and opened for writing.
fn new_file_flags() -> Flags
    ensures create { IsTrue result.create }
    ensures excl { IsTrue result.excl }
    ensures trunc { IsFalse result.trunc }
{
    Flags {
        read: false,
        write: true,
        create: true,
        excl: true,
        trunc: false,
        append: false,
        nofollow: false,
        directory: false,
    }
}

impl Place<'_> {
    /// The path.
    pub(crate) fn path(self) -> Result<Path, AllocError> {
        Path::from_slice(self.alloc, self.inside)
    }

    /// The status of what stands there, also of a symbolic link.
    pub(crate) fn status<M: FileSystem>(self, asker: &mut Asker<M>) -> Result<Status, Lack>
        ensures reads { Asks M.Serves IsReading asker.old.machine asker.new.machine asker.old.is_whole asker.new.is_whole }
        ensures makes { Asks M.Serves IsMaking asker.old.machine asker.new.machine asker.old.is_whole asker.new.is_whole }
    {
        let path = self.path()?;
        status_in(asker.call(self.pid, Call::Lstat(path))?)
    }

    /// A list of what stands there, if it has one.
    pub(crate) fn list<M: FileSystem>(
        self,
        asker: &mut Asker<M>,
        which: AclType,
    ) -> Result<Option<Acl>, Lack>
        ensures { Asks M.Serves IsReading asker.old.machine asker.new.machine asker.old.is_whole asker.new.is_whole }
    {
        let path = self.path()?;
        acl_in(asker.call(self.pid, Call::GetAcl(path, which))?)
    }

    /// A descriptor of what stands there, for reading.
    pub(crate) fn open<M: FileSystem>(
        self,
        asker: &mut Asker<M>,
        opened: Opened,
    ) -> Result<usize, Lack>
        ensures { Asks M.Serves IsReading asker.old.machine asker.new.machine asker.old.is_whole asker.new.is_whole }
    {
        let path = self.path()?;
        fd_in(asker.call(self.pid, Call::Open(path, opened.flags(), 0))?)
    }

    /// A descriptor of a new file that is made there with this mode, for writing.
    pub(crate) fn create<M: FileSystem>(
        self,
        asker: &mut Asker<M>,
        mode: u16,
    ) -> Result<usize, Lack>
        ensures { Asks M.Serves IsMaking asker.old.machine asker.new.machine asker.old.is_whole asker.new.is_whole }
    {
        let path = self.path()?;
        fd_in(asker.call(self.pid, Call::Open(path, new_file_flags(), mode))?)
    }
}
