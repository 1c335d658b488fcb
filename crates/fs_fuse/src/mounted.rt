//! A file system, as plans are performed on it.
ghost use Rattle.std.specs.Prelude.{◌≡◌};
ghost use Rattle.fs_fuse.specs.Performing.{ServesOne};

use fs_model::{Actor, Call, Event, HandleCall, Reply};
use fs_system::Fs;
use fuse_steps::Machine;
use sector_disk::Disk;
use std::marker::Model;

/// A file system on a disk, which answers the events of plans. Before each the disk lets go of its past. Contracts see the
/// file system.
#[derive(Drop)]
pub(crate) struct Mounted<D: Disk> {
    fs: Fs<D>,
}

impl<D: Disk> Model for Mounted<D> {
    ghost use Rattle.fs_system.specs.Seen.{System};

    ghost Value = { System D };

    ghost view = { λ mounted. mounted.fs };
}

impl<D: Disk> Mounted<D> {
    /// The file system, to be asked.
    pub(crate) fn new(fs: Fs<D>) -> Mounted<D>
        ensures { result ≡ fs }
    {
        Mounted { fs }
    }

    /// The file system.
    pub(crate) fn into_fs(self) -> Fs<D>
        ensures { result ≡ self }
    {
        let Mounted { fs } = self;
        fs
    }
}

impl<D: Disk + Drop> Machine for Mounted<D> {
    ghost use Rattle.fs_fuse.specs.Performing.{ServesOne};

    ghost Serves = { ServesOne D.state };

    fn serve(&mut self, event: &Event) -> Reply {
        self.fs.serve(event)
    }

    fn call_at(&mut self, actor: &Actor, call: &Call) -> Reply {
        self.fs.serve_call_at(actor, call)
    }

    fn call_by(&mut self, handle: u64, call: &HandleCall) -> Reply {
        self.fs.serve_call_by(handle, call)
    }

    fn write_by(&mut self, handle: u64, offset: u64, bytes: &[u8]) -> Reply {
        self.fs.serve_write_by(handle, offset, bytes)
    }
}
