//! Copies trees of the host to disks and from them.

ghost use Rattle.std.specs.Prelude.{◌≡◌, Some};
ghost use Rattle.fs_layout.specs.Geometry.{the_geometry};
ghost use Rattle.fs_system.specs.Replies.{unmounted};
ghost use Rattle.host_trees.specs.Copies.{ArePacking, AreUnpacking};
ghost use Rattle.fs_program.specs.declared.failure.Failure.TheVariants.{Pack, Unpack};
ghost use Rattle.fs_program.specs.Copying.{MountedEnds, PackEnds, UnpackEnds, copied_status, copy_end};

use crate::disks::unmount_end;
use crate::failure::Failure;
use fs_command::Status;
use fs_cred::Errno;
use fs_images::mkfs;
use fs_layout::Geometry;
use fs_model::{Event, Reply};
use fs_system::Fs;
use host_trees::{Copied, CopyFault, FileSystem, Given, pack, unpack};
use sector_disk::Disk;
use std::io::Write;
use std::marker::Model;
use std::os::fd::AsRawFd;
use std::rt::Files;

/// A file system on a disk, as trees are copied to it and from it, and as it is asked. Before each event the disk lets go of its past. Contracts see
/// the file system.
#[derive(Drop)]
pub(crate) struct Copying<D: Disk> {
    fs: Fs<D>,
}

impl<D: Disk> Model for Copying<D> {
    ghost use Rattle.fs_system.specs.Seen.{System};

    ghost Value = { System D };

    ghost view = { λ copying. copying.fs };
}

impl<D: Disk> Copying<D> {
    /// The file system, to be asked.
    pub(crate) fn new(fs: Fs<D>) -> Copying<D>
        ensures { result ≡ fs }
    {
        Copying { fs }
    }

    // The file system.
    fn into_fs(self) -> Fs<D>
        ensures { result ≡ self }
    {
        let Copying { fs } = self;
        fs
    }
}

impl<D: Disk + Drop> FileSystem for Copying<D> {
    ghost use Rattle.fs_fuse.specs.Performing.{ServesOne};

    ghost Serves = { ServesOne D.state };

    fn serve(&mut self, event: &Event) -> Reply {
        self.fs.serve(event)
    }
}

/// Makes a file system on a disk that has the size of the layout, copies a tree of the host to it, and unmounts it.
pub(crate) fn pack_on_disk<R: Files<File: AsRawFd> + AllocGlobal, D: Disk + Drop, E: Write>(
    rt: &R,
    disk: D,
    geometry: Geometry,
    from: &str,
    given: Given,
    err: &mut E,
) -> Result<Status, Failure>
    requires { the_geometry geometry.version (D.state disk).size geometry.inodes ≡ Some geometry }
    ensures { PackEnds D.state disk geometry result }
{
    let mut disk = disk;
    if let Err(fault) = mkfs(&mut disk, geometry.version, geometry.inodes) {
        return Err(Failure::Mkfs(fault));
    }
    match Fs::mount(rt.alloc(), disk) {
        Ok(fs) => pack_mounted(rt, fs, from, given, err),
        Err((fault, _)) => Err(Failure::Mount(fault)),
    }
}

fn pack_mounted<R: Files<File: AsRawFd> + AllocGlobal, D: Disk + Drop, E: Write>(
    rt: &R,
    fs: Fs<D>,
    from: &str,
    given: Given,
    err: &mut E,
) -> Result<Status, Failure>
    ensures { MountedEnds D.state ArePacking Pack fs result }
{
    let (packed, copying) = pack(rt, Copying::new(fs), from, given, err);
    let (_, errno) = copying.into_fs().unmount();
    packed_end(packed, errno)
}

fn packed_end(packed: Result<Copied, CopyFault>, errno: Option<Errno>) -> Result<Status, Failure>
    ensures { result ≡ copy_end Pack packed (unmounted errno) }
{
    match packed {
        Ok(copied) => unmount_end(errno, status_of(copied)),
        Err(fault) => Err(Failure::Pack(fault)),
    }
}

/// Mounts a disk, copies the tree of its file system to the host, and unmounts it. The tree stays on the disk as it was mounted.
pub(crate) fn unpack_on_disk<R: Files<File: AsRawFd> + AllocGlobal, D: Disk + Drop, E: Write>(
    rt: &R,
    disk: D,
    to: &str,
    err: &mut E,
) -> Result<Status, Failure>
    ensures { UnpackEnds D.state disk result }
{
    match Fs::mount(rt.alloc(), disk) {
        Ok(fs) => unpack_mounted(rt, fs, to, err),
        Err((fault, _)) => Err(Failure::Mount(fault)),
    }
}

fn unpack_mounted<R: Files<File: AsRawFd> + AllocGlobal, D: Disk + Drop, E: Write>(
    rt: &R,
    fs: Fs<D>,
    to: &str,
    err: &mut E,
) -> Result<Status, Failure>
    ensures { MountedEnds D.state AreUnpacking Unpack fs result }
{
    let (unpacked, copying) = unpack(rt, Copying::new(fs), to, err);
    let (_, errno) = copying.into_fs().unmount();
    unpacked_end(unpacked, errno)
}

fn unpacked_end(
    unpacked: Result<Copied, CopyFault>,
    errno: Option<Errno>,
) -> Result<Status, Failure>
    ensures { result ≡ copy_end Unpack unpacked (unmounted errno) }
{
    match unpacked {
        Ok(copied) => unmount_end(errno, status_of(copied)),
        Err(fault) => Err(Failure::Unpack(fault)),
    }
}

// The status of a copy: whether all of the tree was copied.
fn status_of(copied: Copied) -> Status
    ensures { result ≡ copied_status copied }
{
    match copied {
        Copied::Whole => Status::Done,
        Copied::InPart => Status::Faulty,
    }
}
