//! Serves requests from a file system until the end.
ghost use Rattle.fs_fuse.specs.Performing.{ServingEnds};

use crate::mounted::Mounted;
use fs_system::Fs;
use fuse_serving::{Kernel, ReplyRoom, ServeFault, Witness, serve};
use fuse_sessions::Session;
use fuse_state::Settings;
use sector_disk::Disk;
use std::alloc::Global;

/// Serves the kernel's requests from a file system until it is told to end, no more come, or one isn't whole. The file system
/// comes back, also with a fault.
///
/// The buffer has at least 8,192 bytes, and 80 more than the largest write.
///
/// # Errors
///
/// See [`ServeFault`]. What was served before stays, and what is open stays so. Where a reply could not be made or written, its request
/// was performed.
pub fn serve_requests<D: Disk + Drop, K: Kernel, W: Witness>(
    alloc: Global,
    fs: Fs<D>,
    settings: Settings,
    kernel: &mut K,
    witness: &mut W,
    buffer: &mut [u8],
    room: &mut ReplyRoom,
) -> (Result<(), ServeFault>, Fs<D>)
    // What was asked is one history of the file system, that of the requests' plans; and the replies that were taken are theirs.
    ensures { ServingEnds D.state K.Does settings fs result.1 kernel.old kernel.new result.0 }
{
    let mut session = match Session::new(alloc, Mounted::new(fs), settings) {
        Ok(session) => session,
        Err(mounted) => return (Err(ServeFault::OutOfMemory), mounted.into_fs()),
    };
    let served = serve(alloc, &mut session, kernel, witness, buffer, room);
    (served, session.into_machine().into_fs())
}
