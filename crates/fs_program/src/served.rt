//! Serves the kernel's FUSE requests from a disk.

ghost use Rattle.std.specs.Prelude.{◌≡◌};
ghost use Rattle.fs_program.specs.Serving.{FuseEnds, served_status, settings_of};

use crate::disks::{tell, unmount_end};
use crate::failure::Failure;
use fs_command::Status;
use fs_fuse::serve_requests;
use fs_layout::Geometry;
use fs_system::Fs;
use fuse_protocol::Time;
use fuse_serving::{Kernel, ReplyRoom, ServeFault, Witness};
use fuse_state::{Keeping, Settings};
use sector_disk::Disk;
use std::alloc::{AllocError, Global};
use std::io::Write;

// The most bytes of one write.
const MAX_WRITE: u32 = 1_048_576;

// A request with so many bytes to write has a header and a body of 80 more, for which there is a page.
const REQUEST_ROOM: usize = 1_052_672;

// Room for one request, and for one reply.
#[derive(Drop)]
struct Rooms {
    request: Vec<u8>,
    reply: ReplyRoom,
}

impl Rooms {
    fn new(alloc: Global) -> Result<Rooms, AllocError> {
        let mut request = Vec::new(alloc);
        request.resize(REQUEST_ROOM, 0)?;
        let reply = ReplyRoom::new(alloc)?;
        Ok(Rooms { request, reply })
    }
}

// What is agreed on with the kernel, and what is shown of the whole file system.
fn settings_of(geometry: Geometry, own_rules: bool, commit: u32, start: Time) -> Settings
    ensures { result ≡ settings_of geometry own_rules commit start }
{
    Settings {
        max_write: MAX_WRITE,
        posix_acl: !own_rules,
        keeping: Keeping::usual(),
        sectors: geometry.sectors.saturating_sub(geometry.first_data),
        inodes: geometry.inodes,
        max_name: geometry.version.max_name() as u32,
        keeps_times: geometry.version.keeps_times(),
        start,
        commit,
    }
}

/// Mounts a disk, serves the kernel's requests from it, and unmounts, also where the serving ended early, which is told first.
/// The salt decides nothing but where hints about names stand.
pub(crate) fn serve_on_disk<D: Disk + Drop, K: Kernel, W: Witness, E: Write>(
    alloc: Global,
    disk: D,
    salt: u64,
    own_rules: bool,
    commit: u32,
    kernel: &mut K,
    witness: &mut W,
    err: &mut E,
) -> Result<Status, Failure>
    ensures { FuseEnds D.state K.Does disk own_rules commit kernel.old kernel.new result }
{
    let Ok(mut rooms) = Rooms::new(alloc) else {
        return Err(Failure::Serve(ServeFault::OutOfMemory));
    };
    let start = match kernel.now() {
        Ok(start) => start,
        Err(fault) => return Err(Failure::Serve(ServeFault::Clock(fault))),
    };
    let fs = match Fs::mount_salted(alloc, disk, salt) {
        Ok(fs) => fs,
        Err((fault, _)) => return Err(Failure::Mount(fault)),
    };
    let settings = settings_of(fs.geometry(), own_rules, commit, start);
    let Rooms { request, reply } = &mut rooms;
    let (served, fs) = serve_requests(alloc, fs, settings, kernel, witness, request, reply);
    let (_, errno) = fs.unmount();
    unmount_end(errno, tell_served(served, err))
}

// The status of what was served. Why it ended early is printed.
fn tell_served<E: Write>(served: Result<(), ServeFault>, err: &mut E) -> Status
    ensures { result ≡ served_status served }
{
    match served {
        Ok(()) => Status::Done,
        Err(fault) => tell(err, &Failure::Serve(fault)),
    }
}
