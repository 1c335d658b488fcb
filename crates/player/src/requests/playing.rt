//! A server on a new file system in memory.
ghost use Rattle.std.specs.Prelude.{◌≤◌, length, IfSome};

use crate::disks::{INODES, SECTORS};
use anyhow::bail;
use fs_fuse::serve_requests;
use fs_images::mkfs;
use fs_layout::Version;
use fs_system::Fs;
use fuse_protocol::Time;
use fuse_serving::{Kernel, Nobody, ReplyRoom, ServeFault};
use fuse_state::{Keeping, Settings};
use sector_disk::MemDisk;
use std::alloc::{AllocError, Global};
use std::mem;

// The largest request: one that writes 131,072 bytes.
const REQUEST_ROOM: usize = 131_152;

/// Serves a kernel from a new file system, and gives that back. What is shown as the whole of it is what was free, and the root.
pub fn serve_new<K: Kernel>(
    alloc: Global,
    start: u64,
    max_write: u32,
    kernel: &mut K,
) -> anyhow::Result<(Result<(), ServeFault>, Fs<MemDisk>)> {
    let mut rooms = Rooms::new(alloc)?;
    let served = match new_mounted(alloc, start, max_write) {
        Ok((fs, settings)) => Ok(serve_requests(
            alloc,
            fs,
            settings,
            kernel,
            &mut Nobody,
            &mut rooms.buffer,
            &mut rooms.reply,
        )),
        Err(fault) => Err(fault),
    };
    mem::drop(rooms);
    served
}

// The room for a request, and for a reply.
#[derive(Drop)]
struct Rooms {
    buffer: Vec<u8>,
    reply: ReplyRoom,
}

impl Rooms {
    fn new(alloc: Global) -> Result<Rooms, AllocError> {
        let reply = ReplyRoom::new(alloc)?;
        let buffer = vec![in alloc; 0; REQUEST_ROOM]?;
        Ok(Rooms { buffer, reply })
    }
}

// A new file system, and what is shown of it.
fn new_mounted(
    alloc: Global,
    start: u64,
    max_write: u32,
) -> anyhow::Result<(Fs<MemDisk>, Settings)> {
    let mut fs = new_file_system(alloc)?;
    match settings_of(&mut fs, start, max_write) {
        Some(settings) => Ok((fs, settings)),
        None => {
            mem::drop(fs);
            bail!("statfs failed")
        }
    }
}

fn settings_of(fs: &mut Fs<MemDisk>, start: u64, max_write: u32) -> Option<Settings> {
    let Ok((sectors, free_inodes)) = fs.statfs() else {
        return None;
    };
    Some(Settings {
        max_write,
        posix_acl: false,
        keeping: Keeping::nothing(),
        sectors,
        inodes: free_inodes.saturating_add(1),
        max_name: 120,
        keeps_times: false,
        start: Time {
            seconds: start,
            nanoseconds: 0,
        },
        commit: 0,
    })
}

fn new_file_system(alloc: Global) -> anyhow::Result<Fs<MemDisk>> {
    match Fs::mount(alloc, new_disk(alloc)?) {
        Ok(fs) => Ok(fs),
        Err((fault, disk)) => {
            mem::drop(disk);
            bail!("{fault}")
        }
    }
}

fn new_disk(alloc: Global) -> anyhow::Result<MemDisk> {
    let mut disk = MemDisk::new(alloc, SECTORS)?;
    mkfs(&mut disk, Version::Two, INODES)?;
    Ok(disk)
}

/// Puts a request at the front of a buffer, and tells its length; nothing where it doesn't fit.
pub fn put_request(buffer: &mut [u8], request: &[u8]) -> Option<usize>
    ensures { IfSome result (λ size. size ≤ length buffer.new) }
{
    let front = buffer.get_mut(..request.len())?;
    front.copy_from_slice(request);
    Some(request.len())
}
