//! File systems on disks in memory, and calls of them.

use fs_images::mkfs;
use fs_layout::Version;
use fs_lines::{Line, parse_line};
use fs_model::{Call, Event};
use fs_system::Fs;
use sector_disk::{FuseDisk, MemDisk};
use std::alloc::Global;
use std::mem;
use std::test::Fail;

// A disk in memory that lets so many calls pass.
pub(crate) type TestDisk = FuseDisk<MemDisk>;

pub(crate) fn mount(alloc: Global, disk: TestDisk) -> Result<Fs<TestDisk>, Fail> {
    match Fs::mount(alloc, disk) {
        Ok(fs) => Ok(fs),
        Err((fault, disk)) => {
            mem::drop(disk);
            Err(fault)?
        }
    }
}

// An empty file system of 1,024 sectors with 64 inodes, whose disk lets so many calls pass.
pub(crate) fn new_fs(alloc: Global, version: Version, calls: u64) -> Result<Fs<TestDisk>, Fail> {
    let mut disk = FuseDisk::new(MemDisk::new(alloc, 1024)?, calls);
    mkfs(&mut disk, version, 64)?;
    mount(alloc, disk)
}

// The call of a line.
pub(crate) fn call_of(alloc: Global, line: &[u8]) -> Result<Call, Fail> {
    match parse_line(alloc, line) {
        Ok(Line::Event(Event::Call(_, call))) => Ok(call),
        Ok(Line::Event(event)) => {
            event.discard();
            Err(Fail::new("no call"))
        }
        Ok(Line::Blank) => Err(Fail::new("no event")),
        Err(fault) => Err(fault)?,
    }
}
