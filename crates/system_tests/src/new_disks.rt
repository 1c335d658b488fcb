//! What no clause of `mkfs` says: its bytes, that it succeeds, and what is there after each stop and each fault.

ghost use Rattle.std.specs.Prelude.{◌≡◌, ◌<◌, IfOk, OnOk};
ghost use Rattle.sector_disk.specs.Disk.{IsStable};
ghost use Rattle.fs_images.specs.Making.{IsHalfMade, IsNewDisk};

use fs_images::{MkfsFault, mkfs};
use fs_layout::Version;
use fs_system::{Fs, MountFault};
use sector_disk::{CrashDisk, Disk, FailOnce, FuseDisk, MemDisk};
use std::alloc::{AllocError, Global};
use std::mem;
use std::test::Fail;

// What a disk holds that was used before.
const USED: [u8; 512] = [0xaa; 512];

// A sector without anything.
const NONE: [u8; 512] = [0; 512];

fn used_disk(alloc: Global, size: u32) -> Result<MemDisk, AllocError>
    ensures { IfOk result (λ disk. (⟦<MemDisk as Disk>⟧.state disk).size ≡ size) }
{
    let mut sectors = Vec::new(alloc);
    sectors.resize(size as usize, USED)?;
    MemDisk::from_sectors(alloc, sectors)
}

// Makes a file system on any disk, and stops the disk: the clauses say what is there then.
fn make_and_stop<D: CrashDisk>(
    disk: &mut D,
    version: Version,
    inodes: u32,
    choice: &[u8],
) -> Result<(), MkfsFault>
    ensures made { OnOk result (IsNewDisk version inodes (D.state disk.new).seen) }
    ensures half_made { IsHalfMade (D.state disk.old) version inodes (D.state disk.new).seen }
    ensures stable { IsStable (D.state disk.new) }
    ensures size { (D.state disk.new).size ≡ (D.state disk.old).size }
{
    let made = mkfs(disk, version, inodes);
    disk.crash(choice);
    made
}

fn content_of<D: Disk>(disk: &mut D, n: u32) -> Result<[u8; 512], Fail>
    requires { n < (D.state disk.old).size }
    ensures { (D.state disk.new).size ≡ (D.state disk.old).size }
{
    let mut content = [0; 512];
    disk.read(n, &mut content)?;
    Ok(content)
}

// ---- refusals

fn outcome_of(
    alloc: Global,
    version: Version,
    sectors: u32,
    inodes: u32,
) -> Result<Result<(), MkfsFault>, Fail> {
    let mut disk = MemDisk::new(alloc, sectors)?;
    Ok(mkfs(&mut disk, version, inodes))
}

// The version, sectors and inodes, and what is answered.
static SIZES: [(Version, u32, u32, Result<(), MkfsFault>); 24] = [
    (Version::Two, 1023, 64, Err(MkfsFault::BadSize)),
    (Version::Two, 65537, 64, Err(MkfsFault::BadSize)),
    (Version::Two, 1023, 15, Err(MkfsFault::BadSize)),
    (Version::Two, 1024, 15, Err(MkfsFault::BadInodes)),
    (Version::Two, 1024, 4097, Err(MkfsFault::BadInodes)),
    (Version::Two, 1024, 4096, Err(MkfsFault::TooSmall)),
    // The data would begin at 961.
    (Version::Two, 1024, 3321, Err(MkfsFault::TooSmall)),
    (Version::Two, 1024, 3320, Ok(())),
    (Version::Two, 1024, 16, Ok(())),
    (Version::Two, 65536, 4096, Ok(())),
    (Version::One, 65537, 64, Err(MkfsFault::BadSize)),
    (Version::One, 1024, 4097, Err(MkfsFault::BadInodes)),
    (Version::One, 1024, 3320, Ok(())),
    (Version::Three, 1023, 64, Err(MkfsFault::BadSize)),
    (Version::Three, 16777217, 64, Err(MkfsFault::BadSize)),
    (Version::Three, 1023, 15, Err(MkfsFault::BadSize)),
    (Version::Three, 1024, 15, Err(MkfsFault::BadInodes)),
    (Version::Three, 1024, 1048577, Err(MkfsFault::BadInodes)),
    (Version::Three, 1024, 1048576, Err(MkfsFault::TooSmall)),
    // The data would begin at 961 too.
    (Version::Three, 1024, 1785, Err(MkfsFault::TooSmall)),
    (Version::Three, 1024, 1784, Ok(())),
    (Version::Three, 1024, 16, Ok(())),
    (Version::Three, 65537, 4097, Ok(())),
    (Version::Three, 2048, 64, Ok(())),
];

#[test]
fn sizes_and_inodes_out_of_range_are_refused(rt: HostRuntime) -> Result<(), Fail> {
    for &(version, sectors, inodes, wanted) in &SIZES {
        let outcome = outcome_of(rt.alloc(), version, sectors, inodes)?;
        assert!(rt; outcome == wanted, "{sectors} {inodes}: {outcome:?}");
    }
    Ok(())
}

// ---- bytes

// Whether these bytes stand in a sector from an offset on.
fn has_bytes<D: Disk>(disk: &mut D, n: u32, at: usize, bytes: &[u8]) -> Result<bool, Fail> {
    if n >= disk.size() || at > 512 {
        return Err(Fail::new("no such sector or offset"));
    }
    let content = content_of(disk, n)?;
    Ok((&content[at..]).starts_with(bytes))
}

// The first sector and offset of these where a new file system of 64 inodes has other bytes.
fn first_other<D: Disk>(
    disk: &mut D,
    version: Version,
    all: &[(u32, usize, &[u8])],
) -> Result<Option<(u32, usize)>, Fail> {
    mkfs(disk, version, 64)?;
    for (n, at, bytes) in all {
        if !has_bytes(disk, *n, *at, bytes)? {
            return Ok(Some((*n, *at)));
        }
    }
    Ok(None)
}

// Sectors and offsets of a new disk that was used before, and the bytes from there on. It is one of version 2 and 1,024 sectors.
static BYTES: [(u32, usize, &[u8]); 11] = [
    // Magic, version 2, 1,024 sectors, 64 inodes.
    (0, 0, b"INOS\x02\0\0\0\0\x04\0\0\x40\0\0\0\0"),
    // No targets.
    (1, 0, b"INOJ\0\0\0\0\0"),
    // Inodes 0 and 1, and those from 64 on.
    (128, 0, b"\x03\0\0\0\0\0\0\0\xff"),
    (128, 511, b"\xff"),
    // Sectors 0 to 145, and those from 1,024 on.
    (129, 16, b"\xff\xff\x03\0"),
    (129, 126, b"\0\0\xff"),
    (129, 511, b"\xff"),
    // Behind inode 0 a directory with the mode 0755 and one name, which is its own parent.
    (
        130,
        124,
        b"\0\0\0\0\x02\0\xed\x01\0\0\0\0\0\0\0\0\x01\0\0\0",
    ),
    (130, 144, b"\0\0\0\0\0\0\0\0\x01\0\0\0\0\0\0\0"),
    (145, 508, b"\0\0\0\0"),
    // The data is what it was.
    (146, 0, b"\xaa\xaa"),
];

// Bytes of a new disk of version 3 and 2,048 sectors.
static BYTES_OF_THREE: [(u32, usize, &[u8]); 15] = [
    // The superblock has the number of header sectors too.
    (
        0,
        0,
        b"INOS\x03\0\0\0\0\x08\0\0\x40\0\0\0\x01\0\0\0\0\0\0\0",
    ),
    (0, 508, b"\0\0\0\0"),
    (1, 0, b"INOJ\0\0\0\0\0"),
    // The log areas are what they were.
    (2, 0, b"\xaa\xaa"),
    (257, 0, b"\xaa\xaa"),
    (511, 510, b"\xaa\xaa"),
    (512, 0, b"\x03\0\0\0\0\0\0\0\xff"),
    (512, 511, b"\xff"),
    // Sectors 0 to 529, and those from 2,048 on.
    (513, 64, b"\xff\xff\x03\0"),
    (513, 254, b"\0\0\xff"),
    (513, 511, b"\xff"),
    (
        514,
        124,
        b"\0\0\0\0\x02\0\xed\x01\0\0\0\0\0\0\0\0\x01\0\0\0",
    ),
    (514, 144, b"\0\0\0\0\0\0\0\0\x01\0\0\0\0\0\0\0"),
    (529, 508, b"\0\0\0\0"),
    (530, 0, b"\xaa\xaa"),
];

fn first_other_of_a_new_disk(
    alloc: Global,
    version: Version,
    sectors: u32,
    all: &[(u32, usize, &[u8])],
) -> Result<Option<(u32, usize)>, Fail> {
    let mut disk = used_disk(alloc, sectors)?;
    let other = first_other(&mut disk, version, all);
    mem::drop(disk);
    other
}

#[test]
fn a_new_disk_has_these_bytes(rt: HostRuntime) -> Result<(), Fail> {
    let alloc = rt.alloc();
    let other = [
        first_other_of_a_new_disk(alloc, Version::Two, 1024, &BYTES)?,
        first_other_of_a_new_disk(alloc, Version::Three, 2048, &BYTES_OF_THREE)?,
    ];
    assert!(rt; other == [None; 2], "{other:?}");
    Ok(())
}

// ---- stops and faults

// The superblock of 1,024 sectors and 64 inodes in version 2 or 3.
fn new_superblock(version: Version) -> [u8; 512] {
    let mut content = NONE;
    content[..16].copy_from_slice(b"INOS\x02\0\0\0\0\x04\0\0\x40\0\0\0");
    if version == Version::Three {
        content[4] = 3;
        content[16] = 1;
    }
    content
}

// Whether a file system is made with so many writes and syncs left, and what is in sector 0 after a stop.
fn made_and_stopped<D: CrashDisk + Drop>(
    mut disk: D,
    version: Version,
    passes: u64,
    choice: &[u8],
) -> Result<(bool, [u8; 512]), Fail>
    requires { 0 < (D.state disk).size }
{
    disk.arm(passes);
    let made = make_and_stop(&mut disk, version, 64, choice);
    let content = content_of(&mut disk, 0)?;
    Ok((made.is_ok(), content))
}

// What is made so after a stop that leaves the old contents, and after one that leaves the new ones.
fn made_both_ways(
    alloc: Global,
    version: Version,
    passes: u64,
) -> Result<[(bool, [u8; 512]); 2], Fail> {
    let zeros = made_and_stopped(used_disk(alloc, 1024)?, version, passes, &[])?;
    let ones = made_and_stopped(used_disk(alloc, 1024)?, version, passes, &[1; 32])?;
    Ok([zeros, ones])
}

// What is in sector 0.
#[derive(Clone, Copy)]
enum Front {
    // What was there.
    Used,
    // Zeros.
    Zeros,
    // The superblock.
    New,
}

fn content_at(version: Version, front: Front) -> [u8; 512] {
    match front {
        Front::Used => USED,
        Front::Zeros => NONE,
        Front::New => new_superblock(version),
    }
}

// What passes of zeros into sector 0 and a sync; sector 1, 18 sectors of tables and a sync; the superblock and a sync. Then
// whether a file system is made, and what is in sector 0 after a stop that leaves the old contents, and the new ones.
static STOPS: [(u64, bool, Front, Front); 9] = [
    (0, false, Front::Used, Front::Zeros),
    (1, false, Front::Used, Front::Zeros),
    (2, false, Front::Zeros, Front::Zeros),
    (3, false, Front::Zeros, Front::Zeros),
    (20, false, Front::Zeros, Front::Zeros),
    (21, false, Front::Zeros, Front::Zeros),
    (22, false, Front::Zeros, Front::New),
    (23, false, Front::Zeros, Front::New),
    (24, true, Front::New, Front::New),
];

#[test]
fn a_stop_leaves_what_was_there_or_no_superblock_or_the_new_disk(
    rt: HostRuntime,
) -> Result<(), Fail> {
    for version in [Version::Two, Version::Three] {
        for &(passes, made, zeros_chosen, ones_chosen) in &STOPS {
            let seen = made_both_ways(rt.alloc(), version, passes)?;
            let wanted = [
                (made, content_at(version, zeros_chosen)),
                (made, content_at(version, ones_chosen)),
            ];
            assert!(rt; seen == wanted, "{passes}");
        }
    }
    Ok(())
}

// What mkfs comes to, how often the disk has failed then, and why it isn't mounted.
type Outcome = (Result<(), MkfsFault>, u64, Option<MountFault>);

pub(crate) fn mount_fault<D: Disk + Drop>(alloc: Global, disk: D) -> Option<MountFault> {
    let mounted = Fs::mount(alloc, disk);
    let fault = match &mounted {
        Ok(_) => None,
        Err((fault, _)) => Some(*fault),
    };
    mem::drop(mounted);
    fault
}

fn made_and_mounted<D: Disk + Drop>(alloc: Global, mut disk: D) -> Outcome {
    let made = mkfs(&mut disk, Version::Two, 64);
    let failures = disk.failures();
    if made.is_err() {
        mem::drop(disk);
        return (made, failures, None);
    }
    (made, failures, mount_fault(alloc, disk))
}

// The outcome of a disk whose call of this number alone fails, and of one where all from it on do.
fn told_at(alloc: Global, call: u64) -> Result<[Outcome; 2], AllocError> {
    let once = FailOnce::new(used_disk(alloc, 1024)?, call);
    let once = made_and_mounted(alloc, once);
    let fuse = FuseDisk::new(used_disk(alloc, 1024)?, call);
    Ok([once, made_and_mounted(alloc, fuse)])
}

fn wanted_at(call: u64) -> Outcome {
    if call < 24 {
        (Err(MkfsFault::DiskFault), 1, None)
    } else if call < 80 {
        (Ok(()), 0, Some(MountFault::DiskFault))
    } else {
        (Ok(()), 0, None)
    }
}

#[test]
fn each_failing_call_is_told(rt: HostRuntime) -> Result<(), Fail> {
    // Each call of mkfs; those of mount: the 36 reads of a check, three reads and a sync, and the 16 sectors of the inode table; and
    // the one after these.
    for call in 0..81 {
        let seen = told_at(rt.alloc(), call)?;
        assert!(rt; seen == [wanted_at(call); 2], "{call}: {seen:?}");
    }
    Ok(())
}
