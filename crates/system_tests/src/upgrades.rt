//! What no clause of `upgrade` says: that it succeeds, and which version is there after each stop.

ghost use Rattle.std.specs.Prelude.{◌≡◌, ◌<◌, IfOk};

use fs_images::{UpgradeFault, mkfs, upgrade};
use fs_layout::Version;
use sector_disk::{CrashDisk, Disk, MemDisk};
use std::alloc::Global;
use std::test::Fail;

// Where the superblock has its version.
const VERSION: usize = 4;

// A new file system of this version, all of it stable.
fn disk_of_version(alloc: Global, version: Version) -> Result<MemDisk, Fail>
    ensures { IfOk result (λ disk. (⟦<MemDisk as Disk>⟧.state disk).size ≡ 1024) }
{
    let mut disk = MemDisk::new(alloc, 1024)?;
    mkfs(&mut disk, version, 64)?;
    Ok(disk)
}

// The version that an upgrade tells, or why it tells none; and the one that is there after a stop.
type Upgraded = (Result<u32, UpgradeFault>, u8);

// What an upgrade comes to with so many writes and syncs left.
fn upgraded_and_stopped<D: CrashDisk + Drop>(
    alloc: Global,
    mut disk: D,
    passes: u64,
    choice: &[u8],
) -> Result<Upgraded, Fail>
    requires { 0 < (D.state disk).size }
{
    disk.arm(passes);
    let upgraded = upgrade(alloc, &mut disk).map(Version::number);
    disk.crash(choice);
    let mut content = [0; 512];
    disk.read(0, &mut content)?;
    Ok((upgraded, content[VERSION]))
}

// What an upgrade comes to after a stop that leaves the old contents, and after one that leaves the new ones.
fn upgraded_both_ways(alloc: Global, version: Version, passes: u64) -> Result<[Upgraded; 2], Fail> {
    let disk = disk_of_version(alloc, version)?;
    let zeros = upgraded_and_stopped(alloc, disk, passes, &[])?;
    let disk = disk_of_version(alloc, version)?;
    let ones = upgraded_and_stopped(alloc, disk, passes, &[1])?;
    Ok([zeros, ones])
}

#[test]
fn a_stop_leaves_the_old_version_or_the_new_one(rt: HostRuntime) -> Result<(), Fail> {
    let failed = Err(UpgradeFault::DiskFault);
    // The version before, what passes of a sync, the write of sector 0 and a sync, what the upgrade comes to, and the version
    // after a stop that leaves the old contents, and the new ones.
    for (version, passes, wanted, zeros_chosen, ones_chosen) in [
        (Version::One, 0, failed, 1, 1),
        (Version::One, 1, failed, 1, 2),
        (Version::One, 2, failed, 1, 2),
        (Version::One, 3, Ok(2), 2, 2),
        // A sync alone.
        (Version::Two, 0, failed, 2, 2),
        (Version::Two, 1, Ok(2), 2, 2),
        (Version::Three, 0, failed, 3, 3),
        (Version::Three, 1, Ok(3), 3, 3),
    ] {
        let seen = upgraded_both_ways(rt.alloc(), version, passes)?;
        let wanted = [(wanted, zeros_chosen), (wanted, ones_chosen)];
        assert!(rt; seen == wanted, "{passes}: {seen:?}");
    }
    Ok(())
}
