//! The size of the disks that are played on.

use fs_layout::Version;

/// The sectors of a disk.
pub const SECTORS: u32 = 1024;

/// The sectors of a disk with a file system of this version: where the log has two areas, they take half of it.
pub fn sectors_of(version: Version) -> u32 {
    match version {
        Version::One | Version::Two => SECTORS,
        Version::Three => 2 * SECTORS,
    }
}

/// The inodes of a disk, 0 too.
pub const INODES: u32 = 64;
