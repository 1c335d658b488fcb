//! The versions of the layout.

ghost use Rattle.std.specs.Prelude.{◌≡◌};
ghost use Rattle.fs_layout.specs.Version.{version_number, version_of, max_sectors, max_inodes, max_file_size, max_name, max_names, max_inode_names, slot_size, block_slots, max_directory_size, keeps_times};

use crate::inode::{INDIRECT_END, MAX_FILE_SIZE, OLDER_FILE_SIZE};

/// A version of the layout. It says how many blocks a file may have, how long a name may be, and how many names a directory, a file
/// and a link may have.
#[derive(Clone, Copy, PartialEq, Eq)]
pub enum Version {
    /// Direct blocks, and those of one indirect sector.
    One,
    /// The blocks of version 1, and those of one double indirect sector.
    Two,
    /// The blocks of version 2, and those of one triple indirect sector; longer names, and more of them, on larger disks, and times of
    /// each inode. No older version is upgraded to this one.
    Three,
}

impl Version {
    /// The number of the version, as the superblock has it.
    pub fn number(self) -> u32
        ensures { result ≡ version_number self }
    {
        match self {
            Version::One => 1,
            Version::Two => 2,
            Version::Three => 3,
        }
    }

    /// The version of this number; None where there is none.
    pub fn of_number(number: u32) -> Option<Version>
        ensures { result ≡ version_of number }
    {
        match number {
            1 => Some(Version::One),
            2 => Some(Version::Two),
            3 => Some(Version::Three),
            _ => None,
        }
    }

    /// The most sectors of a disk.
    pub fn max_sectors(self) -> u32
        ensures { result ≡ max_sectors self }
    {
        match self {
            Version::One | Version::Two => 65536,
            Version::Three => 16777216,
        }
    }

    /// The most inodes of a disk.
    pub fn max_inodes(self) -> u32
        ensures { result ≡ max_inodes self }
    {
        match self {
            Version::One | Version::Two => 4096,
            Version::Three => 1048576,
        }
    }

    /// The most bytes of a file.
    pub fn max_file_size(self) -> u64
        ensures { result ≡ max_file_size self }
    {
        match self {
            Version::One => 512 * INDIRECT_END,
            Version::Two => OLDER_FILE_SIZE,
            Version::Three => MAX_FILE_SIZE,
        }
    }

    /// The most bytes of a name.
    pub fn max_name(self) -> usize
        ensures { result ≡ max_name self }
    {
        match self {
            Version::One | Version::Two => 120,
            Version::Three => 248,
        }
    }

    /// The most names of one directory.
    pub fn max_names(self) -> usize
        ensures { result ≡ max_names self }
    {
        match self {
            Version::One | Version::Two => 560,
            Version::Three => 32768,
        }
    }

    /// The most names of one file or link.
    pub fn max_inode_names(self) -> u32
        ensures { result ≡ max_inode_names self }
    {
        match self {
            Version::One | Version::Two => 500,
            Version::Three => 65000,
        }
    }

    /// The bytes of a slot of a directory.
    pub fn slot_size(self) -> usize
        ensures { result ≡ slot_size self }
    {
        match self {
            Version::One | Version::Two => 128,
            Version::Three => 256,
        }
    }

    /// The slots of a directory that a block has.
    pub fn block_slots(self) -> usize
        ensures { result ≡ block_slots self }
    {
        match self {
            Version::One | Version::Two => 4,
            Version::Three => 2,
        }
    }

    /// The most bytes of a directory: those of the slots of [`Version::max_names`] names.
    pub fn max_directory_size(self) -> u64
        ensures { result ≡ max_directory_size self }
    {
        match self {
            Version::One | Version::Two => 71680,
            Version::Three => 8388608,
        }
    }

    /// Whether inodes have times.
    pub fn keeps_times(self) -> bool
        ensures { result ≡ keeps_times self }
    {
        match self {
            Version::One | Version::Two => false,
            Version::Three => true,
        }
    }
}
