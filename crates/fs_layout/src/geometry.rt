//! Where the parts of a disk begin.

ghost use Rattle.std.specs.Prelude.{IsTrue, ◌≡◌, ◌+◌, ◌*◌, ◌/◌, ◌%◌, ◌<◌, ◌≤◌, ◌^◌, IfSome};
ghost use Rattle.fs_layout.specs.Geometry.{allows_header, are_in_range, new_header, geometry_in, the_geometry, IsGeometry};
ghost use Rattle.fs_layout.specs.Version.{max_file_size};
ghost use Rattle.fs_layout.specs.declared.inode.TheConstants.{OLDER_DIRECTORY_SIZE, MAX_FILE_SIZE};

use crate::commit::HEADER_TARGETS;
use crate::header::{MAX_HEADER, log_end};
use crate::inode::INODE_SIZE;
use crate::version::Version;

/// The number of the commit sector.
pub const COMMIT_SECTOR: u32 = 1;

/// The first log sector: that of the first target of a commit.
pub const FIRST_LOG_SECTOR: u32 = 2;

/// The bits that a sector of a bitmap has.
pub const SECTOR_BITS: u32 = 4096;

/// Of so many sectors a new disk of version 3 has one header sector more.
const SECTORS_A_HEADER: u32 = 32768;

/// The most header sectors of a new disk that needs no more: a log area of theirs has two mebibytes.
const MOST_NEW_HEADER: u32 = 31;

/// The inode of the root.
pub const ROOT: u32 = 1;

/// The layout of a disk: its version, how many sectors and inodes it has, and where its parts begin, one right after the other.
#[derive(Clone, Copy)]
pub struct Geometry {
    /// The version of the layout.
    pub version: Version,
    /// The number of sectors of the disk.
    pub sectors: u32,
    /// The number of inodes; inode 0 is never used.
    pub inodes: u32,
    /// The number of header sectors of a log area; 0 in versions 1 and 2, which have one area without a header.
    pub header: u32,
    /// The first sector of the inode bitmap, right behind the log. No sector before it is a commit's target.
    pub inode_bitmap: u32,
    /// The first sector of the block bitmap.
    pub block_bitmap: u32,
    /// The first sector of the inode table.
    pub table: u32,
    /// The first data sector.
    pub first_data: u32,
}

impl Geometry {
    /// The most bytes of a file on this disk.
    pub fn max_file_size(self) -> u64
        ensures value { result ≡ max_file_size self.version }
        ensures least { OLDER_DIRECTORY_SIZE ≤ result }
        ensures most { result ≤ MAX_FILE_SIZE }
    {
        self.version.max_file_size()
    }

    /// The sector of the inode table that has inode `n`, which lies in it from [`Geometry::inode_offset`] on.
    pub fn inode_sector(self, ino: u32) -> u32
        requires room { self.table + ino / 4 < 2 ^ 32 }
        ensures { result ≡ self.table + ino / 4 }
    {
        self.table + ino / 4
    }

    /// Where in its sector the bytes of inode `n` begin.
    pub fn inode_offset(self, ino: u32) -> usize
        ensures value { result ≡ INODE_SIZE * (ino % 4) }
        ensures room { result + INODE_SIZE ≤ 512 }
    {
        INODE_SIZE * (ino % 4) as usize
    }
}

/// The layout of a new disk of this version, with so many sectors and inodes; None where a disk may not have these numbers.
pub fn geometry_of(version: Version, sectors: u32, inodes: u32) -> Option<Geometry>
    ensures value { result ≡ the_geometry version sectors inodes }
    ensures room { IfSome result IsGeometry }
{
    let header = new_header(version, sectors, inodes);
    geometry_in(version, header, sectors, inodes)
}

// How many header sectors a new disk has.
fn new_header(version: Version, sectors: u32, inodes: u32) -> u32
    ensures { result ≡ new_header version sectors inodes }
{
    match version {
        Version::One | Version::Two => 0,
        Version::Three => {
            let bitmaps = inodes.div_ceil(SECTOR_BITS) + sectors.div_ceil(SECTOR_BITS);
            let least = bitmaps.saturating_sub(17).div_ceil(HEADER_TARGETS as u32);
            least
                .max((sectors / SECTORS_A_HEADER).min(MOST_NEW_HEADER))
                .max(1)
        }
    }
}

// The numbers are in the range of the version.
fn are_in_range(version: Version, sectors: u32, inodes: u32) -> bool
    ensures { result ≡ are_in_range version sectors inodes }
{
    let sectors_fit = 1024 <= sectors && sectors <= version.max_sectors();
    let inodes_fit = 16 <= inodes && inodes <= version.max_inodes();
    sectors_fit && inodes_fit
}

// A disk of this version, with numbers in range, may have so many header sectors.
#[tactic(auto, unfolding(crate::specs::Geometry::allows_header))]
fn allows_header(version: Version, header: u32, sectors: u32, inodes: u32) -> bool
    requires { IsTrue (are_in_range version sectors inodes) }
    ensures { result ≡ allows_header version header sectors inodes }
{
    match version {
        Version::One | Version::Two => header == 0,
        Version::Three => {
            let bitmaps = inodes.div_ceil(SECTOR_BITS) + sectors.div_ceil(SECTOR_BITS);
            let in_range = 1 <= header && header <= MAX_HEADER;
            in_range && bitmaps + 47 <= 64 + 128 * header
        }
    }
}

// The layout in this version of a disk with so many header sectors, of so many sectors and inodes; None where a disk may not have
// these numbers.
#[tactic(auto, unfolding(crate::specs::Geometry::geometry_in))]
pub(crate) fn geometry_in(
    version: Version,
    header: u32,
    sectors: u32,
    inodes: u32,
) -> Option<Geometry>
    ensures value { result ≡ geometry_in version header sectors inodes }
    ensures room { IfSome result IsGeometry }
{
    if !are_in_range(version, sectors, inodes) {
        return None;
    }
    if !allows_header(version, header, sectors, inodes) {
        return None;
    }
    let inode_bitmap = log_end(header);
    let block_bitmap = inode_bitmap + inodes.div_ceil(SECTOR_BITS);
    let table = block_bitmap + sectors.div_ceil(SECTOR_BITS);
    let first_data = table + inodes.div_ceil(4);
    if sectors < first_data + 64 {
        return None;
    }
    Some(Geometry {
        version,
        sectors,
        inodes,
        header,
        inode_bitmap,
        block_bitmap,
        table,
        first_data,
    })
}
