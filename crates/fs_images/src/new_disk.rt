//! Making a new file system.

ghost use Rattle.std.specs.Prelude.{◌≡◌, ◌≤◌, ◌<◌, Some, None, Err, IfErr, IfSome, OnOk, MatchResult};
ghost use Rattle.sector_disk.specs.Disk.{AddsOnly, HasCause, IsImageOr, IsStable, LeavesOnly};
ghost use Rattle.fs_layout.specs.Geometry.{IsGeometry, super_for, the_geometry};
ghost use Rattle.fs_layout.specs.Superblock.{FitsVersion, super_bytes};
ghost use Rattle.fs_images.specs.Making.{BehindSuperblock, HasNoSuperblock, HoldsNewTables, IsCleared, IsDeviceFault, IsHalfCleared, IsHalfDone, IsHalfMade, IsNewDisk, IsNewLayout, IsPrepared, KeepsBehind, KeepsBesideTables, KeepsLogAndData, KeepsRest, mkfs_refusal};

use crate::MkfsFault;
use crate::new_tables::table_sector;
use fs_layout::{COMMIT_SECTOR, Commit, Geometry, Super, Version, geometry_of};
use sector_disk::{Disk, DiskFault, write_synced};

const SUPERBLOCK: u32 = 0;

/// The layout of a new image for programs that know no version but 1 and 2. None where it may not have these numbers.
pub fn older_layout(sectors: u32, inodes: u32) -> Option<Geometry>
    ensures value { result ≡ the_geometry Version.Two sectors inodes }
    ensures of_new_disk { IfSome result IsNewLayout }
{
    geometry_of(Version::Two, sectors, inodes)
}

/// The layout of any other new image. None where it may not have these numbers.
pub fn newest_layout(sectors: u32, inodes: u32) -> Option<Geometry>
    ensures value { result ≡ the_geometry Version.Three sectors inodes }
    ensures of_new_disk { IfSome result IsNewLayout }
{
    geometry_of(Version::Three, sectors, inodes)
}

/// Makes a file system of this version with so many inodes on the disk, whose root is an empty directory of user 0, 0755.
///
/// The superblock is cleared first and written last, with a sync after each step: a disk on which this was stopped
/// halfway has none, and isn't taken for a file system. Log and data stay as they are: of a disk of zeros they are zeros.
pub fn mkfs<D: Disk>(disk: &mut D, version: Version, inodes: u32) -> Result<(), MkfsFault>
    // The first refusal in order; the disk isn't touched.
    ensures refused { (f : MkfsFault) → mkfs_refusal version (D.state disk.old).size inodes ≡ Some f
        → (result ≡ Err f) × (disk.new ≡ disk.old) }
    ensures fault { mkfs_refusal version (D.state disk.old).size inodes ≡ None
        → IfErr result (IsDeviceFault (D.state disk.old) (D.state disk.new)) }
    ensures made { OnOk result (IsNewDisk version inodes (D.state disk.new).seen) }
    ensures kept { OnOk result (KeepsLogAndData version inodes (D.state disk.old) (D.state disk.new)) }
    ensures stable { OnOk result (IsStable (D.state disk.new)) }
    ensures any_moment { LeavesOnly (D.state disk.old) (D.state disk.new) (IsHalfMade (D.state disk.old) version inodes) }
    ensures size { (D.state disk.new).size ≡ (D.state disk.old).size }
    ensures failures { (D.state disk.old).failures ≤ (D.state disk.new).failures }
{
    let geometry = geometry_for(version, disk.size(), inodes)?;
    write_all(disk, geometry).map_err(|_| MkfsFault::DiskFault)
}

// Where the parts of the disk are to lie.
fn geometry_for(version: Version, sectors: u32, inodes: u32) -> Result<Geometry, MkfsFault>
    ensures { MatchResult result
        (λ p. (mkfs_refusal version sectors inodes ≡ None) × (the_geometry version sectors inodes ≡ Some p))
        (λ f. mkfs_refusal version sectors inodes ≡ Some f) }
{
    if sectors < 1024 || version.max_sectors() < sectors {
        return Err(MkfsFault::BadSize);
    }
    if inodes < 16 || version.max_inodes() < inodes {
        return Err(MkfsFault::BadInodes);
    }
    geometry_of(version, sectors, inodes).ok_or(MkfsFault::TooSmall)
}

// Writes the new disk: its superblock last, after all else is stable.
fn write_all<D: Disk>(disk: &mut D, geometry: Geometry) -> Result<(), DiskFault>
    requires { the_geometry geometry.version (D.state disk.old).size geometry.inodes ≡ Some geometry }
    ensures made { OnOk result (IsNewDisk geometry.version geometry.inodes (D.state disk.new).seen) }
    ensures kept { OnOk result (KeepsRest geometry (D.state disk.old).seen (D.state disk.new).seen) }
    ensures stable { OnOk result (IsStable (D.state disk.new)) }
    ensures any_moment { LeavesOnly (D.state disk.old) (D.state disk.new) (IsHalfMade (D.state disk.old) geometry.version geometry.inodes) }
    ensures size { (D.state disk.new).size ≡ (D.state disk.old).size }
    ensures cause { HasCause (D.state disk.old) (D.state disk.new) result }
{
    clear_superblock(disk)?;
    prepare(disk, geometry)?;
    write_superblock(disk, geometry)
}

// Writes zeros over the superblock, and syncs.
fn clear_superblock<D: Disk>(disk: &mut D) -> Result<(), DiskFault>
    requires { 0 < (D.state disk.old).size }
    ensures cleared { OnOk result (IsCleared (D.state disk.new)) }
    ensures kept { OnOk result (KeepsBehind (D.state disk.old).seen (D.state disk.new).seen) }
    ensures any_moment { LeavesOnly (D.state disk.old) (D.state disk.new) (IsHalfCleared (D.state disk.old)) }
    ensures size { (D.state disk.new).size ≡ (D.state disk.old).size }
    ensures cause { HasCause (D.state disk.old) (D.state disk.new) result }
{
    write_synced(disk, SUPERBLOCK, &[0; 512])
}

// Writes all but the superblock, and syncs.
fn prepare<D: Disk>(disk: &mut D, geometry: Geometry) -> Result<(), DiskFault>
    requires cleared { IsCleared (D.state disk.old) }
    requires geometry { the_geometry geometry.version (D.state disk.old).size geometry.inodes ≡ Some geometry }
    ensures prepared { OnOk result (IsPrepared geometry (D.state disk.new)) }
    ensures kept { OnOk result (KeepsRest geometry (D.state disk.old).seen (D.state disk.new).seen) }
    ensures any_moment { LeavesOnly (D.state disk.old) (D.state disk.new) HasNoSuperblock }
    ensures size { (D.state disk.new).size ≡ (D.state disk.old).size }
    ensures cause { HasCause (D.state disk.old) (D.state disk.new) result }
{
    disk.write(COMMIT_SECTOR, &Commit::idle().to_sector())?;
    write_tables(disk, geometry)?;
    disk.sync()
}

// Writes bitmaps and inode table.
fn write_tables<D: Disk>(disk: &mut D, geometry: Geometry) -> Result<(), DiskFault>
    requires geometry { IsGeometry geometry }
    requires room { geometry.first_data ≤ (D.state disk.old).size }
    ensures written { OnOk result (HoldsNewTables geometry (D.state disk.new).seen) }
    ensures kept { OnOk result (KeepsBesideTables geometry (D.state disk.old).seen (D.state disk.new).seen) }
    ensures adds { AddsOnly BehindSuperblock (D.state disk.old) (D.state disk.new) }
    ensures any_moment { LeavesOnly (D.state disk.old) (D.state disk.new) (IsImageOr BehindSuperblock (D.state disk.old)) }
    ensures cause { HasCause (D.state disk.old) (D.state disk.new) result }
{
    for n in geometry.inode_bitmap..geometry.first_data {
        disk.write(n, &table_sector(geometry, n))?;
    }
    Ok(())
}

// Writes the superblock, and syncs.
fn write_superblock<D: Disk>(disk: &mut D, geometry: Geometry) -> Result<(), DiskFault>
    requires { IsPrepared geometry (D.state disk.old) }
    ensures made { OnOk result (IsNewDisk geometry.version geometry.inodes (D.state disk.new).seen) }
    ensures kept { OnOk result (KeepsBehind (D.state disk.old).seen (D.state disk.new).seen) }
    ensures stable { OnOk result (IsStable (D.state disk.new)) }
    ensures any_moment { LeavesOnly (D.state disk.old) (D.state disk.new) (IsHalfDone geometry.version geometry.inodes) }
    ensures size { (D.state disk.new).size ≡ (D.state disk.old).size }
    ensures cause { HasCause (D.state disk.old) (D.state disk.new) result }
{
    write_synced(disk, SUPERBLOCK, &superblock(geometry))
}

// The content of the superblock.
fn superblock(geometry: Geometry) -> [u8; 512]
    requires { FitsVersion (super_for geometry) }
    ensures { result ≡ super_bytes (super_for geometry) }
{
    let mut content = [0; 512];
    Super::of_geometry(geometry).write_to(&mut content, 0);
    content
}
