//! Upgrading a file system to the second version of the layout.

ghost use Rattle.std.specs.Prelude.{◌≡◌, ◌≤◌, OnOk, IfOk, IfErr};
ghost use Rattle.sector_disk.specs.Disk.{HasCause, IsSame, IsStable, Elapses, IsNarrowed, LeavesOnly};
ghost use Rattle.fs_layout.specs.Superblock.{super_bytes, with_version};
ghost use Rattle.fs_layout.specs.declared.version.Version.TheVariants.{One, Two};
ghost use Rattle.fs_images.specs.Standing.{StandsForSome};
ghost use Rattle.fs_images.specs.Upgrading.{IsSuperOf, SaysVersion, SyncsAlone, IsHalfUpgraded, IsUpgraded, IsNotUpgraded};

use crate::faults::UpgradeFault;
use fs_check::check;
use fs_layout::{Super, Version};
use sector_disk::{Disk, DiskFault, write_synced};
use std::alloc::Global;

const SUPERBLOCK: u32 = 0;

/// Upgrades the file system on the disk from the first version of the layout to the second, in which its files may be larger, and
/// answers the version that it has then.
///
/// The disk is checked first, and a disk that stands for no tree is only read. Nothing but the superblock is written, between
/// two syncs; a commit that is sealed stays as it is. A disk of another version is synced alone: none leads to the third.
pub fn upgrade<D: Disk>(alloc: Global, disk: &mut D) -> Result<Version, UpgradeFault>
    ensures upgraded { IfOk result (λ version. IsUpgraded version (D.state disk.old) (D.state disk.new)) }
    ensures failed { IfErr result (IsNotUpgraded (D.state disk.old) (D.state disk.new)) }
    // A stop at any moment of the call leaves what stands for what it did before, with the old limit of a file or the new one.
    ensures any_moment { LeavesOnly (D.state disk.old) (D.state disk.new) (IsHalfUpgraded (D.state disk.old)) }
    // A disk of another version than the first isn't written.
    ensures unwritten { (SaysVersion One (D.state disk.old).seen → ⊥) → IsNarrowed (D.state disk.old) (D.state disk.new) }
    ensures size { (D.state disk.new).size ≡ (D.state disk.old).size }
    ensures failures { (D.state disk.old).failures ≤ (D.state disk.new).failures }
{
    check(alloc, disk)?;
    Ok(raise_version(disk)?)
}

// Upgrades a disk that stands for a tree.
fn raise_version<D: Disk>(disk: &mut D) -> Result<Version, DiskFault>
    requires { StandsForSome (D.state disk.old).seen }
    ensures upgraded { IfOk result (λ version. IsUpgraded version (D.state disk.old) (D.state disk.new)) }
    ensures any_moment { LeavesOnly (D.state disk.old) (D.state disk.new) (IsHalfUpgraded (D.state disk.old)) }
    ensures unwritten { (SaysVersion One (D.state disk.old).seen → ⊥) → SyncsAlone (D.state disk.old) (D.state disk.new) result }
    ensures size { (D.state disk.new).size ≡ (D.state disk.old).size }
    ensures cause { HasCause (D.state disk.old) (D.state disk.new) result }
{
    let superblock = read_superblock(disk)?;
    disk.sync()?;
    match superblock.version {
        Version::One => {
            write_raised(disk, superblock)?;
            Ok(Version::Two)
        }
        version => Ok(version),
    }
}

// Writes the superblock of the second version over that of the first, and syncs.
fn write_raised<D: Disk>(disk: &mut D, superblock: Super) -> Result<(), DiskFault>
    requires some { StandsForSome (D.state disk.old).seen }
    requires found { IsSuperOf (D.state disk.old).seen superblock }
    requires version { superblock.version ≡ One }
    requires stable { IsStable (D.state disk.old) }
    ensures upgraded { OnOk result (IsUpgraded Two (D.state disk.old) (D.state disk.new)) }
    ensures any_moment { LeavesOnly (D.state disk.old) (D.state disk.new) (IsHalfUpgraded (D.state disk.old)) }
    ensures size { (D.state disk.new).size ≡ (D.state disk.old).size }
    ensures cause { HasCause (D.state disk.old) (D.state disk.new) result }
{
    write_synced(disk, SUPERBLOCK, &raised(superblock))
}

// Reads the superblock.
fn read_superblock<D: Disk>(disk: &mut D) -> Result<Super, DiskFault>
    requires { StandsForSome (D.state disk.old).seen }
    ensures found { IfOk result (IsSuperOf (D.state disk.old).seen) }
    ensures same { IsSame (D.state disk.old) (D.state disk.new) }
    ensures time { Elapses (D.state disk.old) (D.state disk.new) }
    ensures cause { HasCause (D.state disk.old) (D.state disk.new) result }
{
    let mut sector = [0; 512];
    disk.read(SUPERBLOCK, &mut sector)?;
    let Ok(superblock) = Super::read_from(&sector, 0) else {
        unreachable!()
    };
    Ok(superblock)
}

// The content of the superblock in the second version.
fn raised(superblock: Super) -> [u8; 512]
    requires { superblock.header ≡ 0 }
    ensures { result ≡ super_bytes (with_version Two superblock) }
{
    let raised = Super {
        version: Version::Two,
        ..superblock
    };
    let mut content = [0; 512];
    raised.write_to(&mut content, 0);
    content
}
