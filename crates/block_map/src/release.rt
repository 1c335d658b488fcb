//! Giving back what an inode has for its bytes, and freeing it with all that it owns.

ghost use Rattle.std.specs.Prelude.{◌≡◌, ◌≤◌, ◌<◌, ◌+◌, ℕ, suc, [], OnOk, ◌≢◌, false};
ghost use Rattle.fs_layout.specs.declared.inode.TheConstants.{MAX_BLOCKS, POINTER_LEVELS, SECTOR_POINTERS};
ghost use Rattle.fs_layout.specs.Images.{HasPointers, Holds, holder, inode_at, own_count, bit};
ghost use Rattle.bit_alloc.specs.Bitmaps.{HasBitmaps, IsNumber};
ghost use Rattle.bit_alloc.specs.Inodes.{IsSound, Touches};
ghost use Rattle.bit_alloc.specs.Room.{HasSpare};
ghost use Rattle.sector_txn.specs.Sectors.{SameStore};
ghost use Rattle.sector_disk.specs.Disk.{HasCause};
ghost use Rattle.block_map.specs.Contents.{AllowsSize, ChangesContent};
ghost use Rattle.block_map.specs.Drops.{GivesParts, IsAmong, IsFor, IsFrom, OwnsOnlyData, first_above};
ghost use Rattle.block_map.specs.Steps.{MayChange};
ghost use Rattle.fs_layout.specs.Inode.{free_inode};
ghost use Rattle.bit_alloc.specs.declared.bitmap.Bitmap.TheVariants.{Inodes};

use crate::blocks::{BLOCK, read_pointers};
use bit_alloc::{Bitmap, give, give_all};
use fs_layout::{DIRECT_BLOCKS, Geometry, Inode, Kind, POINTER_LEVELS, SECTOR_POINTERS, own_count};
use inode_table::{give_sector, load, write_inode};
use sector_disk::DiskFault;
use sector_txn::Sectors;

/// The first number of the level above by which only numbers of this level from `first` on are found.
pub(crate) fn next_first(level: usize, first: u64) -> u64
    ensures { result ≡ first_above level first }
{
    first
        .saturating_sub(own_count(level))
        .div_ceil(SECTOR_POINTERS)
}

// Gives back the sectors that are a level's numbers from `first` up to `end`. `content` is that of the sector of pointers in which
// those stand that don't stand in the inode.
fn give_listed<S: Sectors>(
    s: &mut S,
    geometry: Geometry,
    inode: &Inode,
    level: usize,
    content: &[u8; 512],
    first: u64,
    end: u64,
) -> Result<(), DiskFault>
    requires bitmaps { HasBitmaps geometry (S.state s.old) }
    requires inside { OwnsOnlyData geometry (S.state s.old).sectors inode.now }
    requires listed { (i : ℕ) → first ≤ i → i < end → own_count level ≤ i
        → HasPointers (S.state s.old).sectors inode.now (suc level) (holder (own_count level) i) content.now }
    requires few { (first ≤ end) × (end ≤ first + SECTOR_POINTERS) }
    requires room { HasSpare geometry 0 (S.state s.old) }
    ensures given { OnOk result (GivesParts geometry inode.now (IsAmong level first end) (S.state s.old) (S.state s.new)) }
    ensures store { SameStore (S.state s.old) (S.state s.new) }
    ensures cause { HasCause (S.state s.old).disk (S.state s.new).disk result }
{
    let count = (end - first) as usize;
    let mut numbers = [0; SECTOR_POINTERS as usize];
    for i in 0..count {
        numbers[i] = inode.number(level, content, first + i as u64);
    }
    give_all(s, geometry, Bitmap::Blocks, &numbers[..count])?;
    Ok(())
}

// Gives back the sectors that are a level's numbers from `first` on: those that stand in the inode, and those that one sector of
// pointers after the other has.
fn give_level<S: Sectors>(
    s: &mut S,
    geometry: Geometry,
    inode: &Inode,
    level: usize,
    first: u64,
) -> Result<(), DiskFault>
    requires bitmaps { HasBitmaps geometry (S.state s.old) }
    requires inside { OwnsOnlyData geometry (S.state s.old).sectors inode.now }
    requires level { level ≤ POINTER_LEVELS }
    requires few { first ≤ MAX_BLOCKS }
    requires room { HasSpare geometry 0 (S.state s.old) }
    ensures given { OnOk result (GivesParts geometry inode.now (IsFrom level first) (S.state s.old) (S.state s.new)) }
    ensures store { SameStore (S.state s.old) (S.state s.new) }
    ensures cause { HasCause (S.state s.old).disk (S.state s.new).disk result }
{
    let own = own_count(level);
    let mut content = [0; BLOCK];
    give_listed(s, geometry, inode, level, &content, first.min(own), own)?;
    for j in first.saturating_sub(own) / SECTOR_POINTERS..inode.number_end(level + 1) {
        let sector = read_pointers(s, inode, level + 1, j, &mut content)?;
        // Without it all its numbers are 0.
        if sector != 0 {
            let begin = own + SECTOR_POINTERS * j;
            let end = begin + SECTOR_POINTERS;
            give_listed(s, geometry, inode, level, &content, first.max(begin), end)?;
        }
    }
    Ok(())
}

/// Gives back the sectors of the blocks from `first` on, and the sectors of pointers by which only such blocks are found. The inode
/// still points to them.
pub(crate) fn give_from<S: Sectors>(
    s: &mut S,
    geometry: Geometry,
    inode: &Inode,
    first: u64,
) -> Result<(), DiskFault>
    requires may { MayChange geometry (S.state s.old) inode.now }
    requires few { first ≤ MAX_BLOCKS }
    requires room { HasSpare geometry 0 (S.state s.old) }
    ensures given { OnOk result (GivesParts geometry inode.now (IsFor first) (S.state s.old) (S.state s.new)) }
    ensures store { SameStore (S.state s.old) (S.state s.new) }
    ensures cause { HasCause (S.state s.old).disk (S.state s.new).disk result }
{
    let mut from = first;
    for level in 0..POINTER_LEVELS + 1 {
        give_level(s, geometry, inode, level, from)?;
        from = next_first(level, from);
    }
    Ok(())
}

/// Takes all bytes from inode `ino`, a file or a directory, and gives its blocks back. `inode` is its record, before
/// and after.
///
/// At `Err` the caller drops the changes of the transaction; of `inode` nothing is said then.
pub fn release_all<S: Sectors>(
    s: &mut S,
    geometry: Geometry,
    ino: u32,
    inode: &mut Inode,
) -> Result<(), DiskFault>
    requires sound { IsSound geometry (S.state s.old) }
    requires below { ino < geometry.inodes }
    requires inode { inode.old ≡ inode_at geometry (S.state s.old).sectors ino }
    requires kind { AllowsSize inode.old.kind 0 }
    requires spare { HasSpare geometry 1 (S.state s.old) }
    ensures change { OnOk result (ChangesContent geometry ino 0 1 (S.state s.old) (S.state s.new) inode.old inode.new) }
    ensures held { OnOk result (Holds (S.state s.new).sectors inode.new []) }
    ensures store { SameStore (S.state s.old) (S.state s.new) }
    ensures cause { HasCause (S.state s.old).disk (S.state s.new).disk result }
{
    give_from(s, geometry, inode, 0)?;
    inode.size = 0;
    inode.direct = [0; DIRECT_BLOCKS as usize];
    inode.indirect = [0; POINTER_LEVELS];
    write_inode(s, geometry, ino, inode)?;
    Ok(())
}

/// Frees inode `ino`, a file, a directory or a link, with the sectors of its blocks and of its ACLs: its 128 bytes
/// become zero, and its bit is cleared.
pub fn free_all<S: Sectors>(s: &mut S, geometry: Geometry, ino: u32) -> Result<(), DiskFault>
    requires sound { IsSound geometry (S.state s.old) }
    requires number { IsNumber geometry Inodes ino }
    requires used { (inode_at geometry (S.state s.old).sectors ino).kind ≢ Kind.Free }
    requires spare { HasSpare geometry 1 (S.state s.old) }
    ensures store { SameStore (S.state s.old) (S.state s.new) }
    ensures sound { OnOk result (IsSound geometry (S.state s.new)) }
    ensures touches { OnOk result (Touches geometry ino 0 1 (S.state s.old) (S.state s.new)) }
    ensures free { OnOk result (inode_at geometry (S.state s.new).sectors ino ≡ free_inode) }
    ensures unused { OnOk result (bit (S.state s.new).sectors geometry.inode_bitmap ino ≡ false) }
    ensures cause { HasCause (S.state s.old).disk (S.state s.new).disk result }
{
    let inode = load(s, geometry, ino)?;
    give(s, geometry, Bitmap::Inodes, ino)?;
    give_from(s, geometry, &inode, 0)?;
    give_sector(s, geometry, inode.acl)?;
    give_sector(s, geometry, inode.default_acl)?;
    write_inode(s, geometry, ino, &Inode::FREE)?;
    Ok(())
}
