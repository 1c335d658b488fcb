//! Inodes of the table and their ACLs, whose sectors are taken and given back.

ghost use Rattle.std.specs.Prelude.{◌≡◌, ◌≢◌, ◌<◌, List, Option, Some, None, OnOk, IfOk, IfErr, ◌≤◌, ◌+◌, ◌/◌, ◌⊎◌, ℕ, [], true, false, Err, IsTrue};
ghost use Rattle.fs_layout.specs.Images.{IsData, free_sectors, HasWholeTables, Holds, bit, inode_at};
ghost use Rattle.bit_alloc.specs.Bitmaps.{HasBitmaps, IsNumber, IsFreeNumber, free_numbers};
ghost use Rattle.bit_alloc.specs.Room.{bitmaps, HasSpare, TakesSpare};
ghost use Rattle.sector_txn.specs.Sectors.{SameStore, PutsOnly, IsUnchanged};
ghost use Rattle.sector_disk.specs.Disk.{HasCause};
ghost use Rattle.bit_alloc.specs.Faults.{HasCauseOf};
ghost use Rattle.inode_table.specs.Storing.{IsForAcl, GivesBack, Stores, takes_for, IsForSaving};
ghost use Rattle.std.specs.Option.{option_copied};
ghost use Rattle.fs_layout.specs.Header.{log_end};
ghost use Rattle.fs_layout.specs.Geometry.{IsGeometry};
ghost use Rattle.fs_layout.specs.Inode.{FitsInode, free_inode};
ghost use Rattle.fs_layout.specs.InodeTimes.{DiffersInTimes};
ghost use Rattle.fs_layout.specs.InodeChanges.{Saves};
ghost use Rattle.bit_alloc.specs.declared.bitmap.Bitmap.TheVariants.{Inodes};
ghost use Rattle.bit_alloc.specs.Inodes.{Touches, KeepsFields, KeepsBytes, KeepsAcls, IsBlank, IsSound, KeepsAccess, KeepsDefault};
ghost use Rattle.inode_table.specs.Acls.{HasAcl, HasDefaultAcl, with_acl_bits, acls_take, acl_takes};
ghost use Rattle.inode_table.specs.Inodes.{DiffersInAttributes, ClearAreFree, IsInodeOf};
ghost use Rattle.posix_acl.specs.AccessList.{AccessList, IsAcl};
ghost use Rattle.fs_layout.specs.AclSector.{acl_content, kept_acl};

use crate::faults::LoadAclFault;
use crate::sectors::{acl_of, content_of, kept_content, with_bits};
use bit_alloc::{Bitmap, TakeFault, give, take};
use fs_layout::{Geometry, Inode, Kind};
use posix_acl::Acl;
use sector_disk::DiskFault;
use sector_txn::Sectors;
use std::alloc::Global;

/// Gives a sector of the data back, if there is one: 0 is none.
pub fn give_sector<S: Sectors>(s: &mut S, geometry: Geometry, sector: u32) -> Result<(), DiskFault>
    requires bitmaps { HasBitmaps geometry (S.state s.old) }
    requires owned { sector ≢ 0 → IsData geometry sector }
    requires room { HasSpare geometry 0 (S.state s.old) }
    ensures given { OnOk result (GivesBack geometry sector (S.state s.old).sectors (S.state s.new).sectors) }
    ensures puts { OnOk result (PutsOnly (IsForAcl geometry 0) (bitmaps geometry) 0 (S.state s.old) (S.state s.new)) }
    ensures bitmaps { OnOk result (HasBitmaps geometry (S.state s.new)) }
    ensures store { SameStore (S.state s.old) (S.state s.new) }
    ensures cause { HasCause (S.state s.old).disk (S.state s.new).disk result }
{
    if sector == 0 {
        return Ok(());
    }
    give(s, geometry, Bitmap::Blocks, sector)?;
    Ok(())
}

// Stores content in a sector: in the one that is there, or where it is 0 in one that it takes. Without content it gives
// the sector back, and answers 0.
fn store<S: Sectors>(
    s: &mut S,
    geometry: Geometry,
    sector: u32,
    content: Option<[u8; 512]>,
) -> Result<u32, TakeFault>
    requires bitmaps { HasBitmaps geometry (S.state s.old) }
    requires owned { sector ≢ 0 → IsData geometry sector }
    requires room { HasSpare geometry 1 (S.state s.old) }
    ensures stored { IfOk result (λ to. Stores geometry sector to content (S.state s.old).sectors (S.state s.new).sectors) }
    ensures puts { IfOk result (λ to. PutsOnly (IsForAcl geometry to) (bitmaps geometry) 1 (S.state s.old) (S.state s.new)) }
    ensures none { IfOk result (λ to. to ≡ 0 → TakesSpare geometry 0 (S.state s.old) (S.state s.new)) }
    ensures bitmaps { OnOk result (HasBitmaps geometry (S.state s.new)) }
    ensures store { SameStore (S.state s.old) (S.state s.new) }
    ensures full { IfErr result (λ e. e ≡ TakeFault.Full → free_sectors geometry (S.state s.old).sectors < takes_for sector content) }
    ensures cause { HasCauseOf TakeFault.DiskFault (S.state s.old).disk (S.state s.new).disk result }
{
    let Some(content) = content else {
        give_sector(s, geometry, sector)?;
        return Ok(0);
    };
    if sector != 0 {
        s.put(sector, &content);
        return Ok(sector);
    }
    let to = take(s, geometry, Bitmap::Blocks, 0)?;
    s.put(to, &content);
    Ok(to)
}

/// Reads inode `ino`.
pub fn load<S: Sectors>(s: &mut S, geometry: Geometry, ino: u32) -> Result<Inode, DiskFault>
    requires sound { IsSound geometry (S.state s.old) }
    requires below { ino < geometry.inodes }
    ensures found { IfOk result (λ v. v ≡ inode_at geometry (S.state s.old).sectors ino) }
    ensures fits { IfOk result FitsInode }
    ensures same { IsUnchanged (S.state s.old) (S.state s.new) }
    ensures cause { HasCause (S.state s.old).disk (S.state s.new).disk result }
{
    let at = geometry.inode_offset(ino);
    let inode = s.read_with(
        geometry.inode_sector(ino),
        |content| Inode::read_valid(content, at),
    )?;
    Ok(inode)
}

/// Reads inode `ino`, and the content of its sector.
pub fn load_with_content<S: Sectors>(
    s: &mut S,
    geometry: Geometry,
    ino: u32,
    content: &mut [u8; 512],
) -> Result<Inode, DiskFault>
    requires sound { IsSound geometry (S.state s.old) }
    requires below { ino < geometry.inodes }
    ensures found { IfOk result (λ v. v ≡ inode_at geometry (S.state s.old).sectors ino) }
    ensures fits { IfOk result FitsInode }
    ensures content { OnOk result (content.new ≡ (S.state s.old).sectors (geometry.table + ino / 4)) }
    ensures same { IsUnchanged (S.state s.old) (S.state s.new) }
    ensures cause { HasCause (S.state s.old).disk (S.state s.new).disk result }
{
    s.get(geometry.inode_sector(ino), content)?;
    Ok(Inode::read_valid(content, geometry.inode_offset(ino)))
}

/// Writes inode `ino` into the table, whatever it was. The image need not be consistent, as where sectors of the inode
/// have changed and the inode hasn't yet.
pub fn write_inode<S: Sectors>(
    s: &mut S,
    geometry: Geometry,
    ino: u32,
    inode: &Inode,
) -> Result<(), DiskFault>
    requires geometry { IsGeometry geometry }
    requires on_disk { geometry.sectors ≤ (S.state s.old).disk.size }
    requires header { log_end (S.state s.old).header ≤ geometry.inode_bitmap }
    requires tables { HasWholeTables geometry (S.state s.old).sectors }
    requires below { ino < geometry.inodes }
    requires fits { FitsInode inode.now }
    requires room { (S.state s.old).has_put (geometry.table + ino / 4) ≡ false → 0 < (S.state s.old).room }
    ensures saved { OnOk result (Saves geometry ino inode.now (S.state s.old).sectors (S.state s.new).sectors) }
    ensures puts { OnOk result (PutsOnly (λ t. t ≡ geometry.table + ino / 4) [] 1 (S.state s.old) (S.state s.new)) }
    ensures store { SameStore (S.state s.old) (S.state s.new) }
    ensures cause { HasCause (S.state s.old).disk (S.state s.new).disk result }
{
    let at = geometry.inode_sector(ino);
    let mut content = [0; 512];
    s.get(at, &mut content)?;
    inode.write_to(&mut content, geometry.inode_offset(ino));
    s.put(at, &content);
    Ok(())
}

/// Saves inode `ino` with other attributes: mode, owner, group, count of names, parent.
pub fn save<S: Sectors>(
    s: &mut S,
    geometry: Geometry,
    ino: u32,
    inode: &Inode,
) -> Result<(), DiskFault>
    requires sound { IsSound geometry (S.state s.old) }
    requires below { ino < geometry.inodes }
    requires attributes { DiffersInAttributes (inode_at geometry (S.state s.old).sectors ino) inode.now }
    requires fits { FitsInode inode.now }
    requires spare { HasSpare geometry 1 (S.state s.old) }
    ensures store { SameStore (S.state s.old) (S.state s.new) }
    ensures sound { OnOk result (IsSound geometry (S.state s.new)) }
    ensures touches { OnOk result (Touches geometry ino 0 1 (S.state s.old) (S.state s.new)) }
    ensures saved { OnOk result (inode_at geometry (S.state s.new).sectors ino ≡ inode.now) }
    ensures bytes { OnOk result (KeepsBytes (S.state s.old).sectors (S.state s.new).sectors
        (inode_at geometry (S.state s.old).sectors ino) (inode_at geometry (S.state s.new).sectors ino)) }
    ensures acls { OnOk result (KeepsAcls (S.state s.old).sectors (S.state s.new).sectors
        (inode_at geometry (S.state s.old).sectors ino) (inode_at geometry (S.state s.new).sectors ino)) }
    ensures used { OnOk result (bit (S.state s.new).sectors geometry.inode_bitmap ino
        ≡ bit (S.state s.old).sectors geometry.inode_bitmap ino) }
    ensures cause { HasCause (S.state s.old).disk (S.state s.new).disk result }
{
    write_inode(s, geometry, ino, inode)?;
    Ok(())
}

/// Saves inode `ino` with other times. The content is that of its sector, and becomes what that has then.
pub fn save_times<S: Sectors>(
    s: &mut S,
    geometry: Geometry,
    ino: u32,
    inode: &Inode,
    content: &mut [u8; 512],
)
    requires sound { IsSound geometry (S.state s.old) }
    requires below { ino < geometry.inodes }
    requires times { DiffersInTimes (inode_at geometry (S.state s.old).sectors ino) inode.now }
    requires fits { FitsInode inode.now }
    requires spare { HasSpare geometry 1 (S.state s.old) }
    requires content { content.old ≡ (S.state s.old).sectors (geometry.table + ino / 4) }
    ensures store { SameStore (S.state s.old) (S.state s.new) }
    ensures sound { IsSound geometry (S.state s.new) }
    ensures touches { Touches geometry ino 0 1 (S.state s.old) (S.state s.new) }
    ensures saved { inode_at geometry (S.state s.new).sectors ino ≡ inode.now }
    ensures bytes { KeepsBytes (S.state s.old).sectors (S.state s.new).sectors
        (inode_at geometry (S.state s.old).sectors ino) (inode_at geometry (S.state s.new).sectors ino) }
    ensures acls { KeepsAcls (S.state s.old).sectors (S.state s.new).sectors
        (inode_at geometry (S.state s.old).sectors ino) (inode_at geometry (S.state s.new).sectors ino) }
    ensures used { bit (S.state s.new).sectors geometry.inode_bitmap ino ≡ bit (S.state s.old).sectors geometry.inode_bitmap ino }
{
    inode.write_times(content, geometry.inode_offset(ino));
    s.put(geometry.inode_sector(ino), content);
}

/// Makes an inode, a file or a directory, which holds nothing: a free one gets the fields and takes the sectors that its
/// ACLs need. It is the lowest one, which no clause says. The bits of the access ACL become the mode's low nine. A link
/// can't be made so, since it is never empty.
pub fn new_inode<S: Sectors>(
    s: &mut S,
    geometry: Geometry,
    inode: &Inode,
    access: &Acl,
    default: Option<&Acl>,
) -> Result<u32, TakeFault>
    requires sound { IsSound geometry (S.state s.old) }
    requires clear { ClearAreFree geometry (S.state s.old).sectors }
    requires blank { IsBlank inode.now }
    requires fits { FitsInode inode.now }
    requires spare { HasSpare geometry 3 (S.state s.old) }
    ensures store { SameStore (S.state s.old) (S.state s.new) }
    ensures sound { OnOk result (IsSound geometry (S.state s.new)) }
    ensures free { IfOk result (IsFreeNumber geometry Inodes (S.state s.old).sectors) }
    ensures used { IfOk result (λ n. IsTrue (bit (S.state s.new).sectors geometry.inode_bitmap n)) }
    ensures touches { IfOk result (λ n. Touches geometry n (acls_take access.now (option_copied default.entry)) 3
        (S.state s.old) (S.state s.new)) }
    ensures fields { IfOk result (λ n. KeepsFields (with_acl_bits inode.now access.now) (inode_at geometry (S.state s.new).sectors n)) }
    ensures empty { IfOk result (λ n. Holds (S.state s.new).sectors (inode_at geometry (S.state s.new).sectors n) []) }
    ensures access { IfOk result (λ n. HasAcl (S.state s.new).sectors (inode_at geometry (S.state s.new).sectors n) access.now) }
    ensures default { IfOk result (λ n. HasDefaultAcl (S.state s.new).sectors (inode_at geometry (S.state s.new).sectors n)
        (option_copied default.entry)) }
    ensures full { IfErr result (λ e. e ≡ TakeFault.Full → (free_numbers geometry Inodes (S.state s.old).sectors ≡ 0)
        ⊎ (free_sectors geometry (S.state s.old).sectors < acls_take access.now (option_copied default.entry))) }
    ensures cause { HasCauseOf TakeFault.DiskFault (S.state s.old).disk (S.state s.new).disk result }
{
    let ino = take(s, geometry, Bitmap::Inodes, 0)?;
    let acl = store(s, geometry, 0, kept_content(access))?;
    let default_acl = store(s, geometry, 0, content_of(default))?;
    let made = Inode {
        mode: with_bits(inode.mode, access),
        acl,
        default_acl,
        ..*inode
    };
    write_inode(s, geometry, ino, &made)?;
    Ok(ino)
}

/// Frees inode `ino`, which holds no bytes any more, with the sectors of its ACLs: its 128 bytes become zero, and its
/// bit is cleared.
pub fn free_inode<S: Sectors>(s: &mut S, geometry: Geometry, ino: u32) -> Result<(), DiskFault>
    requires sound { IsSound geometry (S.state s.old) }
    requires number { IsNumber geometry Inodes ino }
    requires empty { Holds (S.state s.old).sectors (inode_at geometry (S.state s.old).sectors ino) [] }
    requires spare { HasSpare geometry 1 (S.state s.old) }
    ensures store { SameStore (S.state s.old) (S.state s.new) }
    ensures sound { OnOk result (IsSound geometry (S.state s.new)) }
    ensures touches { OnOk result (Touches geometry ino 0 1 (S.state s.old) (S.state s.new)) }
    ensures puts { OnOk result (PutsOnly (IsForSaving geometry ino 0) (bitmaps geometry) 1 (S.state s.old) (S.state s.new)) }
    ensures free { OnOk result (inode_at geometry (S.state s.new).sectors ino ≡ free_inode) }
    ensures unused { OnOk result (bit (S.state s.new).sectors geometry.inode_bitmap ino ≡ false) }
    ensures cause { HasCause (S.state s.old).disk (S.state s.new).disk result }
{
    let inode = load(s, geometry, ino)?;
    give(s, geometry, Bitmap::Inodes, ino)?;
    give_sector(s, geometry, inode.acl)?;
    give_sector(s, geometry, inode.default_acl)?;
    write_inode(s, geometry, ino, &Inode::FREE)?;
    Ok(())
}

// Reads the ACL that a sector has.
fn read_acl<S: Sectors>(alloc: Global, s: &mut S, sector: u32) -> Result<Acl, LoadAclFault>
    requires within { (log_end (S.state s.old).header ≤ sector) × (sector < (S.state s.old).disk.size) }
    requires has { (a : AccessList) × IsAcl a × ((S.state s.old).sectors sector ≡ acl_content a) }
    ensures found { IfOk result (λ acl. (a : AccessList) → IsAcl a → (S.state s.old).sectors sector ≡ acl_content a → acl ≡ a) }
    ensures same { IsUnchanged (S.state s.old) (S.state s.new) }
    ensures cause { HasCauseOf LoadAclFault.DiskFault (S.state s.old).disk (S.state s.new).disk result }
{
    let mut content = [0; 512];
    let Ok(()) = s.get(sector, &mut content) else {
        return Err(LoadAclFault::DiskFault);
    };
    match acl_of(alloc, &content) {
        Ok(acl) => Ok(acl),
        Err(_) => Err(LoadAclFault::OutOfMemory),
    }
}

/// Reads the access ACL of an inode of the table, a file or a directory. Without a sector it is the three base entries
/// of the mode.
pub fn load_acl<S: Sectors>(
    alloc: Global,
    s: &mut S,
    geometry: Geometry,
    inode: &Inode,
) -> Result<Acl, LoadAclFault>
    requires sound { IsSound geometry (S.state s.old) }
    requires there { IsInodeOf geometry (S.state s.old).sectors inode.now }
    requires has { (a : AccessList) × HasAcl (S.state s.old).sectors inode.now a }
    ensures found { IfOk result (λ acl. (a : AccessList) → HasAcl (S.state s.old).sectors inode.now a → acl ≡ a) }
    ensures same { IsUnchanged (S.state s.old) (S.state s.new) }
    ensures cause { HasCauseOf LoadAclFault.DiskFault (S.state s.old).disk (S.state s.new).disk result }
{
    if inode.acl == 0 {
        return match Acl::from_mode(alloc, inode.mode) {
            Ok(acl) => Ok(acl),
            Err(_) => Err(LoadAclFault::OutOfMemory),
        };
    }
    let acl = read_acl(alloc, s, inode.acl)?;
    Ok(acl)
}

/// Reads the default ACL of an inode of the table, where it has one.
pub fn load_default_acl<S: Sectors>(
    alloc: Global,
    s: &mut S,
    geometry: Geometry,
    inode: &Inode,
) -> Result<Option<Acl>, LoadAclFault>
    requires sound { IsSound geometry (S.state s.old) }
    requires there { IsInodeOf geometry (S.state s.old).sectors inode.now }
    requires has { (a : Option AccessList) × HasDefaultAcl (S.state s.old).sectors inode.now a }
    ensures found { IfOk result (λ acl. (a : Option AccessList) → HasDefaultAcl (S.state s.old).sectors inode.now a → acl ≡ a) }
    ensures same { IsUnchanged (S.state s.old) (S.state s.new) }
    ensures cause { HasCauseOf LoadAclFault.DiskFault (S.state s.old).disk (S.state s.new).disk result }
{
    if inode.default_acl == 0 {
        return Ok(None);
    }
    let acl = read_acl(alloc, s, inode.default_acl)?;
    Ok(Some(acl))
}

/// Saves inode `ino`, a file or a directory, with other attributes and this access ACL, whose bits become the mode's low
/// nine. An ACL that is no more than mode bits has no sector; another one has the sector that is there, or takes one.
pub fn save_acl<S: Sectors>(
    s: &mut S,
    geometry: Geometry,
    ino: u32,
    inode: &Inode,
    acl: &Acl,
) -> Result<(), TakeFault>
    requires sound { IsSound geometry (S.state s.old) }
    requires below { ino < geometry.inodes }
    requires attributes { DiffersInAttributes (inode_at geometry (S.state s.old).sectors ino) inode.now }
    requires fits { FitsInode inode.now }
    requires used { inode.now.kind ≢ Kind.Free }
    requires no_link { inode.now.kind ≢ Kind.Link }
    requires spare { HasSpare geometry 2 (S.state s.old) }
    ensures store { SameStore (S.state s.old) (S.state s.new) }
    ensures sound { OnOk result (IsSound geometry (S.state s.new)) }
    ensures touches { OnOk result (Touches geometry ino (acl_takes inode.now.acl (kept_acl acl.now)) 2 (S.state s.old) (S.state s.new)) }
    ensures puts { OnOk result (PutsOnly (IsForSaving geometry ino (inode_at geometry (S.state s.new).sectors ino).acl) (bitmaps geometry) 2
        (S.state s.old) (S.state s.new)) }
    ensures none { OnOk result ((inode_at geometry (S.state s.new).sectors ino).acl ≡ 0
        → TakesSpare geometry 1 (S.state s.old) (S.state s.new)) }
    ensures fields { OnOk result (KeepsFields (with_acl_bits inode.now acl.now) (inode_at geometry (S.state s.new).sectors ino)) }
    ensures bytes { OnOk result (KeepsBytes (S.state s.old).sectors (S.state s.new).sectors
        (inode_at geometry (S.state s.old).sectors ino) (inode_at geometry (S.state s.new).sectors ino)) }
    ensures access { OnOk result (HasAcl (S.state s.new).sectors (inode_at geometry (S.state s.new).sectors ino) acl.now) }
    ensures default { OnOk result (KeepsDefault (S.state s.old).sectors (S.state s.new).sectors
        (inode_at geometry (S.state s.old).sectors ino) (inode_at geometry (S.state s.new).sectors ino)) }
    ensures used { OnOk result (bit (S.state s.new).sectors geometry.inode_bitmap ino
        ≡ bit (S.state s.old).sectors geometry.inode_bitmap ino) }
    ensures full { IfErr result (λ e. e ≡ TakeFault.Full
        → free_sectors geometry (S.state s.old).sectors < acl_takes inode.now.acl (kept_acl acl.now)) }
    ensures cause { HasCauseOf TakeFault.DiskFault (S.state s.old).disk (S.state s.new).disk result }
{
    let sector = store(s, geometry, inode.acl, kept_content(acl))?;
    let saved = Inode {
        mode: with_bits(inode.mode, acl),
        acl: sector,
        ..*inode
    };
    write_inode(s, geometry, ino, &saved)?;
    Ok(())
}

/// Saves inode `ino` with other attributes and this default ACL, or none. An ACL has the sector that is there, or takes
/// one; without one the sector is given back.
pub fn save_default_acl<S: Sectors>(
    s: &mut S,
    geometry: Geometry,
    ino: u32,
    inode: &Inode,
    acl: Option<&Acl>,
) -> Result<(), TakeFault>
    requires sound { IsSound geometry (S.state s.old) }
    requires below { ino < geometry.inodes }
    requires attributes { DiffersInAttributes (inode_at geometry (S.state s.old).sectors ino) inode.now }
    requires fits { FitsInode inode.now }
    requires used { inode.now.kind ≢ Kind.Free }
    requires spare { HasSpare geometry 2 (S.state s.old) }
    ensures store { SameStore (S.state s.old) (S.state s.new) }
    ensures sound { OnOk result (IsSound geometry (S.state s.new)) }
    ensures touches { OnOk result (Touches geometry ino (acl_takes inode.now.default_acl (option_copied acl.entry)) 2
        (S.state s.old) (S.state s.new)) }
    ensures puts { OnOk result (PutsOnly (IsForSaving geometry ino (inode_at geometry (S.state s.new).sectors ino).default_acl)
        (bitmaps geometry) 2 (S.state s.old) (S.state s.new)) }
    ensures none { OnOk result ((inode_at geometry (S.state s.new).sectors ino).default_acl ≡ 0
        → TakesSpare geometry 1 (S.state s.old) (S.state s.new)) }
    ensures fields { OnOk result (KeepsFields inode.now (inode_at geometry (S.state s.new).sectors ino)) }
    ensures bytes { OnOk result (KeepsBytes (S.state s.old).sectors (S.state s.new).sectors
        (inode_at geometry (S.state s.old).sectors ino) (inode_at geometry (S.state s.new).sectors ino)) }
    ensures access { OnOk result (KeepsAccess (S.state s.old).sectors (S.state s.new).sectors
        (inode_at geometry (S.state s.old).sectors ino) (inode_at geometry (S.state s.new).sectors ino)) }
    ensures default { OnOk result (HasDefaultAcl (S.state s.new).sectors (inode_at geometry (S.state s.new).sectors ino)
        (option_copied acl.entry)) }
    ensures used { OnOk result (bit (S.state s.new).sectors geometry.inode_bitmap ino
        ≡ bit (S.state s.old).sectors geometry.inode_bitmap ino) }
    ensures full { IfErr result (λ e. e ≡ TakeFault.Full
        → free_sectors geometry (S.state s.old).sectors < acl_takes inode.now.default_acl (option_copied acl.entry)) }
    ensures cause { HasCauseOf TakeFault.DiskFault (S.state s.old).disk (S.state s.new).disk result }
{
    let sector = store(s, geometry, inode.default_acl, content_of(acl))?;
    let saved = Inode {
        default_acl: sector,
        ..*inode
    };
    write_inode(s, geometry, ino, &saved)?;
    Ok(())
}
