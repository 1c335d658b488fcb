//! The inode table.

ghost use Rattle.std.specs.Prelude.{◌≡◌, ◌≢◌, ◌≤◌, ◌+◌, ◌*◌, ◌%◌, IsTrue, ◌↔◌, OnOk, IfOk, IfSome, IfNone, Ok, ℕ, suc, ◌<◌, length, vec_capacity, get_or};
ghost use Rattle.fs_layout.specs.declared.geometry.Geometry.{Geometry};
ghost use Rattle.fs_layout.specs.declared.inode.Inode.{Inode as AnInode};
ghost use Rattle.fs_layout.specs.declared.inode.Kind.TheVariants.{Free, Directory};
ghost use Rattle.fs_layout.specs.declared.inode.TheConstants.{DOUBLE_INDIRECT_END};
ghost use Rattle.fs_layout.specs.Bytes.{SectorMap, window};
ghost use Rattle.fs_layout.specs.Images.{first_block};
ghost use Rattle.fs_layout.specs.Inode.{free_inode, inode_of};
ghost use Rattle.fs_layout.specs.Version.{max_directory_size, slot_size};
ghost use Rattle.fs_model.specs.Nodes.{no_stamps};
ghost use Rattle.fs_model.specs.Rules.{IsAllowed, ObeysEach, Inodes};
ghost use Rattle.fs_model.specs.StoredStamps.{stamps_in};
ghost use Rattle.fs_check.specs.Checks.{meaning, BeginsWith, AreInodes, Passed, IsNone, IsLeast};
ghost use Rattle.fs_check.specs.TableSectors.{IsTableSector, AreFree, AreInodesBefore};

use crate::faults::{CheckFault, Checked, Finding};
use crate::opening::Opened;
use crate::reading::{find_recovered, read_recovered};
use crate::zeros::{are_zero, ends_in_zeros};
use fs_layout::{
    DIRECT_BLOCKS, DOUBLE_INDIRECT_END, INDIRECT_END, INODE_SIZE, Inode, Kind, Version,
};
use sector_disk::Disk;

const INODES: u8 = 4;

// A directory may have so many bytes.
fn is_directory_size(version: Version, size: u64) -> bool
    ensures { IsTrue result ↔ (size ≤ max_directory_size version) × (size % slot_size version ≡ 0) }
{
    size <= version.max_directory_size() && size % version.slot_size() as u64 == 0
}

// None of the inode's times is known.
#[tactic(auto, unfolding(fs_model::specs::StoredStamps::stamps_in))]
fn has_no_times(inode: &Inode) -> bool
    ensures { IsTrue result ↔ (stamps_in inode.now ≡ no_stamps) }
{
    inode.mtime == 0 && inode.ctime == 0 && inode.atime == 0
}

// A sector of pointers by which no block before `first` is found may have this number, where a file has so many bytes at most.
fn may_be_named(number: u32, first: u64, most: u64) -> bool
    requires { first ≤ DOUBLE_INDIRECT_END }
    ensures { IsTrue result ↔ (most ≤ 512 * first → number ≡ 0) }
{
    number == 0 || 512 * first < most
}

// The inode names no sector of pointers by which only blocks past so many bytes are found.
fn names_none_past(inode: &Inode, most: u64) -> bool
    ensures { IsTrue result ↔ ((level : ℕ) → most ≤ 512 * first_block (suc level) 0 → get_or inode.now.indirect level 0 ≡ 0) }
{
    if !may_be_named(inode.indirect[0], DIRECT_BLOCKS, most) {
        return false;
    }
    if !may_be_named(inode.indirect[1], INDIRECT_END, most) {
        return false;
    }
    may_be_named(inode.indirect[2], DOUBLE_INDIRECT_END, most)
}

// The inode is one of a disk of this version.
fn is_allowed(inode: &Inode, version: Version) -> bool
    ensures { IsTrue result ↔ IsAllowed version inode.now }
{
    let most = version.max_file_size();
    if inode.kind == Kind::File && most < inode.size {
        return false;
    }
    if inode.kind == Kind::Directory && !is_directory_size(version, inode.size) {
        return false;
    }
    if !version.keeps_times() && !has_no_times(inode) {
        return false;
    }
    names_none_past(inode, most)
}

// The bytes of an inode, which begin here, are all zero: it is free.
fn is_blank(content: &[u8; 512], at: usize) -> bool
    requires { at + INODE_SIZE ≤ 512 }
    ensures { IsTrue result → inode_of (window content.now at INODE_SIZE) ≡ Ok free_inode }
{
    content[at] == 0 && are_zero(&content[at..at + INODE_SIZE])
}

// Inode n of its table sector, where it is a good one of a disk of this version.
fn good_inode(content: &[u8; 512], ino: u32, version: Version) -> Option<Inode>
    ensures is { IfSome result (λ v. inode_of (window content.now (INODE_SIZE * (ino % 4)) INODE_SIZE) ≡ Ok v) }
    ensures blank { IfSome result (λ v. v.kind ≡ Free → v ≡ free_inode) }
    ensures allowed { IfSome result (λ v. IsAllowed version v) }
    ensures free { IfSome result (λ v. ino ≡ 0 → v.kind ≡ Free) }
    ensures top { IfSome result (λ v. ino ≡ 1 → v.kind ≡ Directory) }
    ensures none { IfNone result ((v : AnInode) → inode_of (window content.now (INODE_SIZE * (ino % 4)) INODE_SIZE) ≡ Ok v
        → IsAllowed version v → (ino ≡ 0 → v.kind ≡ Free) → (ino ≡ 1 → v.kind ≡ Directory) → ⊥) }
{
    let at = INODE_SIZE * (ino as usize % 4);
    if ino != 1 && is_blank(content, at) {
        return Some(Inode::FREE);
    }
    let Ok(inode) = Inode::read_any(content, at) else {
        return None;
    };
    if !is_allowed(&inode, version) {
        return None;
    }
    if ino == 0 && inode.kind != Kind::Free {
        return None;
    }
    if ino == 1 && inode.kind != Kind::Directory {
        return None;
    }
    Some(inode)
}

// The sector of the inode table that inode `ino` stands in, if there is such an inode: `table` has it, and is read again
// only where n is the sector's first.
pub(crate) fn read_table<D: Disk>(
    disk: &mut D,
    opened: &Opened,
    ino: u32,
    table: &mut [u8; 512],
) -> Checked<()>
    requires opened { BeginsWith (D.state disk.old) opened.now.geometry opened.now.area opened.now.commit }
    requires kept { ino % 4 ≢ 0 → IsTableSector opened.now.geometry (meaning (D.state disk.old)) ino table.old }
    ensures table { OnOk result (IsTableSector opened.now.geometry (meaning (D.state disk.old)) ino table.new) }
    ensures passed { Passed IsNone (D.state disk.old) (D.state disk.new) result }
{
    if ino % 4 != 0 {
        return Ok(());
    }
    let geometry = opened.geometry;
    if geometry.inodes <= ino {
        return Ok(());
    }
    read_recovered(disk, opened, geometry.inode_sector(ino), table)?;
    Ok(())
}

// Puts inode `ino` behind those before it, unless it is free: no free one is kept behind the last that is in use.
fn keep_inode(inodes: &mut Vec<Inode>, ino: u32, inode: Inode)
    requires before { length inodes.old.items ≤ ino }
    requires room { ino < vec_capacity inodes.old }
    requires free { inode.kind ≡ Free → inode ≡ free_inode }
    ensures few { length inodes.new.items ≤ ino + 1 }
    ensures earlier { (k : ℕ) → k < ino → get_or inodes.new.items k free_inode ≡ get_or inodes.old.items k free_inode }
    ensures there { get_or inodes.new.items ino free_inode ≡ inode }
    ensures room { vec_capacity inodes.new ≡ vec_capacity inodes.old }
{
    if inode.kind == Kind::Free {
        return;
    }
    for _k in inodes.len()..ino as usize {
        inodes.push_reserved(Inode::FREE);
    }
    inodes.push_reserved(inode);
}

// The content of a sector of the table is zeros: but for the first, such a one has free inodes alone.
fn is_blank_sector(content: &[u8; 512]) -> bool
    ensures { IsTrue result → (p : Geometry) (m : SectorMap) (k : ℕ) → k ≢ 0 → content.now ≡ m (p.table + k) → AreFree p m k }
{
    ends_in_zeros(content, 0)
}

// Sector k of the table stands in memory and is zeros, and isn't the first: its inodes are free.
fn is_free_sector<D: Disk>(disk: &D, opened: &Opened, k: u32) -> bool
    requires opened { BeginsWith (D.state disk.now) opened.now.geometry opened.now.area opened.now.commit }
    requires there { 4 * k < opened.now.geometry.inodes }
    ensures { IsTrue result → AreFree opened.now.geometry (meaning (D.state disk.now)) k }
{
    if k == 0 {
        return false;
    }
    match find_recovered(disk, opened, opened.geometry.table + k) {
        Some(content) => is_blank_sector(content),
        None => false,
    }
}

// Puts the inodes of sector k of the table behind those before it.
fn read_sector<D: Disk>(
    disk: &mut D,
    opened: &Opened,
    k: u32,
    inodes: &mut Vec<Inode>,
) -> Checked<()>
    requires opened { BeginsWith (D.state disk.old) opened.now.geometry opened.now.area opened.now.commit }
    requires there { 4 * k < opened.now.geometry.inodes }
    requires before { AreInodesBefore opened.now.geometry (meaning (D.state disk.old)) (4 * k) inodes.old.items }
    requires room { opened.now.geometry.inodes ≤ vec_capacity inodes.old }
    ensures before { OnOk result (AreInodesBefore opened.now.geometry (meaning (D.state disk.old)) (4 * (k + 1)) inodes.new.items) }
    ensures room { OnOk result (opened.now.geometry.inodes ≤ vec_capacity inodes.new) }
    ensures passed { Passed (IsLeast opened.now.geometry Inodes) (D.state disk.old) (D.state disk.new) result }
{
    let first = 4 * k;
    let mut table = [0; 512];
    for ino in first..first + (opened.geometry.inodes - first).min(4) {
        read_table(disk, opened, ino, &mut table)?;
        match good_inode(&table, ino, opened.geometry.version) {
            Some(inode) => keep_inode(inodes, ino, inode),
            None => {
                return Err(CheckFault::Found(Finding {
                    rule: INODES,
                    at: ino,
                }));
            }
        }
    }
    Ok(())
}

/// The inodes, up to the last that is in use.
pub(crate) fn read_inodes<D: Disk>(disk: &mut D, opened: &Opened) -> Checked<Vec<Inode>>
    requires opened { BeginsWith (D.state disk.old) opened.now.geometry opened.now.area opened.now.commit }
    ensures each { OnOk result (ObeysEach opened.now.geometry (meaning (D.state disk.old)) Inodes) }
    ensures table { IfOk result (λ inodes. AreInodes opened.now.geometry (meaning (D.state disk.old)) inodes.items) }
    ensures passed { Passed (IsLeast opened.now.geometry Inodes) (D.state disk.old) (D.state disk.new) result }
{
    let mut inodes = Vec::with_capacity(opened.alloc, opened.geometry.inodes as usize)?;
    for k in 0..opened.geometry.inodes.div_ceil(4) {
        if is_free_sector(disk, opened, k) {
            continue;
        }
        read_sector(disk, opened, k, &mut inodes)?;
    }
    Ok(inodes)
}
