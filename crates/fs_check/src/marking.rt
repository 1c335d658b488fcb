//! Who owns which sector.

ghost use Rattle.std.specs.Prelude.{◌≡◌, ◌≢◌, ◌≤◌, ◌<◌, ◌+◌, ◌*◌, ◌^◌, ℕ, true, false, length, get_or, OnOk, IfOk, IfSome, IfNone, IsTrue, ◌↔◌, MatchOption};
ghost use Rattle.fs_layout.specs.declared.inode.TheConstants.{POINTER_LEVELS};
ghost use Rattle.fs_layout.specs.Bytes.{SectorMap};
ghost use Rattle.fs_model.specs.Rules.{ObeysEach, IsLeastFailure, InData, OwnedOnce};
ghost use Rattle.fs_check.specs.Owning.{OwnsData};
ghost use Rattle.fs_check.specs.Counts.{times_reached, times_named, times_owned, times_owned_before, AreInDataArea, HaveRoom, IsMarked, AreMarks, AddsOwners};
ghost use Rattle.fs_check.specs.Checks.{meaning, BeginsWith, AreInodes, IsOwnerMap, Passed, IsNone, IsLeast};

use crate::bit_table::BitTable;
use crate::faults::{CheckFault, Checked, Finding};
use crate::marks::Marks;
use crate::opening::Opened;
use crate::owning::{is_data, number_at};
use crate::reading::read_recovered;
use fs_layout::{DIRECT_BLOCKS, Geometry, Inode, POINTER_LEVELS, SECTOR_POINTERS};
use sector_disk::Disk;

const IN_DATA: u8 = 5;

/// The owners of sectors.
#[derive(Drop)]
pub(crate) struct Owners {
    /// For each sector, whether an inode owns it.
    pub owned: BitTable,
    /// The first sector that is owned twice.
    pub twice: Option<u32>,
}

// Marks a number of a level of sectors of pointers and all that it reaches. Not where one of these is outside the data area.
//
// What is owned twice stays so: no sector of pointers of a level is gone through more than twice.
fn mark_reached<D: Disk>(
    disk: &mut D,
    opened: &Opened,
    level: usize,
    s: u32,
    marks: &mut Marks,
) -> Checked<bool>
    requires opened { BeginsWith (D.state disk.old) opened.now.geometry opened.now.area opened.now.commit }
    requires level { level ≤ POINTER_LEVELS }
    requires marks { AreMarks opened.now.geometry (meaning (D.state disk.old)) marks.old }
    ensures test { IfOk result (λ b. IsTrue b ↔ AreInDataArea opened.now.geometry (times_reached (meaning (D.state disk.old)) level s)) }
    ensures marked { IfOk result (λ b. IsTrue b → AddsOwners opened.now.geometry (meaning (D.state disk.old))
        (times_reached (meaning (D.state disk.old)) level s) marks.old marks.new) }
    ensures passed { Passed IsNone (D.state disk.old) (D.state disk.new) result }
{
    if level == 0 {
        return Ok(marks.mark_number(opened.geometry, s));
    }
    if s == 0 {
        return Ok(true);
    }
    if !is_data(opened.geometry, s) {
        return Ok(false);
    }
    if marks.was_passed_again(level, s) {
        return Ok(true);
    }
    let before = marks.was_passed(level, s);
    marks.mark(opened.geometry, s);
    let mut content = [0; 512];
    read_recovered(disk, opened, s, &mut content)?;
    for i in 0..SECTOR_POINTERS as usize {
        if !mark_reached(disk, opened, level - 1, number_at(&content, i), marks)? {
            return Ok(false);
        }
    }
    marks.pass(opened.geometry, level, s, before);
    Ok(true)
}

// Marks the ACLs of an inode and the blocks whose numbers stand in it. Not where one of them is outside the data area.
fn mark_named(geometry: Geometry, inode: &Inode, marks: &mut Marks) -> bool
    requires room { HaveRoom geometry.sectors marks.old }
    ensures test { (m : SectorMap) → IsTrue result ↔ AreInDataArea geometry (times_named m inode.now) }
    ensures marked { IsTrue result → (m : SectorMap) → AddsOwners geometry m (times_named m inode.now) marks.old marks.new }
    ensures room { HaveRoom geometry.sectors marks.new }
{
    if !marks.mark_number(geometry, inode.acl) {
        return false;
    }
    if !marks.mark_number(geometry, inode.default_acl) {
        return false;
    }
    for i in 0..DIRECT_BLOCKS as usize {
        if !marks.mark_number(geometry, inode.direct[i]) {
            return false;
        }
    }
    true
}

// Marks what an inode owns. Not where a sector that it owns is outside the data area.
fn mark_inode<D: Disk>(
    disk: &mut D,
    opened: &Opened,
    inode: &Inode,
    marks: &mut Marks,
) -> Checked<bool>
    requires opened { BeginsWith (D.state disk.old) opened.now.geometry opened.now.area opened.now.commit }
    requires marks { AreMarks opened.now.geometry (meaning (D.state disk.old)) marks.old }
    ensures test { IfOk result (λ b. IsTrue b ↔ OwnsData opened.now.geometry (meaning (D.state disk.old)) inode.now) }
    ensures marked { IfOk result (λ b. IsTrue b → AddsOwners opened.now.geometry (meaning (D.state disk.old))
        (times_owned (meaning (D.state disk.old)) inode.now) marks.old marks.new) }
    ensures passed { Passed IsNone (D.state disk.old) (D.state disk.new) result }
{
    if !mark_named(opened.geometry, inode, marks) {
        return Ok(false);
    }
    for k in 0..POINTER_LEVELS {
        if !mark_reached(disk, opened, k + 1, inode.indirect[k], marks)? {
            return Ok(false);
        }
    }
    Ok(true)
}

// Marks what all inodes own, where each sector that one owns is in the data area.
fn mark_all<D: Disk>(
    disk: &mut D,
    opened: &Opened,
    inodes: &[Inode],
    marks: &mut Marks,
) -> Checked<()>
    requires opened { BeginsWith (D.state disk.old) opened.now.geometry opened.now.area opened.now.commit }
    requires table { AreInodes opened.now.geometry (meaning (D.state disk.old)) inodes.now }
    requires none { IsMarked opened.now.geometry (meaning (D.state disk.old)) (λ s. 0) marks.old }
    ensures each { OnOk result (ObeysEach opened.now.geometry (meaning (D.state disk.old)) InData) }
    ensures marked { OnOk result (IsMarked opened.now.geometry (meaning (D.state disk.old))
        (times_owned_before opened.now.geometry (meaning (D.state disk.old)) opened.now.geometry.inodes) marks.new) }
    ensures passed { Passed (IsLeast opened.now.geometry InData) (D.state disk.old) (D.state disk.new) result }
{
    for ino in 0..inodes.len() as u32 {
        let inode = inodes[ino as usize];
        if !mark_inode(disk, opened, &inode, marks)? {
            return Err(CheckFault::Found(Finding {
                rule: IN_DATA,
                at: ino,
            }));
        }
    }
    Ok(())
}

/// The owners of sectors, where the numbers of blocks and ACL sectors are in the data area. Each sector of pointers is read
/// once, or twice where it is owned twice.
pub(crate) fn read_owners<D: Disk>(
    disk: &mut D,
    opened: &Opened,
    inodes: &[Inode],
) -> Checked<Owners>
    requires opened { BeginsWith (D.state disk.old) opened.now.geometry opened.now.area opened.now.commit }
    requires table { AreInodes opened.now.geometry (meaning (D.state disk.old)) inodes.now }
    ensures each { OnOk result (ObeysEach opened.now.geometry (meaning (D.state disk.old)) InData) }
    ensures owners { IfOk result (λ owners. IsOwnerMap opened.now.geometry (meaning (D.state disk.old)) owners.owned) }
    ensures twice { IfOk result (λ owners. MatchOption owners.twice (ObeysEach opened.now.geometry (meaning (D.state disk.old)) OwnedOnce)
        (λ s. IsLeastFailure opened.now.geometry (meaning (D.state disk.old)) OwnedOnce s)) }
    ensures passed { Passed (IsLeast opened.now.geometry InData) (D.state disk.old) (D.state disk.new) result }
{
    let mut marks = Marks::new(opened.alloc, opened.geometry.sectors as usize)?;
    mark_all(disk, opened, inodes, &mut marks)?;
    let twice = marks.twice.first();
    Ok(Owners {
        owned: marks.owned,
        twice,
    })
}
