//! The slots of one directory.

ghost use Rattle.std.specs.Prelude.{◌≡◌, ◌≢◌, ◌≤◌, ◌<◌, ◌+◌, ◌/◌, ◌%◌, ℕ, length, get_or, OnOk, IfOk, IsTrue, ◌↔◌, MatchOption, All, vec_capacity};
ghost use Rattle.std.specs.List.Sorted.{IsPermutation, IsSortedBy};
ghost use Rattle.fs_layout.specs.declared.inode.TheConstants.{MAX_DIRECTORY_SIZE};
ghost use Rattle.fs_layout.specs.declared.inode.Inode.{Inode as AnInode};
ghost use Rattle.fs_layout.specs.Bytes.{SectorMap};
ghost use Rattle.fs_layout.specs.Version.{block_slots};
ghost use Rattle.fs_layout.specs.Images.{IsData, Owns};
ghost use Rattle.fs_layout.specs.Directories.{NamedInode, HaveDistinctNames, slot_count};
ghost use Rattle.fs_check.specs.Owning.{AreAtHand};
ghost use Rattle.fs_check.specs.Naming.{block_of_slot, AreValid, IsSlotIn, AreSlots, IsUsable, HasGoodSlots, is_below};
ghost use Rattle.fs_check.specs.Checks.{meaning, BeginsWith, AreInodes, Passed, IsNone};

use crate::faults::Checked;
use crate::opening::Opened;
use crate::owning::Pointers;
use crate::reading::read_recovered;
use fs_layout::{Inode, Kind, ROOT, Slot, Version};
use sector_disk::Disk;

// Reads the block of slot k, unless the slot before it stands there too.
fn read_block_of<D: Disk>(
    disk: &mut D,
    opened: &Opened,
    inode: &Inode,
    pointers: &mut Pointers,
    k: usize,
    block: &mut [u8; 512],
) -> Checked<()>
    requires opened { BeginsWith (D.state disk.old) opened.now.geometry opened.now.area opened.now.commit }
    requires in_data { (s : ℕ) → Owns (meaning (D.state disk.old)) inode.now s → IsData opened.now.geometry s }
    requires at_hand { AreAtHand (meaning (D.state disk.old)) pointers.old }
    requires before { k % block_slots opened.now.geometry.version ≢ 0
        → block.old ≡ block_of_slot opened.now.geometry.version (meaning (D.state disk.old)) inode.now k }
    ensures at_hand { OnOk result (AreAtHand (meaning (D.state disk.old)) pointers.new) }
    ensures content { OnOk result (block.new ≡ block_of_slot opened.now.geometry.version (meaning (D.state disk.old)) inode.now k) }
    ensures passed { Passed IsNone (D.state disk.old) (D.state disk.new) result }
{
    let block_slots = opened.geometry.version.block_slots();
    if k % block_slots != 0 {
        return Ok(());
    }
    let at = (k / block_slots) as u64;
    let s = pointers.number(disk, opened, inode, 0, at)?;
    read_recovered(disk, opened, s, block)?;
    Ok(())
}

// Slot k of a directory, which stands in this block, where it is valid.
fn slot_in(version: Version, block: &[u8; 512], k: usize) -> Option<Slot>
    ensures { (m : SectorMap) (v : AnInode) → block.now ≡ block_of_slot version m v k → IsSlotIn version m v k result }
{
    let at = version.slot_size() * (k % version.block_slots());
    match Slot::read_in(version, block, at) {
        Ok(slot) => Some(slot),
        Err(_) => None,
    }
}

// Fills a list with the slots of a directory, of which there are so many. Not where one isn't valid.
fn fill_slots<D: Disk>(
    disk: &mut D,
    opened: &Opened,
    inode: &Inode,
    count: usize,
    slots: &mut Vec<Slot>,
) -> Checked<bool>
    requires opened { BeginsWith (D.state disk.old) opened.now.geometry opened.now.area opened.now.commit }
    requires in_data { (s : ℕ) → Owns (meaning (D.state disk.old)) inode.now s → IsData opened.now.geometry s }
    requires count { count ≡ slot_count opened.now.geometry.version inode.now }
    requires none { length slots.old.items ≡ 0 }
    requires room { count ≤ vec_capacity slots.old }
    ensures test { IfOk result (λ b. IsTrue b ↔ AreValid opened.now.geometry.version (meaning (D.state disk.old)) inode.now) }
    ensures slots { IfOk result (λ b. IsTrue b
        → AreSlots opened.now.geometry.version (meaning (D.state disk.old)) inode.now slots.new.items) }
    ensures passed { Passed IsNone (D.state disk.old) (D.state disk.new) result }
{
    let version = opened.geometry.version;
    let mut pointers = Pointers::new();
    let mut block = [0; 512];
    for k in 0..count {
        read_block_of(disk, opened, inode, &mut pointers, k, &mut block)?;
        let Some(slot) = slot_in(version, &block, k) else {
            return Ok(false);
        };
        slots.push_reserved(slot);
    }
    Ok(true)
}

// The slots of a directory, where each is valid.
fn read_slots<D: Disk>(disk: &mut D, opened: &Opened, inode: &Inode) -> Checked<Option<Vec<Slot>>>
    requires opened { BeginsWith (D.state disk.old) opened.now.geometry opened.now.area opened.now.commit }
    requires in_data { (s : ℕ) → Owns (meaning (D.state disk.old)) inode.now s → IsData opened.now.geometry s }
    requires size { inode.now.size ≤ MAX_DIRECTORY_SIZE }
    ensures slots { IfOk result (λ o. MatchOption o (AreValid opened.now.geometry.version (meaning (D.state disk.old)) inode.now → ⊥)
        (λ slots. AreSlots opened.now.geometry.version (meaning (D.state disk.old)) inode.now slots.items)) }
    ensures passed { Passed IsNone (D.state disk.old) (D.state disk.new) result }
{
    let count = inode.size as usize / opened.geometry.version.slot_size();
    let mut slots = Vec::with_capacity(opened.alloc, count)?;
    if !fill_slots(disk, opened, inode, count, &mut slots)? {
        return Ok(None);
    }
    Ok(Some(slots))
}

// The slot's inode is in use and isn't the root.
fn is_usable(inodes: &[Inode], slot: &Slot) -> bool
    ensures { IsTrue result ↔ IsUsable inodes.now slot.now }
{
    let ino = slot.ino();
    if inodes.len() <= ino as usize {
        return false;
    }
    ino != ROOT && inodes[ino as usize].kind != Kind::Free
}

fn are_usable(inodes: &[Inode], slots: &[Slot]) -> bool
    ensures { IsTrue result ↔ All (IsUsable inodes.now) slots.now }
{
    for slot in slots {
        if !is_usable(inodes, slot) {
            return false;
        }
    }
    true
}

/// The slots of a directory, where each is valid and names an inode that is in use and isn't the root.
pub(crate) fn read_good_slots<D: Disk>(
    disk: &mut D,
    opened: &Opened,
    inodes: &[Inode],
    inode: &Inode,
) -> Checked<Option<Vec<Slot>>>
    requires opened { BeginsWith (D.state disk.old) opened.now.geometry opened.now.area opened.now.commit }
    requires table { AreInodes opened.now.geometry (meaning (D.state disk.old)) inodes.now }
    requires in_data { (s : ℕ) → Owns (meaning (D.state disk.old)) inode.now s → IsData opened.now.geometry s }
    requires size { inode.now.size ≤ MAX_DIRECTORY_SIZE }
    ensures slots { IfOk result (λ o. MatchOption o (HasGoodSlots opened.now.geometry (meaning (D.state disk.old)) inode.now → ⊥)
        (λ slots. HasGoodSlots opened.now.geometry (meaning (D.state disk.old)) inode.now
        × AreSlots opened.now.geometry.version (meaning (D.state disk.old)) inode.now slots.items)) }
    ensures passed { Passed IsNone (D.state disk.old) (D.state disk.new) result }
{
    let Some(slots) = read_slots(disk, opened, inode)? else {
        return Ok(None);
    };
    if !are_usable(inodes, &slots) {
        return Ok(None);
    }
    Ok(Some(slots))
}

// Brings slots into the bytewise order of their names.
fn sort_by_name(slots: &mut [Slot])
    ensures permutation { IsPermutation slots.old slots.new }
    ensures sorted { IsSortedBy is_below slots.new }
{
    slots.sort_unstable_by(|a, b| a.name().cmp(b.name()));
}

// No two neighbours have one name.
fn are_neighbours_apart(slots: &[Slot]) -> bool
    ensures { IsTrue result ↔ ((k : ℕ) (d : NamedInode) → k + 1 < length slots.now
        → (get_or slots.now k d).name ≢ (get_or slots.now (k + 1) d).name) }
{
    for k in 1..slots.len() {
        if slots[k - 1].name() == slots[k].name() {
            return false;
        }
    }
    true
}

/// No two of the slots have one name. It sorts them.
pub(crate) fn are_names_apart(slots: &mut [Slot]) -> bool
    ensures { IsTrue result ↔ HaveDistinctNames slots.old }
{
    sort_by_name(slots);
    are_neighbours_apart(slots)
}
