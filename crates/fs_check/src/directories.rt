//! The slots of all directories.

ghost use Rattle.std.specs.Prelude.{◌≡◌, ◌<◌, ◌+◌, ◌^◌, ℕ, length, get_or, OnOk, IfOk, IsTrue, ◌↔◌, All, set, MatchOption};
ghost use Rattle.fs_layout.specs.Bytes.{SectorMap};
ghost use Rattle.fs_layout.specs.Directories.{HaveDistinctNames};
ghost use Rattle.fs_model.specs.Rules.{Obeys, ObeysEach, IsLeastFailure, Slots, NamesApart};
ghost use Rattle.fs_check.specs.Naming.{AddsSlots, IsRepeated, IsNaming};
ghost use Rattle.fs_check.specs.Checks.{meaning, BeginsWith, AreTested, IsNameTable, Passed, IsNone, IsLeast};

use crate::faults::{CheckFault, Checked, Finding};
use crate::opening::Opened;
use crate::slots::{are_names_apart, read_good_slots};
use fs_layout::{Geometry, Inode, Kind, Slot};
use sector_disk::Disk;
use std::alloc::{AllocError, Global};

const SLOTS: u8 = 10;

/// What the slots of all directories name.
#[derive(Drop)]
pub(crate) struct Names {
    /// For each inode, how many slots name it.
    pub counts: Vec<u64>,
    /// For each inode, a directory that has a slot which names it, where there is one.
    pub directories: Vec<u32>,
    /// The first directory in which a name stands twice.
    pub repeated: Option<u32>,
}

impl Names {
    // No directory has named anything yet.
    fn new(alloc: Global, inodes: usize) -> Result<Names, AllocError>
        ensures { IfOk result (λ names. (p : Geometry) (m : SectorMap) → p.inodes ≡ inodes
            → IsNaming p m 0 names.counts.items names.directories.items names.repeated) }
    {
        let counts = vec![in alloc; 0; inodes]?;
        let directories = vec![in alloc; 0; inodes]?;
        Ok(Names {
            counts,
            directories,
            repeated: None,
        })
    }
}

// One more name of inode `ino`, in directory `dir_ino`.
fn add_name(ino: usize, dir_ino: u32, counts: &mut [u64], directories: &mut [u32])
    requires counts { ino < length counts.old }
    requires directories { ino < length directories.old }
    requires room { get_or counts.old ino 0 + 1 < 2 ^ 64 }
    ensures counts { counts.new ≡ set counts.old ino (get_or counts.old ino 0 + 1) }
    ensures directories { directories.new ≡ set directories.old ino dir_ino }
{
    counts[ino] += 1;
    directories[ino] = dir_ino;
}

// Adds what the slots of directory d name.
fn add_slots(slots: &[Slot], dir_ino: u32, counts: &mut [u64], directories: &mut [u32])
    requires counts { All (λ x. x.ino < length counts.old) slots.now }
    requires directories { All (λ x. x.ino < length directories.old) slots.now }
    requires room { (n : ℕ) → n < length counts.old → get_or counts.old n 0 + length slots.now < 2 ^ 64 }
    ensures { AddsSlots dir_ino slots.now counts.old directories.old counts.new directories.new }
{
    for slot in slots {
        add_name(slot.ino() as usize, dir_ino, counts, directories);
    }
}

// The first directory in which a name stands twice, where d with these slots is the next.
fn first_repeated(first: Option<u32>, dir_ino: u32, slots: &mut [Slot]) -> Option<u32>
    ensures { (p : Geometry) (m : SectorMap) → IsRepeated p m dir_ino first → (HaveDistinctNames slots.old ↔ Obeys p m NamesApart dir_ino)
        → IsRepeated p m (dir_ino + 1) result }
{
    if first.is_some() {
        return first;
    }
    if are_names_apart(slots) {
        return None;
    }
    Some(dir_ino)
}

// Adds inode d, where it is a directory; not where one of its slots names no inode that it may.
fn add_directory<D: Disk>(
    disk: &mut D,
    opened: &Opened,
    inodes: &[Inode],
    dir_ino: u32,
    names: &mut Names,
) -> Checked<bool>
    requires opened { BeginsWith (D.state disk.old) opened.now.geometry opened.now.area opened.now.commit }
    requires inodes { AreTested opened.now.geometry (meaning (D.state disk.old)) 10 inodes.now }
    requires below { dir_ino < length inodes.now }
    requires names { IsNaming opened.now.geometry (meaning (D.state disk.old)) dir_ino
        names.old.counts.items names.old.directories.items names.old.repeated }
    ensures test { IfOk result (λ b. IsTrue b ↔ Obeys opened.now.geometry (meaning (D.state disk.old)) Slots dir_ino) }
    ensures names { IfOk result (λ b. IsTrue b
        → IsNaming opened.now.geometry (meaning (D.state disk.old)) (dir_ino + 1) names.new.counts.items names.new.directories.items names.new.repeated) }
    ensures passed { Passed IsNone (D.state disk.old) (D.state disk.new) result }
{
    let inode = inodes[dir_ino as usize];
    if inode.kind != Kind::Directory {
        return Ok(true);
    }
    let Some(mut slots) = read_good_slots(disk, opened, inodes, &inode)? else {
        return Ok(false);
    };
    add_slots(&slots, dir_ino, &mut names.counts, &mut names.directories);
    names.repeated = first_repeated(names.repeated, dir_ino, &mut slots);
    Ok(true)
}

// Adds all directories.
fn add_directories<D: Disk>(
    disk: &mut D,
    opened: &Opened,
    inodes: &[Inode],
    names: &mut Names,
) -> Checked<()>
    requires opened { BeginsWith (D.state disk.old) opened.now.geometry opened.now.area opened.now.commit }
    requires inodes { AreTested opened.now.geometry (meaning (D.state disk.old)) 10 inodes.now }
    requires none { IsNaming opened.now.geometry (meaning (D.state disk.old)) 0
        names.old.counts.items names.old.directories.items names.old.repeated }
    ensures each { OnOk result (ObeysEach opened.now.geometry (meaning (D.state disk.old)) Slots) }
    ensures names { OnOk result (IsNaming opened.now.geometry (meaning (D.state disk.old)) opened.now.geometry.inodes
        names.new.counts.items names.new.directories.items names.new.repeated) }
    ensures passed { Passed (IsLeast opened.now.geometry Slots) (D.state disk.old) (D.state disk.new) result }
{
    for dir_ino in 0..inodes.len() as u32 {
        if !add_directory(disk, opened, inodes, dir_ino, names)? {
            return Err(CheckFault::Found(Finding {
                rule: SLOTS,
                at: dir_ino,
            }));
        }
    }
    Ok(())
}

/// What the slots of all directories name, where each is valid and its inode is in use and isn't the root. Each sector of a
/// directory is read once.
pub(crate) fn read_names<D: Disk>(disk: &mut D, opened: &Opened, inodes: &[Inode]) -> Checked<Names>
    requires opened { BeginsWith (D.state disk.old) opened.now.geometry opened.now.area opened.now.commit }
    requires inodes { AreTested opened.now.geometry (meaning (D.state disk.old)) 10 inodes.now }
    ensures each { OnOk result (ObeysEach opened.now.geometry (meaning (D.state disk.old)) Slots) }
    ensures names { IfOk result (λ names.
        IsNameTable opened.now.geometry (meaning (D.state disk.old)) names.counts.items names.directories.items) }
    ensures repeated { IfOk result (λ names. MatchOption names.repeated
        (ObeysEach opened.now.geometry (meaning (D.state disk.old)) NamesApart)
        (λ d. IsLeastFailure opened.now.geometry (meaning (D.state disk.old)) NamesApart d)) }
    ensures passed { Passed (IsLeast opened.now.geometry Slots) (D.state disk.old) (D.state disk.new) result }
{
    let mut names = Names::new(opened.alloc, opened.geometry.inodes as usize)?;
    add_directories(disk, opened, inodes, &mut names)?;
    Ok(names)
}
