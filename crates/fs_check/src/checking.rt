//! A check: the rules in their order, and what a clean disk has.

ghost use Rattle.std.specs.Prelude.{◌≡◌, Ok, Err, OnOk, IfOk, MatchOption, MatchResult};
ghost use Rattle.fs_layout.specs.Bytes.{SectorMap};
ghost use Rattle.fs_model.specs.Rules.{ObeysBefore};
ghost use Rattle.fs_check.specs.declared.faults.CheckFault.TheVariants.{Found};
ghost use Rattle.fs_check.specs.Checks.{meaning, BeginsWith, AreInodes, AreTested, IsOwnerMap, IsNameTable, HaveSizes, IsFailureOf, Passed, IsFirst, IsClean};

use crate::acls::acls;
use crate::bit_table::BitTable;
use crate::bitmaps::{block_bits, inode_bits};
use crate::contents::laid_out;
use crate::directories::{Names, read_names};
use crate::faults::{CheckFault, Checked, Finding, Summary};
use crate::inodes::read_inodes;
use crate::marking::read_owners;
use crate::names::{miscounted, misplaced};
use crate::opening::{Opened, open_commit, open_geometry};
use crate::summary::summary;
use crate::ways::unreached;
use fs_layout::{Geometry, Inode};
use sector_disk::Disk;
use std::alloc::Global;

const OWNED_ONCE: u8 = 6;

const NAMES_APART: u8 = 11;

const NAMES: u8 = 12;

const PARENTS: u8 = 13;

const WAYS: u8 = 14;

// The inode bitmap and the inode table.
fn check_tables<D: Disk>(disk: &mut D, opened: &Opened) -> Checked<Vec<Inode>>
    requires opened { BeginsWith (D.state disk.old) opened.now.geometry opened.now.area opened.now.commit }
    requires before { ObeysBefore opened.now.geometry (meaning (D.state disk.old)) 3 }
    ensures table { IfOk result (λ inodes. AreInodes opened.now.geometry (meaning (D.state disk.old)) inodes.items) }
    ensures before { OnOk result (ObeysBefore opened.now.geometry (meaning (D.state disk.old)) 5) }
    ensures passed { Passed IsFirst (D.state disk.old) (D.state disk.new) result }
{
    inode_bits(disk, opened)?;
    read_inodes(disk, opened)
}

// What inodes own, and the block bitmap.
fn check_owners<D: Disk>(disk: &mut D, opened: &Opened, inodes: &[Inode]) -> Checked<BitTable>
    requires opened { BeginsWith (D.state disk.old) opened.now.geometry opened.now.area opened.now.commit }
    requires inodes { AreTested opened.now.geometry (meaning (D.state disk.old)) 5 inodes.now }
    ensures owners { IfOk result (λ owned. IsOwnerMap opened.now.geometry (meaning (D.state disk.old)) owned) }
    ensures before { OnOk result (ObeysBefore opened.now.geometry (meaning (D.state disk.old)) 8) }
    ensures passed { Passed IsFirst (D.state disk.old) (D.state disk.new) result }
{
    let owners = read_owners(disk, opened, inodes)?;
    found_at(OWNED_ONCE, owners.twice)?;
    block_bits(disk, opened, &owners.owned)?;
    Ok(owners.owned)
}

// What stands in blocks and ACL sectors.
fn check_contents<D: Disk>(disk: &mut D, opened: &Opened, inodes: &[Inode]) -> Checked<()>
    requires opened { BeginsWith (D.state disk.old) opened.now.geometry opened.now.area opened.now.commit }
    requires inodes { AreTested opened.now.geometry (meaning (D.state disk.old)) 8 inodes.now }
    ensures before { OnOk result (ObeysBefore opened.now.geometry (meaning (D.state disk.old)) 10) }
    ensures passed { Passed IsFirst (D.state disk.old) (D.state disk.new) result }
{
    laid_out(disk, opened, inodes)?;
    acls(disk, opened, inodes)
}

// The names in directories.
fn check_names<D: Disk>(disk: &mut D, opened: &Opened, inodes: &[Inode]) -> Checked<Names>
    requires opened { BeginsWith (D.state disk.old) opened.now.geometry opened.now.area opened.now.commit }
    requires inodes { AreTested opened.now.geometry (meaning (D.state disk.old)) 10 inodes.now }
    ensures names { IfOk result (λ names.
        IsNameTable opened.now.geometry (meaning (D.state disk.old)) names.counts.items names.directories.items) }
    ensures before { OnOk result (ObeysBefore opened.now.geometry (meaning (D.state disk.old)) 12) }
    ensures passed { Passed IsFirst (D.state disk.old) (D.state disk.new) result }
{
    let names = read_names(disk, opened, inodes)?;
    found_at(NAMES_APART, names.repeated)?;
    Ok(names)
}

// Nothing where no number fails a rule, else the finding.
fn found_at(rule: u8, first: Option<u32>) -> Checked<()>
    ensures { MatchOption first (result ≡ Ok tt) (λ n. result ≡ Err (Found (record { rule = rule; at = n }))) }
{
    match first {
        Some(at) => Err(CheckFault::Found(Finding { rule, at })),
        None => Ok(()),
    }
}

// What the tables say: how often each inode is named, parents, and the ways up to the root.
fn check_tree(alloc: Global, geometry: Geometry, inodes: &[Inode], names: &Names) -> Checked<()>
    requires { HaveSizes geometry inodes.now names.now.counts.items names.now.directories.items }
    ensures { (m : SectorMap) → AreInodes geometry m inodes.now → IsNameTable geometry m names.now.counts.items names.now.directories.items
        → ObeysBefore geometry m 12 → MatchResult result (λ _. ObeysBefore geometry m 15) (IsFailureOf geometry m) }
{
    found_at(NAMES, miscounted(geometry, inodes, names))?;
    found_at(PARENTS, misplaced(geometry, inodes, names))?;
    found_at(WAYS, unreached(alloc, geometry, inodes)?)
}

// All that inodes hold.
fn check_inodes<D: Disk>(disk: &mut D, opened: &Opened, inodes: &[Inode]) -> Checked<BitTable>
    requires opened { BeginsWith (D.state disk.old) opened.now.geometry opened.now.area opened.now.commit }
    requires inodes { AreTested opened.now.geometry (meaning (D.state disk.old)) 5 inodes.now }
    ensures owners { IfOk result (λ owned. IsOwnerMap opened.now.geometry (meaning (D.state disk.old)) owned) }
    ensures before { OnOk result (ObeysBefore opened.now.geometry (meaning (D.state disk.old)) 15) }
    ensures passed { Passed IsFirst (D.state disk.old) (D.state disk.new) result }
{
    let owned = check_owners(disk, opened, inodes)?;
    check_contents(disk, opened, inodes)?;
    let names = check_names(disk, opened, inodes)?;
    check_tree(opened.alloc, opened.geometry, inodes, &names)?;
    Ok(owned)
}

/// Whether the disk stands for a tree, and what that has; else the first rule that fails, at its least number. A sealed
/// commit counts as if its sectors were written. Nothing is written.
pub fn check<D: Disk>(alloc: Global, disk: &mut D) -> Result<Summary, CheckFault>
    ensures clean { IfOk result (IsClean (D.state disk.old)) }
    ensures passed { Passed IsFirst (D.state disk.old) (D.state disk.new) result }
{
    let geometry = open_geometry(disk)?;
    let (area, commit) = open_commit(disk, geometry)?;
    let opened = Opened {
        alloc,
        geometry,
        area,
        commit,
    };
    let inodes = check_tables(disk, &opened)?;
    let owned = check_inodes(disk, &opened, &inodes)?;
    Ok(summary(&opened, &inodes, &owned))
}
