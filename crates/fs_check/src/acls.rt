//! The sectors of ACLs.

ghost use Rattle.std.specs.Prelude.{◌≡◌, ◌≢◌, ◌<◌, ◌≤◌, length, map, OnOk, IfOk, MatchOption, IsTrue, IsFalse, ◌↔◌, vec_capacity};
ghost use Rattle.posix_acl.specs.Entries.{numbers_of};
ghost use Rattle.fs_model.specs.Rules.{ObeysEach, Acls, HasAcls};
ghost use Rattle.fs_check.specs.StoredAcls.{AreNoEntries, IsListed, IsAclIn, GoesWith, HasGoodAcl, HasListsInPlace};
ghost use Rattle.fs_check.specs.Checks.{meaning, BeginsWith, AreTested, Passed, IsNone, IsLeast};

use crate::faults::{CheckFault, Checked, Finding};
use crate::opening::Opened;
use crate::reading::read_recovered;
use fs_layout::{AclSector, Inode, Kind};
use posix_acl::{Acl, AclFault, Entry, EntryNumbers};
use sector_disk::Disk;
use std::alloc::{AllocError, Global};

const ACLS: u8 = 9;

// Fills a list with the entries that have these numbers. Not where one has no entry.
fn fill_entries(numbers: &[EntryNumbers], entries: &mut Vec<Entry>) -> bool
    requires none { length entries.old.items ≡ 0 }
    requires room { length numbers.now ≤ vec_capacity entries.old }
    ensures all { IsTrue result → map numbers_of entries.new.items ≡ numbers.now }
    ensures none { IsFalse result → AreNoEntries numbers.now }
{
    for one in numbers {
        let Some(entry) = Entry::from_numbers(*one) else {
            return false;
        };
        entries.push_reserved(entry);
    }
    true
}

// The entries with these numbers, where there are such.
fn entries_with(alloc: Global, numbers: &[EntryNumbers]) -> Result<Option<Vec<Entry>>, AllocError>
    ensures { IfOk result (λ o. MatchOption o (AreNoEntries numbers.now) (λ v. map numbers_of v.items ≡ numbers.now)) }
{
    let mut entries = Vec::with_capacity(alloc, numbers.len())?;
    if !fill_entries(numbers, &mut entries) {
        return Ok(None);
    }
    Ok(Some(entries))
}

// Whether these are the numbers of the entries, in their order.
fn have_numbers(entries: &[Entry], numbers: &[EntryNumbers]) -> bool
    ensures { IsTrue result ↔ map numbers_of entries.now ≡ numbers.now }
{
    if entries.len() != numbers.len() {
        return false;
    }
    for i in 0..entries.len() {
        if entries[i].numbers() != numbers[i] {
            return false;
        }
    }
    true
}

// The ACL of entries that have these numbers, where they are one's, in canonical order.
fn acl_of(
    alloc: Global,
    entries: &[Entry],
    numbers: &[EntryNumbers],
) -> Result<Option<Acl>, AllocError>
    requires { map numbers_of entries.now ≡ numbers.now }
    ensures { IfOk result (IsListed numbers.now) }
{
    let acl = match Acl::from_entries(alloc, entries) {
        Ok(acl) => acl,
        Err(fault) => match fault {
            AclFault::OutOfMemory => return Err(AllocError),
            _ => return Ok(None),
        },
    };
    if !have_numbers(acl.entries(), numbers) {
        return Ok(None);
    }
    Ok(Some(acl))
}

// The ACL with these numbers, where there is one that has them in canonical order.
fn acl_with(alloc: Global, numbers: &[EntryNumbers]) -> Result<Option<Acl>, AllocError>
    ensures { IfOk result (IsListed numbers.now) }
{
    match entries_with(alloc, numbers)? {
        Some(entries) => acl_of(alloc, &entries, numbers),
        None => Ok(None),
    }
}

// The ACL that a sector has, where it has a valid one.
fn acl_in(alloc: Global, content: &[u8; 512]) -> Result<Option<Acl>, AllocError>
    ensures { IfOk result (IsAclIn content.now) }
{
    let Ok(sector) = AclSector::read_from(content, 0) else {
        return Ok(None);
    };
    acl_with(alloc, sector.entries())
}

// Whether an ACL is one for these permission bits: an access ACL has them, and more than the base entries. For a default ACL there are none.
fn goes_with(acl: &Acl, bits: Option<u16>) -> bool
    ensures { IsTrue result ↔ GoesWith bits acl.now }
{
    match bits {
        Some(bits) => acl.is_extended() && acl.mode_bits() == bits,
        None => true,
    }
}

// Whether a sector with this content has an ACL for these permission bits.
fn is_good_acl(alloc: Global, content: &[u8; 512], bits: Option<u16>) -> Result<bool, AllocError>
    ensures { IfOk result (λ b. IsTrue b ↔ HasGoodAcl bits content.now) }
{
    match acl_in(alloc, content)? {
        Some(acl) => Ok(goes_with(&acl, bits)),
        None => Ok(false),
    }
}

// Whether the inode has no ACL that its kind mustn't have.
fn is_in_place(inode: &Inode) -> bool
    ensures { IsTrue result ↔ HasListsInPlace inode.now }
{
    if inode.kind == Kind::Link && inode.acl != 0 {
        return false;
    }
    inode.kind == Kind::Directory || inode.default_acl == 0
}

// Whether a sector has an ACL for these permission bits, if there is such a sector.
fn has_good_acl<D: Disk>(disk: &mut D, opened: &Opened, s: u32, bits: Option<u16>) -> Checked<bool>
    requires opened { BeginsWith (D.state disk.old) opened.now.geometry opened.now.area opened.now.commit }
    requires on_disk { s < (D.state disk.old).size }
    ensures test { IfOk result (λ b. IsTrue b ↔ (s ≢ 0 → HasGoodAcl bits (meaning (D.state disk.old) s))) }
    ensures passed { Passed IsNone (D.state disk.old) (D.state disk.new) result }
{
    if s == 0 {
        return Ok(true);
    }
    let mut content = [0; 512];
    read_recovered(disk, opened, s, &mut content)?;
    Ok(is_good_acl(opened.alloc, &content, bits)?)
}

// Whether the inode's ACLs are good, and none is where it mustn't be.
fn has_good_acls<D: Disk>(disk: &mut D, opened: &Opened, inode: &Inode) -> Checked<bool>
    requires opened { BeginsWith (D.state disk.old) opened.now.geometry opened.now.area opened.now.commit }
    requires access { inode.now.acl < (D.state disk.old).size }
    requires default { inode.now.default_acl < (D.state disk.old).size }
    ensures test { IfOk result (λ b. IsTrue b ↔ HasAcls (meaning (D.state disk.old)) inode.now) }
    ensures passed { Passed IsNone (D.state disk.old) (D.state disk.new) result }
{
    if !is_in_place(inode) {
        return Ok(false);
    }
    if !has_good_acl(disk, opened, inode.acl, Some(inode.mode % 512))? {
        return Ok(false);
    }
    has_good_acl(disk, opened, inode.default_acl, None)
}

/// Each sector of an ACL has a valid one, with the mode's bits, and none is where it mustn't be.
pub(crate) fn acls<D: Disk>(disk: &mut D, opened: &Opened, inodes: &[Inode]) -> Checked<()>
    requires opened { BeginsWith (D.state disk.old) opened.now.geometry opened.now.area opened.now.commit }
    requires inodes { AreTested opened.now.geometry (meaning (D.state disk.old)) 9 inodes.now }
    ensures each { OnOk result (ObeysEach opened.now.geometry (meaning (D.state disk.old)) Acls) }
    ensures passed { Passed (IsLeast opened.now.geometry Acls) (D.state disk.old) (D.state disk.new) result }
{
    for ino in 0..inodes.len() as u32 {
        if !has_good_acls(disk, opened, &inodes[ino as usize])? {
            return Err(CheckFault::Found(Finding {
                rule: ACLS,
                at: ino,
            }));
        }
    }
    Ok(())
}
