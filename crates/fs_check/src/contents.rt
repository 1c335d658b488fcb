//! What stands in blocks.

ghost use Rattle.std.specs.Prelude.{◌≡◌, ◌≢◌, ◌≤◌, ◌<◌, ◌+◌, ℕ, length, get_or, OnOk, IfOk, IsTrue, ◌↔◌};
ghost use Rattle.fs_layout.specs.declared.inode.TheConstants.{POINTER_LEVELS};
ghost use Rattle.fs_layout.specs.Bytes.{SectorMap};
ghost use Rattle.fs_layout.specs.Images.{IsTrimmed, HasNoHole};
ghost use Rattle.fs_model.specs.Nodes.{numbers_for};
ghost use Rattle.fs_model.specs.Rules.{ObeysEach, LaidOut, IsLaidOut};
ghost use Rattle.fs_check.specs.LastBlocks.{HasSize, AreNone, IsCut, FitsSize, FitsLast};
ghost use Rattle.fs_check.specs.Owning.{AreListed, AreAtHand, OwnsData};
ghost use Rattle.fs_check.specs.Checks.{meaning, BeginsWith, AreTested, Passed, IsNone, IsLeast};

use crate::faults::{CheckFault, Checked, Finding};
use crate::opening::Opened;
use crate::owning::{Pointers, top_level};
use crate::reading::{find_recovered, is_zero_past, read_recovered};
use crate::zeros::ends_in_zeros;
use fs_layout::{Inode, Kind, POINTER_LEVELS, SECTOR_POINTERS, own_count};
use sector_disk::Disk;

const LAID_OUT: u8 = 8;

// How many numbers of a level the size needs.
fn needed_numbers(inode: &Inode, level: usize) -> u64
    requires { level ≤ POINTER_LEVELS + 1 }
    ensures is { result ≡ numbers_for level inode.now.size }
    ensures few { result ≤ inode.now.size }
{
    let mut count = inode.size.div_ceil(512);
    for below in 0..level {
        count = count
            .saturating_sub(own_count(below))
            .div_ceil(SECTOR_POINTERS);
    }
    count
}

// The numbers of a level from `first` up to `end` are 0; `content` is that of the sector of pointers in which they stand, if they
// don't stand in the inode.
fn are_none(inode: &Inode, level: usize, content: &[u8; 512], first: u64, end: u64) -> bool
    ensures { (m : SectorMap) → AreListed m inode.now content.now level first end
        → IsTrue result ↔ AreNone m inode.now level first end }
{
    for i in first..end {
        if inode.number(level, content, i) != 0 {
            return false;
        }
    }
    true
}

fn has_no_zero(bytes: &[u8]) -> bool
    ensures { IsTrue result ↔ ((i : ℕ) → i < length bytes.now → get_or bytes.now i 0 ≢ 0) }
{
    bytes.iter().all(|b| *b != 0)
}

// The last block's content goes with the size.
fn fits_last(inode: &Inode, content: &[u8; 512]) -> bool
    ensures { IsTrue result ↔ FitsLast inode.now content.now }
{
    let end = (inode.size.saturating_sub(1) % 512) as usize + 1;
    if !ends_in_zeros(content, end) {
        return false;
    }
    inode.kind != Kind::Link || has_no_zero(&content[..end])
}

// The last block's content is known to go with the size, without a read. That of a link is read.
fn is_known_to_fit<D: Disk>(disk: &D, opened: &Opened, inode: &Inode, last: u32) -> bool
    requires opened { BeginsWith (D.state disk.now) opened.now.geometry opened.now.area opened.now.commit }
    requires on_disk { last < (D.state disk.now).size }
    ensures { IsTrue result → FitsLast inode.now (meaning (D.state disk.now) last) }
{
    if inode.kind == Kind::Link {
        return false;
    }
    let end = (inode.size.saturating_sub(1) % 512) as usize + 1;
    if end == 512 {
        return true;
    }
    is_zero_past(disk, opened, last, end)
}

// Of the numbers of a level that the size doesn't need, there is none in the inode, nor in the sectors of pointers that it needs: only
// the last of those has any of them.
fn is_cut<D: Disk>(
    disk: &mut D,
    opened: &Opened,
    inode: &Inode,
    level: usize,
    pointers: &mut Pointers,
) -> Checked<bool>
    requires opened { BeginsWith (D.state disk.old) opened.now.geometry opened.now.area opened.now.commit }
    requires in_data { OwnsData opened.now.geometry (meaning (D.state disk.old)) inode.now }
    requires size { HasSize inode.now }
    requires level { level ≤ POINTER_LEVELS }
    requires at_hand { AreAtHand (meaning (D.state disk.old)) pointers.old }
    ensures test { IfOk result (λ b. IsTrue b ↔ IsCut (meaning (D.state disk.old)) inode.now level) }
    ensures at_hand { OnOk result (AreAtHand (meaning (D.state disk.old)) pointers.new) }
    ensures passed { Passed IsNone (D.state disk.old) (D.state disk.new) result }
{
    let first = needed_numbers(inode, level);
    let own = own_count(level);
    if !are_none(inode, level, &pointers.contents[0], first, own) {
        return Ok(false);
    }
    let above = needed_numbers(inode, level + 1);
    if above == 0 {
        return Ok(true);
    }
    if pointers.find(disk, opened, inode, level + 1, above - 1)? == 0 {
        return Ok(true);
    }
    let end = own + SECTOR_POINTERS * above;
    Ok(are_none(inode, level, &pointers.contents[level], first, end))
}

// No number of the inode is past its size.
fn is_trimmed<D: Disk>(
    disk: &mut D,
    opened: &Opened,
    inode: &Inode,
    pointers: &mut Pointers,
) -> Checked<bool>
    requires opened { BeginsWith (D.state disk.old) opened.now.geometry opened.now.area opened.now.commit }
    requires in_data { OwnsData opened.now.geometry (meaning (D.state disk.old)) inode.now }
    requires size { HasSize inode.now }
    requires at_hand { AreAtHand (meaning (D.state disk.old)) pointers.old }
    ensures test { IfOk result (λ b. IsTrue b ↔ IsTrimmed (meaning (D.state disk.old)) inode.now) }
    ensures at_hand { OnOk result (AreAtHand (meaning (D.state disk.old)) pointers.new) }
    ensures passed { Passed IsNone (D.state disk.old) (D.state disk.new) result }
{
    for level in 0..top_level(inode) + 1 {
        if !is_cut(disk, opened, inode, level, pointers)? {
            return Ok(false);
        }
    }
    Ok(true)
}

// Each block within the size has a sector.
fn has_no_hole<D: Disk>(
    disk: &mut D,
    opened: &Opened,
    inode: &Inode,
    pointers: &mut Pointers,
) -> Checked<bool>
    requires opened { BeginsWith (D.state disk.old) opened.now.geometry opened.now.area opened.now.commit }
    requires in_data { OwnsData opened.now.geometry (meaning (D.state disk.old)) inode.now }
    requires at_hand { AreAtHand (meaning (D.state disk.old)) pointers.old }
    ensures test { IfOk result (λ b. IsTrue b ↔ HasNoHole (meaning (D.state disk.old)) inode.now) }
    ensures at_hand { OnOk result (AreAtHand (meaning (D.state disk.old)) pointers.new) }
    ensures passed { Passed IsNone (D.state disk.old) (D.state disk.new) result }
{
    for k in 0..needed_numbers(inode, 0) {
        if pointers.number(disk, opened, inode, 0, k)? == 0 {
            return Ok(false);
        }
    }
    Ok(true)
}

// The numbers of the inode go with its size. Of a file those within it may be any: it may have holes.
fn fit_numbers<D: Disk>(
    disk: &mut D,
    opened: &Opened,
    inode: &Inode,
    pointers: &mut Pointers,
) -> Checked<bool>
    requires opened { BeginsWith (D.state disk.old) opened.now.geometry opened.now.area opened.now.commit }
    requires in_data { OwnsData opened.now.geometry (meaning (D.state disk.old)) inode.now }
    requires size { HasSize inode.now }
    requires at_hand { AreAtHand (meaning (D.state disk.old)) pointers.old }
    ensures test { IfOk result (λ b. IsTrue b ↔ FitsSize (meaning (D.state disk.old)) inode.now) }
    ensures at_hand { OnOk result (AreAtHand (meaning (D.state disk.old)) pointers.new) }
    ensures passed { Passed IsNone (D.state disk.old) (D.state disk.new) result }
{
    if !is_trimmed(disk, opened, inode, pointers)? {
        return Ok(false);
    }
    if inode.kind == Kind::File {
        return Ok(true);
    }
    let whole = has_no_hole(disk, opened, inode, pointers)?;
    Ok(whole)
}

// The content of a block goes with the size of the inode whose last it is. It is read only where nothing in memory tells.
fn fits_block<D: Disk>(disk: &mut D, opened: &Opened, inode: &Inode, last: u32) -> Checked<bool>
    requires opened { BeginsWith (D.state disk.old) opened.now.geometry opened.now.area opened.now.commit }
    requires on_disk { last < (D.state disk.old).size }
    ensures test { IfOk result (λ b. IsTrue b ↔ FitsLast inode.now (meaning (D.state disk.old) last)) }
    ensures passed { Passed IsNone (D.state disk.old) (D.state disk.new) result }
{
    if is_known_to_fit(disk, opened, inode, last) {
        return Ok(true);
    }
    if let Some(content) = find_recovered(disk, opened, last) {
        return Ok(fits_last(inode, content));
    }
    let mut content = [0; 512];
    read_recovered(disk, opened, last, &mut content)?;
    Ok(fits_last(inode, &content))
}

// What the inode holds goes with its size.
fn is_laid_out<D: Disk>(
    disk: &mut D,
    opened: &Opened,
    inode: &Inode,
    pointers: &mut Pointers,
) -> Checked<bool>
    requires opened { BeginsWith (D.state disk.old) opened.now.geometry opened.now.area opened.now.commit }
    requires in_data { OwnsData opened.now.geometry (meaning (D.state disk.old)) inode.now }
    requires size { HasSize inode.now }
    requires at_hand { AreAtHand (meaning (D.state disk.old)) pointers.old }
    ensures test { IfOk result (λ b. IsTrue b ↔ IsLaidOut (meaning (D.state disk.old)) inode.now) }
    ensures at_hand { OnOk result (AreAtHand (meaning (D.state disk.old)) pointers.new) }
    ensures passed { Passed IsNone (D.state disk.old) (D.state disk.new) result }
{
    if !fit_numbers(disk, opened, inode, pointers)? {
        return Ok(false);
    }
    let k = inode.size.saturating_sub(1) / 512;
    let last = pointers.number(disk, opened, inode, 0, k)?;
    if last == 0 {
        return Ok(true);
    }
    let fits = fits_block(disk, opened, inode, last)?;
    Ok(fits)
}

/// Past the size of each inode there is nothing, only files have holes, and no link's target has a zero byte.
pub(crate) fn laid_out<D: Disk>(disk: &mut D, opened: &Opened, inodes: &[Inode]) -> Checked<()>
    requires opened { BeginsWith (D.state disk.old) opened.now.geometry opened.now.area opened.now.commit }
    requires inodes { AreTested opened.now.geometry (meaning (D.state disk.old)) 8 inodes.now }
    ensures each { OnOk result (ObeysEach opened.now.geometry (meaning (D.state disk.old)) LaidOut) }
    ensures passed { Passed (IsLeast opened.now.geometry LaidOut) (D.state disk.old) (D.state disk.new) result }
{
    let mut pointers = Pointers::new();
    for ino in 0..inodes.len() as u32 {
        if !is_laid_out(disk, opened, &inodes[ino as usize], &mut pointers)? {
            return Err(CheckFault::Found(Finding {
                rule: LAID_OUT,
                at: ino,
            }));
        }
    }
    Ok(())
}
