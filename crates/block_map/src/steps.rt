//! Steps of a change: what an inode owns changes, its sectors of pointers too, and the inode isn't saved yet.

ghost use Rattle.std.specs.Prelude.{◌≡◌, ◌≢◌, ◌≤◌, ◌<◌, ◌+◌, ◌*◌, [], length, false, Err, IfOk, IfErr, OnOk, ◌-◌, suc, ◌∷◌};
ghost use Rattle.fs_layout.specs.declared.inode.TheConstants.{DIRECT_BLOCKS, MAX_BLOCKS, POINTER_LEVELS};
ghost use Rattle.fs_layout.specs.Bytes.{IsSector, splice, zeros};
ghost use Rattle.fs_layout.specs.Header.{log_end};
ghost use Rattle.fs_layout.specs.Images.{holder, number_on, pointer, free_sectors, first_block, level_end};
ghost use Rattle.fs_layout.specs.InodeChanges.{Puts};
ghost use Rattle.bit_alloc.specs.Bitmaps.{HasBitmaps};
ghost use Rattle.bit_alloc.specs.Room.{HasSpare};
ghost use Rattle.sector_txn.specs.Sectors.{SameStore, PutsOnly};
ghost use Rattle.sector_disk.specs.Disk.{HasCause};
ghost use Rattle.bit_alloc.specs.Faults.{HasCauseOf};
ghost use Rattle.block_map.specs.Blocks.{IsAtHand, IsLoaded};
ghost use Rattle.block_map.specs.Steps.{MayChange, HasRoomFor, TakesSector, WritesBlock, pointers_to, AddsSector, AddsNumbers, AddsPointers, lacks_pointers, pointer_sectors, most_for, sectors_to};
ghost use Rattle.fs_layout.specs.Lacking.{lacks_from};

use crate::MapFault;
use crate::blocks::{BLOCK, Blocks, read_pointers, write_pointer};
use bit_alloc::{Bitmap, TakeFault, take};
use fs_layout::{DIRECT_BLOCKS, Geometry, SECTOR_POINTERS};
use sector_disk::DiskFault;
use sector_txn::Sectors;

/// Writes bytes into a sector, from `at` on. One that is written whole is not read before.
pub(crate) fn rewrite<S: Sectors>(
    s: &mut S,
    number: u32,
    at: usize,
    bytes: &[u8],
) -> Result<(), DiskFault>
    requires part { log_end (S.state s.old).header ≤ number }
    requires on_disk { number < (S.state s.old).disk.size }
    requires fits { at + length bytes.now ≤ 512 }
    requires whole { IsSector ((S.state s.old).sectors number) }
    requires room { (S.state s.old).has_put number ≡ false → 0 < (S.state s.old).room }
    ensures written { OnOk result (Puts number (splice ((S.state s.old).sectors number) at bytes.now)
        (S.state s.old).sectors (S.state s.new).sectors) }
    ensures puts { OnOk result (PutsOnly (λ n. n ≡ number) [] 1 (S.state s.old) (S.state s.new)) }
    ensures store { SameStore (S.state s.old) (S.state s.new) }
    ensures cause { HasCause (S.state s.old).disk (S.state s.new).disk result }
{
    if let Some(whole) = bytes.as_array() {
        s.put(number, whole);
        return Ok(());
    }
    let mut block = [0; BLOCK];
    s.get(number, &mut block)?;
    (&mut block[at..at + bytes.len()]).copy_from_slice(bytes);
    s.put(number, &block);
    Ok(())
}

/// Takes a sector, sought near this number, and writes this into it.
pub(crate) fn take_sector<S: Sectors>(
    s: &mut S,
    geometry: Geometry,
    near: u32,
    content: &[u8; 512],
) -> Result<u32, TakeFault>
    requires bitmaps { HasBitmaps geometry (S.state s.old) }
    requires room { HasSpare geometry 1 (S.state s.old) }
    ensures taken { IfOk result (TakesSector geometry content.now (S.state s.old) (S.state s.new)) }
    ensures full { IfErr result (λ e. e ≡ TakeFault.Full → free_sectors geometry (S.state s.old).sectors ≡ 0) }
    ensures store { SameStore (S.state s.old) (S.state s.new) }
    ensures cause { HasCauseOf TakeFault.DiskFault (S.state s.old).disk (S.state s.new).disk result }
{
    let number = take(s, geometry, Bitmap::Blocks, near)?;
    s.put(number, content);
    Ok(number)
}

// Takes a sector, sought near this number, and writes bytes into it, from `at` on, with zeros before and after them.
fn take_block<S: Sectors>(
    s: &mut S,
    geometry: Geometry,
    near: u32,
    at: usize,
    bytes: &[u8],
) -> Result<u32, TakeFault>
    requires bitmaps { HasBitmaps geometry (S.state s.old) }
    requires fits { at + length bytes.now ≤ 512 }
    requires room { HasSpare geometry 1 (S.state s.old) }
    ensures taken { IfOk result (TakesSector geometry (splice (zeros 512) at bytes.now) (S.state s.old) (S.state s.new)) }
    ensures full { IfErr result (λ e. e ≡ TakeFault.Full → free_sectors geometry (S.state s.old).sectors ≡ 0) }
    ensures store { SameStore (S.state s.old) (S.state s.new) }
    ensures cause { HasCauseOf TakeFault.DiskFault (S.state s.old).disk (S.state s.new).disk result }
{
    // A whole block is written from its place.
    if let Some(whole) = bytes.as_array() {
        let number = take_sector(s, geometry, near, whole)?;
        return Ok(number);
    }
    let mut content = [0; BLOCK];
    (&mut content[at..at + bytes.len()]).copy_from_slice(bytes);
    let number = take_sector(s, geometry, near, &content)?;
    Ok(number)
}

/// Writes bytes into block k, from `at` on, whose sector of pointers is at hand. A hole takes a sector.
pub(crate) fn write_loaded<S: Sectors>(
    s: &mut S,
    geometry: Geometry,
    blocks: &mut Blocks,
    k: u64,
    at: usize,
    bytes: &[u8],
) -> Result<(), MapFault>
    requires may { MayChange geometry (S.state s.old) blocks.old.inode }
    requires loaded { IsLoaded (S.state s.old).sectors blocks.old k }
    requires pointers { DIRECT_BLOCKS ≤ k → number_on (S.state s.old).sectors blocks.old.inode 1 (holder DIRECT_BLOCKS k) ≢ 0 }
    requires fits { (at + length bytes.now ≤ 512) × (512 * k + at + length bytes.now ≤ blocks.old.inode.size) }
    requires inside { 512 * k < blocks.old.inode.size }
    requires room { HasRoomFor geometry (pointers_to (S.state s.old).sectors blocks.old.inode k) 1 (S.state s.old) }
    ensures written { OnOk result (WritesBlock geometry k at bytes.now (S.state s.old) (S.state s.new) blocks.old.inode blocks.new.inode) }
    ensures at_hand { OnOk result (IsAtHand (S.state s.new).sectors blocks.new) }
    ensures full { result ≡ Err MapFault.Full
        → (pointer (S.state s.old).sectors blocks.old.inode k ≡ 0) × (free_sectors geometry (S.state s.old).sectors ≡ 0) }
    ensures small { result ≢ Err MapFault.TooBig }
    ensures store { SameStore (S.state s.old) (S.state s.new) }
    ensures cause { HasCauseOf MapFault.DiskFault (S.state s.old).disk (S.state s.new).disk result }
{
    let number = blocks.number(k);
    if number != 0 {
        rewrite(s, number, at, bytes)?;
        return Ok(());
    }
    let number = take_block(s, geometry, blocks.near, at, bytes)?;
    blocks.near = number;
    if k < DIRECT_BLOCKS {
        blocks.inode.direct[k as usize] = number;
    } else {
        blocks.put_pointer(s, k, number);
    }
    Ok(())
}

// Takes the first sector of pointers of a level, which the inode names, unless it is there.
fn add_named<S: Sectors>(
    s: &mut S,
    geometry: Geometry,
    blocks: &mut Blocks,
    level: usize,
) -> Result<(), MapFault>
    requires may { MayChange geometry (S.state s.old) blocks.old.inode }
    requires at_hand { IsAtHand (S.state s.old).sectors blocks.old }
    requires level { (1 ≤ level) × (level ≤ POINTER_LEVELS) }
    requires inside { 512 * first_block level 0 < blocks.old.inode.size }
    requires room { HasSpare geometry 1 (S.state s.old) }
    ensures added { OnOk result (AddsSector geometry [] level 0 (S.state s.old) (S.state s.new) blocks.old.inode blocks.new.inode) }
    ensures at_hand { OnOk result (IsAtHand (S.state s.new).sectors blocks.new) }
    ensures full { result ≡ Err MapFault.Full
        → (number_on (S.state s.old).sectors blocks.old.inode level 0 ≡ 0) × (free_sectors geometry (S.state s.old).sectors ≡ 0) }
    ensures small { result ≢ Err MapFault.TooBig }
    ensures store { SameStore (S.state s.old) (S.state s.new) }
    ensures cause { HasCauseOf MapFault.DiskFault (S.state s.old).disk (S.state s.new).disk result }
{
    if blocks.inode.indirect[level - 1] != 0 {
        return Ok(());
    }
    let number = take_sector(s, geometry, blocks.near, &[0; BLOCK])?;
    blocks.inode.indirect[level - 1] = number;
    blocks.was_taken(level, 0, number);
    Ok(())
}

// Takes a sector of pointers that is number `i` of a level, which stands in the sector `above`. `content` is what that holds.
fn list_sector<S: Sectors>(
    s: &mut S,
    geometry: Geometry,
    blocks: &mut Blocks,
    level: usize,
    i: u64,
    above: u32,
    content: &mut [u8; 512],
) -> Result<(), MapFault>
    requires may { MayChange geometry (S.state s.old) blocks.old.inode }
    requires at_hand { IsAtHand (S.state s.old).sectors blocks.old }
    requires number { (1 ≤ level) × (level ≤ POINTER_LEVELS) × (1 ≤ i) }
    requires above { (above ≡ number_on (S.state s.old).sectors blocks.old.inode (suc level) (holder 1 i)) × (above ≢ 0) }
    requires content { content.old ≡ (S.state s.old).sectors above }
    requires none { number_on (S.state s.old).sectors blocks.old.inode level i ≡ 0 }
    requires inside { 512 * first_block level i < blocks.old.inode.size }
    requires room { HasRoomFor geometry (above ∷ []) 1 (S.state s.old) }
    ensures added { OnOk result (AddsSector geometry (above ∷ []) level i (S.state s.old) (S.state s.new)
        blocks.old.inode blocks.new.inode) }
    ensures at_hand { OnOk result (IsAtHand (S.state s.new).sectors blocks.new) }
    ensures full { result ≡ Err MapFault.Full → free_sectors geometry (S.state s.old).sectors ≡ 0 }
    ensures small { result ≢ Err MapFault.TooBig }
    ensures store { SameStore (S.state s.old) (S.state s.new) }
    ensures cause { HasCauseOf MapFault.DiskFault (S.state s.old).disk (S.state s.new).disk result }
{
    let number = take_sector(s, geometry, blocks.near, &[0; BLOCK])?;
    write_pointer(content, ((i - 1) % SECTOR_POINTERS) as usize, number);
    s.put(above, content);
    blocks.was_taken(level, i, number);
    Ok(())
}

// Takes a sector of pointers that is number `i` of a level, which stands in a sector of the level above, unless it is there.
fn add_listed<S: Sectors>(
    s: &mut S,
    geometry: Geometry,
    blocks: &mut Blocks,
    level: usize,
    i: u64,
) -> Result<(), MapFault>
    requires may { MayChange geometry (S.state s.old) blocks.old.inode }
    requires at_hand { IsAtHand (S.state s.old).sectors blocks.old }
    requires number { (1 ≤ level) × (level ≤ POINTER_LEVELS) × (1 ≤ i) }
    requires above { number_on (S.state s.old).sectors blocks.old.inode (suc level) (holder 1 i) ≢ 0 }
    requires inside { 512 * first_block level i < blocks.old.inode.size }
    requires room { HasRoomFor geometry (number_on (S.state s.old).sectors blocks.old.inode (suc level) (holder 1 i) ∷ []) 1
        (S.state s.old) }
    ensures added { OnOk result (AddsSector geometry (number_on (S.state s.old).sectors blocks.old.inode (suc level) (holder 1 i) ∷ [])
        level i (S.state s.old) (S.state s.new) blocks.old.inode blocks.new.inode) }
    ensures at_hand { OnOk result (IsAtHand (S.state s.new).sectors blocks.new) }
    ensures full { result ≡ Err MapFault.Full
        → (number_on (S.state s.old).sectors blocks.old.inode level i ≡ 0) × (free_sectors geometry (S.state s.old).sectors ≡ 0) }
    ensures small { result ≢ Err MapFault.TooBig }
    ensures store { SameStore (S.state s.old) (S.state s.new) }
    ensures cause { HasCauseOf MapFault.DiskFault (S.state s.old).disk (S.state s.new).disk result }
{
    let mut content = [0; BLOCK];
    let index = (i - 1) / SECTOR_POINTERS;
    let above = read_pointers(s, &blocks.inode, level + 1, index, &mut content)?;
    let number = blocks.inode.number(level, &content, i);
    if number != 0 {
        return Ok(());
    }
    list_sector(s, geometry, blocks, level, i, above, &mut content)?;
    Ok(())
}

// Takes a sector of pointers that is number `i` of a level, unless it is there. The one in which the number stands, if it doesn't stand
// in the inode, is there.
fn add_sector<S: Sectors>(
    s: &mut S,
    geometry: Geometry,
    blocks: &mut Blocks,
    level: usize,
    i: u64,
) -> Result<(), MapFault>
    requires may { MayChange geometry (S.state s.old) blocks.old.inode }
    requires at_hand { IsAtHand (S.state s.old).sectors blocks.old }
    requires level { (1 ≤ level) × (level ≤ POINTER_LEVELS) }
    requires above { 1 ≤ i → number_on (S.state s.old).sectors blocks.old.inode (suc level) (holder 1 i) ≢ 0 }
    requires inside { 512 * first_block level i < blocks.old.inode.size }
    requires room { HasRoomFor geometry (sectors_to (S.state s.old).sectors blocks.old.inode level i) 1 (S.state s.old) }
    ensures added { OnOk result (AddsSector geometry (sectors_to (S.state s.old).sectors blocks.old.inode level i) level i
        (S.state s.old) (S.state s.new) blocks.old.inode blocks.new.inode) }
    ensures at_hand { OnOk result (IsAtHand (S.state s.new).sectors blocks.new) }
    ensures full { result ≡ Err MapFault.Full
        → (number_on (S.state s.old).sectors blocks.old.inode level i ≡ 0) × (free_sectors geometry (S.state s.old).sectors ≡ 0) }
    ensures small { result ≢ Err MapFault.TooBig }
    ensures store { SameStore (S.state s.old) (S.state s.new) }
    ensures cause { HasCauseOf MapFault.DiskFault (S.state s.old).disk (S.state s.new).disk result }
{
    if i == 0 {
        add_named(s, geometry, blocks, level)?;
        return Ok(());
    }
    add_listed(s, geometry, blocks, level, i)?;
    Ok(())
}

// Takes sectors for a level's numbers from `first` up to `end`, and for those by which they are found, where there are none.
fn add_numbers<S: Sectors>(
    s: &mut S,
    geometry: Geometry,
    blocks: &mut Blocks,
    level: usize,
    first: u64,
    end: u64,
) -> Result<(), MapFault>
    requires may { MayChange geometry (S.state s.old) blocks.old.inode }
    requires at_hand { IsAtHand (S.state s.old).sectors blocks.old }
    requires level { (1 ≤ level) × (level ≤ POINTER_LEVELS) }
    requires order { (first < end) × (end ≤ level_end level) }
    requires inside { 512 * first_block level (end - 1) < blocks.old.inode.size }
    requires room { HasSpare geometry (most_for level first end) (S.state s.old) }
    ensures added { OnOk result (AddsNumbers geometry level first end (S.state s.old) (S.state s.new) blocks.old.inode blocks.new.inode) }
    ensures at_hand { OnOk result (IsAtHand (S.state s.new).sectors blocks.new) }
    ensures full { result ≡ Err MapFault.Full → free_sectors geometry (S.state s.old).sectors
        < lacks_from (S.state s.old).sectors blocks.old.inode (POINTER_LEVELS + 1 - level) level first end }
    ensures small { result ≢ Err MapFault.TooBig }
    ensures store { SameStore (S.state s.old) (S.state s.new) }
    ensures cause { HasCauseOf MapFault.DiskFault (S.state s.old).disk (S.state s.new).disk result }
{
    // The first number stands in the inode.
    if end <= 1 {
        add_named(s, geometry, blocks, level)?;
        return Ok(());
    }
    let from = first.saturating_sub(1) / SECTOR_POINTERS;
    let last = (end - 2) / SECTOR_POINTERS;
    add_numbers(s, geometry, blocks, level + 1, from, last + 1)?;
    for i in first..end {
        add_sector(s, geometry, blocks, level, i)?;
    }
    Ok(())
}

/// Takes sectors for the pointers to the blocks from `first` up to `end`, where there are none.
pub(crate) fn add_pointers<S: Sectors>(
    s: &mut S,
    geometry: Geometry,
    blocks: &mut Blocks,
    first: u64,
    end: u64,
) -> Result<(), MapFault>
    requires may { MayChange geometry (S.state s.old) blocks.old.inode }
    requires at_hand { IsAtHand (S.state s.old).sectors blocks.old }
    requires inside { (DIRECT_BLOCKS < end → 512 * (end - 1) < blocks.old.inode.size) × (first ≤ end) × (end ≤ MAX_BLOCKS) }
    requires room { HasSpare geometry (pointer_sectors first end) (S.state s.old) }
    ensures added { OnOk result (AddsPointers geometry first end (S.state s.old) (S.state s.new) blocks.old.inode blocks.new.inode) }
    ensures at_hand { OnOk result (IsAtHand (S.state s.new).sectors blocks.new) }
    ensures full { result ≡ Err MapFault.Full
        → free_sectors geometry (S.state s.old).sectors < lacks_pointers (S.state s.old).sectors blocks.old.inode first end }
    ensures small { result ≢ Err MapFault.TooBig }
    ensures store { SameStore (S.state s.old) (S.state s.new) }
    ensures cause { HasCauseOf MapFault.DiskFault (S.state s.old).disk (S.state s.new).disk result }
{
    if end <= DIRECT_BLOCKS {
        return Ok(());
    }
    if end == first {
        return Ok(());
    }
    let last = (end - 1 - DIRECT_BLOCKS) / SECTOR_POINTERS;
    let from = first.saturating_sub(DIRECT_BLOCKS) / SECTOR_POINTERS;
    add_numbers(s, geometry, blocks, 1, from, last + 1)?;
    Ok(())
}
