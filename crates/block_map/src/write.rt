//! Writing. Blocks that have no sectors and follow one another are written as a run.

ghost use Rattle.std.specs.Prelude.{◌≡◌, ◌≢◌, ◌≤◌, ◌<◌, ◌+◌, ◌*◌, ◌-◌, ◌/◌, ◌%◌, ◌↔◌, ℕ, max, List, length, Err, OnOk, [], get_or};
ghost use Rattle.fs_layout.specs.declared.inode.TheConstants.{MAX_FILE_SIZE, DIRECT_BLOCKS, MAX_BLOCKS, SECTOR_POINTERS};
ghost use Rattle.fs_layout.specs.Version.{max_file_size};
ghost use Rattle.fs_layout.specs.declared.inode.Kind.TheVariants.{Free};
ghost use Rattle.fs_layout.specs.Bytes.{overwritten, splice, SectorMap};
ghost use Rattle.fs_layout.specs.Images.{Holds, HasNoHole, free_sectors, inode_at, pointer, holder, number_on, place_in_holder};
ghost use Rattle.bit_alloc.specs.Inodes.{IsSound};
ghost use Rattle.bit_alloc.specs.Room.{HasSpare};
ghost use Rattle.sector_txn.specs.Sectors.{SameStore, IsUnchanged, PutsOnly};
ghost use Rattle.sector_disk.specs.Disk.{HasCause};
ghost use Rattle.bit_alloc.specs.Faults.{HasCauseOf};
ghost use Rattle.block_map.specs.declared.write.TheConstants.{MAX_WRITE};
ghost use Rattle.block_map.specs.Contents.{AllowsSize, ChangesContent};
ghost use Rattle.block_map.specs.Blocks.{IsAtHand, IsLoaded};
ghost use Rattle.block_map.specs.Steps.{MayChange, WritesBlocks, blocks_to, pointer_sectors, taken_by, put_by, HasRoomFor, FillsSectors, WritesRun, pointers_to};
ghost use Rattle.fs_layout.specs.Header.{log_end};
ghost use Rattle.bit_alloc.specs.Bitmaps.{IsNumberOf};
ghost use Rattle.block_map.specs.declared.write.TheConstants.{MAX_RUN};

use crate::MapFault;
use crate::blocks::{BLOCK, Blocks, write_pointer};
use crate::steps::{add_pointers, rewrite, write_loaded};
use bit_alloc::{Bitmap, take_all};
use fs_layout::{DIRECT_BLOCKS, Geometry, Inode, SECTOR_POINTERS};
use inode_table::write_inode;
use sector_disk::DiskFault;
use sector_txn::Sectors;

/// The most bytes that one call of [`write_at`] writes.
pub const MAX_WRITE: usize = 16_384;

// How many whole blocks so many bytes are that begin at this place of a block.
fn whole_blocks(at: usize, len: usize) -> usize
    ensures first { 0 < result → at ≡ 0 }
    ensures within { 512 * result ≤ len }
{
    if at > 0 {
        return 0;
    }
    len / BLOCK
}

// Writes bytes within the size of an inode, which isn't saved.
fn write_blocks<S: Sectors>(
    s: &mut S,
    geometry: Geometry,
    blocks: &mut Blocks,
    offset: u64,
    bytes: &[u8],
) -> Result<(), MapFault>
    requires may { MayChange geometry (S.state s.old) blocks.old.inode }
    requires at_hand { IsAtHand (S.state s.old).sectors blocks.old }
    requires inside { (offset + length bytes.now ≤ blocks.old.inode.size) × (blocks.old.inode.size ≤ MAX_FILE_SIZE) }
    requires room { HasSpare geometry (blocks_to (offset + length bytes.now) - offset / 512
        + pointer_sectors (offset / 512) (blocks_to (offset + length bytes.now))) (S.state s.old) }
    ensures written { OnOk result (WritesBlocks geometry offset bytes.now (S.state s.old) (S.state s.new)
        blocks.old.inode blocks.new.inode) }
    ensures full { result ≡ Err MapFault.Full
        → free_sectors geometry (S.state s.old).sectors < taken_by (S.state s.old).sectors blocks.old.inode offset (length bytes.now) }
    ensures small { result ≢ Err MapFault.TooBig }
    ensures store { SameStore (S.state s.old) (S.state s.new) }
    ensures cause { HasCauseOf MapFault.DiskFault (S.state s.old).disk (S.state s.new).disk result }
{
    let end = (offset + bytes.len() as u64).div_ceil(BLOCK as u64);
    add_pointers(s, geometry, blocks, offset / BLOCK as u64, end)?;
    let mut k = offset / BLOCK as u64;
    while k < end {
        let begin = k * BLOCK as u64;
        let at = offset.saturating_sub(begin) as usize;
        let done = begin.saturating_sub(offset) as usize;
        blocks.load(s, k)?;
        let run = run_of_holes(blocks, k, whole_blocks(at, bytes.len() - done));
        if run > 0 {
            write_run(s, geometry, blocks, k, &bytes[done..done + BLOCK * run])?;
            k += run as u64;
        } else {
            let len = (BLOCK - at).min(bytes.len() - done);
            write_loaded(s, geometry, blocks, k, at, &bytes[done..done + len])?;
            k += 1;
        }
    }
    Ok(())
}

/// Writes bytes into what inode `ino` holds, at most [`MAX_WRITE`] of them, from `offset` on, and zeros between its end
/// and these. `inode` is its record, before and after.
///
/// At `Err` the caller drops the changes of the transaction; of `inode` nothing is said then.
pub fn write_at<S: Sectors>(
    s: &mut S,
    geometry: Geometry,
    ino: u32,
    inode: &mut Inode,
    offset: u64,
    bytes: &[u8],
) -> Result<(), MapFault>
    requires sound { IsSound geometry (S.state s.old) }
    requires below { ino < geometry.inodes }
    requires inode { inode.old ≡ inode_at geometry (S.state s.old).sectors ino }
    requires size { AllowsSize inode.old.kind (max inode.old.size (offset + length bytes.now)) }
    requires few { length bytes.now ≤ MAX_WRITE }
    requires spare { HasSpare geometry (put_by offset (length bytes.now)) (S.state s.old) }
    ensures change { OnOk result (ChangesContent geometry ino (taken_by (S.state s.old).sectors inode.old offset (length bytes.now))
        (put_by offset (length bytes.now)) (S.state s.old) (S.state s.new) inode.old inode.new) }
    ensures held { OnOk result ((held : List ℕ) → Holds (S.state s.old).sectors inode.old held
        → Holds (S.state s.new).sectors inode.new (overwritten held offset bytes.now)) }
    // No hole is made but before the bytes.
    ensures whole { OnOk result (HasNoHole (S.state s.old).sectors inode.old → offset ≤ inode.old.size
        → HasNoHole (S.state s.new).sectors inode.new) }
    ensures too_big { (result ≡ Err MapFault.TooBig) ↔ (max_file_size geometry.version < offset + length bytes.now) }
    ensures untouched { max_file_size geometry.version < offset + length bytes.now → IsUnchanged (S.state s.old) (S.state s.new) }
    ensures full { result ≡ Err MapFault.Full
        → (free_sectors geometry (S.state s.old).sectors < taken_by (S.state s.old).sectors inode.old offset (length bytes.now))
        × (taken_by (S.state s.old).sectors inode.old offset (length bytes.now) ≤ 38)
        × (length bytes.now ≤ 4096 → taken_by (S.state s.old).sectors inode.old offset (length bytes.now) ≤ 14) }
    ensures taken { OnOk result (taken_by (S.state s.old).sectors inode.old offset (length bytes.now) ≤ 38) }
    ensures few_taken { OnOk result (length bytes.now ≤ 4096
        → taken_by (S.state s.old).sectors inode.old offset (length bytes.now) ≤ 14) }
    ensures store { SameStore (S.state s.old) (S.state s.new) }
    ensures cause { HasCauseOf MapFault.DiskFault (S.state s.old).disk (S.state s.new).disk result }
{
    if offset > geometry.max_file_size() - bytes.len() as u64 {
        return Err(MapFault::TooBig);
    }
    let end = offset + bytes.len() as u64;
    let mut blocks = Blocks::new(inode);
    blocks.inode.size = inode.size.max(end);
    write_blocks(s, geometry, &mut blocks, offset, bytes)?;
    write_inode(s, geometry, ino, &blocks.inode)?;
    *inode = blocks.inode;
    Ok(())
}

/// Writes bytes over those that inode `ino` holds, within one of its blocks, which is no hole. `inode` is its record,
/// and stays.
///
/// At `Err` the caller drops the changes of the transaction.
pub fn overwrite<S: Sectors>(
    s: &mut S,
    geometry: Geometry,
    ino: u32,
    inode: &Inode,
    offset: u64,
    bytes: &[u8],
) -> Result<(), DiskFault>
    requires sound { IsSound geometry (S.state s.old) }
    requires below { ino < geometry.inodes }
    requires inode { inode.now ≡ inode_at geometry (S.state s.old).sectors ino }
    requires used { inode.now.kind ≢ Free }
    requires inside { offset + length bytes.now ≤ inode.now.size }
    requires one_block { offset % 512 + length bytes.now ≤ 512 }
    requires no_hole { pointer (S.state s.old).sectors inode.now (offset / 512) ≢ 0 }
    requires spare { HasSpare geometry 1 (S.state s.old) }
    ensures change { OnOk result (ChangesContent geometry ino 0 1 (S.state s.old) (S.state s.new) inode.now inode.now) }
    ensures held { OnOk result ((held : List ℕ) → Holds (S.state s.old).sectors inode.now held
        → Holds (S.state s.new).sectors inode.now (splice held offset bytes.now)) }
    ensures whole { OnOk result (HasNoHole (S.state s.old).sectors inode.now → HasNoHole (S.state s.new).sectors inode.now) }
    ensures store { SameStore (S.state s.old) (S.state s.new) }
    ensures cause { HasCause (S.state s.old).disk (S.state s.new).disk result }
{
    let block = offset / BLOCK as u64;
    let mut blocks = Blocks::new(inode);
    blocks.load(s, block)?;
    let at = (offset % BLOCK as u64) as usize;
    rewrite(s, blocks.number(block), at, bytes)?;
    Ok(())
}

// The most blocks of one run.
const MAX_RUN: usize = MAX_WRITE / BLOCK;

// How many blocks from block `k` on, at most so many, have no sectors and make one run: their numbers stand in the sector of pointers
// at hand.
fn run_of_holes(blocks: &Blocks, k: u64, most: usize) -> usize
    requires { k ≤ MAX_BLOCKS }
    ensures most { (result ≤ most) × (result ≤ MAX_RUN) }
    ensures listed { 0 < result → (DIRECT_BLOCKS ≤ k) × (place_in_holder DIRECT_BLOCKS k + result ≤ SECTOR_POINTERS) }
    ensures holes { (image : SectorMap) → IsLoaded image blocks.now k → (j : ℕ) → k ≤ j → j < k + result
        → pointer image blocks.now.inode j ≡ 0 }
{
    if k < DIRECT_BLOCKS {
        return 0;
    }
    let left = (SECTOR_POINTERS - (k - DIRECT_BLOCKS) % SECTOR_POINTERS) as usize;
    let most = most.min(MAX_RUN).min(left);
    for i in 0..most {
        if blocks.number(k + i as u64) != 0 {
            return i;
        }
    }
    most
}

// Writes the blocks of these bytes into sectors, one after the other, and their numbers into a sector of pointers, from place `at` on,
// which isn't put yet.
fn fill_sectors<S: Sectors>(
    s: &mut S,
    numbers: &[u32],
    bytes: &[u8],
    pointers: &mut [u8; 512],
    at: usize,
)
    requires within { (i : ℕ) → i < length numbers.now
        → (log_end (S.state s.old).header ≤ get_or numbers.now i 0) × (get_or numbers.now i 0 < (S.state s.old).disk.size) }
    requires long { length bytes.now ≡ 512 * length numbers.now }
    requires fits { at + length numbers.now ≤ SECTOR_POINTERS }
    requires room { length numbers.now ≤ (S.state s.old).room }
    ensures filled { FillsSectors at (length numbers.now) numbers.now bytes.now (S.state s.old).sectors (S.state s.new).sectors
        pointers.old pointers.new }
    ensures puts { PutsOnly (IsNumberOf numbers.now 0 (length numbers.now)) [] (length numbers.now) (S.state s.old) (S.state s.new) }
{
    for i in 0..numbers.len() {
        let Some(block) = (&bytes[BLOCK * i..BLOCK * (i + 1)]).as_array() else {
            unreachable!()
        };
        s.put(numbers[i], block);
        write_pointer(pointers, at + i, numbers[i]);
    }
}

// Writes whole blocks from block `k` on, which have no sectors. The sectors are taken as a run, and the sector of pointers at hand,
// which gets their numbers, is put once.
fn write_run<S: Sectors>(
    s: &mut S,
    geometry: Geometry,
    blocks: &mut Blocks,
    k: u64,
    bytes: &[u8],
) -> Result<(), MapFault>
    requires may { MayChange geometry (S.state s.old) blocks.old.inode }
    requires loaded { IsLoaded (S.state s.old).sectors blocks.old k }
    requires pointers { number_on (S.state s.old).sectors blocks.old.inode 1 (holder DIRECT_BLOCKS k) ≢ 0 }
    requires whole { length bytes.now ≡ 512 * (length bytes.now / 512) }
    requires run { length bytes.now / 512 ≤ MAX_RUN }
    requires listed { (DIRECT_BLOCKS ≤ k) × (place_in_holder DIRECT_BLOCKS k + length bytes.now / 512 ≤ SECTOR_POINTERS) }
    requires holes { (j : ℕ) → k ≤ j → j < k + length bytes.now / 512 → pointer (S.state s.old).sectors blocks.old.inode j ≡ 0 }
    requires inside { 512 * k + length bytes.now ≤ blocks.old.inode.size }
    requires room { HasRoomFor geometry (pointers_to (S.state s.old).sectors blocks.old.inode k) (length bytes.now / 512) (S.state s.old) }
    ensures written { OnOk result (WritesRun geometry k (length bytes.now / 512) bytes.now (S.state s.old) (S.state s.new)
        blocks.old.inode blocks.new.inode) }
    ensures at_hand { OnOk result (IsAtHand (S.state s.new).sectors blocks.new) }
    ensures full { result ≡ Err MapFault.Full → free_sectors geometry (S.state s.old).sectors < length bytes.now / 512 }
    ensures small { result ≢ Err MapFault.TooBig }
    ensures store { SameStore (S.state s.old) (S.state s.new) }
    ensures cause { HasCauseOf MapFault.DiskFault (S.state s.old).disk (S.state s.new).disk result }
{
    let mut numbers = [0; MAX_RUN];
    let numbers = &mut numbers[..bytes.len() / BLOCK];
    take_all(s, geometry, Bitmap::Blocks, blocks.near, numbers)?;
    let at = (k - DIRECT_BLOCKS) % SECTOR_POINTERS;
    fill_sectors(s, numbers, bytes, &mut blocks.pointers, at as usize);
    s.put(blocks.sector, &blocks.pointers);
    blocks.near = numbers.last().copied().unwrap_or(blocks.near);
    Ok(())
}
