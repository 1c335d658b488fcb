//! Another size.

ghost use Rattle.std.specs.Prelude.{◌≡◌, ◌≢◌, ◌≤◌, ◌<◌, ◌+◌, ◌*◌, ◌/◌, ◌↔◌, ℕ, suc, List, length, get_or, Err, OnOk};
ghost use Rattle.fs_layout.specs.declared.inode.TheConstants.{DIRECT_BLOCKS, MAX_BLOCKS, MAX_FILE_SIZE, POINTER_LEVELS, SECTOR_POINTERS};
ghost use Rattle.fs_layout.specs.Version.{max_file_size};
ghost use Rattle.fs_layout.specs.Bytes.{IsBytes, resized, u32_of};
ghost use Rattle.fs_layout.specs.Images.{Holds, HasNoHole, first_block, inode_at, own_count, place_in_holder};
ghost use Rattle.bit_alloc.specs.Inodes.{IsSound};
ghost use Rattle.bit_alloc.specs.Room.{HasSpare};
ghost use Rattle.sector_txn.specs.Sectors.{SameStore, IsUnchanged};
ghost use Rattle.sector_disk.specs.Disk.{HasCause};
ghost use Rattle.bit_alloc.specs.Faults.{HasCauseOf};
ghost use Rattle.block_map.specs.Blocks.{IsLoaded, IsWithin};
ghost use Rattle.block_map.specs.Contents.{AllowsSize, ChangesContent};
ghost use Rattle.block_map.specs.Drops.{ClearsNumbers, CutsLevel, DropsBlocks, cut_by};
ghost use Rattle.block_map.specs.Sizes.{ClearsTail, Resizes, put_to};
ghost use Rattle.block_map.specs.Steps.{MayChange, blocks_to};

use crate::MapFault;
use crate::blocks::{BLOCK, Blocks, read_pointers};
use crate::release::{give_from, next_first};
use crate::steps::rewrite;
use fs_layout::{
    DIRECT_BLOCKS, DOUBLE_INDIRECT_END, Geometry, INDIRECT_END, Inode, POINTER_LEVELS,
    SECTOR_POINTERS, own_count,
};
use inode_table::write_inode;
use sector_disk::DiskFault;
use sector_txn::Sectors;

// Writes zeros over numbers that stand in an inode, from number `first` on.
fn clear_numbers(numbers: &mut [u32], first: usize)
    requires { first ≤ length numbers.old }
    ensures len { length numbers.new ≡ length numbers.old }
    ensures before { (i : ℕ) → i < first → get_or numbers.new i 0 ≡ get_or numbers.old i 0 }
    ensures after { (i : ℕ) → first ≤ i → get_or numbers.new i 0 ≡ 0 }
{
    (&mut numbers[first..]).fill(0);
}

// How many sectors of pointers an inode names by which blocks before `first` are found.
fn named_before(first: u64) -> usize
    ensures most { result ≤ POINTER_LEVELS }
    ensures before { (level : ℕ) → level < result → first_block (suc level) 0 < first }
    ensures after { (level : ℕ) → level < POINTER_LEVELS → result ≤ level → first ≤ first_block (suc level) 0 }
{
    if first <= DIRECT_BLOCKS {
        return 0;
    }
    if first <= INDIRECT_END {
        return 1;
    }
    if first <= DOUBLE_INDIRECT_END {
        return 2;
    }
    POINTER_LEVELS
}

// Takes from an inode the numbers by which only blocks from `first` on are found.
fn clear_inode(inode: &mut Inode, first: u64)
    requires direct { length inode.old.direct ≡ DIRECT_BLOCKS }
    requires indirect { length inode.old.indirect ≡ POINTER_LEVELS }
    ensures { ClearsNumbers first inode.old inode.new }
{
    clear_numbers(&mut inode.direct, first.min(DIRECT_BLOCKS) as usize);
    clear_numbers(&mut inode.indirect, named_before(first));
}

fn clear_pointers(pointers: &mut [u8; 512], first: usize)
    requires { first ≤ SECTOR_POINTERS }
    ensures bytes { IsBytes pointers.new }
    ensures before { (i : ℕ) → i < first → u32_of pointers.new (4 * i) ≡ u32_of pointers.old (4 * i) }
    ensures after { (i : ℕ) → first ≤ i → u32_of pointers.new (4 * i) ≡ 0 }
{
    (&mut pointers[4 * first..]).fill(0);
}

// Writes zeros over a level's numbers from `first` on in the sector of pointers that has some before them, if it is there.
fn cut_level<S: Sectors>(
    s: &mut S,
    inode: &Inode,
    level: usize,
    first: u64,
) -> Result<(), DiskFault>
    requires within { IsWithin (S.state s.old).header (S.state s.old).disk.size (S.state s.old).sectors inode.now }
    requires level { level < POINTER_LEVELS }
    requires room { place_in_holder (own_count level) first ≢ 0 → 0 < (S.state s.old).room }
    ensures cut { OnOk result (CutsLevel level first (S.state s.old) (S.state s.new) inode.now) }
    ensures store { SameStore (S.state s.old) (S.state s.new) }
    ensures cause { HasCause (S.state s.old).disk (S.state s.new).disk result }
{
    let past = first.saturating_sub(own_count(level));
    let from = past % SECTOR_POINTERS;
    if from == 0 {
        return Ok(());
    }
    let mut content = [0; BLOCK];
    let sector = read_pointers(s, inode, level + 1, past / SECTOR_POINTERS, &mut content)?;
    if sector == 0 {
        return Ok(());
    }
    clear_pointers(&mut content, from as usize);
    s.put(sector, &content);
    Ok(())
}

// Drops the blocks from `first` on, and the sectors of pointers by which no other is found. Level by level from the blocks up, so that
// what a sector is found by isn't cut yet.
fn drop_blocks<S: Sectors>(
    s: &mut S,
    geometry: Geometry,
    inode: &mut Inode,
    first: u64,
) -> Result<(), DiskFault>
    requires may { MayChange geometry (S.state s.old) inode.old }
    requires few { first ≤ MAX_BLOCKS }
    requires room { HasSpare geometry (cut_by first) (S.state s.old) }
    ensures dropped { OnOk result (DropsBlocks geometry first (S.state s.old) (S.state s.new) inode.old inode.new) }
    ensures store { SameStore (S.state s.old) (S.state s.new) }
    ensures cause { HasCause (S.state s.old).disk (S.state s.new).disk result }
{
    give_from(s, geometry, inode, first)?;
    let mut from = first;
    for level in 0..POINTER_LEVELS {
        cut_level(s, inode, level, from)?;
        from = next_first(level, from);
    }
    clear_inode(inode, first);
    Ok(())
}

// Writes zeros over the bytes from `size` to the end of their block.
fn clear_tail<S: Sectors>(
    s: &mut S,
    geometry: Geometry,
    blocks: &Blocks,
    size: u64,
) -> Result<(), DiskFault>
    requires may { MayChange geometry (S.state s.old) blocks.now.inode }
    requires loaded { IsLoaded (S.state s.old).sectors blocks.now (size / 512) }
    requires less { size < blocks.now.inode.size }
    requires limit { blocks.now.inode.size ≤ MAX_FILE_SIZE }
    requires room { HasSpare geometry 1 (S.state s.old) }
    ensures cleared { OnOk result (ClearsTail geometry size (S.state s.old) (S.state s.new) blocks.now.inode) }
    ensures store { SameStore (S.state s.old) (S.state s.new) }
    ensures cause { HasCause (S.state s.old).disk (S.state s.new).disk result }
{
    let at = (size % BLOCK as u64) as usize;
    if at == 0 {
        return Ok(());
    }
    let number = blocks.number(size / BLOCK as u64);
    if number == 0 {
        return Ok(());
    }
    let len = (BLOCK - at).min((blocks.inode.size - size) as usize);
    rewrite(s, number, at, &[0; BLOCK][..len])?;
    Ok(())
}

// Gives the inode, which isn't saved, another size.
fn resize<S: Sectors>(
    s: &mut S,
    geometry: Geometry,
    inode: &mut Inode,
    size: u64,
) -> Result<(), DiskFault>
    requires may { MayChange geometry (S.state s.old) inode.old }
    requires kind { AllowsSize inode.old.kind size }
    requires limit { (size ≤ MAX_FILE_SIZE) × (inode.old.size ≤ MAX_FILE_SIZE) }
    requires room { HasSpare geometry (1 + cut_by (blocks_to size)) (S.state s.old) }
    ensures resized { OnOk result (Resizes geometry size (S.state s.old) (S.state s.new) inode.old inode.new) }
    ensures store { SameStore (S.state s.old) (S.state s.new) }
    ensures cause { HasCause (S.state s.old).disk (S.state s.new).disk result }
{
    if inode.size <= size {
        inode.size = size;
        return Ok(());
    }
    let mut blocks = Blocks::new(inode);
    blocks.load(s, size / BLOCK as u64)?;
    clear_tail(s, geometry, &blocks, size)?;
    let end = size.div_ceil(BLOCK as u64);
    // Past its size an inode has no block: where the last one stays, there is none to drop.
    if inode.size <= end * BLOCK as u64 {
        inode.size = size;
        return Ok(());
    }
    drop_blocks(s, geometry, &mut blocks.inode, end)?;
    blocks.inode.size = size;
    *inode = blocks.inode;
    Ok(())
}

/// Cuts what inode `ino` holds, or makes it longer by zeros, for which no sector is taken. `inode` is its record,
/// before and after.
///
/// At `Err` the caller drops the changes of the transaction; of `inode` nothing is said then.
pub fn set_size<S: Sectors>(
    s: &mut S,
    geometry: Geometry,
    ino: u32,
    inode: &mut Inode,
    size: u64,
) -> Result<(), MapFault>
    requires sound { IsSound geometry (S.state s.old) }
    requires below { ino < geometry.inodes }
    requires inode { inode.old ≡ inode_at geometry (S.state s.old).sectors ino }
    requires kind { AllowsSize inode.old.kind size }
    requires spare { HasSpare geometry (put_to size) (S.state s.old) }
    ensures change { OnOk result (ChangesContent geometry ino 0 (put_to size) (S.state s.old) (S.state s.new) inode.old inode.new) }
    ensures held { OnOk result ((held : List ℕ) → Holds (S.state s.old).sectors inode.old held
        → Holds (S.state s.new).sectors inode.new (resized held size)) }
    // A cut makes no hole.
    ensures whole { OnOk result (HasNoHole (S.state s.old).sectors inode.old → size ≤ inode.old.size
        → HasNoHole (S.state s.new).sectors inode.new) }
    ensures too_big { (result ≡ Err MapFault.TooBig) ↔ (max_file_size geometry.version < size) }
    ensures untouched { max_file_size geometry.version < size → IsUnchanged (S.state s.old) (S.state s.new) }
    ensures never_full { result ≢ Err MapFault.Full }
    ensures store { SameStore (S.state s.old) (S.state s.new) }
    ensures cause { HasCauseOf MapFault.DiskFault (S.state s.old).disk (S.state s.new).disk result }
{
    if size > geometry.max_file_size() {
        return Err(MapFault::TooBig);
    }
    resize(s, geometry, inode, size)?;
    write_inode(s, geometry, ino, inode)?;
    Ok(())
}
