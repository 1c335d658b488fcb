//! The two bitmaps.

ghost use Rattle.std.specs.Prelude.{◌≡◌, ◌≢◌, ◌<◌, ◌≤◌, ◌+◌, ◌*◌, ◌/◌, ◌%◌, ◌^◌, ℕ, length, nat_lt, nat_le, nat_eq, not, ◌||◌, ◌⊎◌, OnOk, IfSome, IfNone, IsTrue, ◌↔◌};
ghost use Rattle.fs_layout.specs.Bytes.{SectorMap, u16_of};
ghost use Rattle.fs_layout.specs.Images.{inode_map_bits, bit, stored};
ghost use Rattle.fs_layout.specs.Ownership.{IsOwned};
ghost use Rattle.fs_model.specs.Rules.{ObeysEach, InodeBits, IsBit, BlockBits, IsBlockBit};
ghost use Rattle.fs_check.specs.Checks.{meaning, BeginsWith, IsOwnerMap, Passed, IsNone, IsLeast};
ghost use Rattle.fs_check.specs.TableSectors.{IsTableSector};

use crate::bit_table::BitTable;
use crate::faults::{CheckFault, Checked, Finding};
use crate::inodes::read_table;
use crate::opening::Opened;
use crate::reading::read_recovered;
use byteorder::{ByteOrder, LittleEndian};
use fs_layout::{Geometry, INODE_SIZE, SECTOR_BITS};
use sector_disk::Disk;

const INODE_BITS: u8 = 3;

const BLOCK_BITS: u8 = 7;

// Bit n of a bitmap; `map` is its sector that has the bit.
fn has_bit(map: &[u8; 512], n: u32) -> bool
    ensures { (m : SectorMap) (start : ℕ) → map.now ≡ m (start + n / 4096) → result ≡ bit m start n }
{
    let byte = map[(n % SECTOR_BITS / 8) as usize];
    byte >> (n % 8) & 1 == 1
}

// The kind field of an inode, whose bytes begin here.
fn kind_field(table: &[u8; 512], at: usize) -> u16
    requires { at + INODE_SIZE ≤ 512 }
    ensures { result ≡ u16_of table.now at }
{
    LittleEndian::read_u16(&table[at..])
}

// What bit n of the inode bitmap has to be; `table` is the sector of the inode, if there is such an inode.
fn is_taken(geometry: Geometry, table: &[u8; 512], ino: u32) -> bool
    ensures { (m : SectorMap) → IsTableSector geometry m ino table.now
        → result ≡ (nat_lt ino 2 || nat_le geometry.inodes ino || not (nat_eq (u16_of (stored geometry m ino) 0) 0)) }
{
    ino < 2 || geometry.inodes <= ino || kind_field(table, geometry.inode_offset(ino)) != 0
}

// Bit n of the inode bitmap is what it has to be; `map` is its sector, and `table` that of the inode, if there is such an inode.
fn is_right_bit(geometry: Geometry, map: &[u8; 512], table: &[u8; 512], n: u32) -> bool
    ensures { (m : SectorMap) → map.now ≡ m (geometry.inode_bitmap + n / 4096) → IsTableSector geometry m n table.now
        → IsTrue result ↔ IsBit geometry m n }
{
    has_bit(map, n) == is_taken(geometry, table, n)
}

// The sector of the inode bitmap in which bit n stands: `map` has it, and is read again only where n is the sector's first bit.
fn read_map<D: Disk>(disk: &mut D, opened: &Opened, n: u32, map: &mut [u8; 512]) -> Checked<()>
    requires opened { BeginsWith (D.state disk.old) opened.now.geometry opened.now.area opened.now.commit }
    requires bit { n < inode_map_bits opened.now.geometry }
    requires kept { n % 4096 ≢ 0 → map.old ≡ meaning (D.state disk.old) (opened.now.geometry.inode_bitmap + n / 4096) }
    ensures map { OnOk result (map.new ≡ meaning (D.state disk.old) (opened.now.geometry.inode_bitmap + n / 4096)) }
    ensures passed { Passed IsNone (D.state disk.old) (D.state disk.new) result }
{
    if n % SECTOR_BITS != 0 {
        return Ok(());
    }
    read_recovered(
        disk,
        opened,
        opened.geometry.inode_bitmap + n / SECTOR_BITS,
        map,
    )
}

/// Each bit of the inode bitmap is set exactly where it has to be.
pub(crate) fn inode_bits<D: Disk>(disk: &mut D, opened: &Opened) -> Checked<()>
    requires opened { BeginsWith (D.state disk.old) opened.now.geometry opened.now.area opened.now.commit }
    ensures each { OnOk result (ObeysEach opened.now.geometry (meaning (D.state disk.old)) InodeBits) }
    ensures passed { Passed (IsLeast opened.now.geometry InodeBits) (D.state disk.old) (D.state disk.new) result }
{
    let mut map = [0; 512];
    let mut table = [0; 512];
    for n in 0..SECTOR_BITS * (opened.geometry.block_bitmap - opened.geometry.inode_bitmap) {
        read_map(disk, opened, n, &mut map)?;
        read_table(disk, opened, n, &mut table)?;
        if !is_right_bit(opened.geometry, &map, &table, n) {
            return Err(CheckFault::Found(Finding {
                rule: INODE_BITS,
                at: n,
            }));
        }
    }
    Ok(())
}

// What bit s of the block bitmap has to be.
fn is_used(geometry: Geometry, owned: &BitTable, s: u32) -> bool
    requires { length owned.now ≡ geometry.sectors }
    ensures { (m : SectorMap) → IsOwnerMap geometry m owned.now
        → IsTrue result ↔ ((s < geometry.first_data) ⊎ ((geometry.sectors ≤ s) ⊎ IsOwned geometry m s)) }
{
    s < geometry.first_data || geometry.sectors <= s || owned.has(s)
}

// The bits in sector k of the block bitmap, which is `map`, are all of data sectors, and what they have to be.
fn are_right(geometry: Geometry, map: &[u8; 512], owned: &BitTable, k: u32) -> bool
    requires owned { length owned.now ≡ geometry.sectors }
    requires low { 4096 * (k + 1) < 2 ^ 32 }
    ensures { IsTrue result → (m : SectorMap) → IsOwnerMap geometry m owned.now → map.now ≡ m (geometry.block_bitmap + k)
        → (i : ℕ) → 4096 * k ≤ i → i < 4096 * (k + 1) → IsBlockBit geometry m i }
{
    if SECTOR_BITS * k < geometry.first_data {
        return false;
    }
    if geometry.sectors < SECTOR_BITS * (k + 1) {
        return false;
    }
    owned.has_sector(k, map)
}

// The least bit that isn't what it has to be, of those in sector k of the block bitmap, which is `map`.
fn first_wrong(geometry: Geometry, map: &[u8; 512], owned: &BitTable, k: u32) -> Option<u32>
    requires owned { length owned.now ≡ geometry.sectors }
    requires low { 4096 * (k + 1) < 2 ^ 32 }
    ensures wrong { (m : SectorMap) → IsOwnerMap geometry m owned.now → map.now ≡ m (geometry.block_bitmap + k)
        → IfSome result (λ s. (s < 4096 * (k + 1)) × (IsBlockBit geometry m s → ⊥) × ((i : ℕ) → 4096 * k ≤ i → i < s → IsBlockBit geometry m i)) }
    ensures none { (m : SectorMap) → IsOwnerMap geometry m owned.now → map.now ≡ m (geometry.block_bitmap + k)
        → IfNone result ((i : ℕ) → 4096 * k ≤ i → i < 4096 * (k + 1) → IsBlockBit geometry m i) }
{
    if are_right(geometry, map, owned, k) {
        return None;
    }
    for s in SECTOR_BITS * k..SECTOR_BITS * (k + 1) {
        if has_bit(map, s) != is_used(geometry, owned, s) {
            return Some(s);
        }
    }
    None
}

/// Each bit of the block bitmap is set exactly where it has to be.
pub(crate) fn block_bits<D: Disk>(disk: &mut D, opened: &Opened, owned: &BitTable) -> Checked<()>
    requires opened { BeginsWith (D.state disk.old) opened.now.geometry opened.now.area opened.now.commit }
    requires owners { IsOwnerMap opened.now.geometry (meaning (D.state disk.old)) owned.now }
    ensures each { OnOk result (ObeysEach opened.now.geometry (meaning (D.state disk.old)) BlockBits) }
    ensures passed { Passed (IsLeast opened.now.geometry BlockBits) (D.state disk.old) (D.state disk.new) result }
{
    let mut map = [0; 512];
    for k in 0..opened.geometry.table - opened.geometry.block_bitmap {
        read_recovered(disk, opened, opened.geometry.block_bitmap + k, &mut map)?;
        if let Some(s) = first_wrong(opened.geometry, &map, owned, k) {
            return Err(CheckFault::Found(Finding {
                rule: BLOCK_BITS,
                at: s,
            }));
        }
    }
    Ok(())
}
