//! A map of sectors on which no inode is used, for the tests of the crates above: made, and found to be one; and a
//! transaction that counts.
//!
//! What calls on inodes ask of a map, no test can say of one that it has made sector by sector. So it is looked at once:
//! where [`make_blank`] says yes, calls may begin.
#![tactic(auto)]

ghost use Rattle.std.specs.Prelude.{◌≡◌, ◌≤◌, ◌<◌, ℕ, replicate, IfOk, OnOk, IsTrue, ◌↔◌};
ghost use Rattle.fs_layout.specs.Bytes.{IsBytes};
ghost use Rattle.fs_layout.specs.Geometry.{IsGeometry};
ghost use Rattle.fs_layout.specs.Images.{HasWholeTables, bit};
ghost use Rattle.sector_txn.specs.Sectors.{SameStore, IsUnchanged};
ghost use Rattle.bit_alloc.specs.Bitmaps.{first_sector, bit_count, IsNumber};
ghost use Rattle.blank_map.specs.Maps.{IsPlaced, IsWithoutInodes};

mod counted;

use bit_alloc::{Bitmap, is_taken};
pub use counted::Counted;
use fs_layout::Geometry;
use sector_disk::DiskFault;
use sector_txn::Sectors;

/// Whether the bitmap keeps this number.
pub fn is_number(geometry: Geometry, map: Bitmap, n: u32) -> bool
    ensures { IsTrue result ↔ IsNumber geometry map n }
{
    match map {
        Bitmap::Inodes => 1 <= n && n < geometry.inodes,
        Bitmap::Blocks => geometry.first_data <= n && n < geometry.sectors,
    }
}

/// How many bits the bitmap has.
pub fn count_bits(geometry: Geometry, map: Bitmap) -> u32
    requires { IsGeometry geometry }
    ensures { result ≡ bit_count geometry map }
{
    match map {
        Bitmap::Inodes => 4096 * (geometry.block_bitmap - geometry.inode_bitmap),
        Bitmap::Blocks => 4096 * (geometry.table - geometry.block_bitmap),
    }
}

// Puts all bitmaps and the inode table as they are where no inode and no data sector is used, as far as there is room.
fn put_blank<S: Sectors>(s: &mut S, geometry: Geometry)
    requires { IsPlaced geometry (S.state s.old) }
    ensures { SameStore (S.state s.old) (S.state s.new) }
{
    for t in geometry.inode_bitmap..geometry.first_data {
        if s.room() == 0 {
            return;
        }
        s.put(t, &blank_sector(geometry, t));
    }
}

// Sector t of a map without inodes: a bit of a bitmap is set where it is no number's.
fn blank_sector(geometry: Geometry, t: u32) -> [u8; 512] {
    let mut sector = [0; 512];
    if geometry.table <= t {
        return sector;
    }
    let (map, first) = if t < geometry.block_bitmap {
        (Bitmap::Inodes, geometry.inode_bitmap)
    } else {
        (Bitmap::Blocks, geometry.block_bitmap)
    };
    for n in 0..4096 {
        if !is_number(
            geometry,
            map,
            t.wrapping_sub(first).wrapping_mul(4096).wrapping_add(n),
        ) {
            sector[(n / 8) as usize] |= 1 << (n % 8);
        }
    }
    sector
}

/// Makes a map on which no inode and no data sector is used, as far as there is room, and looks whether all inodes and data sectors
/// are free, the bits are set that are no number's, and there is room for all bitmaps and 12 sectors.
pub fn make_blank<S: Sectors>(s: &mut S, geometry: Geometry) -> Result<bool, DiskFault>
    requires { IsPlaced geometry (S.state s.old) }
    ensures { IfOk result (λ b. IsTrue b → IsWithoutInodes geometry (S.state s.new)) }
{
    put_blank(s, geometry);
    is_blank(s, geometry)
}

// Whether all inodes and data sectors are free, the bits are set that are no number's, and there is room for all bitmaps and 12
// sectors.
fn is_blank<S: Sectors>(s: &mut S, geometry: Geometry) -> Result<bool, DiskFault>
    requires { IsPlaced geometry (S.state s.old) }
    ensures { IfOk result (λ b. IsTrue b → IsWithoutInodes geometry (S.state s.new)) }
{
    read_tables(s, geometry)?;
    let zero = has_zero_table(s, geometry)?;
    let inodes = has_bits(s, geometry, Bitmap::Inodes)?;
    let blocks = has_bits(s, geometry, Bitmap::Blocks)?;
    if !zero {
        return Ok(false);
    }
    if !inodes {
        return Ok(false);
    }
    if !blocks {
        return Ok(false);
    }
    Ok(s.room() >= (geometry.table - geometry.inode_bitmap) as usize + 12)
}

/// Reads all bitmaps and the inode table: each sector that is read is whole.
pub fn read_tables<S: Sectors>(s: &mut S, geometry: Geometry) -> Result<(), DiskFault>
    requires { IsPlaced geometry (S.state s.old) }
    ensures tables { OnOk result (HasWholeTables geometry (S.state s.new).sectors) }
    ensures same { IsUnchanged (S.state s.old) (S.state s.new) }
{
    let mut sector = [0; 512];
    for n in geometry.inode_bitmap..geometry.first_data {
        s.get(n, &mut sector)?;
        tell_bytes(&sector);
    }
    Ok(())
}

// Whether the inode table is zeros.
fn has_zero_table<S: Sectors>(s: &mut S, geometry: Geometry) -> Result<bool, DiskFault>
    requires { IsPlaced geometry (S.state s.old) }
    ensures zero { IfOk result (λ b. IsTrue b → (t : ℕ) → geometry.table ≤ t → t < geometry.first_data
        → (S.state s.old).sectors t ≡ replicate 512 0) }
    ensures same { IsUnchanged (S.state s.old) (S.state s.new) }
{
    let mut sector = [0; 512];
    for t in geometry.table..geometry.first_data {
        s.get(t, &mut sector)?;
        if !is_zeros(&sector) {
            return Ok(false);
        }
    }
    Ok(true)
}

// Whether a sector is zeros.
fn is_zeros(sector: &[u8; 512]) -> bool
    ensures { IsTrue result → sector.now ≡ replicate 512 0 }
{
    *sector == [0; 512]
}

// Does nothing: tells a proof that bytes are below 256, a fact of their type.
fn tell_bytes(bytes: &[u8])
    ensures { IsBytes bytes.now }
{
    let _count = bytes.len();
}

// Whether number n is clear, or the bit of no number is set.
fn may_be(geometry: Geometry, map: Bitmap, n: u32, taken: bool) -> bool
    ensures { IsTrue result → (IsTrue taken ↔ (IsNumber geometry map n → ⊥)) }
{
    if is_number(geometry, map, n) {
        return !taken;
    }
    taken
}

// Whether of one bitmap the bits are set that are no number's, and no others.
fn has_bits<S: Sectors>(s: &mut S, geometry: Geometry, map: Bitmap) -> Result<bool, DiskFault>
    requires { IsPlaced geometry (S.state s.old) }
    ensures set { IfOk result (λ b. IsTrue b → (n : ℕ) → n < bit_count geometry map
        → (IsTrue (bit (S.state s.old).sectors (first_sector geometry map) n) ↔ (IsNumber geometry map n → ⊥))) }
    ensures same { IsUnchanged (S.state s.old) (S.state s.new) }
{
    for n in 0..count_bits(geometry, map) {
        let taken = is_taken(s, geometry, map, n)?;
        if !may_be(geometry, map, n, taken) {
            return Ok(false);
        }
    }
    Ok(true)
}
