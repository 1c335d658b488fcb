//! The two bitmaps: what each says, and how a number is taken or given back.

ghost use Rattle.std.specs.Prelude.{◌≡◌, ◌*◌, ◌≤◌, ◌<◌, ◌+◌, IfOk, IsTrue, ◌↔◌, ℕ, length, get_or, false, IfErr, OnOk, OnErr};
ghost use Rattle.fs_layout.specs.Geometry.{IsGeometry};
ghost use Rattle.bit_alloc.specs.Bitmaps.{first_sector, bit_count, free_numbers, HasBitmaps, IsNumber, IsNumberOf, sector_of, IsSectorOf, Marks, TakesNumber, TakesNumbers, GivesNumber, GivesNumbers};
ghost use Rattle.bit_alloc.specs.declared.bitmap.TakeFault.TheVariants.{DiskFault as Device};
ghost use Rattle.fs_layout.specs.Images.{bit};
ghost use Rattle.fs_layout.specs.Header.{log_end};
ghost use Rattle.sector_txn.specs.Sectors.{IsUnchanged, SameStore, PutsOnly};
ghost use Rattle.sector_disk.specs.Disk.{HasCause};
ghost use Rattle.bit_alloc.specs.Bits.{clear_below};
ghost use Rattle.bit_alloc.specs.Room.{bitmaps, HasSpare};
ghost use Rattle.bit_alloc.specs.Faults.{HasCauseOf};

use crate::bits::{clear_listed, count_clear_up_to, has_bit, set_listed, with_bit};
use fs_layout::Geometry;
use sector_disk::DiskFault;
use sector_txn::Sectors;

/// Which numbers a bitmap keeps.
#[derive(Clone, Copy, Debug, PartialEq, Eq)]
pub enum Bitmap {
    /// The inodes.
    Inodes,
    /// The data sectors. The bitmap has a bit for each sector of the disk.
    Blocks,
}

impl Bitmap {
    /// The first sector of the bitmap.
    pub fn first(self, geometry: Geometry) -> u32
        ensures { result ≡ first_sector geometry self }
    {
        match self {
            Bitmap::Inodes => geometry.inode_bitmap,
            Bitmap::Blocks => geometry.block_bitmap,
        }
    }

    /// How many sectors it has.
    pub fn sectors(self, geometry: Geometry) -> u32
        requires { IsGeometry geometry }
        ensures { 4096 * result ≡ bit_count geometry self }
    {
        match self {
            Bitmap::Inodes => geometry.block_bitmap - geometry.inode_bitmap,
            Bitmap::Blocks => geometry.table - geometry.block_bitmap,
        }
    }
}

/// Why no number is taken.
#[derive(Clone, Copy, Debug, PartialEq, Eq)]
pub enum TakeFault {
    /// No number is free.
    Full = 1,
    /// The disk has failed.
    DiskFault = 2,
}

impl From<DiskFault> for TakeFault {
    ghost from_gives = { λ _ e. e ≡ Device };

    fn from(_: DiskFault) -> TakeFault {
        TakeFault::DiskFault
    }
}

/// Whether a bit is set. It may be one that is no number's.
pub fn is_taken<S: Sectors>(
    s: &mut S,
    geometry: Geometry,
    map: Bitmap,
    n: u32,
) -> Result<bool, DiskFault>
    requires geometry { IsGeometry geometry }
    requires disk { geometry.sectors ≤ (S.state s.old).disk.size }
    requires bit { n < bit_count geometry map }
    requires header { log_end (S.state s.old).header ≤ geometry.inode_bitmap }
    ensures taken { IfOk result (λ b. b ≡ bit (S.state s.old).sectors (first_sector geometry map) n) }
    ensures same { IsUnchanged (S.state s.old) (S.state s.new) }
    ensures cause { HasCause (S.state s.old).disk (S.state s.new).disk result }
{
    let mut sector = [0; 512];
    s.get(map.first(geometry) + n / 4096, &mut sector)?;
    Ok(has_bit(sector[n as usize % 4096 / 8], n % 8))
}

/// How many numbers are free.
pub fn count_free<S: Sectors>(s: &mut S, geometry: Geometry, map: Bitmap) -> Result<u32, DiskFault>
    requires { HasBitmaps geometry (S.state s.old) }
    ensures free { IfOk result (λ k. k ≡ free_numbers geometry map (S.state s.old).sectors) }
    ensures same { IsUnchanged (S.state s.old) (S.state s.new) }
    ensures cause { HasCause (S.state s.old).disk (S.state s.new).disk result }
{
    let sectors = map.sectors(geometry);
    let free = count_between(s, geometry, map, 0, sectors, u32::MAX)?;
    Ok(free)
}

/// Whether at least k numbers are free. It reads no further once it knows, and begins behind the sectors that were full lately.
pub fn has_free<S: Sectors>(
    s: &mut S,
    geometry: Geometry,
    map: Bitmap,
    k: u32,
) -> Result<bool, DiskFault>
    requires { HasBitmaps geometry (S.state s.old) }
    ensures free { IfOk result (λ b. IsTrue b ↔ (k ≤ free_numbers geometry map (S.state s.old).sectors)) }
    ensures same { IsUnchanged (S.state s.old) (S.state s.new) }
    ensures cause { HasCause (S.state s.old).disk (S.state s.new).disk result }
{
    let sectors = map.sectors(geometry);
    let first = map.first_sought(s, 0, sectors);
    let free = count_between(s, geometry, map, first, sectors, k)?;
    if free >= k {
        return Ok(true);
    }
    let rest = count_between(s, geometry, map, 0, first, k - free)?;
    Ok(free + rest >= k)
}

// Counts the bitmap's sectors from one on up to another until so many numbers are known to be free.
fn count_between<S: Sectors>(
    s: &mut S,
    geometry: Geometry,
    map: Bitmap,
    from: u32,
    to: u32,
    enough: u32,
) -> Result<u32, DiskFault>
    requires bitmaps { HasBitmaps geometry (S.state s.old) }
    requires range { (from ≤ to) × (4096 * to ≤ bit_count geometry map) }
    ensures some { IfOk result (λ k. clear_below (S.state s.old).sectors (first_sector geometry map) (4096 * from) + k
        ≤ clear_below (S.state s.old).sectors (first_sector geometry map) (4096 * to)) }
    ensures all { IfOk result (λ k. k < enough → clear_below (S.state s.old).sectors (first_sector geometry map) (4096 * from) + k
        ≡ clear_below (S.state s.old).sectors (first_sector geometry map) (4096 * to)) }
    ensures same { IsUnchanged (S.state s.old) (S.state s.new) }
    ensures cause { HasCause (S.state s.old).disk (S.state s.new).disk result }
{
    let sectors = map.sectors(geometry);
    let mut sector = [0; 512];
    let mut free = 0;
    for k in from..to {
        if free >= enough {
            return Ok(free);
        }
        s.get(map.first(geometry) + k, &mut sector)?;
        free += count_clear_up_to(&sector, enough - free);
        pass_by_full(s, map, free, k + 1, sectors);
    }
    Ok(free)
}

// Where nothing is free so far, a later search goes on at the next sector.
fn pass_by_full<S: Sectors>(s: &mut S, map: Bitmap, free: u32, next: u32, sectors: u32)
    ensures { IsUnchanged (S.state s.old) (S.state s.new) }
{
    if free == 0 {
        map.pass_by(s, 0, next, sectors);
    }
}

/// Takes a number that is free. The sectors of the bitmap are looked at in turn, from that of `near` on, round to the one
/// before it, but for those that were full lately, and the number is the lowest one in the first of them that isn't full; no clause says
/// so. `near` may be any number.
pub fn take<S: Sectors>(
    s: &mut S,
    geometry: Geometry,
    map: Bitmap,
    near: u32,
) -> Result<u32, TakeFault>
    requires bitmaps { HasBitmaps geometry (S.state s.old) }
    requires room { HasSpare geometry 0 (S.state s.old) }
    ensures taken { IfOk result (λ n. TakesNumber geometry map n (S.state s.old).sectors (S.state s.new).sectors) }
    ensures puts { IfOk result (λ n. PutsOnly (λ t. t ≡ sector_of geometry map n) (bitmaps geometry) 0 (S.state s.old) (S.state s.new)) }
    ensures bitmaps { OnOk result (HasBitmaps geometry (S.state s.new)) }
    ensures full { IfErr result (λ e. e ≡ TakeFault.Full → free_numbers geometry map (S.state s.old).sectors ≡ 0) }
    ensures unchanged { OnErr result (IsUnchanged (S.state s.old) (S.state s.new)) }
    ensures cause { HasCauseOf TakeFault.DiskFault (S.state s.old).disk (S.state s.new).disk result }
{
    let mut numbers = [0];
    take_next(s, geometry, map, near, &mut numbers, 0)?;
    Ok(numbers[0])
}

/// Takes as many numbers that are free as a list has places, and writes them there. The sectors of the bitmap are looked at as [`take`]
/// does, and each is read and put once for all that are taken in it.
///
/// At `Err` some may have been taken, and of the list nothing is said.
pub fn take_all<S: Sectors>(
    s: &mut S,
    geometry: Geometry,
    map: Bitmap,
    near: u32,
    numbers: &mut [u32],
) -> Result<(), TakeFault>
    requires bitmaps { HasBitmaps geometry (S.state s.old) }
    requires room { HasSpare geometry 0 (S.state s.old) }
    ensures len { length numbers.new ≡ length numbers.old }
    ensures taken { OnOk result (TakesNumbers geometry map numbers.new 0 (length numbers.new)
        (S.state s.old).sectors (S.state s.new).sectors) }
    ensures puts { OnOk result (PutsOnly (IsSectorOf geometry map (IsNumberOf numbers.new 0 (length numbers.new))) (bitmaps geometry) 0
        (S.state s.old) (S.state s.new)) }
    ensures bitmaps { OnOk result (HasBitmaps geometry (S.state s.new)) }
    ensures full { IfErr result (λ e. e ≡ TakeFault.Full → free_numbers geometry map (S.state s.old).sectors < length numbers.old) }
    ensures store { SameStore (S.state s.old) (S.state s.new) }
    ensures cause { HasCauseOf TakeFault.DiskFault (S.state s.old).disk (S.state s.new).disk result }
{
    let mut at = 0;
    while at < numbers.len() {
        at = take_next(s, geometry, map, near, numbers, at)?;
    }
    Ok(())
}

// Takes as many numbers as the first sector has that isn't full, and writes them into a list from place `from` on, or as many as have a
// place there. Answers the place behind them.
fn take_next<S: Sectors>(
    s: &mut S,
    geometry: Geometry,
    map: Bitmap,
    near: u32,
    numbers: &mut [u32],
    from: usize,
) -> Result<usize, TakeFault>
    requires bitmaps { HasBitmaps geometry (S.state s.old) }
    requires within { from < length numbers.old }
    requires room { HasSpare geometry 0 (S.state s.old) }
    ensures more { IfOk result (λ end. from < end) }
    ensures within { IfOk result (λ end. end ≤ length numbers.old) }
    ensures len { length numbers.new ≡ length numbers.old }
    ensures before { (i : ℕ) → i < from → get_or numbers.new i 0 ≡ get_or numbers.old i 0 }
    ensures taken { IfOk result (λ end. TakesNumbers geometry map numbers.new from end (S.state s.old).sectors (S.state s.new).sectors) }
    ensures puts { IfOk result (λ end. PutsOnly (IsSectorOf geometry map (IsNumberOf numbers.new from end)) (bitmaps geometry) 0
        (S.state s.old) (S.state s.new)) }
    ensures bitmaps { OnOk result (HasBitmaps geometry (S.state s.new)) }
    ensures full { IfErr result (λ e. e ≡ TakeFault.Full → free_numbers geometry map (S.state s.old).sectors ≡ 0) }
    ensures unchanged { OnErr result (IsUnchanged (S.state s.old) (S.state s.new)) }
    ensures cause { HasCauseOf TakeFault.DiskFault (S.state s.old).disk (S.state s.new).disk result }
{
    let mut sector = [0; 512];
    let sectors = map.sectors(geometry);
    let sought = near / 4096;
    let first = map.first_sought(s, sought, sectors);
    for turn in 0..sectors {
        let k = (first + turn) % sectors;
        s.get(map.first(geometry) + k, &mut sector)?;
        let end = set_listed(&mut sector, k, numbers, from);
        if end > from {
            s.put(map.first(geometry) + k, &sector);
            return Ok(end);
        }
        map.pass_by(s, sought, k + 1, sectors);
    }
    Err(TakeFault::Full)
}

/// Makes a number free. One that was free stays so.
pub fn give<S: Sectors>(s: &mut S, geometry: Geometry, map: Bitmap, n: u32) -> Result<(), DiskFault>
    requires bitmaps { HasBitmaps geometry (S.state s.old) }
    requires number { IsNumber geometry map n }
    requires room { HasSpare geometry 0 (S.state s.old) }
    ensures given { OnOk result (GivesNumber geometry map n (S.state s.old).sectors (S.state s.new).sectors) }
    ensures puts { OnOk result (PutsOnly (λ t. t ≡ sector_of geometry map n) (bitmaps geometry) 0 (S.state s.old) (S.state s.new)) }
    ensures bitmaps { OnOk result (HasBitmaps geometry (S.state s.new)) }
    ensures unchanged { OnErr result (IsUnchanged (S.state s.old) (S.state s.new)) }
    ensures cause { HasCause (S.state s.old).disk (S.state s.new).disk result }
{
    let mut sector = [0; 512];
    s.get(map.first(geometry) + n / 4096, &mut sector)?;
    clear_bit(s, geometry, map, n, &mut sector);
    Ok(())
}

/// Makes the numbers of a list free, in which 0 is none. Those that were free stay so. A sector of the bitmap is read and put once for
/// as many of them as follow one another in it.
///
/// At `Err` some may have been made free.
pub fn give_all<S: Sectors>(
    s: &mut S,
    geometry: Geometry,
    map: Bitmap,
    numbers: &[u32],
) -> Result<(), DiskFault>
    requires bitmaps { HasBitmaps geometry (S.state s.old) }
    requires numbers { (n : ℕ) → IsNumberOf numbers.now 0 (length numbers.now) n → IsNumber geometry map n }
    requires room { HasSpare geometry 0 (S.state s.old) }
    ensures given { OnOk result (GivesNumbers geometry map (IsNumberOf numbers.now 0 (length numbers.now))
        (S.state s.old).sectors (S.state s.new).sectors) }
    ensures puts { OnOk result (PutsOnly (IsSectorOf geometry map (IsNumberOf numbers.now 0 (length numbers.now))) (bitmaps geometry) 0
        (S.state s.old) (S.state s.new)) }
    ensures bitmaps { OnOk result (HasBitmaps geometry (S.state s.new)) }
    ensures store { SameStore (S.state s.old) (S.state s.new) }
    ensures cause { HasCause (S.state s.old).disk (S.state s.new).disk result }
{
    let mut at = 0;
    while at < numbers.len() {
        at = give_next(s, geometry, map, numbers, at)?;
    }
    Ok(())
}

// Makes those numbers of a list free that follow one another from `from` on in one sector of the bitmap, or passes by one that is none,
// and answers from where on the rest stand.
fn give_next<S: Sectors>(
    s: &mut S,
    geometry: Geometry,
    map: Bitmap,
    numbers: &[u32],
    from: usize,
) -> Result<usize, DiskFault>
    requires bitmaps { HasBitmaps geometry (S.state s.old) }
    requires within { from < length numbers.now }
    requires numbers { (n : ℕ) → IsNumberOf numbers.now 0 (length numbers.now) n → IsNumber geometry map n }
    requires room { HasSpare geometry 0 (S.state s.old) }
    ensures more { IfOk result (λ end. from < end) }
    ensures within { IfOk result (λ end. end ≤ length numbers.now) }
    ensures given { IfOk result (λ end. GivesNumbers geometry map (IsNumberOf numbers.now from end)
        (S.state s.old).sectors (S.state s.new).sectors) }
    ensures puts { IfOk result (λ end. PutsOnly (IsSectorOf geometry map (IsNumberOf numbers.now from end)) (bitmaps geometry) 0
        (S.state s.old) (S.state s.new)) }
    ensures bitmaps { OnOk result (HasBitmaps geometry (S.state s.new)) }
    ensures unchanged { OnErr result (IsUnchanged (S.state s.old) (S.state s.new)) }
    ensures cause { HasCause (S.state s.old).disk (S.state s.new).disk result }
{
    if numbers[from] == 0 {
        return Ok(from + 1);
    }
    let mut sector = [0; 512];
    let k = numbers[from] / 4096;
    s.get(map.first(geometry) + k, &mut sector)?;
    let end = clear_listed(&mut sector, k, numbers, from);
    s.put(map.first(geometry) + k, &sector);
    Ok(end)
}

// Clears the bit of a number in its sector, which is read already.
fn clear_bit<S: Sectors>(s: &mut S, geometry: Geometry, map: Bitmap, n: u32, sector: &mut [u8; 512])
    requires bitmaps { HasBitmaps geometry (S.state s.old) }
    requires number { IsNumber geometry map n }
    requires content { sector.old ≡ (S.state s.old).sectors (sector_of geometry map n) }
    requires room { HasSpare geometry 0 (S.state s.old) }
    ensures marks { Marks geometry map n (S.state s.old).sectors (S.state s.new).sectors }
    ensures bit { bit (S.state s.new).sectors (first_sector geometry map) n ≡ false }
    ensures puts { PutsOnly (λ t. t ≡ sector_of geometry map n) (bitmaps geometry) 0 (S.state s.old) (S.state s.new) }
    ensures bitmaps { HasBitmaps geometry (S.state s.new) }
{
    let at = n as usize % 4096 / 8;
    sector[at] = with_bit(sector[at], n % 8, false);
    s.put(map.first(geometry) + n / 4096, sector);
}
