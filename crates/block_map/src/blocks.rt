//! The blocks of an inode.

ghost use Rattle.std.specs.Prelude.{◌≡◌, ◌≢◌, ◌≤◌, ◌<◌, ◌+◌, ◌*◌, ◌^◌, ℕ, length, get_or, false, IfOk, OnOk};
ghost use Rattle.std.specs.Fn.{FnOnceReturnsAt};
ghost use Rattle.fs_layout.specs.declared.inode.TheConstants.{DIRECT_BLOCKS, POINTER_LEVELS, SECTOR_POINTERS};
ghost use Rattle.fs_layout.specs.Bytes.{SectorMap, splice, le32};
ghost use Rattle.fs_layout.specs.Header.{log_end};
ghost use Rattle.fs_layout.specs.Images.{HasPointers, HasPointersAbove, byte_in, byte_at, number_on, place_in_holder, pointer};
ghost use Rattle.sector_txn.specs.Sectors.{IsPut, IsUnchanged};
ghost use Rattle.sector_disk.specs.Disk.{HasCause};
ghost use Rattle.block_map.specs.Blocks.{IsWithin};

use byteorder::{ByteOrder, LittleEndian};
use fs_layout::{DIRECT_BLOCKS, Inode, MAX_BLOCKS, POINTER_LEVELS, SECTOR_POINTERS};
use sector_disk::DiskFault;
use sector_txn::Sectors;

/// The bytes of a block.
pub(crate) const BLOCK: usize = 512;

/// An inode and one of its sectors of pointers, so that blocks can be read one by one.
#[derive(Drop)]
pub struct Blocks {
    /// The inode.
    pub inode: Inode,
    // Which sector of pointers to blocks is at hand, counted from the one that the inode names.
    pub(crate) index: u64,
    // The number of that sector, or 0: there is none.
    pub(crate) sector: u32,
    // The content of that sector; zeros where there is none.
    pub(crate) pointers: [u8; 512],
    // Near this number a sector is sought: that of the first block, and then the one that was taken last.
    pub(crate) near: u32,
}

/// Writes number `i` of a sector of pointers.
pub(crate) fn write_pointer(pointers: &mut [u8; 512], i: usize, number: u32)
    requires { i < SECTOR_POINTERS }
    ensures { pointers.new ≡ splice pointers.old (4 * i) (le32 number) }
{
    LittleEndian::write_u32(&mut pointers[4 * i..], number);
}

/// Reads the sector of pointers that is number `i` of a level, zeros where there is none, and answers its number. `content` is
/// that of the sector in which the number stands, if it doesn't stand in the inode.
///
/// At `Err` nothing is said of `content`.
pub(crate) fn read_listed<S: Sectors>(
    s: &mut S,
    inode: &Inode,
    level: usize,
    i: u64,
    content: &mut [u8; 512],
) -> Result<u32, DiskFault>
    requires within { IsWithin (S.state s.old).header (S.state s.old).disk.size (S.state s.old).sectors inode.now }
    requires listed { HasPointersAbove (S.state s.old).sectors inode.now level i content.old }
    ensures number { IfOk result (λ n. n ≡ number_on (S.state s.old).sectors inode.now level i) }
    ensures content { OnOk result (HasPointers (S.state s.old).sectors inode.now level i content.new) }
    ensures same { IsUnchanged (S.state s.old) (S.state s.new) }
    ensures cause { HasCause (S.state s.old).disk (S.state s.new).disk result }
{
    let number = inode.number(level, content, i);
    if number == 0 {
        content.fill(0);
        return Ok(0);
    }
    s.get(number, content)?;
    Ok(number)
}

/// Reads the sector of pointers that is number `i` of a level, zeros where there is none, with those by which it is found, and answers
/// its number.
///
/// At `Err` nothing is said of `content`.
pub(crate) fn read_pointers<S: Sectors>(
    s: &mut S,
    inode: &Inode,
    level: usize,
    i: u64,
    content: &mut [u8; 512],
) -> Result<u32, DiskFault>
    requires within { IsWithin (S.state s.old).header (S.state s.old).disk.size (S.state s.old).sectors inode.now }
    requires level { (1 ≤ level) × (level ≤ POINTER_LEVELS + 1) }
    ensures number { IfOk result (λ n. n ≡ number_on (S.state s.old).sectors inode.now level i) }
    ensures content { OnOk result (HasPointers (S.state s.old).sectors inode.now level i content.new) }
    ensures same { IsUnchanged (S.state s.old) (S.state s.new) }
    ensures cause { HasCause (S.state s.old).disk (S.state s.new).disk result }
{
    // There is no level above the highest.
    if level > POINTER_LEVELS {
        content.fill(0);
        return Ok(0);
    }
    if i == 0 {
        let number = read_listed(s, inode, level, i, content)?;
        return Ok(number);
    }
    read_pointers(s, inode, level + 1, (i - 1) / SECTOR_POINTERS, content)?;
    let number = read_listed(s, inode, level, i, content)?;
    Ok(number)
}

impl Blocks {
    ghost use Rattle.block_map.specs.Blocks.{IsAtHand, IsLoaded, IsMadeOfBlock, IsTaken};

    /// The blocks of an inode.
    pub fn new(inode: &Inode) -> Blocks
        ensures inode { result.inode ≡ inode.now }
        ensures at_hand { (image : SectorMap) → IsAtHand image result }
    {
        // No sector of pointers has this index.
        Blocks {
            inode: *inode,
            index: MAX_BLOCKS,
            sector: 0,
            pointers: [0; BLOCK],
            near: inode.direct[0],
        }
    }

    /// Reads the sector of pointers that has the number of block `k`, unless it is at hand, or the number stands in the inode.
    ///
    /// At `Err` nothing is said of what is at hand.
    pub(crate) fn load<S: Sectors>(&mut self, s: &mut S, k: u64) -> Result<(), DiskFault>
        requires within { IsWithin (S.state s.old).header (S.state s.old).disk.size (S.state s.old).sectors self.old.inode }
        requires at_hand { IsAtHand (S.state s.old).sectors self.old }
        ensures inode { self.new.inode ≡ self.old.inode }
        ensures loaded { OnOk result (IsLoaded (S.state s.old).sectors self.new k) }
        ensures same { IsUnchanged (S.state s.old) (S.state s.new) }
        ensures cause { HasCause (S.state s.old).disk (S.state s.new).disk result }
    {
        if k < DIRECT_BLOCKS {
            return Ok(());
        }
        let index = (k - DIRECT_BLOCKS) / SECTOR_POINTERS;
        if index == self.index {
            return Ok(());
        }
        self.sector = read_pointers(s, &self.inode, 1, index, &mut self.pointers)?;
        self.index = index;
        Ok(())
    }

    /// The sector of a block for which [`Blocks::load`] was called; 0 for a hole.
    pub(crate) fn number(&self, k: u64) -> u32
        ensures { (image : SectorMap) → IsLoaded image self.now k → result ≡ pointer image self.now.inode k }
    {
        self.inode.number(0, &self.pointers, k)
    }

    // The sector of block `k`, 0 for a hole. The sector of pointers that has its number is at hand then.
    //
    // At `Err` nothing is said of what is at hand.
    fn find<S: Sectors>(&mut self, s: &mut S, k: u64) -> Result<u32, DiskFault>
        requires within { IsWithin (S.state s.old).header (S.state s.old).disk.size (S.state s.old).sectors self.old.inode }
        requires at_hand { IsAtHand (S.state s.old).sectors self.old }
        ensures inode { self.new.inode ≡ self.old.inode }
        ensures at_hand { OnOk result (IsAtHand (S.state s.old).sectors self.new) }
        ensures number { IfOk result (λ n. n ≡ pointer (S.state s.old).sectors self.old.inode k) }
        ensures inside { IfOk result (λ n. n ≢ 0 → (log_end (S.state s.new).header ≤ n) × (n < (S.state s.new).disk.size)) }
        ensures same { IsUnchanged (S.state s.old) (S.state s.new) }
        ensures cause { HasCause (S.state s.old).disk (S.state s.new).disk result }
    {
        self.load(s, k)?;
        Ok(self.number(k))
    }

    /// A sector of pointers was taken, which is number `i` of a level: one to blocks is at hand then, as zeros.
    pub(crate) fn was_taken(&mut self, level: usize, i: u64, number: u32)
        ensures { IsTaken level i number self.old self.new }
    {
        self.near = number;
        if level == 1 {
            self.index = i;
            self.sector = number;
            self.pointers = [0; BLOCK];
        }
    }

    /// Reads block `k`; a hole reads as zeros.
    ///
    /// At `Err` nothing is said of `to`, nor of what is at hand.
    pub fn read<S: Sectors>(
        &mut self,
        s: &mut S,
        k: u64,
        to: &mut [u8; 512],
    ) -> Result<(), DiskFault>
        requires within { IsWithin (S.state s.old).header (S.state s.old).disk.size (S.state s.old).sectors self.old.inode }
        requires at_hand { IsAtHand (S.state s.old).sectors self.old }
        ensures inode { self.new.inode ≡ self.old.inode }
        ensures at_hand { OnOk result (IsAtHand (S.state s.old).sectors self.new) }
        ensures bytes { OnOk result ((i : ℕ) → i < 512 → get_or to.new i 0 ≡ byte_at (S.state s.old).sectors self.old.inode (512 * k + i)) }
        ensures same { IsUnchanged (S.state s.old) (S.state s.new) }
        ensures cause { HasCause (S.state s.old).disk (S.state s.new).disk result }
    {
        let number = self.find(s, k)?;
        if number == 0 {
            to.fill(0);
            return Ok(());
        }
        s.get(number, to)?;
        Ok(())
    }

    /// Reads block `k` where it stands: what `read` makes of its bytes. A hole reads as zeros.
    ///
    /// At `Err` nothing is said of what is at hand.
    pub fn read_with<S: Sectors, T, F: FnOnce(&[u8; 512]) -> T + Drop>(
        &mut self,
        s: &mut S,
        k: u64,
        read: F,
    ) -> Result<T, DiskFault>
        requires within { IsWithin (S.state s.old).header (S.state s.old).disk.size (S.state s.old).sectors self.old.inode }
        requires at_hand { IsAtHand (S.state s.old).sectors self.old }
        requires callable { F.IsAlwaysCallable read }
        ensures inode { self.new.inode ≡ self.old.inode }
        ensures at_hand { OnOk result (IsAtHand (S.state s.old).sectors self.new) }
        ensures made { IfOk result (IsMadeOfBlock (S.state s.old).sectors self.old.inode k (FnOnceReturnsAt F.FnOnce read)) }
        ensures same { IsUnchanged (S.state s.old) (S.state s.new) }
        ensures cause { HasCause (S.state s.old).disk (S.state s.new).disk result }
    {
        let number = self.find(s, k)?;
        if number == 0 {
            return Ok(read(&[0; BLOCK]));
        }
        let made = s.read_with(number, read)?;
        Ok(made)
    }

    /// Writes the sector of a block into the sector of pointers at hand.
    pub(crate) fn put_pointer<S: Sectors>(&mut self, s: &mut S, k: u64, number: u32)
        requires listed { DIRECT_BLOCKS ≤ k }
        requires within { (log_end (S.state s.old).header ≤ self.old.sector) × (self.old.sector < (S.state s.old).disk.size) }
        requires room { (S.state s.old).has_put self.old.sector ≡ false → 0 < (S.state s.old).room }
        ensures pointers { self.new.pointers ≡ splice self.old.pointers (4 * place_in_holder DIRECT_BLOCKS k) (le32 number) }
        ensures inode { self.new.inode ≡ self.old.inode }
        ensures here { (self.new.index ≡ self.old.index) × (self.new.sector ≡ self.old.sector) }
        ensures put { IsPut self.old.sector self.new.pointers (S.state s.old) (S.state s.new) }
    {
        let at = (k - DIRECT_BLOCKS) % SECTOR_POINTERS;
        write_pointer(&mut self.pointers, at as usize, number);
        s.put(self.sector, &self.pointers);
    }
}

/// Reads the bytes from `at` on of a sector; a hole, sector 0, reads as zeros.
pub(crate) fn read_block<S: Sectors>(
    s: &mut S,
    number: u32,
    at: usize,
    to: &mut [u8],
) -> Result<(), DiskFault>
    requires within { number ≢ 0 → (log_end (S.state s.old).header ≤ number) × (number < (S.state s.old).disk.size) }
    requires fits { at + length to.old ≤ 512 }
    ensures bytes { OnOk result ((i : ℕ) → i < length to.old → get_or to.new i 0 ≡ byte_in (S.state s.old).sectors number (at + i)) }
    ensures same { IsUnchanged (S.state s.old) (S.state s.new) }
    ensures cause { HasCause (S.state s.old).disk (S.state s.new).disk result }
{
    if number == 0 {
        to.fill(0);
        return Ok(());
    }
    // A whole block is read into its place.
    if let Some(whole) = to.as_mut_array() {
        s.get(number, whole)?;
        return Ok(());
    }
    let mut block = [0; BLOCK];
    s.get(number, &mut block)?;
    to.copy_from_slice(&block[at..at + to.len()]);
    Ok(())
}
