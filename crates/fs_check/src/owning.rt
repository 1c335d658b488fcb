//! The numbers of the sectors that an inode owns.

ghost use Rattle.std.specs.Prelude.{◌≡◌, ◌≢◌, ◌⊎◌, ◌≤◌, ◌<◌, ◌-◌, ◌*◌, ℕ, [], get_or, OnOk, IfOk, IsTrue, ◌↔◌};
ghost use Rattle.fs_layout.specs.declared.inode.TheConstants.{POINTER_LEVELS, SECTOR_POINTERS};
ghost use Rattle.fs_layout.specs.Bytes.{SectorMap, u32_of};
ghost use Rattle.fs_layout.specs.Images.{IsData, number_on};
ghost use Rattle.fs_check.specs.Owning.{AreAtHand, HasLevelInData, HasAboveInData};
ghost use Rattle.fs_check.specs.Checks.{meaning, BeginsWith, Passed, IsNone};

use crate::faults::Checked;
use crate::opening::Opened;
use crate::reading::read_recovered;
use byteorder::{ByteOrder, LittleEndian};
use fs_layout::{Geometry, Inode, POINTER_LEVELS, SECTOR_POINTERS, own_count};
use sector_disk::Disk;

/// The sectors of pointers that were read last, one of each level.
#[derive(Drop)]
pub(crate) struct Pointers {
    // The numbers of the sectors, that of the first level first; 0 where none was read.
    sectors: [u32; POINTER_LEVELS],
    /// What stands in them, that of the first level first.
    pub contents: [[u8; 512]; POINTER_LEVELS],
}

/// Number `i` of those that stand in a sector of pointers.
pub(crate) fn number_at(content: &[u8; 512], i: usize) -> u32
    requires { i < SECTOR_POINTERS }
    ensures { result ≡ u32_of content.now (4 * i) }
{
    LittleEndian::read_u32(&content[4 * i..])
}

/// The sector is in the data area.
pub(crate) fn is_data(geometry: Geometry, s: u32) -> bool
    ensures { IsTrue result ↔ IsData geometry s }
{
    geometry.first_data <= s && s < geometry.sectors
}

/// The highest level on which the inode has a number: where it names no sector of pointers, that of its blocks.
pub(crate) fn top_level(inode: &Inode) -> usize
    ensures either { (result ≡ 0) ⊎ (result ≡ POINTER_LEVELS) }
    ensures none { (level : ℕ) → result < level → level ≤ POINTER_LEVELS → (m : SectorMap) (i : ℕ) → number_on m inode.now level i ≡ 0 }
{
    if inode.indirect == [0; POINTER_LEVELS] {
        0
    } else {
        POINTER_LEVELS
    }
}

impl Pointers {
    /// No sector was read yet.
    pub fn new() -> Pointers
        ensures { (m : SectorMap) → AreAtHand m result }
    {
        Pointers {
            sectors: [0; POINTER_LEVELS],
            contents: [[0; 512]; POINTER_LEVELS],
        }
    }

    // Reads a sector of pointers of a level, unless it is at hand. At `Err` nothing is said of what is at hand.
    fn load<D: Disk>(&mut self, disk: &mut D, opened: &Opened, level: usize, s: u32) -> Checked<()>
        requires opened { BeginsWith (D.state disk.old) opened.now.geometry opened.now.area opened.now.commit }
        requires lowest { 1 ≤ level }
        requires highest { level ≤ POINTER_LEVELS }
        requires some { s ≢ 0 }
        requires on_disk { s < (D.state disk.old).size }
        requires at_hand { AreAtHand (meaning (D.state disk.old)) self.old }
        ensures at_hand { OnOk result (AreAtHand (meaning (D.state disk.old)) self.new) }
        ensures content { OnOk result (get_or self.new.contents (level - 1) [] ≡ meaning (D.state disk.old) s) }
        ensures passed { Passed IsNone (D.state disk.old) (D.state disk.new) result }
    {
        let at = level - 1;
        if self.sectors[at] == s {
            return Ok(());
        }
        read_recovered(disk, opened, s, &mut self.contents[at])?;
        self.sectors[at] = s;
        Ok(())
    }

    /// Number `i` of a level of an inode; 0 where there is none.
    ///
    /// At `Err` nothing is said of what is at hand.
    pub fn number<D: Disk>(
        &mut self,
        disk: &mut D,
        opened: &Opened,
        inode: &Inode,
        level: usize,
        i: u64,
    ) -> Checked<u32>
        requires opened { BeginsWith (D.state disk.old) opened.now.geometry opened.now.area opened.now.commit }
        requires level { level ≤ POINTER_LEVELS }
        requires above { HasAboveInData opened.now.geometry (meaning (D.state disk.old)) inode.now level }
        requires at_hand { AreAtHand (meaning (D.state disk.old)) self.old }
        ensures number { IfOk result (λ s. s ≡ number_on (meaning (D.state disk.old)) inode.now level i) }
        ensures at_hand { OnOk result (AreAtHand (meaning (D.state disk.old)) self.new) }
        ensures passed { Passed IsNone (D.state disk.old) (D.state disk.new) result }
    {
        let own = own_count(level);
        if i < own {
            return Ok(inode.number(level, &self.contents[0], i));
        }
        // There is no level above the highest.
        if level == POINTER_LEVELS {
            return Ok(0);
        }
        let s = self.number(disk, opened, inode, level + 1, (i - own) / SECTOR_POINTERS)?;
        if s == 0 {
            return Ok(0);
        }
        self.load(disk, opened, level + 1, s)?;
        Ok(inode.number(level, &self.contents[level], i))
    }

    /// Number `i` of a level of sectors of pointers, 0 where there is none; that sector is at hand then.
    ///
    /// At `Err` nothing is said of what is at hand.
    pub fn find<D: Disk>(
        &mut self,
        disk: &mut D,
        opened: &Opened,
        inode: &Inode,
        level: usize,
        i: u64,
    ) -> Checked<u32>
        requires opened { BeginsWith (D.state disk.old) opened.now.geometry opened.now.area opened.now.commit }
        requires lowest { 1 ≤ level }
        requires highest { level ≤ POINTER_LEVELS }
        requires in_data { HasLevelInData opened.now.geometry (meaning (D.state disk.old)) inode.now level }
        requires above { HasAboveInData opened.now.geometry (meaning (D.state disk.old)) inode.now level }
        requires at_hand { AreAtHand (meaning (D.state disk.old)) self.old }
        ensures number { IfOk result (λ s. s ≡ number_on (meaning (D.state disk.old)) inode.now level i) }
        ensures content { IfOk result (λ s. s ≢ 0 → get_or self.new.contents (level - 1) [] ≡ meaning (D.state disk.old) s) }
        ensures at_hand { OnOk result (AreAtHand (meaning (D.state disk.old)) self.new) }
        ensures passed { Passed IsNone (D.state disk.old) (D.state disk.new) result }
    {
        let s = self.number(disk, opened, inode, level, i)?;
        if s == 0 {
            return Ok(0);
        }
        self.load(disk, opened, level, s)?;
        Ok(s)
    }
}
