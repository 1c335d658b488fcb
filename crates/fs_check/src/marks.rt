//! How often sectors are owned: never, once, or more often.

ghost use Rattle.std.specs.Prelude.{◌≡◌, ◌≢◌, ◌≤◌, ◌<◌, ◌+◌, ◌-◌, ℕ, [], true, false, length, get_or, set, replicate, IfOk, IsTrue, ◌↔◌};
ghost use Rattle.fs_layout.specs.declared.inode.TheConstants.{POINTER_LEVELS};
ghost use Rattle.fs_layout.specs.declared.geometry.Geometry.{Geometry};
ghost use Rattle.fs_layout.specs.Bytes.{SectorMap};
ghost use Rattle.fs_layout.specs.Images.{IsData};
ghost use Rattle.fs_check.specs.Counts.{times_reached, AreInDataArea, HaveRoom, IsMarked, AddsOwners};

use crate::bit_table::BitTable;
use crate::owning::is_data;
use fs_layout::{Geometry, POINTER_LEVELS};
use std::alloc::{AllocError, Global};

/// The marks of sectors that inodes own.
#[derive(Drop)]
pub(crate) struct Marks {
    /// For each sector, whether an inode owns it.
    pub owned: BitTable,
    /// For each sector, whether it is owned twice.
    pub twice: BitTable,
    // For each level of sectors of pointers, those by which all that they reach was marked, the first level first.
    once: [BitTable; POINTER_LEVELS],
    // Those by which it was marked twice.
    again: [BitTable; POINTER_LEVELS],
}

// A table for each level of sectors of pointers.
fn level_tables(alloc: Global, size: usize) -> Result<[BitTable; POINTER_LEVELS], AllocError>
    ensures { IfOk result (λ tables. (k : ℕ) → k < POINTER_LEVELS → get_or tables k [] ≡ replicate size false) }
{
    let first = BitTable::new(alloc, size)?;
    let second = BitTable::new(alloc, size)?;
    let third = BitTable::new(alloc, size)?;
    Ok([first, second, third])
}

impl Marks {
    /// No sector is owned yet.
    pub fn new(alloc: Global, size: usize) -> Result<Marks, AllocError>
        ensures { IfOk result (λ marks. (p : Geometry) (m : SectorMap) → p.sectors ≡ size → IsMarked p m (λ s. 0) marks) }
    {
        let owned = BitTable::new(alloc, size)?;
        let twice = BitTable::new(alloc, size)?;
        let once = level_tables(alloc, size)?;
        let again = level_tables(alloc, size)?;
        Ok(Marks {
            owned,
            twice,
            once,
            again,
        })
    }

    /// Marks one more owner of a data sector.
    pub fn mark(&mut self, geometry: Geometry, s: u32)
        requires room { HaveRoom geometry.sectors self.old }
        requires some { s ≢ 0 }
        requires in_data { IsData geometry s }
        ensures marked { (m : SectorMap) → AddsOwners geometry m (times_reached m 0 s) self.old self.new }
        ensures room { HaveRoom geometry.sectors self.new }
    {
        if self.owned.has(s) {
            self.twice.insert(s);
        }
        self.owned.insert(s);
    }

    /// Marks a sector that an inode has for something; 0 is none. Not one outside the data area.
    pub fn mark_number(&mut self, geometry: Geometry, s: u32) -> bool
        requires room { HaveRoom geometry.sectors self.old }
        ensures test { (m : SectorMap) → IsTrue result ↔ AreInDataArea geometry (times_reached m 0 s) }
        ensures marked { IsTrue result → (m : SectorMap) → AddsOwners geometry m (times_reached m 0 s) self.old self.new }
        ensures room { HaveRoom geometry.sectors self.new }
    {
        if s == 0 {
            return true;
        }
        if !is_data(geometry, s) {
            return false;
        }
        self.mark(geometry, s);
        true
    }

    /// All that a sector of pointers of a level reaches was marked.
    pub fn was_passed(&self, level: usize, s: u32) -> bool
        requires lowest { 1 ≤ level }
        requires highest { level ≤ POINTER_LEVELS }
        requires on_disk { s < length (get_or self.now.once (level - 1) []) }
        ensures { IsTrue result ↔ IsTrue (get_or (get_or self.now.once (level - 1) []) s false) }
    {
        self.once[level - 1].has(s)
    }

    /// All that it reaches was marked twice.
    pub fn was_passed_again(&self, level: usize, s: u32) -> bool
        requires lowest { 1 ≤ level }
        requires highest { level ≤ POINTER_LEVELS }
        requires on_disk { s < length (get_or self.now.again (level - 1) []) }
        ensures { IsTrue result ↔ IsTrue (get_or (get_or self.now.again (level - 1) []) s false) }
    {
        self.again[level - 1].has(s)
    }

    /// All that a sector of pointers of a level reaches was marked now, after it was before or not.
    pub fn pass(&mut self, geometry: Geometry, level: usize, s: u32, before: bool)
        requires room { HaveRoom geometry.sectors self.old }
        requires lowest { 1 ≤ level }
        requires highest { level ≤ POINTER_LEVELS }
        requires on_disk { s < geometry.sectors }
        ensures { (m : SectorMap) (counts : ℕ → ℕ) → (IsTrue before → (t : ℕ) → times_reached m level s t ≤ counts t)
            → IsMarked geometry m (λ t. counts t + times_reached m level s t) self.old
            → IsMarked geometry m (λ t. counts t + times_reached m level s t) self.new }
    {
        if before {
            self.again[level - 1].insert(s);
        } else {
            self.once[level - 1].insert(s);
        }
    }
}
