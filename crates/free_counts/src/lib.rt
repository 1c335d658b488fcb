//! How much is free in each sector of a disk's two bitmaps, where that was counted.
//!
//! [`FreeCounts`] remembers it. Whoever has put sectors has them forgotten there, and the next count reads those alone.
//!
//! So many sectors each call reads. [`FreeCounts::new`] alone takes memory, 4 bytes for each sector of the bitmaps.
//!
//! | Call | `get` |
//! |---|---|
//! | [`FreeCounts::new`], [`FreeCounts::forget`] | 0 |
//! | [`FreeCounts::count_free`] | those of the bitmap of which nothing is known |
#![tactic(auto)]

ghost use Rattle.std.specs.Prelude.{◌≡◌, ◌≢◌, ◌+◌, ◌*◌, ◌≤◌, ◌<◌, ◌⊎◌, ℕ, None, Contains, IfOk};
ghost use Rattle.fs_layout.specs.Geometry.{IsGeometry};
ghost use Rattle.fs_layout.specs.Header.{log_end};
ghost use Rattle.sector_txn.specs.Sectors.{IsUnchanged};
ghost use Rattle.sector_disk.specs.Disk.{HasCause};
ghost use Rattle.bit_alloc.specs.Bits.{clear_below};
ghost use Rattle.bit_alloc.specs.Bitmaps.{free_numbers, HasBitmaps};
ghost use Rattle.free_counts.specs.Known.{count_known, TellsClear};

use bit_alloc::Bitmap;
use byteorder::{ByteOrder, LittleEndian};
use fs_layout::Geometry;
use sector_disk::DiskFault;
use sector_txn::Sectors;
use std::alloc::{AllocError, Global};
use std::marker::Model;

// How many words of 64 bits a sector has.
const WORDS: u32 = 64;

// How many bits of a sector are clear.
fn count_clear(sector: &[u8; 512]) -> u32
    ensures { result ≡ clear_below (λ _. sector.now) 0 4096 }
{
    let mut set = 0;
    for k in 0..WORDS {
        set += LittleEndian::read_u64(&sector[8 * k as usize..]).count_ones();
    }
    64 * WORDS - set
}

/// How many bits are clear in each sector of the bitmaps, where that is known. A contract sees what is known of a sector.
#[derive(Drop)]
pub struct FreeCounts {
    // The sector of the first count. The next ones are those of the sectors behind.
    first: u32,
    counts: Vec<Option<u16>>,
}

impl Model for FreeCounts {
    ghost use Rattle.free_counts.specs.Known.{CountList};

    ghost Value = { CountList };

    ghost view = { λ known. record { first = known.first; counts = known.counts.items } };
}

impl FreeCounts {
    /// Room for the counts of both bitmaps. None is known.
    pub fn new(alloc: Global, geometry: Geometry) -> Result<FreeCounts, AllocError>
        requires { IsGeometry geometry }
        ensures { IfOk result (λ known. (n : ℕ) → count_known known n ≡ None) }
    {
        let sectors = geometry.table - geometry.inode_bitmap;
        Ok(FreeCounts {
            first: geometry.inode_bitmap,
            counts: vec![in alloc; None; sectors as usize]?,
        })
    }

    // How many bits of a sector are clear, where that is known.
    fn known(&self, n: u32) -> Option<u16>
        ensures { result ≡ count_known self.now n }
    {
        if n < self.first {
            return None;
        }
        let place = (n - self.first) as usize;
        if place < self.counts.len() {
            return self.counts[place];
        }
        None
    }

    // From now on this is known of a sector, if it is one of the bitmaps, or else nothing.
    fn set(&mut self, n: u32, count: Option<u16>)
        ensures here { (count_known self.new n ≡ count) ⊎ (count_known self.new n ≡ None) }
        ensures others { (m : ℕ) → m ≢ n → count_known self.new m ≡ count_known self.old m }
    {
        if n < self.first {
            return;
        }
        let place = (n - self.first) as usize;
        if place < self.counts.len() {
            self.counts[place] = count;
        }
    }

    /// From now on nothing is known of these sectors.
    pub fn forget(&mut self, sectors: &[u32])
        ensures here { (n : ℕ) → Contains sectors.now n → count_known self.new n ≡ None }
        ensures others { (n : ℕ) → (Contains sectors.now n → ⊥) → count_known self.new n ≡ count_known self.old n }
    {
        for n in sectors {
            self.set(*n, None);
        }
    }

    // How many bits of a sector are clear. Where that isn't known, the sector is read.
    fn count_sector<S: Sectors>(&mut self, s: &mut S, n: u32) -> Result<u32, DiskFault>
        requires part { log_end (S.state s.old).header ≤ n }
        requires on_disk { n < (S.state s.old).disk.size }
        requires told { TellsClear (S.state s.old).header (S.state s.old).sectors self.old }
        ensures count { IfOk result (λ k. k ≡ clear_below (λ _. (S.state s.old).sectors n) 0 4096) }
        ensures told { TellsClear (S.state s.old).header (S.state s.old).sectors self.new }
        ensures same { IsUnchanged (S.state s.old) (S.state s.new) }
        ensures cause { HasCause (S.state s.old).disk (S.state s.new).disk result }
    {
        if let Some(count) = self.known(n) {
            return Ok(count as u32);
        }
        let mut sector = [0; 512];
        s.get(n, &mut sector)?;
        let count = count_clear(&sector);
        self.set(n, Some(count as u16));
        Ok(count)
    }

    /// How many numbers are free. Only sectors of which nothing is known are read.
    pub fn count_free<S: Sectors>(
        &mut self,
        s: &mut S,
        geometry: Geometry,
        map: Bitmap,
    ) -> Result<u32, DiskFault>
        requires bitmaps { HasBitmaps geometry (S.state s.old) }
        requires told { TellsClear (S.state s.old).header (S.state s.old).sectors self.old }
        ensures free { IfOk result (λ k. k ≡ free_numbers geometry map (S.state s.old).sectors) }
        ensures told { TellsClear (S.state s.old).header (S.state s.old).sectors self.new }
        ensures same { IsUnchanged (S.state s.old) (S.state s.new) }
        ensures cause { HasCause (S.state s.old).disk (S.state s.new).disk result }
    {
        let sectors = map.sectors(geometry);
        let mut free = 0;
        for k in 0..sectors {
            free += self.count_sector(s, map.first(geometry) + k)?;
        }
        Ok(free)
    }
}
