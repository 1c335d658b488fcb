//! Numbers in memory, of which blocks of zeros take four bytes each.

ghost use Rattle.std.specs.Prelude.{◌≡◌, ◌≢◌, ◌<◌, ◌≤◌, ◌+◌, ◌*◌, ◌%◌, ◌^◌, length, get_or, replicate, slice_set, slice_range, IfOk, IsTrue, OnOk, OnErr};
ghost use Rattle.sector_disk.specs.Numbers.{IsRow};

use std::alloc::{AllocError, Global};
use std::marker::Model;

// So many neighbours are stored together.
const BLOCK: usize = 1024;

/// A list of numbers that are nearly all zeros: 1,024 neighbours take four bytes until one of them gets another number, and
/// 4 KiB from then on, also once they are zeros again. A contract sees the numbers.
#[derive(Drop)]
pub struct Numbers {
    count: usize,
    // For each block of numbers which one it is of those that are stored.
    blocks: Vec<u32>,
    // A block of zeros, which stands for all that are nothing else, and behind it those that are stored of their own.
    stored: Vec<u32>,
}

impl Model for Numbers {
    ghost use Rattle.std.specs.Prelude.{ℕ, List};
    ghost use Rattle.sector_disk.specs.Numbers.{stored_numbers, IsSparse};

    ghost Value = { List ℕ };

    ghost view = { λ numbers. stored_numbers numbers.count numbers.blocks.items numbers.stored.items };

    ghost invariant = { λ numbers. IsSparse numbers.count numbers.blocks.items numbers.stored.items };
}

impl Numbers {
    /// So many zeros.
    pub fn zeros(alloc: Global, count: u32) -> Result<Self, AllocError>
        ensures { IfOk result (λ numbers. numbers ≡ replicate count 0) }
    {
        let count = count as usize;
        let mut blocks = Vec::new(alloc);
        blocks.resize(count / BLOCK + 1, 0)?;
        let mut stored = Vec::new(alloc);
        stored.resize(BLOCK, 0)?;
        Ok(Numbers {
            count,
            blocks,
            stored,
        })
    }

    /// How many there are.
    pub fn len(&self) -> usize
        ensures { result ≡ length self.now }
    {
        self.count
    }

    /// One of them.
    pub fn get(&self, n: usize) -> u32
        requires { n < length self.now }
        ensures { result ≡ get_or self.now n 0 }
    {
        let block = self.blocks[n / BLOCK];
        self.stored[place_in(block, n)]
    }

    /// Puts another number in place of one that isn't zero, which needs no memory.
    pub fn replace(&mut self, n: usize, value: u32)
        requires below { n < length self.old }
        requires some { get_or self.old n 0 ≢ 0 }
        ensures { self.new ≡ slice_set self.old n value }
    {
        let block = self.blocks[n / BLOCK];
        self.stored[place_in(block, n)] = value;
    }

    /// Puts a number in place of any. At `Err`, when there is no memory for its block, nothing has changed.
    pub fn add(&mut self, n: usize, value: u32) -> Result<(), AllocError>
        requires { n < length self.old }
        ensures ok { OnOk result (self.new ≡ slice_set self.old n value) }
        ensures err { OnErr result (self.new ≡ self.old) }
    {
        let block = self.blocks[n / BLOCK];
        if block != 0 {
            self.stored[place_in(block, n)] = value;
            return Ok(());
        }
        // There are no more blocks than numbers, which a `u32` counts.
        let Ok(last) = u32::try_from(self.stored.len() / BLOCK) else {
            return Err(AllocError);
        };
        self.stored.resize(self.stored.len() + BLOCK, 0)?;
        self.blocks[n / BLOCK] = last;
        self.stored[place_in(last, n)] = value;
        Ok(())
    }

    /// Whether so many neighbours from one on count up from `start`.
    pub fn are_in_row(&self, first: usize, len: usize, start: usize) -> bool
        requires fits { first + len ≤ length self.now }
        requires small { start + len < 2 ^ 64 }
        ensures { IsTrue result → IsRow start (slice_range self.now first (first + len)) }
    {
        // Tells a proof that an index fits its type.
        let _count = self.count;
        for i in 0..len {
            if self.get(first + i) as usize != start + i {
                return false;
            }
        }
        true
    }
}

// Where a number stands whose block is this one of those that are stored.
fn place_in(block: u32, n: usize) -> usize
    ensures { result ≡ block * 1024 + n % 1024 }
{
    block as usize * BLOCK + n % BLOCK
}
