//! A table of bits.

ghost use Rattle.std.specs.Prelude.{◌≡◌, ◌≤◌, ◌<◌, ◌+◌, ◌*◌, ◌/◌, ◌%◌, ◌^◌, ℕ, false, true, not, length, get_or, set, replicate, count_by, IfOk, IfSome, IfNone, IsTrue};
ghost use Rattle.fs_check.specs.BitTables.{bit_in};

use std::alloc::{AllocError, Global};
use std::marker::Model;

/// A bit for each number below some end. A contract sees the list of them.
#[derive(Drop)]
pub(crate) struct BitTable {
    // Bit n is bit n % 8 of byte n / 8, as in a bitmap of a disk.
    bytes: Vec<u8>,
    // How many bits there are.
    size: usize,
    // How many of them are clear.
    clear: usize,
}

impl Model for BitTable {
    ghost use Rattle.std.specs.Prelude.{List, Bool};
    ghost use Rattle.fs_check.specs.BitTables.{bits_of, IsBitTable};

    ghost Value = { List Bool };

    ghost view = { λ t. bits_of t.size t.bytes.items };

    ghost invariant = { λ t. IsBitTable t.size t.clear t.bytes.items };
}

impl BitTable {
    /// So many bits, all of them clear.
    pub fn new(alloc: Global, size: usize) -> Result<BitTable, AllocError>
        ensures { IfOk result (λ bits. bits ≡ replicate size false) }
    {
        Ok(BitTable {
            bytes: vec![in alloc; 0; size.div_ceil(8)]?,
            size,
            clear: size,
        })
    }

    /// Bit n is set.
    pub fn has(&self, n: u32) -> bool
        requires { n < length self.now }
        ensures { result ≡ get_or self.now n false }
    {
        self.bytes[n as usize / 8] >> (n % 8) & 1 == 1
    }

    /// Sets bit n.
    pub fn insert(&mut self, n: u32)
        requires { n < length self.old }
        ensures { self.new ≡ set self.old n true }
    {
        if self.has(n) {
            return;
        }
        let i = n as usize / 8;
        self.bytes[i] = self.bytes[i] | 1 << (n % 8);
        self.clear -= 1;
    }

    /// How many bits are clear.
    pub fn count_clear(&self) -> usize
        ensures { result ≡ count_by not self.now }
    {
        self.clear
    }

    /// The least number whose bit is set.
    pub fn first(&self) -> Option<u32>
        requires { length self.now < 2 ^ 32 }
        ensures below { IfSome result (λ n. n < length self.now) }
        ensures is { IfSome result (λ n. get_or self.now n false ≡ true) }
        ensures least { IfSome result (λ n. (k : ℕ) → k < n → get_or self.now k false ≡ false) }
        ensures none { IfNone result ((k : ℕ) → k < length self.now → get_or self.now k false ≡ false) }
    {
        if self.clear == self.size {
            return None;
        }
        for n in 0..self.size as u32 {
            if self.has(n) {
                return Some(n);
            }
        }
        None
    }

    /// The 4,096 bits from 4096 k on are those of this sector of a bitmap.
    pub fn has_sector(&self, k: u32, sector: &[u8; 512]) -> bool
        requires { 4096 * (k + 1) ≤ length self.now }
        ensures { IsTrue result → (n : ℕ) → 4096 * k ≤ n → n < 4096 * (k + 1)
            → get_or self.now n false ≡ bit_in sector.now (n % 4096) }
    {
        let from = 512 * k as usize;
        self.bytes[from..from + 512] == sector[..]
    }
}
