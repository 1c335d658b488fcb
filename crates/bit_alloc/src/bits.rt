//! The bits of one sector of a bitmap.

ghost use Rattle.std.specs.Prelude.{◌≡◌, ◌≢◌, ◌+◌, ◌*◌, ◌-◌, ◌/◌, ◌^◌, ◌<◌, ◌≤◌, ℕ, length, get_or, nat_eq, IsTrue, MatchOption};
ghost use Rattle.std.specs.Int.{bit_at};
ghost use Rattle.fs_layout.specs.Bytes.{IsSector, u64_of};
ghost use Rattle.bit_alloc.specs.Bits.{AreSet, ClearsListed, HasFullWords, IsLeastClear, SetsListed, clear_below};

use byteorder::{ByteOrder, LittleEndian};
use std::simd::prelude::*;

// How many words of 64 bits a sector has.
const WORDS: u32 = 64;

// How many of them stand in one vector.
const LANES: u32 = 8;

// Word k of a sector: its bits are those of the sector from 64 k on.
fn word(sector: &[u8], k: u32) -> u64
    requires { 8 * k + 8 ≤ length sector.now }
    ensures { result ≡ u64_of sector.now (8 * k) }
{
    LittleEndian::read_u64(&sector[8 * k as usize..])
}

// The words of a sector from word 8 k on.
fn lanes(sector: &[u8], k: u32) -> u64x8
    requires { 64 * k + 64 ≤ length sector.now }
    ensures { (j : ℕ) → j < 8 → get_or result j 0 ≡ u64_of sector.now (8 * (8 * k + j)) }
{
    u64x8::from_le_bytes(u8x64::from_slice(&sector[64 * k as usize..]))
}

// Whether all bits of these words are set.
fn are_full(words: u64x8) -> bool
    ensures { IsTrue result → (j : ℕ) → j < 8 → get_or words j 0 ≡ 2 ^ 64 - 1 }
{
    !words.simd_ne(u64x8::splat(u64::MAX)).any()
}

// So many words at the front are full: those before the first vector in which a bit is clear.
fn full_words(sector: &[u8; 512]) -> u32
    ensures { HasFullWords sector.now result }
{
    for k in 0..WORDS / LANES {
        if !are_full(lanes(sector, k)) {
            return LANES * k;
        }
    }
    WORDS
}

/// The lowest bit that is clear, or none where all 4,096 are set. Bit i is bit i % 8 of byte i / 8.
///
/// It tests 512 bits at once, up to the first of them that aren't all set, and from there on words of 64.
pub fn first_clear(sector: &[u8; 512]) -> Option<u32>
    ensures { MatchOption result (AreSet sector.now 4096) (IsLeastClear sector.now) }
{
    for k in full_words(sector)..WORDS {
        let bits = word(sector, k);
        if bits < u64::MAX {
            return Some(64 * k + bits.trailing_ones());
        }
    }
    None
}

// How many bits of the words from word 8 k on are clear, in as many words as a vector has.
fn clear_in(sector: &[u8; 512], k: u32) -> u32
    requires { k < 8 }
    ensures { clear_below (λ _. sector.now) 0 (512 * k + 512) ≡ clear_below (λ _. sector.now) 0 (512 * k) + result }
{
    let mut set = 0;
    for i in LANES * k..LANES * k + LANES {
        set += word(sector, i).count_ones();
    }
    64 * LANES - set
}

// How many bits are clear, or so many of them that `enough` is reached.
pub(crate) fn count_clear_up_to(sector: &[u8; 512], enough: u32) -> u32
    ensures some { result ≤ clear_below (λ _. sector.now) 0 4096 }
    ensures all { result < enough → result ≡ clear_below (λ _. sector.now) 0 4096 }
{
    let mut free = 0;
    for k in 0..WORDS / LANES {
        if free >= enough {
            return free;
        }
        free += clear_in(sector, k);
    }
    free
}

// The byte with bit i set or clear.
pub(crate) fn with_bit(byte: u8, i: u32, set: bool) -> u8
    requires { i < 8 }
    ensures here { nat_eq (bit_at result i) 1 ≡ set }
    ensures others { (j : ℕ) → j < 8 → j ≢ i → bit_at result j ≡ bit_at byte j }
{
    let mask = 1 << i;
    if set { byte | mask } else { byte & !mask }
}

// Whether bit i of the byte is set.
pub(crate) fn has_bit(byte: u8, i: u32) -> bool
    requires { i < 8 }
    ensures { result ≡ nat_eq (bit_at byte i) 1 }
{
    byte >> i & 1 == 1
}

// Clears the bits of a list's numbers from `from` on in sector k of a bitmap, up to the first of them that has its bit in another
// sector, and answers where that stands. Of the numbers 0 is none.
pub(crate) fn clear_listed(sector: &mut [u8; 512], k: u32, numbers: &[u32], from: usize) -> usize
    requires { from ≤ length numbers.now }
    ensures within { (from ≤ result) × (result ≤ length numbers.now) }
    ensures whole { IsSector sector.new }
    ensures cleared { ClearsListed numbers.now k from result sector.old sector.new }
    ensures rest { result < length numbers.now → (get_or numbers.now result 0 ≢ 0) × (get_or numbers.now result 0 / 4096 ≢ k) }
{
    for i in from..numbers.len() {
        let n = numbers[i];
        if n != 0 {
            if n / 4096 != k {
                return i;
            }
            let at = n as usize % 4096 / 8;
            sector[at] = with_bit(sector[at], n % 8, false);
        }
    }
    numbers.len()
}

// Sets the lowest bit that is clear, as often as a list has places from `from` on, and writes the numbers of these bits in sector k
// of a bitmap there, up to the place at which no bit was clear any more. Answers that place, or the end of the list.
pub(crate) fn set_listed(sector: &mut [u8; 512], k: u32, numbers: &mut [u32], from: usize) -> usize
    requires within { from ≤ length numbers.old }
    requires few { 4096 * k + 4096 ≤ 2 ^ 32 }
    ensures within { (from ≤ result) × (result ≤ length numbers.old) }
    ensures len { length numbers.new ≡ length numbers.old }
    ensures before { (i : ℕ) → i < from → get_or numbers.new i 0 ≡ get_or numbers.old i 0 }
    ensures set { SetsListed numbers.new k from result sector.old sector.new }
    ensures rest { result < length numbers.old → AreSet sector.new 4096 }
{
    for place in from..numbers.len() {
        let Some(i) = first_clear(sector) else {
            return place;
        };
        let at = i as usize / 8;
        sector[at] = with_bit(sector[at], i % 8, true);
        numbers[place] = 4096 * k + i;
    }
    numbers.len()
}
