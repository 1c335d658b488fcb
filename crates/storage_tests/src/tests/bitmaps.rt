//! Calls on bitmaps of a transaction, with what each reads and puts; the tables are made by hand.

ghost use Rattle.std.specs.Prelude.{OnOk, ◌<◌, ℕ, IfOk, IsTrue};
ghost use Rattle.bit_alloc.specs.Bitmaps.{HasBitmaps, first_sector, bit_count, IsNumber};
ghost use Rattle.bit_alloc.specs.Room.{HasSpare};
ghost use Rattle.blank_map.specs.Maps.{IsPlaced};
ghost use Rattle.fs_layout.specs.Images.{bit};
ghost use Rattle.sector_txn.specs.Sectors.{SameStore, IsUnchanged};

use crate::tests::maps::{end, new_map, superblock_of};
use bit_alloc::{
    Bitmap, TakeFault, count_free, first_clear, give, has_free, is_taken, take, take_all,
};
use blank_map::{Counted, count_bits, is_number, read_tables};
use fs_layout::{Geometry, Version};
use sector_disk::DiskFault;
use sector_txn::Sectors;
use std::alloc::Global;
use std::test::Fail;

// Sectors and inodes of the disk: its block bitmap has three sectors, and its data begin at sector 148.
const SECTORS: u32 = 9000;

const INODES: u32 = 64;

#[derive(Clone, Copy)]
enum Call {
    // Near this number.
    Take(u32),
    // Three of them, of which the last is the answer.
    TakeThree(u32),
    Give(u32),
    IsTaken(u32),
    Count,
    HasFree(u32),
}

// A call, its answer (none where the bitmap is full), and how many sectors it reads and puts.
type Row = (Call, Option<u32>, u32, u32);

fn perform<S: Sectors>(
    s: &mut S,
    geometry: Geometry,
    map: Bitmap,
    call: Call,
) -> Result<Option<u32>, Fail>
    requires bitmaps { HasBitmaps geometry (S.state s.old) }
    requires room { HasSpare geometry 0 (S.state s.old) }
    ensures bitmaps { OnOk result (HasBitmaps geometry (S.state s.new)) }
    ensures room { OnOk result (HasSpare geometry 0 (S.state s.new)) }
{
    match call {
        Call::Take(near) => match take(s, geometry, map, near) {
            Ok(n) => Ok(Some(n)),
            Err(TakeFault::Full) => Ok(None),
            Err(TakeFault::DiskFault) => Err(Fail::new("not read")),
        },
        Call::TakeThree(near) => {
            let mut numbers = [0; 3];
            let Ok(()) = take_all(s, geometry, map, near, &mut numbers) else {
                return Err(Fail::new("not taken"));
            };
            Ok(Some(numbers[2]))
        }
        Call::Give(n) => {
            if !is_number(geometry, map, n) {
                return Err(Fail::new("no number"));
            }
            give(s, geometry, map, n)?;
            Ok(Some(n))
        }
        Call::IsTaken(n) => {
            if !is_number(geometry, map, n) {
                return Err(Fail::new("no number"));
            }
            let taken = is_taken(s, geometry, map, n)?;
            Ok(Some(u32::from(taken)))
        }
        Call::Count => {
            let free = count_free(s, geometry, map)?;
            Ok(Some(free))
        }
        Call::HasFree(k) => {
            let some = has_free(s, geometry, map, k)?;
            Ok(Some(u32::from(some)))
        }
    }
}

// How many calls are as their rows say, up to the first that isn't.
fn agreed<S: Sectors>(
    s: &mut Counted<S>,
    geometry: Geometry,
    map: Bitmap,
    rows: &[Row],
) -> Result<usize, Fail>
    requires bitmaps { HasBitmaps geometry (S.state s.old.inner) }
    requires room { HasSpare geometry 0 (S.state s.old.inner) }
{
    for (i, (call, answer, gets, puts)) in rows.iter().enumerate() {
        s.gets = 0;
        s.puts = 0;
        let seen = perform(s, geometry, map, *call)?;
        if seen != *answer || s.gets != *gets || s.puts != *puts {
            return Ok(i);
        }
    }
    Ok(rows.len())
}

// How many calls agree on a bitmap that lacks these numbers, while the other one is full.
fn agreed_without<S: Sectors>(
    s: &mut Counted<S>,
    geometry: Geometry,
    map: Bitmap,
    clear: &[u32],
    rows: &[Row],
) -> Result<usize, Fail>
    requires { IsPlaced geometry (S.state s.old.inner) }
{
    put_all_but(s, geometry, map, clear);
    if !is_ready(s, geometry)? {
        return Err(Fail::new("other tables"));
    }
    agreed(s, geometry, map, rows)
}

// How many calls agree on such a bitmap of a new disk.
fn agreed_on_disk(alloc: Global, map: Bitmap, clear: &[u32], rows: &[Row]) -> Result<usize, Fail> {
    let (geometry, mut s) = new_map(alloc, superblock_of(Version::Two, SECTORS, INODES))?;
    let seen = agreed_without(&mut s, geometry, map, clear, rows);
    end(s);
    seen
}

// Two inodes are free.
const FEW_INODES: [Row; 12] = [
    (Call::Count, Some(2), 1, 0),
    (Call::HasFree(2), Some(1), 1, 0),
    (Call::HasFree(3), Some(0), 1, 0),
    (Call::Take(0), Some(1), 1, 1),
    (Call::IsTaken(1), Some(1), 1, 0),
    (Call::Take(0), Some(63), 1, 1),
    (Call::Take(0), None, 1, 0),
    (Call::Count, Some(0), 1, 0),
    (Call::Give(1), Some(1), 1, 1),
    (Call::IsTaken(1), Some(0), 1, 0),
    (Call::IsTaken(63), Some(1), 1, 0),
    (Call::Count, Some(1), 1, 0),
];

// No inode is free at first.
const NO_INODES: [Row; 7] = [
    (Call::Take(0), None, 1, 0),
    (Call::HasFree(0), Some(1), 0, 0),
    (Call::HasFree(1), Some(0), 1, 0),
    (Call::Give(17), Some(17), 1, 1),
    (Call::Give(17), Some(17), 1, 1),
    (Call::Count, Some(1), 1, 0),
    (Call::Take(0), Some(17), 1, 1),
];

// Data sectors are free in each sector of the bitmap.
const SOME_BLOCKS: [Row; 14] = [
    (Call::Count, Some(8), 3, 0),
    (Call::HasFree(4), Some(1), 1, 0),
    (Call::HasFree(5), Some(1), 2, 0),
    (Call::HasFree(8), Some(1), 3, 0),
    (Call::HasFree(9), Some(0), 3, 0),
    (Call::Take(0), Some(148), 1, 1),
    (Call::Take(0), Some(191), 1, 1),
    (Call::Take(0), Some(192), 1, 1),
    (Call::Take(0), Some(4095), 1, 1),
    (Call::Take(0), Some(4096), 2, 1),
    (Call::Take(0), Some(8191), 2, 1),
    (Call::Take(0), Some(8192), 3, 1),
    (Call::Take(0), Some(8999), 3, 1),
    (Call::Take(0), None, 3, 0),
];

// No data sector is free at first.
const NO_BLOCKS: [Row; 9] = [
    (Call::Count, Some(0), 3, 0),
    (Call::Give(8999), Some(8999), 1, 1),
    (Call::Give(5000), Some(5000), 1, 1),
    (Call::IsTaken(4999), Some(1), 1, 0),
    (Call::IsTaken(5000), Some(0), 1, 0),
    (Call::IsTaken(5001), Some(1), 1, 0),
    (Call::Count, Some(2), 3, 0),
    (Call::Take(0), Some(5000), 2, 1),
    (Call::Take(0), Some(8999), 3, 1),
];

// A search begins in the sector of a number, and goes round; that number's bit is no bound within it.
const NEAR_BLOCKS: [Row; 6] = [
    (Call::Take(8191), Some(5000), 1, 1),
    (Call::Take(8191), Some(8999), 2, 1),
    (Call::Take(8192), Some(148), 2, 1),
    (Call::Take(4096), Some(191), 3, 1),
    (Call::Take(u32::MAX), Some(192), 1, 1),
    (Call::Take(5000), None, 3, 0),
];

// Numbers of one sector are taken by one read and one put of it.
const RUNS: [Row; 5] = [
    (Call::TakeThree(0), Some(192), 1, 1),
    (Call::TakeThree(0), Some(8191), 3, 2),
    (Call::IsTaken(4095), Some(1), 1, 0),
    (Call::IsTaken(4096), Some(1), 1, 0),
    (Call::Count, Some(2), 3, 0),
];

// The lowest number of a sector is taken, in whatever word it stands, and given back; a full bitmap says so.
#[test]
fn calls(rt: HostRuntime) -> Result<(), Fail> {
    let alloc = rt.alloc();
    let rows: [(Bitmap, &[u32], &[Row]); 6] = [
        (Bitmap::Inodes, &[1, 63], &FEW_INODES),
        (Bitmap::Inodes, &[], &NO_INODES),
        (
            Bitmap::Blocks,
            &[148, 191, 192, 4095, 4096, 8191, 8192, 8999],
            &SOME_BLOCKS,
        ),
        (Bitmap::Blocks, &[], &NO_BLOCKS),
        (Bitmap::Blocks, &[148, 191, 192, 5000, 8999], &NEAR_BLOCKS),
        (
            Bitmap::Blocks,
            &[148, 191, 192, 4095, 4096, 8191, 8192, 8999],
            &RUNS,
        ),
    ];
    for (map, clear, calls) in rows {
        let seen = agreed_on_disk(alloc, map, clear, calls)?;
        assert!(rt; seen == calls.len(), "{seen}");
    }
    Ok(())
}

// Sets all bits of both bitmaps but these of one.
fn put_all_but<S: Sectors>(s: &mut S, geometry: Geometry, map: Bitmap, clear: &[u32])
    requires { IsPlaced geometry (S.state s.old) }
    ensures { SameStore (S.state s.old) (S.state s.new) }
{
    let first = match map {
        Bitmap::Inodes => geometry.inode_bitmap,
        Bitmap::Blocks => geometry.block_bitmap,
    };
    for t in geometry.inode_bitmap..geometry.table {
        if s.room() == 0 {
            return;
        }
        s.put(t, &sector_without(t.wrapping_sub(first), clear));
    }
}

// Sector k of such a bitmap. Those that it doesn't have are full.
fn sector_without(k: u32, clear: &[u32]) -> [u8; 512] {
    let mut sector = [255; 512];
    for n in clear {
        if *n / 4096 == k {
            let at = *n as usize % 4096 / 8;
            sector[at] &= !(1 << (*n % 8));
        }
    }
    sector
}

// Whether the tables are as asked, and all bitmaps can be put.
fn is_ready<S: Sectors>(s: &mut S, geometry: Geometry) -> Result<bool, DiskFault>
    requires { IsPlaced geometry (S.state s.old) }
    ensures bitmaps { IfOk result (λ b. IsTrue b → HasBitmaps geometry (S.state s.new)) }
    ensures room { IfOk result (λ b. IsTrue b → HasSpare geometry 0 (S.state s.new)) }
{
    read_tables(s, geometry)?;
    let inodes = has_rest_set(s, geometry, Bitmap::Inodes)?;
    let blocks = has_rest_set(s, geometry, Bitmap::Blocks)?;
    if !inodes {
        return Ok(false);
    }
    if !blocks {
        return Ok(false);
    }
    Ok(s.room() >= (geometry.table - geometry.inode_bitmap) as usize)
}

// Whether the bits of one bitmap are set that are no number's.
fn has_rest_set<S: Sectors>(s: &mut S, geometry: Geometry, map: Bitmap) -> Result<bool, DiskFault>
    requires { IsPlaced geometry (S.state s.old) }
    ensures set { IfOk result (λ b. IsTrue b → (n : ℕ) → n < bit_count geometry map → (IsNumber geometry map n → ⊥)
        → IsTrue (bit (S.state s.new).sectors (first_sector geometry map) n)) }
    ensures same { IsUnchanged (S.state s.old) (S.state s.new) }
{
    for n in 0..count_bits(geometry, map) {
        if !is_number(geometry, map, n) && !is_taken(s, geometry, map, n)? {
            return Ok(false);
        }
    }
    Ok(true)
}

// Bytes of a sector that is full besides, by their places, and its lowest clear bit.
type Search = (&'static [(usize, u8)], Option<u32>);

// One bit, or more in different words; then the last and the first byte of each vector.
const SEARCHES: [Search; 21] = [
    (&[], None),
    (&[(0, 0xfe)], Some(0)),
    (&[(511, 0x7f)], Some(4095)),
    (&[(1, 0xfe), (37, 0xef)], Some(8)),
    (&[(7, 0x7f), (8, 0)], Some(63)),
    (&[(31, 0x7f)], Some(255)),
    (&[(32, 0xfe), (500, 0)], Some(256)),
    (&[(63, 0x7f), (64, 0)], Some(511)),
    (&[(64, 0xfe)], Some(512)),
    (&[(127, 0x7f)], Some(1023)),
    (&[(128, 0xfe)], Some(1024)),
    (&[(191, 0x7f)], Some(1535)),
    (&[(192, 0xfe)], Some(1536)),
    (&[(255, 0x7f)], Some(2047)),
    (&[(256, 0xfe)], Some(2048)),
    (&[(319, 0x7f)], Some(2559)),
    (&[(320, 0xfe)], Some(2560)),
    (&[(383, 0x7f)], Some(3071)),
    (&[(384, 0xfe)], Some(3072)),
    (&[(447, 0x7f)], Some(3583)),
    (&[(448, 0xfe)], Some(3584)),
];

// How many searches end as their rows say, up to the first that doesn't.
fn searched(rows: &[Search]) -> usize {
    for (i, (bytes, lowest)) in rows.iter().enumerate() {
        let mut sector = [0xff; 512];
        for (at, byte) in *bytes {
            if let Some(geometry) = sector.get_mut(*at) {
                *geometry = *byte;
            }
        }
        if first_clear(&sector) != *lowest {
            return i;
        }
    }
    rows.len()
}

#[test]
fn lowest_clear_bits(rt: HostRuntime) {
    let rows: &[Search] = &SEARCHES;
    let seen = searched(rows);
    assert!(rt; seen == rows.len(), "{seen}");
}
