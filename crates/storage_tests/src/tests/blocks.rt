//! Calls on the bytes of one file, and the life of a link, with what each reads and puts.

ghost use Rattle.std.specs.Prelude.{◌≡◌, ◌≢◌, ◌≤◌, ◌<◌, IfOk, OnOk};
ghost use Rattle.fs_layout.specs.declared.inode.Kind.TheVariants.{Free};
ghost use Rattle.fs_layout.specs.Images.{inode_at};
ghost use Rattle.fs_layout.specs.Inode.{FitsInode};
ghost use Rattle.bit_alloc.specs.Inodes.{IsBlank, IsSound};
ghost use Rattle.bit_alloc.specs.Room.{HasSpare};
ghost use Rattle.blank_map.specs.Maps.{IsWithoutInodes};
ghost use Rattle.storage_tests.specs.Files.{IsFileRead};
ghost use Rattle.sector_txn.specs.Sectors.{IsUnchanged};
ghost use Rattle.bit_alloc.specs.Bitmaps.{HasBitmaps};

use crate::tests::maps::{end, map_without_inodes, parsed, small_disk};
use bit_alloc::{Bitmap, count_free};
use blank_map::Counted;
use block_map::{
    MapFault, free_all, new_link, overwrite, read_at, release_all, set_size, write_at,
};
use fs_layout::{Geometry, Inode, Kind, Version};
use inode_table::{load, new_inode};
use posix_acl::Acl;
use sector_txn::Sectors;
use std::alloc::Global;
use std::test::Fail;

#[derive(Clone, Copy)]
enum Call {
    // Four bytes from an offset.
    Read(u64),
    // So many bytes of 7, at an offset.
    Write(u64, usize),
    // Four bytes of 5, at an offset.
    Overwrite(u64),
    SetSize(u64),
    Release,
    // Whether so many data sectors are free.
    HasFree(u32),
}

// A call, the bytes that it reads, 9 where there are none, or that it was refused, and how many sectors it reads and puts.
type Row = (Call, [u8; 4], u32, u32);

// What a new file is made with.
pub(super) fn new_file() -> Inode
    ensures blank { IsBlank result }
    ensures fits { FitsInode result }
{
    Inode {
        kind: Kind::File,
        mode: 0o640,
        names: 1,
        ..Inode::FREE
    }
}

// Reads a file of a map that has room for so many sectors besides the bitmaps.
pub(super) fn load_file<S: Sectors>(
    s: &mut S,
    geometry: Geometry,
    ino: u32,
    more: usize,
) -> Result<Inode, Fail>
    requires sound { IsSound geometry (S.state s.old) }
    requires below { ino < geometry.inodes }
    requires few { more ≤ 16 }
    ensures { IfOk result (IsFileRead geometry ino more (S.state s.old) (S.state s.new)) }
{
    let inode = load(s, geometry, ino)?;
    if s.room() < (geometry.table - geometry.inode_bitmap) as usize + more {
        return Err(Fail::new("no room"));
    }
    let Kind::File = inode.kind else {
        return Err(Fail::new("no file"));
    };
    Ok(inode)
}

// Writes four bytes over those of one of the first 12 blocks.
fn overwrite_direct<S: Sectors>(
    s: &mut S,
    geometry: Geometry,
    ino: u32,
    inode: &Inode,
    offset: u64,
) -> Result<(), Fail>
    requires sound { IsSound geometry (S.state s.old) }
    requires below { ino < geometry.inodes }
    requires inode { inode.now ≡ inode_at geometry (S.state s.old).sectors ino }
    requires used { inode.now.kind ≢ Free }
    requires spare { HasSpare geometry 1 (S.state s.old) }
    ensures sound { OnOk result (IsSound geometry (S.state s.new)) }
{
    if 6144 <= offset || inode.size < offset + 4 || 508 < offset % 512 {
        return Err(Fail::new("not within a block"));
    }
    if inode.direct[(offset / 512) as usize] == 0 {
        return Err(Fail::new("a hole"));
    }
    overwrite(s, geometry, ino, inode, offset, &[5; 4])?;
    Ok(())
}

fn perform<S: Sectors>(s: &mut S, geometry: Geometry, ino: u32, call: Call) -> Result<[u8; 4], Fail>
    requires sound { IsSound geometry (S.state s.old) }
    requires below { ino < geometry.inodes }
    ensures sound { OnOk result (IsSound geometry (S.state s.new)) }
{
    let mut inode = load_file(s, geometry, ino, 16)?;
    let mut bytes = [9; 4];
    match call {
        Call::Read(offset) => {
            read_at(s, &inode, offset, &mut bytes)?;
            Ok(bytes)
        }
        Call::Write(offset, len) => {
            if len > 4096 {
                return Err(Fail::new("too many bytes"));
            }
            match write_at(s, geometry, ino, &mut inode, offset, &[7; 4096][..len]) {
                Ok(()) => Ok(bytes),
                Err(MapFault::TooBig) => Ok(TOO_BIG),
                Err(_) => Err(Fail::new("not written")),
            }
        }
        Call::Overwrite(offset) => {
            overwrite_direct(s, geometry, ino, &inode, offset)?;
            Ok(bytes)
        }
        Call::SetSize(size) => match set_size(s, geometry, ino, &mut inode, size) {
            Ok(()) => Ok(bytes),
            Err(MapFault::TooBig) => Ok(TOO_BIG),
            Err(_) => Err(Fail::new("no other size")),
        },
        Call::Release => {
            release_all(s, geometry, ino, &mut inode)?;
            Ok(bytes)
        }
        Call::HasFree(wanted) => {
            let free = count_free(s, geometry, Bitmap::Blocks)?;
            if free != wanted {
                return Err(Fail::new("another number is free"));
            }
            Ok(bytes)
        }
    }
}

// How many calls are as their rows say, up to the first that isn't.
fn agreed<S: Sectors>(
    s: &mut Counted<S>,
    geometry: Geometry,
    ino: u32,
    rows: &[Row],
) -> Result<usize, Fail>
    requires sound { IsSound geometry (S.state s.old.inner) }
    requires below { ino < geometry.inodes }
{
    for (i, (call, bytes, gets, puts)) in rows.iter().enumerate() {
        s.gets = 0;
        s.puts = 0;
        let seen = perform(s, geometry, ino, *call)?;
        // The inode is read before each.
        if seen != *bytes || s.gets.saturating_sub(1) != *gets || s.puts != *puts {
            return Ok(i);
        }
    }
    Ok(rows.len())
}

// How many calls on a new file agree, on a map without inodes.
fn agreed_on_blank<S: Sectors>(
    s: &mut Counted<S>,
    geometry: Geometry,
    access: &Acl,
    rows: &[Row],
) -> Result<usize, Fail>
    requires { IsWithoutInodes geometry (S.state s.old.inner) }
{
    let Ok(ino) = new_inode(s, geometry, &new_file(), access, None) else {
        return Err(Fail::new("not made"));
    };
    agreed(s, geometry, ino, rows)
}

// How many calls on a new file agree, on a new disk of this version.
fn agreed_on_disk(
    alloc: Global,
    version: Version,
    access: &Acl,
    rows: &[Row],
) -> Result<usize, Fail> {
    let (geometry, mut s) = map_without_inodes(alloc, small_disk(version))?;
    let seen = agreed_on_blank(&mut s, geometry, access, rows);
    end(s);
    seen
}

// How many calls on a new file with an ACL of its mode agree.
fn agreed_of(alloc: Global, version: Version, rows: &[Row]) -> Result<usize, Fail> {
    let access = parsed(alloc, b"user::rw-,group::r--,other::---")?;
    agreed_on_disk(alloc, version, &access, rows)
}

// The bytes of a call that reads none.
const NOTHING: [u8; 4] = [9; 4];

// The bytes of a call that is refused: the file would be too big.
const TOO_BIG: [u8; 4] = [8; 4];

// Blocks that the inode points to.
const DIRECT: [Row; 13] = [
    (Call::Read(0), NOTHING, 0, 0),
    (Call::Write(510, 4), NOTHING, 3, 5),
    (Call::Read(508), [0, 0, 7, 7], 1, 0),
    (Call::Read(510), [7, 7, 7, 7], 2, 0),
    (Call::Read(512), [7, 7, 9, 9], 1, 0),
    (Call::Write(0, 1024), NOTHING, 1, 3),
    (Call::Overwrite(508), NOTHING, 1, 1),
    (Call::Read(510), [5, 5, 7, 7], 2, 0),
    (Call::SetSize(513), NOTHING, 2, 2),
    (Call::Write(516, 1), NOTHING, 2, 2),
    (Call::Read(512), [7, 0, 0, 0], 1, 0),
    (Call::SetSize(512), NOTHING, 2, 2),
    (Call::Release, NOTHING, 2, 2),
];

// The first of the blocks that sectors of pointers lead to, behind holes.
const BEHIND_HOLES: [Row; 8] = [
    (Call::SetSize(71_680), NOTHING, 1, 1),
    (Call::Read(71_676), [0; 4], 0, 0),
    (Call::Write(6144, 1), NOTHING, 3, 6),
    (Call::Read(6143), [0, 7, 0, 0], 2, 0),
    (Call::Write(6656, 1), NOTHING, 3, 4),
    (Call::SetSize(6200), NOTHING, 6, 4),
    (Call::SetSize(6144), NOTHING, 5, 3),
    (Call::Release, NOTHING, 1, 1),
];

// As many bytes as one call writes, and a block behind a hole.
const LONG: [Row; 5] = [
    (Call::Write(0, 4096), NOTHING, 9, 17),
    (Call::Read(4094), [7, 7, 9, 9], 1, 0),
    (Call::SetSize(9000), NOTHING, 1, 1),
    (Call::Write(8998, 2), NOTHING, 3, 6),
    (Call::Release, NOTHING, 5, 4),
];

// A hole of the largest size takes no sector, and a byte in it two, the second for pointers; a cut gives both back. The largest
// file in version 1 is that of one sector of pointers.
const LIMIT_OF_ONE: [Row; 11] = [
    (Call::SetSize(71_680), NOTHING, 1, 1),
    (Call::HasFree(890), NOTHING, 1, 0),
    (Call::Write(6144, 1), NOTHING, 3, 6),
    (Call::HasFree(888), NOTHING, 1, 0),
    (Call::SetSize(6144), NOTHING, 5, 3),
    (Call::HasFree(890), NOTHING, 1, 0),
    (Call::Write(71_679, 2), TOO_BIG, 0, 0),
    (Call::SetSize(71_681), TOO_BIG, 0, 0),
    (Call::HasFree(890), NOTHING, 1, 0),
    (Call::Write(71_679, 1), NOTHING, 3, 6),
    (Call::Read(71_676), [0, 0, 0, 7], 2, 0),
];

// In version 2 more sectors of pointers are found by a sector of their numbers: the first bytes behind those of version 1 take five
// sectors with them, and the last of all two.
const LIMIT_OF_TWO: [Row; 11] = [
    (Call::Write(71_679, 2), NOTHING, 10, 14),
    (Call::HasFree(885), NOTHING, 1, 0),
    (Call::Write(8_460_287, 2), TOO_BIG, 0, 0),
    (Call::SetSize(8_460_289), TOO_BIG, 0, 0),
    (Call::SetSize(8_460_288), NOTHING, 1, 1),
    (Call::HasFree(885), NOTHING, 1, 0),
    (Call::Write(8_460_287, 1), NOTHING, 4, 7),
    (Call::HasFree(883), NOTHING, 1, 0),
    (Call::Read(8_460_284), [0, 0, 0, 7], 3, 0),
    (Call::SetSize(6144), NOTHING, 140, 7),
    (Call::HasFree(890), NOTHING, 1, 0),
];

// In version 3 there is a third level of sectors of pointers: the last byte of all takes a sector on each. A cut by one block gives back
// that block alone, and a cut to the first of those blocks the sectors of pointers too.
const LIMIT_OF_THREE: [Row; 11] = [
    (Call::SetSize(1_082_202_112), NOTHING, 1, 1),
    (Call::SetSize(1_082_202_113), TOO_BIG, 0, 0),
    (Call::Write(1_082_202_111, 2), TOO_BIG, 0, 0),
    (Call::HasFree(506), NOTHING, 1, 0),
    (Call::Write(1_082_202_111, 1), NOTHING, 8, 12),
    (Call::HasFree(502), NOTHING, 1, 0),
    (Call::Read(1_082_202_108), [0, 0, 0, 7], 4, 0),
    (Call::SetSize(1_082_201_600), NOTHING, 11, 3),
    (Call::HasFree(503), NOTHING, 1, 0),
    (Call::SetSize(6144), NOTHING, 16_647, 4),
    (Call::HasFree(506), NOTHING, 1, 0),
];

#[test]
fn calls(rt: HostRuntime) -> Result<(), Fail> {
    let rows: [(Version, &[Row]); 12] = [
        (Version::One, &DIRECT),
        (Version::One, &BEHIND_HOLES),
        (Version::One, &LONG),
        (Version::One, &LIMIT_OF_ONE),
        (Version::Two, &DIRECT),
        (Version::Two, &BEHIND_HOLES),
        (Version::Two, &LONG),
        (Version::Two, &LIMIT_OF_TWO),
        (Version::Three, &DIRECT),
        (Version::Three, &BEHIND_HOLES),
        (Version::Three, &LONG),
        (Version::Three, &LIMIT_OF_THREE),
    ];
    for (version, calls) in rows.iter() {
        let seen = agreed_of(rt.alloc(), *version, calls)?;
        assert!(rt; seen == calls.len(), "{seen}");
    }
    Ok(())
}

// How many inodes are free, and how many data sectors.
type Free = (u32, u32);

// The `get`s and `put`s of one call.
type Counts = (u32, u32);

// What is free before a link is made, then, and after it is freed; and what the two calls cost.
type Life = ([Free; 3], [Counts; 2]);

fn free<S: Sectors>(s: &mut S, geometry: Geometry) -> Result<Free, Fail>
    requires { HasBitmaps geometry (S.state s.old) }
    ensures { OnOk result (IsUnchanged (S.state s.old) (S.state s.new)) }
{
    let inodes = count_free(s, geometry, Bitmap::Inodes)?;
    let blocks = count_free(s, geometry, Bitmap::Blocks)?;
    Ok((inodes, blocks))
}

fn life<S: Sectors>(s: &mut Counted<S>, geometry: Geometry, target: &[u8]) -> Result<Life, Fail>
    requires { IsWithoutInodes geometry (S.state s.old.inner) }
{
    if target.is_empty() || target.len() > 512 {
        return Err(Fail::new("no target"));
    }
    let before = free(s, geometry)?;
    s.gets = 0;
    s.puts = 0;
    let Ok(n) = new_link(s, geometry, 1000, 100, target) else {
        return Err(Fail::new("not made"));
    };
    let made = (s.gets, s.puts);
    let between = free(s, geometry)?;
    s.gets = 0;
    s.puts = 0;
    free_all(s, geometry, n)?;
    let freed = (s.gets, s.puts);
    let after = free(s, geometry)?;
    Ok(([before, between, after], [made, freed]))
}

// The life of a link on a new disk of this version.
fn life_on_disk(alloc: Global, version: Version, target: &[u8]) -> Result<Life, Fail> {
    let (geometry, mut s) = map_without_inodes(alloc, small_disk(version))?;
    let seen = life(&mut s, geometry, target);
    end(s);
    seen
}

#[test]
fn a_link_takes_an_inode_and_a_sector(rt: HostRuntime) -> Result<(), Fail> {
    let wanted = ([(15, 890), (14, 889), (15, 890)], [(3, 4), (4, 3)]);
    for (version, target) in [
        (Version::One, b"t".as_slice()),
        (Version::One, &[97; 512]),
        (Version::Two, b"t"),
        (Version::Two, &[97; 512]),
    ] {
        let seen = life_on_disk(rt.alloc(), version, target)?;
        assert!(rt; seen == wanted, "{seen:?}");
    }
    Ok(())
}
