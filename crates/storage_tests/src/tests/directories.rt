//! Calls on directories of a few names and of many, with what each reads and puts.

ghost use Rattle.std.specs.Prelude.{◌≤◌, length, OnOk};
ghost use Rattle.fs_layout.specs.declared.slot.TheConstants.{MAX_NAME};
ghost use Rattle.fs_layout.specs.Version.{max_name};
ghost use Rattle.fs_layout.specs.Directories.{IsName};
ghost use Rattle.bit_alloc.specs.Room.{HasSpare};
ghost use Rattle.blank_map.specs.Maps.{IsWithoutInodes};
ghost use Rattle.storage_tests.specs.Directories.{IsStoredDirectory};

use crate::tests::maps::{end, map_without_inodes, parsed};
use blank_map::Counted;
use dir_core::{DirFault, insert, is_empty, list, lookup, remove, rename, replace};
use fs_layout::{Geometry, Inode, Kind, MAX_NAME, Super, Version, is_name};
use inode_table::{load, new_inode};
use posix_acl::Acl;
use sector_txn::Sectors;
use std::alloc::Global;
use std::test::Fail;

// The disks: their block bitmaps have one sector.
const DISK_OF_TWO: Super = Super {
    version: Version::Two,
    sectors: 1024,
    inodes: 16,
    header: 0,
};

const DISK_OF_THREE: Super = Super {
    version: Version::Three,
    header: 1,
    ..DISK_OF_TWO
};

// One of version 3 on which a call may change more than 300 sectors.
const LONG_DISK: Super = Super {
    sectors: 2048,
    header: 3,
    ..DISK_OF_THREE
};

#[derive(Clone, Copy)]
enum Call {
    Lookup,
    List,
    Insert,
    Remove,
    Replace,
    Rename,
}

// What a call gives, and how many sectors it reads and puts. A lookup gives the inode, 0 for none, and each other call the
// number of names then.
type Seen = (Result<usize, DirFault>, u32, u32);

// Name number i, with as many bytes as the longest name has.
fn name_of(i: u32) -> [u8; MAX_NAME] {
    let mut name = [b'x'; MAX_NAME];
    name[0] = 64 + (i / 64 % 64) as u8;
    name[1] = 64 + (i % 64) as u8;
    name
}

// How many of them it has: two in the versions of short names, and in the other each number that a name may have, by turns.
fn len_of(version: Version, i: u32) -> usize
    ensures most { result ≤ MAX_NAME }
    ensures short { result ≤ max_name version }
{
    match version {
        Version::One | Version::Two => 2,
        Version::Three => MAX_NAME - (i % 247) as usize,
    }
}

// Adds so many names, the i-th of which leads to inode i + 2.
fn fill<S: Sectors>(
    s: &mut S,
    geometry: Geometry,
    ino: u32,
    inode: &mut Inode,
    count: u32,
) -> Result<(), Fail>
    requires directory { IsStoredDirectory geometry (S.state s.old) ino inode.old }
    requires few { count ≤ 600 }
    ensures { OnOk result (IsStoredDirectory geometry (S.state s.new) ino inode.new) }
{
    for i in 0..count {
        if s.room() < (geometry.table - geometry.inode_bitmap) as usize + 4 {
            return Err(Fail::new("no room"));
        }
        let name = &name_of(i)[..len_of(geometry.version, i)];
        if !is_name(name) {
            return Err(Fail::new("no name"));
        }
        let Ok(()) = insert(s, geometry, ino, inode, name, i + 2) else {
            return Err(Fail::new("not added"));
        };
    }
    Ok(())
}

// Gives what has a name a new one, which is looked up before.
fn renamed<S: Sectors>(
    s: &mut S,
    geometry: Geometry,
    ino: u32,
    inode: &Inode,
    name: &[u8],
) -> Result<(), DirFault>
    requires directory { IsStoredDirectory geometry (S.state s.old) ino inode.now }
    requires spare { HasSpare geometry 1 (S.state s.old) }
{
    let new_name = b"new";
    if !is_name(new_name) {
        return Err(DirFault::Absent);
    }
    if lookup(s, geometry, inode, new_name)?.is_some() {
        return Err(DirFault::Exists);
    }
    rename(s, geometry, ino, inode, name, new_name)?;
    Ok(())
}

fn perform<S: Sectors>(
    alloc: Global,
    s: &mut S,
    geometry: Geometry,
    ino: u32,
    inode: &mut Inode,
    call: Call,
    name: &[u8],
) -> Result<usize, DirFault>
    requires directory { IsStoredDirectory geometry (S.state s.old) ino inode.old }
    requires name { IsName name.now }
    requires short { length name.now ≤ max_name geometry.version }
    requires spare { HasSpare geometry 5 (S.state s.old) }
{
    match call {
        Call::Lookup => return Ok(lookup(s, geometry, inode, name)?.unwrap_or(0) as usize),
        Call::List => return Ok(list(alloc, s, geometry, inode)?.len()),
        Call::Insert => insert(s, geometry, ino, inode, name, 9)?,
        Call::Remove => remove(s, geometry, ino, inode, name)?,
        Call::Replace => replace(s, geometry, ino, inode, name, 9)?,
        Call::Rename => renamed(s, geometry, ino, inode, name)?,
    }
    Ok((inode.size / geometry.version.slot_size() as u64) as usize)
}

// What a call on a name sees in a new directory of so many names, on a map without inodes.
fn seen_on_blank<S: Sectors>(
    alloc: Global,
    s: &mut Counted<S>,
    geometry: Geometry,
    access: &Acl,
    row: &Row,
) -> Result<Seen, Fail>
    requires { IsWithoutInodes geometry (S.state s.old.inner) }
{
    let (count, call, i, _) = *row;
    let inode = Inode {
        kind: Kind::Directory,
        mode: 0o750,
        names: 1,
        parent: 1,
        ..Inode::FREE
    };
    let Ok(ino) = new_inode(s, geometry, &inode, access, None) else {
        return Err(Fail::new("not made"));
    };
    let mut inode = load(s, geometry, ino)?;
    if !is_empty(&inode) || count > 600 {
        return Err(Fail::new("not empty"));
    }
    fill(s, geometry, ino, &mut inode, count)?;
    let name = &name_of(i)[..len_of(geometry.version, i)];
    if !is_name(name) || s.room() < (geometry.table - geometry.inode_bitmap) as usize + 5 {
        return Err(Fail::new("no room"));
    }
    s.gets = 0;
    s.puts = 0;
    let given = perform(alloc, s, geometry, ino, &mut inode, call, name);
    Ok((given, s.gets, s.puts))
}

// What a call on a name sees in a new directory, on a new disk.
fn seen_on_disk(alloc: Global, disk: Super, access: &Acl, row: &Row) -> Result<Seen, Fail> {
    let (geometry, mut s) = map_without_inodes(alloc, disk)?;
    let seen = seen_on_blank(alloc, &mut s, geometry, access, row);
    end(s);
    seen
}

// A number of names, a call with the number of its name, and what is seen.
type Row = (u32, Call, u32, Seen);

// How many rows are as they say, up to the first that isn't.
fn agreed(alloc: Global, disk: Super, access: &Acl, rows: &[Row]) -> Result<usize, Fail> {
    for (i, row) in rows.iter().enumerate() {
        if seen_on_disk(alloc, disk, access, row)? != row.3 {
            return Ok(i);
        }
    }
    Ok(rows.len())
}

// How many rows of directories with an ACL of their mode are as they say.
fn agreed_of(alloc: Global, disk: Super, rows: &[Row]) -> Result<usize, Fail> {
    let access = parsed(alloc, b"user::rwx,group::r-x,other::---")?;
    agreed(alloc, disk, &access, rows)
}

// Of the names no sector is read twice, and none behind that of the name; from 49 names on there is a sector of pointers, which
// is read for name 48 and those behind it.
const READS: [Row; 15] = [
    (0, Call::Lookup, 0, (Ok(0), 0, 0)),
    (0, Call::List, 0, (Ok(0), 0, 0)),
    (1, Call::Lookup, 0, (Ok(2), 1, 0)),
    (1, Call::Lookup, 1, (Ok(0), 1, 0)),
    (1, Call::List, 0, (Ok(1), 1, 0)),
    (48, Call::Lookup, 3, (Ok(5), 1, 0)),
    (48, Call::Lookup, 4, (Ok(6), 2, 0)),
    (48, Call::Lookup, 47, (Ok(49), 12, 0)),
    (48, Call::Lookup, 48, (Ok(0), 12, 0)),
    (48, Call::List, 0, (Ok(48), 12, 0)),
    (49, Call::Lookup, 0, (Ok(2), 1, 0)),
    (49, Call::Lookup, 48, (Ok(50), 14, 0)),
    (49, Call::Lookup, 49, (Ok(0), 14, 0)),
    (49, Call::List, 0, (Ok(49), 14, 0)),
    (160, Call::Lookup, 160, (Ok(0), 41, 0)),
];

#[test]
fn reads(rt: HostRuntime) -> Result<(), Fail> {
    let rows: &[Row] = &READS;
    let seen = agreed_of(rt.alloc(), DISK_OF_TWO, rows)?;
    assert!(rt; seen == rows.len(), "{seen}");
    Ok(())
}

// A name takes a block where the last one is full, and with name 48 the sector of pointers too. The last slot moves into
// the place of the one that is removed. Before a name becomes another one, that is looked up.
const CHANGES: [Row; 19] = [
    (0, Call::Insert, 0, (Ok(1), 2, 3)),
    (1, Call::Insert, 0, (Err(DirFault::Exists), 1, 0)),
    (1, Call::Insert, 1, (Ok(2), 3, 2)),
    (4, Call::Insert, 4, (Ok(5), 3, 3)),
    (48, Call::Insert, 48, (Ok(49), 15, 6)),
    (49, Call::Insert, 49, (Ok(50), 17, 2)),
    (0, Call::Remove, 0, (Err(DirFault::Absent), 0, 0)),
    (1, Call::Remove, 0, (Ok(0), 3, 2)),
    (2, Call::Remove, 0, (Ok(1), 5, 3)),
    (2, Call::Remove, 1, (Ok(1), 3, 2)),
    (2, Call::Remove, 2, (Err(DirFault::Absent), 1, 0)),
    (50, Call::Remove, 0, (Ok(49), 7, 3)),
    (49, Call::Remove, 48, (Ok(48), 19, 3)),
    (2, Call::Replace, 0, (Ok(2), 2, 1)),
    (2, Call::Replace, 2, (Err(DirFault::Absent), 1, 0)),
    (50, Call::Replace, 49, (Ok(50), 16, 1)),
    (2, Call::Rename, 0, (Ok(2), 3, 1)),
    (2, Call::Rename, 2, (Err(DirFault::Absent), 2, 0)),
    (50, Call::Rename, 49, (Ok(50), 30, 1)),
];

#[test]
fn changes(rt: HostRuntime) -> Result<(), Fail> {
    let rows: &[Row] = &CHANGES;
    let seen = agreed_of(rt.alloc(), DISK_OF_TWO, rows)?;
    assert!(rt; seen == rows.len(), "{seen}");
    Ok(())
}

// In version 3 a block has two names of up to 248 bytes.
const LONG: [Row; 13] = [
    (1, Call::List, 0, (Ok(1), 1, 0)),
    (3, Call::Lookup, 2, (Ok(4), 2, 0)),
    (24, Call::Lookup, 23, (Ok(25), 12, 0)),
    (24, Call::Lookup, 24, (Ok(0), 12, 0)),
    (25, Call::Lookup, 24, (Ok(26), 14, 0)),
    (96, Call::List, 0, (Ok(96), 49, 0)),
    (0, Call::Insert, 0, (Ok(1), 2, 3)),
    (1, Call::Insert, 1, (Ok(2), 3, 2)),
    (2, Call::Insert, 2, (Ok(3), 3, 3)),
    (24, Call::Insert, 24, (Ok(25), 15, 6)),
    (96, Call::Insert, 95, (Err(DirFault::Exists), 49, 0)),
    (2, Call::Remove, 0, (Ok(1), 5, 3)),
    (26, Call::Rename, 25, (Ok(26), 30, 1)),
];

// From 281 names on there is a second sector of pointers, which a third one leads to; from 537 on there are two such. For each of
// them the one above is read too.
const MANY: [Row; 11] = [
    (280, Call::Lookup, 279, (Ok(281), 141, 0)),
    (280, Call::Lookup, 280, (Ok(0), 141, 0)),
    (281, Call::Lookup, 280, (Ok(282), 144, 0)),
    (600, Call::List, 0, (Ok(600), 305, 0)),
    (280, Call::Insert, 280, (Ok(281), 146, 9)),
    (281, Call::Insert, 281, (Ok(282), 149, 2)),
    (282, Call::Insert, 282, (Ok(283), 149, 4)),
    (536, Call::Insert, 536, (Ok(537), 275, 7)),
    (281, Call::Remove, 280, (Ok(280), 280, 4)),
    (282, Call::Remove, 0, (Ok(281), 9, 3)),
    (600, Call::Replace, 599, (Ok(600), 308, 1)),
];

#[test]
fn long_names(rt: HostRuntime) -> Result<(), Fail> {
    for (disk, rows) in [
        (DISK_OF_THREE, LONG.as_slice()),
        (LONG_DISK, MANY.as_slice()),
    ] {
        let seen = agreed_of(rt.alloc(), disk, rows)?;
        assert!(rt; seen == rows.len(), "{seen}");
    }
    Ok(())
}
