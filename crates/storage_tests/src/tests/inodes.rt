//! Inodes and their ACLs: the sectors that ACLs have, and the life of an inode, with what each call reads and puts.

ghost use Rattle.std.specs.Prelude.{◌≤◌, ◌<◌, [], IfOk, OnOk};
ghost use Rattle.fs_layout.specs.Header.{log_end};
ghost use Rattle.blank_map.specs.Maps.{IsWithoutInodes};
ghost use Rattle.fs_layout.specs.Images.{Holds, inode_at};
ghost use Rattle.fs_layout.specs.Inode.{FitsInode};
ghost use Rattle.bit_alloc.specs.declared.bitmap.Bitmap.TheVariants.{Inodes};
ghost use Rattle.bit_alloc.specs.Bitmaps.{IsNumber};
ghost use Rattle.bit_alloc.specs.Inodes.{IsBlank, IsSound};

use crate::tests::blocks::{load_file, new_file};
use crate::tests::maps::{end, map_without_inodes, parsed, small_disk};
use blank_map::Counted;
use fs_layout::{Geometry, Inode, Kind, Version};
use inode_table::{
    free_inode, load, load_acl, load_default_acl, new_inode, save, save_acl, save_default_acl,
    write_inode,
};
use posix_acl::{Acl, TextForm};
use sector_txn::Sectors;
use std::alloc::Global;
use std::test::Fail;

fn is_written_as(acl: &Acl, text: &[u8]) -> Result<bool, Fail> {
    match acl.write_text(TextForm::Short) {
        Ok(written) => Ok(written.as_bytes() == text),
        Err(_) => Err(Fail::new("no memory")),
    }
}

// The first bytes of a sector of the map.
fn first_bytes<S: Sectors>(s: &mut S, geometry: Geometry, n: u32) -> Result<[u8; 24], Fail>
    requires disk { geometry.sectors ≤ (S.state s.old).disk.size }
    requires header { log_end (S.state s.old).header ≤ geometry.inode_bitmap }
{
    if n < geometry.inode_bitmap || geometry.sectors <= n {
        return Err(Fail::new("no sector"));
    }
    let mut content = [0; 512];
    s.get(n, &mut content)?;
    let mut first = [0; 24];
    (&mut first[..]).copy_from_slice(&content[..24]);
    Ok(first)
}

// The first bytes of an ACL's sector, whether it is read again as it was, whether it is kept where it is the access ACL, and
// a mode with its bits.
type Stored = ([u8; 24], bool, bool, u16);

// Makes a directory that has the ACL twice. Where it isn't kept as the access ACL, the bytes are those of the default ACL.
fn stored<S: Sectors>(
    alloc: Global,
    s: &mut Counted<S>,
    geometry: Geometry,
    acl: &Acl,
) -> Result<Stored, Fail>
    requires { IsWithoutInodes geometry (S.state s.old.inner) }
{
    let inode = Inode {
        kind: Kind::Directory,
        mode: 0o1000,
        names: 1,
        parent: 1,
        ..Inode::FREE
    };
    let (ino, _, same) = made(alloc, s, geometry, &inode, (acl, Some(acl)))?;
    let inode = load(s, geometry, ino)?;
    let kept = inode.acl != 0;
    let at = if kept { inode.acl } else { inode.default_acl };
    let first = first_bytes(s, geometry, at)?;
    Ok((first, same, kept, inode.mode))
}

// Makes a directory that has the ACL of this text twice, on a new disk.
fn stored_on_disk(alloc: Global, acl: &Acl, text: &[u8]) -> Result<Stored, Fail> {
    if !is_written_as(acl, text)? {
        return Err(Fail::new("another text"));
    }
    let (geometry, mut s) = map_without_inodes(alloc, small_disk(Version::Two))?;
    let seen = stored(alloc, &mut s, geometry, acl);
    end(s);
    seen
}

// Makes a directory that has the ACL which a text says twice.
fn stored_of(alloc: Global, text: &[u8]) -> Result<Stored, Fail> {
    let acl = parsed(alloc, text)?;
    stored_on_disk(alloc, &acl, text)
}

// The text of an ACL, and what is seen of it.
type Row = (&'static [u8], Stored);

// Count, zeros, and tag, permissions and id of the first two entries.
const ROWS: [Row; 2] = [
    (
        b"user::rw-,group::r--,other::---",
        (
            [
                3, 0, 0, 0, 0, 0, 0, 0, 1, 0, 6, 0, 0, 0, 0, 0, 4, 0, 4, 0, 0, 0, 0, 0,
            ],
            true,
            false,
            0o1640,
        ),
    ),
    (
        b"user::rwx,user:1001:rw-,group::r--,mask::r-x,other::--x",
        (
            [
                5, 0, 0, 0, 0, 0, 0, 0, 1, 0, 7, 0, 0, 0, 0, 0, 2, 0, 6, 0, 233, 3, 0, 0,
            ],
            true,
            true,
            0o1751,
        ),
    ),
];

#[test]
fn acls_have_the_bytes_of_the_format(rt: HostRuntime) -> Result<(), Fail> {
    for (text, wanted) in &ROWS {
        let seen = stored_of(rt.alloc(), text)?;
        assert!(rt; seen == *wanted, "{text:?}");
    }
    Ok(())
}

// The `get`s and `put`s of one call.
type Counts = (u32, u32);

// An access ACL, and a default ACL if there is one.
type Acls<'a> = (&'a Acl, Option<&'a Acl>);

// Whether two ACLs have the same entries.
fn are_alike(one: &Acl, other: &Acl) -> bool {
    let one = one.entries();
    let other = other.entries();
    if one.len() != other.len() {
        return false;
    }
    for i in 0..one.len() {
        if one[i].numbers() != other[i].numbers() {
            return false;
        }
    }
    true
}

// Whether an ACL that was read has the same entries.
fn is_as(read: Acl, wanted: &Acl) -> bool {
    are_alike(&read, wanted)
}

// Whether an ACL that was read, where there is one, has the same entries.
fn is_as_if_any(read: Option<Acl>, wanted: Option<&Acl>) -> bool {
    match read {
        None => wanted.is_none(),
        Some(read) => match wanted {
            None => false,
            Some(wanted) => is_as(read, wanted),
        },
    }
}

// Whether the first inode of a map was made, with one name and both ACLs.
fn is_first(n: u32, made: &Inode, has_access: bool, has_default: bool) -> bool {
    has_access && has_default && made.names == 1 && n == 1
}

// Makes an inode with these ACLs: its number, what that, its load and the loads of its ACLs cost, and whether its fields
// and ACLs were read.
pub(super) fn made<S: Sectors>(
    alloc: Global,
    s: &mut Counted<S>,
    geometry: Geometry,
    inode: &Inode,
    acls: Acls,
) -> Result<(u32, [Counts; 4], bool), Fail>
    requires map { IsWithoutInodes geometry (S.state s.old.inner) }
    requires blank { IsBlank inode.now }
    requires fits { FitsInode inode.now }
    ensures sound { OnOk result (IsSound geometry (S.state s.new.inner)) }
    ensures number { IfOk result (λ r. IsNumber geometry Inodes r.0) }
    ensures empty { IfOk result (λ r. Holds (S.state s.new.inner).sectors (inode_at geometry (S.state s.new.inner).sectors r.0) []) }
{
    let mut counts = [(0, 0); 4];
    s.gets = 0;
    s.puts = 0;
    let Ok(ino) = new_inode(s, geometry, inode, acls.0, acls.1) else {
        return Err(Fail::new("not made"));
    };
    counts[0] = (s.gets, s.puts);
    s.gets = 0;
    s.puts = 0;
    let made = load(s, geometry, ino)?;
    counts[1] = (s.gets, s.puts);
    s.gets = 0;
    s.puts = 0;
    let Ok(read) = load_acl(alloc, s, geometry, &made) else {
        return Err(Fail::new("no access ACL"));
    };
    counts[2] = (s.gets, s.puts);
    let same = is_as(read, acls.0);
    s.gets = 0;
    s.puts = 0;
    let Ok(read_default) = load_default_acl(alloc, s, geometry, &made) else {
        return Err(Fail::new("no default ACL"));
    };
    counts[3] = (s.gets, s.puts);
    let same = is_first(ino, &made, same, is_as_if_any(read_default, acls.1));
    Ok((ino, counts, same))
}

#[derive(Clone, Copy)]
enum Save {
    Inode,
    Attributes,
    Access,
    Default,
}

// What a save of file `ino` costs, as it is or with one of these ACLs.
fn saved<S: Sectors>(
    s: &mut Counted<S>,
    geometry: Geometry,
    ino: u32,
    save_as: Save,
    acls: Acls,
) -> Result<Counts, Fail>
    requires sound { IsSound geometry (S.state s.old.inner) }
    requires below { ino < geometry.inodes }
    ensures sound { OnOk result (IsSound geometry (S.state s.new.inner)) }
    ensures empty { OnOk result (Holds (S.state s.old.inner).sectors (inode_at geometry (S.state s.old.inner).sectors ino) []
        → Holds (S.state s.new.inner).sectors (inode_at geometry (S.state s.new.inner).sectors ino) []) }
{
    let inode = load_file(s, geometry, ino, 2)?;
    s.gets = 0;
    s.puts = 0;
    match save_as {
        Save::Inode => {
            write_inode(s, geometry, ino, &inode)?;
            Ok((s.gets, s.puts))
        }
        Save::Attributes => {
            save(s, geometry, ino, &inode)?;
            Ok((s.gets, s.puts))
        }
        Save::Access => {
            save_acl(s, geometry, ino, &inode, acls.0)?;
            Ok((s.gets, s.puts))
        }
        Save::Default => {
            save_default_acl(s, geometry, ino, &inode, acls.1)?;
            Ok((s.gets, s.puts))
        }
    }
}

// What all saves of file `ino` cost, one after the other.
fn saves<S: Sectors>(
    s: &mut Counted<S>,
    geometry: Geometry,
    ino: u32,
    acls: Acls,
) -> Result<[Counts; 4], Fail>
    requires sound { IsSound geometry (S.state s.old.inner) }
    requires below { ino < geometry.inodes }
    ensures sound { OnOk result (IsSound geometry (S.state s.new.inner)) }
    ensures empty { OnOk result (Holds (S.state s.old.inner).sectors (inode_at geometry (S.state s.old.inner).sectors ino) []
        → Holds (S.state s.new.inner).sectors (inode_at geometry (S.state s.new.inner).sectors ino) []) }
{
    Ok([
        saved(s, geometry, ino, Save::Inode, acls)?,
        saved(s, geometry, ino, Save::Attributes, acls)?,
        saved(s, geometry, ino, Save::Access, acls)?,
        saved(s, geometry, ino, Save::Default, acls)?,
    ])
}

// What a file costs: made and loaded, saved, and freed; and whether its fields and ACLs were read.
type Life = ([Counts; 4], [Counts; 4], Counts, bool);

// A file is made with ACLs, gets others and is freed.
fn life<S: Sectors>(
    alloc: Global,
    s: &mut Counted<S>,
    geometry: Geometry,
    first: Acls,
    then: Acls,
) -> Result<Life, Fail>
    requires { IsWithoutInodes geometry (S.state s.old.inner) }
{
    let (ino, made, same) = made(alloc, s, geometry, &new_file(), first)?;
    let saved = saves(s, geometry, ino, then)?;
    if s.room() <= (geometry.table - geometry.inode_bitmap) as usize {
        return Err(Fail::new("no room"));
    }
    s.gets = 0;
    s.puts = 0;
    free_inode(s, geometry, ino)?;
    Ok((made, saved, (s.gets, s.puts), same))
}

// The life of a file on a new disk.
fn life_on_disk(alloc: Global, first: Acls, then: Acls) -> Result<Life, Fail> {
    let (geometry, mut s) = map_without_inodes(alloc, small_disk(Version::Two))?;
    let seen = life(alloc, &mut s, geometry, first, then);
    end(s);
    seen
}

// The lives of files whose ACLs take a sector, rewrite one or give one back.
fn lives_of(alloc: Global, short: &Acl, long: &Acl) -> Result<[Life; 4], Fail> {
    Ok([
        life_on_disk(alloc, (short, None), (long, Some(long)))?,
        life_on_disk(alloc, (long, None), (long, None))?,
        life_on_disk(alloc, (short, Some(short)), (short, None))?,
        life_on_disk(alloc, (long, Some(long)), (short, Some(short)))?,
    ])
}

fn lives(alloc: Global) -> Result<[Life; 4], Fail> {
    let short = parsed(alloc, b"user::rw-,group::r--,other::---")?;
    let long = parsed(
        alloc,
        b"user::rw-,user:1001:rw-,group::r--,mask::rw-,other::---",
    )?;
    lives_of(alloc, &short, &long)
}

// new_inode, load, load_acl, load_default_acl; write_inode, save, save_acl, save_default_acl; free_inode
const LIVES: [Life; 4] = [
    (
        [(2, 2), (1, 0), (0, 0), (0, 0)],
        [(1, 1), (1, 1), (2, 3), (2, 3)],
        (5, 4),
        true,
    ),
    (
        [(3, 4), (1, 0), (1, 0), (0, 0)],
        [(1, 1), (1, 1), (1, 2), (1, 1)],
        (4, 3),
        true,
    ),
    (
        [(3, 4), (1, 0), (0, 0), (1, 0)],
        [(1, 1), (1, 1), (1, 1), (2, 2)],
        (3, 2),
        true,
    ),
    (
        [(4, 6), (1, 0), (1, 0), (1, 0)],
        [(1, 1), (1, 1), (2, 2), (1, 2)],
        (4, 3),
        true,
    ),
];

#[test]
fn calls(rt: HostRuntime) -> Result<(), Fail> {
    let seen = lives(rt.alloc())?;
    assert!(rt; seen == LIVES, "{seen:?}");
    Ok(())
}
