//! How often each inode is named, and its parent.

ghost use Rattle.std.specs.Prelude.{◌≡◌, IsTrue, ◌↔◌};
ghost use Rattle.fs_model.specs.Rules.{HasNameCount, Names as NameCounts, Parents};
ghost use Rattle.fs_check.specs.Checks.{HaveSizes, FindsLeast};
ghost use Rattle.fs_check.specs.Ways.{the_parent};

use crate::directories::Names;
use fs_layout::{Geometry, Inode, Kind, ROOT, Version};

// Whether inode `ino` may have the names field that it has, where so many slots name it.
fn has_name_count(version: Version, ino: u32, inode: &Inode, count: u64) -> bool
    ensures { IsTrue result ↔ HasNameCount version inode.now.kind ino inode.now.names count }
{
    let most = version.max_inode_names() as u64;
    let names = inode.names as u64;
    match inode.kind {
        Kind::Free => true,
        Kind::File => names == count && count <= most,
        Kind::Directory => names == 1 && count == if ino == ROOT { 0 } else { 1 },
        Kind::Link => names == count && 1 <= count && count <= most,
    }
}

/// The first inode whose count of names isn't the number of slots that name it, or isn't one that it may have.
pub(crate) fn miscounted(geometry: Geometry, inodes: &[Inode], names: &Names) -> Option<u32>
    requires { HaveSizes geometry inodes.now names.now.counts.items names.now.directories.items }
    ensures { FindsLeast NameCounts geometry inodes.now names.now.counts.items names.now.directories.items result }
{
    for ino in 0..inodes.len() as u32 {
        let count = names.counts[ino as usize];
        if !has_name_count(geometry.version, ino, &inodes[ino as usize], count) {
            return Some(ino);
        }
    }
    None
}

// Whether inode `ino` may have the parent field that it has, where this directory names it, or none does.
fn has_parent(ino: u32, inode: &Inode, parent_ino: u32) -> bool
    ensures { IsTrue result ↔ (inode.now.parent ≡ the_parent ino inode.now.kind parent_ino) }
{
    if ino == ROOT {
        return inode.parent == ROOT;
    }
    match inode.kind {
        Kind::Directory => inode.parent == parent_ino,
        Kind::Free | Kind::File | Kind::Link => inode.parent == 0,
    }
}

/// The first inode whose parent field isn't the directory that names it.
pub(crate) fn misplaced(geometry: Geometry, inodes: &[Inode], names: &Names) -> Option<u32>
    requires { HaveSizes geometry inodes.now names.now.counts.items names.now.directories.items }
    ensures { FindsLeast Parents geometry inodes.now names.now.counts.items names.now.directories.items result }
{
    for ino in 0..inodes.len() as u32 {
        if !has_parent(ino, &inodes[ino as usize], names.directories[ino as usize]) {
            return Some(ino);
        }
    }
    None
}
