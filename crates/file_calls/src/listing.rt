//! What a directory has: POSIX.1-2017, readdir().

ghost use Rattle.std.specs.Prelude.{◌≡◌, [], ◌∷◌, ◌++◌, map, codes, OnOk, IfOk, IfErr};
ghost use Rattle.dir_core.specs.Slots.{name_entry};
ghost use Rattle.fs_layout.specs.Directories.{HasNames};
ghost use Rattle.fs_model.specs.Listings.{pairs};
ghost use Rattle.sector_txn.specs.Sectors.{IsUnchanged};
ghost use Rattle.call_parts.specs.BothTables.{both};
ghost use Rattle.call_parts.specs.Performing.{MayPerform, Performs};
ghost use Rattle.file_calls.specs.Places.{offset_at, list_through};
ghost use Rattle.call_parts.specs.Telling.{ShowsInode, ReadsInode};

use call_parts::{CallResult, OpenAt, OpenFor, Site, check_is_directory, reach_open};
use dir_core::{DirFault, list};
use fs_cred::{Errno, Refusal};
use fs_layout::{Geometry, Inode, Slot};
use fs_model::{Listing, Name, Named, Reply};
use open_files::{Openings, Procs};
use sector_txn::Sectors;
use std::alloc::Global;

// Adds a name to others. ENOMEM: there is no memory for it.
fn push_name(alloc: Global, names: &mut Vec<Named>, name: &[u8], ino: u32) -> Result<(), Refusal>
    ensures added { OnOk result (pairs names.new.items ≡ pairs names.old.items ++ (name.now, ino) ∷ []) }
    ensures fault { IfErr result (λ e. e ≡ Refusal.Failed Errno.ENOMEM) }
{
    let Ok(name) = Name::from_slice(alloc, name) else {
        return Err(Refusal::Failed(Errno::ENOMEM));
    };
    let Ok(_) = names.push(Named { name, ino }) else {
        return Err(Refusal::Failed(Errno::ENOMEM));
    };
    Ok(())
}

// The listing of directory `ino`: itself, its parent, and its names. ENOMEM: there is no memory for it.
fn list_slots(alloc: Global, ino: u32, parent: u32, slots: &[Slot]) -> Result<Listing, Refusal>
    ensures shown { IfOk result (λ names. names ≡ (codes ".", ino) ∷ (codes "..", parent) ∷ map name_entry slots.now) }
    ensures fault { IfErr result (λ e. e ≡ Refusal.Failed Errno.ENOMEM) }
{
    let Ok(mut names) = Vec::with_capacity(alloc, slots.len() + 2) else {
        return Err(Refusal::Failed(Errno::ENOMEM));
    };
    push_name(alloc, &mut names, b".", ino)?;
    push_name(alloc, &mut names, b"..", parent)?;
    for slot in slots {
        push_name(alloc, &mut names, slot.name(), slot.ino())?;
    }
    Ok(Listing::new(names))
}

// The listing of directory `ino`, whose inode this is.
fn list_names<S: Sectors>(
    alloc: Global,
    s: &mut S,
    geometry: Geometry,
    ino: u32,
    inode: &Inode,
) -> Result<Listing, Refusal>
    requires { ShowsInode geometry (S.state s.old) inode.now (HasNames geometry.version) }
    ensures { ReadsInode inode.now (HasNames geometry.version)
        (λ names. (codes ".", ino) ∷ (codes "..", inode.now.parent) ∷ names) (S.state s.old) (S.state s.new) result }
{
    let slots = match list(alloc, s, geometry, inode) {
        Ok(slots) => slots,
        Err(DirFault::OutOfMemory) => return Err(Refusal::Failed(Errno::ENOMEM)),
        Err(_) => return Err(Refusal::Failed(Errno::EIO)),
    };
    list_slots(alloc, ino, inode.parent, &slots)
}

/// Lists the directory of a descriptor or a handle: `.`, `..`, and its names in bytewise order.
///
/// EBADF: it isn't open for reading. ENOTDIR: it is no directory.
pub fn readdir<S: Sectors>(
    s: &mut S,
    site: Site,
    procs: &Procs,
    openings: &Openings,
    place: OpenAt,
) -> CallResult
    requires ready { MayPerform site.geometry (S.state s.old) (both procs.now openings.now.0) }
    requires start { offset_at place ≡ 0 }
    ensures performs { Performs site.geometry site.time (list_through place) (S.state s.old) (S.state s.new)
        (both procs.now openings.now.0) (both procs.now openings.now.0) result }
    ensures same { IsUnchanged (S.state s.old) (S.state s.new) }
{
    let geometry = site.geometry;
    let (descriptor, inode) = reach_open(s, geometry, procs, openings, place, OpenFor::Reading)?;
    check_is_directory(inode.kind)?;
    let names = list_names(site.alloc, s, geometry, descriptor.ino, &inode)?;
    Ok(Reply::Names(names))
}
