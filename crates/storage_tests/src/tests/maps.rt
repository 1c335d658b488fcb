//! A map on a new disk in memory, and the ACLs of its inodes.

ghost use Rattle.std.specs.Prelude.{◌≡◌, ◌≤◌, IfOk, IfSome};
ghost use Rattle.fs_layout.specs.Superblock.{FitsVersion};
ghost use Rattle.redo_journal.specs.States.{header_at};
ghost use Rattle.blank_map.specs.Maps.{IsPlaced, IsWithoutInodes};

use blank_map::{Counted, make_blank};
use fs_layout::{Commit, Geometry, Super, Version};
use posix_acl::{Acl, AclFault};
use redo_journal::Journal;
use sector_disk::{Disk, MemDisk};
use sector_txn::{Sectors, Store, Txn};
use std::alloc::Global;
use std::test::Fail;

// A store on a disk with this superblock, where it has so many sectors, and so many of them header sectors.
fn opened<D: Disk + Drop>(alloc: Global, disk: D, superblock: Super) -> Option<Store<D>>
    requires { 1024 ≤ superblock.sectors }
    ensures size { IfSome result (λ store. (D.state store.disk).size ≡ superblock.sectors) }
    ensures header { IfSome result (λ store. header_at (D.state store.disk).seen ≡ superblock.header) }
{
    if disk.size() != superblock.sectors {
        return None;
    }
    let Ok(journal) = Journal::open(disk) else {
        return None;
    };
    if journal.header() != superblock.header {
        return None;
    }
    match Store::new(alloc, journal, 0) {
        Ok(store) => Some(store),
        Err(_) => None,
    }
}

// A disk in memory, zeros but for this superblock and an idle commit sector.
fn disk_of(alloc: Global, superblock: Super) -> Option<MemDisk>
    requires { FitsVersion superblock }
{
    let mut disk = MemDisk::new(alloc, superblock.sectors).ok()?;
    if disk.size() < 2 {
        return None;
    }
    let mut content = [0; 512];
    superblock.write_to(&mut content, 0);
    disk.write(0, &content).ok()?;
    disk.write(1, &Commit::idle().to_sector()).ok()?;
    disk.sync().ok()?;
    Some(disk)
}

// A layout, and a transaction on a disk that has it.
pub(super) type Map = (Geometry, Counted<Txn<MemDisk>>);

// The superblock of this version, of so many sectors and inodes, with as few header sectors as it has.
pub(super) fn superblock_of(version: Version, sectors: u32, inodes: u32) -> Super {
    let header = match version {
        Version::One | Version::Two => 0,
        Version::Three => 1,
    };
    Super {
        version,
        sectors,
        inodes,
        header,
    }
}

// That of a small disk: its block bitmap has one sector, and its inode table four.
pub(super) fn small_disk(version: Version) -> Super {
    superblock_of(version, 1024, 16)
}

// A transaction on a new disk with this superblock.
#[tactic(auto, using(crate::proofs::Lives::placed_on))]
pub(super) fn new_map(alloc: Global, superblock: Super) -> Result<Map, Fail>
    ensures { IfOk result (λ map. IsPlaced map.0 (⟦<Txn<MemDisk> as Sectors>⟧.state map.1.inner)) }
{
    let geometry = superblock.geometry().ok_or("no place")?;
    if geometry.sectors != superblock.sectors || geometry.header != superblock.header {
        return Err(Fail::new("another place"));
    }
    let disk = disk_of(alloc, superblock).ok_or("no disk")?;
    let store = opened(alloc, disk, superblock).ok_or("no store")?;
    Ok((geometry, Counted::new(store.begin())))
}

// One on which no inode is used.
pub(super) fn map_without_inodes(alloc: Global, superblock: Super) -> Result<Map, Fail>
    ensures { IfOk result (λ map. IsWithoutInodes map.0 (⟦<Txn<MemDisk> as Sectors>⟧.state map.1.inner)) }
{
    let (geometry, mut s) = new_map(alloc, superblock)?;
    match make_blank(&mut s, geometry) {
        Ok(true) => Ok((geometry, s)),
        _ => {
            end(s);
            Err(Fail::new("not blank"))
        }
    }
}

// Nothing of it is kept.
pub(super) fn end(s: Counted<Txn<MemDisk>>) {
    let _store = s.into_inner().drop_delta();
}

pub(super) fn parsed(alloc: Global, text: &[u8]) -> Result<Acl, Fail> {
    match Acl::parse_text(alloc, text) {
        Ok(acl) => Ok(acl),
        Err(AclFault::OutOfMemory) => Err(Fail::new("no memory")),
        Err(_) => Err(Fail::new("no ACL")),
    }
}
