//! The names of a directory: the slot of each is found, all are listed, and a name is added, removed, led to another inode or replaced.

ghost use Rattle.std.specs.Prelude.{◌≡◌, ◌↔◌, ◌≤◌, ◌<◌, ◌+◌, ◌^◌, List, length, slice_index, IsTrue, Some, IfOk, IfSome, ℕ, [], ◌≢◌, ◌-◌, ◌*◌, slice_index_or, take, set, None, IfErr, OnOk, ◌⊎◌, ◌/◌, ◌%◌, map};
ghost use Rattle.fs_layout.specs.Directories.{NamedInode, HasNames, IsName, HaveDistinctNames, slot_bytes, slots_bytes, names_of_slots};
ghost use Rattle.fs_layout.specs.Version.{max_name, slot_size, max_names, block_slots};
ghost use Rattle.fs_layout.specs.declared.version.Version.{Version};
ghost use Rattle.sector_txn.specs.Sectors.{IsUnchanged, SameStore};
ghost use Rattle.sector_disk.specs.Disk.{HasCause};
ghost use Rattle.block_map.specs.Blocks.{IsWithin, IsAtHand};
ghost use Rattle.dir_core.specs.Slots.{HasSlots, IsSlotAt, IsFoundInBlock, IsFoundIn, IsBlock, name_entry};
ghost use Rattle.fs_layout.specs.Bytes.{SectorMap};
ghost use Rattle.fs_layout.specs.Maps.{get, name_cmp, with_entry, without};
ghost use Rattle.bit_alloc.specs.Inodes.{IsSound};
ghost use Rattle.inode_table.specs.Inodes.{IsInodeOf};
ghost use Rattle.fs_layout.specs.Images.{Holds, HasNoHole, inode_at};
ghost use Rattle.bit_alloc.specs.Room.{HasSpare};
ghost use Rattle.bit_alloc.specs.Faults.{HasCauseOf};
ghost use Rattle.block_map.specs.Contents.{ChangesContent};
ghost use Rattle.dir_core.specs.Faults.{taken_for, WhyNotAdded, WhyNotChanged};
ghost use Rattle.dir_core.specs.declared.fault.DirFault.TheVariants.{DiskFault as Device, OutOfMemory};

use crate::DirFault;
use block_map::{Blocks, overwrite, read_at, set_size, write_at};
use byteorder::{ByteOrder, LittleEndian};
use fs_layout::{Geometry, Inode, MAX_SLOT_SIZE, Slot, Version};
use sector_disk::DiskFault;
use sector_txn::Sectors;
use std::alloc::Global;
use std::hash::{DefaultHasher, Hasher};

/// The slot that has a name.
#[derive(Clone, Copy)]
struct FoundSlot {
    /// The slot's number.
    pub(crate) slot: u64,
    /// The inode's number.
    pub(crate) ino: u32,
}

impl FoundSlot {
    // A slot of a block, as it is counted in the directory, where so many stand before the block.
    fn behind(self, slots: u64) -> FoundSlot
        requires { slots + self.slot < 2 ^ 64 }
        ensures { result ≡ record self { slot = slots + self.slot } }
    {
        FoundSlot {
            slot: slots + self.slot,
            ino: self.ino,
        }
    }
}

// Whether the slot at `at` has the name. The length is compared first, and then the last byte, since names of one directory
// often begin alike.
fn is_named(version: Version, block: &[u8; 512], at: usize, name: &[u8]) -> bool
    requires within { at + slot_size version ≤ 512 }
    requires len { (0 < length name.now) × (length name.now ≤ max_name version) }
    ensures named { (x : NamedInode) → IsSlotAt version block.now at x → (IsTrue result ↔ (x.name ≡ name.now)) }
    ensures len { IsTrue result → slice_index block.now (at + 4) ≡ length name.now }
{
    let len = name.len();
    if block[at + 4] as usize != len {
        return false;
    }
    if block[at + 7 + len] != name[len - 1] {
        return false;
    }
    &block[at + 8..at + 8 + len] == name
}

// The inode of the slot at `at`.
fn slot_ino(block: &[u8; 512], at: usize) -> u32
    requires { at + 4 ≤ 512 }
    ensures { (version : Version) (x : NamedInode) → IsSlotAt version block.now at x → result ≡ x.ino }
{
    LittleEndian::read_u32(&block[at..])
}

// The first slot of a block that has the name, as it is counted there. A slot that isn't in use has none: its bytes are zeros.
fn find_in_block(version: Version, block: &[u8; 512], name: &[u8]) -> Option<FoundSlot>
    requires { (0 < length name.now) × (length name.now ≤ max_name version) }
    ensures len { length block.now ≡ 512 }
    ensures found { IsFoundInBlock version block.now name.now result }
{
    let slot_size = version.slot_size();
    for slot in 0..version.block_slots() {
        let at = slot_size * slot;
        if is_named(version, block, at, name) {
            let ino = slot_ino(block, at);
            let slot = slot as u64;
            return Some(FoundSlot { slot, ino });
        }
    }
    None
}

// Under this key the slot of a name is left as a hint. It is a salted hash: users pick names, and would soon find many to which a hash
// that they know gives one place.
pub(crate) fn hint_key(salt: u64, inode: &Inode, name: &[u8]) -> u64 {
    let mut hasher = DefaultHasher::new();
    hasher.write_u64(salt);
    hasher.write_u32(inode.direct[0]);
    hasher.write(name);
    hasher.finish()
}

// Looks for a name in the block where it was found lately. If it isn't there, another block may have it.
fn find_at_hint<S: Sectors>(
    s: &mut S,
    version: Version,
    inode: &Inode,
    key: u64,
    name: &[u8],
) -> Result<Option<FoundSlot>, DiskFault>
    requires len { (0 < length name.now) × (length name.now ≤ max_name version) }
    requires within { IsWithin (S.state s.old).header (S.state s.old).disk.size (S.state s.old).sectors inode.now }
    ensures found { IfOk result (λ found. IfSome found (λ slot. (slots : List NamedInode)
        → HasSlots version (S.state s.old).sectors inode.now slots
        → IsFoundIn slots name.now (Some slot))) }
    ensures same { IsUnchanged (S.state s.old) (S.state s.new) }
    ensures cause { HasCause (S.state s.old).disk (S.state s.new).disk result }
{
    let Some(hint) = s.hint(key) else {
        return Ok(None);
    };
    // The directory may have fewer slots by now.
    if inode.size / version.slot_size() as u64 <= hint {
        return Ok(None);
    }
    let block_slots = version.block_slots() as u64;
    let k = hint / block_slots;
    let found = Blocks::new(inode).read_with(s, k, |block| find_in_block(version, block, name))?;
    if let Some(found) = found {
        return Ok(Some(found.behind(block_slots * k)));
    }
    Ok(None)
}

// Looks for a name in one block after another.
fn find_by_blocks<S: Sectors>(
    s: &mut S,
    version: Version,
    inode: &Inode,
    name: &[u8],
) -> Result<Option<FoundSlot>, DiskFault>
    requires len { (0 < length name.now) × (length name.now ≤ max_name version) }
    requires within { IsWithin (S.state s.old).header (S.state s.old).disk.size (S.state s.old).sectors inode.now }
    requires directory { (slots : List NamedInode) × HasSlots version (S.state s.old).sectors inode.now slots }
    ensures found { IfOk result (λ found. (slots : List NamedInode) → HasSlots version (S.state s.old).sectors inode.now slots
        → IsFoundIn slots name.now found) }
    ensures same { IsUnchanged (S.state s.old) (S.state s.new) }
    ensures cause { HasCause (S.state s.old).disk (S.state s.new).disk result }
{
    let slot_size = version.slot_size() as u64;
    let block_slots = version.block_slots() as u64;
    let slots = inode.size / slot_size;
    let mut blocks = Blocks::new(inode);
    for k in 0..slots.div_ceil(block_slots) {
        let found = blocks.read_with(s, k, |block| find_in_block(version, block, name))?;
        if let Some(found) = found {
            return Ok(Some(found.behind(block_slots * k)));
        }
    }
    Ok(None)
}

// Finds the slot of a name: first where it was found lately, and then block by block. What can't be a name is not found.
fn find_slot<S: Sectors>(
    s: &mut S,
    version: Version,
    inode: &Inode,
    name: &[u8],
) -> Result<Option<FoundSlot>, DiskFault>
    requires within { IsWithin (S.state s.old).header (S.state s.old).disk.size (S.state s.old).sectors inode.now }
    requires directory { (slots : List NamedInode) × HasSlots version (S.state s.old).sectors inode.now slots }
    ensures found { IfOk result (λ found. (slots : List NamedInode) → HasSlots version (S.state s.old).sectors inode.now slots
        → IsFoundIn slots name.now found) }
    ensures same { IsUnchanged (S.state s.old) (S.state s.new) }
    ensures cause { HasCause (S.state s.old).disk (S.state s.new).disk result }
{
    if name.is_empty() {
        return Ok(None);
    }
    if version.max_name() < name.len() {
        return Ok(None);
    }
    // One block needs no hint.
    if inode.size <= 512 {
        let found = find_by_blocks(s, version, inode, name)?;
        return Ok(found);
    }
    let key = hint_key(s.salt(), inode, name);
    if let Some(found) = find_at_hint(s, version, inode, key, name)? {
        return Ok(Some(found));
    }
    if let Some(found) = find_by_blocks(s, version, inode, name)? {
        s.leave_hint(key, found.slot);
        return Ok(Some(found));
    }
    // Whoever makes the name next, and then asks for it, finds it behind all others.
    s.leave_hint(key, inode.size / version.slot_size() as u64);
    Ok(None)
}

/// The inode that a name leads to in a directory of the table. Bytes that can't be a name lead nowhere.
pub fn lookup<S: Sectors>(
    s: &mut S,
    geometry: Geometry,
    inode: &Inode,
    name: &[u8],
) -> Result<Option<u32>, DiskFault>
    requires sound { IsSound geometry (S.state s.old) }
    requires there { IsInodeOf geometry (S.state s.old).sectors inode.now }
    requires directory { (names : List (List ℕ × ℕ)) × HasNames geometry.version (S.state s.old).sectors inode.now names }
    ensures found { IfOk result (λ found. (names : List (List ℕ × ℕ)) → HasNames geometry.version (S.state s.old).sectors inode.now names
        → found ≡ get name_cmp names name.now) }
    ensures same { IsUnchanged (S.state s.old) (S.state s.new) }
    ensures cause { HasCause (S.state s.old).disk (S.state s.new).disk result }
{
    let found = find_slot(s, geometry.version, inode, name)?;
    Ok(found.map(|slot| slot.ino))
}

/// Whether a directory has no names.
pub fn is_empty(inode: &Inode) -> bool
    ensures { (version : Version) (image : SectorMap) (names : List (List ℕ × ℕ)) → HasNames version image inode.now names
        → (IsTrue result ↔ (names ≡ [])) }
{
    inode.size == 0
}

// A block that begins with a slot.
fn block_with(version: Version, ino: u32, name: &[u8]) -> [u8; 512]
    requires name { IsName name.now }
    requires short { length name.now ≤ max_name version }
    ensures { take (slot_size version) result ≡ slot_bytes version (record { ino = ino; name = name.now }) }
{
    let mut block = [0; 512];
    Slot::new(ino, name).write_in(version, &mut block, 0);
    block
}

/// Adds a name, which is new and leads to inode `to`, to directory `ino`. `inode` is its record, before and after.
///
/// It doesn't look for the name. At `Err` the caller drops the changes of the transaction; of `inode` nothing is said then.
pub fn insert_new<S: Sectors>(
    s: &mut S,
    geometry: Geometry,
    ino: u32,
    inode: &mut Inode,
    name: &[u8],
    to: u32,
) -> Result<(), DirFault>
    requires sound { IsSound geometry (S.state s.old) }
    requires below { ino < geometry.inodes }
    requires inode { inode.old ≡ inode_at geometry (S.state s.old).sectors ino }
    requires directory { (names : List (List ℕ × ℕ)) × HasNames geometry.version (S.state s.old).sectors inode.old names
        × (get name_cmp names name.now ≡ None) }
    requires name { IsName name.now }
    requires short { length name.now ≤ max_name geometry.version }
    requires spare { HasSpare geometry 4 (S.state s.old) }
    ensures change { OnOk result (ChangesContent geometry ino (taken_for inode.old) 4 (S.state s.old) (S.state s.new) inode.old inode.new) }
    ensures names { OnOk result ((names : List (List ℕ × ℕ)) → HasNames geometry.version (S.state s.old).sectors inode.old names
        → (length names < max_names geometry.version) × HasNames geometry.version (S.state s.new).sectors inode.new
        (with_entry name_cmp names name.now to)) }
    ensures why { IfErr result (λ e. (names : List (List ℕ × ℕ)) → HasNames geometry.version (S.state s.old).sectors inode.old names
        → WhyNotAdded geometry (S.state s.old).sectors inode.old names name.now e) }
    ensures store { SameStore (S.state s.old) (S.state s.new) }
    ensures cause { HasCauseOf DirFault.DiskFault (S.state s.old).disk (S.state s.new).disk result }
{
    let end = inode.size;
    if end >= geometry.version.max_directory_size() {
        return Err(DirFault::Full);
    }
    let block = block_with(geometry.version, to, name);
    write_at(
        s,
        geometry,
        ino,
        inode,
        end,
        &block[..geometry.version.slot_size()],
    )?;
    Ok(())
}

/// Adds a name, which leads to inode `to`, to directory `ino`. `inode` is its record, before and after.
///
/// At `Err` the caller drops the changes of the transaction; of `inode` nothing is said then.
pub fn insert<S: Sectors>(
    s: &mut S,
    geometry: Geometry,
    ino: u32,
    inode: &mut Inode,
    name: &[u8],
    to: u32,
) -> Result<(), DirFault>
    requires sound { IsSound geometry (S.state s.old) }
    requires below { ino < geometry.inodes }
    requires inode { inode.old ≡ inode_at geometry (S.state s.old).sectors ino }
    requires directory { (names : List (List ℕ × ℕ)) × HasNames geometry.version (S.state s.old).sectors inode.old names }
    requires name { IsName name.now }
    requires short { length name.now ≤ max_name geometry.version }
    requires spare { HasSpare geometry 4 (S.state s.old) }
    ensures change { OnOk result (ChangesContent geometry ino (taken_for inode.old) 4 (S.state s.old) (S.state s.new) inode.old inode.new) }
    ensures names { OnOk result ((names : List (List ℕ × ℕ)) → HasNames geometry.version (S.state s.old).sectors inode.old names
        → (get name_cmp names name.now ≡ None) × (length names < max_names geometry.version)
        × HasNames geometry.version (S.state s.new).sectors inode.new (with_entry name_cmp names name.now to)) }
    ensures why { IfErr result (λ e. (names : List (List ℕ × ℕ)) → HasNames geometry.version (S.state s.old).sectors inode.old names
        → WhyNotAdded geometry (S.state s.old).sectors inode.old names name.now e) }
    ensures store { SameStore (S.state s.old) (S.state s.new) }
    ensures cause { HasCauseOf DirFault.DiskFault (S.state s.old).disk (S.state s.new).disk result }
{
    if find_slot(s, geometry.version, inode, name)?.is_some() {
        return Err(DirFault::Exists);
    }
    insert_new(s, geometry, ino, inode, name, to)?;
    Ok(())
}

// Finds the slot of a name of a directory, which has to be there.
fn named_slot<S: Sectors>(
    s: &mut S,
    geometry: Geometry,
    inode: &Inode,
    name: &[u8],
) -> Result<FoundSlot, DirFault>
    requires within { IsWithin (S.state s.old).header (S.state s.old).disk.size (S.state s.old).sectors inode.now }
    requires directory { (names : List (List ℕ × ℕ)) × HasNames geometry.version (S.state s.old).sectors inode.now names }
    ensures found { IfOk result (λ found. (slots : List NamedInode) → HasSlots geometry.version (S.state s.old).sectors inode.now slots
        → IsFoundIn slots name.now (Some found)) }
    ensures slots { IfOk result (λ found. (slots : List NamedInode) × HasSlots geometry.version (S.state s.new).sectors inode.now slots
        × (found.slot < length slots)) }
    ensures why { IfErr result (λ e. (names : List (List ℕ × ℕ)) → HasNames geometry.version (S.state s.old).sectors inode.now names
        → WhyNotChanged names name.now e) }
    ensures same { IsUnchanged (S.state s.old) (S.state s.new) }
    ensures cause { HasCauseOf DirFault.DiskFault (S.state s.old).disk (S.state s.new).disk result }
{
    let Some(found) = find_slot(s, geometry.version, inode, name)? else {
        return Err(DirFault::Absent);
    };
    Ok(found)
}

// Writes the last slot over another one. `bytes` has room for a slot.
fn put_last<S: Sectors>(
    s: &mut S,
    geometry: Geometry,
    ino: u32,
    inode: &Inode,
    slot: u64,
    bytes: &mut [u8],
) -> Result<(), DiskFault>
    requires sound { IsSound geometry (S.state s.old) }
    requires below { ino < geometry.inodes }
    requires inode { inode.now ≡ inode_at geometry (S.state s.old).sectors ino }
    requires directory { (slots : List NamedInode) × HasSlots geometry.version (S.state s.old).sectors inode.now slots
        × (slot < length slots) }
    requires room { length bytes.old ≡ slot_size geometry.version }
    requires spare { HasSpare geometry 1 (S.state s.old) }
    ensures change { OnOk result (ChangesContent geometry ino 0 1 (S.state s.old) (S.state s.new) inode.now inode.now) }
    ensures moved { OnOk result ((slots : List NamedInode) (d : NamedInode)
        → HasSlots geometry.version (S.state s.old).sectors inode.now slots
        → Holds (S.state s.new).sectors inode.now
        (slots_bytes geometry.version (set slots slot (slice_index_or slots (length slots - 1) d)))) }
    ensures whole { OnOk result (HasNoHole (S.state s.new).sectors inode.now) }
    ensures store { SameStore (S.state s.old) (S.state s.new) }
    ensures cause { HasCause (S.state s.old).disk (S.state s.new).disk result }
{
    let slot_size = bytes.len() as u64;
    let at = slot * slot_size;
    let last = inode.size - slot_size;
    read_at(s, inode, last, bytes)?;
    overwrite(s, geometry, ino, inode, at, bytes)?;
    Ok(())
}

// Writes the last slot in the place of another one.
fn move_last<S: Sectors>(
    s: &mut S,
    geometry: Geometry,
    ino: u32,
    inode: &Inode,
    slot: u64,
) -> Result<(), DiskFault>
    requires sound { IsSound geometry (S.state s.old) }
    requires below { ino < geometry.inodes }
    requires inode { inode.now ≡ inode_at geometry (S.state s.old).sectors ino }
    requires directory { (slots : List NamedInode) × HasSlots geometry.version (S.state s.old).sectors inode.now slots
        × (slot < length slots) }
    requires spare { HasSpare geometry 1 (S.state s.old) }
    ensures change { OnOk result (ChangesContent geometry ino 0 1 (S.state s.old) (S.state s.new) inode.now inode.now) }
    ensures moved { OnOk result ((slots : List NamedInode) (d : NamedInode)
        → HasSlots geometry.version (S.state s.old).sectors inode.now slots
        → Holds (S.state s.new).sectors inode.now
        (slots_bytes geometry.version (set slots slot (slice_index_or slots (length slots - 1) d)))) }
    ensures whole { OnOk result (HasNoHole (S.state s.new).sectors inode.now) }
    ensures store { SameStore (S.state s.old) (S.state s.new) }
    ensures cause { HasCause (S.state s.old).disk (S.state s.new).disk result }
{
    let slot_size = geometry.version.slot_size();
    let at = slot * slot_size as u64;
    let last = inode.size - slot_size as u64;
    if at == last {
        return Ok(());
    }
    let mut bytes = [0; MAX_SLOT_SIZE];
    put_last(s, geometry, ino, inode, slot, &mut bytes[..slot_size])?;
    Ok(())
}

/// Removes a name from directory `ino`. `inode` is its record, before and after.
///
/// The last slot moves into the place of the name's. At `Err` the caller drops the changes of the transaction; of `inode`
/// nothing is said then.
pub fn remove<S: Sectors>(
    s: &mut S,
    geometry: Geometry,
    ino: u32,
    inode: &mut Inode,
    name: &[u8],
) -> Result<(), DirFault>
    requires sound { IsSound geometry (S.state s.old) }
    requires below { ino < geometry.inodes }
    requires inode { inode.old ≡ inode_at geometry (S.state s.old).sectors ino }
    requires directory { (names : List (List ℕ × ℕ)) × HasNames geometry.version (S.state s.old).sectors inode.old names }
    requires spare { HasSpare geometry 5 (S.state s.old) }
    ensures change { OnOk result (ChangesContent geometry ino 0 5 (S.state s.old) (S.state s.new) inode.old inode.new) }
    ensures names { OnOk result ((names : List (List ℕ × ℕ)) → HasNames geometry.version (S.state s.old).sectors inode.old names
        → (get name_cmp names name.now ≢ None) × HasNames geometry.version (S.state s.new).sectors inode.new
        (without name_cmp names name.now)) }
    ensures why { IfErr result (λ e. (names : List (List ℕ × ℕ)) → HasNames geometry.version (S.state s.old).sectors inode.old names
        → WhyNotChanged names name.now e) }
    ensures store { SameStore (S.state s.old) (S.state s.new) }
    ensures cause { HasCauseOf DirFault.DiskFault (S.state s.old).disk (S.state s.new).disk result }
{
    let found = named_slot(s, geometry, inode, name)?;
    move_last(s, geometry, ino, inode, found.slot)?;
    let size = inode.size - geometry.version.slot_size() as u64;
    set_size(s, geometry, ino, inode, size)?;
    Ok(())
}

// Writes a name, which leads to inode `to`, in the place of a slot.
fn set_slot<S: Sectors>(
    s: &mut S,
    geometry: Geometry,
    ino: u32,
    inode: &Inode,
    slot: u64,
    name: &[u8],
    to: u32,
) -> Result<(), DiskFault>
    requires sound { IsSound geometry (S.state s.old) }
    requires below { ino < geometry.inodes }
    requires inode { inode.now ≡ inode_at geometry (S.state s.old).sectors ino }
    requires directory { (slots : List NamedInode) × HasSlots geometry.version (S.state s.old).sectors inode.now slots
        × (slot < length slots) }
    requires name { IsName name.now }
    requires short { length name.now ≤ max_name geometry.version }
    requires spare { HasSpare geometry 1 (S.state s.old) }
    ensures change { OnOk result (ChangesContent geometry ino 0 1 (S.state s.old) (S.state s.new) inode.now inode.now) }
    ensures slots { OnOk result ((slots : List NamedInode) → HasSlots geometry.version (S.state s.old).sectors inode.now slots
        → HaveDistinctNames (set slots slot (record { ino = to; name = name.now }))
        → HasSlots geometry.version (S.state s.new).sectors inode.now (set slots slot (record { ino = to; name = name.now }))) }
    ensures store { SameStore (S.state s.old) (S.state s.new) }
    ensures cause { HasCause (S.state s.old).disk (S.state s.new).disk result }
{
    let slot_size = geometry.version.slot_size();
    let at = slot * slot_size as u64;
    let block = block_with(geometry.version, to, name);
    overwrite(s, geometry, ino, inode, at, &block[..slot_size])?;
    Ok(())
}

/// Leads a name of directory `ino` to inode `to`. `inode` is its record, and stays.
///
/// At `Err` the caller drops the changes of the transaction.
pub fn replace<S: Sectors>(
    s: &mut S,
    geometry: Geometry,
    ino: u32,
    inode: &Inode,
    name: &[u8],
    to: u32,
) -> Result<(), DirFault>
    requires sound { IsSound geometry (S.state s.old) }
    requires below { ino < geometry.inodes }
    requires inode { inode.now ≡ inode_at geometry (S.state s.old).sectors ino }
    requires directory { (names : List (List ℕ × ℕ)) × HasNames geometry.version (S.state s.old).sectors inode.now names }
    requires spare { HasSpare geometry 1 (S.state s.old) }
    ensures change { OnOk result (ChangesContent geometry ino 0 1 (S.state s.old) (S.state s.new) inode.now inode.now) }
    ensures names { OnOk result ((names : List (List ℕ × ℕ)) → HasNames geometry.version (S.state s.old).sectors inode.now names
        → (get name_cmp names name.now ≢ None) × HasNames geometry.version (S.state s.new).sectors inode.now
        (with_entry name_cmp names name.now to)) }
    ensures why { IfErr result (λ e. (names : List (List ℕ × ℕ)) → HasNames geometry.version (S.state s.old).sectors inode.now names
        → WhyNotChanged names name.now e) }
    ensures store { SameStore (S.state s.old) (S.state s.new) }
    ensures cause { HasCauseOf DirFault.DiskFault (S.state s.old).disk (S.state s.new).disk result }
{
    let found = named_slot(s, geometry, inode, name)?;
    set_slot(s, geometry, ino, inode, found.slot, name, to)?;
    Ok(())
}

/// Gives what has a name in directory `ino` another name there, which is new. `inode` is its record, and stays.
///
/// It takes no sector. At `Err` the caller drops the changes of the transaction.
pub fn rename<S: Sectors>(
    s: &mut S,
    geometry: Geometry,
    ino: u32,
    inode: &Inode,
    name: &[u8],
    new_name: &[u8],
) -> Result<(), DirFault>
    requires sound { IsSound geometry (S.state s.old) }
    requires below { ino < geometry.inodes }
    requires inode { inode.now ≡ inode_at geometry (S.state s.old).sectors ino }
    requires directory { (names : List (List ℕ × ℕ)) × HasNames geometry.version (S.state s.old).sectors inode.now names
        × (get name_cmp names new_name.now ≡ None) }
    requires new_name { IsName new_name.now }
    requires short { length new_name.now ≤ max_name geometry.version }
    requires spare { HasSpare geometry 1 (S.state s.old) }
    ensures change { OnOk result (ChangesContent geometry ino 0 1 (S.state s.old) (S.state s.new) inode.now inode.now) }
    ensures there { OnOk result ((names : List (List ℕ × ℕ)) → HasNames geometry.version (S.state s.old).sectors inode.now names
        → get name_cmp names name.now ≢ None) }
    ensures names { OnOk result ((names : List (List ℕ × ℕ)) (to : ℕ) → HasNames geometry.version (S.state s.old).sectors inode.now names
        → get name_cmp names name.now ≡ Some to
        → HasNames geometry.version (S.state s.new).sectors inode.now
        (with_entry name_cmp (without name_cmp names name.now) new_name.now to)) }
    ensures why { IfErr result (λ e. (names : List (List ℕ × ℕ)) → HasNames geometry.version (S.state s.old).sectors inode.now names
        → WhyNotChanged names name.now e) }
    ensures store { SameStore (S.state s.old) (S.state s.new) }
    ensures cause { HasCauseOf DirFault.DiskFault (S.state s.old).disk (S.state s.new).disk result }
{
    let found = named_slot(s, geometry, inode, name)?;
    set_slot(s, geometry, ino, inode, found.slot, new_name, found.ino)?;
    Ok(())
}

// Reads the block of a slot, where the slot is the block's first; else the block is at hand.
fn read_block_of<S: Sectors>(
    s: &mut S,
    version: Version,
    blocks: &mut Blocks,
    slot: u64,
    block: &mut [u8; 512],
) -> Result<(), DiskFault>
    requires within { IsWithin (S.state s.old).header (S.state s.old).disk.size (S.state s.old).sectors blocks.old.inode }
    requires pointers { IsAtHand (S.state s.old).sectors blocks.old }
    requires at_hand { slot % block_slots version ≢ 0 → IsBlock (S.state s.old).sectors blocks.old.inode
        (slot / block_slots version) block.old }
    ensures inode { blocks.new.inode ≡ blocks.old.inode }
    ensures pointers { OnOk result (IsAtHand (S.state s.old).sectors blocks.new) }
    ensures block { OnOk result (IsBlock (S.state s.old).sectors blocks.old.inode (slot / block_slots version) block.new) }
    ensures same { IsUnchanged (S.state s.old) (S.state s.new) }
    ensures cause { HasCause (S.state s.old).disk (S.state s.new).disk result }
{
    let block_slots = version.block_slots() as u64;
    if slot % block_slots == 0 {
        blocks.read(s, slot / block_slots, block)?;
    }
    Ok(())
}

// The slots of a directory, in their order.
fn read_slots<S: Sectors>(
    alloc: Global,
    s: &mut S,
    version: Version,
    inode: &Inode,
) -> Result<Vec<Slot>, DirFault>
    requires within { IsWithin (S.state s.old).header (S.state s.old).disk.size (S.state s.old).sectors inode.now }
    requires directory { (slots : List NamedInode) × HasSlots version (S.state s.old).sectors inode.now slots }
    ensures found { IfOk result (λ found. (slots : List NamedInode) → HasSlots version (S.state s.old).sectors inode.now slots
        → found.items ≡ slots) }
    ensures faults { IfErr result (λ e. (e ≡ Device) ⊎ (e ≡ OutOfMemory)) }
    ensures same { IsUnchanged (S.state s.old) (S.state s.new) }
    ensures cause { HasCauseOf DirFault.DiskFault (S.state s.old).disk (S.state s.new).disk result }
{
    let slot_size = version.slot_size();
    let block_slots = version.block_slots() as u64;
    let count = inode.size / slot_size as u64;
    let Ok(mut slots) = Vec::with_capacity(alloc, count as usize) else {
        return Err(DirFault::OutOfMemory);
    };
    let mut blocks = Blocks::new(inode);
    let mut block = [0; 512];
    for k in 0..count {
        read_block_of(s, version, &mut blocks, k, &mut block)?;
        let at = slot_size * (k % block_slots) as usize;
        let Ok(slot) = Slot::read_in(version, &block, at) else {
            unreachable!()
        };
        let Ok(()) = slots.push(slot) else {
            return Err(DirFault::OutOfMemory);
        };
    }
    Ok(slots)
}

// Brings slots into the bytewise order of their names.
fn sort_by_name(slots: &mut [Slot])
    requires { HaveDistinctNames slots.old }
    ensures { map name_entry slots.new ≡ names_of_slots slots.old }
{
    slots.sort_unstable_by(|a, b| a.name().cmp(b.name()));
}

// Leaves word where each name stands: whoever lists a directory asks for its names next.
fn leave_hints<S: Sectors>(s: &mut S, inode: &Inode, slots: &[Slot])
    ensures { IsUnchanged (S.state s.old) (S.state s.new) }
{
    // One block needs no hint.
    if inode.size <= 512 {
        return;
    }
    let salt = s.salt();
    for (k, slot) in slots.iter().enumerate() {
        s.leave_hint(hint_key(salt, inode, slot.name()), k as u64);
    }
}

/// All names of a directory of the table, each with its inode, in the bytewise order of the names.
///
/// Room for all of them is taken first. It is refused by [`DirFault::DiskFault`] and [`DirFault::OutOfMemory`] alone.
pub fn list<S: Sectors>(
    alloc: Global,
    s: &mut S,
    geometry: Geometry,
    inode: &Inode,
) -> Result<Vec<Slot>, DirFault>
    requires sound { IsSound geometry (S.state s.old) }
    requires there { IsInodeOf geometry (S.state s.old).sectors inode.now }
    requires directory { (names : List (List ℕ × ℕ)) × HasNames geometry.version (S.state s.old).sectors inode.now names }
    ensures found { IfOk result (λ found. (names : List (List ℕ × ℕ)) → HasNames geometry.version (S.state s.old).sectors inode.now names
        → map name_entry found.items ≡ names) }
    ensures faults { IfErr result (λ e. (e ≡ Device) ⊎ (e ≡ OutOfMemory)) }
    ensures same { IsUnchanged (S.state s.old) (S.state s.new) }
    ensures cause { HasCauseOf DirFault.DiskFault (S.state s.old).disk (S.state s.new).disk result }
{
    let mut slots = read_slots(alloc, s, geometry.version, inode)?;
    leave_hints(s, inode, &slots);
    sort_by_name(&mut slots);
    Ok(slots)
}
