//! The entries of a directory, as READDIR and READDIRPLUS tell them.

ghost use Rattle.std.specs.Prelude.{◌≡◌, ◌<◌, ◌+◌, ◌^◌, ◌++◌, ◌≤◌, length, vec_len, vec_capacity, nat_le, [], if◌then◌else◌, IsOk, IfOk, OnOk};
ghost use Rattle.fuse_protocol.specs.Bytes.{zeros_of};
ghost use Rattle.fuse_protocol.specs.Entries.{directory_entry_bytes, entry_size, entry_kind_number, record_size, found_bytes, directory_record_bytes};

use crate::bytes::{push_u32s, push_u64s};
use crate::piece::Piece;
use crate::reply::{FoundEntry, push_absent, push_node};
use std::alloc::AllocError;

/// What is said of an entry's kind.
#[derive(Clone, Copy)]
pub enum EntryKind {
    /// Nothing: who wants to know it asks for the attributes.
    Unknown = 0,
    /// A directory.
    Directory = 4,
    /// A file.
    File = 8,
    /// A symbolic link.
    Link = 10,
}

/// An entry of a directory: its inode, the offset of the entry behind it, and its name.
#[derive(Drop)]
pub struct DirectoryEntry<'a> {
    pub ino: u64,
    pub next: u64,
    pub kind: EntryKind,
    pub name: Piece<'a>,
}

// The bytes of an entry whose name has so many; each entry begins at a multiple of 8.
fn entry_size(name: usize) -> usize
    requires { name < 2 ^ 32 }
    ensures { result ≡ entry_size name }
{
    24 + name + (8 - name % 8) % 8
}

fn push_zeros(to: &mut Vec<u8>, count: usize) -> Result<(), AllocError>
    requires { count ≤ 8 }
    ensures items { OnOk result (to.new.items ≡ to.old.items ++ zeros_of count) }
    ensures capacity { vec_capacity to.old ≤ vec_capacity to.new }
    ensures succeeds { vec_len to.old + count ≤ vec_capacity to.old → IsOk result }
{
    to.extend_from_slice(&[0; 8][..count])?;
    Ok(())
}

// Adds the entry.
#[tactic(auto, using(std::proofs::Common::append_assoc), unfolding(crate::specs::Entries::directory_entry_bytes))]
fn push_whole(to: &mut Vec<u8>, entry: &DirectoryEntry<'_>) -> Result<(), AllocError>
    requires { length entry.now.name < 2 ^ 32 }
    ensures bytes { OnOk result (to.new.items ≡ to.old.items ++ directory_entry_bytes entry.now) }
    ensures capacity { vec_capacity to.old ≤ vec_capacity to.new }
    ensures succeeds { vec_len to.old + entry_size (length entry.now.name) ≤ vec_capacity to.old → IsOk result }
{
    let name = entry.name.bytes();
    let size = entry_size(name.len());
    push_u64s(to, &[entry.ino, entry.next])?;
    push_u32s(to, &[name.len() as u32, entry.kind as u32])?;
    to.extend_from_slice(name)?;
    push_zeros(to, size - 24 - name.len())?;
    Ok(())
}

/// Adds the entry, and tells so, where all has then at most so many bytes; else nothing is added.
pub fn push_entry(
    to: &mut Vec<u8>,
    most: usize,
    entry: &DirectoryEntry<'_>,
) -> Result<bool, AllocError>
    requires { length entry.now.name < 2 ^ 32 }
    ensures fits { IfOk result (λ added. added ≡ nat_le (vec_len to.old + entry_size (length entry.now.name)) most) }
    ensures bytes { IfOk result (λ added. to.new.items ≡ to.old.items ++ (if added then directory_entry_bytes entry.now else [])) }
    ensures capacity { vec_capacity to.old ≤ vec_capacity to.new }
    ensures succeeds { vec_len to.old + entry_size (length entry.now.name) ≤ vec_capacity to.old → IsOk result }
    ensures too_long { most < vec_len to.old + entry_size (length entry.now.name) → IsOk result }
{
    let size = entry_size(entry.name.bytes().len());
    if most < size || most - size < to.len() {
        return Ok(false);
    }
    push_whole(to, entry)?;
    Ok(true)
}

/// An entry of a directory, and what a look-up of its name tells: nothing where that finds nothing, and then the kernel takes the
/// entry alone.
#[derive(Drop)]
pub struct DirectoryRecord<'a> {
    pub found: Option<FoundEntry>,
    pub entry: DirectoryEntry<'a>,
}

/// How many bytes the record of an entry has whose name has so many.
pub fn record_size(name: usize) -> usize
    requires { name < 2 ^ 32 }
    ensures { result ≡ record_size name }
{
    128 + entry_size(name)
}

// What a look-up of the name tells.
fn push_found(to: &mut Vec<u8>, found: Option<FoundEntry>) -> Result<(), AllocError>
    ensures bytes { OnOk result (to.new.items ≡ to.old.items ++ found_bytes found) }
    ensures len { OnOk result (vec_len to.new ≡ vec_len to.old + 128) }
    ensures capacity { vec_capacity to.old ≤ vec_capacity to.new }
    ensures succeeds { vec_len to.old + 128 ≤ vec_capacity to.old → IsOk result }
{
    match found {
        Some(found) => push_node(to, found),
        None => push_absent(to, 0),
    }
}

/// Adds the record of an entry.
#[tactic(auto, using(std::proofs::Common::append_assoc), unfolding(crate::specs::Entries::directory_record_bytes))]
pub fn push_record(to: &mut Vec<u8>, entry_record: &DirectoryRecord<'_>) -> Result<(), AllocError>
    requires { length entry_record.now.entry.name < 2 ^ 32 }
    ensures bytes { OnOk result (to.new.items ≡ to.old.items ++ directory_record_bytes entry_record.now) }
    ensures capacity { vec_capacity to.old ≤ vec_capacity to.new }
    ensures succeeds { vec_len to.old + record_size (length entry_record.now.entry.name) ≤ vec_capacity to.old → IsOk result }
{
    push_found(to, entry_record.found)?;
    push_whole(to, &entry_record.entry)?;
    Ok(())
}
