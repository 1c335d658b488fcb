//! The entries of a directory, as far as they fit into a reply: alone, or each with what a look-up of its name tells.
ghost use Rattle.std.specs.Prelude.{◌≡◌, ◌+◌, ◌≤◌, ◌<◌, ◌^◌, ◌++◌, [], nat_le, vec_len, vec_capacity, length, if◌then◌else◌};
ghost use Rattle.fuse_protocol.specs.Entries.{directory_entry_bytes, entry_size, record_size, directory_record_bytes};
ghost use Rattle.fuse_plans.specs.DirectoryPlans.{entry_kind, listed_entry, listing_bytes};
ghost use Rattle.fuse_plans.specs.ListingOrder.{behind};
ghost use Rattle.fuse_plans.specs.ListingPlans.{entry_kind_of_type, told_found, record_entry, told_record};

use crate::cursor::Cursor;
use fs_model::{Bytes, FileType, Listing, Named};
use fuse_plans::{Replied, ReplyBody, looked_up_entry};
use fuse_protocol::{
    DirectoryEntry, DirectoryRecord, EntryKind, Extent, FoundEntry, Piece, push_entry, push_record,
    record_size,
};

// The kind of an entry, as far as it is told.
fn entry_kind(name: &[u8]) -> EntryKind
    ensures { result ≡ entry_kind name.now }
{
    if name == b".".as_slice() || name == b"..".as_slice() {
        EntryKind::Directory
    } else {
        EntryKind::Unknown
    }
}

// The entry of a name with this offset behind it, as READDIR tells it.
fn listed_entry(offset: u64, named: &Named) -> DirectoryEntry<'_>
    ensures { let n = named.now in result ≡ listed_entry (offset, (n.name, n.ino)) }
{
    let name = named.name.bytes();
    DirectoryEntry {
        ino: u64::from(named.ino),
        next: offset,
        kind: entry_kind(name),
        name: Piece::new(name),
    }
}

// Adds an entry, and tells so, where all has then at most so many bytes; else nothing is added.
fn push_named(to: &mut Vec<u8>, most: usize, offset: u64, named: &Named) -> bool
    requires capacity { most ≤ vec_capacity to.old }
    requires small { most < 2 ^ 32 }
    ensures fits { result ≡ nat_le (vec_len to.old + entry_size (length named.entry.now.name)) most }
    ensures bytes { let n = named.entry.now in
        to.new.items ≡ to.old.items ++ (if result then directory_entry_bytes (listed_entry (offset, (n.name, n.ino))) else []) }
    ensures capacity { most ≤ vec_capacity to.new }
{
    let name = named.name.bytes();
    if name.len() > most {
        return false;
    }
    push_entry(to, most, &listed_entry(offset, named)).unwrap_or(false)
}

/// As many entries as fit, of the names behind an offset, with room for them.
pub fn listing_bytes(extent: Extent, listing: &Listing, room: Vec<u8>) -> Bytes
    requires empty { room.items ≡ [] }
    requires capacity { extent.size ≤ vec_capacity room }
    ensures { result ≡ listing_bytes extent.size (behind extent.offset listing.now) }
{
    let names = listing.names();
    let mut cursor = Cursor::behind(listing, extent.offset);
    let mut bytes = room;
    for at in cursor.at..names.len() {
        let named = &names[at];
        let next = cursor.after(named.name.bytes());
        if !push_named(&mut bytes, extent.size as usize, next.before, named) {
            return Bytes::new(bytes);
        }
        cursor = next;
    }
    Bytes::new(bytes)
}

/// Whether the record of a name fits behind so many bytes, where all may have this many.
pub fn record_fits(held: usize, most: usize, name: &[u8]) -> bool
    requires { most < 2 ^ 32 }
    ensures { result ≡ nat_le (held + record_size (length name.now)) most }
{
    if name.len() > most {
        return false;
    }
    let size = record_size(name.len());
    size <= most && held <= most - size
}

// The kind of what was found.
fn entry_kind_of_type(kind: FileType) -> EntryKind
    ensures { result ≡ entry_kind_of_type kind }
{
    match kind {
        FileType::File => EntryKind::File,
        FileType::Directory => EntryKind::Directory,
        FileType::Link => EntryKind::Link,
    }
}

// What a look-up tells of a name.
fn told_found(looked_up: &Replied) -> Option<FoundEntry>
    ensures { result ≡ told_found looked_up.now }
{
    match looked_up {
        Ok(
            ReplyBody::Found {
                node,
                name_valid,
                shown,
            },
        ) => Some(looked_up_entry(*node, *name_valid, shown)),
        _ => None,
    }
}

// The entry of a name that was looked up: with the inode and the kind of what was found.
fn record_entry<'a>(offset: u64, named: &'a Named, looked_up: &Replied) -> DirectoryEntry<'a>
    ensures { let n = named.now in result ≡ record_entry (offset, (n.name, n.ino)) looked_up.now }
{
    match looked_up {
        Ok(ReplyBody::Found { shown, .. }) => DirectoryEntry {
            ino: u64::from(shown.status.ino),
            next: offset,
            kind: entry_kind_of_type(shown.status.kind),
            name: Piece::new(named.name.bytes()),
        },
        _ => listed_entry(offset, named),
    }
}

/// Adds the record of a name that was looked up, for which there is room.
pub fn push_looked_up(to: &mut Vec<u8>, offset: u64, named: &Named, looked_up: &Replied)
    requires name { length named.now.name < 2 ^ 32 }
    requires room { vec_len to.old + record_size (length named.now.name) ≤ vec_capacity to.old }
    ensures bytes { let n = named.now in
        to.new.items ≡ to.old.items ++ directory_record_bytes (told_record ((offset, (n.name, n.ino)), looked_up.now)) }
    ensures capacity { vec_capacity to.old ≤ vec_capacity to.new }
{
    let record = DirectoryRecord {
        found: told_found(looked_up),
        entry: record_entry(offset, named, looked_up),
    };
    let Ok(()) = push_record(to, &record) else {
        unreachable!()
    };
}
