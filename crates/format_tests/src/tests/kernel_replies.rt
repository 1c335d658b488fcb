//! Replies that a kernel took, entries of directories and values of ACLs.

ghost use Rattle.std.specs.Prelude.{◌<◌, length};
ghost use Rattle.fuse_protocol.specs.Replies.{IsReply};

use crate::tests::hex::{Bytes, bytes_of};
use bitflags::Flags;
use fuse_protocol::{
    AclValueFault, Attr, DirectoryEntry, DirectoryRecord, EntryKind, FoundEntry, InitFlags,
    OpenedFlags, Piece, Reply, Room, Terms, Time, push_entry, push_record, read_acl_value,
    write_acl_value, write_reply,
};
use posix_acl::{Acl, Entry};
use std::alloc::{AllocError, Global};
use std::test::Fail;

fn bytes_from(from: &[u8]) -> Bytes {
    let count = from.len().min(160);
    let mut bytes = [0; 160];
    (&mut bytes[..count]).copy_from_slice(&from[..count]);
    (bytes, from.len())
}

fn at(seconds: u64) -> Time {
    Time {
        seconds,
        nanoseconds: 0,
    }
}

fn file(ino: u64, size: u64, mode: u32, links: u32, times: [u64; 3]) -> Attr {
    let [atime, mtime, ctime] = times;
    Attr {
        ino,
        size,
        blocks: size.div_ceil(512),
        atime: at(atime),
        mtime: at(mtime),
        ctime: at(ctime),
        mode,
        links,
        uid: 0,
        gid: 0,
        block_size: 4096,
    }
}

// When the file system was made whose replies these are.
const START: u64 = 1_000_000_000;

const NODE: u64 = 1 << 32 | 2;

const ROOM: Room = Room {
    blocks: 878,
    free_blocks: 854,
    inodes: 63,
    free_inodes: 60,
    block_size: 512,
    max_name: 120,
};

fn terms() -> Terms {
    Terms {
        max_readahead: 0x20000,
        flags: InitFlags::from_bits_retain(0x480068),
        max_background: 16,
        congestion_threshold: 12,
        max_write: 0x20000,
        max_pages: 32,
    }
}

// What is told to the request of this number.
fn reply_to(unique: u64) -> Reply<'static>
    ensures { IsReply result }
{
    match unique {
        2 => Reply::Init(terms()),
        4 => Reply::Attr {
            valid: 0,
            attr: file(1, 0, 0o40755, 1, [START + 1; 3]),
        },
        26 => Reply::Created {
            found: FoundEntry {
                node: NODE,
                name_valid: 0,
                valid: 0,
                attr: file(2, 0, 0o100755, 1, [START + 14; 3]),
            },
            handle: 64,
            flags: OpenedFlags::empty(),
        },
        30 => Reply::Count(100000),
        66 => Reply::Bytes(Piece::new(b"l")),
        116 => Reply::Open {
            handle: 65,
            flags: OpenedFlags::empty(),
        },
        126 => Reply::StatFs(ROOM),
        130 => Reply::Entry(FoundEntry {
            node: NODE,
            name_valid: 0,
            valid: 0,
            attr: file(2, 1, 0o100644, 2, [START + 14, START + 18, START + 66]),
        }),
        _ => error_to(unique),
    }
}

// EPERM, ENOENT, EACCES, ENOSPC, ENAMETOOLONG, ENOSYS, EOPNOTSUPP or ESTALE, or that it is done.
fn error_to(unique: u64) -> Reply<'static>
    ensures { IsReply result }
{
    match unique {
        56 => Reply::Error(1),
        24 => Reply::Error(2),
        100 => Reply::Error(13),
        72 => Reply::Error(28),
        412 => Reply::Error(36),
        32 => Reply::Error(38),
        28 => Reply::Error(95),
        70 => Reply::Error(116),
        _ => Reply::Done,
    }
}

static REPLIES: [(u64, &str); 17] = [
    (
        2,
        "50000000000000000200000000000000070000001f000000000002006800480010000c000000020001000000200000000000000000000000000000000000000000000000000000000000000000000000",
    ),
    (
        4,
        "780000000000000004000000000000000000000000000000000000000000000001000000000000000000000000000000000000000000000001ca9a3b0000000001ca9a3b0000000001ca9a3b00000000000000000000000000000000ed410000010000000000000000000000000000000010000000000000",
    ),
    (6, "10000000000000000600000000000000"),
    (
        26,
        "a0000000000000001a00000000000000020000000100000000000000000000000000000000000000000000000000000000000000000000000200000000000000000000000000000000000000000000000eca9a3b000000000eca9a3b000000000eca9a3b00000000000000000000000000000000ed81000001000000000000000000000000000000001000000000000040000000000000000000000000000000",
    ),
    (30, "18000000000000001e00000000000000a086010000000000"),
    (66, "110000000000000042000000000000006c"),
    (
        116,
        "2000000000000000740000000000000041000000000000000000000000000000",
    ),
    (
        126,
        "60000000000000007e000000000000006e03000000000000560300000000000056030000000000003f000000000000003c0000000000000000020000780000000002000000000000000000000000000000000000000000000000000000000000",
    ),
    (
        130,
        "90000000000000008200000000000000020000000100000000000000000000000000000000000000000000000000000000000000000000000200000000000000010000000000000001000000000000000eca9a3b0000000012ca9a3b0000000042ca9a3b00000000000000000000000000000000a4810000020000000000000000000000000000000010000000000000",
    ),
    (56, "10000000ffffffff3800000000000000"),
    (24, "10000000feffffff1800000000000000"),
    (100, "10000000f3ffffff6400000000000000"),
    (72, "10000000e4ffffff4800000000000000"),
    (412, "10000000dcffffff9c01000000000000"),
    (32, "10000000daffffff2000000000000000"),
    (28, "10000000a1ffffff1c00000000000000"),
    (70, "100000008cffffff4600000000000000"),
];

fn is_written(alloc: Global, unique: u64, text: &str) -> Result<bool, AllocError> {
    let bytes = write_reply(alloc, unique, &reply_to(unique))?;
    Ok(bytes_from(&bytes) == bytes_of(text))
}

// The first reply that is written otherwise.
fn other_reply(alloc: Global) -> Option<usize> {
    for i in 0..REPLIES.len() {
        if is_written(alloc, REPLIES[i].0, REPLIES[i].1) != Ok(true) {
            return Some(i);
        }
    }
    None
}

#[test]
fn replies_to_a_kernel(rt: HostRuntime) {
    let wrong = other_reply(rt.alloc());
    assert!(rt; wrong == None, "{wrong:?}");
}

// `.` and `..` of the root.
const DOTS: &str =
    "0100000000000000010000000000000001000000040000002e000000000000000100000000000000020000000000000002000000040000002e2e000000000000";

// Whether the entry has room in a list of 64 bytes.
fn add(
    to: &mut Vec<u8>,
    ino: u64,
    next: u64,
    kind: EntryKind,
    name: &[u8],
) -> Result<bool, AllocError>
    requires { length name.now < 256 }
{
    let entry = DirectoryEntry {
        ino,
        next,
        kind,
        name: Piece::new(name),
    };
    push_entry(to, 64, &entry)
}

// Which of three entries have room, and the list of them.
fn listed(alloc: Global) -> Result<([bool; 3], Bytes), AllocError> {
    let mut bytes = Vec::new(alloc);
    let added = [
        add(&mut bytes, 1, 1, EntryKind::Directory, b".")?,
        add(&mut bytes, 1, 2, EntryKind::Directory, b"..")?,
        add(&mut bytes, 2, 3, EntryKind::Unknown, b"f")?,
    ];
    Ok((added, bytes_from(&bytes)))
}

// What a look-up tells of a file.
const FOUND: FoundEntry = FoundEntry {
    node: NODE,
    name_valid: 1,
    valid: 2,
    attr: Attr {
        ino: 2,
        size: 513,
        blocks: 2,
        atime: Time {
            seconds: START + 14,
            nanoseconds: 3,
        },
        mtime: Time {
            seconds: START + 18,
            nanoseconds: 4,
        },
        ctime: Time {
            seconds: START + 66,
            nanoseconds: 5,
        },
        mode: 0o100644,
        links: 6,
        uid: 1000,
        gid: 100,
        block_size: 4096,
    },
};

// What a look-up tells of a name, if anything; its inode and its kind; the name, and the bytes of its record.
type RecordRow = (
    Option<FoundEntry>,
    u64,
    EntryKind,
    &'static str,
    &'static str,
);

// No kernel's: put together by the layout of `fuse_direntplus`.
static RECORDS: [RecordRow; 3] = [
    (
        Some(FOUND),
        2,
        EntryKind::File,
        "f",
        "020000000100000000000000000000000100000000000000020000000000000000000000000000000200000000000000010200000000000002000000000000000eca9a3b0000000012ca9a3b0000000042ca9a3b00000000030000000400000005000000a481000006000000e8030000640000000000000000100000000000000200000000000000090000000000000001000000080000006600000000000000",
    ),
    // A name that is as long as a multiple of 8.
    (
        Some(FOUND),
        2,
        EntryKind::Link,
        "elsewher",
        "020000000100000000000000000000000100000000000000020000000000000000000000000000000200000000000000010200000000000002000000000000000eca9a3b0000000012ca9a3b0000000042ca9a3b00000000030000000400000005000000a481000006000000e80300006400000000000000001000000000000002000000000000000900000000000000080000000a000000656c736577686572",
    ),
    // Nothing is told of it.
    (
        None,
        1,
        EntryKind::Directory,
        "..",
        "00000000000000000000000000000000000000000000000000000000000000000000000000000000000000000000000000000000000000000000000000000000000000000000000000000000000000000000000000000000000000000000000000000000000000000000000000000000000000000000000000000000000000000100000000000000090000000000000002000000040000002e2e000000000000",
    ),
];

// The bytes of a record, behind which stands the offset 9.
fn recorded(alloc: Global, row: &RecordRow) -> Result<Bytes, AllocError> {
    let (found, ino, kind, name, _) = *row;
    let bytes = name.as_bytes();
    let name = &bytes[..bytes.len().min(8)];
    let record = DirectoryRecord {
        found,
        entry: DirectoryEntry {
            ino,
            next: 9,
            kind,
            name: Piece::new(name),
        },
    };
    let mut bytes = Vec::new(alloc);
    push_record(&mut bytes, &record)?;
    Ok(bytes_from(&bytes))
}

// The first record that is written otherwise.
fn other_record(alloc: Global) -> Option<usize> {
    for i in 0..RECORDS.len() {
        if recorded(alloc, &RECORDS[i]) != Ok(bytes_of(RECORDS[i].4)) {
            return Some(i);
        }
    }
    None
}

#[test]
fn records_of_names(rt: HostRuntime) {
    let wrong = other_record(rt.alloc());
    assert!(rt; wrong == None, "{wrong:?}");
}

// user::rwx,user:1001:rwx,group::r-x,mask::rwx,other::---
const ACL: &str =
    "0200000001000700ffffffff02000700e903000004000500ffffffff10000700ffffffff20000000ffffffff";

// The permission bits of the list, and its value.
fn rewritten(alloc: Global, entries: &[Entry]) -> Result<(u16, Bytes), Fail> {
    let acl = Acl::from_entries(alloc, entries)?;
    let value = write_acl_value(alloc, &acl)?;
    Ok((acl.mode_bits(), bytes_from(&value)))
}

// The permission bits and the value of the list that a value says, and the id and the permissions of its second entry.
fn reread(alloc: Global, value: &[u8]) -> Result<(u16, Bytes, Option<(u32, u16)>), Fail> {
    let entries = read_acl_value(alloc, value)?;
    let second = entries.get(1).map(|entry| (entry.id, entry.perms.digit()));
    let (mode, bytes) = rewritten(alloc, &entries)?;
    Ok((mode, bytes, second))
}

// Whether the list has the first two of these, and no room for the third.
fn is_listed(alloc: Global) -> Result<bool, AllocError> {
    Ok(listed(alloc)? == ([true, true, false], bytes_of(DOTS)))
}

// Whether the value is written again as it was, and what it says is what it is to say.
fn is_reread(alloc: Global) -> Result<bool, Fail> {
    let (value, count) = bytes_of(ACL);
    let seen = reread(alloc, &value[..count])?;
    Ok(seen == (0o770, (value, count), Some((1001, 7))))
}

#[test]
fn entries_and_acls(rt: HostRuntime) -> Result<(), Fail> {
    let seen = (is_listed(rt.alloc())?, is_reread(rt.alloc())?);
    assert!(rt; seen == (true, true), "{seen:?}");
    Ok(())
}

// How many entries the value of a text has, if it is one.
fn count_of(alloc: Global, text: &str) -> Result<Option<usize>, AllocError> {
    let (value, count) = bytes_of(text);
    match read_acl_value(alloc, &value[..count]) {
        Ok(entries) => Ok(Some(entries.len())),
        Err(AclValueFault::Malformed) => Ok(None),
        Err(AclValueFault::OutOfMemory) => Err(AllocError),
    }
}

static VALUES: [(&str, Option<usize>); 7] = [
    (ACL, Some(5)),
    ("02000000", Some(0)),
    // A part of an entry, another version, a tag and permissions that there aren't, and no whole version.
    ("0200000001000700ffffff", None),
    ("0100000001000700ffffffff", None),
    ("0200000003000700ffffffff", None),
    ("0200000001000800ffffffff", None),
    ("020000", None),
];

// The first value of which other entries are read.
fn other_value(alloc: Global) -> Option<usize> {
    for i in 0..VALUES.len() {
        if count_of(alloc, VALUES[i].0) != Ok(VALUES[i].1) {
            return Some(i);
        }
    }
    None
}

#[test]
fn values_of_acls(rt: HostRuntime) {
    let wrong = other_value(rt.alloc());
    assert!(rt; wrong == None, "{wrong:?}");
}
