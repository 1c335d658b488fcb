//! What the documents say of an image's bytes, and that each call succeeds.

ghost use Rattle.std.specs.Prelude.{◌≤◌, length};
ghost use Rattle.fs_layout.specs.declared.commit.TheConstants.{MAX_TARGETS};
ghost use Rattle.fs_layout.specs.Superblock.{FitsVersion};

use fs_layout::LayoutFault::{self, BadKind, BadMagic, BadNumber, BadVersion, NotZero};
use fs_layout::{AclSector, Commit, Inode, Kind, Slot, Super, Version, is_name};
use posix_acl::EntryNumbers;

// A structure. The tests have each at an offset of its own in a sector.
#[derive(Clone, Copy, Debug)]
enum Part {
    Super,
    // The superblock of a disk with header sectors.
    NextSuper,
    Commit,
    Inode,
    // An inode of any version; the file has times in it.
    AnyInode,
    Slot,
    // The first and the second slot of a sector in the version with the longest names.
    LongSlot,
    NextLongSlot,
    AclSector,
}

impl Part {
    // Where it begins, and how many bytes it has.
    fn window(self) -> (usize, usize) {
        match self {
            Part::Super | Part::NextSuper | Part::Commit | Part::AclSector => (0, 512),
            Part::Inode | Part::AnyInode => (128, 128),
            Part::Slot => (256, 128),
            Part::LongSlot => (0, 256),
            Part::NextLongSlot => (256, 256),
        }
    }
}

const SUPERBLOCK: Super = Super {
    version: Version::Two,
    sectors: 1024,
    inodes: 64,
    header: 0,
};

const NEXT_SUPERBLOCK: Super = Super {
    version: Version::Three,
    sectors: 2048,
    inodes: 64,
    header: 1,
};

const FILE: Inode = Inode {
    kind: Kind::File,
    mode: 0o644,
    uid: 1000,
    gid: 0x01020304,
    names: 2,
    size: 513,
    parent: 0,
    acl: 200,
    default_acl: 0,
    direct: [146, 0, 0, 0, 0, 0, 0, 0, 0, 0, 0, 147],
    indirect: [300, 301, 0],
    mtime: 0,
    ctime: 0,
    atime: 0,
};

// With a sector of pointers of the third level; modified 1,700,000,000.5 seconds after 1970 began, changed a nanosecond later, and read at
// the last time that there is.
const TIMED_FILE: Inode = Inode {
    indirect: [300, 301, 302],
    mtime: 1700000000500000000,
    ctime: 1700000000500000001,
    atime: 0xffffffffffffffff,
    ..FILE
};

const TARGETS: [u32; 2] = [128, 1000];

const OWNER: EntryNumbers = EntryNumbers {
    tag: 1,
    perms: 7,
    id: 0,
};

const USER: EntryNumbers = EntryNumbers {
    tag: 2,
    perms: 6,
    id: 1000,
};

// The bytes of these, and of others, up to the last that is not zero.
const SUPER_BYTES: &[u8] = &[0x49, 0x4e, 0x4f, 0x53, 2, 0, 0, 0, 0, 4, 0, 0, 0x40];

const NEXT_SUPER_BYTES: &[u8] = &[
    0x49, 0x4e, 0x4f, 0x53, 3, 0, 0, 0, 0, 8, 0, 0, 0x40, 0, 0, 0, 1,
];

const IDLE_BYTES: &[u8] = &[0x49, 0x4e, 0x4f, 0x4a];

const COMMIT_BYTES: &[u8] = &[0x49, 0x4e, 0x4f, 0x4a, 2, 0, 0, 0, 0x80, 0, 0, 0, 0xe8, 3];

const FILE_BYTES: &[u8] = &[
    1, 0, 0xa4, 1, 0xe8, 3, 0, 0, 4, 3, 2, 1, 2, 0, 0, 0, 1, 2, 0, 0, 0, 0, 0, 0, 0, 0, 0, 0, 0xc8,
    0, 0, 0, 0, 0, 0, 0, 0x92, 0, 0, 0, 0, 0, 0, 0, 0, 0, 0, 0, 0, 0, 0, 0, 0, 0, 0, 0, 0, 0, 0, 0,
    0, 0, 0, 0, 0, 0, 0, 0, 0, 0, 0, 0, 0, 0, 0, 0, 0, 0, 0, 0, 0x93, 0, 0, 0, 0x2c, 1, 0, 0, 0x2d,
    1,
];

const TIMED_BYTES: &[u8] = &[
    1, 0, 0xa4, 1, 0xe8, 3, 0, 0, 4, 3, 2, 1, 2, 0, 0, 0, 1, 2, 0, 0, 0, 0, 0, 0, 0, 0, 0, 0, 0xc8,
    0, 0, 0, 0, 0, 0, 0, 0x92, 0, 0, 0, 0, 0, 0, 0, 0, 0, 0, 0, 0, 0, 0, 0, 0, 0, 0, 0, 0, 0, 0, 0,
    0, 0, 0, 0, 0, 0, 0, 0, 0, 0, 0, 0, 0, 0, 0, 0, 0, 0, 0, 0, 0x93, 0, 0, 0, 0x2c, 1, 0, 0, 0x2d,
    1, 0, 0, 0x2e, 1, 0, 0, 0, 0x65, 0xf7, 0x53, 0xfe, 0x9c, 0x97, 0x17, 1, 0x65, 0xf7, 0x53, 0xfe,
    0x9c, 0x97, 0x17, 0xff, 0xff, 0xff, 0xff, 0xff, 0xff, 0xff, 0xff,
];

const LARGEST_FILE: &[u8] = &[
    1, 0, 0xff, 1, 0, 0, 0, 0, 0, 0, 0, 0, 0, 0, 0, 0, 0, 0x18, 0x81,
];

// A file of as many bytes as version 3 allows.
const LARGEST_NEXT_FILE: &[u8] = &[
    1, 0, 0xff, 1, 0, 0, 0, 0, 0, 0, 0, 0, 0, 0, 0, 0, 0, 0x18, 0x81, 0x40,
];

const DIRECTORY: &[u8] = &[2, 0, 0xff, 7, 0, 0, 0, 0, 0, 0, 0, 0, 0, 0, 0, 0, 0x80];

// Directories of as many bytes as versions 1 and 2 allow, of 300 slots of version 3, and of as many bytes as that allows.
const FULL_DIRECTORY: &[u8] = &[
    2, 0, 0xff, 7, 0, 0, 0, 0, 0, 0, 0, 0, 0, 0, 0, 0, 0, 0x18, 1,
];

const LONG_DIRECTORY: &[u8] = &[
    2, 0, 0xff, 7, 0, 0, 0, 0, 0, 0, 0, 0, 0, 0, 0, 0, 0, 0x2c, 1,
];

const LARGEST_DIRECTORY: &[u8] = &[
    2, 0, 0xff, 7, 0, 0, 0, 0, 0, 0, 0, 0, 0, 0, 0, 0, 0, 0, 0x80,
];

const LONGEST_LINK: &[u8] = &[3, 0, 0xff, 1, 0, 0, 0, 0, 0, 0, 0, 0, 0, 0, 0, 0, 0, 2];

const SLOT_BYTES: &[u8] = &[4, 3, 2, 1, 5, 0, 0, 0, b'h', b'e', b'l', b'l', b'o'];

// The bytes of a slot before a name of 248 bytes, and before one of a byte more.
const LONG_SLOT: &[u8] = &[4, 3, 2, 1, 248, 0, 0, 0];

const TOO_LONG_SLOT: &[u8] = &[4, 3, 2, 1, 249, 0, 0, 0];

const LONG_NAME: [u8; 248] = [b'n'; 248];

const ACL_BYTES: &[u8] = &[
    2, 0, 0, 0, 0, 0, 0, 0, 1, 0, 7, 0, 0, 0, 0, 0, 2, 0, 6, 0, 0xe8, 3,
];

// A sector of 0xff, but for the part's bytes.
fn sector_of(part: Part, bytes: &[u8]) -> [u8; 512] {
    let (at, length) = part.window();
    let mut sector = [0xff; 512];
    for k in 0..512 {
        if at <= k && k - at < length {
            sector[k] = bytes.get(k - at).copied().unwrap_or(0);
        }
    }
    sector
}

fn written_super(superblock: &Super) -> [u8; 512]
    requires { FitsVersion superblock.now }
{
    let mut sector = [0xff; 512];
    superblock.write_to(&mut sector, 0);
    sector
}

fn written_commit(commit: &Commit) -> [u8; 512]
    requires { length commit.now ≤ MAX_TARGETS }
{
    let mut sector = [0xff; 512];
    commit.write_to(&mut sector, 0);
    sector
}

#[tactic(auto, unfolding(fs_layout::specs::Inode::inode_fits))]
fn written_file() -> [u8; 512] {
    let mut sector = [0xff; 512];
    FILE.write_to(&mut sector, 128);
    sector
}

#[tactic(auto, unfolding(fs_layout::specs::Inode::inode_fits))]
fn written_timed_file() -> [u8; 512] {
    let mut sector = [0xff; 512];
    TIMED_FILE.write_to(&mut sector, 128);
    sector
}

fn written_slot(name: &[u8]) -> [u8; 512] {
    let mut sector = [0xff; 512];
    if is_name(name) && name.len() <= Version::Two.max_name() {
        Slot::new(0x01020304, name).write_to(&mut sector, 256);
    }
    sector
}

fn written_long_slot(name: &[u8], at: usize) -> [u8; 512] {
    let mut sector = [0xff; 512];
    if is_name(name) && at <= 256 {
        Slot::new(0x01020304, name).write_in(Version::Three, &mut sector, at);
    }
    sector
}

fn written_acl() -> [u8; 512] {
    let mut sector = [0xff; 512];
    AclSector::new([OWNER, USER].as_slice()).write_to(&mut sector, 0);
    sector
}

// The part, a slot, that is read of these bytes.
fn slot_read(part: Part, sector: &[u8; 512]) -> Result<Slot, LayoutFault> {
    match part {
        Part::LongSlot => Slot::read_in(Version::Three, sector, 0),
        Part::NextLongSlot => Slot::read_in(Version::Three, sector, 256),
        _ => Slot::read_from(sector, 256),
    }
}

fn is_slot(part: Part, sector: &[u8; 512], name: &[u8]) -> bool {
    match slot_read(part, sector) {
        Ok(read) => read.ino() == 0x01020304 && read.name() == name,
        Err(_) => false,
    }
}

fn is_commit(sector: &[u8; 512]) -> bool {
    match Commit::read_from(sector, 0) {
        Ok(read) => read.targets() == TARGETS.as_slice(),
        Err(_) => false,
    }
}

fn is_acl(sector: &[u8; 512]) -> bool {
    match AclSector::read_from(sector, 0) {
        Ok(read) => read.entries() == [OWNER, USER].as_slice(),
        Err(_) => false,
    }
}

// The part's bytes are read as what was written.
fn is_read_again(part: Part) -> bool {
    match part {
        Part::Super => Super::read_from(&sector_of(part, SUPER_BYTES), 0) == Ok(SUPERBLOCK),
        Part::NextSuper => {
            Super::read_from(&sector_of(part, NEXT_SUPER_BYTES), 0) == Ok(NEXT_SUPERBLOCK)
        }
        Part::Commit => is_commit(&sector_of(part, COMMIT_BYTES)),
        Part::Inode => Inode::read_from(&sector_of(part, FILE_BYTES), 128) == Ok(FILE),
        Part::AnyInode => Inode::read_any(&sector_of(part, TIMED_BYTES), 128) == Ok(TIMED_FILE),
        Part::Slot | Part::LongSlot | Part::NextLongSlot => {
            is_slot(part, &sector_of(part, SLOT_BYTES), b"hello".as_slice())
        }
        Part::AclSector => is_acl(&sector_of(part, ACL_BYTES)),
    }
}

// Whether a sector has these bytes of a part, and they are read as what was written.
fn is_as_said(part: Part, sector: &[u8; 512], bytes: &[u8]) -> bool {
    *sector == sector_of(part, bytes) && is_read_again(part)
}

// The first structure that isn't written so, or isn't read again; or none.
fn first_wrong_structure() -> Option<Part> {
    for (part, sector, bytes) in [
        (Part::Super, written_super(&SUPERBLOCK), SUPER_BYTES),
        (
            Part::NextSuper,
            written_super(&NEXT_SUPERBLOCK),
            NEXT_SUPER_BYTES,
        ),
        (Part::Commit, written_commit(&Commit::idle()), IDLE_BYTES),
        (
            Part::Commit,
            written_commit(&Commit::new(TARGETS.as_slice())),
            COMMIT_BYTES,
        ),
        (Part::Inode, written_file(), FILE_BYTES),
        (Part::AnyInode, written_timed_file(), TIMED_BYTES),
        (Part::Slot, written_slot(b"hello".as_slice()), SLOT_BYTES),
        (
            Part::LongSlot,
            written_long_slot(b"hello".as_slice(), 0),
            SLOT_BYTES,
        ),
        (
            Part::NextLongSlot,
            written_long_slot(b"hello".as_slice(), 256),
            SLOT_BYTES,
        ),
        (Part::AclSector, written_acl(), ACL_BYTES),
    ] {
        if !is_as_said(part, &sector, bytes) {
            return Some(part);
        }
    }
    None
}

#[test]
fn structures_are_as_the_format_says(rt: HostRuntime) {
    let wrong = first_wrong_structure();
    assert!(rt; wrong.is_none(), "{wrong:?}");
}

// What is read of a part's bytes where some of them are changed: the first that is, the one past the last, and their
// new value.
type Read = (Part, &'static [u8], usize, usize, u8, Option<LayoutFault>);

// Of superblocks.
static SUPER_READS: [Read; 20] = [
    (Part::Super, SUPER_BYTES, 0, 0, 0, None),
    (Part::Super, SUPER_BYTES, 0, 1, 0x48, Some(BadMagic)),
    (Part::Super, SUPER_BYTES, 3, 4, 0, Some(BadMagic)),
    (Part::Super, SUPER_BYTES, 4, 5, 1, None),
    (Part::Super, SUPER_BYTES, 4, 5, 0, Some(BadVersion)),
    (Part::Super, SUPER_BYTES, 4, 5, 3, None),
    (Part::Super, SUPER_BYTES, 4, 5, 4, Some(BadVersion)),
    (Part::Super, SUPER_BYTES, 7, 8, 1, Some(BadVersion)),
    (Part::Super, SUPER_BYTES, 16, 17, 1, Some(NotZero)),
    (Part::Super, SUPER_BYTES, 511, 512, 1, Some(NotZero)),
    (Part::Super, SUPER_BYTES, 0, 512, 1, Some(BadMagic)),
    (Part::NextSuper, NEXT_SUPER_BYTES, 0, 0, 0, None),
    (Part::NextSuper, NEXT_SUPER_BYTES, 4, 5, 1, Some(NotZero)),
    (Part::NextSuper, NEXT_SUPER_BYTES, 4, 5, 2, Some(NotZero)),
    (Part::NextSuper, NEXT_SUPER_BYTES, 4, 5, 4, Some(BadVersion)),
    (Part::NextSuper, NEXT_SUPER_BYTES, 8, 16, 0xff, None),
    (Part::NextSuper, NEXT_SUPER_BYTES, 16, 17, 0, None),
    (Part::NextSuper, NEXT_SUPER_BYTES, 16, 20, 0xff, None),
    (Part::NextSuper, NEXT_SUPER_BYTES, 20, 21, 1, Some(NotZero)),
    (
        Part::NextSuper,
        NEXT_SUPER_BYTES,
        511,
        512,
        1,
        Some(NotZero),
    ),
];

// Of commit sectors.
static COMMIT_READS: [Read; 9] = [
    (Part::Commit, IDLE_BYTES, 0, 0, 0, None),
    (Part::Commit, COMMIT_BYTES, 0, 0, 0, None),
    (Part::Commit, COMMIT_BYTES, 0, 1, 0x48, Some(BadMagic)),
    (Part::Commit, COMMIT_BYTES, 3, 4, 0x53, Some(BadMagic)),
    (Part::Commit, COMMIT_BYTES, 4, 5, 127, Some(BadNumber)),
    (Part::Commit, COMMIT_BYTES, 5, 6, 1, Some(BadNumber)),
    (Part::Commit, COMMIT_BYTES, 4, 5, 1, Some(NotZero)),
    (Part::Commit, COMMIT_BYTES, 16, 17, 1, Some(NotZero)),
    (Part::Commit, COMMIT_BYTES, 511, 512, 1, Some(NotZero)),
];

// Of inodes of files.
static FILE_READS: [Read; 25] = [
    (Part::Inode, FILE_BYTES, 0, 0, 0, None),
    (Part::Inode, LARGEST_FILE, 0, 0, 0, None),
    (Part::Inode, LARGEST_FILE, 0, 1, 4, Some(BadKind)),
    (Part::Inode, LARGEST_FILE, 1, 2, 1, Some(BadKind)),
    (Part::Inode, LARGEST_FILE, 3, 4, 2, Some(BadNumber)),
    (Part::Inode, LARGEST_FILE, 16, 17, 1, Some(BadNumber)),
    (Part::Inode, LARGEST_FILE, 23, 24, 1, Some(BadNumber)),
    (Part::Inode, LARGEST_FILE, 88, 89, 1, None),
    (Part::Inode, LARGEST_FILE, 91, 92, 1, None),
    (Part::Inode, LARGEST_FILE, 92, 93, 1, Some(NotZero)),
    (Part::Inode, LARGEST_FILE, 95, 96, 1, Some(NotZero)),
    (Part::Inode, LARGEST_FILE, 96, 97, 1, Some(NotZero)),
    (Part::Inode, LARGEST_FILE, 119, 120, 1, Some(NotZero)),
    (Part::Inode, LARGEST_FILE, 127, 128, 1, Some(NotZero)),
    (Part::Inode, TIMED_BYTES, 0, 0, 0, Some(NotZero)),
    (Part::AnyInode, FILE_BYTES, 0, 0, 0, None),
    (Part::AnyInode, TIMED_BYTES, 92, 96, 0xff, None),
    (Part::AnyInode, TIMED_BYTES, 96, 120, 0x80, None),
    (Part::AnyInode, TIMED_BYTES, 120, 121, 1, Some(NotZero)),
    (Part::AnyInode, TIMED_BYTES, 127, 128, 1, Some(NotZero)),
    (Part::Inode, LARGEST_FILE, 0, 128, 5, Some(BadKind)),
    (Part::Inode, LARGEST_NEXT_FILE, 0, 0, 0, Some(BadNumber)),
    (Part::AnyInode, LARGEST_FILE, 16, 17, 1, None),
    (Part::AnyInode, LARGEST_NEXT_FILE, 0, 0, 0, None),
    (
        Part::AnyInode,
        LARGEST_NEXT_FILE,
        16,
        17,
        1,
        Some(BadNumber),
    ),
];

// Of those of directories and links, and of free ones.
static INODE_READS: [Read; 25] = [
    (Part::Inode, DIRECTORY, 0, 0, 0, None),
    (Part::Inode, DIRECTORY, 3, 4, 0x0f, Some(BadNumber)),
    (Part::Inode, DIRECTORY, 16, 17, 0x81, Some(BadNumber)),
    (Part::Inode, DIRECTORY, 18, 19, 2, Some(BadNumber)),
    (Part::Inode, FULL_DIRECTORY, 0, 0, 0, None),
    (Part::Inode, FULL_DIRECTORY, 16, 17, 0x80, Some(BadNumber)),
    (Part::Inode, LARGEST_DIRECTORY, 0, 0, 0, Some(BadNumber)),
    (Part::Inode, LARGEST_DIRECTORY, 96, 97, 1, Some(BadNumber)),
    (Part::AnyInode, FULL_DIRECTORY, 16, 17, 0x80, None),
    (
        Part::AnyInode,
        FULL_DIRECTORY,
        16,
        17,
        0x40,
        Some(BadNumber),
    ),
    (Part::Inode, LONG_DIRECTORY, 0, 0, 0, Some(BadNumber)),
    (Part::AnyInode, LONG_DIRECTORY, 0, 0, 0, None),
    (Part::AnyInode, LARGEST_DIRECTORY, 0, 0, 0, None),
    (
        Part::AnyInode,
        LARGEST_DIRECTORY,
        16,
        17,
        0x80,
        Some(BadNumber),
    ),
    (Part::AnyInode, LARGEST_DIRECTORY, 0, 1, 4, Some(BadKind)),
    (Part::AnyInode, LARGEST_DIRECTORY, 92, 93, 1, None),
    (Part::Inode, LONGEST_LINK, 0, 0, 0, None),
    (Part::Inode, LONGEST_LINK, 2, 3, 0xfe, Some(BadNumber)),
    (Part::Inode, LONGEST_LINK, 16, 17, 1, Some(BadNumber)),
    (Part::Inode, LONGEST_LINK, 17, 18, 0, Some(BadNumber)),
    (Part::Inode, &[], 0, 0, 0, None),
    (Part::Inode, &[], 2, 3, 1, Some(NotZero)),
    (Part::Inode, &[], 16, 17, 1, Some(NotZero)),
    (Part::Inode, &[], 127, 128, 1, Some(NotZero)),
    (Part::AnyInode, &[], 96, 97, 1, Some(NotZero)),
];

// Of slots.
static SLOT_READS: [Read; 21] = [
    (Part::Slot, SLOT_BYTES, 0, 0, 0, None),
    (Part::Slot, SLOT_BYTES, 4, 5, 0, Some(BadNumber)),
    (Part::Slot, SLOT_BYTES, 4, 5, 121, Some(BadNumber)),
    (Part::Slot, SLOT_BYTES, 4, 5, 6, Some(BadNumber)),
    (Part::Slot, SLOT_BYTES, 8, 9, 0x2f, Some(BadNumber)),
    (Part::Slot, SLOT_BYTES, 10, 11, 0, Some(BadNumber)),
    (Part::Slot, SLOT_BYTES, 5, 6, 1, Some(NotZero)),
    (Part::Slot, SLOT_BYTES, 7, 8, 1, Some(NotZero)),
    (Part::Slot, SLOT_BYTES, 4, 5, 4, Some(NotZero)),
    (Part::Slot, SLOT_BYTES, 13, 14, 1, Some(NotZero)),
    (Part::Slot, SLOT_BYTES, 127, 128, 1, Some(NotZero)),
    (Part::Slot, SLOT_BYTES, 0, 128, 0xff, Some(BadNumber)),
    (Part::Slot, LONG_SLOT, 8, 128, 0x6e, Some(BadNumber)),
    (Part::LongSlot, LONG_SLOT, 8, 256, 0x6e, None),
    (Part::LongSlot, LONG_SLOT, 8, 255, 0x6e, Some(BadNumber)),
    (Part::LongSlot, TOO_LONG_SLOT, 8, 256, 0x6e, Some(BadNumber)),
    (Part::LongSlot, SLOT_BYTES, 255, 256, 1, Some(NotZero)),
    (Part::NextLongSlot, LONG_SLOT, 8, 256, 0x6e, None),
    (
        Part::NextLongSlot,
        TOO_LONG_SLOT,
        8,
        256,
        0x6e,
        Some(BadNumber),
    ),
    (Part::NextLongSlot, SLOT_BYTES, 5, 6, 1, Some(NotZero)),
    (Part::NextLongSlot, SLOT_BYTES, 255, 256, 1, Some(NotZero)),
];

// Of sectors of ACLs.
static ACL_READS: [Read; 9] = [
    (Part::AclSector, ACL_BYTES, 0, 0, 0, None),
    (Part::AclSector, ACL_BYTES, 0, 1, 33, Some(BadNumber)),
    (Part::AclSector, ACL_BYTES, 1, 2, 1, Some(BadNumber)),
    (Part::AclSector, ACL_BYTES, 0, 1, 1, Some(NotZero)),
    (Part::AclSector, ACL_BYTES, 2, 3, 1, Some(NotZero)),
    (Part::AclSector, ACL_BYTES, 7, 8, 1, Some(NotZero)),
    (Part::AclSector, ACL_BYTES, 24, 25, 1, Some(NotZero)),
    (Part::AclSector, ACL_BYTES, 511, 512, 1, Some(NotZero)),
    (Part::AclSector, ACL_BYTES, 0, 512, 0xff, Some(BadNumber)),
];

// The sector with this byte in some bytes of the part.
fn with_bytes(sector: &[u8; 512], part: Part, first: usize, end: usize, byte: u8) -> [u8; 512] {
    let (at, _) = part.window();
    let mut changed = *sector;
    for k in 0..512 {
        if at <= k && first <= k - at && k - at < end {
            changed[k] = byte;
        }
    }
    changed
}

// The fault of a part's bytes once these are changed.
fn fault_with(part: Part, bytes: &[u8], first: usize, end: usize, byte: u8) -> Option<LayoutFault> {
    let sector = sector_of(part, bytes);
    fault_of(part, &with_bytes(&sector, part, first, end, byte))
}

fn fault_of(part: Part, sector: &[u8; 512]) -> Option<LayoutFault> {
    match part {
        Part::Super | Part::NextSuper => Super::read_from(sector, 0).err(),
        Part::Commit => Commit::read_from(sector, 0).err(),
        Part::Inode => Inode::read_from(sector, 128).err(),
        Part::AnyInode => Inode::read_any(sector, 128).err(),
        Part::Slot | Part::LongSlot | Part::NextLongSlot => slot_read(part, sector).err(),
        Part::AclSector => AclSector::read_from(sector, 0).err(),
    }
}

// The first row that is read otherwise.
fn other_read(reads: &[Read]) -> Option<usize> {
    for i in 0..reads.len() {
        let (part, bytes, first, end, byte, fault) = reads[i];
        if fault_with(part, bytes, first, end, byte) != fault {
            return Some(i);
        }
    }
    None
}

#[test]
fn wrong_bytes_are_refused(rt: HostRuntime) {
    let wrong = [
        other_read(&SUPER_READS),
        other_read(&COMMIT_READS),
        other_read(&FILE_READS),
        other_read(&INODE_READS),
        other_read(&SLOT_READS),
        other_read(&ACL_READS),
    ];
    assert!(rt; wrong == [None; 6], "{wrong:?}");
}

// Whether a sector has a name of 248 bytes as this part, and it is read again.
fn is_long_slot(part: Part, sector: &[u8; 512]) -> bool {
    let said = with_bytes(&sector_of(part, LONG_SLOT), part, 8, 256, b'n');
    *sector == said && is_slot(part, sector, LONG_NAME.as_slice())
}

#[test]
fn long_names_are_written_and_read(rt: HostRuntime) {
    let seen = [
        is_long_slot(Part::LongSlot, &written_long_slot(LONG_NAME.as_slice(), 0)),
        is_long_slot(
            Part::NextLongSlot,
            &written_long_slot(LONG_NAME.as_slice(), 256),
        ),
    ];
    assert!(rt; seen == [true; 2], "{seen:?}");
}

// Whether a commit with these targets is valid for a disk with a header sector or without one, and of so many sectors. With one the
// log areas end at sector 512.
static COMMITS: [(bool, &[u32], u32, bool); 12] = [
    (false, &[], 1024, true),
    (false, &[128], 129, true),
    (false, &[128], 128, false),
    (false, &[127], 1024, false),
    (false, &[1023, 128], 1024, true),
    (false, &[128, 1024], 1024, false),
    (false, &[128, 200, 128], 1024, false),
    (true, &[], 1024, true),
    (true, &[512], 513, true),
    (true, &[512], 512, false),
    (true, &[511], 1024, false),
    (true, &[1023, 512], 1024, true),
];

fn is_valid(header: bool, targets: &[u32], sectors: u32) -> Option<bool> {
    if 126 < targets.len() {
        return None;
    }
    let commit = Commit::new(targets);
    Some(if header {
        commit.is_valid_with(1, sectors)
    } else {
        commit.is_valid_for(sectors)
    })
}

// The first commit of which the other is found.
fn other_commit() -> Option<usize> {
    for i in 0..COMMITS.len() {
        let row = COMMITS[i];
        if is_valid(row.0, row.1, row.2) != Some(row.3) {
            return Some(i);
        }
    }
    None
}

#[test]
fn commits_are_valid_for_a_disk(rt: HostRuntime) {
    let wrong = other_commit();
    assert!(rt; wrong == None, "{wrong:?}");
}

static NAMES: [(&[u8], bool); 10] = [
    (b"a", true),
    (b".a", true),
    (b"...", true),
    (&[0xff; 248], true),
    (b"", false),
    (b".", false),
    (b"..", false),
    (b"a/b", false),
    (b"a\0", false),
    (&[b'a'; 249], false),
];

// The first bytes that are a name and aren't to be, or the other way round.
fn other_name() -> Option<usize> {
    for i in 0..NAMES.len() {
        let row = NAMES[i];
        if is_name(row.0) != row.1 {
            return Some(i);
        }
    }
    None
}

#[test]
fn names_are_as_the_format_says(rt: HostRuntime) {
    let wrong = other_name();
    assert!(rt; wrong == None, "{wrong:?}");
}
