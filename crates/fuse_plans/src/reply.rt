//! What is replied.
ghost use Rattle.std.specs.Prelude.{◌≡◌, ◌+◌};
ghost use Rattle.fuse_plans.specs.Protocol.{type_bits, attr_of, looked_up_entry};

use crate::request_error::{RequestError, Tried};
use fs_model::{Bytes, FileType, Status};
use fuse_protocol::{Attr, FoundEntry, OpenedFlags, Terms};
use fuse_state::Times;
use posix_acl::Acl;

/// What stat(2) shows of an object, and its times; and for how many seconds the kernel may keep that.
#[derive(Clone, Copy)]
pub struct Attributes {
    pub status: Status,
    pub times: Times,
    pub valid: u64,
}

/// What a request is answered that doesn't fail.
#[derive(Drop)]
pub enum ReplyBody {
    Nothing,
    /// A name was looked up or made: its node, and for how many seconds the kernel may keep the name.
    Found {
        node: u64,
        name_valid: u64,
        shown: Attributes,
    },
    /// Nothing has the name, and the kernel may keep that for so many seconds.
    Absent(u64),
    Shown(Attributes),
    /// A handle, and what the kernel may keep of what is open.
    Opened(u64, OpenedFlags),
    /// A file was made or found, and opened: the same of its name and of its handle.
    Created {
        node: u64,
        name_valid: u64,
        shown: Attributes,
        handle: u64,
        flags: OpenedFlags,
    },
    /// What was read, the target of a link, names of attributes, or the entries of a directory.
    Bytes(Bytes),
    /// So many bytes were written.
    Wrote(usize),
    Acl(Acl),
    /// How many bytes an attribute has.
    Size(usize),
    /// Data sectors and inodes, and the most bytes of a name.
    Space {
        sectors: u32,
        free_sectors: u32,
        inodes: u32,
        free_inodes: u32,
        max_name: u32,
    },
    /// The first reply.
    Agreed(Terms),
}

/// What a request comes to: what it is answered, or why it fails.
pub type Replied = Tried<ReplyBody>;

/// The answer to a request.
#[derive(Drop)]
pub enum Response {
    /// There is no reply.
    Silence,
    Says(ReplyBody),
    Fails(RequestError),
}

fn type_bits(kind: FileType) -> u32
    ensures { result ≡ type_bits kind }
{
    match kind {
        FileType::File => 0o100000,
        FileType::Directory => 0o040000,
        FileType::Link => 0o120000,
    }
}

// The type and the mode of an object.
fn type_and_mode(kind: FileType, mode: u16) -> u32
    ensures { result ≡ type_bits kind + mode }
{
    type_bits(kind) + u32::from(mode)
}

/// The attributes as the protocol has them.
pub fn attr_of(attributes: &Attributes) -> Attr
    ensures { result ≡ attr_of attributes.now }
{
    let Attributes { status, times, .. } = *attributes;
    Attr {
        ino: u64::from(status.ino),
        size: status.size,
        blocks: status.size.div_ceil(512),
        atime: times.atime,
        mtime: times.mtime,
        ctime: times.ctime,
        mode: type_and_mode(status.kind, status.mode),
        links: status.links,
        uid: status.owner,
        gid: status.group,
        block_size: 4096,
    }
}

/// What is told of an object that has a name.
pub fn looked_up_entry(node: u64, name_valid: u64, shown: &Attributes) -> FoundEntry
    ensures { result ≡ looked_up_entry node name_valid shown.now }
{
    FoundEntry {
        node,
        name_valid,
        valid: shown.valid,
        attr: attr_of(shown),
    }
}
