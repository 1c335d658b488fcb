//! What a request asks for: its opcode, and the body behind its header.

ghost use Rattle.std.specs.Prelude.{◌≡◌, ◌≤◌, ◌+◌, length};
ghost use Rattle.fuse_protocol.specs.Forgets.{forget_count};
ghost use Rattle.fuse_protocol.specs.Operations.{where_long, where_set, new_time, attr_changes, operation_of, object_operation, handle_operation, other_operation, symlink_of, make_node_of, make_directory_of, rename_of, rename_with_flags_of, link_of, create_of, set_xattr_of, get_xattr_of, set_attr_of, init_of, write_of, extent_of, first_number, first_handle};

use crate::batch::{Batch, parse_batch};
use crate::bytes::{u32_at, u64_at};
use crate::flags::{InitFlags, OpenFlags};
use crate::opcode;
use crate::piece::{Name, Piece, name_at, piece_at};

/// What is asked for. The node that it is asked of stands in the [`Request`](crate::Request): the directory of a name, or the
/// object itself.
#[derive(Drop)]
pub enum Operation<'a> {
    /// What has the name.
    Lookup(Name<'a>),
    /// The kernel forgets the node so often. There is no reply.
    Forget(u64),
    /// The attributes.
    GetAttr,
    /// To change attributes.
    SetAttr(AttrChanges),
    /// The target of a link.
    ReadLink,
    /// To make a link.
    SymLink {
        name: Name<'a>,
        target: Piece<'a>,
    },
    /// To make a file; the mode has its type too.
    MkNod {
        name: Name<'a>,
        mode: u32,
        umask: u32,
    },
    /// To make a directory.
    MkDir {
        name: Name<'a>,
        mode: u32,
        umask: u32,
    },
    /// To remove a name of what is no directory.
    Unlink(Name<'a>),
    /// To remove a directory.
    RmDir(Name<'a>),
    /// What has the name gets the new one, in the new directory, which is a node. The flags are those of renameat2(2).
    Rename {
        name: Name<'a>,
        new_directory: u64,
        new_name: Name<'a>,
        flags: u32,
    },
    /// The node gets a further name.
    Link {
        node: u64,
        new_name: Name<'a>,
    },
    /// To open a file.
    Open(OpenFlags),
    /// To read an open file.
    Read(Extent),
    /// To write bytes into an open file.
    Write {
        handle: u64,
        offset: u64,
        bytes: Piece<'a>,
    },
    /// How much room there is.
    StatFs,
    /// An open file is closed.
    Release(u64),
    /// What was written into an open file is to last.
    FSync(u64),
    /// To set an attribute.
    SetXAttr {
        name: Piece<'a>,
        value: Piece<'a>,
    },
    /// An attribute of at most so many bytes, or of how many it has where that is 0.
    GetXAttr {
        name: Piece<'a>,
        size: u32,
    },
    /// The names of the attributes, in as many bytes.
    ListXAttr(u32),
    /// To remove an attribute.
    RemoveXAttr(Piece<'a>),
    /// The first request.
    Init(Offer),
    /// To open a directory.
    OpenDir,
    /// The entries of an open directory.
    ReadDir(Extent),
    /// The entries of an open directory, each with what a look-up of its name tells.
    ReadDirPlus(Extent),
    /// An open directory is closed.
    ReleaseDir(u64),
    /// What was done in a directory is to last.
    FSyncDir,
    /// Whether the permissions are granted, a digit of a mode.
    Access(u32),
    /// To make a file, and to open it.
    Create {
        name: Name<'a>,
        flags: OpenFlags,
        mode: u32,
        umask: u32,
    },
    /// A request is no longer waited for. There is no reply.
    Interrupt,
    /// The last request.
    Destroy,
    /// As [`Operation::Forget`], of several nodes. There is no reply.
    BatchForget(Batch<'a>),
    /// All is to last.
    SyncFs,
    /// An operation that isn't spoken.
    Unknown,
}

/// At most so many bytes of what is open, from an offset on.
#[derive(Clone, Copy)]
pub struct Extent {
    pub handle: u64,
    pub offset: u64,
    pub size: u32,
}

/// What becomes of a time.
#[derive(Clone, Copy)]
pub enum NewTime {
    /// The time becomes the present one.
    Now,
    /// So long after 1970 began.
    At { seconds: u64, nanoseconds: u32 },
}

/// The attributes that change, and the handle by which the size does.
#[derive(Clone, Copy)]
pub struct AttrChanges {
    pub mode: Option<u32>,
    pub uid: Option<u32>,
    pub gid: Option<u32>,
    pub size: Option<u64>,
    pub atime: Option<NewTime>,
    pub mtime: Option<NewTime>,
    pub handle: Option<u64>,
}

/// The version that the kernel speaks, and what it offers.
#[derive(Clone, Copy)]
pub struct Offer {
    pub major: u32,
    pub minor: u32,
    pub max_readahead: u32,
    pub flags: InitFlags,
}

// The bits that say which fields of SETATTR count.
const FATTR_MODE: u32 = 1;

const FATTR_UID: u32 = 2;

const FATTR_GID: u32 = 4;

const FATTR_SIZE: u32 = 8;

const FATTR_ATIME: u32 = 0x10;

const FATTR_MTIME: u32 = 0x20;

const FATTR_FH: u32 = 0x40;

const FATTR_ATIME_NOW: u32 = 0x80;

const FATTR_MTIME_NOW: u32 = 0x100;

/// What the body asks for, by the opcode; nothing where it isn't of the opcode's form.
#[tactic(auto, unfolding(crate::specs::Operations::operation_of))]
pub(crate) fn parse_operation(code: u32, body: &[u8]) -> Option<Operation<'_>>
    ensures { result ≡ operation_of code body.now }
{
    match code {
        opcode::LOOKUP => Some(Operation::Lookup(name_at(body, 0)?)),
        opcode::SYMLINK => parse_symlink(body),
        opcode::MKNOD => parse_make_node(body),
        opcode::MKDIR => parse_make_directory(body),
        opcode::UNLINK => Some(Operation::Unlink(name_at(body, 0)?)),
        opcode::RMDIR => Some(Operation::RmDir(name_at(body, 0)?)),
        opcode::RENAME => parse_rename(body),
        opcode::RENAME2 => parse_rename2(body),
        opcode::LINK => parse_link(body),
        opcode::CREATE => parse_create(body),
        _ => parse_object_operation(code, body),
    }
}

// The operations on the node itself, and those below.
#[tactic(auto, unfolding(crate::specs::Operations::object_operation))]
fn parse_object_operation(code: u32, body: &[u8]) -> Option<Operation<'_>>
    ensures { result ≡ object_operation code body.now }
{
    match code {
        opcode::GETATTR => where_long(body, 16, Operation::GetAttr),
        opcode::SETATTR => parse_set_attr(body),
        opcode::READLINK => Some(Operation::ReadLink),
        opcode::OPEN => Some(Operation::Open(OpenFlags(first_number(body, 8)?))),
        opcode::SETXATTR => parse_set_xattr(body),
        opcode::GETXATTR => parse_get_xattr(body),
        opcode::LISTXATTR => Some(Operation::ListXAttr(first_number(body, 8)?)),
        opcode::REMOVEXATTR => Some(Operation::RemoveXAttr(piece_at(body, 0)?)),
        opcode::OPENDIR => where_long(body, 8, Operation::OpenDir),
        opcode::ACCESS => Some(Operation::Access(first_number(body, 8)?)),
        _ => parse_handle_operation(code, body),
    }
}

// The operations on what is open, and those below.
#[tactic(auto, unfolding(crate::specs::Operations::handle_operation))]
fn parse_handle_operation(code: u32, body: &[u8]) -> Option<Operation<'_>>
    ensures { result ≡ handle_operation code body.now }
{
    match code {
        opcode::READ => Some(Operation::Read(parse_extent(body)?)),
        opcode::WRITE => parse_write(body),
        opcode::RELEASE => Some(Operation::Release(first_handle(body, 24)?)),
        opcode::FSYNC => Some(Operation::FSync(first_handle(body, 16)?)),
        opcode::READDIR => Some(Operation::ReadDir(parse_extent(body)?)),
        opcode::READDIRPLUS => Some(Operation::ReadDirPlus(parse_extent(body)?)),
        opcode::RELEASEDIR => Some(Operation::ReleaseDir(first_handle(body, 24)?)),
        opcode::FSYNCDIR => where_long(body, 16, Operation::FSyncDir),
        _ => parse_other_operation(code, body),
    }
}

// The rest.
#[tactic(auto, unfolding(crate::specs::Operations::other_operation))]
fn parse_other_operation(code: u32, body: &[u8]) -> Option<Operation<'_>>
    ensures { result ≡ other_operation code body.now }
{
    match code {
        opcode::FORGET => Some(Operation::Forget(forget_count(body))),
        opcode::STATFS => Some(Operation::StatFs),
        opcode::INIT => parse_init(body),
        opcode::INTERRUPT => Some(Operation::Interrupt),
        opcode::DESTROY => Some(Operation::Destroy),
        opcode::BATCH_FORGET => Some(Operation::BatchForget(parse_batch(body))),
        opcode::SYNCFS => where_long(body, 8, Operation::SyncFs),
        _ => Some(Operation::Unknown),
    }
}

// The operation, where the body has at least so many bytes.
fn where_long<'a>(body: &[u8], size: usize, operation: Operation<'a>) -> Option<Operation<'a>>
    ensures { result ≡ where_long body.now size operation.entry }
{
    if body.len() < size {
        return None;
    }
    Some(operation)
}

// The number that a body of at least so many bytes begins with.
fn first_number(body: &[u8], size: usize) -> Option<u32>
    requires { 4 ≤ size }
    ensures { result ≡ first_number body.now size }
{
    if body.len() < size {
        return None;
    }
    Some(u32_at(body, 0))
}

// The handle that a body of at least so many bytes begins with.
fn first_handle(body: &[u8], size: usize) -> Option<u64>
    requires { 8 ≤ size }
    ensures { result ≡ first_handle body.now size }
{
    if body.len() < size {
        return None;
    }
    Some(u64_at(body, 0))
}

// How often a node is forgotten. A body that is too short forgets nothing.
fn forget_count(body: &[u8]) -> u64
    ensures { result ≡ forget_count body.now }
{
    if body.len() < 8 {
        return 0;
    }
    u64_at(body, 0)
}

fn parse_symlink(body: &[u8]) -> Option<Operation<'_>>
    ensures { result ≡ symlink_of body.now }
{
    let name = name_at(body, 0)?;
    let target = piece_at(body, name.bytes().len() + 1)?;
    Some(Operation::SymLink { name, target })
}

fn parse_make_node(body: &[u8]) -> Option<Operation<'_>>
    ensures { result ≡ make_node_of body.now }
{
    let name = name_at(body, 16)?;
    Some(Operation::MkNod {
        name,
        mode: u32_at(body, 0),
        umask: u32_at(body, 8),
    })
}

fn parse_make_directory(body: &[u8]) -> Option<Operation<'_>>
    ensures { result ≡ make_directory_of body.now }
{
    let name = name_at(body, 8)?;
    Some(Operation::MkDir {
        name,
        mode: u32_at(body, 0),
        umask: u32_at(body, 4),
    })
}

fn parse_rename(body: &[u8]) -> Option<Operation<'_>>
    ensures { result ≡ rename_of body.now }
{
    let name = name_at(body, 8)?;
    let new_name = name_at(body, 8 + name.bytes().len() + 1)?;
    Some(Operation::Rename {
        name,
        new_directory: u64_at(body, 0),
        new_name,
        flags: 0,
    })
}

fn parse_rename2(body: &[u8]) -> Option<Operation<'_>>
    ensures { result ≡ rename_with_flags_of body.now }
{
    let name = name_at(body, 16)?;
    let new_name = name_at(body, 16 + name.bytes().len() + 1)?;
    Some(Operation::Rename {
        name,
        new_directory: u64_at(body, 0),
        new_name,
        flags: u32_at(body, 8),
    })
}

fn parse_link(body: &[u8]) -> Option<Operation<'_>>
    ensures { result ≡ link_of body.now }
{
    let new_name = name_at(body, 8)?;
    Some(Operation::Link {
        node: u64_at(body, 0),
        new_name,
    })
}

fn parse_create(body: &[u8]) -> Option<Operation<'_>>
    ensures { result ≡ create_of body.now }
{
    let name = name_at(body, 16)?;
    Some(Operation::Create {
        name,
        flags: OpenFlags(u32_at(body, 0)),
        mode: u32_at(body, 4),
        umask: u32_at(body, 8),
    })
}

fn parse_set_attr(body: &[u8]) -> Option<Operation<'_>>
    ensures { result ≡ set_attr_of body.now }
{
    if body.len() < 88 {
        return None;
    }
    Some(Operation::SetAttr(attr_changes(body)))
}

fn attr_changes(body: &[u8]) -> AttrChanges
    requires { 88 ≤ length body.now }
    ensures { result ≡ attr_changes body.now }
{
    let valid = u32_at(body, 0);
    AttrChanges {
        mode: where_set(valid, FATTR_MODE, u32_at(body, 68)),
        uid: where_set(valid, FATTR_UID, u32_at(body, 76)),
        gid: where_set(valid, FATTR_GID, u32_at(body, 80)),
        size: where_set(valid, FATTR_SIZE, u64_at(body, 16)),
        atime: where_set(valid, FATTR_ATIME, new_time(body, FATTR_ATIME_NOW, 32, 56)),
        mtime: where_set(valid, FATTR_MTIME, new_time(body, FATTR_MTIME_NOW, 40, 60)),
        handle: where_set(valid, FATTR_FH, u64_at(body, 8)),
    }
}

// The value where the flag is set.
fn where_set<T: Drop>(valid: u32, flag: u32, value: T) -> Option<T>
    ensures { result ≡ where_set valid flag value }
{
    if valid & flag == 0 {
        return None;
    }
    Some(value)
}

// The present time where the flag says so, or the one whose parts stand at these offsets.
fn new_time(body: &[u8], now: u32, seconds: usize, nanoseconds: usize) -> NewTime
    requires length { 4 ≤ length body.now }
    requires seconds { seconds + 8 ≤ length body.now }
    requires nanoseconds { nanoseconds + 4 ≤ length body.now }
    ensures { result ≡ new_time body.now now seconds nanoseconds }
{
    if u32_at(body, 0) & now != 0 {
        return NewTime::Now;
    }
    NewTime::At {
        seconds: u64_at(body, seconds),
        nanoseconds: u32_at(body, nanoseconds),
    }
}

fn parse_set_xattr(body: &[u8]) -> Option<Operation<'_>>
    ensures { result ≡ set_xattr_of body.now }
{
    let name = piece_at(body, 8)?;
    let (_, value) = body.split_at(8 + name.bytes().len() + 1);
    if value.len() != u32_at(body, 0) as usize {
        return None;
    }
    Some(Operation::SetXAttr {
        name,
        value: Piece::new(value),
    })
}

fn parse_get_xattr(body: &[u8]) -> Option<Operation<'_>>
    ensures { result ≡ get_xattr_of body.now }
{
    let name = piece_at(body, 8)?;
    Some(Operation::GetXAttr {
        name,
        size: u32_at(body, 0),
    })
}

fn parse_extent(body: &[u8]) -> Option<Extent>
    ensures { result ≡ extent_of body.now }
{
    if body.len() < 40 {
        return None;
    }
    Some(Extent {
        handle: u64_at(body, 0),
        offset: u64_at(body, 8),
        size: u32_at(body, 16),
    })
}

fn parse_write(body: &[u8]) -> Option<Operation<'_>>
    ensures { result ≡ write_of body.now }
{
    let Extent {
        handle,
        offset,
        size,
    } = parse_extent(body)?;
    let (_, bytes) = body.split_at(40);
    if bytes.len() != size as usize {
        return None;
    }
    Some(Operation::Write {
        handle,
        offset,
        bytes: Piece::new(bytes),
    })
}

fn parse_init(body: &[u8]) -> Option<Operation<'_>>
    ensures { result ≡ init_of body.now }
{
    if body.len() < 16 {
        return None;
    }
    Some(Operation::Init(Offer {
        major: u32_at(body, 0),
        minor: u32_at(body, 4),
        max_readahead: u32_at(body, 8),
        flags: InitFlags(u32_at(body, 12)),
    }))
}
