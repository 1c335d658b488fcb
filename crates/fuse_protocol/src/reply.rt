//! The reply to a request.

ghost use Rattle.std.specs.Prelude.{◌≡◌, ◌<◌, ◌+◌, ◌^◌, ◌++◌, ◌≤◌, length, vec_len, vec_capacity, IsOk, IfOk, OnOk};
ghost use Rattle.fuse_protocol.specs.Replies.{IsReply, attr_bytes, entry_reply_bytes, absent_bytes, open_bytes, terms_bytes, room_bytes, body_bytes, error_field, reply_bytes};

use crate::bytes::{push_u16s, push_u32s, push_u64s};
use crate::flags::{InitFlags, OpenedFlags};
use crate::piece::Piece;
use std::alloc::{AllocError, Global};

/// So long after 1970 began.
#[derive(Clone, Copy)]
pub struct Time {
    pub seconds: u64,
    pub nanoseconds: u32,
}

/// The attributes of an object. The mode has the object's type too.
#[derive(Clone, Copy)]
pub struct Attr {
    pub ino: u64,
    pub size: u64,
    /// Of 512 bytes.
    pub blocks: u64,
    pub atime: Time,
    pub mtime: Time,
    pub ctime: Time,
    pub mode: u32,
    pub links: u32,
    pub uid: u32,
    pub gid: u32,
    /// How many bytes are best read or written at once.
    pub block_size: u32,
}

/// On which terms the kernel's offer is taken: how many requests may wait, from how many on it holds back, how many bytes a write has
/// at most, and how many pages a request, where that was offered.
#[derive(Clone, Copy)]
pub struct Terms {
    pub max_readahead: u32,
    pub flags: InitFlags,
    pub max_background: u16,
    pub congestion_threshold: u16,
    pub max_write: u32,
    pub max_pages: u16,
}

/// The room of a file system, in blocks and in inodes.
#[derive(Clone, Copy)]
pub struct Room {
    pub blocks: u64,
    pub free_blocks: u64,
    pub inodes: u64,
    pub free_inodes: u64,
    pub block_size: u32,
    pub max_name: u32,
}

/// What is told of an object that has a name: its node, for how many seconds the name and the attributes are valid, and these.
#[derive(Clone, Copy)]
pub struct FoundEntry {
    pub node: u64,
    pub name_valid: u64,
    pub valid: u64,
    pub attr: Attr,
}

/// What is told. Names and attributes are valid for so many seconds: as long the kernel asks for them no more.
#[derive(Drop)]
pub enum Reply<'a> {
    /// The request failed: the number of the error, from 1 to 511.
    Error(u16),
    /// The request is done, and there is nothing to tell.
    Done,
    /// Attributes.
    Attr {
        valid: u64,
        attr: Attr,
    },
    /// A name was looked up or made.
    Entry(FoundEntry),
    /// Nothing has the name.
    Absent {
        valid: u64,
    },
    /// A file was made and opened.
    Created {
        found: FoundEntry,
        handle: u64,
        flags: OpenedFlags,
    },
    /// A file or a directory was opened.
    Open {
        handle: u64,
        flags: OpenedFlags,
    },
    /// The first reply.
    Init(Terms),
    /// How many bytes were written, or an attribute has.
    Count(u32),
    /// The room.
    StatFs(Room),
    /// What was read, an attribute, the target of a link, names of attributes, or the entries of a directory.
    Bytes(Piece<'a>),
}

// The version that is spoken.
const MAJOR: u32 = 7;

const MINOR: u32 = 31;

// Times are kept to so many nanoseconds.
const TIME_GRANULARITY: u32 = 1;

const REPLY_HEADER_SIZE: usize = 16;

fn push_attr(to: &mut Vec<u8>, attr: Attr) -> Result<(), AllocError>
    ensures items { OnOk result (to.new.items ≡ to.old.items ++ attr_bytes attr) }
    ensures len { OnOk result (vec_len to.new ≡ vec_len to.old + 88) }
    ensures capacity { vec_capacity to.old ≤ vec_capacity to.new }
    ensures succeeds { vec_len to.old + 88 ≤ vec_capacity to.old → IsOk result }
{
    let Attr {
        atime,
        mtime,
        ctime,
        ..
    } = attr;
    push_u64s(
        to,
        &[
            attr.ino,
            attr.size,
            attr.blocks,
            atime.seconds,
            mtime.seconds,
            ctime.seconds,
        ],
    )?;
    push_u32s(
        to,
        &[
            atime.nanoseconds,
            mtime.nanoseconds,
            ctime.nanoseconds,
            attr.mode,
            attr.links,
            attr.uid,
            attr.gid,
            0,
            attr.block_size,
            0,
        ],
    )?;
    Ok(())
}

/// Adds what is told of an object that has a name.
pub(crate) fn push_node(to: &mut Vec<u8>, found: FoundEntry) -> Result<(), AllocError>
    ensures items { OnOk result (to.new.items ≡ to.old.items ++ entry_reply_bytes found) }
    ensures len { OnOk result (vec_len to.new ≡ vec_len to.old + 128) }
    ensures capacity { vec_capacity to.old ≤ vec_capacity to.new }
    ensures succeeds { vec_len to.old + 128 ≤ vec_capacity to.old → IsOk result }
{
    push_u64s(to, &[found.node, 0, found.name_valid, found.valid, 0])?;
    push_attr(to, found.attr)?;
    Ok(())
}

/// Adds that nothing has a name.
pub(crate) fn push_absent(to: &mut Vec<u8>, valid: u64) -> Result<(), AllocError>
    ensures items { OnOk result (to.new.items ≡ to.old.items ++ absent_bytes valid) }
    ensures len { OnOk result (vec_len to.new ≡ vec_len to.old + 128) }
    ensures capacity { vec_capacity to.old ≤ vec_capacity to.new }
    ensures succeeds { vec_len to.old + 128 ≤ vec_capacity to.old → IsOk result }
{
    push_u64s(to, &[0, 0, valid, 0, 0, 0, 0, 0, 0, 0, 0, 0, 0, 0, 0, 0])?;
    Ok(())
}

fn push_open(to: &mut Vec<u8>, handle: u64, flags: OpenedFlags) -> Result<(), AllocError>
    ensures { OnOk result (to.new.items ≡ to.old.items ++ open_bytes handle flags) }
{
    push_u64s(to, &[handle, u64::from(flags.0)])?;
    Ok(())
}

fn push_terms(to: &mut Vec<u8>, terms: Terms) -> Result<(), AllocError>
    ensures { OnOk result (to.new.items ≡ to.old.items ++ terms_bytes terms) }
{
    push_u32s(to, &[MAJOR, MINOR, terms.max_readahead, terms.flags.0])?;
    push_u16s(to, &[terms.max_background, terms.congestion_threshold])?;
    push_u32s(to, &[terms.max_write, TIME_GRANULARITY])?;
    push_u16s(to, &[terms.max_pages, 0])?;
    push_u64s(to, &[0; 4])?;
    Ok(())
}

fn push_room(to: &mut Vec<u8>, room: Room) -> Result<(), AllocError>
    ensures { OnOk result (to.new.items ≡ to.old.items ++ room_bytes room) }
{
    push_u64s(
        to,
        &[
            room.blocks,
            room.free_blocks,
            room.free_blocks,
            room.inodes,
            room.free_inodes,
        ],
    )?;
    push_u32s(to, &[room.block_size, room.max_name, room.block_size])?;
    push_u32s(to, &[0; 7])?;
    Ok(())
}

fn push_body(to: &mut Vec<u8>, reply: &Reply<'_>) -> Result<(), AllocError>
    ensures { OnOk result (to.new.items ≡ to.old.items ++ body_bytes reply.now) }
{
    match reply {
        Reply::Error(_) | Reply::Done => {}
        Reply::Attr { valid, attr } => {
            push_u64s(to, &[*valid, 0])?;
            push_attr(to, *attr)?;
        }
        Reply::Entry(found) => push_node(to, *found)?,
        Reply::Absent { valid } => push_absent(to, *valid)?,
        Reply::Created {
            found,
            handle,
            flags,
        } => {
            push_node(to, *found)?;
            push_open(to, *handle, *flags)?;
        }
        Reply::Open { handle, flags } => push_open(to, *handle, *flags)?,
        Reply::Init(terms) => push_terms(to, *terms)?,
        Reply::Count(count) => push_u32s(to, &[*count, 0])?,
        Reply::StatFs(room) => push_room(to, *room)?,
        Reply::Bytes(bytes) => to.extend_from_slice(bytes.bytes())?,
    }
    Ok(())
}

// How many bytes the body has.
#[tactic(auto, unfolding(crate::specs::Bytes::bytes_of_u16s, crate::specs::Bytes::bytes_of_u32s, crate::specs::Bytes::bytes_of_u64s))]
fn body_size(reply: &Reply<'_>) -> usize
    requires { IsReply reply.now }
    ensures size { result ≡ length (body_bytes reply.now) }
    ensures fits { REPLY_HEADER_SIZE + result < 2 ^ 32 }
{
    match reply {
        Reply::Error(_) | Reply::Done => 0,
        Reply::Attr { .. } => 104,
        Reply::Entry(_) | Reply::Absent { .. } => 128,
        Reply::Created { .. } => 144,
        Reply::Open { .. } => 16,
        Reply::Init(_) => 64,
        Reply::Count(_) => 8,
        Reply::StatFs(_) => 80,
        Reply::Bytes(bytes) => bytes.bytes().len(),
    }
}

// What the header says of the outcome: 0, or the error's number below 0, in two's complement.
fn error_field(reply: &Reply<'_>) -> u32
    requires { IsReply reply.now }
    ensures { result ≡ error_field reply.now }
{
    match reply {
        Reply::Error(number) => u32::MAX - u32::from(*number) + 1,
        _ => 0,
    }
}

/// Adds the bytes of the reply to the request with this number. No memory is asked for where there is room for them.
#[tactic(auto, using(std::proofs::Common::append_assoc), unfolding(crate::specs::Replies::reply_bytes))]
pub fn push_reply(to: &mut Vec<u8>, unique: u64, reply: &Reply<'_>) -> Result<(), AllocError>
    requires { IsReply reply.now }
    ensures { OnOk result (to.new.items ≡ to.old.items ++ reply_bytes unique reply.now) }
{
    let size = REPLY_HEADER_SIZE + body_size(reply);
    push_u32s(to, &[size as u32, error_field(reply)])?;
    push_u64s(to, &[unique])?;
    push_body(to, reply)?;
    Ok(())
}

/// The bytes of the reply to the request with this number.
pub fn write_reply(alloc: Global, unique: u64, reply: &Reply<'_>) -> Result<Vec<u8>, AllocError>
    requires { IsReply reply.now }
    ensures { IfOk result (λ bytes. bytes.items ≡ reply_bytes unique reply.now) }
{
    let mut bytes = Vec::with_capacity(alloc, REPLY_HEADER_SIZE + body_size(reply))?;
    push_reply(&mut bytes, unique, reply)?;
    Ok(bytes)
}
