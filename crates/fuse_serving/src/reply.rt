//! The bytes of replies.
ghost use Rattle.std.specs.Prelude.{◌≡◌, IfOk, OnOk, IsTrue};
ghost use Rattle.posix_acl.specs.AccessList.{entries_of};
ghost use Rattle.fuse_protocol.specs.AclValues.{acl_value_bytes};
ghost use Rattle.fuse_protocol.specs.Replies.{IsReply, reply_bytes};
ghost use Rattle.fuse_protocol.specs.declared.reply.Reply.TheVariants.{Bytes as BytesReply, Count as CountReply, Error as ErrorReply};
ghost use Rattle.fuse_plans.specs.Protocol.{reply_of_body, response_bytes};
ghost use Rattle.fuse_plans.specs.RequestErrors.{error_number};
ghost use Rattle.fuse_plans.specs.declared.reply.ReplyBody.TheVariants.{Found, Shown, Created, Space};
ghost use Rattle.fuse_serving.specs.Rounds.{has_reply};

use crate::room::ReplyRoom;
use fuse_plans::{Attributes, ReplyBody, RequestError, Response, attr_of, looked_up_entry};
use fuse_protocol::{OpenedFlags, Piece, Reply, Room, push_acl_value, push_reply};
use posix_acl::Acl;
use std::alloc::AllocError;

/// Why there are no bytes of a reply.
#[derive(Clone, Copy, Debug)]
pub enum ReplyFault {
    /// A number doesn't fit into its field.
    TooLarge,
    /// Memory ran out.
    OutOfMemory,
}

impl From<AllocError> for ReplyFault {
    ghost use Rattle.std.specs.Prelude.{◌≡◌};
    ghost use Rattle.fuse_serving.specs.declared.reply.ReplyFault.TheVariants.{OutOfMemory};

    ghost from_gives = { λ _ e. e ≡ OutOfMemory };

    fn from(_error: AllocError) -> ReplyFault {
        ReplyFault::OutOfMemory
    }
}

// The most bytes of a body: with its header a reply has fewer than 2^32.
const MAX_BODY: usize = 4_294_967_279;

// The reply, and nothing else.
fn write_one(to: &mut Vec<u8>, unique: u64, reply: &Reply<'_>) -> Result<(), AllocError>
    requires { IsReply reply.now }
    ensures { OnOk result (to.new.items ≡ reply_bytes unique reply.now) }
{
    to.clear();
    push_reply(to, unique, reply)?;
    Ok(())
}

fn write_bytes(to: &mut Vec<u8>, unique: u64, bytes: &[u8]) -> Result<(), ReplyFault>
    ensures { OnOk result (to.new.items ≡ reply_bytes unique (BytesReply bytes.now)) }
{
    if bytes.len() > MAX_BODY {
        return Err(ReplyFault::TooLarge);
    }
    write_one(to, unique, &Reply::Bytes(Piece::new(bytes)))?;
    Ok(())
}

fn write_count(to: &mut Vec<u8>, unique: u64, count: usize) -> Result<(), ReplyFault>
    ensures { OnOk result (to.new.items ≡ reply_bytes unique (CountReply count)) }
{
    let Ok(count) = u32::try_from(count) else {
        return Err(ReplyFault::TooLarge);
    };
    write_one(to, unique, &Reply::Count(count))?;
    Ok(())
}

fn write_acl(room: &mut ReplyRoom, unique: u64, acl: &Acl) -> Result<(), ReplyFault>
    ensures { OnOk result (room.new.reply.items ≡ reply_bytes unique (BytesReply (acl_value_bytes (entries_of acl.now)))) }
{
    room.value.clear();
    push_acl_value(&mut room.value, acl)?;
    write_bytes(&mut room.reply, unique, &room.value)?;
    Ok(())
}

// How much room there is.
fn space_reply(
    sectors: u32,
    free_sectors: u32,
    inodes: u32,
    free_inodes: u32,
    max_name: u32,
) -> Reply<'static>
    ensures { result ≡ reply_of_body (Space sectors free_sectors inodes free_inodes max_name) }
{
    Reply::StatFs(Room {
        blocks: u64::from(sectors),
        free_blocks: u64::from(free_sectors),
        inodes: u64::from(inodes),
        free_inodes: u64::from(free_inodes),
        block_size: 512,
        max_name,
    })
}

// What is told of an object.
fn attributes_reply(shown: &Attributes) -> Reply<'static>
    ensures { result ≡ reply_of_body (Shown shown.now) }
{
    Reply::Attr {
        valid: shown.valid,
        attr: attr_of(shown),
    }
}

// What is told of an object that has a name.
fn found_reply(node: u64, name_valid: u64, shown: &Attributes) -> Reply<'static>
    ensures { result ≡ reply_of_body (Found node name_valid shown.now) }
{
    Reply::Entry(looked_up_entry(node, name_valid, shown))
}

// What is told of a file that was made or found, and opened.
fn created_reply(
    node: u64,
    name_valid: u64,
    shown: &Attributes,
    handle: u64,
    flags: OpenedFlags,
) -> Reply<'static>
    ensures { result ≡ reply_of_body (Created node name_valid shown.now handle flags) }
{
    Reply::Created {
        found: looked_up_entry(node, name_valid, shown),
        handle,
        flags,
    }
}

// The reply to a request that didn't fail.
fn write_body(room: &mut ReplyRoom, unique: u64, body: &ReplyBody) -> Result<(), ReplyFault>
    ensures { OnOk result (room.new.reply.items ≡ reply_bytes unique (reply_of_body body.now)) }
{
    let reply = match body {
        ReplyBody::Bytes(bytes) => return write_bytes(&mut room.reply, unique, bytes.bytes()),
        ReplyBody::Acl(acl) => return write_acl(room, unique, acl),
        ReplyBody::Wrote(count) | ReplyBody::Size(count) => {
            return write_count(&mut room.reply, unique, *count);
        }
        ReplyBody::Nothing => Reply::Done,
        ReplyBody::Found {
            node,
            name_valid,
            shown,
        } => found_reply(*node, *name_valid, shown),
        ReplyBody::Absent(valid) => Reply::Absent { valid: *valid },
        ReplyBody::Shown(shown) => attributes_reply(shown),
        ReplyBody::Opened(handle, flags) => Reply::Open {
            handle: *handle,
            flags: *flags,
        },
        ReplyBody::Created {
            node,
            name_valid,
            shown,
            handle,
            flags,
        } => created_reply(*node, *name_valid, shown, *handle, *flags),
        ReplyBody::Space {
            sectors,
            free_sectors,
            inodes,
            free_inodes,
            max_name,
        } => space_reply(*sectors, *free_sectors, *inodes, *free_inodes, *max_name),
        ReplyBody::Agreed(terms) => Reply::Init(*terms),
    };
    write_one(&mut room.reply, unique, &reply)?;
    Ok(())
}

// The reply to a request that failed.
fn write_failure(to: &mut Vec<u8>, unique: u64, error: RequestError) -> Result<(), AllocError>
    ensures { OnOk result (to.new.items ≡ reply_bytes unique (ErrorReply (error_number error))) }
{
    write_one(to, unique, &Reply::Error(u16::from(error.number())))?;
    Ok(())
}

/// Writes the reply to the request with this number, if there is one, and tells so.
pub(crate) fn write_response(
    room: &mut ReplyRoom,
    unique: u64,
    response: &Response,
) -> Result<bool, ReplyFault>
    ensures is { IfOk result (λ is. is ≡ has_reply response.now) }
    ensures bytes { IfOk result (λ is. IsTrue is → room.new.reply.items ≡ response_bytes unique response.now) }
{
    match response {
        Response::Silence => Ok(false),
        Response::Says(body) => {
            write_body(room, unique, body)?;
            Ok(true)
        }
        Response::Fails(error) => {
            write_failure(&mut room.reply, unique, *error)?;
            Ok(true)
        }
    }
}
