//! What replies of the machine hold.
ghost use Rattle.std.specs.Prelude.{◌≡◌};
ghost use Rattle.fuse_plans.specs.Works.{status_of_reply, stamps_of_reply, opened_of_reply, number_of_reply, count_of_reply, space_of_reply, data_of_reply, target_of_reply, acl_of_reply, names_of_reply, within, count_within};

use fs_model::{Bytes, Listing, Path, Reply, Stamps, Status};
use posix_acl::Acl;

/// What stat(2) shows.
pub fn status_of_reply(reply: &Reply) -> Option<Status>
    ensures { result ≡ status_of_reply reply.now }
{
    match reply {
        Reply::Shown(status) => Some(*status),
        _ => None,
    }
}

/// The times of an object.
pub fn stamps_of_reply(reply: &Reply) -> Option<Stamps>
    ensures { result ≡ stamps_of_reply reply.now }
{
    match reply {
        Reply::Stamped(stamps) => Some(*stamps),
        _ => None,
    }
}

/// The handle of what was opened, and its inode.
pub fn opened_of_reply(reply: &Reply) -> Option<(u64, u32)>
    ensures { result ≡ opened_of_reply reply.now }
{
    match reply {
        Reply::Opened { handle, ino } => Some((*handle, *ino)),
        _ => None,
    }
}

/// The inode of what was made.
pub fn number_of_reply(reply: &Reply) -> Option<u32>
    ensures { result ≡ number_of_reply reply.now }
{
    match reply {
        Reply::Made(ino) => Some(*ino),
        _ => None,
    }
}

/// How many bytes were written.
pub fn count_of_reply(reply: &Reply) -> Option<usize>
    ensures { result ≡ count_of_reply reply.now }
{
    match reply {
        Reply::Wrote(count) => Some(*count),
        _ => None,
    }
}

/// How many sectors and inodes are free.
pub fn space_of_reply(reply: &Reply) -> Option<(u32, u32)>
    ensures { result ≡ space_of_reply reply.now }
{
    match reply {
        Reply::Space { sectors, inodes } => Some((*sectors, *inodes)),
        _ => None,
    }
}

/// Bytes that were read.
pub fn data_of_reply(reply: Reply) -> Option<Bytes>
    ensures { result ≡ data_of_reply reply }
{
    match reply {
        Reply::Data(bytes) => Some(bytes),
        other => {
            other.discard();
            None
        }
    }
}

/// The target of a link.
pub fn target_of_reply(reply: Reply) -> Option<Path>
    ensures { result ≡ target_of_reply reply }
{
    match reply {
        Reply::Target(target) => Some(target),
        other => {
            other.discard();
            None
        }
    }
}

/// An ACL, or none.
pub fn acl_of_reply(reply: Reply) -> Option<Option<Acl>>
    ensures { result ≡ acl_of_reply reply }
{
    match reply {
        Reply::Acl(acl) => Some(acl),
        other => {
            other.discard();
            None
        }
    }
}

/// The names of a directory.
pub fn names_of_reply(reply: Reply) -> Option<Listing>
    ensures { result ≡ names_of_reply reply }
{
    match reply {
        Reply::Names(names) => Some(names),
        other => {
            other.discard();
            None
        }
    }
}

/// The bytes, where these are at most so many.
pub fn within(most: usize, bytes: Option<Bytes>) -> Option<Bytes>
    ensures { result ≡ within most bytes }
{
    match bytes {
        Some(bytes) if bytes.bytes().len() <= most => Some(bytes),
        _ => None,
    }
}

/// The count, where it is at most this.
pub fn count_within(most: usize, count: Option<usize>) -> Option<usize>
    ensures { result ≡ count_within most count }
{
    match count {
        Some(count) if count <= most => Some(count),
        _ => None,
    }
}
