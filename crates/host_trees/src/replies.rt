//! What replies say.
use crate::lack::Lack;
use fs_model::{Listing, Path, Reply, Stamps, Status};
use posix_acl::Acl;

/// The number of a new process.
pub(crate) fn pid_in(reply: Reply) -> Result<usize, Lack> {
    match reply {
        Reply::Pid(pid) => Ok(pid),
        other => Err(unlike(other)),
    }
}

/// The descriptor of what was opened.
pub(crate) fn fd_in(reply: Reply) -> Result<usize, Lack> {
    match reply {
        Reply::Fd(fd) => Ok(fd),
        other => Err(unlike(other)),
    }
}

/// What is shown of an object.
pub(crate) fn status_in(reply: Reply) -> Result<Status, Lack> {
    match reply {
        Reply::Shown(status) => Ok(status),
        other => Err(unlike(other)),
    }
}

/// The names of a directory.
pub(crate) fn listing_in(reply: Reply) -> Result<Listing, Lack> {
    match reply {
        Reply::Names(listing) => Ok(listing),
        other => Err(unlike(other)),
    }
}

/// The target of a link.
pub(crate) fn target_in(reply: Reply) -> Result<Path, Lack> {
    match reply {
        Reply::Target(path) => Ok(path),
        other => Err(unlike(other)),
    }
}

/// The times of an object.
pub(crate) fn stamps_in(reply: Reply) -> Result<Stamps, Lack> {
    match reply {
        Reply::Stamped(stamps) => Ok(stamps),
        other => Err(unlike(other)),
    }
}

/// An access list, if there is one.
pub(crate) fn acl_in(reply: Reply) -> Result<Option<Acl>, Lack> {
    match reply {
        Reply::Acl(acl) => Ok(acl),
        other => Err(unlike(other)),
    }
}

// Replies of a form that a call never has say nothing.
fn unlike(reply: Reply) -> Lack {
    reply.discard();
    Lack::Short
}
