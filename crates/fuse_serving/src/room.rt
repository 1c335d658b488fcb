//! Room for a reply, which is asked for before any request is served.

use std::alloc::{AllocError, Global};

/// The most bytes that one request reads: of a file, or of a directory's entries.
pub const MAX_READ: u32 = 1_048_576;

// Of a reply that holds what was read.
const MAX_REPLY: usize = 1_048_592;

// Of the value of an ACL with 32 entries.
const MAX_VALUE: usize = 260;

/// Room for each reply to a request that reads at most [`MAX_READ`] bytes.
#[derive(Drop)]
pub struct ReplyRoom {
    pub(crate) reply: Vec<u8>,
    pub(crate) value: Vec<u8>,
}

impl ReplyRoom {
    /// Fails where memory is lacking.
    pub fn new(alloc: Global) -> Result<ReplyRoom, AllocError> {
        Ok(ReplyRoom {
            reply: Vec::with_capacity(alloc, MAX_REPLY)?,
            value: Vec::with_capacity(alloc, MAX_VALUE)?,
        })
    }
}
