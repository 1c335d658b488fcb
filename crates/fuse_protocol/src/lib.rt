//! The kernel's FUSE protocol, version 7.31, as values: what the bytes of a request say, and which bytes a reply is.
#![tactic(auto)]

mod acl_value;
mod batch;
mod bytes;
mod entry;
mod flags;
mod laws;
mod opcode;
mod operation;
mod piece;
mod reply;
mod request;

pub use acl_value::{AclValueFault, push_acl_value, read_acl_value, write_acl_value};
pub use batch::Batch;
pub use entry::{DirectoryEntry, DirectoryRecord, EntryKind, push_entry, push_record, record_size};
pub use flags::{InitFlags, OpenFlags, OpenedFlags};
pub use laws::spellings_are_read;
pub use operation::{AttrChanges, Extent, NewTime, Offer, Operation};
pub use piece::{Name, Piece};
pub use reply::{Attr, FoundEntry, Reply, Room, Terms, Time, push_reply, write_reply};
pub use request::{HEADER_SIZE, Request, RequestFault, parse_request};
