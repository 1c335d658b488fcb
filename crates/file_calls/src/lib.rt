//! Calls on files: on what a path leads to, on what a descriptor or a handle is for, and on a process itself.
//!
//! Each call is made in a transaction, by a process, by an actor or by a handle, and is one step of the abstract machine: it answers the
//! first refusal of its demands, or has its effect on tree and process. At `Err` the caller drops the transaction's changes;
//! the processes and what is open are as they were. [`umask`] needs the processes alone, and no transaction. ENOMEM and EIO may stand in place
//! of any answer that comes after the checks of the arguments and of the path. So it is with [`exit`], which is no call but the
//! end of a process.
#![tactic(auto)]

mod attributes;
mod listing;
mod opening;
mod performing;
mod process;
mod rights;
mod show;
mod transfer;

pub use attributes::{chmod, chown, get_acl, set_acl};
pub use listing::readdir;
pub use opening::open;
pub use performing::{perform, perform_by_handle, perform_for_process};
pub use process::{close, exit, umask};
pub use rights::access;
pub use show::{fstat, lstat, stat};
pub use transfer::{MAX_HANDLE_READ, ftruncate, lseek, read, truncate, write};
