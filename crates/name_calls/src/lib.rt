//! Calls on names: on directories and what they name.
//!
//! Each call is made in a transaction, by a process or an actor, and is one step of the abstract machine: it answers the
//! first refusal of its demands, or has its effect on tree and process. At `Err` the caller drops the transaction's changes;
//! the processes are as they were. ENOMEM and EIO may stand in place of any answer that comes after the checks of the arguments
//! and of the path.
#![tactic(auto)]

mod dropping;
mod making;
mod performing;
mod removal;
mod renaming;

pub use making::{chdir, link, mkdir, readlink, symlink};
pub use performing::{perform, perform_for_process};
pub use removal::{rmdir, unlink};
pub use renaming::rename;
