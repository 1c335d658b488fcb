//! Serves the kernel's requests of FUSE, one after another: reads each, has its plan performed, and writes the reply.
//!
//! What is outside passes through two traits. A [`Kernel`] gives requests, takes replies and tells what is known of who asks; a
//! [`Performer`] performs the plan of a request. Of the [`Standard`] one who asks is known by what [`Processes`] show.
#![tactic(auto)]

mod answer;
mod caller;
mod fault;
mod kernel;
mod performer;
mod proc_files;
mod processes;
mod question;
mod reply;
mod room;
mod serving;
mod session;
mod standard;
mod status;
mod witness;

pub use caller::{Caller, Groups};
pub use fault::ServeFault;
pub use kernel::Kernel;
pub use performer::Performer;
pub use proc_files::ProcFiles;
pub use processes::Processes;
pub use reply::ReplyFault;
pub use room::{MAX_READ, ReplyRoom};
pub use serving::serve;
pub use standard::Standard;
pub use status::caller_of_status;
pub use witness::{Nobody, Witness};
