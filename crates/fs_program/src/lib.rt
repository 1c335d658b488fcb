//! The jobs of the program `inofs`: what it does for its words, on which streams, and with which status it ends.
//!
//! `docs/inofs.1` says how the program is called and what it prints.
#![tactic(auto)]

mod answering;
mod copying;
mod denials;
mod disks;
mod explaining;
mod failure;
mod jobs;
mod memory;
mod served;

pub use failure::Failure;
pub use fs_command::{Job, WordsFault, parse_words};
pub use fs_shell::{RunFault, Watched};
pub use fs_system::MountFault;
pub use fuse_serving::ProcFiles;
pub use jobs::perform;
