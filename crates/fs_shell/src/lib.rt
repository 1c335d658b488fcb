//! The shell: runs scripts on a file system, line by line, and writes what it answers.
//!
//! `fs_lines` says what a line asks for, and which text a reply has.
#![tactic(auto)]

mod answer;
mod fault;
mod runner;
mod script;

pub use answer::{Answer, Count};
pub use fault::RunFault;
pub use fs_lines::{Line, LineFault, parse_line, reply_text};
pub use runner::{Watched, run};
pub use script::MAX_SCRIPT;
