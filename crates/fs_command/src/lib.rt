//! How the program `inofs` is called, and with which statuses it ends.
//!
//! What it does for its words is `fs_program`'s; `docs/inofs.1` says how it is called.
#![tactic(auto)]

mod size;
mod status;
mod user;
mod words;

pub use status::Status;
pub use words::{Job, Text, WordsFault, parse_words};
