//! Steps of plans: what asks a [`Machine`] one thing or two, or moves bytes in runs, and what is told by names, flags and replies
//! alone.
//!
//! Nothing here reads or changes what a server keeps. `fuse_sessions` performs whole plans by these steps.
#![tactic(auto)]

pub mod acls;
pub mod agreement;
pub mod asker;
pub mod changes;
pub mod cursor;
pub mod directory;
pub mod flags;
pub mod listing;
mod machine;
pub mod name;
pub mod name_room;
pub mod replies;
pub mod runs;
pub mod seen;
pub mod times;

pub use machine::Machine;
