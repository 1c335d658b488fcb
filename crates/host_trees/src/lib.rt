//! Copies the tree of a directory of the host to a file system, and back.
//!
//! What is asked of the file system is a history of it. Of what the host gives and takes std's clauses say little: that it is what
//! was there is tested alone.
#![tactic(auto)]

mod asker;
mod entry;
mod fault;
mod file_system;
mod held;
mod lack;
mod lists;
mod new_directory;
mod objects;
mod owner;
mod packing;
mod place;
mod replies;
mod times;
mod trail;
mod unpacking;
mod work;
mod writing;

pub use fault::{Copied, CopyFault};
pub use file_system::FileSystem;
pub use held::has_proc;
pub use owner::Given;
pub use packing::pack;
pub use unpacking::unpack;
