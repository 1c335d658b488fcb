//! Paths, walked over the inodes and directories on a disk: path_resolution(7).
//!
//! What a walk answers is what the tree's trail says: its first refusal, or what it finds. Memory that is lacking and a
//! read that fails are told by ENOMEM and EIO, where nothing earlier has refused. Nothing is written.
#![tactic(auto)]

mod laws;
mod paths;
mod walker;

pub use fs_model::{Form, Found, Last};
pub use laws::inodes_say_what_stands;
pub use paths::{MAX_PATH, check_path};
pub use walker::{
    MAX_LINKS, ends_with_slash, load_inode, permission, read_target, resolve, search, walk,
};
