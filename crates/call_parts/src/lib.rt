//! What calls stand on: reaching what a path leads to, asking what is asked of it, and the smallest changes of a tree on a
//! disk.
//!
//! A call is one step of the abstract machine, made in a transaction by a process or an actor. Its parts stand here, each
//! with its own promise: the walk of its paths and the inode that is found, one check for each demand, space, what is
//! made, named, counted or freed, and times that move.
#![tactic(auto)]

mod asking;
mod changing;
mod reaching;

pub use asking::{
    WRITE_AND_SEARCH, allowed_by, ask_directory, ask_for_name, ask_for_sectors, ask_to_write,
    check_is_directory, check_make, check_mode, check_no_directory, check_slash, check_sticky,
    default_of, inherited, is_new, new_group, permitted, refuse_if,
};
pub use changing::{drop_node, leave, name_inode, remove_name, set_names, touch};
pub use reaching::{
    By, CallResult, Caller, OpenAt, OpenFor, Reached, Site, Walked, WalkedBoth, check_from,
    close_at, find, find_open, inode_found, reach, reach_open, reach_owned, seek_at, stays_open,
    walk_both, walk_path,
};
