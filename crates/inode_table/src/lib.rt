//! Inodes and their ACLs in the inode table: a map from inode numbers.
//!
//! Each call works on one transaction. At `Ok` the image is consistent again; at `Err` part of the work may be done, and
//! the caller drops the transaction's changes. Of the sectors that a call puts, those of the bitmaps are counted apart,
//! since all calls of a transaction share them.
//!
//! What each call reads and puts, where `b` is the number of sectors of the block bitmap that a search passes:
//!
//! | Call | `get`s | `put`s |
//! |---|---|---|
//! | [`load`], [`load_with_content`] | 1 | 0 |
//! | [`write_inode`], [`save`] | 1 | 1 |
//! | [`save_times`] | 0 | 1 |
//! | [`new_inode`] | 2, and `b` for each ACL that takes a sector | 2, and 2 for each of these |
//! | [`free_inode`] | 3, and 1 for each ACL sector | 2, and 1 for each of these |
//! | [`give_sector`] | 1 where there is a sector, else 0 | the same |
//! | [`load_acl`], [`load_default_acl`] | 1 where the ACL has a sector, else 0 | 0 |
//! | [`save_acl`], [`save_default_acl`] | 1 | 1 |
//! | where they take a sector | `b` more | 2 more |
//! | where they give one back | 1 more | 1 more |
//! | where they rewrite one | 0 more | 1 more |
#![tactic(auto)]

mod faults;
mod inodes;
mod sectors;

pub use faults::LoadAclFault;
pub use inodes::{
    free_inode, give_sector, load, load_acl, load_default_acl, load_with_content, new_inode, save,
    save_acl, save_default_acl, save_times, write_inode,
};
