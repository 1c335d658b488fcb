//! Requests of a kernel: the plan of each request of FUSE is performed on a [`Session`](fuse_sessions::Session).
#![tactic(auto)]

mod attributes;
mod beginning;
mod copies;
mod directories;
mod dispatch;
mod family;
mod files;
mod lookups;
mod names;
mod whole;
mod xattrs;

pub use dispatch::perform;
