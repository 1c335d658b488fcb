//! The processes with their open files: POSIX.1-2017, Base Definitions (Process, File Descriptor, Open File Description).
//!
//! A [`Procs`] is a finite map from process numbers to processes, and each process has a finite map from descriptors to
//! open files. Memory is taken by [`Procs::spawn`] alone: a process has room for all its descriptors from its start.
//!
//! What actors have open is an [`Openings`], a finite map from handles. Its memory is taken by [`Openings::reserve`] alone.
#![tactic(auto)]

mod openings;
mod procs;

pub use openings::{Opened, Openings};
pub use procs::{Descriptor, Judged, MAX_DESCRIPTORS, MAX_PROCESSES, Process, Procs};
