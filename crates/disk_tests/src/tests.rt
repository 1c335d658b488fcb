//! The tests by their subjects.

mod disks;
mod image_files;
mod journal;
mod known_files;
mod transactions;
mod two_areas;
