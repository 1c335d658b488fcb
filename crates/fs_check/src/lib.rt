//! The checker: whether a disk stands for a tree, and where not, what is wrong with it first.
//!
//! The rules stand in `fs_model`; nothing is written.
#![tactic(auto)]

mod acls;
mod bit_table;
mod bitmaps;
mod checking;
mod contents;
mod directories;
mod faults;
mod inodes;
mod loading;
mod marking;
mod marks;
mod names;
mod opening;
mod owning;
mod reading;
mod recovering;
mod slots;
mod summary;
mod ways;
mod zeros;

pub use checking::check;
pub use faults::{CheckFault, Finding, Summary};
pub use loading::load;
pub use recovering::{commit_said, geometry_said, read_meaning};
