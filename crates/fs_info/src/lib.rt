//! What an image says of itself: its layout, what is free, and whether a commit waits; and how that is printed.
//!
//! The superblock, the commit and the bitmaps are read, and nothing else; nothing is written.
#![tactic(auto)]

mod counting;
mod faults;
mod info;
mod opening;
mod printing;

pub use faults::InfoFault;
pub use info::{Info, read_info};
pub use printing::{print_info, yes_or_no};
