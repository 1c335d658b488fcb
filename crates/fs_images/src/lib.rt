//! Images of file systems: making one on a disk, and upgrading one of the first version of the layout.
//!
//! `specs/` also says what the images that a disk may leave stand for (`Standing.antt`), of which all above speaks.
#![tactic(auto)]

mod faults;
mod new_disk;
mod new_tables;
mod upgrading;

pub use faults::{MkfsFault, UpgradeFault};
pub use new_disk::{mkfs, newest_layout, older_layout};
pub use upgrading::upgrade;
