//! Disks of 512-byte sectors: what reads give, and what a stop may leave.
#![tactic(auto)]

mod disk;
mod disk_file;
mod faulty;
mod file_disk;
mod history;
mod memory;
mod numbers;
mod part_disk;
mod part_file;
mod reading;
mod sectors;
mod waiting;
mod whole;

pub use disk::{CrashDisk, Disk, DiskFault, write_synced};
pub use disk_file::DiskFile;
pub use faulty::{FailOnce, FaultyDisk, FuseDisk};
pub use file_disk::{FileDisk, FileFault};
pub use memory::MemDisk;
pub use part_disk::PartDisk;
pub use part_file::{PartFile, Tail};
