//! The layout of an image: where each part of a disk lies, and how each structure is written in bytes.
#![tactic(auto)]

mod acl_sector;
mod bytes;
mod commit;
mod fault;
mod geometry;
mod header;
mod inode;
mod laws;
mod slot;
mod superblock;
mod version;

pub use acl_sector::AclSector;
pub use commit::{Commit, HEADER_TARGETS, MAX_LOG_SECTORS, MAX_TARGETS};
pub use fault::LayoutFault;
pub use geometry::{COMMIT_SECTOR, FIRST_LOG_SECTOR, Geometry, ROOT, SECTOR_BITS, geometry_of};
pub use header::{
    LEAST_LOG_END, MAX_HEADER, area_start, header_of, log_end, max_targets, other_area,
};
pub use inode::{
    DIRECT_BLOCKS, DOUBLE_INDIRECT_END, INDIRECT_END, INODE_SIZE, Inode, Kind, MAX_BLOCKS,
    MAX_DIRECTORY_SIZE, MAX_FILE_SIZE, MAX_INODE_NAMES, MAX_LINK_SIZE, OLDER_DIRECTORY_SIZE,
    OLDER_FILE_SIZE, POINTER_LEVELS, S_ISGID, S_ISVTX, SECTOR_POINTERS, own_count,
};
pub use laws::{
    consistency_rests_on_used_sectors, maps_have_entries, names_fit_their_slots,
    numbers_of_16_bits, numbers_of_32_bits, numbers_of_64_bits, one_inode_changes, recovery,
    saving_ends, sectors_say_the_acls, slots_say_the_names, some_image_is_consistent,
    what_is_written_is_read,
};
pub use slot::{MAX_NAME, MAX_SLOT_SIZE, SLOT_SIZE, Slot, is_name};
pub use superblock::Super;
pub use version::Version;
