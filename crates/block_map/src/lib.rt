//! The bytes of files, directories and links: an inode holds a list of bytes, with zeros in holes.
//!
//! An inode has 12 direct blocks of 512 bytes. The further ones are found by sectors of pointers, of 128 numbers each, on three
//! levels: an indirect sector has the numbers of blocks, the double indirect one those of such sectors, and the triple indirect one
//! those of sectors like the double indirect one. The layout's version says how far a file may reach, and how far a directory.
//! [`read_at`], [`write_at`], [`overwrite`] and [`set_size`] serve files, directories and links alike, [`release_all`] files and
//! directories. A link is never empty: [`new_link`] makes it with its target. [`free_all`] frees each of them with all that it owns.
//! [`Blocks`] reads one block after another, as a search does. [`write_at`] seeks a free sector near the one that it took last, the
//! first near the file's first block. Past the first 12, whole blocks that have no sectors and follow one another take theirs as a run
//! of up to 32: the bitmap is read and put once for those of one of its sectors, and the sector of pointers is put once.
//! No call takes memory.
//!
//! What each call reads and puts, where it reaches `k` blocks. With a sector of pointers that the inode doesn't name those above it
//! are read too, from the named one down, also where they then say that there is none:
//!
//! | Call | `get` | `put` |
//! |---|---|---|
//! | [`read_at`] | each sector of pointers that blocks reached have, and each block but the holes | 0 |
//! | [`Blocks::read`], [`Blocks::read_with`] | the block but a hole, and its sector of pointers unless it is at hand | 0 |
//! | [`write_at`] | the sectors of pointers as above, once more those above for each that the inode doesn't name, each block but the holes and those that are written whole, the inode's sector, and what runs and other sectors taken read in the bitmap | `k`, the inode's sector, the bitmap's for each run and each other sector taken, the sector of pointers for each run and each other number that it gets, and once more where it is new |
//! | [`overwrite`] | the sector of pointers if the block is past the first 12, and the block unless it is written whole | 1 |
//! | [`set_size`] | the inode's sector; where it cuts, the block that the cut goes through but a hole, and its sector of pointers; and where fewer blocks are left, each sector of pointers from the cut on, those that the cut goes through once more, and the bitmap's for each sector given back | the inode's sector; where it cuts, the block that the cut goes through but a hole; and where fewer blocks are left, each sector of pointers that the cut goes through, and the bitmap's for each sector given back |
//! | [`release_all`] | the sectors of pointers, the inode's sector, and the bitmap's for each sector given back | the inode's sector, and the bitmap's for each sector given back |
//! | [`new_link`] | the inode bitmap, the inode's sector, and what a sector taken reads in the bitmap | the inode bitmap, the inode's sector, the target's, and the bitmap's |
//! | [`free_all`] | the inode's sector twice, the inode bitmap, the sectors of pointers, and the bitmap's for each sector given back | the inode bitmap, the inode's sector, and the bitmap's for each sector given back |
#![tactic(auto)]

mod blocks;
mod fault;
mod link;
mod read;
mod release;
mod size;
mod steps;
mod write;

pub use blocks::Blocks;
pub use fault::MapFault;
pub use link::new_link;
pub use read::read_at;
pub use release::{free_all, release_all};
pub use size::set_size;
pub use write::{MAX_WRITE, overwrite, write_at};
