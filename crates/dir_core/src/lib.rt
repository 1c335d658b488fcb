//! Directories: a directory is a finite map from names to inode numbers.
//!
//! Names are as long, and as many, as the disk's version allows ([`fs_layout::Version`]); so are slots, and a block has two or four.
//!
//! What each call reads and puts, in a directory of `k` blocks. The pointers to a block are none for the first 12, and else the sector
//! of pointers that has its number; past the first 140, which only a directory of version 3 reaches, the double indirect sector too.
//! They are read once for blocks that have the same ones, one after the other:
//!
//! | Call | `get` | `put` |
//! |---|---|---|
//! | [`lookup`] | the blocks up to the one with the name, each of `k` where it is absent, and the pointers to them | 0 |
//! | [`list`] | each of the blocks, and the pointers to them | 0 |
//! | [`is_empty`] | 0 | 0 |
//! | [`insert`] | as [`lookup`]; then as [`insert_new`] | as [`insert_new`] |
//! | [`insert_new`] | the block of the new slot unless it is new, the pointers to it unless the sector of pointers is new, the inode's sector, and the bitmap's for each sector taken; past the first 140 the double indirect sector once more | the block, the inode's sector, and the bitmap's for each sector taken; the sector of pointers where it gets the block, and once more where it is new; the double indirect sector where it gets the sector of pointers, and once more where it is new |
//! | [`remove`] | as [`lookup`]; then, unless the name's slot is the last, the last block and the name's, each with the pointers to it; then as [`block_map::set_size`] | the name's block, unless its slot is the last; then as [`block_map::set_size`] |
//! | [`replace`] | as [`lookup`]; then the block, and the pointers to it | 1 |
//! | [`rename`] | as [`replace`] | 1 |
//!
//! Where `k` is above 1, a name that was found lately is looked for first in the block where it was: then [`lookup`] reads that
//! block alone, and the pointers to it. Where the name has left the block, both are read beside the others.
#![tactic(auto)]

mod fault;
mod names;

pub use fault::DirFault;
pub use names::{insert, insert_new, is_empty, list, lookup, remove, rename, replace};
