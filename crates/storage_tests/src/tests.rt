//! The tests by their subjects.

mod bitmaps;
mod blocks;
mod directories;
mod inodes;
mod maps;
