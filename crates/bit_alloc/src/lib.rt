//! The numbers that the two bitmaps of a disk keep: inodes, and data sectors.
//!
//! A bitmap is a set of numbers. [`take`] adds one that the set lacks and [`take_all`] several, [`give`] and [`give_all`] take them out,
//! [`is_taken`] asks for one, and [`count_free`] and [`has_free`] count those that the set lacks. [`first_clear`] is the search in
//! one sector. No call takes memory.
//!
//! So many of a bitmap's sectors each call reads and puts. In a bitmap of more than 16 a search passes those by that were full lately:
//! it leaves hints of them.
//!
//! | Call | `get` | `put` |
//! |---|---|---|
//! | [`take`] | those from that of `near` on, round to the first that isn't full, or all | 1; none where no number is taken |
//! | [`take_all`] | so, until it has all | 1 for all in one sector |
//! | [`give`] | 1 | 1; none where the read fails |
//! | [`give_all`] | 1 for those that follow one another in one sector | as many |
//! | [`is_taken`] | 1 | 0 |
//! | [`count_free`] | all | 0 |
//! | [`has_free`] | those up to the one in which it has found enough, or all | 0 |
#![tactic(auto)]

mod bitmap;
mod bits;
mod laws;
mod search;

pub use bitmap::{
    Bitmap, TakeFault, count_free, give, give_all, has_free, is_taken, take, take_all,
};
pub use bits::first_clear;
pub use laws::{
    calls_join, consistent_maps_are_sound, inodes_take_no_sector, soundness_is_kept,
    spare_at_first, spare_is_left,
};
