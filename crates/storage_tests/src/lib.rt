//! Tests of what stands in the sectors of a map, over what these crates offer to all: the two bitmaps, inodes with their ACLs, the
//! bytes that they hold, and directories; and of how many sectors each call reads and puts.
#![tactic(auto)]

#[cfg(test)]
mod tests;
