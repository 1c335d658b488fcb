//! Tests of what an image, its rules and the requests of a kernel are written in: access control lists and their texts,
//! credentials and decisions, the bytes of each structure, and those of requests and replies.
#![tactic(auto)]

#[cfg(test)]
mod tests;
