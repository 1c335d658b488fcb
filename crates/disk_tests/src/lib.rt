//! Tests of disks, of the journal on them and of the transactions on that, over what these crates offer to all.
#![tactic(auto)]

#[cfg(test)]
mod tests;
