//! Tests of a server of the kernel's requests: what it keeps between them, and what passes between the kernel and it.
#![tactic(auto)]

#[cfg(test)]
mod tests;
