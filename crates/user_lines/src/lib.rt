//! Lines about users, of one second as many as it may have of one user, and of all.
//!
//! `specs/` says which lines are written, and how it is told how many are left out.
#![tactic(auto)]

mod file;
mod list;
mod second;
#[cfg(test)]
mod tests;

pub use list::UserLines;
