//! The tests by their subjects.

mod cutting;
mod directories;
mod listings;
mod serving;
mod sessions;
mod state;
mod streams;
mod times;
