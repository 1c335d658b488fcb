//! The tests by their subjects.

mod acls;
mod credentials;
mod decisions;
mod geometries;
mod headers;
mod hex;
mod kernel_replies;
mod layout;
mod requests;
