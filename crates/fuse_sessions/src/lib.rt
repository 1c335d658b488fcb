//! A server of a kernel's requests at work: what a [`Session`] does for many of them on whatever answers events.
//!
//! It makes the credential of who asks, looks at objects and names as the server, and finds who counts.
//! `fuse_requests` performs the plan of each request by that.
#![tactic(auto)]

mod credential;
mod due;
pub mod listing;
mod names;
mod nobody;
mod object;
mod own;
mod removed;
mod session;
mod times;

pub use credential::credential_of;
pub use own::Own;
pub use session::Session;
