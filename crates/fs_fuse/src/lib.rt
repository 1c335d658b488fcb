//! Serves the kernel's requests of FUSE from a file system.
#![tactic(auto)]

mod laws;
mod mounted;
mod serving;

pub use laws::what_is_carried_out_is_served;
pub use serving::serve_requests;
