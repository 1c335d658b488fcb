//! What a server of the kernel's FUSE requests keeps between them: how often each number was given to a new object, times where
//! the disk keeps none, open directories, and what is shown of those that were removed.
//!
//! A [`Server`] asks for memory in one call alone, [`Server::prepare`]. What is added takes some of the room that it reserved.
#![tactic(auto)]

mod directory;
mod hash_table;
mod keeping;
mod laws;
mod removed;
mod server;
mod settings;
mod shares;
mod table;
mod times;

pub use directory::OpenDirectory;
pub use keeping::Keeping;
pub use laws::{nodes_lead_to_objects, shares_are_kept};
pub use removed::RemovedDirectory;
pub use server::{REQUEST_ROOM, Server};
pub use settings::Settings;
pub use shares::Shares;
pub use times::{Times, stamp_of, times_shown};
