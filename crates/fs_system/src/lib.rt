//! The file system: processes and their calls on a tree that a disk stands for.
#![tactic(auto)]

mod answering;
mod base;
mod calls;
mod counted;
mod faults;
mod fs;
mod laws;
mod playing;
mod stamping;
mod stored;
mod sweeping;

pub use faults::{MountFault, PlayFault};
pub use fs::Fs;
pub use fs_images::{MkfsFault, UpgradeFault, mkfs, upgrade};
pub use laws::{
    a_running_system_is_in_one_state, histories_are_runs, trees_are_sound,
    unreadable_bytes_do_not_show,
};
pub use playing::play;
