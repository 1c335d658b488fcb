//! Directories that were removed, and may be open still.
ghost use Rattle.std.specs.Prelude.{◌≡◌};
ghost use Rattle.fuse_state.specs.Removed.{removed_directory};

use crate::times::Times;
use fs_model::Status;
use fuse_protocol::Time;

/// What stat(2) shows of a directory that was removed.
#[derive(Clone, Copy)]
pub struct RemovedDirectory {
    pub status: Status,
    pub times: Times,
}

impl RemovedDirectory {
    /// A directory of which this was shown is removed now. It has no name then, and its change time is the present one.
    pub fn new(now: Time, status: Status, times: Times) -> RemovedDirectory
        ensures { result ≡ removed_directory now status times }
    {
        RemovedDirectory {
            status: Status { links: 0, ..status },
            times: Times {
                ctime: now,
                ..times
            },
        }
    }
}
