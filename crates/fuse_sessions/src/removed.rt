//! Directories that were removed, and may be open still.
ghost use Rattle.std.specs.Prelude.{◌≡◌};
ghost use Rattle.fuse_plans.specs.RemovedPlans.{is_directory_type, last_shown, removed_instead};
ghost use Rattle.fuse_sessions.specs.Performing.{Did};

use crate::session::Session;
use fs_model::{FileType, Status};
use fuse_plans::{RequestError, Tried};
use fuse_protocol::Time;
use fuse_state::RemovedDirectory;
use fuse_steps::Machine;
use fuse_steps::times::times_in;

// Whether it is a directory.
fn is_directory(kind: FileType) -> bool
    ensures { result ≡ is_directory_type kind }
{
    matches!(kind, FileType::Directory)
}

impl<M: Machine> Session<M> {
    /// What is shown of a directory once it is removed; of anything else nothing.
    pub fn last_shown(&mut self, now: Time, seen: Option<Status>) -> Tried<Option<RemovedDirectory>>
        ensures did { Did M.Serves (last_shown now seen) self.old self.new result }
        ensures kept { self.new.server ≡ self.old.server }
    {
        let Some(status) = seen else {
            return Ok(None);
        };
        if is_directory(status.kind) {
            let stamps = self.told_stamps(status.ino)?;
            let times = times_in(&self.server, status.ino, stamps);
            return Ok(Some(RemovedDirectory::new(now, status, times)));
        }
        Ok(None)
    }

    /// What is shown of a directory that was removed, where its node leads to nothing else.
    pub fn removed_instead(&self, node: u64, error: RequestError) -> Tried<RemovedDirectory>
        ensures { Did M.Serves (removed_instead node error) self.now self.now result }
    {
        if error.is_stale() {
            return self.server.removed_directory_of(node).ok_or(error);
        }
        Err(error)
    }
}
