//! Times: the present one, and those of objects, which the machine has where its disk keeps them.
ghost use Rattle.std.specs.Prelude.{◌≡◌, Ok};
ghost use Rattle.fuse_plans.specs.FilePlans.{when};
ghost use Rattle.fuse_plans.specs.Times.{tell_time, told_stamps};
ghost use Rattle.fuse_sessions.specs.Performing.{Did};

use crate::session::Session;
use fs_model::Stamps;
use fuse_plans::Tried;
use fuse_protocol::Time;
use fuse_state::Times;
use fuse_steps::Machine;
use fuse_steps::times::{tell_time, told_stamps};

impl<M: Machine> Session<M> {
    /// The machine is told the present time, where the disk keeps times.
    pub fn tell_time(&mut self, now: Time)
        ensures did { Did M.Serves (tell_time now) self.old self.new (Ok tt) }
        ensures kept { self.new.server ≡ self.old.server }
    {
        let keeps_times = self.server.settings().keeps_times;
        tell_time(&mut self.machine, keeps_times, now);
    }

    /// The machine is told the present time, if that is asked, where the disk keeps times.
    pub fn tell_time_if(&mut self, condition: bool, now: Time)
        ensures did { Did M.Serves (when condition (tell_time now)) self.old self.new (Ok tt) }
        ensures kept { self.new.server ≡ self.old.server }
    {
        if condition {
            self.tell_time(now);
        }
    }

    /// The times that the machine has for an object, where the disk keeps times.
    pub fn told_stamps(&mut self, ino: u32) -> Tried<Option<Stamps>>
        ensures did { Did M.Serves (told_stamps ino) self.old self.new result }
        ensures kept { self.new.server ≡ self.old.server }
    {
        let keeps_times = self.server.settings().keeps_times;
        told_stamps(&mut self.machine, keeps_times, ino)
    }
}
