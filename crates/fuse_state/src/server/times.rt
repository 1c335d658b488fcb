//! Times of objects.
ghost use Rattle.std.specs.Prelude.{◌≡◌, ◌+◌, ◌≤◌};
ghost use Rattle.fuse_state.specs.Servers.{times_of, with_times_of, with_new_contents, with_change_time};

use super::Server;
use crate::times::Times;
use fuse_protocol::Time;

impl Server {
    /// The times of an object: when the server began, where no others are known.
    pub fn times_of(&self, ino: u32) -> Times
        ensures { result ≡ times_of self.now.server ino }
    {
        let start = self.settings.start;
        self.times.get(u64::from(ino)).copied().unwrap_or(Times {
            atime: start,
            mtime: start,
            ctime: start,
        })
    }

    /// An object has these times, where the disk keeps none.
    pub fn set_times(&mut self, ino: u32, times: Times)
        requires { 1 ≤ self.old.room }
        ensures kept { self.new.server ≡ with_times_of ino times self.old.server }
        ensures room { self.old.room ≤ self.new.room + 1 }
    {
        if self.settings.keeps_times {
            return;
        }
        self.times.put(u64::from(ino), times);
        self.room -= 1;
    }

    /// The contents of an object have changed.
    pub fn touch(&mut self, now: Time, ino: u32)
        requires { 1 ≤ self.old.room }
        ensures kept { self.new.server ≡ with_new_contents now ino self.old.server }
        ensures room { self.old.room ≤ self.new.room + 1 }
    {
        let times = self.times_of(ino);
        self.set_times(
            ino,
            Times {
                mtime: now,
                ctime: now,
                ..times
            },
        );
    }

    /// Something else of an object has changed.
    pub fn change(&mut self, now: Time, ino: u32)
        requires { 1 ≤ self.old.room }
        ensures kept { self.new.server ≡ with_change_time now ino self.old.server }
        ensures room { self.old.room ≤ self.new.room + 1 }
    {
        let times = self.times_of(ino);
        self.set_times(
            ino,
            Times {
                ctime: now,
                ..times
            },
        );
    }
}
