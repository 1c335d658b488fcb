//! What requests for names change.
ghost use Rattle.std.specs.Prelude.{◌≡◌, ◌+◌, ◌≤◌};
ghost use Rattle.fuse_state.specs.Changes.{with_new_object, changed_if, removed, moved, linked, opened_or_made};

use super::Server;
use crate::removed::RemovedDirectory;
use crate::times::Times;
use fuse_protocol::Time;

impl Server {
    // The object that had a name changes, if there was one.
    fn change_if(&mut self, now: Time, ino: Option<u32>)
        requires { 1 ≤ self.old.room }
        ensures kept { self.new.server ≡ changed_if now ino self.old.server }
        ensures room { self.old.room ≤ self.new.room + 1 }
    {
        if let Some(ino) = ino {
            self.change(now, ino);
        }
    }

    /// A new object of a directory has the inode.
    pub fn note_made(&mut self, now: Time, dir_ino: u32, ino: u32)
        requires { 3 ≤ self.old.room }
        ensures kept { self.new.server ≡ with_new_object now dir_ino ino self.old.server }
        ensures room { self.old.room ≤ self.new.room + 3 }
    {
        self.add_generation(ino);
        self.set_times(
            ino,
            Times {
                atime: now,
                mtime: now,
                ctime: now,
            },
        );
        self.touch(now, dir_ino);
    }

    /// A name of a directory was removed: that of this object, if there was one. What was a directory may be open still.
    pub fn note_removed(
        &mut self,
        now: Time,
        dir_ino: u32,
        gone: Option<u32>,
        last: Option<RemovedDirectory>,
    )
        requires { 3 ≤ self.old.room }
        ensures kept { self.new.server ≡ removed now dir_ino gone last self.old.server }
        ensures room { self.old.room ≤ self.new.room + 3 }
    {
        self.change_if(now, gone);
        self.touch(now, dir_ino);
        self.note_removed_directory(last);
    }

    /// A name was moved from one directory to another, or within one. It was that of this object, and replaced that of another, where
    /// there are such. What was replaced and was a directory may be open still.
    pub fn note_moved(
        &mut self,
        now: Time,
        old_dir_ino: u32,
        new_dir_ino: u32,
        object: Option<u32>,
        replaced: Option<u32>,
        last: Option<RemovedDirectory>,
    )
        requires { 5 ≤ self.old.room }
        ensures kept { self.new.server ≡ moved now old_dir_ino new_dir_ino object replaced last self.old.server }
        ensures room { self.old.room ≤ self.new.room + 5 }
    {
        self.change_if(now, replaced);
        self.change_if(now, object);
        self.touch(now, old_dir_ino);
        self.touch(now, new_dir_ino);
        self.note_removed_directory(last);
    }

    /// An object got one more name, in this directory.
    pub fn note_linked(&mut self, now: Time, dir_ino: u32, ino: u32)
        requires { 2 ≤ self.old.room }
        ensures kept { self.new.server ≡ linked now dir_ino ino self.old.server }
        ensures room { self.old.room ≤ self.new.room + 2 }
    {
        self.change(now, ino);
        self.touch(now, dir_ino);
    }

    /// What was opened by a name of a directory is new, or has lost its bytes, or is as it was.
    pub fn note_opened(&mut self, now: Time, dir_ino: u32, ino: u32, is_new: bool, is_cut: bool)
        requires { 3 ≤ self.old.room }
        ensures kept { self.new.server ≡ opened_or_made now dir_ino ino is_new is_cut self.old.server }
        ensures room { self.old.room ≤ self.new.room + 3 }
    {
        if is_new {
            self.note_made(now, dir_ino, ino);
            return;
        }
        if is_cut {
            self.touch(now, ino);
        }
    }
}
