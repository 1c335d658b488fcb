//! What a system shows of its processes.
ghost use Rattle.std.specs.Prelude.{◌≤◌, length, take, IfOk};
ghost use Rattle.std.specs.Path.{path_buf_bytes};
ghost use Rattle.fuse_serving.specs.Processes.Showing.{Status, Users, OwnUsers};

use std::alloc::Global;
use std::io;
use std::path::PathBuf;

/// Shows processes, as proc(5) does.
pub trait Processes {
    ghost use Rattle.fuse_serving.specs.Processes.{Showing};

    /// From one state to another by what is shown.
    ghost Shows: { Self → Showing → Self → Type 0 };

    /// How many bytes the status of a process has, which then stand at the front of the room; of a long status the front.
    fn read_status(&mut self, pid: u32, room: &mut Vec<u8>) -> io::Result<usize>
        ensures shows { IfOk result (λ size. Shows self.old (Status pid (take size room.new.items)) self.new) }
        ensures fits { IfOk result (λ size. size ≤ length room.new.items) };

    /// The name of the user namespace that a process is in.
    fn users(&mut self, pid: u32) -> io::Result<PathBuf<Global>>
        ensures { IfOk result (λ name. Shows self.old (Users pid (path_buf_bytes name)) self.new) };

    /// The name of that of the server.
    fn own_users(&mut self) -> io::Result<PathBuf<Global>>
        ensures { IfOk result (λ name. Shows self.old (OwnUsers (path_buf_bytes name)) self.new) };
}
