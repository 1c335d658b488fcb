//! The kernel, as a server sees it.
ghost use Rattle.std.specs.Prelude.{◌≤◌, length, IfOk, IfSome};
ghost use Rattle.fuse_serving.specs.Exchanges.{read_of};
ghost use Rattle.fuse_serving.specs.Exchanges.Exchange.{Writes, Learns, SeesTime};

use crate::caller::Caller;
use fuse_protocol::Time;
use std::io;

/// Gives requests, takes replies, and tells what is known of who asks.
pub trait Kernel {
    ghost use Rattle.fuse_serving.specs.Exchanges.{Exchange};

    /// From one state to another by what passes.
    ghost Does: { Self → Exchange → Self → Type 0 };

    /// How many bytes the next request has, which then stand at the front of the buffer; none where no more come. A request
    /// is one read.
    fn read(&mut self, buffer: &mut [u8]) -> io::Result<Option<usize>>
        ensures does { IfOk result (λ size. Does self.old (read_of size buffer.new) self.new) }
        ensures fits { IfOk result (λ size. IfSome size (λ n. n ≤ length buffer.new)) };

    /// Whether the reply is taken: not where nobody waits for it any more. A reply is one write.
    fn write(&mut self, reply: &[u8]) -> io::Result<bool>
        ensures { IfOk result (λ taken. Does self.old (Writes reply.now taken) self.new) };

    /// What is known of the process with this number, as which this user with this group asks.
    fn caller(&mut self, pid: u32, uid: u32, gid: u32) -> Caller
        ensures { Does self.old (Learns pid uid gid result) self.new };

    /// The present time.
    fn now(&mut self) -> io::Result<Time>
        ensures { IfOk result (λ time. Does self.old (SeesTime time) self.new) };
}
