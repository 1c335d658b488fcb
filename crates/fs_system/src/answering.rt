//! What a file system answers to an event, whichever it is.

ghost use Rattle.std.specs.Prelude.{◌≡◌, ◌∷◌, [], Ok, IsTrue};
ghost use Rattle.fs_model.specs.Steps.{is_of_machine};
ghost use Rattle.fs_model.specs.declared.event.Event.TheVariants.{Call as Calls, CallAt, CallBy};
ghost use Rattle.fs_model.specs.declared.event.HandleCall.TheVariants.{Write as WriteAt};
ghost use Rattle.fs_model.specs.declared.event.EventReply.TheVariants.{Reply as Replies};
ghost use Rattle.fs_system.specs.Doing.{Happens};
ghost use Rattle.fs_system.specs.Playing.{Plays};
ghost use Rattle.fs_system.specs.Mounting.{LeavesHalted};
ghost use Rattle.fs_system.specs.Replies.{spawned, finished, counted, stamped_reply};

use crate::fs::Fs;
use fs_cred::{Errno, Refusal};
use fs_model::{Actor, Call, Event, HandleCall, Reply, Stamps};
use sector_disk::Disk;

// The reply to spawn.
fn spawned(outcome: Result<usize, Errno>) -> Reply
    ensures { result ≡ spawned outcome }
{
    match outcome {
        Ok(pid) => Reply::Pid(pid),
        Err(errno) => Reply::Refused(Refusal::Failed(errno)),
    }
}

// The reply to exit, clock, fsync and sync.
fn finished(outcome: Result<(), Errno>) -> Reply
    ensures { result ≡ finished outcome }
{
    match outcome {
        Ok(()) => Reply::Done,
        Err(errno) => Reply::Refused(Refusal::Failed(errno)),
    }
}

// The reply to statfs.
fn counted(outcome: Result<(u32, u32), Errno>) -> Reply
    ensures { result ≡ counted outcome }
{
    match outcome {
        Ok((sectors, inodes)) => Reply::Space { sectors, inodes },
        Err(errno) => Reply::Refused(Refusal::Failed(errno)),
    }
}

// The reply to stamp.
fn stamped(outcome: Result<Stamps, Errno>) -> Reply
    ensures { result ≡ stamped_reply outcome }
{
    match outcome {
        Ok(stamps) => Reply::Stamped(stamps),
        Err(errno) => Reply::Refused(Refusal::Failed(errno)),
    }
}

impl<D: Disk + Drop> Fs<D> {
    /// The reply to an event that is not the disk's: all but arm and restart.
    ///
    /// It is that of the method for the event; a process gets a copy of the credential.
    pub fn answer(&mut self, event: &Event) -> Reply
        requires { IsTrue (is_of_machine event.now) }
        ensures does { Happens D.state self.old self.new event.now result }
        ensures halted { LeavesHalted self.old self.new }
    {
        match event {
            Event::Spawn(cred) => spawned(self.spawn_copy(cred)),
            Event::Exit(pid) => finished(self.exit(*pid)),
            Event::Call(pid, call) => self.call(*pid, call),
            Event::CallAt(actor, call) => self.call_at(actor, call),
            Event::CallBy(handle, call) => self.call_by(*handle, call),
            Event::Stamp {
                ino,
                atime,
                mtime,
                ctime,
            } => stamped(self.stamp(*ino, *atime, *mtime, *ctime)),
            Event::Clock(now) => finished(self.tell_time(*now)),
            Event::Fsync { pid, fd } => finished(self.fsync(*pid, *fd)),
            Event::Sync => finished(self.sync()),
            Event::Statfs => counted(self.statfs()),
            Event::Arm(_) | Event::Restart { .. } => unreachable!(),
        }
    }

    /// Lets the disk forget its past, and then answers an event that is not the disk's.
    pub fn serve(&mut self, event: &Event) -> Reply
        requires { IsTrue (is_of_machine event.now) }
        ensures { Plays D.state (Ok self.old) (event.now ∷ []) (Replies result ∷ []) (Ok self.new) }
    {
        self.forget();
        self.answer(event)
    }

    /// Lets the disk forget its past, and then answers a call of a process.
    pub fn serve_call(&mut self, pid: usize, call: &Call) -> Reply
        ensures { Plays D.state (Ok self.old) (Calls pid call.now ∷ []) (Replies result ∷ []) (Ok self.new) }
    {
        self.forget();
        self.call(pid, call)
    }

    /// Lets the disk forget its past, and then answers a call of an actor.
    pub fn serve_call_at(&mut self, actor: &Actor, call: &Call) -> Reply
        ensures { Plays D.state (Ok self.old) (CallAt actor.now call.now ∷ []) (Replies result ∷ []) (Ok self.new) }
    {
        self.forget();
        self.call_at(actor, call)
    }

    /// Lets the disk forget its past, and then does what is asked by a handle.
    pub fn serve_call_by(&mut self, handle: u64, call: &HandleCall) -> Reply
        ensures { Plays D.state (Ok self.old) (CallBy handle call.now ∷ []) (Replies result ∷ []) (Ok self.new) }
    {
        self.forget();
        self.call_by(handle, call)
    }

    /// Lets the disk forget its past, and then writes bytes that are lent by a handle.
    pub fn serve_write_by(&mut self, handle: u64, offset: u64, bytes: &[u8]) -> Reply
        ensures { Plays D.state (Ok self.old) (CallBy handle (WriteAt offset bytes.now) ∷ []) (Replies result ∷ []) (Ok self.new) }
    {
        self.forget();
        self.write_by(handle, offset, bytes)
    }
}
