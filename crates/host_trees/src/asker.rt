//! What is asked of a file system, and whether all of it was done.
ghost use Rattle.std.specs.Prelude.{◌≡◌, ◌&&◌, OnErr, true, false, IsTrue};
ghost use Rattle.fs_model.specs.Steps.{is_of_machine};
ghost use Rattle.fs_model.specs.declared.event.Event.TheVariants as events;
ghost use Rattle.host_trees.specs.Copies.{AsksOne, OnlyTells, is_done, is_so_long, is_whole};

use crate::fault::Copied;
use crate::file_system::FileSystem;
use crate::lack::{Lack, lack_in, tell};
use fs_model::{Call, Event, Reply};
use std::io::Write;

/// Who copies a tree: it asks the file system, and keeps in mind whether anything is lacking.
#[derive(Drop)]
pub(crate) struct Asker<M> {
    pub(crate) machine: M,
    pub(crate) is_whole: bool,
}

// Whether an event is a write of so many bytes.
fn is_so_long(event: &Event, size: usize) -> bool
    ensures { result ≡ is_so_long event.now size }
{
    match event {
        Event::Call(_, Call::Write(_, bytes)) => bytes.bytes().len() == size,
        _ => false,
    }
}

// Whether the reply says that all was done that was asked for.
fn is_done(event: &Event, reply: &Reply) -> bool
    ensures { result ≡ is_done event.now reply.now }
{
    match reply {
        Reply::Refused(_) => false,
        Reply::Wrote(size) => is_so_long(event, *size),
        _ => true,
    }
}

fn both(first: bool, second: bool) -> bool
    ensures { result ≡ (first && second) }
{
    first && second
}

impl<M> Asker<M> {
    /// Nothing has been asked yet, and nothing is lacking.
    pub(crate) fn new(machine: M) -> Asker<M>
        ensures machine { result.machine ≡ machine }
        ensures whole { result.is_whole ≡ true }
    {
        Asker {
            machine,
            is_whole: true,
        }
    }

    /// How much was copied.
    pub(crate) fn copied(&self) -> Copied
        ensures { is_whole result ≡ self.now.is_whole }
    {
        if self.is_whole {
            Copied::Whole
        } else {
            Copied::InPart
        }
    }

    /// The file system.
    pub(crate) fn into_machine(self) -> M
        ensures { result ≡ self.machine }
    {
        let Asker { machine, .. } = self;
        machine
    }

    /// Keeps in mind that something is lacking.
    pub(crate) fn lacks(&mut self)
        ensures machine { self.new.machine ≡ self.old.machine }
        ensures lacking { self.new.is_whole ≡ false }
    {
        self.is_whole = false;
    }
}

impl<M: FileSystem> Asker<M> {
    // The reply to an event, and whether all was done.
    fn ask(&mut self, event: &Event) -> (Reply, bool)
        requires { IsTrue (is_of_machine event.now) }
        ensures { AsksOne M.Serves event.now self.old.machine self.new.machine self.old.is_whole self.new.is_whole }
    {
        let reply = self.machine.serve(event);
        let done = is_done(event, &reply);
        self.is_whole = both(self.is_whole, done);
        (reply, done)
    }

    /// The reply to an event, where all was done that it asks for.
    pub(crate) fn obtain(&mut self, event: Event) -> Result<Reply, Lack>
        requires { IsTrue (is_of_machine event) }
        ensures { AsksOne M.Serves event self.old.machine self.new.machine self.old.is_whole self.new.is_whole }
    {
        let (reply, done) = self.ask(&event);
        event.discard();
        if done { Ok(reply) } else { Err(lack_in(reply)) }
    }

    /// The reply to a call of a process, where all was done that it asks for.
    pub(crate) fn call(&mut self, pid: usize, call: Call) -> Result<Reply, Lack>
        ensures { AsksOne M.Serves (events.Call pid call) self.old.machine self.new.machine self.old.is_whole self.new.is_whole }
    {
        self.obtain(Event::Call(pid, call))
    }

    /// Makes a call of a process whose reply says no more than that all was done.
    pub(crate) fn perform(&mut self, pid: usize, call: Call) -> Result<(), Lack>
        ensures { AsksOne M.Serves (events.Call pid call) self.old.machine self.new.machine self.old.is_whole self.new.is_whole }
    {
        self.call(pid, call)?.discard();
        Ok(())
    }
}

/// Names an object that is lacking, or of which something is.
pub(crate) fn name_lack<M: FileSystem, E: Write>(
    asker: &mut Asker<M>,
    err: &mut E,
    path: &str,
    lack: Lack,
)
    ensures told { OnlyTells asker.old.machine asker.new.machine asker.old.is_whole asker.new.is_whole err.old err.new }
    ensures lacking { asker.new.is_whole ≡ false }
{
    asker.lacks();
    tell(err, path, lack);
}

/// Names an object, if something of it is lacking.
pub(crate) fn name_if_lacking<M: FileSystem, E: Write>(
    asker: &mut Asker<M>,
    err: &mut E,
    path: &str,
    tried: Result<(), Lack>,
)
    ensures told { OnlyTells asker.old.machine asker.new.machine asker.old.is_whole asker.new.is_whole err.old err.new }
    ensures lacking { OnErr tried (asker.new.is_whole ≡ false) }
{
    match tried {
        Ok(()) => {}
        Err(lack) => name_lack(asker, err, path, lack),
    }
}
