//! What events are asked of.
ghost use Rattle.std.specs.Prelude.{IsTrue};
ghost use Rattle.fs_model.specs.Steps.{is_of_machine};
ghost use Rattle.fs_model.specs.declared.event.Event.TheVariants.{CallAt, CallBy};
ghost use Rattle.fs_model.specs.declared.event.HandleCall.TheVariants.{Write};

use fs_model::{Actor, Call, Event, HandleCall, Reply};

/// A file system as a server asks it: it answers one event after another.
pub trait Machine {
    ghost use Rattle.fs_model.specs.declared.event.Event.{Event};
    ghost use Rattle.fs_model.specs.declared.reply.Reply.{Reply};

    /// From one state to another by an event with its reply.
    ghost Serves: { Self → Event → Reply → Self → Type 0 };

    /// The reply to an event that is not the disk's.
    fn serve(&mut self, event: &Event) -> Reply
        requires { IsTrue (is_of_machine event.now) }
        ensures { Serves self.old event.now result self.new };

    /// The reply to a call of an actor.
    fn call_at(&mut self, actor: &Actor, call: &Call) -> Reply
        ensures { Serves self.old (CallAt actor.now call.now) result self.new };

    /// The reply to a call by the handle with this number.
    fn call_by(&mut self, handle: u64, call: &HandleCall) -> Reply
        ensures { Serves self.old (CallBy handle call.now) result self.new };

    /// The reply to a write by the handle with this number. Its bytes are lent.
    fn write_by(&mut self, handle: u64, offset: u64, bytes: &[u8]) -> Reply
        ensures { Serves self.old (CallBy handle (Write offset bytes.now)) result self.new };
}
