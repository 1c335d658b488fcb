//! What a tree is copied to, or from.
ghost use Rattle.std.specs.Prelude.{IsTrue};
ghost use Rattle.fs_model.specs.Steps.{is_of_machine};

use fs_model::{Event, Reply};

/// A file system as who copies a tree asks it: it answers one event after another.
pub trait FileSystem {
    ghost use Rattle.fs_model.specs.declared.event.Event.{Event};
    ghost use Rattle.fs_model.specs.declared.reply.Reply.{Reply};

    /// From one state to another by an event with its reply.
    ghost Serves: { Self → Event → Reply → Self → Type 0 };

    /// The reply to an event that is not the disk's.
    fn serve(&mut self, event: &Event) -> Reply
        requires { IsTrue (is_of_machine event.now) }
        ensures { Serves self.old event.now result self.new };
}
