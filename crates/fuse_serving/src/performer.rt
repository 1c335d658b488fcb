//! What performs the plans of requests.
ghost use Rattle.std.specs.Prelude.{◌≡◌, true, Some, Ok, IfOk, OnErr};
ghost use Rattle.fuse_plans.specs.Nobody.{who_counts};
ghost use Rattle.fuse_plans.specs.Plans.{CarriesOut};
ghost use Rattle.fuse_plans.specs.Serving.{answered, asked_for, keep_due};

use fuse_plans::{Asked, Response, WhoCounts};
use fuse_protocol::{Operation, Time};
use posix_acl::Acl;
use std::alloc::AllocError;

/// Performs the plans of requests on a machine, and keeps what a server does.
pub trait Performer {
    ghost use Rattle.fs_model.specs.declared.event.Event.{Event};
    ghost use Rattle.fs_model.specs.declared.reply.Reply.{Reply};
    ghost use Rattle.fuse_state.specs.Servers.{Server};

    /// What is asked.
    type Machine;

    /// The state of what is asked.
    ghost machine: { Self → Self.Machine };

    /// From one state of it to another by an event with its reply.
    ghost Serves: { Self.Machine → Event → Reply → Self.Machine → Type 0 };

    /// What is kept.
    ghost server: { Self → Server };

    /// Whether it was told to end.
    fn is_ended(&self) -> bool
        ensures { result ≡ (server self.now).ended };

    /// Makes all last that was done, where that is due at this time.
    fn keep_due(&mut self, now: Time)
        ensures { CarriesOut Serves (keep_due now (server self.old))
            (machine self.old) (machine self.new) (Ok tt, server self.new) };

    /// Who counts where this user asks for an operation of this node. Nothing changes of what is kept.
    fn who_counts(&mut self, node: u64, uid: u32, operation: &Operation<'_>) -> WhoCounts
        ensures decided { CarriesOut Serves (who_counts node uid operation.now (server self.old))
            (machine self.old) (machine self.new) result }
        ensures kept { server self.new ≡ server self.old };

    /// Performs the plan of an operation, with the ACL that the value of an attribute says. Where memory is lacking for what the
    /// plan adds, nothing is asked and nothing changes.
    fn perform(
        &mut self,
        asked: Asked,
        value: Option<Option<Acl>>,
        operation: &Operation<'_>,
    ) -> Result<Response, AllocError>
        ensures performed { IfOk result (λ response.
            CarriesOut Serves (answered true (asked_for asked value (Some operation.now)) (server self.old))
            (machine self.old) (machine self.new) (response, server self.new)) }
        ensures machine { OnErr result (machine self.new ≡ machine self.old) }
        ensures kept { OnErr result (server self.new ≡ server self.old) };
}
