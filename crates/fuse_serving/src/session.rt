//! A session performs the plans of requests.

use crate::performer::Performer;
use fuse_plans::{Asked, Response, WhoCounts};
use fuse_protocol::{Operation, Time};
use fuse_requests::perform;
use fuse_sessions::Session;
use fuse_steps::Machine;
use posix_acl::Acl;
use std::alloc::AllocError;

impl<M: Machine> Performer for Session<M> {
    type Machine = M;

    ghost machine = { λ session. session.machine };

    ghost Serves = { M.Serves };

    ghost server = { λ session. session.server.server };

    fn is_ended(&self) -> bool {
        self.is_ended()
    }

    fn keep_due(&mut self, now: Time) {
        self.keep_due(now);
    }

    fn who_counts(&mut self, node: u64, uid: u32, operation: &Operation<'_>) -> WhoCounts {
        self.who_counts(node, uid, operation)
    }

    fn perform(
        &mut self,
        asked: Asked,
        value: Option<Option<Acl>>,
        operation: &Operation<'_>,
    ) -> Result<Response, AllocError> {
        perform(self, asked, value, operation)
    }
}
