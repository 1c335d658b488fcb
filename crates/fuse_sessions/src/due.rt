//! What is due: after so many seconds all that was done is made to last.
ghost use Rattle.std.specs.Prelude.{◌≡◌, Ok};
ghost use Rattle.fuse_plans.specs.Serving.{is_due, keep_due};
ghost use Rattle.fuse_sessions.specs.Performing.{Did};

use crate::session::Session;
use fs_model::Event;
use fuse_protocol::Time;
use fuse_state::Server;
use fuse_steps::Machine;
use fuse_steps::asker::ask;

// Whether so many seconds have passed since the server itself made all last, or the clock was set back.
fn is_due(server: &Server, now: Time) -> bool
    ensures { result ≡ is_due server.now.server now }
{
    let commit = u64::from(server.settings().commit);
    let kept = server.kept_at().seconds;
    commit > 0 && (now.seconds < kept || now.seconds - kept >= commit)
}

impl<M: Machine> Session<M> {
    /// All that was done is made to last, where that is due at this time. The reply doesn't count.
    pub fn keep_due(&mut self, now: Time)
        ensures { Did M.Serves (keep_due now) self.old self.new (Ok tt) }
    {
        if !is_due(&self.server, now) {
            return;
        }
        ask(&mut self.machine, &Event::Sync).discard();
        self.server.note_kept(now);
    }
}
