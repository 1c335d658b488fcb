//! A server at work on a file system.
ghost use Rattle.std.specs.Prelude.{◌≡◌, IfOk, MatchResult};
ghost use Rattle.fuse_state.specs.Servers.{new_server};

use crate::own::Own;
use fuse_state::{Server, Settings};
use fuse_steps::Machine;
use std::alloc::Global;
use std::mem;

/// A file system, and what is kept of the requests for it.
#[derive(Drop)]
pub struct Session<M> {
    /// Where memory comes from.
    pub alloc: Global,
    /// The file system.
    pub machine: M,
    /// The server as one who calls.
    pub own: Own,
    /// What is kept of the requests.
    pub server: Server,
}

impl<M: Machine> Session<M> {
    /// A session on a file system. Where memory is lacking the file system comes back.
    pub fn new(alloc: Global, machine: M, settings: Settings) -> Result<Session<M>, M>
        ensures machine { MatchResult result (λ session. session.machine ≡ machine) (λ back. back ≡ machine) }
        ensures server { IfOk result (λ session. session.server.server ≡ new_server settings) }
    {
        match Own::new(alloc) {
            Ok(own) => Ok(Session {
                alloc,
                machine,
                own,
                server: Server::new(alloc, settings),
            }),
            Err(_) => Err(machine),
        }
    }

    /// Whether it was told to end.
    pub fn is_ended(&self) -> bool
        ensures { result ≡ self.now.server.server.ended }
    {
        self.server.is_ended()
    }

    /// The file system, once no more requests are served.
    pub fn into_machine(self) -> M
        ensures { result ≡ self.machine }
    {
        mem::drop(self.server);
        self.machine
    }
}
