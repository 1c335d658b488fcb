//! The server as one who calls.
ghost use Rattle.std.specs.Prelude.{◌≡◌, IfOk};
ghost use Rattle.fuse_plans.specs.Callers.{actor_in, server_credential};

use fs_cred::Cred;
use fs_model::Actor;
use fuse_steps::asker::actor_in;
use std::alloc::{AllocError, Global};
use std::marker::Model;

/// The server as an actor: user 0, with all capabilities. Contracts see the actor.
#[derive(Drop)]
pub struct Own {
    actor: Actor,
}

impl Model for Own {
    ghost use Rattle.std.specs.Prelude.{◌≡◌};
    ghost use Rattle.fs_model.specs.declared.event.Actor.{Actor};
    ghost use Rattle.fuse_plans.specs.Callers.{server_credential};

    ghost Value = { Actor };

    ghost view = { λ own. own.actor };

    ghost invariant = { λ own. (own.actor.cred ≡ server_credential) × (own.actor.umask ≡ 0) };
}

impl Own {
    /// The server, at no object.
    pub fn new(alloc: Global) -> Result<Own, AllocError> {
        match Cred::new(alloc, 0, 0, &[]) {
            Ok(cred) => Ok(Own {
                actor: actor_in(cred, 0),
            }),
            Err(_) => Err(AllocError),
        }
    }

    /// From now on paths start at this object.
    pub fn stand_at(&mut self, ino: u32)
        ensures { self.new ≡ actor_in server_credential ino }
    {
        self.actor.start = ino;
        self.actor.second_start = ino;
    }

    /// Who calls.
    pub fn actor(&self) -> &Actor
        ensures { result.now ≡ self.now }
    {
        &self.actor
    }
}
