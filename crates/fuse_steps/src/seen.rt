//! What stat(2) shows, and what was opened or made.
ghost use Rattle.std.specs.Prelude.{◌≡◌, ℕ, List, Some, Err, MatchResult};
ghost use Rattle.fs_model.specs.declared.call.Call.TheVariants.{Lstat};
ghost use Rattle.fuse_plans.specs.Callers.{actor_in, look_inside};
ghost use Rattle.fuse_plans.specs.RemovedPlans.{status_seen};
ghost use Rattle.fuse_plans.specs.Works.{of_result, replied_status, replied_opened, replied_number};
ghost use Rattle.fuse_steps.specs.Performing.{DidByMachine};

use crate::asker::inside;
use crate::machine::Machine;
use crate::replies::{number_of_reply, opened_of_reply, status_of_reply};
use fs_model::{Actor, Call, Path, Reply, Status};
use fuse_plans::{RequestError, Tried};

/// What stat(2) shows, in a reply that may be a refusal.
pub fn shown(reply: Tried<Reply>) -> Tried<Status>
    ensures { MatchResult reply (λ shown. replied_status shown ≡ of_result result) (λ error. result ≡ Err error) }
{
    match reply {
        Ok(reply) => {
            let status = status_of_reply(&reply);
            reply.discard();
            match status {
                Some(status) => Ok(status),
                None => Err(RequestError::EIO),
            }
        }
        Err(error) => Err(error),
    }
}

/// The handle of what was opened, and its inode.
pub fn replied_opened(reply: Reply) -> Tried<(u64, u32)>
    ensures { replied_opened reply ≡ of_result result }
{
    let opened = opened_of_reply(&reply);
    reply.discard();
    match opened {
        Some(opened) => Ok(opened),
        None => Err(RequestError::EIO),
    }
}

/// The inode of what was made.
pub fn replied_number(reply: Reply) -> Tried<u32>
    ensures { replied_number reply ≡ of_result result }
{
    let ino = number_of_reply(&reply);
    reply.discard();
    match ino {
        Some(ino) => Ok(ino),
        None => Err(RequestError::EIO),
    }
}

/// The name that was looked at.
pub(crate) fn name_looked_at(call: Call) -> Option<Path>
    ensures { (name : List ℕ) → call ≡ Lstat name → result ≡ Some name }
{
    match call {
        Call::Lstat(name) => Some(name),
        other => {
            other.discard();
            None
        }
    }
}

/// What stat(2) shows of a name in a directory. The name comes back.
pub fn look_inside<M: Machine>(machine: &mut M, actor: &Actor, name: Path) -> (Tried<Status>, Path)
    requires { actor.now ≡ actor_in actor.now.cred actor.now.start }
    ensures did { DidByMachine M.Serves (look_inside actor.now.cred actor.now.start name) machine.old machine.new result.0 }
    ensures name { result.1 ≡ name }
{
    let call = Call::Lstat(name);
    let seen = shown(inside(machine, actor, &call));
    let Some(name) = name_looked_at(call) else {
        unreachable!()
    };
    (seen, name)
}

/// What was shown, if something was.
pub fn status_seen(seen: Tried<Status>) -> Option<Status>
    ensures { result ≡ status_seen seen }
{
    seen.ok()
}
