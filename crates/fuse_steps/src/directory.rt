//! Names that are replaced, and names that are listed.
ghost use Rattle.std.specs.Prelude.{◌≡◌};
ghost use Rattle.fuse_plans.specs.Callers.{actor_in};
ghost use Rattle.fuse_plans.specs.DirectoryPlans.{tell_names, list_and_close};
ghost use Rattle.fuse_plans.specs.NamePlans.{nothing_to_replace};
ghost use Rattle.fuse_steps.specs.Performing.{DidByMachine};

use crate::asker::{close, inside, obtain_by_once};
use crate::machine::Machine;
use crate::name::none_there;
use crate::replies::names_of_reply;
use crate::seen::name_looked_at;
use fs_model::{Actor, Call, HandleCall, Listing, Path};
use fuse_plans::{RequestError, Tried};

/// Where nothing is to be replaced, the name leads nowhere. It comes back.
pub fn nothing_to_replace<M: Machine>(
    machine: &mut M,
    flags: u32,
    actor: &Actor,
    name: Path,
) -> (Tried<()>, Path)
    requires { actor.now ≡ actor_in actor.now.cred actor.now.start }
    ensures did { DidByMachine M.Serves (nothing_to_replace flags actor.now.cred actor.now.start name) machine.old machine.new result.0 }
    ensures name { result.1 ≡ name }
{
    if flags == 0 {
        return (Ok(()), name);
    }
    let call = Call::Lstat(name);
    let there = none_there(inside(machine, actor, &call));
    let Some(name) = name_looked_at(call) else {
        unreachable!()
    };
    (there, name)
}

// The names in what is open.
fn tell_names<M: Machine>(machine: &mut M, handle: u64) -> Tried<Listing>
    ensures { DidByMachine M.Serves (tell_names handle) machine.old machine.new result }
{
    let reply = obtain_by_once(machine, handle, HandleCall::List)?;
    names_of_reply(reply).ok_or(RequestError::EIO)
}

/// The names in what was opened, and then it is closed.
pub fn list_and_close<M: Machine>(machine: &mut M, handle: u64) -> Tried<Listing>
    ensures { DidByMachine M.Serves (list_and_close handle) machine.old machine.new result }
{
    let names = tell_names(machine, handle);
    close(machine, handle);
    names
}
