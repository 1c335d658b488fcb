//! What is asked of a machine, and what comes of a refusal.
//!
//! Events, calls and replies are let go by `discard`, here and elsewhere: where they go in place, each of their kinds is a case
//! of that function's proof.
ghost use Rattle.std.specs.Prelude.{◌≡◌, Err, Ok, IsTrue, MatchResult};
ghost use Rattle.fs_model.specs.Steps.{is_of_machine};
ghost use Rattle.fs_model.specs.declared.event.Event.TheVariants.{CallAt, CallBy};
ghost use Rattle.fs_model.specs.declared.event.HandleCall.TheVariants.{Close, Write};
ghost use Rattle.fs_model.specs.declared.reply.Reply.{Reply as ReplyOf};
ghost use Rattle.fuse_plans.specs.Works.{give, ask, obtain, of_result, or_closed, refusal_in, unless_refused};
ghost use Rattle.fuse_plans.specs.Callers.{actor_at, actor_in, inside, object_error, on, who_asks};
ghost use Rattle.fuse_steps.specs.Performing.{DidByMachine};

use crate::machine::Machine;
use fs_cred::{Cred, Errno, Refusal};
use fs_model::{Actor, Call, Event, HandleCall, Reply};
use fuse_plans::{RequestError, Tried};

/// The credential of who asks: EACCES where not all groups are known, since an entry for one may deny.
pub fn who_asks(cred: Option<Cred>) -> Tried<Cred>
    ensures { who_asks cred ≡ of_result result }
{
    match cred {
        Some(cred) => Ok(cred),
        None => Err(RequestError::EACCES),
    }
}

/// Who makes things with this mask, whose first paths start at one object, and second ones at another.
pub fn actor_at(cred: Cred, umask: u16, start: u32, second_start: u32) -> Actor
    ensures { result ≡ actor_at cred umask start second_start }
{
    Actor {
        cred,
        umask,
        start,
        second_start,
    }
}

/// Who makes nothing, and whose paths start at one object.
pub fn actor_in(cred: Cred, ino: u32) -> Actor
    ensures { result ≡ actor_in cred ino }
{
    actor_at(cred, 0, ino, ino)
}

// The refusal that a reply is.
fn refusal_in(reply: &Reply) -> Option<Refusal>
    ensures { result ≡ refusal_in reply.now }
{
    match reply {
        Reply::Refused(refusal) => Some(*refusal),
        _ => None,
    }
}

/// A refusal is an error, with the denial that it may be.
pub fn unless_refused(reply: Reply) -> Tried<Reply>
    ensures { unless_refused reply ≡ of_result result }
{
    match refusal_in(&reply) {
        Some(refusal) => Err(RequestError::Refuses(refusal)),
        None => Ok(reply),
    }
}

/// The reply to an event.
pub fn ask<M: Machine>(machine: &mut M, event: &Event) -> Reply
    requires { IsTrue (is_of_machine event.now) }
    ensures { DidByMachine M.Serves (ask event.now) machine.old machine.new (Ok result) }
{
    machine.serve(event)
}

// The reply to a call of an actor.
fn ask_at<M: Machine>(machine: &mut M, actor: &Actor, call: &Call) -> Reply
    ensures { DidByMachine M.Serves (ask (CallAt actor.now call.now)) machine.old machine.new (Ok result) }
{
    machine.call_at(actor, call)
}

// The reply to a call by a handle.
fn ask_by<M: Machine>(machine: &mut M, handle: u64, call: &HandleCall) -> Reply
    ensures { DidByMachine M.Serves (ask (CallBy handle call.now)) machine.old machine.new (Ok result) }
{
    machine.call_by(handle, call)
}

// The reply to a write by a handle.
fn ask_write<M: Machine>(machine: &mut M, handle: u64, offset: u64, bytes: &[u8]) -> Reply
    ensures { DidByMachine M.Serves (ask (CallBy handle (Write offset bytes.now))) machine.old machine.new (Ok result) }
{
    machine.write_by(handle, offset, bytes)
}

/// The reply to an event, unless that is a refusal.
pub fn obtain<M: Machine>(machine: &mut M, event: Event) -> Tried<Reply>
    requires { IsTrue (is_of_machine event) }
    ensures { DidByMachine M.Serves (obtain event) machine.old machine.new result }
{
    let reply = ask(machine, &event);
    event.discard();
    unless_refused(reply)
}

/// The reply to a call of an actor, unless that is a refusal.
pub fn obtain_at<M: Machine>(machine: &mut M, actor: &Actor, call: &Call) -> Tried<Reply>
    ensures { DidByMachine M.Serves (obtain (CallAt actor.now call.now)) machine.old machine.new result }
{
    let reply = ask_at(machine, actor, call);
    unless_refused(reply)
}

/// The reply to a call by a handle, unless that is a refusal.
pub fn obtain_by<M: Machine>(machine: &mut M, handle: u64, call: &HandleCall) -> Tried<Reply>
    ensures { DidByMachine M.Serves (obtain (CallBy handle call.now)) machine.old machine.new result }
{
    let reply = ask_by(machine, handle, call);
    unless_refused(reply)
}

/// The reply to a write by a handle, unless that is a refusal. Its bytes are lent.
pub fn obtain_write<M: Machine>(
    machine: &mut M,
    handle: u64,
    offset: u64,
    bytes: &[u8],
) -> Tried<Reply>
    ensures { DidByMachine M.Serves (obtain (CallBy handle (Write offset bytes.now))) machine.old machine.new result }
{
    let reply = ask_write(machine, handle, offset, bytes);
    unless_refused(reply)
}

/// The same of a call that is made once.
pub fn obtain_by_once<M: Machine>(machine: &mut M, handle: u64, call: HandleCall) -> Tried<Reply>
    ensures { DidByMachine M.Serves (obtain (CallBy handle call)) machine.old machine.new result }
{
    obtain_by(machine, handle, &call)
}

/// A handle is closed. The reply doesn't count.
pub fn close<M: Machine>(machine: &mut M, handle: u64)
    ensures { (reply : ReplyOf) × DidByMachine M.Serves (ask (CallBy handle Close)) machine.old machine.new (Ok reply) }
{
    let call = HandleCall::Close;
    ask_by(machine, handle, &call).discard();
}

/// The reply to a call with names of one directory.
pub fn inside<M: Machine>(machine: &mut M, actor: &Actor, call: &Call) -> Tried<Reply>
    requires { actor.now ≡ actor_in actor.now.cred actor.now.start }
    ensures { DidByMachine M.Serves (inside actor.now.cred actor.now.start call.now) machine.old machine.new result }
{
    obtain_at(machine, actor, call)
}

// Where the object is gone the node is stale; and what isn't done to a link isn't supported.
fn object_error(refusal: Refusal) -> RequestError
    ensures { result ≡ object_error refusal }
{
    let error = RequestError::Refuses(refusal);
    if error.is_for(Errno::ENOENT) {
        return RequestError::ESTALE;
    }
    if error.is_for(Errno::ELOOP) {
        return RequestError::EOPNOTSUPP;
    }
    error
}

/// The reply to a call on an object, whose path is empty.
pub fn on<M: Machine>(machine: &mut M, actor: &Actor, call: &Call) -> Tried<Reply>
    requires { actor.now ≡ actor_in actor.now.cred actor.now.start }
    ensures { DidByMachine M.Serves (on actor.now.cred actor.now.start call.now) machine.old machine.new result }
{
    let reply = ask_at(machine, actor, call);
    match refusal_in(&reply) {
        Some(refusal) => Err(object_error(refusal)),
        None => Ok(reply),
    }
}

/// The reply says no more than that it was done.
pub fn done(tried: Tried<Reply>) -> Tried<()>
    ensures { MatchResult tried (λ reply. give tt ≡ of_result result) (λ error. result ≡ Err error) }
{
    match tried {
        Ok(reply) => {
            reply.discard();
            Ok(())
        }
        Err(error) => Err(error),
    }
}

/// Where the work failed what was opened is closed. The reply to that doesn't count.
pub fn or_closed<M: Machine, T>(machine: &mut M, handle: u64, tried: Tried<T>) -> Tried<T>
    ensures { DidByMachine M.Serves (or_closed handle tried) machine.old machine.new result }
{
    match tried {
        Ok(value) => Ok(value),
        Err(error) => {
            close(machine, handle);
            Err(error)
        }
    }
}
