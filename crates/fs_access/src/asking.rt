//! Asks a file system.
ghost use Rattle.std.specs.Prelude.{◌≡◌, IfOk, MatchResult, drop};
ghost use Rattle.fs_access.specs.Components.{prefix_of};
ghost use Rattle.fs_access.specs.Asking.{AreAsking, AreBegun, AreCalled, AreExplained, AreHeard, AreLooks, AreLook, IsAnswer, why_unanswered, reply_of, shows_link};
ghost use Rattle.host_trees.specs.Copies.{Copies};

use crate::component::prefix_of;
use crate::fault::AccessFault;
use crate::question::{Answer, Question};
use fs_cred::{Denial, Errno, Refusal, Rule};
use fs_model::{Call, Event, FileType, Path, Reply};
use host_trees::FileSystem;
use std::alloc::{AllocError, Global};

// What `access` is answered, if neither the device nor memory kept it from that.
#[derive(Clone, Copy)]
pub(crate) enum Heard {
    Granted(Rule),
    Denied(Denial),
    Failed(Errno),
}

/// Asks whether somebody may do something at a path: by the `access` of a new process that has their credential. Where that is
/// denied, the process looks at each component on the way there, up to the first symbolic link.
pub fn ask<M: FileSystem>(
    alloc: Global,
    machine: &mut M,
    question: &Question<'_>,
) -> Result<Answer, AccessFault>
    ensures { Copies M.Serves machine.old machine.new (λ asked. AreAsking question.now asked result) }
{
    match begin(alloc, machine, question) {
        Ok(pid) => ask_by(alloc, machine, question, pid),
        Err(fault) => Err(fault),
    }
}

// Begins a process with the credential.
fn begin<M: FileSystem>(
    alloc: Global,
    machine: &mut M,
    question: &Question<'_>,
) -> Result<usize, AccessFault>
    ensures { Copies M.Serves machine.old machine.new (λ asked. AreBegun question.now asked result) }
{
    let Ok(cred) = question.cred().try_clone(alloc) else {
        return Err(AccessFault::OutOfMemory);
    };
    let event = Event::Spawn(cred);
    let reply = machine.serve(&event);
    event.discard();
    match reply {
        Reply::Pid(pid) => Ok(pid),
        other => Err(fault_in(other)),
    }
}

// Why nothing is answered where this was the reply.
fn fault_in(reply: Reply) -> AccessFault
    ensures { result ≡ why_unanswered reply }
{
    let fault = AccessFault::of_reply(&reply);
    reply.discard();
    fault
}

// What the process is answered.
fn ask_by<M: FileSystem>(
    alloc: Global,
    machine: &mut M,
    question: &Question<'_>,
    pid: usize,
) -> Result<Answer, AccessFault>
    ensures { Copies M.Serves machine.old machine.new (λ asked. AreCalled question.now pid asked result) }
{
    match hear(alloc, machine, question, pid) {
        Ok(Heard::Granted(rule)) => Ok(Answer::Granted(rule)),
        Ok(Heard::Denied(denial)) => explain(alloc, machine, question, pid, denial),
        Ok(Heard::Failed(errno)) => Ok(Answer::Failed(errno)),
        Err(fault) => Err(fault),
    }
}

// What the process's `access` is answered.
fn hear<M: FileSystem>(
    alloc: Global,
    machine: &mut M,
    question: &Question<'_>,
    pid: usize,
) -> Result<Heard, AccessFault>
    ensures { Copies M.Serves machine.old machine.new (λ asked. AreHeard question.now pid asked result) }
{
    let Ok(path) = Path::from_slice(alloc, question.path()) else {
        return Err(AccessFault::OutOfMemory);
    };
    let event = Event::Call(pid, Call::Access(path, question.perms()));
    let reply = machine.serve(&event);
    event.discard();
    heard_in(reply)
}

fn heard_in(reply: Reply) -> Result<Heard, AccessFault>
    ensures { MatchResult result (λ said. (reply ≡ reply_of said) × IsAnswer said) (λ fault. fault ≡ why_unanswered reply) }
{
    match reply {
        Reply::Granted(rule) => Ok(Heard::Granted(rule)),
        Reply::Refused(Refusal::Denied(denial)) => Ok(Heard::Denied(denial)),
        Reply::Refused(Refusal::Failed(Errno::EIO)) => Err(AccessFault::DiskFault),
        Reply::Refused(Refusal::Failed(Errno::ENOMEM)) => Err(AccessFault::OutOfMemory),
        Reply::Refused(Refusal::Failed(errno)) => Ok(Heard::Failed(errno)),
        other => Err(fault_in(other)),
    }
}

// The denial, with the first symbolic link on the way.
fn explain<M: FileSystem>(
    alloc: Global,
    machine: &mut M,
    question: &Question<'_>,
    pid: usize,
    denial: Denial,
) -> Result<Answer, AccessFault>
    ensures { Copies M.Serves machine.old machine.new (λ asked. AreExplained question.now pid denial asked result) }
{
    match first_link(alloc, machine, question, pid, denial.step) {
        Ok(link) => Ok(Answer::Denied { denial, link }),
        Err(fault) => Err(fault),
    }
}

// How many components of the path lead to the first one that is a symbolic link, if one of the first so many is.
fn first_link<M: FileSystem>(
    alloc: Global,
    machine: &mut M,
    question: &Question<'_>,
    pid: usize,
    most: usize,
) -> Result<Option<usize>, AccessFault>
    ensures { Copies M.Serves machine.old machine.new (λ asked. AreLooks question.now.path pid most asked result) }
{
    let mut passed = 0;
    while passed < most {
        match is_link(alloc, machine, question, pid, passed + 1) {
            Ok(true) => return Ok(Some(passed + 1)),
            Ok(false) => passed += 1,
            Err(fault) => return Err(fault),
        }
    }
    Ok(None)
}

// Whether so many components of the path lead to a symbolic link.
fn is_link<M: FileSystem>(
    alloc: Global,
    machine: &mut M,
    question: &Question<'_>,
    pid: usize,
    count: usize,
) -> Result<bool, AccessFault>
    ensures { Copies M.Serves machine.old machine.new (λ asked. AreLook question.now.path pid count asked result) }
{
    let Ok(path) = path_to(alloc, question.path(), count) else {
        return Err(AccessFault::OutOfMemory);
    };
    let event = Event::Call(pid, Call::Lstat(path));
    let reply = machine.serve(&event);
    event.discard();
    match reply {
        Reply::Shown(status) => Ok(shows_link(status.kind)),
        other => Err(fault_in(other)),
    }
}

// So many components of a path, from the root. Without the slash in front they are no longer than the path.
fn path_to(alloc: Global, path: &[u8], count: usize) -> Result<Path, AllocError>
    ensures { IfOk result (λ there. there ≡ drop 1 (prefix_of path.now count)) }
{
    let prefix = prefix_of(alloc, path, count)?;
    Path::from_slice(alloc, &prefix[1..])
}

fn shows_link(kind: FileType) -> bool
    ensures { result ≡ shows_link kind }
{
    matches!(kind, FileType::Link)
}
