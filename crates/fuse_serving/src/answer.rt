//! Answers to requests, by their plans.
ghost use Rattle.std.specs.Prelude.{◌≡◌, false, Option, Some, IfOk, OnErr};
ghost use Rattle.posix_acl.specs.AccessList.{AccessList};
ghost use Rattle.fuse_state.specs.Servers.{Server};
ghost use Rattle.fuse_plans.specs.declared.request.Asked.{Asked as AskedBy};
ghost use Rattle.fuse_plans.specs.Plans.{Finish, CarriesOut};
ghost use Rattle.fuse_plans.specs.Serving.{answered, asked_for};
ghost use Rattle.fuse_serving.specs.Pieces.{AnswersOne, AnswersWithMemory};

use crate::caller::Asker;
use crate::performer::Performer;
use crate::question::{credential_of_caller, value_in};
use crate::room::MAX_READ;
use fuse_plans::{Asked, RequestError, Response};
use fuse_protocol::{Operation, Request};
use std::alloc::{AllocError, Global};

// The answer where memory is lacking.
fn refused(operation: &Operation<'_>) -> Response
    ensures { (asked : AskedBy) (value : Option (Option AccessList)) (s : Server)
        → answered false (asked_for asked value (Some operation.now)) s ≡ Finish (result, s) }
{
    match operation {
        Operation::Forget(_) | Operation::Interrupt | Operation::BatchForget(_) =>
            Response::Silence,
        _ => Response::Fails(RequestError::ENOMEM),
    }
}

// There is no room for the reply.
fn reads_too_much(operation: &Operation<'_>) -> bool {
    match operation {
        Operation::Read(extent) | Operation::ReadDir(extent) | Operation::ReadDirPlus(extent) => {
            extent.size > MAX_READ
        }
        _ => false,
    }
}

// The answer, where there is memory for what is asked and added.
fn ask<P: Performer>(
    alloc: Global,
    performer: &mut P,
    spoken: &Request<'_>,
    asker: &Asker,
) -> Result<Response, AllocError>
    ensures answered { IfOk result (AnswersWithMemory P.Serves spoken.now asker.now.caller asker.now.needs_nobody asker.now.time
        (P.machine performer.old) (P.machine performer.new) (P.server performer.old) (P.server performer.new)) }
    ensures machine { OnErr result (P.machine performer.new ≡ P.machine performer.old) }
    ensures kept { OnErr result (P.server performer.new ≡ P.server performer.old) }
{
    if reads_too_much(&spoken.operation) {
        return Err(AllocError);
    }
    let cred = credential_of_caller(alloc, spoken.uid, spoken.gid, &asker.caller)?;
    let value = value_in(alloc, &spoken.operation)?;
    let asked = Asked {
        node: spoken.node,
        needs_nobody: asker.needs_nobody,
        cred,
        now: asker.time,
    };
    let response = performer.perform(asked, value, &spoken.operation)?;
    Ok(response)
}

/// The answer to a request, whose plan is performed once it is known whether who asks counts.
pub(crate) fn answer<P: Performer>(
    alloc: Global,
    performer: &mut P,
    spoken: &Request<'_>,
    asker: &Asker,
) -> Response
    ensures { AnswersOne P.Serves spoken.now asker.now.caller asker.now.needs_nobody asker.now.time
        (P.machine performer.old) (P.machine performer.new) (P.server performer.old) (P.server performer.new) result }
{
    match ask(alloc, performer, spoken, asker) {
        Ok(response) => response,
        Err(AllocError) => refused(&spoken.operation),
    }
}
