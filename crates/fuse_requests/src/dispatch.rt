//! One request, whatever it asks for.
ghost use Rattle.std.specs.Prelude.{◌≡◌, ◌≤◌, true, map, List, Option, Some, IfOk, OnErr};
ghost use Rattle.posix_acl.specs.AccessList.{AccessList};
ghost use Rattle.fuse_plans.specs.FilePlans.{write_file};
ghost use Rattle.fuse_plans.specs.ListingPlans.{read_directory_plus};
ghost use Rattle.fuse_requests.specs.Families.{family_of};
ghost use Rattle.fuse_requests.specs.Performing.{Answered};
ghost use Rattle.fuse_plans.specs.Plans.{CarriesOut};
ghost use Rattle.fuse_state.specs.Servers.{without_nodes};
ghost use Rattle.fuse_plans.specs.Serving.{Replying, answered, told_first, asked_for, response_of};
ghost use Rattle.fuse_requests.specs.declared.family.Family.TheVariants as families;
ghost use Rattle.fuse_plans.specs.declared.request.Asked.{Asked as AskedBy};

use crate::attributes::{ask_access, get_attributes, read_link, set_attributes};
use crate::beginning::begin;
use crate::copies::{spare_acl, two_paths};
use crate::directories::{close_directory, open_directory, read_directory};
use crate::family::{Family, family_of};
use crate::files::{close_file, create_file, open_file, read_file, write_file};
use crate::lookups::read_directory_plus;
use crate::names::{add_link, make_directory, make_file, make_link, move_name, remove};
use crate::whole::{count_space, end, sync_all};
use crate::xattrs::{get_xattr, list_xattrs, remove_xattr, set_xattr};
use fs_model::Path;
use fuse_plans::{Asked, Replied, RequestError, Response};
use fuse_protocol::{Batch, Extent, Operation, Piece};
use fuse_sessions::Session;
use fuse_sessions::listing::{LEAST_RECORD, bounded};
use fuse_state::Server;
use fuse_steps::Machine;
use fuse_steps::acls::AclNames;
use fuse_steps::flags::is_trunc;
use fuse_steps::name_room::NameRoom;
use posix_acl::Acl;
use std::alloc::AllocError;

// The answer to a request.
fn response_of(done: Replied) -> Response
    ensures { result ≡ response_of done }
{
    match done {
        Ok(body) => Response::Says(body),
        Err(error) => Response::Fails(error),
    }
}

/// Performs the plan of an operation, with the ACL that the value of an attribute says. All memory that it takes is asked for
/// first: where that is lacking, nothing is asked of the machine and nothing changes.
pub fn perform<M: Machine>(
    session: &mut Session<M>,
    asked: Asked,
    value: Option<Option<Acl>>,
    operation: &Operation<'_>,
) -> Result<Response, AllocError>
    ensures performed { IfOk result (λ response.
        CarriesOut M.Serves (answered true (asked_for asked value (Some operation.now)) session.old.server.server)
        session.old.machine session.new.machine (response, session.new.server.server)) }
    ensures machine { OnErr result (session.new.machine ≡ session.old.machine) }
    ensures kept { OnErr result (session.new.server.server ≡ session.old.server.server) }
{
    session.server.prepare()?;
    let mut value = value;
    perform_prepared(session, asked, &mut value, operation)
}

// Performs the plan of an operation, where the room for what it adds is reserved.
fn perform_prepared<M: Machine>(
    session: &mut Session<M>,
    asked: Asked,
    value: &mut Option<Option<Acl>>,
    operation: &Operation<'_>,
) -> Result<Response, AllocError>
    requires { 5 ≤ session.old.server.room }
    ensures answered { IfOk result
        (Answered M.Serves (asked_for asked value.old (Some operation.now)) session.old session.new) }
    ensures stays { OnErr result (session.new ≡ session.old) }
{
    match family_of(operation) {
        Family::Making => perform_making(session, asked, operation),
        Family::Naming => perform_naming(session, asked, operation),
        Family::Removing => perform_removing(session, asked, operation),
        Family::OnObject => perform_on_object(session, asked, operation),
        Family::OnAcl => perform_on_acl(session, asked, value, operation),
        Family::ByHandle => perform_by_handle(session, &asked, operation),
        Family::OnWhole => perform_on_whole(session, operation),
        Family::Silent => Ok(perform_silently(session, asked.node, operation)),
    }
}

// Requests without a reply.
fn perform_silently<M: Machine>(
    session: &mut Session<M>,
    node: u64,
    operation: &Operation<'_>,
) -> Response
    requires { family_of operation.now ≡ families.Silent }
    ensures { (asked : AskedBy) (value : Option (Option AccessList)) → asked.node ≡ node
        → Answered M.Serves (asked_for asked value (Some operation.now)) session.old session.new result }
{
    match operation {
        Operation::Forget(_) => {
            session.server.forget(node);
            Response::Silence
        }
        Operation::BatchForget(batch) => {
            forget_all(&mut session.server, batch);
            Response::Silence
        }
        Operation::Interrupt => Response::Silence,
        _ => unreachable!(),
    }
}

// The kernel forgets these nodes.
fn forget_all(server: &mut Server, batch: &Batch<'_>)
    ensures kept { server.new.server ≡ without_nodes (map (λ e. e.0) batch.now) server.old.server }
    ensures room { server.new.room ≡ server.old.room }
{
    for at in 0..batch.len() {
        if let Some((node, _)) = batch.get(at) {
            server.forget(node);
        }
    }
}

// Requests that make an object.
#[tactic(auto, using(crate::proofs::Answerings::answering))]
fn perform_making<M: Machine>(
    session: &mut Session<M>,
    asked: Asked,
    operation: &Operation<'_>,
) -> Result<Response, AllocError>
    requires room { 5 ≤ session.old.server.room }
    requires family { family_of operation.now ≡ families.Making }
    ensures answered { (value : Option (Option AccessList)) →
        IfOk result (Answered M.Serves (asked_for asked value (Some operation.now)) session.old session.new) }
    ensures stays { OnErr result (session.new ≡ session.old) }
{
    match operation {
        Operation::SymLink { name, target } => {
            let (name, target) = two_paths(session.alloc, name.bytes(), target.bytes())?;
            session.tell_time(asked.now);
            Ok(response_of(make_link(session, asked, name, target)))
        }
        Operation::MkNod { name, mode, umask } => {
            let name = Path::from_slice(session.alloc, name.bytes())?;
            session.tell_time(asked.now);
            let made = make_file(session, asked, name, *mode, *umask);
            Ok(response_of(made))
        }
        Operation::MkDir { name, mode, umask } => {
            let name = Path::from_slice(session.alloc, name.bytes())?;
            session.tell_time(asked.now);
            let made = make_directory(session, asked, name, *mode, *umask);
            Ok(response_of(made))
        }
        Operation::Create {
            name,
            flags,
            mode,
            umask,
        } => {
            let name = Path::from_slice(session.alloc, name.bytes())?;
            session.tell_time(asked.now);
            let made = create_file(session, asked, name, *flags, *mode, *umask);
            Ok(response_of(made))
        }
        _ => unreachable!(),
    }
}

// Requests for names that are there, and for further ones.
#[tactic(auto, using(crate::proofs::Answerings::answering))]
fn perform_naming<M: Machine>(
    session: &mut Session<M>,
    asked: Asked,
    operation: &Operation<'_>,
) -> Result<Response, AllocError>
    requires room { 5 ≤ session.old.server.room }
    requires family { family_of operation.now ≡ families.Naming }
    ensures answered { (value : Option (Option AccessList)) →
        IfOk result (Answered M.Serves (asked_for asked value (Some operation.now)) session.old session.new) }
    ensures stays { OnErr result (session.new ≡ session.old) }
{
    match operation {
        Operation::Lookup(name) => {
            let name = Path::from_slice(session.alloc, name.bytes())?;
            Ok(response_of(session.find_name(asked, name)))
        }
        Operation::Rename {
            name,
            new_directory,
            new_name,
            flags,
        } => {
            let (name, new_name) = two_paths(session.alloc, name.bytes(), new_name.bytes())?;
            session.tell_time(asked.now);
            let moved = move_name(session, asked, name, *new_directory, new_name, *flags);
            Ok(response_of(moved))
        }
        Operation::Link { node, new_name } => {
            let name = Path::from_slice(session.alloc, new_name.bytes())?;
            session.tell_time(asked.now);
            Ok(response_of(add_link(session, asked, *node, name)))
        }
        _ => unreachable!(),
    }
}

// Requests that remove names.
#[tactic(auto, using(crate::proofs::Answerings::answering))]
fn perform_removing<M: Machine>(
    session: &mut Session<M>,
    asked: Asked,
    operation: &Operation<'_>,
) -> Result<Response, AllocError>
    requires room { 5 ≤ session.old.server.room }
    requires family { family_of operation.now ≡ families.Removing }
    ensures answered { (value : Option (Option AccessList)) →
        IfOk result (Answered M.Serves (asked_for asked value (Some operation.now)) session.old session.new) }
    ensures stays { OnErr result (session.new ≡ session.old) }
{
    match operation {
        Operation::Unlink(name) => {
            let name = Path::from_slice(session.alloc, name.bytes())?;
            session.tell_time(asked.now);
            Ok(response_of(remove(session, asked, name, false)))
        }
        Operation::RmDir(name) => {
            let name = Path::from_slice(session.alloc, name.bytes())?;
            session.tell_time(asked.now);
            Ok(response_of(remove(session, asked, name, true)))
        }
        _ => unreachable!(),
    }
}

// Requests for an object.
#[tactic(auto, using(crate::proofs::Answerings::answering))]
fn perform_on_object<M: Machine>(
    session: &mut Session<M>,
    asked: Asked,
    operation: &Operation<'_>,
) -> Result<Response, AllocError>
    requires room { 5 ≤ session.old.server.room }
    requires family { family_of operation.now ≡ families.OnObject }
    ensures answered { (value : Option (Option AccessList)) →
        IfOk result (Answered M.Serves (asked_for asked value (Some operation.now)) session.old session.new) }
    ensures stays { OnErr result (session.new ≡ session.old) }
{
    match operation {
        Operation::GetAttr => Ok(response_of(get_attributes(session, &asked))),
        Operation::SetAttr(changes) => {
            session.tell_time(asked.now);
            Ok(response_of(set_attributes(session, asked, changes)))
        }
        Operation::ReadLink => Ok(response_of(read_link(session, &asked))),
        Operation::Open(flags) => {
            session.tell_time_if(is_trunc(*flags), asked.now);
            Ok(response_of(open_file(session, asked, *flags)))
        }
        Operation::OpenDir => { Ok(response_of(open_directory(session, asked))) }
        Operation::Access(mask) => { Ok(response_of(ask_access(session, asked, *mask))) }
        _ => unreachable!(),
    }
}

// Requests for attributes that are ACLs.
#[tactic(auto, using(crate::proofs::Answerings::answering))]
fn perform_on_acl<M: Machine>(
    session: &mut Session<M>,
    asked: Asked,
    value: &mut Option<Option<Acl>>,
    operation: &Operation<'_>,
) -> Result<Response, AllocError>
    requires room { 5 ≤ session.old.server.room }
    requires family { family_of operation.now ≡ families.OnAcl }
    ensures answered { IfOk result
        (Answered M.Serves (asked_for asked value.old (Some operation.now)) session.old session.new) }
    ensures stays { OnErr result (session.new ≡ session.old) }
{
    match operation {
        Operation::SetXAttr { name, .. } => {
            let spare = spare_acl(session.alloc)?;
            session.tell_time(asked.now);
            let set = set_xattr(session, asked, name.bytes(), value.take(), spare);
            Ok(response_of(set))
        }
        Operation::GetXAttr { name, size } => {
            Ok(response_of(get_xattr(session, &asked, name.bytes(), *size)))
        }
        Operation::ListXAttr(size) => {
            let names = AclNames::new(session.alloc)?;
            Ok(response_of(list_xattrs(session, &asked, *size, names)))
        }
        Operation::RemoveXAttr(name) => {
            let spare = spare_acl(session.alloc)?;
            session.tell_time(asked.now);
            let removed = remove_xattr(session, asked, name.bytes(), spare);
            Ok(response_of(removed))
        }
        _ => unreachable!(),
    }
}

// Bytes are written piece by piece.
fn perform_write<M: Machine>(
    session: &mut Session<M>,
    asked: &Asked,
    handle: u64,
    offset: u64,
    bytes: &Piece<'_>,
) -> Response
    requires { 5 ≤ session.old.server.room }
    ensures { let plan = Replying (write_file asked.entry.now.now handle offset bytes.now) in
        Answered M.Serves (told_first true asked.entry.now.now plan) session.old session.new result }
{
    session.tell_time(asked.now);
    let wrote = write_file(session, asked.now, handle, offset, bytes.bytes());
    response_of(wrote)
}

// The names of a directory are looked up, as many as have room for their records.
fn perform_listing<M: Machine>(
    session: &mut Session<M>,
    asked: &Asked,
    extent: Extent,
) -> Result<Response, AllocError>
    requires { 5 ≤ session.old.server.room }
    ensures answered { let asked = asked.entry.now in IfOk result
        (Answered M.Serves (Replying (read_directory_plus asked.needs_nobody asked.node extent)) session.old session.new) }
    ensures stays { OnErr result (session.new ≡ session.old) }
{
    let size = bounded(extent).size;
    let count = size / LEAST_RECORD;
    let room = Vec::with_capacity(session.alloc, size as usize)?;
    let names = NameRoom::new(session.alloc, count as usize)?;
    Ok(response_of(read_directory_plus(session, asked, extent, room, names)))
}

// Requests by a handle.
#[tactic(auto, using(crate::proofs::Answerings::answers))]
fn perform_by_handle<M: Machine>(
    session: &mut Session<M>,
    asked: &Asked,
    operation: &Operation<'_>,
) -> Result<Response, AllocError>
    requires room { 5 ≤ session.old.server.room }
    requires family { family_of operation.now ≡ families.ByHandle }
    ensures answered { (value : Option (Option AccessList)) →
        IfOk result (Answered M.Serves (asked_for asked.entry.now value (Some operation.now)) session.old session.new) }
    ensures stays { OnErr result (session.new ≡ session.old) }
{
    match operation {
        Operation::Read(extent) => { Ok(response_of(read_file(session, *extent))) }
        Operation::Write {
            handle,
            offset,
            bytes,
        } => Ok(perform_write(session, asked, *handle, *offset, bytes)),
        Operation::Release(handle) => Ok(response_of(close_file(session, *handle))),
        Operation::FSync(_) => Ok(response_of(sync_all(session))),
        Operation::ReadDir(extent) => {
            let room = Vec::with_capacity(session.alloc, extent.size as usize)?;
            Ok(response_of(read_directory(session, asked.node, *extent, room)))
        }
        Operation::ReadDirPlus(extent) => perform_listing(session, asked, *extent),
        Operation::ReleaseDir(handle) => Ok(response_of(close_directory(session, *handle))),
        _ => unreachable!(),
    }
}

// Requests for the whole file system.
#[tactic(auto, using(crate::proofs::Answerings::answers))]
fn perform_on_whole<M: Machine>(
    session: &mut Session<M>,
    operation: &Operation<'_>,
) -> Result<Response, AllocError>
    requires family { family_of operation.now ≡ families.OnWhole }
    ensures answered { (asked : AskedBy) (value : Option (Option AccessList)) →
        IfOk result (Answered M.Serves (asked_for asked value (Some operation.now)) session.old session.new) }
    ensures stays { OnErr result (session.new ≡ session.old) }
{
    match operation {
        Operation::StatFs => Ok(response_of(count_space(session))),
        Operation::Init(offer) => { Ok(response_of(begin(session, offer))) }
        Operation::FSyncDir | Operation::SyncFs => Ok(response_of(sync_all(session))),
        Operation::Destroy => Ok(response_of(end(session))),
        Operation::Unknown => Ok(Response::Fails(RequestError::ENOSYS)),
        _ => unreachable!(),
    }
}
