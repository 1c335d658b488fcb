//! Requests for attributes: what stat(2) shows, and what changes it.
ghost use Rattle.std.specs.Prelude.{◌≡◌, ◌+◌, ◌≤◌};
ghost use Rattle.fuse_plans.specs.AttributePlans.{tell_attributes, tell_object, removed_body, get_attributes, resize_object, set_size, set_owners, set_mode, may_set_times, set_times, change_attributes, tell_times, set_attributes, tell_target, read_link, ask_access, timed, set_stamps};
ghost use Rattle.fuse_plans.specs.Callers.{actor_in, on};
ghost use Rattle.fuse_sessions.specs.Performing.{Did};

use fs_model::{Actor, Bytes, Call, HandleCall, Reply, Status};
use fuse_plans::{Asked, Attributes, Replied, ReplyBody, RequestError, Tried};
use fuse_protocol::{AttrChanges, Time};
use fuse_sessions::Session;
use fuse_state::{RemovedDirectory, Server, Times, stamp_of};
use fuse_steps::Machine;
use fuse_steps::asker::{actor_in, obtain_by_once, on, who_asks};
use fuse_steps::changes::{
    counts_as_owner, needs_owner, or_not_permitted, or_of_link, sets_owners, sets_times,
};
use fuse_steps::name::attributes;
use fuse_steps::replies::target_of_reply;
use fuse_steps::times::{ask_stamp, replied_stamps, stamp_set, time_after};
use posix_acl::Perms;

// What is told of an object that was shown.
fn tell_attributes<M: Machine>(session: &mut Session<M>, status: Status) -> Replied
    ensures { Did M.Serves (tell_attributes status) session.old session.new result }
{
    let stamps = session.told_stamps(status.ino)?;
    Ok(ReplyBody::Shown(attributes(&session.server, status, stamps)))
}

// What is told of an object that is there.
fn tell_object<M: Machine>(session: &mut Session<M>, node: u64) -> Replied
    ensures { Did M.Serves (tell_object node) session.old session.new result }
{
    let ino = session.the_number(node)?;
    let status = session.look(ino)?;
    tell_attributes(session, status)
}

// What is told of a directory that was removed.
fn removed_body(server: &Server, removed: RemovedDirectory) -> ReplyBody
    ensures { result ≡ removed_body removed server.now.server }
{
    ReplyBody::Shown(Attributes {
        status: removed.status,
        times: removed.times,
        valid: server.settings().keeping.attributes,
    })
}

/// What is told of an object. What is gone may be a directory that was removed.
pub(crate) fn get_attributes<M: Machine>(session: &mut Session<M>, asked: &Asked) -> Replied
    ensures { Did M.Serves (get_attributes asked.entry.now) session.old session.new result }
{
    match tell_object(session, asked.node) {
        Ok(body) => Ok(body),
        Err(error) => {
            let removed = session.removed_instead(asked.node, error)?;
            Ok(removed_body(&session.server, removed))
        }
    }
}

// By the handle, where there is one.
fn resize_object<M: Machine>(
    session: &mut Session<M>,
    actor: &Actor,
    size: u64,
    handle: Option<u64>,
) -> Tried<Reply>
    requires { actor.now ≡ actor_in actor.now.cred actor.now.start }
    ensures did { Did M.Serves (resize_object actor.now.cred actor.now.start size handle) session.old session.new result }
    ensures kept { session.new.server ≡ session.old.server }
{
    if let Some(handle) = handle {
        return obtain_by_once(&mut session.machine, handle, HandleCall::Resize(size));
    }
    let call = Call::Truncate(session.empty_path(), size);
    on_once(session, actor, call)
}

// The reply to a call on an object that is made once.
pub(crate) fn on_once<M: Machine>(
    session: &mut Session<M>,
    actor: &Actor,
    call: Call,
) -> Tried<Reply>
    requires { actor.now ≡ actor_in actor.now.cred actor.now.start }
    ensures did { Did M.Serves (on actor.now.cred actor.now.start call) session.old session.new result }
    ensures kept { session.new.server ≡ session.old.server }
{
    let reply = on(&mut session.machine, actor, &call);
    call.discard();
    reply
}

fn set_size<M: Machine>(
    session: &mut Session<M>,
    now: Time,
    actor: &Actor,
    handle: Option<u64>,
    size: Option<u64>,
) -> Tried<()>
    requires actor { actor.now ≡ actor_in actor.now.cred actor.now.start }
    requires room { 1 ≤ session.old.server.room }
    ensures did { Did M.Serves (set_size now actor.now.cred actor.now.start handle size) session.old session.new result }
    ensures room { session.old.server.room ≤ session.new.server.room + 1 }
{
    let Some(size) = size else {
        return Ok(());
    };
    resize_object(session, actor, size, handle)?.discard();
    session.server.touch(now, actor.start);
    Ok(())
}

fn set_owners<M: Machine>(
    session: &mut Session<M>,
    now: Time,
    actor: &Actor,
    changes: &AttrChanges,
) -> Tried<()>
    requires actor { actor.now ≡ actor_in actor.now.cred actor.now.start }
    requires room { 1 ≤ session.old.server.room }
    ensures did { Did M.Serves (set_owners now actor.now.cred actor.now.start changes.now) session.old session.new result }
    ensures room { session.old.server.room ≤ session.new.server.room + 1 }
{
    if !sets_owners(changes) {
        return Ok(());
    }
    let call = Call::Chown {
        path: session.empty_path(),
        owner: changes.uid,
        group: changes.gid,
    };
    on_once(session, actor, call)?.discard();
    session.server.change(now, actor.start);
    Ok(())
}

fn set_mode<M: Machine>(
    session: &mut Session<M>,
    now: Time,
    actor: &Actor,
    mode: Option<u32>,
) -> Tried<()>
    requires actor { actor.now ≡ actor_in actor.now.cred actor.now.start }
    requires room { 1 ≤ session.old.server.room }
    ensures did { Did M.Serves (set_mode now actor.now.cred actor.now.start mode) session.old session.new result }
    ensures room { session.old.server.room ≤ session.new.server.room + 1 }
{
    let Some(mode) = mode else {
        return Ok(());
    };
    let call = Call::Chmod(session.empty_path(), (mode & 0o7777) as u16);
    on_once(session, actor, call)?.discard();
    session.server.change(now, actor.start);
    Ok(())
}

// Size, then owner and group, then mode.
fn change_attributes<M: Machine>(
    session: &mut Session<M>,
    now: Time,
    actor: &Actor,
    changes: &AttrChanges,
) -> Tried<()>
    requires actor { actor.now ≡ actor_in actor.now.cred actor.now.start }
    requires room { 3 ≤ session.old.server.room }
    ensures did { Did M.Serves (change_attributes now actor.now.cred actor.now.start changes.now) session.old session.new result }
    ensures room { session.old.server.room ≤ session.new.server.room + 3 }
{
    set_size(session, now, actor, changes.handle, changes.size)?;
    set_owners(session, now, actor, changes)?;
    set_mode(session, now, actor, changes.mode)
}

// The owner may; and who may write may set both to the present time.
fn may_set_times<M: Machine>(
    session: &mut Session<M>,
    actor: &Actor,
    is_owner: bool,
    changes: &AttrChanges,
) -> Tried<()>
    requires { actor.now ≡ actor_in actor.now.cred actor.now.start }
    ensures did { Did M.Serves (may_set_times actor.now.cred actor.now.start is_owner changes.now) session.old session.new result }
    ensures kept { session.new.server ≡ session.old.server }
{
    if is_owner {
        return Ok(());
    }
    if needs_owner(changes) {
        return Err(RequestError::EPERM);
    }
    let call = Call::Access(session.empty_path(), Perms::from_digit(2));
    or_not_permitted(on_once(session, actor, call))
}

fn set_times<M: Machine>(
    session: &mut Session<M>,
    now: Time,
    actor: &Actor,
    status: Status,
    changes: &AttrChanges,
) -> Tried<()>
    requires actor { actor.now ≡ actor_in actor.now.cred actor.now.start }
    requires room { 1 ≤ session.old.server.room }
    ensures { Did M.Serves (set_times now actor.now.cred actor.now.start status changes.now) session.old session.new result }
{
    if !sets_times(changes) {
        return Ok(());
    }
    let is_owner = counts_as_owner(&actor.cred, status.owner);
    may_set_times(session, actor, is_owner, changes)?;
    set_stamps(session, now, actor.start, changes)
}

/// Changes attributes.
pub(crate) fn set_attributes<M: Machine>(
    session: &mut Session<M>,
    asked: Asked,
    changes: &AttrChanges,
) -> Replied
    requires room { 4 ≤ session.old.server.room }
    ensures { Did M.Serves (set_attributes asked changes.now) session.old session.new result }
{
    let ino = session.the_number(asked.node)?;
    let cred = who_asks(asked.cred)?;
    let actor = actor_in(cred, ino);
    change_attributes(session, asked.now, &actor, changes)?;
    tell_times(session, asked.now, &actor, changes)
}

// Times, and what is there then.
fn tell_times<M: Machine>(
    session: &mut Session<M>,
    now: Time,
    actor: &Actor,
    changes: &AttrChanges,
) -> Replied
    requires actor { actor.now ≡ actor_in actor.now.cred actor.now.start }
    requires room { 1 ≤ session.old.server.room }
    ensures { Did M.Serves (tell_times now actor.now.cred actor.now.start changes.now) session.old session.new result }
{
    let status = session.look(actor.start)?;
    set_times(session, now, actor, status, changes)?;
    tell_attributes(session, status)
}

/// The target of a link.
pub(crate) fn read_link<M: Machine>(session: &mut Session<M>, asked: &Asked) -> Replied
    ensures { Did M.Serves (read_link asked.entry.now) session.old session.new result }
{
    let ino = session.the_number(asked.node)?;
    tell_target(session, ino)
}

fn tell_target<M: Machine>(session: &mut Session<M>, ino: u32) -> Replied
    ensures { Did M.Serves (tell_target ino) session.old session.new result }
{
    let call = Call::Readlink(session.empty_path());
    let reply = session.on_own(ino, call)?;
    let Some(target) = target_of_reply(reply) else {
        return Err(RequestError::EIO);
    };
    Ok(ReplyBody::Bytes(Bytes::new(target.into_bytes())))
}

/// Whether permissions are granted: on a link each.
pub(crate) fn ask_access<M: Machine>(session: &mut Session<M>, asked: Asked, mask: u32) -> Replied
    ensures { Did M.Serves (ask_access asked mask) session.old session.new result }
{
    let ino = session.the_number(asked.node)?;
    let cred = who_asks(asked.cred)?;
    let actor = actor_in(cred, ino);
    let call = Call::Access(session.empty_path(), Perms::from_digit((mask & 7) as u16));
    or_of_link(on_once(session, &actor, call))?;
    Ok(ReplyBody::Nothing)
}

// An object gets the new times.
fn note_times(server: &mut Server, now: Time, ino: u32, changes: &AttrChanges)
    requires { 1 ≤ server.old.room }
    ensures kept { server.new.server ≡ timed now ino changes.now server.old.server }
    ensures room { server.old.room ≤ server.new.room + 1 }
{
    let old = server.times_of(ino);
    let times = Times {
        atime: time_after(now, old.atime, changes.atime),
        mtime: time_after(now, old.mtime, changes.mtime),
        ctime: now,
    };
    server.set_times(ino, times);
}

// Sets times of an object.
fn set_stamps<M: Machine>(
    session: &mut Session<M>,
    now: Time,
    ino: u32,
    changes: &AttrChanges,
) -> Tried<()>
    requires { 1 ≤ session.old.server.room }
    ensures { Did M.Serves (set_stamps now ino changes.now) session.old session.new result }
{
    let keeps_times = session.server.settings().keeps_times;
    if !keeps_times {
        note_times(&mut session.server, now, ino, changes);
        return Ok(());
    }
    let atime = stamp_set(now, changes.atime);
    let mtime = stamp_set(now, changes.mtime);
    let reply = ask_stamp(&mut session.machine, ino, atime, mtime, Some(stamp_of(now)));
    let _stamps = replied_stamps(reply)?;
    Ok(())
}
