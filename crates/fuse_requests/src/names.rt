//! Requests for names that are made, that go, and for further ones: each is performed as who asks.
ghost use Rattle.std.specs.Prelude.{◌≡◌, ◌≤◌};
ghost use Rattle.fuse_plans.specs.NamePlans.{directory_for, tell_made, make_by, make_closed, make_link, make_directory, make_file, new_valid, remove, removal, may_move, rename, move_name, link_as, add_link};
ghost use Rattle.fuse_plans.specs.RemovedPlans.{inode_seen};
ghost use Rattle.fuse_plans.specs.Works.{of_result};
ghost use Rattle.fuse_sessions.specs.Performing.{Did};

use fs_cred::Cred;
use fs_model::{Call, Path, Status};
use fuse_plans::{Asked, Replied, ReplyBody, RequestError, Tried};
use fuse_protocol::Time;
use fuse_sessions::Session;
use fuse_steps::Machine;
use fuse_steps::asker::{actor_at, actor_in, close, inside, obtain_at, who_asks};
use fuse_steps::directory::nothing_to_replace;
use fuse_steps::flags::making;
use fuse_steps::name::{only_file, only_no_replace, plain_name};
use fuse_steps::seen::{replied_number, replied_opened};

// The directory of a name that is asked for.
fn directory_for<M: Machine>(session: &Session<M>, node: u64, name: &Path) -> Tried<u32>
    ensures { Did M.Serves (directory_for node name.now) session.now session.now result }
{
    plain_name(name)?;
    session.the_number(node)
}

// What has just been made in a directory.
fn tell_made<M: Machine>(
    session: &mut Session<M>,
    now: Time,
    name_valid: u64,
    dir_ino: u32,
    ino: u32,
) -> Replied
    requires { 3 ≤ session.old.server.room }
    ensures { Did M.Serves (tell_made now name_valid dir_ino ino) session.old session.new result }
{
    session.server.note_made(now, dir_ino, ino);
    session.tell_named(name_valid, ino)
}

// A call makes something in a directory, with this mask.
fn make_by<M: Machine>(
    session: &mut Session<M>,
    asked: Asked,
    dir_ino: u32,
    umask: u16,
    call: &Call,
) -> Replied
    requires { 3 ≤ session.old.server.room }
    ensures { Did M.Serves (make_by asked dir_ino umask call.now) session.old session.new result }
{
    let name_valid = session.new_valid(dir_ino);
    let cred = who_asks(asked.cred)?;
    let actor = actor_at(cred, umask, dir_ino, dir_ino);
    let reply = obtain_at(&mut session.machine, &actor, call)?;
    let ino = replied_number(reply)?;
    tell_made(session, asked.now, name_valid, dir_ino, ino)
}

// A call opens a new file in a directory, with this mask, and that is closed.
fn make_closed<M: Machine>(
    session: &mut Session<M>,
    asked: Asked,
    dir_ino: u32,
    umask: u16,
    call: &Call,
) -> Replied
    requires { 3 ≤ session.old.server.room }
    ensures { Did M.Serves (make_closed asked dir_ino umask call.now) session.old session.new result }
{
    let name_valid = session.new_valid(dir_ino);
    let cred = who_asks(asked.cred)?;
    let actor = actor_at(cred, umask, dir_ino, dir_ino);
    let reply = obtain_at(&mut session.machine, &actor, call)?;
    let (handle, ino) = replied_opened(reply)?;
    close(&mut session.machine, handle);
    tell_made(session, asked.now, name_valid, dir_ino, ino)
}

/// Makes a symbolic link.
pub(crate) fn make_link<M: Machine>(
    session: &mut Session<M>,
    asked: Asked,
    name: Path,
    target: Path,
) -> Replied
    requires room { 3 ≤ session.old.server.room }
    ensures { Did M.Serves (make_link asked name target) session.old session.new result }
{
    let dir_ino = directory_for(session, asked.node, &name)?;
    let call = Call::Symlink { target, path: name };
    let made = make_by(session, asked, dir_ino, 0, &call);
    call.discard();
    made
}

/// Makes a directory.
pub(crate) fn make_directory<M: Machine>(
    session: &mut Session<M>,
    asked: Asked,
    name: Path,
    mode: u32,
    umask: u32,
) -> Replied
    requires room { 3 ≤ session.old.server.room }
    ensures { Did M.Serves (make_directory asked name mode umask) session.old session.new result }
{
    let dir_ino = directory_for(session, asked.node, &name)?;
    let call = Call::Mkdir(name, (mode & 0o7777) as u16);
    let made = make_by(session, asked, dir_ino, (umask & 0o777) as u16, &call);
    call.discard();
    made
}

/// Makes a file.
pub(crate) fn make_file<M: Machine>(
    session: &mut Session<M>,
    asked: Asked,
    name: Path,
    mode: u32,
    umask: u32,
) -> Replied
    requires room { 3 ≤ session.old.server.room }
    ensures { Did M.Serves (make_file asked name mode umask) session.old session.new result }
{
    only_file(mode)?;
    let dir_ino = directory_for(session, asked.node, &name)?;
    let call = Call::Open(name, making(), (mode & 0o777) as u16);
    let made = make_closed(session, asked, dir_ino, (umask & 0o777) as u16, &call);
    call.discard();
    made
}

// Removes a name: of a directory, or of something else.
fn removal(of_directory: bool, name: Path) -> Call
    ensures { result ≡ removal of_directory name }
{
    if of_directory {
        Call::Rmdir(name)
    } else {
        Call::Unlink(name)
    }
}

// The inode of what was shown, if something was.
fn inode_seen(seen: Option<Status>) -> Option<u32>
    ensures { result ≡ inode_seen seen }
{
    let status = seen?;
    Some(status.ino)
}

/// Removes a name: of a directory, or of something else.
pub(crate) fn remove<M: Machine>(
    session: &mut Session<M>,
    asked: Asked,
    name: Path,
    of_directory: bool,
) -> Replied
    requires room { 3 ≤ session.old.server.room }
    ensures { Did M.Serves (remove asked of_directory name) session.old session.new result }
{
    let dir_ino = directory_for(session, asked.node, &name)?;
    let cred = who_asks(asked.cred)?;
    let (gone, name) = session.look_before(of_directory, dir_ino, name);
    let last = session.last_shown(asked.now, gone)?;
    let call = removal(of_directory, name);
    let actor = actor_in(cred, dir_ino);
    let reply = inside(&mut session.machine, &actor, &call);
    call.discard();
    reply?.discard();
    session
        .server
        .note_removed(asked.now, dir_ino, inode_seen(gone), last);
    Ok(ReplyBody::Nothing)
}

// Whether such a name may be moved to such another.
fn may_move(name: &Path, new_name: &Path, flags: u32) -> Tried<()>
    ensures { may_move name.now new_name.now flags ≡ of_result result }
{
    only_no_replace(flags)?;
    plain_name(name)?;
    plain_name(new_name)
}

// A name in a directory.
#[derive(Drop)]
struct Place {
    dir_ino: u32,
    name: Path,
}

/// What has one name gets another.
pub(crate) fn move_name<M: Machine>(
    session: &mut Session<M>,
    asked: Asked,
    name: Path,
    new_node: u64,
    new_name: Path,
    flags: u32,
) -> Replied
    requires room { 5 ≤ session.old.server.room }
    ensures { Did M.Serves (move_name asked name new_node new_name flags) session.old session.new result }
{
    may_move(&name, &new_name, flags)?;
    let dir_ino = session.the_number(asked.node)?;
    let new = session.the_number(new_node)?;
    let cred = who_asks(asked.cred)?;
    let actor = actor_in(cred, new);
    let (free, new_name) = nothing_to_replace(&mut session.machine, flags, &actor, new_name);
    free?;
    let old = Place { dir_ino, name };
    let new = Place {
        dir_ino: new,
        name: new_name,
    };
    rename(session, asked.now, actor.cred, old, new)
}

// What has one name gets another, where that may be replaced.
fn rename<M: Machine>(
    session: &mut Session<M>,
    now: Time,
    cred: Cred,
    old: Place,
    new: Place,
) -> Replied
    requires { 5 ≤ session.old.server.room }
    ensures { Did M.Serves (rename now cred old.dir_ino old.name new.dir_ino new.name) session.old session.new result }
{
    let (object, name) = session.look_before(false, old.dir_ino, old.name);
    let (replaced, new_name) = session.look_before(true, new.dir_ino, new.name);
    let last = session.last_shown(now, replaced)?;
    let call = Call::Rename {
        old: name,
        new: new_name,
    };
    let actor = actor_at(cred, 0, old.dir_ino, new.dir_ino);
    let reply = obtain_at(&mut session.machine, &actor, &call);
    call.discard();
    reply?.discard();
    session.server.note_moved(
        now,
        old.dir_ino,
        new.dir_ino,
        inode_seen(object),
        inode_seen(replaced),
        last,
    );
    Ok(ReplyBody::Nothing)
}

/// An object gets one more name.
pub(crate) fn add_link<M: Machine>(
    session: &mut Session<M>,
    asked: Asked,
    old_node: u64,
    name: Path,
) -> Replied
    requires room { 2 ≤ session.old.server.room }
    ensures { Did M.Serves (add_link asked old_node name) session.old session.new result }
{
    let dir_ino = directory_for(session, asked.node, &name)?;
    let ino = session.the_number(old_node)?;
    link_as(session, asked, ino, dir_ino, name)
}

// Who asks gives an object one more name.
fn link_as<M: Machine>(
    session: &mut Session<M>,
    asked: Asked,
    ino: u32,
    dir_ino: u32,
    name: Path,
) -> Replied
    requires room { 2 ≤ session.old.server.room }
    ensures { Did M.Serves (link_as asked ino dir_ino name) session.old session.new result }
{
    let cred = who_asks(asked.cred)?;
    let call = Call::Link {
        old: session.empty_path(),
        new: name,
    };
    let actor = actor_at(cred, 0, ino, dir_ino);
    let reply = obtain_at(&mut session.machine, &actor, &call);
    call.discard();
    reply?.discard();
    session.server.note_linked(asked.now, dir_ino, ino);
    session.tell_named(0, ino)
}
