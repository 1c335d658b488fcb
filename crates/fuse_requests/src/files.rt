//! Requests for files: to open and create them, and what is done by a handle.
ghost use Rattle.std.specs.Prelude.{◌≡◌, ◌&&◌, not, ◌≤◌, ℕ, List, [], Some, Err};
ghost use Rattle.fs_cred.specs.declared.errno.Errno.TheVariants.{EEXIST};
ghost use Rattle.fs_model.specs.declared.call.Call.TheVariants.{Open};
ghost use Rattle.fs_model.specs.declared.call.Flags.{Flags as FlagsOf};
ghost use Rattle.fuse_plans.specs.Callers.{actor_in, on};
ghost use Rattle.fuse_plans.specs.FilePlans.{ask_first, opener, asked_mode, touched_if, open_object, open_file, or_opened, open_or_make, show_timed, look_open, file_flags, opened_body, created_body, tell_created, create_by, create_file, read_file, touch_open, write_file, close_file};
ghost use Rattle.fuse_plans.specs.Flags.{is_excl, is_trunc, opening};
ghost use Rattle.fuse_plans.specs.RequestErrors.{is_for};
ghost use Rattle.fuse_sessions.specs.Performing.{Did};
ghost use Rattle.fuse_steps.specs.Performing.{DidByMachine};

use crate::attributes::on_once;
use bitflags::Flags as _;
use fs_cred::{Cred, Errno};
use fs_model::{Actor, Call, HandleCall, Path, Reply, Stamps, Status};
use fuse_plans::{Asked, Mode, Replied, ReplyBody, RequestError, Tried};
use fuse_protocol::{Extent, OpenFlags, OpenedFlags, Time};
use fuse_sessions::Session;
use fuse_state::{Server, Settings};
use fuse_steps::Machine;
use fuse_steps::asker::{
    actor_at, actor_in, done, inside, obtain_at, obtain_by_once, or_closed, who_asks,
};
use fuse_steps::flags::{creating, is_excl, is_exec, is_trunc, opening, reads_alone};
use fuse_steps::name::{attributes, plain_name};
use fuse_steps::replies::{data_of_reply, within};
use fuse_steps::runs::{within_offsets, write_runs};
use fuse_steps::seen::{replied_opened, shown};
use posix_acl::Perms;

// By which flags a file is opened, and for what.
#[derive(Clone, Copy)]
struct Way {
    flags: OpenFlags,
    mode: Mode,
}

// To lose its bytes a file is opened for writing too.
fn asked_mode(way: Way) -> Mode
    ensures { result ≡ asked_mode way.flags.0 way.mode }
{
    match way.mode {
        Mode::Reads if is_trunc(way.flags) => Mode::Both,
        _ => way.mode,
    }
}

// The contents of an object have changed, if they have.
fn touch_if(server: &mut Server, is_cut: bool, now: Time, ino: u32)
    requires { 1 ≤ server.old.room }
    ensures kept { server.new.server ≡ touched_if is_cut now ino server.old.server }
{
    if is_cut {
        server.touch(now, ino);
    }
}

// What the kernel may keep of a file that is opened.
fn file_flags(settings: Settings) -> OpenedFlags
    ensures { result ≡ file_flags settings }
{
    if settings.keeping.pages {
        OpenedFlags::KEEP_CACHE
    } else {
        OpenedFlags::from_bits_retain(0)
    }
}

// What is told of a file that was opened.
fn opened_body(server: &Server, handle: u64) -> ReplyBody
    ensures { result ≡ opened_body handle server.now.server }
{
    ReplyBody::Opened(handle, file_flags(server.settings()))
}

// What is told of a file that was opened by its making.
fn created_body(
    server: &Server,
    name_valid: u64,
    handle: u64,
    status: Status,
    stamps: Option<Stamps>,
) -> ReplyBody
    ensures { result ≡ created_body name_valid handle status stamps server.now.server }
{
    ReplyBody::Created {
        node: server.node_of(status.ino),
        name_valid,
        shown: attributes(server, status, stamps),
        handle,
        flags: file_flags(server.settings()),
    }
}

// What open(2) doesn't ask is asked first.
fn ask_first<M: Machine>(session: &mut Session<M>, actor: &Actor, flags: OpenFlags) -> Tried<()>
    requires { actor.now ≡ actor_in actor.now.cred actor.now.start }
    ensures did { Did M.Serves (ask_first actor.now.cred actor.now.start flags.0) session.old session.new result }
    ensures kept { session.new.server ≡ session.old.server }
{
    if !is_exec(flags) {
        return Ok(());
    }
    let run = Call::Access(session.empty_path(), Perms::from_digit(1));
    done(on_once(session, actor, run))
}

// Opens an object: as who asks, or as the server what who asks may run.
fn open_by<M: Machine>(session: &mut Session<M>, actor: &Actor, way: Way) -> Tried<Reply>
    requires { actor.now ≡ actor_in actor.now.cred actor.now.start }
    ensures did { let call = Open [] (opening (asked_mode way.flags.0 way.mode) (is_trunc way.flags.0)) 0 in
        Did M.Serves (on (opener actor.now.cred way.flags.0 way.mode) actor.now.start call) session.old session.new result }
    ensures kept { session.new.server ≡ session.old.server }
{
    let flags = opening(asked_mode(way), is_trunc(way.flags));
    let call = Call::Open(session.empty_path(), flags, 0);
    if is_exec(way.flags) && reads_alone(way.flags, way.mode) {
        return session.on_own(actor.start, call);
    }
    on_once(session, actor, call)
}

// Opens a file, once who asks is known.
fn open_object<M: Machine>(session: &mut Session<M>, now: Time, actor: &Actor, way: Way) -> Replied
    requires actor { actor.now ≡ actor_in actor.now.cred actor.now.start }
    requires room { 1 ≤ session.old.server.room }
    ensures { Did M.Serves (open_object now actor.now.cred actor.now.start way.flags.0 way.mode) session.old session.new result }
{
    ask_first(session, actor, way.flags)?;
    let reply = open_by(session, actor, way)?;
    let (handle, _ino) = replied_opened(reply)?;
    touch_if(&mut session.server, is_trunc(way.flags), now, actor.start);
    Ok(opened_body(&session.server, handle))
}

/// Opens a file.
pub(crate) fn open_file<M: Machine>(
    session: &mut Session<M>,
    asked: Asked,
    flags: OpenFlags,
) -> Replied
    requires room { 1 ≤ session.old.server.room }
    ensures { Did M.Serves (open_file asked flags.0) session.old session.new result }
{
    let ino = session.the_number(asked.node)?;
    let Some(mode) = Mode::of_flags(flags) else {
        return Err(RequestError::EINVAL);
    };
    let cred = who_asks(asked.cred)?;
    open_object(
        session,
        asked.now,
        &actor_in(cred, ino),
        Way { flags, mode },
    )
}

// Whether what has the name is opened where no file was made.
fn may_be_found(error: RequestError, flags: OpenFlags) -> bool
    ensures { result ≡ (is_for EEXIST error && not (is_excl flags.0)) }
{
    error.is_for(Errno::EEXIST) && !is_excl(flags)
}

// The name that was opened.
fn name_opened(call: Call) -> Option<Path>
    ensures { (path : List ℕ) (flags : FlagsOf) (mode : ℕ) → call ≡ Open path flags mode → result ≡ Some path }
{
    match call {
        Call::Open(name, _flags, _mode) => Some(name),
        other => {
            other.discard();
            None
        }
    }
}

// What is opened by a name, and how it is made where there is none.
#[derive(Drop)]
struct NewFile {
    name: Path,
    way: Way,
    mode: u32,
    umask: u16,
}

// Where a file wasn't made, what has the name is opened.
fn or_opened<M: Machine>(
    machine: &mut M,
    cred: Cred,
    dir_ino: u32,
    name: Path,
    way: Way,
    error: RequestError,
) -> Tried<(Reply, bool)>
    ensures { DidByMachine M.Serves (or_opened cred dir_ino name way.mode way.flags.0 (Err error)) machine.old machine.new result }
{
    if !may_be_found(error, way.flags) {
        return Err(error);
    }
    let call = Call::Open(name, opening(asked_mode(way), is_trunc(way.flags)), 0);
    let actor = actor_in(cred, dir_ino);
    let opened = inside(machine, &actor, &call);
    call.discard();
    Ok((opened?, false))
}

// Makes a file, or opens what has the name, and tells whether it is new.
fn open_or_make<M: Machine>(
    machine: &mut M,
    cred: Cred,
    dir_ino: u32,
    file: NewFile,
) -> Tried<(Reply, bool)>
    ensures { let plan = open_or_make cred file.umask dir_ino file.name file.way.mode file.way.flags.0 file.mode in
        DidByMachine M.Serves plan machine.old machine.new result }
{
    let NewFile {
        name,
        way,
        mode,
        umask,
    } = file;
    let call = Call::Open(name, creating(way.mode), (mode & 0o777) as u16);
    let actor = actor_at(cred, umask, dir_ino, dir_ino);
    let first = obtain_at(machine, &actor, &call);
    let Some(name) = name_opened(call) else {
        unreachable!()
    };
    match first {
        Ok(reply) => Ok((reply, true)),
        Err(error) => or_opened(machine, actor.cred, dir_ino, name, way, error),
    }
}

// What stat(2) shows, and the times, where the machine keeps any.
type Timed = (Status, Option<Stamps>);

// What stat(2) shows of an object, and its times.
fn show_timed<M: Machine>(session: &mut Session<M>, ino: u32) -> Tried<Timed>
    ensures did { Did M.Serves (show_timed ino) session.old session.new result }
    ensures kept { session.new.server ≡ session.old.server }
{
    let status = session.look(ino)?;
    let stamps = session.told_stamps(status.ino)?;
    Ok((status, stamps))
}

// What stat(2) shows of what was opened, and its times; where nothing is shown that is closed.
fn look_open<M: Machine>(session: &mut Session<M>, handle: u64, ino: u32) -> Tried<Timed>
    ensures did { Did M.Serves (look_open handle ino) session.old session.new result }
    ensures kept { session.new.server ≡ session.old.server }
{
    let seen = show_timed(session, ino);
    or_closed(&mut session.machine, handle, seen)
}

// When and where a file was opened by a name, and for how many seconds the kernel may keep that.
#[derive(Clone, Copy)]
struct Place {
    now: Time,
    name_valid: u64,
    dir_ino: u32,
}

// Whether what was opened is new, and whether its bytes are gone.
#[derive(Clone, Copy)]
struct Fate {
    is_new: bool,
    is_cut: bool,
}

// What was opened by a name is told.
fn tell_created<M: Machine>(
    session: &mut Session<M>,
    place: Place,
    fate: Fate,
    opened: (u64, u32),
) -> Replied
    requires { 3 ≤ session.old.server.room }
    ensures { let plan = tell_created place.now place.name_valid place.dir_ino fate.is_new fate.is_cut opened in
        Did M.Serves plan session.old session.new result }
{
    let (handle, ino) = opened;
    session
        .server
        .note_opened(place.now, place.dir_ino, ino, fate.is_new, fate.is_cut);
    let (status, stamps) = look_open(session, handle, ino)?;
    Ok(created_body(&session.server, place.name_valid, handle, status, stamps))
}

// Who asks makes the file, or opens it.
fn create_by<M: Machine>(
    session: &mut Session<M>,
    place: Place,
    cred: Cred,
    file: NewFile,
) -> Replied
    requires { 3 ≤ session.old.server.room }
    ensures { let plan = create_by place.now place.name_valid cred
        file.umask place.dir_ino file.name file.way.mode file.way.flags.0 file.mode in
        Did M.Serves plan session.old session.new result }
{
    let is_cut = is_trunc(file.way.flags);
    let (reply, is_new) = open_or_make(&mut session.machine, cred, place.dir_ino, file)?;
    let opened = replied_opened(reply)?;
    tell_created(session, place, Fate { is_new, is_cut }, opened)
}

/// Opens a file by a name, and makes it where there is none.
pub(crate) fn create_file<M: Machine>(
    session: &mut Session<M>,
    asked: Asked,
    name: Path,
    flags: OpenFlags,
    file_mode: u32,
    umask: u32,
) -> Replied
    requires room { 3 ≤ session.old.server.room }
    ensures { Did M.Serves (create_file asked name flags.0 file_mode umask) session.old session.new result }
{
    plain_name(&name)?;
    let Some(mode) = Mode::of_flags(flags) else {
        return Err(RequestError::EINVAL);
    };
    let dir_ino = session.the_number(asked.node)?;
    let name_valid = session.new_valid(dir_ino);
    let cred = who_asks(asked.cred)?;
    let place = Place {
        now: asked.now,
        name_valid,
        dir_ino,
    };
    let file = NewFile {
        name,
        way: Way { flags, mode },
        mode: file_mode,
        umask: (umask & 0o777) as u16,
    };
    create_by(session, place, cred, file)
}

/// Reads what is open.
pub(crate) fn read_file<M: Machine>(session: &mut Session<M>, extent: Extent) -> Replied
    ensures { Did M.Serves (read_file extent) session.old session.new result }
{
    let len = extent.size as usize;
    let call = HandleCall::Read {
        offset: extent.offset,
        len,
    };
    let reply = obtain_by_once(&mut session.machine, extent.handle, call)?;
    match within(len, data_of_reply(reply)) {
        Some(bytes) => Ok(ReplyBody::Bytes(bytes)),
        None => Err(RequestError::EIO),
    }
}

// Where the server keeps times it has to know what was written to.
fn touch_open<M: Machine>(session: &mut Session<M>, now: Time, handle: u64) -> Tried<()>
    requires { 1 ≤ session.old.server.room }
    ensures { Did M.Serves (touch_open now handle) session.old session.new result }
{
    if session.server.settings().keeps_times {
        return Ok(());
    }
    let status = shown(obtain_by_once(&mut session.machine, handle, HandleCall::Show))?;
    session.server.touch(now, status.ino);
    Ok(())
}

/// Writes into what is open.
pub(crate) fn write_file<M: Machine>(
    session: &mut Session<M>,
    now: Time,
    handle: u64,
    offset: u64,
    bytes: &[u8],
) -> Replied
    requires { 1 ≤ session.old.server.room }
    ensures { Did M.Serves (write_file now handle offset bytes.now) session.old session.new result }
{
    within_offsets(offset, bytes)?;
    let count = write_runs(&mut session.machine, handle, offset, bytes)?;
    let _touched = touch_open(session, now, handle);
    Ok(ReplyBody::Wrote(count))
}

/// A handle is closed.
pub(crate) fn close_file<M: Machine>(session: &mut Session<M>, handle: u64) -> Replied
    ensures { Did M.Serves (close_file handle) session.old session.new result }
{
    obtain_by_once(&mut session.machine, handle, HandleCall::Close)?.discard();
    Ok(ReplyBody::Nothing)
}
