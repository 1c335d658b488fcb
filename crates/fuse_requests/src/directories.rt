//! Requests for directories. An open one holds no handle of the machine.
ghost use Rattle.std.specs.Prelude.{◌≡◌, ◌+◌, ◌≤◌, [], vec_capacity, Err, IsSome, OnOk, IfErr};
ghost use Rattle.fuse_plans.specs.DirectoryPlans.{ask_reading, open_directory, directory_flags, opened_directory_body, take_directory, list_opened, list_all, list_now, list_kept, read_directory, close_directory};
ghost use Rattle.fuse_plans.specs.Works.{of_result};
ghost use Rattle.fuse_state.specs.Servers.{directory_of};
ghost use Rattle.fuse_requests.specs.Listings.{Listed};
ghost use Rattle.fuse_sessions.specs.Performing.{Did};

use crate::attributes::on_once;
use bitflags::Flags as _;
use fs_cred::Cred;
use fs_model::{Call, Listing, Reply};
use fuse_plans::{Asked, OtherErrno, Replied, ReplyBody, RequestError, Tried};
use fuse_protocol::{Extent, OpenedFlags};
use fuse_sessions::Session;
use fuse_state::{Server, Settings};
use fuse_steps::Machine;
use fuse_steps::asker::{actor_in, who_asks};
use fuse_steps::changes::or_removed;
use fuse_steps::cursor::in_order;
use fuse_steps::directory::list_and_close;
use fuse_steps::flags::listing;
use fuse_steps::listing::listing_bytes;
use fuse_steps::seen::replied_opened;
use posix_acl::Perms;
use std::alloc::Global;

// What the kernel may keep of a directory that is opened.
fn directory_flags(settings: Settings) -> OpenedFlags
    ensures { result ≡ directory_flags settings }
{
    let bits = if settings.keeping.pages {
        OpenedFlags::KEEP_CACHE.bits() + OpenedFlags::CACHE_DIR.bits()
    } else {
        0
    };
    OpenedFlags::from_bits_retain(bits)
}

// What is told of a directory that was opened.
fn opened_body(server: &Server, handle: u64) -> ReplyBody
    ensures { result ≡ opened_directory_body handle server.now.server }
{
    ReplyBody::Opened(handle, directory_flags(server.settings()))
}

// Whether somebody may read a directory.
fn ask_reading<M: Machine>(session: &mut Session<M>, cred: Cred, node: u64) -> Tried<Reply>
    ensures did { Did M.Serves (ask_reading cred node) session.old session.new result }
    ensures kept { session.new.server ≡ session.old.server }
{
    let ino = session.the_number(node)?;
    let actor = actor_in(cred, ino);
    let call = Call::Access(session.empty_path(), Perms::from_digit(4));
    on_once(session, &actor, call)
}

/// Opens a directory, for reading by who asks; of one that was removed nothing is asked.
pub(crate) fn open_directory<M: Machine>(session: &mut Session<M>, asked: Asked) -> Replied
    requires room { 1 ≤ session.old.server.room }
    ensures { Did M.Serves (open_directory asked) session.old session.new result }
{
    let cred = who_asks(asked.cred)?;
    let owner = cred.uid();
    or_removed(ask_reading(session, cred, asked.node))?;
    take_directory(session, owner, asked.node)
}

// Where the user may open one more.
fn take_directory<M: Machine>(session: &mut Session<M>, owner: u32, node: u64) -> Replied
    requires { 1 ≤ session.old.server.room }
    ensures { Did M.Serves (take_directory owner node) session.old session.new result }
{
    if !session.server.may_open_directory(owner) {
        return Err(RequestError::ENFILE);
    }
    let handle = session.server.next_directory();
    session.server.add_directory(owner, node);
    Ok(opened_body(&session.server, handle))
}

// The names in what was opened, and then it is closed; none where the directory was removed.
fn list_opened<M: Machine>(session: &mut Session<M>, opened: Tried<Reply>) -> Tried<Listing>
    ensures did { Did M.Serves (list_opened opened) session.old session.new result }
    ensures kept { session.new.server ≡ session.old.server }
{
    match opened {
        Ok(reply) => {
            let (handle, _ino) = replied_opened(reply)?;
            list_and_close(&mut session.machine, handle)
        }
        Err(error) => none_if_gone(session.alloc, error),
    }
}

// A directory that was removed has no names.
fn none_if_gone(alloc: Global, error: RequestError) -> Tried<Listing>
    ensures { list_opened (Err error) ≡ of_result result }
{
    match error {
        RequestError::Lacks(OtherErrno::ESTALE) => Ok(Listing::new(Vec::new(alloc))),
        error => Err(error),
    }
}

// The names in a directory, as the server sees them.
fn list_all<M: Machine>(session: &mut Session<M>, ino: u32) -> Tried<Listing>
    ensures did { Did M.Serves (list_all ino) session.old session.new result }
    ensures kept { session.new.server ≡ session.old.server }
{
    let call = Call::Open(session.empty_path(), listing(), 0);
    let opened = session.on_own(ino, call);
    list_opened(session, opened)
}

/// The names of an open directory are those that it was listed with last, through whichever handle. At the beginning it is listed anew.
pub(crate) fn list_kept<M: Machine>(
    session: &mut Session<M>,
    node: u64,
    extent: Extent,
) -> Tried<()>
    requires { 1 ≤ session.old.server.room }
    ensures listed { OnOk result (Listed M.Serves (list_kept node extent) session.old session.new extent.handle) }
    ensures failed { IfErr result (λ e. Did M.Serves (list_kept node extent) session.old session.new (Err e)) }
    ensures room { session.old.server.room ≤ session.new.server.room + 1 }
{
    let Some(open) = session.server.directory_of(extent.handle) else {
        return Err(RequestError::EBADF);
    };
    let opened = open.node;
    if extent.offset != 0 && session.server.listing_of(extent.handle).is_some() {
        return Ok(());
    }
    list_now(session, node, extent.handle, opened)
}

// The names that are there now, in the directory of the node, if that is the one that is open.
fn list_now<M: Machine>(session: &mut Session<M>, node: u64, handle: u64, opened: u64) -> Tried<()>
    requires known { IsSome (directory_of session.old.server.server handle) }
    requires room { 1 ≤ session.old.server.room }
    ensures listed { OnOk result (Listed M.Serves (list_now node handle opened) session.old session.new handle) }
    ensures failed { IfErr result (λ e. Did M.Serves (list_now node handle opened) session.old session.new (Err e)) }
    ensures room { session.old.server.room ≤ session.new.server.room + 1 }
{
    let ino = session.the_number(node)?;
    if node != opened {
        return Err(RequestError::ESTALE);
    }
    let names = list_all(session, ino)?;
    session.server.set_listing(handle, in_order(names));
    Ok(())
}

/// The entries of a directory, with room for so many bytes.
pub(crate) fn read_directory<M: Machine>(
    session: &mut Session<M>,
    node: u64,
    extent: Extent,
    room: Vec<u8>,
) -> Replied
    requires empty { room.items ≡ [] }
    requires capacity { extent.size ≤ vec_capacity room }
    requires room { 1 ≤ session.old.server.room }
    ensures { Did M.Serves (read_directory node extent) session.old session.new result }
{
    list_kept(session, node, extent)?;
    let Some(names) = session.server.listing_of(extent.handle) else {
        unreachable!()
    };
    Ok(ReplyBody::Bytes(listing_bytes(extent, names, room)))
}

/// A directory is closed.
pub(crate) fn close_directory<M: Machine>(session: &mut Session<M>, handle: u64) -> Replied
    ensures { Did M.Serves (close_directory handle) session.old session.new result }
{
    session.server.remove_directory(handle);
    Ok(ReplyBody::Nothing)
}
