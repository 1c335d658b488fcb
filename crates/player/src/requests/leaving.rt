//! What has to hold of a file system once its server has ended.

use anyhow::{anyhow, bail};
use fs_check::{Summary, check};
use fs_cred::{Cred, Errno, Refusal};
use fs_layout::ROOT;
use fs_lines::{Line, parse_line, reply_text};
use fs_model::{Actor, Call, Event, HandleCall, Listing, Named, Path, Reply};
use fs_system::Fs;
use sector_disk::MemDisk;
use std::alloc::{AllocError, Global};
use std::mem;

// The most processes that there may be.
const MAX_PROCESSES: usize = 64;

// More than there are handles.
const MOST_HANDLES: u64 = 1000;

// More than there are names.
const MOST_STEPS: u32 = 100_000;

// What a reply tells those who look.
#[derive(Clone, Copy)]
enum Answer {
    Done,
    Failed(Errno),
    Other,
}

/// There are no processes; once all handles are closed, all names can be removed; and what is left on the disk is an empty root.
pub fn look_after(alloc: Global, fs: Fs<MemDisk>) -> anyhow::Result<()> {
    let mut fs = fs;
    match clear(alloc, &mut fs) {
        Ok(()) => look_at_disk(alloc, fs),
        Err(fault) => {
            mem::drop(fs);
            Err(fault)
        }
    }
}

fn clear(alloc: Global, fs: &mut Fs<MemDisk>) -> anyhow::Result<()> {
    let mut server = server_at_root(alloc)?;
    let cleared = clear_as(alloc, fs, &mut server);
    mem::drop(server);
    cleared
}

fn clear_as(alloc: Global, fs: &mut Fs<MemDisk>, server: &mut Actor) -> anyhow::Result<()> {
    open_root(alloc, fs, server)?;
    for pid in 1..=MAX_PROCESSES {
        find_none(alloc, fs, pid)?;
    }
    for handle in 0..MOST_HANDLES {
        close(fs, handle);
    }
    remove_all(alloc, fs, server)
}

// The server as an actor, which has all capabilities.
fn server_at_root(alloc: Global) -> anyhow::Result<Actor> {
    let Ok(cred) = Cred::new(alloc, 0, 0, &[]) else {
        bail!("memory is lacking");
    };
    Ok(Actor {
        cred,
        umask: 0,
        start: ROOT,
        second_start: ROOT,
    })
}

fn look_at_disk(alloc: Global, fs: Fs<MemDisk>) -> anyhow::Result<()> {
    let (mut disk, errno) = fs.unmount();
    let checked = check(alloc, &mut disk);
    mem::drop(disk);
    if errno.is_some() {
        bail!("unmount failed");
    }
    if !is_empty(&checked?) {
        bail!("objects are left");
    }
    Ok(())
}

fn is_empty(summary: &Summary) -> bool {
    (summary.files, summary.dirs, summary.links, summary.nameless) == (0, 1, 0, 0)
}

fn path(alloc: Global, bytes: &[u8]) -> Result<Path, AllocError> {
    Path::from_slice(alloc, bytes)
}

// The reply to a call of the server.
fn asked(fs: &mut Fs<MemDisk>, server: &Actor, call: Call) -> Reply {
    let reply = fs.call_at(server, &call);
    call.discard();
    reply
}

// The reply to what is done by a handle.
fn asked_by(fs: &mut Fs<MemDisk>, handle: u64, call: HandleCall) -> Reply {
    let reply = fs.call_by(handle, &call);
    mem::drop(call);
    reply
}

// The call of a line.
fn call_of(alloc: Global, line: &str) -> anyhow::Result<Call> {
    match parse_line(alloc, line.as_bytes()) {
        Ok(Line::Event(Event::Call(_, call))) => Ok(call),
        Ok(Line::Event(event)) => {
            event.discard();
            bail!("{line}")
        }
        Ok(Line::Blank) | Err(_) => bail!("{line}"),
    }
}

fn answer_in(reply: &Reply) -> Answer {
    match reply {
        Reply::Done => Answer::Done,
        Reply::Refused(Refusal::Failed(errno)) => Answer::Failed(*errno),
        _ => Answer::Other,
    }
}

fn text_of(alloc: Global, reply: Reply) -> Result<String, AllocError> {
    let text = reply_text(alloc, &reply);
    reply.discard();
    text
}

fn unexpected(alloc: Global, asked: &str, reply: Reply) -> anyhow::Error {
    match text_of(alloc, reply) {
        Ok(reply) => anyhow!("{asked}: {reply}"),
        Err(fault) => anyhow::Error::from(fault),
    }
}

// Lets everybody search the root.
fn open_root(alloc: Global, fs: &mut Fs<MemDisk>, server: &Actor) -> anyhow::Result<()> {
    let call = call_of(alloc, "1 setacl / access u::rwx,g::rwx,o::rwx")?;
    match asked(fs, server, call) {
        Reply::Done => Ok(()),
        other => Err(unexpected(alloc, "setacl", other)),
    }
}

// There is no such process.
fn find_none(alloc: Global, fs: &mut Fs<MemDisk>, pid: usize) -> anyhow::Result<()> {
    let call = Call::Lstat(path(alloc, b".")?);
    let reply = fs.call(pid, &call);
    call.discard();
    match answer_in(&reply) {
        Answer::Failed(Errno::ESRCH) => {
            reply.discard();
            Ok(())
        }
        _ => {
            let reply = text_of(alloc, reply)?;
            bail!("process {pid}: {reply}")
        }
    }
}

fn close(fs: &mut Fs<MemDisk>, handle: u64) {
    asked_by(fs, handle, HandleCall::Close).discard();
}

// Removes all that has a name.
fn remove_all(alloc: Global, fs: &mut Fs<MemDisk>, server: &mut Actor) -> anyhow::Result<()> {
    let mut above = Vec::new(alloc);
    above.push(ROOT)?;
    let removed = remove_below(alloc, fs, server, &mut above);
    mem::drop(above);
    removed
}

// Removes all names in these directories, of which each one stands in the one before it.
fn remove_below(
    alloc: Global,
    fs: &mut Fs<MemDisk>,
    server: &mut Actor,
    above: &mut Vec<u32>,
) -> anyhow::Result<()> {
    for _ in 0..MOST_STEPS {
        let Some(directory) = above.last().copied() else {
            return Ok(());
        };
        server.start = directory;
        server.second_start = directory;
        remove_first(alloc, fs, server, above)?;
    }
    bail!("too many names")
}

// Removes the first name in the last of these directories, goes below it, or goes up again where there is none.
fn remove_first(
    alloc: Global,
    fs: &mut Fs<MemDisk>,
    server: &Actor,
    above: &mut Vec<u32>,
) -> anyhow::Result<()> {
    let Some(named) = first_named(alloc, fs, server)? else {
        above.pop();
        return Ok(());
    };
    let ino = named.ino;
    let removed = remove(alloc, fs, server, &named);
    mem::drop(named);
    if !removed? {
        above.push(ino)?;
    }
    Ok(())
}

// Opens the directory at which the server stands.
fn open_here(alloc: Global, fs: &mut Fs<MemDisk>, server: &Actor) -> anyhow::Result<u64> {
    let call = call_of(alloc, "1 open . rd")?;
    match asked(fs, server, call) {
        Reply::Opened { handle, .. } => Ok(handle),
        other => Err(unexpected(alloc, "open", other)),
    }
}

fn names_in(alloc: Global, fs: &mut Fs<MemDisk>, handle: u64) -> anyhow::Result<Listing> {
    match asked_by(fs, handle, HandleCall::List) {
        Reply::Names(listing) => Ok(listing),
        other => Err(unexpected(alloc, "list", other)),
    }
}

// The first name but for the two that each directory has.
fn first_of(listing: Listing) -> Option<Named> {
    listing
        .into_names()
        .into_iter()
        .find(|named| !is_own(named))
}

fn is_own(named: &Named) -> bool {
    named.name.bytes() == b".".as_slice() || named.name.bytes() == b"..".as_slice()
}

// The first name in the directory at which the server stands.
fn first_named(
    alloc: Global,
    fs: &mut Fs<MemDisk>,
    server: &Actor,
) -> anyhow::Result<Option<Named>> {
    let handle = open_here(alloc, fs, server)?;
    let listing = names_in(alloc, fs, handle)?;
    close(fs, handle);
    Ok(first_of(listing))
}

// Removes a name there; false where it leads to a directory that isn't empty.
fn remove(
    alloc: Global,
    fs: &mut Fs<MemDisk>,
    server: &Actor,
    named: &Named,
) -> anyhow::Result<bool> {
    let call = Call::Rmdir(path(alloc, named.name.bytes())?);
    let reply = asked(fs, server, call);
    match answer_in(&reply) {
        Answer::Failed(Errno::ENOTDIR) => {
            reply.discard();
            unlink(alloc, fs, server, named)
        }
        _ => is_removed(alloc, reply),
    }
}

fn unlink(
    alloc: Global,
    fs: &mut Fs<MemDisk>,
    server: &Actor,
    named: &Named,
) -> anyhow::Result<bool> {
    let call = Call::Unlink(path(alloc, named.name.bytes())?);
    is_removed(alloc, asked(fs, server, call))
}

fn is_removed(alloc: Global, reply: Reply) -> anyhow::Result<bool> {
    let is_done = match answer_in(&reply) {
        Answer::Done => true,
        Answer::Failed(Errno::ENOTEMPTY) => false,
        _ => return Err(unexpected(alloc, "remove", reply)),
    };
    reply.discard();
    Ok(is_done)
}
