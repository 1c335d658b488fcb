//! Makes objects of a file system as those of the host are.
ghost use Rattle.host_trees.specs.Copies.{Asks, IsMaking};

use crate::asker::Asker;
use crate::entry::{Entry, OF_DIRECTORIES};
use crate::file_system::FileSystem;
use crate::lack::Lack;
use crate::place::Place;
use crate::replies::status_in;
use crate::times::Times;
use crate::work::{Made, Object, Work, hand_for, path_of};
use crate::writing::write_contents;
use fs_layout::ROOT;
use fs_model::{Call, Event, Path};
use std::alloc::Global;
use std::fs::{self, OpenFile};
use std::io::Read;
use std::rt::Files;

/// Makes a directory. Its set-group-ID bit and its times wait until its names are there.
pub(crate) fn pack_directory<M: FileSystem>(
    asker: &mut Asker<M>,
    work: &mut Work,
    object: &Object<'_>,
    entry: Entry,
) -> Result<(), Lack>
    ensures { Asks M.Serves IsMaking asker.old.machine asker.new.machine asker.old.is_whole asker.new.is_whole }
{
    let pid = hand_for(asker, work, entry.owner)?;
    let place = place_of(work, pid, object);
    let path = place.path()?;
    asker.perform(pid, Call::Mkdir(path, entry.first_mode()))?;
    let status = place.status(asker)?;
    work.keep_directory(object, status.ino, entry)
}

/// Makes a file, with what one of the host holds.
pub(crate) fn pack_file<R: Files, M: FileSystem>(
    rt: &R,
    asker: &mut Asker<M>,
    work: &mut Work,
    object: &Object<'_>,
    entry: Entry,
) -> Result<(), Lack>
    ensures { Asks M.Serves IsMaking asker.old.machine asker.new.machine asker.old.is_whole asker.new.is_whole }
{
    let mut file = open_file(rt, object, entry)?;
    let pid = hand_for(asker, work, entry.owner)?;
    let place = place_of(work, pid, object);
    let fd = place.create(asker, entry.file_mode())?;
    fill_file(asker, work, pid, fd, &mut file, entry)
}

// Opens a file of the host that was seen.
fn open_file<R: Files>(rt: &R, object: &Object<'_>, entry: Entry) -> Result<R::File, Lack> {
    let file = fs::open(rt, object.reached.as_str())?;
    entry.identity.check(&file.metadata()?)?;
    Ok(file)
}

// Gives an open file its bytes and its times, and closes it.
fn fill_file<F: Read, M: FileSystem>(
    asker: &mut Asker<M>,
    work: &mut Work,
    pid: usize,
    fd: usize,
    file: &mut F,
    entry: Entry,
) -> Result<(), Lack>
    ensures { Asks M.Serves IsMaking asker.old.machine asker.new.machine asker.old.is_whole asker.new.is_whole }
{
    let written = write_contents(work.alloc, asker, pid, fd, file, &mut work.room);
    let stamped = stamp_open(asker, pid, fd, entry.times);
    let closed = asker.perform(pid, Call::Close(fd));
    written.and(stamped).and(closed)
}

/// Makes a symbolic link to where one of the host leads.
pub(crate) fn pack_link<R: Files + AllocGlobal, M: FileSystem>(
    rt: &R,
    asker: &mut Asker<M>,
    work: &mut Work,
    object: &Object<'_>,
    entry: Entry,
) -> Result<(), Lack>
    ensures { Asks M.Serves IsMaking asker.old.machine asker.new.machine asker.old.is_whole asker.new.is_whole }
{
    let target = target_of(rt, work.alloc, object, entry)?;
    let pid = hand_for(asker, work, entry.owner)?;
    let place = place_of(work, pid, object);
    let path = place.path()?;
    asker.perform(pid, Call::Symlink { target, path })?;
    stamp_at(asker, place, entry.times)
}

// Where a symbolic link of the host leads, if it is still the one that was seen.
fn target_of<R: Files + AllocGlobal>(
    rt: &R,
    alloc: Global,
    object: &Object<'_>,
    entry: Entry,
) -> Result<Path, Lack> {
    let reached = object.reached.as_str();
    let leads = fs::read_link(rt, reached);
    entry.identity.check(&fs::symlink_metadata(rt, reached)?)?;
    Ok(path_of(alloc, leads?.as_str())?)
}

/// Gives an object that was copied before another name.
pub(crate) fn pack_other_name<M: FileSystem>(
    asker: &mut Asker<M>,
    work: &mut Work,
    first: Path,
    object: &Object<'_>,
    entry: Entry,
) -> Result<(), Lack>
    ensures { Asks M.Serves IsMaking asker.old.machine asker.new.machine asker.old.is_whole asker.new.is_whole }
{
    let pid = hand_for(asker, work, entry.owner)?;
    let place = place_of(work, pid, object);
    let new = place.path()?;
    asker.perform(pid, Call::Link { old: first, new })?;
    stamp_at(asker, place, entry.times)
}

// Where an object stands in the file system, for the process that makes it.
fn place_of<'a>(work: &Work, pid: usize, object: &'a Object<'_>) -> Place<'a> {
    Place {
        alloc: work.alloc,
        pid,
        inside: object.inside.as_bytes(),
    }
}

// ---- times

// Gives what stands at a place its times.
fn stamp_at<M: FileSystem>(
    asker: &mut Asker<M>,
    place: Place<'_>,
    times: Option<Times>,
) -> Result<(), Lack>
    ensures { Asks M.Serves IsMaking asker.old.machine asker.new.machine asker.old.is_whole asker.new.is_whole }
{
    let status = place.status(asker)?;
    stamp(asker, status.ino, times)
}

// Gives an open file its times.
fn stamp_open<M: FileSystem>(
    asker: &mut Asker<M>,
    pid: usize,
    fd: usize,
    times: Option<Times>,
) -> Result<(), Lack>
    ensures { Asks M.Serves IsMaking asker.old.machine asker.new.machine asker.old.is_whole asker.new.is_whole }
{
    let status = status_in(asker.call(pid, Call::Fstat(fd))?)?;
    stamp(asker, status.ino, times)
}

// Gives an object its times, if they are known.
fn stamp<M: FileSystem>(asker: &mut Asker<M>, ino: u32, times: Option<Times>) -> Result<(), Lack>
    ensures { Asks M.Serves IsMaking asker.old.machine asker.new.machine asker.old.is_whole asker.new.is_whole }
{
    match times {
        Some(times) => set_times(asker, ino, times),
        None => Ok(()),
    }
}

fn set_times<M: FileSystem>(asker: &mut Asker<M>, ino: u32, times: Times) -> Result<(), Lack>
    ensures { Asks M.Serves IsMaking asker.old.machine asker.new.machine asker.old.is_whole asker.new.is_whole }
{
    let event = Event::Stamp {
        ino,
        atime: Some(times.accessed),
        mtime: Some(times.modified),
        ctime: Some(times.changed),
    };
    asker.obtain(event)?.discard();
    Ok(())
}

// ---- when all names are there

/// Gives a directory its set-group-ID bit and its times, and the root its owner and its mode too.
pub(crate) fn finish_directory<M: FileSystem>(
    asker: &mut Asker<M>,
    work: &mut Work,
    made: &Made,
) -> Result<(), Lack>
    ensures { Asks M.Serves IsMaking asker.old.machine asker.new.machine asker.old.is_whole asker.new.is_whole }
{
    give_bits(asker, work, made)?;
    stamp(asker, made.ino, made.entry.times)?;
    root_lack(made)
}

// What the root has and can't have there; of others that is told where they are made.
fn root_lack(made: &Made) -> Result<(), Lack> {
    if made.ino == ROOT {
        made.entry.lack(OF_DIRECTORIES)
    } else {
        Ok(())
    }
}

fn give_bits<M: FileSystem>(asker: &mut Asker<M>, work: &mut Work, made: &Made) -> Result<(), Lack>
    ensures { Asks M.Serves IsMaking asker.old.machine asker.new.machine asker.old.is_whole asker.new.is_whole }
{
    if made.ino == ROOT {
        return give_root(asker, work, made);
    }
    if made.entry.waits() {
        return give_mode(asker, work, made);
    }
    Ok(())
}

// Gives the root its owner and its mode.
fn give_root<M: FileSystem>(asker: &mut Asker<M>, work: &mut Work, made: &Made) -> Result<(), Lack>
    ensures { Asks M.Serves IsMaking asker.old.machine asker.new.machine asker.old.is_whole asker.new.is_whole }
{
    let owner = made.entry.owner;
    let pid = hand_for(asker, work, owner)?;
    let path = path_of(work.alloc, made.inside.as_str())?;
    let call = Call::Chown {
        path,
        owner: Some(owner.user),
        group: Some(owner.group),
    };
    asker.perform(pid, call)?;
    give_mode(asker, work, made)
}

// Gives a directory its mode.
fn give_mode<M: FileSystem>(asker: &mut Asker<M>, work: &mut Work, made: &Made) -> Result<(), Lack>
    ensures { Asks M.Serves IsMaking asker.old.machine asker.new.machine asker.old.is_whole asker.new.is_whole }
{
    let pid = hand_for(asker, work, made.entry.owner)?;
    let path = path_of(work.alloc, made.inside.as_str())?;
    asker.perform(pid, Call::Chmod(path, made.entry.directory_mode()))
}
