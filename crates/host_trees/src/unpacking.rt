//! Copies the tree of a file system to the host.
ghost use Rattle.std.specs.Prelude.{◌≡◌, IsTrue};
ghost use Rattle.fs_model.specs.Reading.{IsReading};
ghost use Rattle.host_trees.specs.Copies.{Asks, AreUnpacking, Copies, AsksTelling, is_copied_whole};

use crate::asker::{Asker, name_if_lacking, name_lack};
use crate::fault::{Copied, CopyFault};
use crate::file_system::FileSystem;
use crate::held::path_through;
use crate::lack::Lack;
use crate::lists::{Grants, grants_of};
use crate::new_directory::{make_and_hold, make_file, make_private};
use crate::place::{Opened, Place};
use crate::replies::{listing_in, pid_in, stamps_in, target_in};
use crate::times::file_times;
use crate::writing::read_contents;
use fs_cred::Cred;
use fs_model::{Call, Event, FileType, Listing, Named, Path, Stamps, Status};
use std::alloc::{AllocError, Global};
use std::collections::BTreeMap;
use std::fs::{self, OpenFile, Permissions};
use std::io::{self, Write};
use std::mem;
use std::os::fd::AsRawFd;
use std::os::unix::fs::{PermissionsExt, symlink};
use std::rt::Files;

// An object that is still to be copied: its path in the file system, which is empty for the root, and on the host, as it is told and
// as it is reached.
#[derive(Drop)]
struct Pending {
    inside: Vec<u8>,
    host: String,
    reached: String,
}

// A directory that was made on the host, by its paths there, and what it gets once its names are there.
#[derive(Drop)]
struct Made {
    host: String,
    reached: String,
    ino: u32,
    grants: Grants,
}

// What is still to be done.
#[derive(Drop)]
struct Work {
    alloc: Global,
    pid: usize,
    pending: Vec<Pending>,
    made: Vec<Made>,
    // Where objects with several names were copied, by their numbers.
    names: BTreeMap<u32, String>,
}

impl Work {
    // Keeps in mind what is still to be done of a directory that was made on the host.
    fn keep_directory(
        &mut self,
        object: Pending,
        ino: u32,
        grants: Grants,
    ) -> Result<(), AllocError> {
        self.made.push(Made {
            host: String::from_str(self.alloc, object.host.as_str())?,
            reached: String::from_str(self.alloc, object.reached.as_str())?,
            ino,
            grants,
        })?;
        self.pending.push(object)?;
        Ok(())
    }

    // A place in the file system, for the process that reads it.
    fn place<'a>(&self, inside: &'a [u8]) -> Place<'a> {
        Place {
            alloc: self.alloc,
            pid: self.pid,
            inside,
        }
    }
}

/// Copies the tree of a file system to a new directory of the host. All belongs to who calls this. The events that are asked of
/// the file system only look.
///
/// What can't be copied is named, and left out; what the host can't keep of an object is named, and the object is there without it.
/// Where all was copied the host has each file in full, on its disk too.
///
/// The directory is held open from the time it was made, and all else is made through it: nothing is made elsewhere, whatever becomes
/// of its path.
pub fn unpack<R: Files<File: AsRawFd> + AllocGlobal, M: FileSystem, E: Write>(
    rt: &R,
    machine: M,
    to: &str,
    err: &mut E,
) -> (Result<Copied, CopyFault>, M)
    ensures copies { Copies M.Serves machine result.1 (λ asked. AreUnpacking asked result.0) }
    ensures silent { IsTrue (is_copied_whole result.0) → err.new ≡ err.old }
{
    let mut asker = Asker::new(machine);
    let unpacked = unpack_tree(rt, &mut asker, to, err);
    (unpacked, asker.into_machine())
}

fn unpack_tree<R: Files<File: AsRawFd> + AllocGlobal, M: FileSystem, E: Write>(
    rt: &R,
    asker: &mut Asker<M>,
    to: &str,
    err: &mut E,
) -> Result<Copied, CopyFault>
    ensures copies { Copies M.Serves asker.old.machine asker.new.machine (λ asked. AreUnpacking asked result) }
    ensures silent { IsTrue (is_copied_whole result) → err.new ≡ err.old }
{
    match unpack_all(rt, asker, to, err) {
        Ok(()) => Ok(asker.copied()),
        Err(fault) => Err(fault),
    }
}

fn unpack_all<R: Files<File: AsRawFd> + AllocGlobal, M: FileSystem, E: Write>(
    rt: &R,
    asker: &mut Asker<M>,
    to: &str,
    err: &mut E,
) -> Result<(), CopyFault>
    ensures { AsksTelling M.Serves IsReading asker.old.machine asker.new.machine asker.old.is_whole asker.new.is_whole err.old err.new }
{
    match spawn_reader(asker, rt.alloc()) {
        Ok(pid) => unpack_by(rt, asker, pid, to, err),
        Err(_) => Err(CopyFault::OutOfMemory),
    }
}

// Copies the tree by the calls of a process.
fn unpack_by<R: Files<File: AsRawFd> + AllocGlobal, M: FileSystem, E: Write>(
    rt: &R,
    asker: &mut Asker<M>,
    pid: usize,
    to: &str,
    err: &mut E,
) -> Result<(), CopyFault>
    ensures { AsksTelling M.Serves IsReading asker.old.machine asker.new.machine asker.old.is_whole asker.new.is_whole err.old err.new }
{
    let alloc = rt.alloc();
    let mut work = Work {
        alloc,
        pid,
        pending: Vec::new(alloc),
        made: Vec::new(alloc),
        names: BTreeMap::new(alloc),
    };
    match unpack_root(rt, asker, &mut work, to) {
        Ok(top) => {
            unpack_rest(rt, asker, &mut work, err);
            mem::drop(top);
            Ok(())
        }
        Err(fault) => Err(fault),
    }
}

// A new process of user 0.
fn spawn_reader<M: FileSystem>(asker: &mut Asker<M>, alloc: Global) -> Result<usize, Lack>
    ensures { Asks M.Serves IsReading asker.old.machine asker.new.machine asker.old.is_whole asker.new.is_whole }
{
    let cred = root_cred(alloc)?;
    pid_in(asker.obtain(Event::Spawn(cred))?)
}

fn root_cred(alloc: Global) -> Result<Cred, Lack> {
    match Cred::new(alloc, 0, 0, &[]) {
        Ok(cred) => Ok(cred),
        Err(_) => Err(Lack::Memory),
    }
}

// What stands at a place, and what it gets on the host.
fn seen_at<M: FileSystem>(asker: &mut Asker<M>, place: Place<'_>) -> Result<(Status, Grants), Lack>
    ensures { Asks M.Serves IsReading asker.old.machine asker.new.machine asker.old.is_whole asker.new.is_whole }
{
    let status = place.status(asker)?;
    let grants = grants_of(asker, place, status)?;
    Ok((status, grants))
}

// ---- the walk

// Makes the directory for the root, which is reached as long as it is open.
fn unpack_root<R: Files<File: AsRawFd> + AllocGlobal, M: FileSystem>(
    rt: &R,
    asker: &mut Asker<M>,
    work: &mut Work,
    to: &str,
) -> Result<R::File, CopyFault>
    ensures { Asks M.Serves IsReading asker.old.machine asker.new.machine asker.old.is_whole asker.new.is_whole }
{
    match seen_at(asker, work.place(b"/")) {
        Ok((status, grants)) => make_top(rt, work, to, status.ino, grants),
        Err(_) => Err(CopyFault::NoDirectory),
    }
}

fn make_top<R: Files<File: AsRawFd> + AllocGlobal>(
    rt: &R,
    work: &mut Work,
    to: &str,
    ino: u32,
    grants: Grants,
) -> Result<R::File, CopyFault> {
    let top = make_and_hold(rt, to)?;
    let object = Pending {
        inside: Vec::new(work.alloc),
        host: String::from_str(work.alloc, to)?,
        reached: path_through(work.alloc, &top)?,
    };
    work.keep_directory(object, ino, grants)?;
    Ok(top)
}

// Copies all that is below the root, and finishes the directories.
fn unpack_rest<R: Files + AllocGlobal, M: FileSystem, E: Write>(
    rt: &R,
    asker: &mut Asker<M>,
    work: &mut Work,
    err: &mut E,
)
    ensures { AsksTelling M.Serves IsReading asker.old.machine asker.new.machine asker.old.is_whole asker.new.is_whole err.old err.new }
{
    unpack_directories(rt, asker, work, err);
    finish_directories(rt, asker, work, err);
}

// Makes a directory of the host, whose names are then still to be copied.
fn make_directory<R: Files>(
    rt: &R,
    work: &mut Work,
    object: Pending,
    ino: u32,
    grants: Grants,
) -> Result<(), Lack> {
    make_private(rt, object.reached.as_str())?;
    work.keep_directory(object, ino, grants)?;
    Ok(())
}

// Copies the names of all directories that are still to be copied.
fn unpack_directories<R: Files + AllocGlobal, M: FileSystem, E: Write>(
    rt: &R,
    asker: &mut Asker<M>,
    work: &mut Work,
    err: &mut E,
)
    ensures { AsksTelling M.Serves IsReading asker.old.machine asker.new.machine asker.old.is_whole asker.new.is_whole err.old err.new }
{
    // Bounded, since each function has to end.
    for _ in 0..u64::MAX {
        let Some(directory) = work.pending.pop() else {
            return;
        };
        unpack_below(rt, asker, work, &directory, err);
    }
}

// Copies the names of a directory.
fn unpack_below<R: Files + AllocGlobal, M: FileSystem, E: Write>(
    rt: &R,
    asker: &mut Asker<M>,
    work: &mut Work,
    directory: &Pending,
    err: &mut E,
)
    ensures { AsksTelling M.Serves IsReading asker.old.machine asker.new.machine asker.old.is_whole asker.new.is_whole err.old err.new }
{
    match listing_of(asker, work, directory) {
        Ok(listing) => unpack_names(rt, asker, work, directory, names_below(&listing), err),
        Err(lack) => name_lack(asker, err, directory.host.as_str(), lack),
    }
}

// The names in a directory: its own and that of the one above come first, and aren't among them.
fn names_below(listing: &Listing) -> &[Named] {
    listing.names().get(2..).unwrap_or(&[])
}

// Copies what has these names in a directory.
fn unpack_names<R: Files + AllocGlobal, M: FileSystem, E: Write>(
    rt: &R,
    asker: &mut Asker<M>,
    work: &mut Work,
    directory: &Pending,
    names: &[Named],
    err: &mut E,
)
    ensures { AsksTelling M.Serves IsReading asker.old.machine asker.new.machine asker.old.is_whole asker.new.is_whole err.old err.new }
{
    for named in names {
        unpack_name(rt, asker, work, directory, named.name.bytes(), err);
    }
}

// Copies what has this name in a directory.
fn unpack_name<R: Files + AllocGlobal, M: FileSystem, E: Write>(
    rt: &R,
    asker: &mut Asker<M>,
    work: &mut Work,
    directory: &Pending,
    name: &[u8],
    err: &mut E,
)
    ensures { AsksTelling M.Serves IsReading asker.old.machine asker.new.machine asker.old.is_whole asker.new.is_whole err.old err.new }
{
    match below(work.alloc, directory, name) {
        Ok(object) => unpack_named(rt, asker, work, &object, err),
        Err(lack) => name_lack(asker, err, directory.host.as_str(), lack),
    }
}

fn unpack_named<R: Files + AllocGlobal, M: FileSystem, E: Write>(
    rt: &R,
    asker: &mut Asker<M>,
    work: &mut Work,
    object: &Pending,
    err: &mut E,
)
    ensures { AsksTelling M.Serves IsReading asker.old.machine asker.new.machine asker.old.is_whole asker.new.is_whole err.old err.new }
{
    let unpacked = unpack_object(rt, asker, work, object);
    name_if_lacking(asker, err, object.host.as_str(), unpacked);
}

// The paths of a name in a directory. On the host they are text.
fn below(alloc: Global, directory: &Pending, name: &[u8]) -> Result<Pending, Lack> {
    let Ok(text) = str::from_utf8(name) else {
        return Err(Lack::Name);
    };
    let (host, reached) = (directory.host.as_str(), directory.reached.as_str());
    let host = format!(in alloc; "{host}/{text}")?;
    let reached = format!(in alloc; "{reached}/{text}")?;
    let mut inside = Vec::from_slice(alloc, &directory.inside)?;
    inside.push(b'/')?;
    inside.extend_from_slice(name)?;
    Ok(Pending {
        inside,
        host,
        reached,
    })
}

// Copies an object to the host. At an error it isn't there, or not as a whole, or lacks what is named.
fn unpack_object<R: Files + AllocGlobal, M: FileSystem>(
    rt: &R,
    asker: &mut Asker<M>,
    work: &mut Work,
    object: &Pending,
) -> Result<(), Lack>
    ensures { Asks M.Serves IsReading asker.old.machine asker.new.machine asker.old.is_whole asker.new.is_whole }
{
    let (status, grants) = seen_at(asker, work.place(&object.inside))?;
    if let FileType::Directory = status.kind {
        let directory = copy_of(work.alloc, object)?;
        return make_directory(rt, work, directory, status.ino, grants);
    }
    unpack_nondirectory(rt, asker, work, object, status, grants)
}

fn copy_of(alloc: Global, object: &Pending) -> Result<Pending, AllocError> {
    Ok(Pending {
        inside: Vec::from_slice(alloc, &object.inside)?,
        host: String::from_str(alloc, object.host.as_str())?,
        reached: String::from_str(alloc, object.reached.as_str())?,
    })
}

// ---- one object

// Copies a file or a symbolic link. One that was copied under another name gets this one too.
fn unpack_nondirectory<R: Files + AllocGlobal, M: FileSystem>(
    rt: &R,
    asker: &mut Asker<M>,
    work: &mut Work,
    object: &Pending,
    status: Status,
    grants: Grants,
) -> Result<(), Lack>
    ensures { Asks M.Serves IsReading asker.old.machine asker.new.machine asker.old.is_whole asker.new.is_whole }
{
    if let Some(first) = work.names.get(&status.ino) {
        return Ok(fs::hard_link(rt, first.as_str(), object.reached.as_str())?);
    }
    unpack_new(rt, asker, work, object, status, grants)?;
    keep_name(work, object, status)?;
    grants.lack()
}

// Keeps in mind under which name an object with several was copied.
fn keep_name(work: &mut Work, object: &Pending, status: Status) -> Result<(), Lack> {
    if status.links < 2 {
        return Ok(());
    }
    let name = String::from_str(work.alloc, object.reached.as_str())?;
    work.names.insert(status.ino, name)?;
    Ok(())
}

fn unpack_new<R: Files, M: FileSystem>(
    rt: &R,
    asker: &mut Asker<M>,
    work: &Work,
    object: &Pending,
    status: Status,
    grants: Grants,
) -> Result<(), Lack>
    ensures { Asks M.Serves IsReading asker.old.machine asker.new.machine asker.old.is_whole asker.new.is_whole }
{
    if let FileType::Link = status.kind {
        return unpack_link(rt, asker, work, object);
    }
    unpack_file(rt, asker, work, object, status.ino, grants)
}

// Makes a file of the host, with what one holds.
fn unpack_file<R: Files, M: FileSystem>(
    rt: &R,
    asker: &mut Asker<M>,
    work: &Work,
    object: &Pending,
    ino: u32,
    grants: Grants,
) -> Result<(), Lack>
    ensures { Asks M.Serves IsReading asker.old.machine asker.new.machine asker.old.is_whole asker.new.is_whole }
{
    let mut file = make_file(rt, object.reached.as_str())?;
    fill_file(asker, work, object, &mut file, ino, grants)
}

// Gives a file of the host what one holds, its mode and its times.
fn fill_file<F: OpenFile + Write, M: FileSystem>(
    asker: &mut Asker<M>,
    work: &Work,
    object: &Pending,
    file: &mut F,
    ino: u32,
    grants: Grants,
) -> Result<(), Lack>
    ensures { Asks M.Serves IsReading asker.old.machine asker.new.machine asker.old.is_whole asker.new.is_whole }
{
    read_file(asker, work, object, file)?;
    let stamps = stamps_of(asker, ino)?;
    Ok(finish_file(file, grants.mode, stamps)?)
}

// Reads a file, and writes what it holds to one of the host.
fn read_file<F: Write, M: FileSystem>(
    asker: &mut Asker<M>,
    work: &Work,
    object: &Pending,
    file: &mut F,
) -> Result<(), Lack>
    ensures { Asks M.Serves IsReading asker.old.machine asker.new.machine asker.old.is_whole asker.new.is_whole }
{
    let fd = work.place(&object.inside).open(asker, Opened::File)?;
    let read = read_contents(asker, work.pid, fd, file);
    let closed = asker.perform(work.pid, Call::Close(fd));
    read.and(closed)
}

// Gives a file of the host its mode and its times, and waits until it is on the disk.
fn finish_file<F: OpenFile>(file: &F, mode: u16, stamps: Stamps) -> io::Result<()> {
    file.set_permissions(Permissions::from_mode(u32::from(mode)))?;
    file.set_times(file_times(stamps.atime, stamps.mtime))?;
    file.sync_all()
}

// The times of an object.
fn stamps_of<M: FileSystem>(asker: &mut Asker<M>, ino: u32) -> Result<Stamps, Lack>
    ensures { Asks M.Serves IsReading asker.old.machine asker.new.machine asker.old.is_whole asker.new.is_whole }
{
    let event = Event::Stamp {
        ino,
        atime: None,
        mtime: None,
        ctime: None,
    };
    stamps_in(asker.obtain(event)?)
}

// Makes a symbolic link of the host to where one leads. Its times are those of the copy: std sets none of a link.
fn unpack_link<R: Files, M: FileSystem>(
    rt: &R,
    asker: &mut Asker<M>,
    work: &Work,
    object: &Pending,
) -> Result<(), Lack>
    ensures { Asks M.Serves IsReading asker.old.machine asker.new.machine asker.old.is_whole asker.new.is_whole }
{
    let path = work.place(&object.inside).path()?;
    let target = target_in(asker.call(work.pid, Call::Readlink(path))?)?;
    make_link(rt, &target, object.reached.as_str())
}

fn make_link<R: Files>(rt: &R, target: &Path, reached: &str) -> Result<(), Lack> {
    match str::from_utf8(target.bytes()) {
        Ok(text) => Ok(symlink(rt, text, reached)?),
        Err(_) => Err(Lack::Name),
    }
}

// ---- the names of a directory

// The path of a directory, also of the root.
fn path_or_root(inside: &[u8]) -> &[u8] {
    if inside.is_empty() { b"/" } else { inside }
}

// The names of a directory.
fn listing_of<M: FileSystem>(
    asker: &mut Asker<M>,
    work: &Work,
    directory: &Pending,
) -> Result<Listing, Lack>
    ensures { Asks M.Serves IsReading asker.old.machine asker.new.machine asker.old.is_whole asker.new.is_whole }
{
    let place = work.place(path_or_root(&directory.inside));
    let fd = place.open(asker, Opened::Directory)?;
    let listed = asker.call(work.pid, Call::Readdir(fd));
    let closed = asker.perform(work.pid, Call::Close(fd));
    match closed.and(listed) {
        Ok(reply) => listing_in(reply),
        Err(lack) => Err(lack),
    }
}

// ---- when all names are there

// Gives all directories their modes and times, those below first.
fn finish_directories<R: Files, M: FileSystem, E: Write>(
    rt: &R,
    asker: &mut Asker<M>,
    work: &mut Work,
    err: &mut E,
)
    ensures { AsksTelling M.Serves IsReading asker.old.machine asker.new.machine asker.old.is_whole asker.new.is_whole err.old err.new }
{
    // Bounded, since each function has to end.
    for _ in 0..u64::MAX {
        let Some(made) = work.made.pop() else {
            return;
        };
        let finished = finish_directory(rt, asker, &made);
        name_if_lacking(asker, err, made.host.as_str(), finished);
    }
}

// Gives a directory its mode and its times.
fn finish_directory<R: Files, M: FileSystem>(
    rt: &R,
    asker: &mut Asker<M>,
    made: &Made,
) -> Result<(), Lack>
    ensures { Asks M.Serves IsReading asker.old.machine asker.new.machine asker.old.is_whole asker.new.is_whole }
{
    let stamps = stamps_of(asker, made.ino)?;
    let directory = fs::open(rt, made.reached.as_str())?;
    finish_file(&directory, made.grants.mode, stamps)?;
    made.grants.lack()
}
