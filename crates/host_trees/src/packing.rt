//! Copies a tree of the host to a file system.
ghost use Rattle.std.specs.Prelude.{◌≡◌, OnOk, IsTrue};
ghost use Rattle.fs_model.specs.declared.event.Event.TheVariants.{Sync};
ghost use Rattle.fs_model.specs.declared.reply.Reply.TheVariants.{Done};
ghost use Rattle.host_trees.specs.Copies.{Asks, ArePacking, Copies, AsksTelling, is_copied_whole, IsMaking};

use crate::asker::{Asker, name_if_lacking, name_lack};
use crate::entry::{Entry, OF_DIRECTORIES, OF_FILES};
use crate::fault::{Copied, CopyFault};
use crate::file_system::FileSystem;
use crate::lack::Lack;
use crate::objects::{finish_directory, pack_directory, pack_file, pack_link, pack_other_name};
use crate::owner::Given;
use crate::trail::{Trail, begin};
use crate::work::{Directory, Object, Pending, Work, below};
use fs_model::{Event, Reply};
use std::alloc::Global;
use std::fs::{self, DirEntry, Metadata};
use std::io::{self, Write};
use std::os::fd::AsRawFd;
use std::rt::Files;

/// Copies the tree below a directory of the host to a file system that is empty, its root among it, and makes it stable. All gets
/// the user and the group that are given, or else those that it has.
///
/// Each object is made by a process of its owner with all capabilities. No call removes, renames or cuts off anything.
///
/// What can't be copied is named, and left out; what a file system can't keep of an object is named, and the object is there
/// without it. Nothing is named of a tree that is copied whole.
///
/// Each directory is opened once it was seen, and what lies in it is reached through it alone. What another object took the name of
/// meanwhile is named, and left out: so all that is copied lies below the directory that was named.
pub fn pack<R: Files<File: AsRawFd> + AllocGlobal, M: FileSystem, E: Write>(
    rt: &R,
    machine: M,
    from: &str,
    given: Given,
    err: &mut E,
) -> (Result<Copied, CopyFault>, M)
    ensures copies { Copies M.Serves machine result.1 (λ asked. ArePacking asked result.0) }
    ensures silent { IsTrue (is_copied_whole result.0) → err.new ≡ err.old }
{
    match begin_at(rt, from, given) {
        Ok((work, trail)) => pack_all(rt, machine, work, trail, err),
        Err(fault) => (Err(fault), machine),
    }
}

// What is to be done of the tree below a directory, and the walk through it.
fn begin_at<R: Files<File: AsRawFd> + AllocGlobal>(
    rt: &R,
    from: &str,
    given: Given,
) -> Result<(Work, Trail<R::File>), CopyFault> {
    let alloc = rt.alloc();
    let trail = begin(rt, alloc, from)?;
    let work = Work::new(alloc, from, &trail.metadata()?, given)?;
    Ok((work, trail))
}

fn pack_all<R: Files<File: AsRawFd> + AllocGlobal, M: FileSystem, E: Write>(
    rt: &R,
    machine: M,
    work: Work,
    trail: Trail<R::File>,
    err: &mut E,
) -> (Result<Copied, CopyFault>, M)
    ensures copies { Copies M.Serves machine result.1 (λ asked. ArePacking asked result.0) }
    ensures silent { IsTrue (is_copied_whole result.0) → err.new ≡ err.old }
{
    let (mut work, mut trail) = (work, trail);
    let mut asker = Asker::new(machine);
    let packed = pack_tree(rt, &mut asker, &mut work, &mut trail, err);
    (packed, asker.into_machine())
}

fn pack_tree<R: Files<File: AsRawFd> + AllocGlobal, M: FileSystem, E: Write>(
    rt: &R,
    asker: &mut Asker<M>,
    work: &mut Work,
    trail: &mut Trail<R::File>,
    err: &mut E,
) -> Result<Copied, CopyFault>
    ensures copies { Copies M.Serves asker.old.machine asker.new.machine (λ asked. ArePacking asked result) }
    ensures silent { IsTrue (is_copied_whole result) → err.new ≡ err.old }
{
    pack_directories(rt, asker, work, trail, err);
    finish_directories(asker, work, err);
    let copied = asker.copied();
    match sync(asker) {
        Ok(()) => Ok(copied),
        Err(fault) => Err(fault),
    }
}

// Makes all stable.
fn sync<M: FileSystem>(asker: &mut Asker<M>) -> Result<(), CopyFault>
    ensures stable { OnOk result (M.Serves asker.old.machine Sync Done asker.new.machine) }
    ensures asked { Asks M.Serves IsMaking asker.old.machine asker.new.machine asker.old.is_whole asker.new.is_whole }
{
    let event = Event::Sync;
    let reply = asker.machine.serve(&event);
    event.discard();
    if let Reply::Done = reply {
        return Ok(());
    }
    reply.discard();
    asker.lacks();
    Err(CopyFault::NotSynced)
}

// ---- the walk

// Copies the names of all directories that are still to be copied.
fn pack_directories<R: Files<File: AsRawFd> + AllocGlobal, M: FileSystem, E: Write>(
    rt: &R,
    asker: &mut Asker<M>,
    work: &mut Work,
    trail: &mut Trail<R::File>,
    err: &mut E,
)
    ensures { AsksTelling M.Serves IsMaking asker.old.machine asker.new.machine asker.old.is_whole asker.new.is_whole err.old err.new }
{
    // Bounded, since each function has to end.
    for _ in 0..u64::MAX {
        let Some(directory) = work.pending.pop() else {
            return;
        };
        pack_below(rt, asker, work, trail, directory, err);
    }
}

// Enters a directory, and copies its names.
fn pack_below<R: Files<File: AsRawFd> + AllocGlobal, M: FileSystem, E: Write>(
    rt: &R,
    asker: &mut Asker<M>,
    work: &mut Work,
    trail: &mut Trail<R::File>,
    directory: Pending,
    err: &mut E,
)
    ensures { AsksTelling M.Serves IsMaking asker.old.machine asker.new.machine asker.old.is_whole asker.new.is_whole err.old err.new }
{
    let Pending { host, inside, step } = directory;
    match trail.enter(rt, work.alloc, step) {
        Ok(entered) => {
            let directory = Directory {
                host,
                inside,
                entered,
            };
            pack_entered(rt, asker, work, &directory, err);
        }
        Err(lack) => name_lack(asker, err, host.as_str(), lack),
    }
}

// Copies the names of a directory.
fn pack_entered<R: Files + AllocGlobal, M: FileSystem, E: Write>(
    rt: &R,
    asker: &mut Asker<M>,
    work: &mut Work,
    directory: &Directory,
    err: &mut E,
)
    ensures { AsksTelling M.Serves IsMaking asker.old.machine asker.new.machine asker.old.is_whole asker.new.is_whole err.old err.new }
{
    match names_of(rt, asker, directory, err) {
        Ok(names) => pack_names(rt, asker, work, directory, &names, err),
        Err(lack) => name_lack(asker, err, directory.host.as_str(), lack),
    }
}

// The names in a directory, in their order. Those that are no text are named and left out.
fn names_of<R: Files + AllocGlobal, M: FileSystem, E: Write>(
    rt: &R,
    asker: &mut Asker<M>,
    directory: &Directory,
    err: &mut E,
) -> Result<Vec<String>, Lack>
    ensures { AsksTelling M.Serves IsMaking asker.old.machine asker.new.machine asker.old.is_whole asker.new.is_whole err.old err.new }
{
    let mut names = Vec::new(rt.alloc());
    for entry in fs::read_dir(&rt, directory.entered.path.as_str())? {
        take_name(rt.alloc(), asker, &mut names, directory, entry, err)?;
    }
    names.sort()?;
    Ok(names)
}

// Takes a name of a directory.
fn take_name<R: Files + Drop, M: FileSystem, E: Write>(
    alloc: Global,
    asker: &mut Asker<M>,
    names: &mut Vec<String>,
    directory: &Directory,
    entry: io::Result<DirEntry<R, Global>>,
    err: &mut E,
) -> Result<(), Lack>
    ensures { AsksTelling M.Serves IsMaking asker.old.machine asker.new.machine asker.old.is_whole asker.new.is_whole err.old err.new }
{
    match entry {
        Ok(entry) => push_name(alloc, names, entry.file_name()),
        Err(error) => {
            name_lack(asker, err, directory.host.as_str(), Lack::from(error));
            Ok(())
        }
    }
}

fn push_name(alloc: Global, names: &mut Vec<String>, name: &str) -> Result<(), Lack> {
    names.push(String::from_str(alloc, name)?)?;
    Ok(())
}

// Copies what has these names in a directory.
fn pack_names<R: Files + AllocGlobal, M: FileSystem, E: Write>(
    rt: &R,
    asker: &mut Asker<M>,
    work: &mut Work,
    directory: &Directory,
    names: &[String],
    err: &mut E,
)
    ensures { AsksTelling M.Serves IsMaking asker.old.machine asker.new.machine asker.old.is_whole asker.new.is_whole err.old err.new }
{
    for name in names {
        pack_name(rt, asker, work, directory, name.as_str(), err);
    }
}

// Copies what has this name in a directory.
fn pack_name<R: Files + AllocGlobal, M: FileSystem, E: Write>(
    rt: &R,
    asker: &mut Asker<M>,
    work: &mut Work,
    directory: &Directory,
    name: &str,
    err: &mut E,
)
    ensures { AsksTelling M.Serves IsMaking asker.old.machine asker.new.machine asker.old.is_whole asker.new.is_whole err.old err.new }
{
    match below(work.alloc, directory, name) {
        Ok(object) => pack_named(rt, asker, work, &object, err),
        Err(_) => name_lack(asker, err, name, Lack::Memory),
    }
}

fn pack_named<R: Files + AllocGlobal, M: FileSystem, E: Write>(
    rt: &R,
    asker: &mut Asker<M>,
    work: &mut Work,
    object: &Object<'_>,
    err: &mut E,
)
    ensures { AsksTelling M.Serves IsMaking asker.old.machine asker.new.machine asker.old.is_whole asker.new.is_whole err.old err.new }
{
    let packed = pack_object(rt, asker, work, object);
    name_if_lacking(asker, err, object.host.as_str(), packed);
}

// Copies an object of the host. At an error it isn't there, or not as a whole, or lacks what is named.
fn pack_object<R: Files + AllocGlobal, M: FileSystem>(
    rt: &R,
    asker: &mut Asker<M>,
    work: &mut Work,
    object: &Object<'_>,
) -> Result<(), Lack>
    ensures { Asks M.Serves IsMaking asker.old.machine asker.new.machine asker.old.is_whole asker.new.is_whole }
{
    let metadata = fs::symlink_metadata(rt, object.reached.as_str())?;
    let entry = Entry::of(&metadata, work.given);
    if metadata.is_dir() {
        pack_directory(asker, work, object, entry)?;
        return entry.lack(OF_DIRECTORIES);
    }
    pack_nondirectory(rt, asker, work, object, &metadata, entry)?;
    entry.lack(OF_FILES)
}

// Copies a file or a symbolic link of the host. One that was copied under another name gets this one too.
fn pack_nondirectory<R: Files + AllocGlobal, M: FileSystem>(
    rt: &R,
    asker: &mut Asker<M>,
    work: &mut Work,
    object: &Object<'_>,
    metadata: &Metadata,
    entry: Entry,
) -> Result<(), Lack>
    ensures { Asks M.Serves IsMaking asker.old.machine asker.new.machine asker.old.is_whole asker.new.is_whole }
{
    if let Some(first) = work.first_name(metadata)? {
        return pack_other_name(asker, work, first, object, entry);
    }
    pack_new(rt, asker, work, object, metadata, entry)?;
    work.keep_name(metadata, object)
}

fn pack_new<R: Files + AllocGlobal, M: FileSystem>(
    rt: &R,
    asker: &mut Asker<M>,
    work: &mut Work,
    object: &Object<'_>,
    metadata: &Metadata,
    entry: Entry,
) -> Result<(), Lack>
    ensures { Asks M.Serves IsMaking asker.old.machine asker.new.machine asker.old.is_whole asker.new.is_whole }
{
    if metadata.is_file() {
        return pack_file(rt, asker, work, object, entry);
    }
    if metadata.is_symlink() {
        return pack_link(rt, asker, work, object, entry);
    }
    Err(Lack::Kind)
}

// ---- when all names are there

// Gives all directories what waits until their names are there.
fn finish_directories<M: FileSystem, E: Write>(asker: &mut Asker<M>, work: &mut Work, err: &mut E)
    ensures { AsksTelling M.Serves IsMaking asker.old.machine asker.new.machine asker.old.is_whole asker.new.is_whole err.old err.new }
{
    // Bounded, since each function has to end.
    for _ in 0..u64::MAX {
        let Some(made) = work.made.pop() else {
            return;
        };
        let finished = finish_directory(asker, work, &made);
        name_if_lacking(asker, err, made.inside.as_str(), finished);
    }
}
