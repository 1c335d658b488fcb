//! What is still to be done of a tree of the host.
ghost use Rattle.host_trees.specs.Copies.{Asks, IsMaking};

use crate::asker::Asker;
use crate::entry::Entry;
use crate::file_system::FileSystem;
use crate::lack::Lack;
use crate::owner::{Given, Owner};
use crate::replies::pid_in;
use crate::trail::{Entered, Step};
use bitflags::Flags;
use fs_cred::{Caps, Cred};
use fs_layout::ROOT;
use fs_model::{Call, Event, Path};
use std::alloc::{AllocError, Global};
use std::collections::BTreeMap;
use std::fs::Metadata;
use std::os::unix::fs::MetadataExt;

// How many bytes are read of a file at once.
const ROOM: usize = 65_536;

/// A directory whose names are still to be copied: its path on the host, as it is told, and in the file system, which is empty for the
/// root, and the step to it, unless it is the root.
#[derive(Drop)]
pub(crate) struct Pending {
    pub(crate) host: String,
    pub(crate) inside: String,
    pub(crate) step: Option<Step>,
}

impl Pending {
    fn new(
        alloc: Global,
        host: &str,
        inside: &str,
        step: Option<Step>,
    ) -> Result<Pending, AllocError> {
        Ok(Pending {
            host: String::from_str(alloc, host)?,
            inside: String::from_str(alloc, inside)?,
            step,
        })
    }
}

/// A directory that is open, whose names are copied.
#[derive(Drop)]
pub(crate) struct Directory {
    pub(crate) host: String,
    pub(crate) inside: String,
    pub(crate) entered: Entered,
}

/// An object in it: its path on the host, as it is told, that by which it is reached, and that in the file system.
#[derive(Drop)]
pub(crate) struct Object<'a> {
    pub(crate) name: &'a str,
    pub(crate) above: Option<usize>,
    pub(crate) host: String,
    pub(crate) reached: String,
    pub(crate) inside: String,
}

/// A directory that was made, and what it gets once its names are there.
#[derive(Drop)]
pub(crate) struct Made {
    pub(crate) inside: String,
    pub(crate) ino: u32,
    pub(crate) entry: Entry,
}

impl Made {
    fn new(alloc: Global, inside: &str, ino: u32, entry: Entry) -> Result<Made, AllocError> {
        let inside = String::from_str(alloc, inside)?;
        Ok(Made { inside, ino, entry })
    }
}

// The process that makes objects of this owner.
#[derive(Clone, Copy)]
struct Hand {
    owner: Owner,
    pid: usize,
}

/// What is still to be done.
#[derive(Drop)]
pub(crate) struct Work {
    pub(crate) alloc: Global,
    pub(crate) given: Given,
    pub(crate) pending: Vec<Pending>,
    pub(crate) made: Vec<Made>,
    pub(crate) room: Vec<u8>,
    hand: Option<Hand>,
    // Where objects with several names were copied, by device and number.
    names: BTreeMap<(u64, u64), String>,
}

impl Work {
    /// Nothing is done yet: the names of the root are still to be copied.
    pub(crate) fn new(
        alloc: Global,
        from: &str,
        metadata: &Metadata,
        given: Given,
    ) -> Result<Work, AllocError> {
        let mut work = Work {
            alloc,
            given,
            pending: Vec::new(alloc),
            made: Vec::new(alloc),
            room: Vec::new(alloc),
            hand: None,
            names: BTreeMap::new(alloc),
        };
        work.begin(from, Entry::of(metadata, given))?;
        Ok(work)
    }

    // The root is there, and its names are still to be copied.
    fn begin(&mut self, from: &str, entry: Entry) -> Result<(), AllocError> {
        self.room.resize(ROOM, 0)?;
        self.made.push(Made::new(self.alloc, "/", ROOT, entry)?)?;
        self.pending
            .push(Pending::new(self.alloc, from, "", None)?)?;
        Ok(())
    }

    /// Keeps in mind what is still to be done of a directory that was made.
    pub(crate) fn keep_directory(
        &mut self,
        object: &Object<'_>,
        ino: u32,
        entry: Entry,
    ) -> Result<(), Lack> {
        let (host, inside) = (object.host.as_str(), object.inside.as_str());
        self.made.push(Made::new(self.alloc, inside, ino, entry)?)?;
        let step = Step::new(self.alloc, object.above, object.name, entry.identity)?;
        let pending = Pending::new(self.alloc, host, inside, Some(step))?;
        self.pending.push(pending)?;
        Ok(())
    }

    /// Under which name an object of the host was copied before.
    pub(crate) fn first_name(&self, metadata: &Metadata) -> Result<Option<Path>, AllocError> {
        if metadata.nlink() < 2 {
            return Ok(None);
        }
        match self.names.get(&(metadata.dev(), metadata.ino())) {
            Some(first) => Ok(Some(path_of(self.alloc, first.as_str())?)),
            None => Ok(None),
        }
    }

    /// Keeps in mind under which name an object with several was copied.
    pub(crate) fn keep_name(
        &mut self,
        metadata: &Metadata,
        object: &Object<'_>,
    ) -> Result<(), Lack> {
        if metadata.nlink() < 2 {
            return Ok(());
        }
        let name = String::from_str(self.alloc, object.inside.as_str())?;
        self.names.insert((metadata.dev(), metadata.ino()), name)?;
        Ok(())
    }

    // The process that makes objects of this owner, if there is one.
    fn pid_of(&self, owner: Owner) -> Option<usize> {
        match self.hand {
            Some(hand) if hand.owner == owner => Some(hand.pid),
            _ => None,
        }
    }
}

/// A path in the file system.
pub(crate) fn path_of(alloc: Global, path: &str) -> Result<Path, AllocError> {
    Path::from_slice(alloc, path.as_bytes())
}

/// The paths of a name in a directory.
pub(crate) fn below<'a>(
    alloc: Global,
    directory: &Directory,
    name: &'a str,
) -> Result<Object<'a>, AllocError> {
    let Directory {
        host,
        inside,
        entered,
    } = directory;
    let open = entered.path.as_str();
    Ok(Object {
        name,
        above: entered.number,
        host: format!(in alloc; "{host}/{name}")?,
        reached: format!(in alloc; "{open}/{name}")?,
        inside: format!(in alloc; "{inside}/{name}")?,
    })
}

// ---- processes

/// The number of a process that makes objects of this owner. One of another owner ends.
pub(crate) fn hand_for<M: FileSystem>(
    asker: &mut Asker<M>,
    work: &mut Work,
    owner: Owner,
) -> Result<usize, Lack>
    ensures { Asks M.Serves IsMaking asker.old.machine asker.new.machine asker.old.is_whole asker.new.is_whole }
{
    match work.pid_of(owner) {
        Some(pid) => Ok(pid),
        None => change_hand(asker, work, owner),
    }
}

// Another process makes objects from now on.
fn change_hand<M: FileSystem>(
    asker: &mut Asker<M>,
    work: &mut Work,
    owner: Owner,
) -> Result<usize, Lack>
    ensures { Asks M.Serves IsMaking asker.old.machine asker.new.machine asker.old.is_whole asker.new.is_whole }
{
    end_hand(asker, work)?;
    let pid = spawn_for(asker, work.alloc, owner)?;
    work.hand = Some(Hand { owner, pid });
    Ok(pid)
}

// The process that makes objects ends, if there is one.
fn end_hand<M: FileSystem>(asker: &mut Asker<M>, work: &mut Work) -> Result<(), Lack>
    ensures { Asks M.Serves IsMaking asker.old.machine asker.new.machine asker.old.is_whole asker.new.is_whole }
{
    match work.hand.take() {
        Some(hand) => end_process(asker, hand.pid),
        None => Ok(()),
    }
}

fn end_process<M: FileSystem>(asker: &mut Asker<M>, pid: usize) -> Result<(), Lack>
    ensures { Asks M.Serves IsMaking asker.old.machine asker.new.machine asker.old.is_whole asker.new.is_whole }
{
    asker.obtain(Event::Exit(pid))?.discard();
    Ok(())
}

// A new process of this owner with all capabilities, which masks no permissions.
fn spawn_for<M: FileSystem>(
    asker: &mut Asker<M>,
    alloc: Global,
    owner: Owner,
) -> Result<usize, Lack>
    ensures { Asks M.Serves IsMaking asker.old.machine asker.new.machine asker.old.is_whole asker.new.is_whole }
{
    let cred = cred_of(alloc, owner)?;
    let pid = pid_in(asker.obtain(Event::Spawn(cred))?)?;
    asker.perform(pid, Call::Umask(0))?;
    Ok(pid)
}

fn cred_of(alloc: Global, owner: Owner) -> Result<Cred, Lack> {
    match Cred::with_caps(alloc, owner.user, owner.group, &[], Caps::all()) {
        Ok(cred) => Ok(cred),
        Err(_) => Err(Lack::Memory),
    }
}
