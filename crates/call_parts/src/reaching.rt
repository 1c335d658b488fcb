//! Who makes a call, and how it reaches what it acts on.

ghost use Rattle.std.specs.Prelude.{◌≡◌, ◌<◌, ℕ, None, Some, Ok, Err, IsOk, IfOk, IfErr};
ghost use Rattle.fs_layout.specs.Images.{inode_at};
ghost use Rattle.sector_txn.specs.Sectors.{IsUnchanged};
ghost use Rattle.bit_alloc.specs.Inodes.{IsSound};
ghost use Rattle.fs_model.specs.Demands.{first_of};
ghost use Rattle.fs_model.specs.Scenes.{found_ino, must_be_there};
ghost use Rattle.fs_model.specs.Trees.{Tree};
ghost use Rattle.path_walk.specs.Answers.{refused_or, IsAnswered};
ghost use Rattle.fs_model.specs.Processes.{is_open, is_in_use};
ghost use Rattle.fs_model.specs.declared.reply.Reply.TheVariants.{Done};
ghost use Rattle.call_parts.specs.BothTables.{both, tables_in, tables_of, users_of};
ghost use Rattle.call_parts.specs.Callers.{who_of, made_reply, IsJudgedAs, IsAbsent, path_asked, starts_asked, types_asked, first_start, second_start};
ghost use Rattle.path_walk.specs.HeldTrees.{HoldsTree};
ghost use Rattle.call_parts.specs.Telling.{TellsAnswer, checked};
ghost use Rattle.call_parts.specs.Types.{FindsType, FindsTypes};
ghost use Rattle.call_parts.specs.Paths.{walk_by};
ghost use Rattle.fs_model.specs.States.{State};
ghost use Rattle.open_files.specs.Tables.{IsTable};
ghost use Rattle.call_parts.specs.Performing.{IsStateOf, MayPerform, IsReadyFor};
ghost use Rattle.call_parts.specs.Reaching.{RefusesWalk, RefusesReach, RefusesOwned, HasWalked, HasReached, HasOwned, RefusesBoth, HasWalkedBoth, IsNotOpen, RefusesOpen, IsOpenFor, HasOpened, opens_for, opened_in, closed_in, moved_in};
ghost use Rattle.fs_layout.specs.Bytes.{IsBytes};
ghost use Rattle.call_parts.specs.TwoPaths.{both_asked, walks_by};

use crate::asking::allowed_by;
use fs_cred::{Errno, Need, Refusal, may_own};
use fs_layout::{Geometry, Inode};
use fs_model::{Actor, FileType, Form, Found, Path, Reply};
use inode_table::load;
use open_files::{Descriptor, Judged, Openings, Procs};
use path_walk::{check_path, load_inode, walk};
use sector_txn::Sectors;
use std::alloc::Global;

/// Who makes a call: the process of a number, or an actor.
#[derive(Clone, Copy)]
pub enum By<'a> {
    Process(usize),
    Actor(&'a Actor),
}

/// Who calls, where and when: a process among all of them or an actor, what actors have open, the image that it calls on, and the
/// present, as times count it.
#[derive(Clone, Copy)]
pub struct Caller<'a> {
    pub alloc: Global,
    pub geometry: Geometry,
    pub time: u64,
    pub procs: &'a Procs,
    pub openings: &'a Openings,
    pub by: By<'a>,
}

impl<'a> Caller<'a> {
    /// What the caller is answered that has made something with this number: an actor is told the number.
    pub fn made(&self, ino: u32) -> Reply
        ensures { result ≡ made_reply (who_of self.now.by) ino Done }
    {
        match self.by {
            By::Process(_) => Reply::Done,
            By::Actor(_) => Reply::Made(ino),
        }
    }

    /// Whether a process or an actor has an inode open.
    pub fn is_open(&self, ino: u32) -> bool
        ensures { result ≡ is_open (users_of (tables_of self.now)) ino }
    {
        self.openings.is_open(ino) || self.procs.is_open(ino)
    }

    /// Whether an inode is the root, the current directory of a process, or open.
    pub fn is_in_use(&self, ino: u32) -> bool
        ensures { result ≡ is_in_use (users_of (tables_of self.now)) ino }
    {
        self.openings.is_open(ino) || self.procs.in_use(ino)
    }

    /// As which process its call is judged. `ESRCH`: there is no such process.
    pub fn process(&self) -> Result<Judged<'a>, Errno>
        ensures found { IfOk result (λ q. IsJudgedAs self.now.procs.now (who_of self.now.by) q) }
        ensures absent { IfErr result (λ errno. (errno ≡ Errno.ESRCH) × IsAbsent self.now.procs.now (who_of self.now.by)) }
    {
        match self.by {
            By::Process(pid) => {
                let process = self.procs.process(pid)?;
                Ok(Judged::process(process))
            }
            By::Actor(actor) => Ok(Judged::actor(actor)),
        }
    }
}

/// Where and when something is asked for: on this image, at the present.
#[derive(Clone, Copy)]
pub struct Site {
    pub alloc: Global,
    pub geometry: Geometry,
    pub time: u64,
}

impl Site {
    /// Who calls there, among these processes and with what actors have open.
    pub fn caller<'a>(self, procs: &'a Procs, openings: &'a Openings, by: By<'a>) -> Caller<'a>
        ensures { result ≡ record {
          alloc = self.alloc;
          geometry = self.geometry;
          time = self.time;
          procs = procs.entry;
          openings = openings.entry;
          by = by.entry;
        } }
    {
        Caller {
            alloc: self.alloc,
            geometry: self.geometry,
            time: self.time,
            procs,
            openings,
            by,
        }
    }
}

/// What a call answers.
pub type CallResult = Result<Reply, Refusal>;

// The type of what stands at a number; `None` where nothing does. EIO: the disk has failed.
fn type_at<S: Sectors>(s: &mut S, geometry: Geometry, ino: u32) -> Result<Option<FileType>, Errno>
    requires { IsSound geometry (S.state s.old) }
    ensures { FindsType geometry ino (S.state s.old) (S.state s.new) result }
{
    if ino >= geometry.inodes {
        return Ok(None);
    }
    match load(s, geometry, ino) {
        Ok(inode) => Ok(FileType::of_kind(inode.kind)),
        Err(_) => Err(Errno::EIO),
    }
}

// The types of what stands at two numbers. Where these are one, its inode is read once.
fn types_at<S: Sectors>(
    s: &mut S,
    geometry: Geometry,
    first: u32,
    second: u32,
) -> Result<(Option<FileType>, Option<FileType>), Errno>
    requires { IsSound geometry (S.state s.old) }
    ensures { FindsTypes geometry first second (S.state s.old) (S.state s.new) result }
{
    let one = type_at(s, geometry, first)?;
    if first == second {
        return Ok((one, one));
    }
    let other = type_at(s, geometry, second)?;
    Ok((one, other))
}

/// Checks a path before it is walked.
pub fn check_from(by: By, path: &Path) -> Result<(), Refusal>
    ensures { result ≡ checked (first_of (path_asked (who_of by.entry) path.now)) }
{
    match by {
        By::Process(_) => check_path(path),
        By::Actor(_) => {
            if path.bytes().is_empty() {
                return Ok(());
            }
            check_path(path)
        }
    }
}

// Asks for something at both starts, and for no link at the first, where that isn't acted on.
fn check_types(
    first: Option<FileType>,
    second: Option<FileType>,
    is_empty: bool,
    links: bool,
) -> Result<(), Refusal>
    ensures { result ≡ checked (first_of (types_asked first second is_empty links)) }
{
    if first.is_none() {
        return Err(Refusal::Failed(Errno::ENOENT));
    }
    if second.is_none() {
        return Err(Refusal::Failed(Errno::ENOENT));
    }
    match first {
        Some(FileType::Link) if is_empty && !links => Err(Refusal::Failed(Errno::ELOOP)),
        _ => Ok(()),
    }
}

// Asks what is asked of the objects at which an actor's paths start.
fn check_starts<S: Sectors>(
    s: &mut S,
    geometry: Geometry,
    by: By,
    path: &Path,
    links: bool,
) -> Result<(), Refusal>
    requires { IsSound geometry (S.state s.old) }
    ensures each { (t : Tree) → HoldsTree geometry (S.state s.old).sectors t
        → IsAnswered (S.state s.old).disk (S.state s.new).disk (checked (first_of (starts_asked t (who_of by.entry) links path.now))) result }
    ensures same { IsUnchanged (S.state s.old) (S.state s.new) }
{
    let By::Actor(actor) = by else {
        return Ok(());
    };
    let (first, second) = types_at(s, geometry, actor.start, actor.second_start)?;
    let is_empty = path.bytes().is_empty();
    check_types(first, second, is_empty, links)?;
    Ok(())
}

// Where the first path of a call starts.
fn first_start(by: By, process: &Judged) -> u32
    ensures { result ≡ first_start (who_of by.entry) process.now }
{
    match by {
        By::Process(_) => process.cwd(),
        By::Actor(actor) => actor.start,
    }
}

// Where its second path starts.
fn second_start(by: By, process: &Judged) -> u32
    ensures { result ≡ second_start (who_of by.entry) process.now }
{
    match by {
        By::Process(_) => process.cwd(),
        By::Actor(actor) => actor.second_start,
    }
}

/// What a path leads to for a caller.
pub fn find<S: Sectors>(
    s: &mut S,
    caller: &Caller,
    process: &Judged,
    path: &Path,
    links: bool,
    form: Form,
) -> Result<Found, Refusal>
    requires ready { IsReadyFor caller.now (S.state s.old) }
    requires stands { IsJudgedAs caller.now.procs.now (who_of caller.now.by) process.now }
    ensures checked { (refusal : Refusal) → first_of (path_asked (who_of caller.now.by) path.now) ≡ Some refusal → result ≡ Err refusal }
    ensures each { first_of (path_asked (who_of caller.now.by) path.now) ≡ None
        → (st : State) → IsStateOf caller.now.geometry (S.state s.old).sectors (tables_of caller.now) st
        → IsAnswered (S.state s.old).disk (S.state s.new).disk
        (walk_by st (who_of caller.now.by) process.now links form path.now) result }
    ensures valid { IfOk result (λ found. first_of (path_asked (who_of caller.now.by) path.now) ≡ None) }
    ensures same { IsUnchanged (S.state s.old) (S.state s.new) }
{
    check_from(caller.by, path)?;
    check_starts(s, caller.geometry, caller.by, path, links)?;
    let cred = process.cred();
    let start = first_start(caller.by, process);
    let found = walk(caller.alloc, s, caller.geometry, cred, start, path, form, 1)?;
    Ok(found)
}

/// The inode that was found, with its number. ENOENT: none was.
pub fn inode_found<S: Sectors>(
    s: &mut S,
    geometry: Geometry,
    found: &Found,
) -> Result<(u32, Inode), Refusal>
    requires sound { IsSound geometry (S.state s.old) }
    requires below { (n : ℕ) → found.now.ino ≡ Some n → n < geometry.inodes }
    ensures { TellsAnswer (refused_or (must_be_there found.now)
        (Ok (found_ino found.now, inode_at geometry (S.state s.old).sectors (found_ino found.now)))) (S.state s.old) (S.state s.new) result }
{
    let Some(ino) = found.ino else {
        return Err(Refusal::Failed(Errno::ENOENT));
    };
    let inode = load_inode(s, geometry, ino)?;
    Ok((ino, inode))
}

// What both paths of a call lead to, each as a walk finds it from its start. Both are checked before the first is walked.
fn find_names<S: Sectors>(
    s: &mut S,
    caller: &Caller,
    process: &Judged,
    old: &Path,
    new: &Path,
    links: bool,
) -> Result<(Found, Found), Refusal>
    requires ready { IsReadyFor caller.now (S.state s.old) }
    requires stands { IsJudgedAs caller.now.procs.now (who_of caller.now.by) process.now }
    ensures checked { (refusal : Refusal) → first_of (both_asked (who_of caller.now.by) old.now new.now) ≡ Some refusal
        → result ≡ Err refusal }
    ensures each { first_of (both_asked (who_of caller.now.by) old.now new.now) ≡ None
        → (st : State) → IsStateOf caller.now.geometry (S.state s.old).sectors (tables_of caller.now) st
        → IsAnswered (S.state s.old).disk (S.state s.new).disk
        (walks_by st (who_of caller.now.by) process.now links old.now new.now) result }
    ensures valid { IfOk result (λ found. first_of (both_asked (who_of caller.now.by) old.now new.now) ≡ None) }
    ensures old_bytes { IsBytes old.now }
    ensures new_bytes { IsBytes new.now }
    ensures same { IsUnchanged (S.state s.old) (S.state s.new) }
{
    let _old_bytes = old.bytes();
    let _new_bytes = new.bytes();
    check_from(caller.by, old)?;
    check_from(caller.by, new)?;
    check_starts(s, caller.geometry, caller.by, old, links)?;
    let cred = process.cred();
    let start = first_start(caller.by, process);
    let second_start = second_start(caller.by, process);
    let first = walk(
        caller.alloc,
        s,
        caller.geometry,
        cred,
        start,
        old,
        Form::Parent,
        1,
    )?;
    let second = walk(
        caller.alloc,
        s,
        caller.geometry,
        cred,
        second_start,
        new,
        Form::Parent,
        2,
    )?;
    Ok((first, second))
}

/// The process that calls, and what its path leads to.
#[derive(Drop)]
pub struct Walked<'a> {
    pub process: Judged<'a>,
    pub found: Found,
}

/// The process that calls, with number and inode of what its path leads to.
#[derive(Drop)]
pub struct Reached<'a> {
    pub process: Judged<'a>,
    pub found: Found,
    pub ino: u32,
    pub inode: Inode,
}

/// The process that calls, and what both its paths lead to.
#[derive(Drop)]
pub struct WalkedBoth<'a> {
    pub process: Judged<'a>,
    pub first: Found,
    pub second: Found,
}

/// Where something is open: at a descriptor of the process of a number, or by a handle, to be read or written from an offset on.
#[derive(Clone, Copy)]
pub enum OpenAt {
    Descriptor { pid: usize, fd: usize },
    Handle { handle: u64, offset: u64 },
}

/// What is asked that something is open for.
#[derive(Clone, Copy)]
pub enum OpenFor {
    Anything,
    Reading,
    Writing,
}

/// What the path of a call leads to, for its caller, once the checks of the call's arguments are passed: they have answered
/// `checks`. Whether an actor's call acts on a link at which it starts is `links`. At `Err` it is the refusal of whichever call
/// walks so.
pub fn walk_path<'a, S: Sectors>(
    s: &mut S,
    caller: &Caller<'a>,
    checks: Result<(), Refusal>,
    path: &Path,
    links: bool,
    form: Form,
) -> Result<Walked<'a>, Refusal>
    requires ready { IsReadyFor caller.now (S.state s.old) }
    ensures refused { IfErr result (λ e. (st : State)
        → IsStateOf caller.now.geometry (S.state s.old).sectors (tables_of caller.now) st
        → RefusesWalk (S.state s.old).disk (S.state s.new).disk st (who_of caller.now.by) checks links form path.now e) }
    ensures walked { IfOk result (λ w. HasWalked caller.now.geometry (S.state s.new)
        (tables_of caller.now) (who_of caller.now.by) checks links form path.now w.process w.found) }
    ensures same { IsUnchanged (S.state s.old) (S.state s.new) }
{
    let _bytes = path.bytes();
    let process = caller.process()?;
    checks?;
    let found = find(s, caller, &process, path, links, form)?;
    Ok(Walked { process, found })
}

/// What the path of a call leads to, as by `walk_path`, where something has to be there, with its inode. ENOENT: nothing is.
pub fn reach<'a, S: Sectors>(
    s: &mut S,
    caller: &Caller<'a>,
    checks: Result<(), Refusal>,
    path: &Path,
    links: bool,
    form: Form,
) -> Result<Reached<'a>, Refusal>
    requires ready { IsReadyFor caller.now (S.state s.old) }
    ensures refused { IfErr result (λ e. (st : State)
        → IsStateOf caller.now.geometry (S.state s.old).sectors (tables_of caller.now) st
        → RefusesReach (S.state s.old).disk (S.state s.new).disk st (who_of caller.now.by) checks links form path.now e) }
    ensures reached { IfOk result (λ r. HasReached caller.now.geometry (S.state s.new)
        (tables_of caller.now) (who_of caller.now.by) checks links form path.now r.process r.found r.ino r.inode) }
    ensures same { IsUnchanged (S.state s.old) (S.state s.new) }
{
    let Walked { process, found } = walk_path(s, caller, checks, path, links, form)?;
    let (ino, inode) = inode_found(s, caller.geometry, &found)?;
    Ok(Reached {
        process,
        found,
        ino,
        inode,
    })
}

/// What the path of a call leads to, as by `reach`, where the caller may change its mode, owner and ACLs.
pub fn reach_owned<'a, S: Sectors>(
    s: &mut S,
    caller: &Caller<'a>,
    checks: Result<(), Refusal>,
    path: &Path,
    links: bool,
    form: Form,
) -> Result<Reached<'a>, Refusal>
    requires ready { IsReadyFor caller.now (S.state s.old) }
    ensures refused { IfErr result (λ e. (st : State)
        → IsStateOf caller.now.geometry (S.state s.old).sectors (tables_of caller.now) st
        → RefusesOwned (S.state s.old).disk (S.state s.new).disk st (who_of caller.now.by) checks links form path.now e) }
    ensures owned { IfOk result (λ r. HasOwned caller.now.geometry (S.state s.new)
        (tables_of caller.now) (who_of caller.now.by) checks links form path.now r.process r.found r.ino r.inode) }
    ensures same { IsUnchanged (S.state s.old) (S.state s.new) }
{
    let reached = reach(s, caller, checks, path, links, form)?;
    let answer = may_own(reached.process.cred(), reached.inode.uid);
    allowed_by(1, reached.found.step, Need::Own, answer)?;
    Ok(reached)
}

/// What both paths of a call lead to, links at their ends among that, and the directories that name it. Both are checked before
/// the first is walked. At `Err` it is the refusal of whichever call walks so.
pub fn walk_both<'a, S: Sectors>(
    s: &mut S,
    caller: &Caller<'a>,
    old: &Path,
    new: &Path,
    links: bool,
) -> Result<WalkedBoth<'a>, Refusal>
    requires ready { IsReadyFor caller.now (S.state s.old) }
    ensures refused { IfErr result (λ e. (st : State)
        → IsStateOf caller.now.geometry (S.state s.old).sectors (tables_of caller.now) st
        → RefusesBoth (S.state s.old).disk (S.state s.new).disk st (who_of caller.now.by) links old.now new.now e) }
    ensures walked { IfOk result (λ w. HasWalkedBoth caller.now.geometry (S.state s.new)
        (tables_of caller.now) (who_of caller.now.by) links old.now new.now w.process w.first w.second) }
    ensures same { IsUnchanged (S.state s.old) (S.state s.new) }
{
    let process = caller.process()?;
    let (first, second) = find_names(s, caller, &process, old, new, links)?;
    Ok(WalkedBoth {
        process,
        first,
        second,
    })
}

// Whether an open file is open for this.
fn is_open_for(descriptor: Descriptor, purpose: OpenFor) -> bool
    ensures { result ≡ opens_for purpose descriptor }
{
    match purpose {
        OpenFor::Anything => true,
        OpenFor::Reading => descriptor.read,
        OpenFor::Writing => descriptor.write,
    }
}

// What is open there.
fn open_at(procs: &Procs, openings: &Openings, place: OpenAt) -> Result<Descriptor, Errno>
    ensures { result ≡ opened_in (both procs.now openings.now.0) place }
{
    match place {
        OpenAt::Descriptor { pid, fd } => procs.get(pid, fd),
        OpenAt::Handle { handle, offset } => openings.get(handle, offset),
    }
}

/// What is open there, where it is open for this. At `Err` it is the refusal of whatever acts on it. EBADF: it isn't.
pub fn find_open(
    procs: &Procs,
    openings: &Openings,
    place: OpenAt,
    purpose: OpenFor,
) -> Result<Descriptor, Refusal>
    ensures refused { IfErr result (λ e. (st : State) → tables_in st ≡ both procs.now openings.now.0 → IsNotOpen st place purpose e) }
    ensures is_open { IfOk result (λ d. IsOpenFor (both procs.now openings.now.0) place purpose d) }
    ensures table { IsTable procs.now }
{
    procs.tell_table();
    let descriptor = open_at(procs, openings, place)?;
    if !is_open_for(descriptor, purpose) {
        return Err(Refusal::Failed(Errno::EBADF));
    }
    Ok(descriptor)
}

/// What is open there, as by `find_open`, with its inode. EIO: the disk has failed.
pub fn reach_open<S: Sectors>(
    s: &mut S,
    geometry: Geometry,
    procs: &Procs,
    openings: &Openings,
    place: OpenAt,
    purpose: OpenFor,
) -> Result<(Descriptor, Inode), Refusal>
    requires ready { MayPerform geometry (S.state s.old) (both procs.now openings.now.0) }
    ensures refused { IfErr result (λ e. (st : State)
        → IsStateOf geometry (S.state s.old).sectors (both procs.now openings.now.0) st
        → RefusesOpen (S.state s.old).disk (S.state s.new).disk st place purpose e) }
    ensures opened { IfOk result (λ r. HasOpened geometry (S.state s.new) (both procs.now openings.now.0) place purpose r.0 r.1) }
    ensures same { IsUnchanged (S.state s.old) (S.state s.new) }
{
    let descriptor = find_open(procs, openings, place, purpose)?;
    let inode = load_inode(s, geometry, descriptor.ino)?;
    Ok((descriptor, inode))
}

/// Whether what is open there stays open by another descriptor or handle, once it is closed.
pub fn stays_open(procs: &Procs, openings: &Openings, place: OpenAt, ino: u32) -> bool
    requires { IsOk (opened_in (both procs.now openings.now.0) place) }
    ensures { result ≡ is_open (users_of (closed_in (both procs.now openings.now.0) place)) ino }
{
    match place {
        OpenAt::Descriptor { pid, fd } => {
            openings.is_open(ino) || procs.is_open_besides(pid, fd, ino)
        }
        OpenAt::Handle { handle, .. } => {
            openings.is_open_besides(handle, ino) || procs.is_open(ino)
        }
    }
}

/// Closes what is open there.
pub fn close_at(procs: &mut Procs, openings: &mut Openings, place: OpenAt)
    requires { IsOk (opened_in (both procs.old openings.old.0) place) }
    ensures { both procs.new openings.new.0 ≡ closed_in (both procs.old openings.old.0) place }
{
    match place {
        OpenAt::Descriptor { pid, fd } => procs.close(pid, fd),
        OpenAt::Handle { handle, .. } => openings.close(handle),
    }
}

/// Moves the offset of what is open there. That of a handle isn't kept.
pub fn seek_at(procs: &mut Procs, openings: &Openings, place: OpenAt, to: u64)
    requires { IsOk (opened_in (both procs.old openings.now.0) place) }
    ensures { both procs.new openings.now.0 ≡ moved_in (both procs.old openings.now.0) place to }
{
    let _openings = openings;
    if let OpenAt::Descriptor { pid, fd } = place {
        procs.seek(pid, fd, to);
    }
}
