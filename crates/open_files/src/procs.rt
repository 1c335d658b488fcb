//! The table of processes, each with what it has open.

ghost use Rattle.std.specs.Prelude.{◌≡◌, ◌<◌, ◌==◌, [], None, IfSome, ◌%◌, IsSome, ◌≤◌, ◌↔◌, ◌⊎◌, length, option_copied, Some, Ok, Err, IsOk, IfOk, IfErr, OnErr, IsTrue};
ghost use Rattle.std.specs.List.{list_any, position};
ghost use Rattle.std.specs.Option.{is_none};
ghost use Rattle.std.specs.Ordering.{nat_cmp};
ghost use Rattle.slab.specs.Slab.{entries_from};
ghost use Rattle.fs_layout.specs.Maps.{get, with_entry, without};
ghost use Rattle.fs_model.specs.Limits.{descriptors_limit, processes_limit};
ghost use Rattle.open_files.specs.Tables.{AreDescriptors, lowest, answer_of, open_in, slot_in, IsUnused, with_changed, without_descriptor, IsTable};
ghost use Rattle.fs_model.specs.Processes.{new_process, IsNewPid, descriptor, with_descriptor, with_offset, is_open, is_in_use};
ghost use Rattle.fs_cred.specs.Credentials.{IsCredential};
ghost use Rattle.fs_model.specs.Actors.{judged_as};
ghost use Rattle.fs_cred.specs.declared.errno.Errno.TheVariants.{ESRCH, EAGAIN, ENOMEM};

use fs_cred::{Cred, Errno};
use fs_layout::ROOT;
use fs_model::Actor;
use slab::Slab;
use std::alloc::Global;
use std::marker::Model;

/// An open file of a process.
#[derive(Clone, Copy)]
pub struct Descriptor {
    /// The inode.
    pub ino: u32,
    /// The byte at which the next read or write begins.
    pub offset: u64,
    /// The file was opened for reading.
    pub read: bool,
    /// The file was opened for writing.
    pub write: bool,
    /// Each write goes to the end: `O_APPEND`.
    pub append: bool,
}

impl Model for Descriptor {
    ghost use Rattle.fs_model.specs.Processes.{Descriptor as OpenFile};

    ghost Value = { OpenFile };

    ghost view = { λ d. record { ino = d.ino; offset = d.offset; read = d.read; write = d.write; append = d.append } };

    // A descriptor is told by what a contract sees of it.
    ghost inverse = { λ d. record { ino = d.ino; offset = d.offset; read = d.read; write = d.write; append = d.append } };
}

/// The most descriptors of one process.
pub const MAX_DESCRIPTORS: usize = 32;

/// What a process has open, by descriptors below [`MAX_DESCRIPTORS`].
#[derive(Drop)]
pub(crate) struct Descriptors {
    slots: [Option<Descriptor>; MAX_DESCRIPTORS],
}

impl Model for Descriptors {
    ghost use Rattle.std.specs.Prelude.{ℕ, List};
    ghost use Rattle.slab.specs.Slab.{entries_from};
    ghost use Rattle.fs_model.specs.Processes.{Descriptor as OpenFile};

    ghost Value = { List (ℕ × OpenFile) };

    ghost use Rattle.std.specs.Prelude.{◌≡◌, length};
    ghost use Rattle.fs_model.specs.Limits.{descriptors_limit};

    ghost view = { λ descriptors. entries_from 0 descriptors.slots };

    ghost invariant = { λ descriptors. length descriptors.slots ≡ descriptors_limit };
}

impl Descriptors {
    /// Nothing is open.
    pub(crate) fn new() -> Descriptors
        ensures { result ≡ [] }
    {
        Descriptors {
            slots: [None; MAX_DESCRIPTORS],
        }
    }

    /// The lowest unused descriptor; `None` where all are used.
    pub(crate) fn lowest_unused(&self) -> Option<usize>
        ensures lowest { result ≡ lowest self.now }
        ensures below { IfSome result (λ fd. fd < descriptors_limit) }
        ensures unused { IfSome result (λ fd. get nat_cmp self.now fd ≡ None) }
    {
        first_empty(&self.slots)
    }

    /// What is open at a descriptor.
    pub(crate) fn get(&self, fd: usize) -> Option<Descriptor>
        ensures { result ≡ get nat_cmp self.now fd }
    {
        if fd < MAX_DESCRIPTORS {
            self.slots[fd]
        } else {
            None
        }
    }

    /// Puts an open file at a descriptor.
    pub(crate) fn put(&mut self, fd: usize, descriptor: Descriptor)
        requires { fd < descriptors_limit }
        ensures put { self.new ≡ with_entry nat_cmp self.old fd descriptor }
        ensures kept { AreDescriptors self.new }
    {
        self.slots[fd] = Some(descriptor);
    }

    /// Takes away what is open at a descriptor.
    pub(crate) fn remove(&mut self, fd: usize)
        requires { fd < descriptors_limit }
        ensures removed { self.new ≡ without nat_cmp self.old fd }
        ensures kept { AreDescriptors self.new }
    {
        self.slots[fd] = None;
    }

    /// Whether an inode is open at some descriptor.
    pub(crate) fn has(&self, ino: u32) -> bool
        ensures { result ≡ list_any (λ d. d.1.ino == ino) self.now }
    {
        is_in(&self.slots, ino)
    }

    /// Whether an inode is open at a descriptor other than this one.
    pub(crate) fn has_besides(&self, fd: usize, ino: u32) -> bool
        requires { fd < descriptors_limit }
        ensures { result ≡ list_any (λ d. d.1.ino == ino) (without nat_cmp self.now fd) }
    {
        let slots = &self.slots[..];
        is_in(&slots[..fd], ino) || is_in(&slots[fd + 1..], ino)
    }
}

// The first slot without an open file.
fn first_empty(slots: &[Option<Descriptor>]) -> Option<usize>
    ensures { result ≡ position is_none slots.now }
{
    slots.iter().position(|slot| slot.is_none())
}

// Whether an inode is open in one of these slots.
fn is_in(slots: &[Option<Descriptor>], ino: u32) -> bool
    ensures { result ≡ list_any (λ d. d.1.ino == ino) (entries_from 0 slots.now) }
{
    for slot in slots {
        if let Some(descriptor) = slot
            && descriptor.ino == ino
        {
            return true;
        }
    }
    false
}

/// The bits that a new file or directory may be denied.
const MASKED: u16 = 0o777;

/// The mask of a new process.
const NEW_UMASK: u16 = 0o022;

/// A process: who it is, where it stands, and what it has open.
#[derive(Drop)]
pub struct Process {
    cred: Cred,
    umask: u16,
    cwd: u32,
    descriptors: Descriptors,
}

impl Model for Process {
    ghost use Rattle.fs_model.specs.Processes.{Process as Running};

    ghost Value = { Running };

    ghost use Rattle.open_files.specs.Tables.{IsKeptProcess};

    ghost view = { λ p. record { cred = p.cred; umask = p.umask; cwd = p.cwd; descriptors = p.descriptors } };

    ghost invariant = { λ p. IsKeptProcess (record { cred = p.cred; umask = p.umask; cwd = p.cwd; descriptors = p.descriptors }) };
}

impl Process {
    ghost use Rattle.open_files.specs.Tables.{IsKeptProcess, lowest, without_descriptor};

    // A process as it begins: at the root, with nothing open.
    pub(crate) fn new(cred: Cred) -> Process
        ensures begun { result ≡ new_process cred }
        ensures kept { IsKeptProcess result }
    {
        Process {
            cred,
            umask: NEW_UMASK,
            cwd: ROOT,
            descriptors: Descriptors::new(),
        }
    }

    /// Who the process is.
    pub fn cred(&self) -> &Cred
        ensures { result.now ≡ self.now.cred }
    {
        &self.cred
    }

    /// The permission bits that a new file or directory lacks, unless its directory has a default ACL.
    pub fn umask(&self) -> u16
        ensures { result ≡ self.now.umask }
    {
        self.umask
    }

    /// The inode of the current directory.
    pub fn cwd(&self) -> u32
        ensures { result ≡ self.now.cwd }
    {
        self.cwd
    }

    // Sets the umask, and answers the old one.
    pub(crate) fn set_umask(&mut self, mask: u16) -> u16
        ensures old { result ≡ self.old.umask }
        ensures set { self.new ≡ record self.old { umask = mask % 512 } }
        ensures kept { IsKeptProcess self.new }
    {
        let old = self.umask;
        self.umask = mask & MASKED;
        old
    }

    pub(crate) fn stand_at(&mut self, dir_ino: u32)
        ensures set { self.new ≡ record self.old { cwd = dir_ino } }
        ensures kept { IsKeptProcess self.new }
    {
        self.cwd = dir_ino;
    }

    // The lowest unused descriptor; `None` where all are used.
    pub(crate) fn lowest_unused(&self) -> Option<usize>
        ensures lowest { result ≡ lowest self.now.descriptors }
        ensures below { IfSome result (λ fd. fd < descriptors_limit) }
        ensures unused { IfSome result (λ fd. descriptor self.now fd ≡ None) }
    {
        self.descriptors.lowest_unused()
    }

    // What is open at a descriptor.
    pub(crate) fn descriptor(&self, fd: usize) -> Option<Descriptor>
        ensures { result ≡ descriptor self.now fd }
    {
        self.descriptors.get(fd)
    }

    pub(crate) fn open(&mut self, fd: usize, descriptor: Descriptor)
        requires { fd < descriptors_limit }
        ensures put { self.new ≡ with_descriptor self.old fd descriptor }
        ensures kept { IsKeptProcess self.new }
    {
        self.descriptors.put(fd, descriptor);
    }

    pub(crate) fn seek(&mut self, fd: usize, offset: u64)
        requires { IsSome (descriptor self.old fd) }
        ensures moved { self.new ≡ with_offset self.old fd offset }
        ensures kept { IsKeptProcess self.new }
    {
        if let Some(descriptor) = self.descriptors.get(fd) {
            let moved = Descriptor {
                offset,
                ..descriptor
            };
            self.descriptors.put(fd, moved);
        }
    }

    pub(crate) fn close(&mut self, fd: usize)
        requires { IsSome (descriptor self.old fd) }
        ensures closed { self.new ≡ without_descriptor self.old fd }
        ensures kept { IsKeptProcess self.new }
    {
        self.descriptors.remove(fd);
    }

    // Whether the process has an inode open.
    pub(crate) fn has_open(&self, ino: u32) -> bool
        ensures { result ≡ list_any (λ d. d.1.ino == ino) self.now.descriptors }
    {
        self.descriptors.has(ino)
    }

    // Whether the process has an inode open at a descriptor other than this one.
    pub(crate) fn has_open_besides(&self, fd: usize, ino: u32) -> bool
        requires { IsSome (descriptor self.now fd) }
        ensures { result ≡ list_any (λ d. d.1.ino == ino) (without nat_cmp self.now.descriptors fd) }
    {
        self.descriptors.has_besides(fd, ino)
    }
}

/// Who is judged: a process, or an actor.
#[derive(Clone, Copy)]
enum Held<'a> {
    Process(&'a Process),
    Actor(&'a Actor),
}

/// As which process a call is judged: as the process that makes it, or, where an actor does, at the root and with nothing open. The
/// credential is lent.
#[derive(Drop)]
pub struct Judged<'a> {
    held: Held<'a>,
}

impl<'a> Model for Judged<'a> {
    ghost use Rattle.fs_model.specs.Processes.{Process as Running};

    ghost Value = { Running };

    ghost use Rattle.open_files.specs.Judging.{held_process};

    ghost view = { λ j. held_process j.held };
}

impl<'a> Judged<'a> {
    /// A process, as itself.
    pub fn process(process: &'a Process) -> Judged<'a>
        ensures { result ≡ process.now }
    {
        Judged {
            held: Held::Process(process),
        }
    }

    /// An actor.
    pub fn actor(actor: &'a Actor) -> Judged<'a>
        ensures judged { result ≡ judged_as actor.now }
        ensures cred { IsCredential actor.now.cred }
    {
        let cred = &actor.cred;
        let _groups = cred.groups();
        Judged {
            held: Held::Actor(actor),
        }
    }

    /// Who it is.
    pub fn cred(&self) -> &'a Cred
        ensures { result.now ≡ self.now.cred }
    {
        match self.held {
            Held::Process(process) => process.cred(),
            Held::Actor(actor) => &actor.cred,
        }
    }

    /// The permission bits that a new file or directory lacks, unless its directory has a default ACL.
    pub fn umask(&self) -> u16
        ensures { result ≡ self.now.umask }
    {
        match self.held {
            Held::Process(process) => process.umask(),
            Held::Actor(actor) => actor.umask % 512,
        }
    }

    /// The inode of the current directory.
    pub fn cwd(&self) -> u32
        ensures { result ≡ self.now.cwd }
    {
        match self.held {
            Held::Process(process) => process.cwd(),
            Held::Actor(_) => ROOT,
        }
    }
}

/// The most processes.
pub const MAX_PROCESSES: usize = 64;

/// The processes by their numbers.
#[derive(Drop)]
pub struct Procs {
    // The process of number n has the key n - 1.
    slab: Slab<Process>,
}

impl Model for Procs {
    ghost use Rattle.slab.specs.Slab.{entries_from};
    ghost use Rattle.fs_model.specs.Processes.{ProcessTable};
    ghost use Rattle.open_files.specs.Tables.{IsTable};

    ghost Value = { ProcessTable };

    ghost view = { λ procs. entries_from 1 procs.slab.slots };

    ghost invariant = { λ procs. IsTable (entries_from 1 procs.slab.slots) };
}

impl Procs {
    /// No process.
    pub fn new(alloc: Global) -> Procs
        ensures { result ≡ [] }
    {
        Procs {
            slab: Slab::new(alloc),
        }
    }

    /// Whether there is no room for another process.
    pub fn is_full(&self) -> bool
        ensures { IsTrue result ↔ (processes_limit ≤ length self.now) }
    {
        self.slab.len() >= MAX_PROCESSES
    }

    /// Adds a process, and answers its number, from 1 to 64. `EAGAIN`: there are 64. `ENOMEM`: there is no memory.
    ///
    /// A process stands at the root, with umask 022 and nothing open. No later call on it takes memory.
    pub fn spawn(&mut self, cred: Cred) -> Result<usize, Errno>
        ensures number { IfOk result (λ pid. IsNewPid self.old pid) }
        ensures added { IfOk result (λ pid. self.new ≡ with_entry nat_cmp self.old pid (new_process cred)) }
        ensures full { (result ≡ Err EAGAIN) ↔ (processes_limit ≤ length self.old) }
        ensures refused { IfErr result (λ errno. (errno ≡ EAGAIN) ⊎ (errno ≡ ENOMEM)) }
        ensures same { OnErr result (self.new ≡ self.old) }
    {
        if self.is_full() {
            return Err(Errno::EAGAIN);
        }
        // Keys that are free again are given before new ones: so it is below 64. No clause of the slab says so.
        if self.slab.vacant_key() >= MAX_PROCESSES {
            return Err(Errno::ENOMEM);
        }
        let Ok(key) = self.slab.insert(Process::new(cred)) else {
            return Err(Errno::ENOMEM);
        };
        Ok(key + 1)
    }

    /// Takes a process away, with all that it has open. `ESRCH`: there is none.
    pub fn exit(&mut self, pid: usize) -> Result<(), Errno>
        ensures answer { result ≡ answer_of self.old pid (λ p. Ok tt) }
        ensures gone { self.new ≡ without nat_cmp self.old pid }
    {
        let slab = &mut self.slab;
        if pid == 0 {
            return Err(Errno::ESRCH);
        }
        let Some(_process) = slab.try_remove(pid - 1) else {
            return Err(Errno::ESRCH);
        };
        Ok(())
    }

    /// Does nothing: its clause tells a caller's proof what is true of each table.
    pub fn tell_table(&self)
        ensures table { IsTable self.now }
    {
        let _slab = &self.slab;
    }

    // The process of this number.
    fn find(&self, pid: usize) -> Option<&Process>
        ensures found { option_copied result ≡ get nat_cmp self.now pid }
        ensures table { IsTable self.now }
    {
        let slab = &self.slab;
        if pid == 0 { None } else { slab.get(pid - 1) }
    }

    /// The process of this number. `ESRCH`: there is none.
    pub fn process(&self, pid: usize) -> Result<&Process, Errno>
        ensures found { IfOk result (λ p. get nat_cmp self.now pid ≡ Some p.now) }
        ensures absent { IfErr result (λ errno. (errno ≡ ESRCH) × (get nat_cmp self.now pid ≡ None)) }
        ensures table { IsTable self.now }
    {
        self.find(pid).ok_or(Errno::ESRCH)
    }

    /// Sets the umask of a process to the bits 0777 of `mask`, and answers the old one. `ESRCH`: there is no such process.
    pub fn umask(&mut self, pid: usize, mask: u16) -> Result<u16, Errno>
        ensures answer { result ≡ answer_of self.old pid (λ p. Ok p.umask) }
        ensures set { self.new ≡ with_changed self.old pid (λ p. record p { umask = mask % 512 }) }
    {
        let slab = &mut self.slab;
        if pid == 0 {
            return Err(Errno::ESRCH);
        }
        let Some(process) = slab.get_mut(pid - 1) else {
            return Err(Errno::ESRCH);
        };
        Ok(process.set_umask(mask))
    }

    /// A process that is there stands in a directory from now on.
    pub fn stand_at(&mut self, pid: usize, dir_ino: u32)
        requires found { IsSome (get nat_cmp self.old pid) }
        ensures set { self.new ≡ with_changed self.old pid (λ p. record p { cwd = dir_ino }) }
    {
        let Some(process) = self.slab.get_mut(pid - 1) else {
            return;
        };
        process.stand_at(dir_ino);
    }

    /// The lowest unused descriptor of a process, which its next open gets. `ESRCH`: there is no such process. `EMFILE`: all
    /// 32 are used.
    pub fn open_slot(&self, pid: usize) -> Result<usize, Errno>
        ensures answer { result ≡ slot_in self.now pid }
        ensures unused { IfOk result (λ fd. IsUnused self.now pid fd) }
    {
        let process = self.process(pid)?;
        process.lowest_unused().ok_or(Errno::EMFILE)
    }

    /// Puts an open file at an unused descriptor.
    pub fn open(&mut self, pid: usize, fd: usize, descriptor: Descriptor)
        requires unused { IsUnused self.old pid fd }
        ensures opened { self.new ≡ with_changed self.old pid (λ p. with_descriptor p fd descriptor) }
    {
        let Some(process) = self.slab.get_mut(pid - 1) else {
            return;
        };
        process.open(fd, descriptor);
    }

    /// What a process has open at a descriptor. `ESRCH`: there is no such process. `EBADF`: nothing.
    pub fn get(&self, pid: usize, fd: usize) -> Result<Descriptor, Errno>
        ensures answer { result ≡ open_in self.now pid fd }
        ensures table { IsTable self.now }
    {
        let process = self.process(pid)?;
        process.descriptor(fd).ok_or(Errno::EBADF)
    }

    /// Sets the offset of a descriptor that is open.
    pub fn seek(&mut self, pid: usize, fd: usize, offset: u64)
        requires open { IsOk (open_in self.old pid fd) }
        ensures moved { self.new ≡ with_changed self.old pid (λ p. with_offset p fd offset) }
    {
        let Some(process) = self.slab.get_mut(pid - 1) else {
            return;
        };
        process.seek(fd, offset);
    }

    /// Closes a descriptor that is open.
    pub fn close(&mut self, pid: usize, fd: usize)
        requires open { IsOk (open_in self.old pid fd) }
        ensures closed { self.new ≡ with_changed self.old pid (λ p. without_descriptor p fd) }
    {
        let Some(process) = self.slab.get_mut(pid - 1) else {
            return;
        };
        process.close(fd);
    }

    /// Whether an inode is open.
    pub fn is_open(&self, ino: u32) -> bool
        ensures { result ≡ is_open self.now ino }
    {
        for (_, process) in self.slab.iter() {
            if process.has_open(ino) {
                return true;
            }
        }
        false
    }

    /// Whether a process other than this one, which is there, has an inode open: whether it stays open after [`Procs::exit`].
    pub fn is_open_by_others(&self, pid: usize, ino: u32) -> bool
        requires found { IsSome (get nat_cmp self.now pid) }
        ensures { result ≡ is_open (without nat_cmp self.now pid) ino }
    {
        let slab = &self.slab;
        let own = pid - 1;
        for (key, process) in slab.iter() {
            if key != own && process.has_open(ino) {
                return true;
            }
        }
        false
    }

    /// Whether an inode is open at a descriptor other than this one, which is open: whether it stays open after
    /// [`Procs::close`].
    pub fn is_open_besides(&self, pid: usize, fd: usize, ino: u32) -> bool
        requires open { IsOk (open_in self.now pid fd) }
        ensures { result ≡ is_open (with_changed self.now pid (λ p. without_descriptor p fd)) ino }
    {
        let Some(process) = self.find(pid) else {
            return false;
        };
        process.has_open_besides(fd, ino) || self.is_open_by_others(pid, ino)
    }

    // Whether an inode is the current directory of a process.
    fn is_current(&self, ino: u32) -> bool
        ensures { result ≡ list_any (λ p. p.1.cwd == ino) self.now }
    {
        for (_, process) in self.slab.iter() {
            if process.cwd() == ino {
                return true;
            }
        }
        false
    }

    /// Whether a directory is in use: it is the root, the current one of a process, or open.
    pub fn in_use(&self, ino: u32) -> bool
        ensures { result ≡ is_in_use self.now ino }
    {
        ino == ROOT || self.is_current(ino) || self.is_open(ino)
    }
}
