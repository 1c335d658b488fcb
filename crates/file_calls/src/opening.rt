//! open: POSIX.1-2017, open(), with the flags of open(2), and the files that it makes.

ghost use Rattle.std.specs.Prelude.{◌≡◌, ◌<◌, ◌&&◌, false, Some, Ok, OnOk, IfOk, IfErr, not, ◌||◌, None};
ghost use Rattle.fs_layout.specs.Bytes.{IsBytes};
ghost use Rattle.fs_layout.specs.Images.{inode_at};
ghost use Rattle.fs_model.specs.declared.call.Call.TheVariants.{Open};
ghost use Rattle.fs_model.specs.Demands.{refuse, first_of};
ghost use Rattle.fs_model.specs.OpenCall.{open_arguments, open_form};
ghost use Rattle.fs_model.specs.Parts.{ends_with_slash};
ghost use Rattle.path_walk.specs.Answers.{refused_or};
ghost use Rattle.path_walk.specs.HeldTrees.{IsThere};
ghost use Rattle.call_parts.specs.BothTables.{both, tables_in};
ghost use Rattle.call_parts.specs.Callers.{ByCaller, who_of};
ghost use Rattle.call_parts.specs.Performing.{MayPerform, Performs};
ghost use Rattle.fs_model.specs.States.{State};
ghost use Rattle.file_calls.specs.declared.opening.Slot.TheVariants.{Handle as HandleSlot};
ghost use Rattle.file_calls.specs.Opens.{IsSlotRefused, IsSlotChosen, MayFillSlot, IsSlotFilled, opened_so};
ghost use Rattle.call_parts.specs.Telling.{checked, ShowsTree, TellsTree, ShowsInode, ReadsInode};
ghost use Rattle.file_calls.specs.Openings.{open_asked, open_kind_asked, found_asked, MayOpen, Opens};
ghost use Rattle.fs_model.specs.Births.{born_acl};
ghost use Rattle.fs_model.specs.Trees.{Tree};
ghost use Rattle.inode_table.specs.Acls.{HasDefaultAcl};
ghost use Rattle.call_parts.specs.Altering.{MayAlter, AltersDisk};
ghost use Rattle.call_parts.specs.Makings.{CanMake};
ghost use Rattle.call_parts.specs.NewNodes.{MakesNode, file_made};

use crate::transfer::give_size;
use call_parts::{
    By, CallResult, Caller, Site, check_from, check_make, default_of, find, inherited, name_inode,
    new_group, permitted, touch,
};
use fs_cred::{Cred, Errno, Refusal};
use fs_layout::{Geometry, Inode, Kind};
use fs_model::{Flags, Form, Found, Path, Reply, Touch};
use inode_table::new_inode;
use open_files::{Descriptor, Judged, Opened, Openings, Procs};
use path_walk::{ends_with_slash, load_inode};
use posix_acl::{Acl, Perms};
use sector_txn::Sectors;

/// What is opened: what a path has led to, with these flags, and with this mode where it is made.
#[derive(Drop)]
pub(crate) struct Opening {
    pub found: Found,
    pub flags: Flags,
    pub mode: u16,
}

// Asks what needs neither the path nor the process.
fn check_arguments(flags: Flags, mode: u16) -> Result<(), Refusal>
    ensures { result ≡ checked (first_of (open_arguments flags mode)) }
{
    if flags.create && flags.directory {
        return Err(Refusal::Failed(Errno::EINVAL));
    }
    if mode > 0o7777 {
        return Err(Refusal::Failed(Errno::EINVAL));
    }
    Ok(())
}

// Asks whether a file that may be made would be named as a directory.
fn check_slash(flags: Flags, path: &Path) -> Result<(), Refusal>
    ensures answer { result ≡ checked (refuse Errno.EISDIR (flags.create && ends_with_slash path.now)) }
    ensures bytes { IsBytes path.now }
{
    let bytes = path.bytes();
    if flags.create && ends_with_slash(bytes) {
        return Err(Refusal::Failed(Errno::EISDIR));
    }
    Ok(())
}

// Asks what needs neither the caller nor the tree.
fn check_open(by: By, flags: Flags, mode: u16, path: &Path) -> Result<(), Refusal>
    ensures answer { result ≡ checked (first_of (open_asked (who_of by.entry) flags mode path.now)) }
    ensures bytes { OnOk result (IsBytes path.now) }
{
    check_arguments(flags, mode)?;
    check_from(by, path)?;
    check_slash(flags, path)?;
    Ok(())
}

// How a link at the end of the path is treated.
fn form_of(flags: Flags) -> Form
    ensures { result ≡ open_form flags }
{
    if flags.nofollow || flags.create && flags.excl {
        Form::NoFollow
    } else {
        Form::Follow
    }
}

// Asks whether what is there may be opened so, by its kind.
fn check_kind(flags: Flags, kind: Kind) -> Result<(), Refusal>
    ensures { result ≡ checked (first_of (open_kind_asked flags kind)) }
{
    let is_directory = kind == Kind::Directory;
    if flags.create && flags.excl {
        return Err(Refusal::Failed(Errno::EEXIST));
    }
    if kind == Kind::Link {
        return Err(Refusal::Failed(Errno::ELOOP));
    }
    if flags.directory && !is_directory {
        return Err(Refusal::Failed(Errno::ENOTDIR));
    }
    if is_directory && (flags.write || flags.create) {
        return Err(Refusal::Failed(Errno::EISDIR));
    }
    Ok(())
}

// What has to be permitted on what is opened.
fn wanted(flags: Flags) -> Perms
    ensures { result ≡ record { read = flags.read; write = flags.write; execute = false } }
{
    Perms {
        read: flags.read,
        write: flags.write,
        execute: false,
    }
}

// Asks all that an open asks of what was found, and answers its inode.
fn check_found<S: Sectors>(
    s: &mut S,
    caller: &Caller,
    cred: &Cred,
    ino: u32,
    step: usize,
    flags: Flags,
) -> Result<Inode, Refusal>
    requires { ShowsTree caller.now.geometry (S.state s.old) (λ t. IsThere t ino) }
    ensures { TellsTree caller.now.geometry (λ t. IsThere t ino)
        (λ t. refused_or (first_of (found_asked flags cred.now t ino step))
        (Ok (inode_at caller.now.geometry (S.state s.old).sectors ino))) (S.state s.old) (S.state s.new) result }
{
    let inode = load_inode(s, caller.geometry, ino)?;
    check_kind(flags, inode.kind)?;
    permitted(s, caller, cred, &inode, wanted(flags), 1, step)?;
    Ok(inode)
}

// Whether the file loses its bytes.
fn cuts(flags: Flags) -> bool
    ensures { result ≡ (flags.trunc && flags.write) }
{
    flags.trunc && flags.write
}

// Opens what was found, inode `ino`, which loses its bytes with O_TRUNC.
fn open_old<S: Sectors>(
    s: &mut S,
    caller: &Caller,
    process: &Judged,
    opening: &Opening,
    ino: u32,
) -> Result<u32, Refusal>
    requires may { MayOpen caller.now.geometry (S.state s.old) process.now opening.now }
    requires some { opening.now.found.ino ≡ Some ino }
    ensures { Opens caller.now process.now opening.now (S.state s.old) (S.state s.new) result }
{
    let flags = opening.flags;
    let cred = process.cred();
    let inode = check_found(s, caller, cred, ino, opening.found.step, flags)?;
    let cuts = cuts(flags);
    if !cuts {
        return Ok(ino);
    }
    give_size(s, caller.geometry, ino, inode, 0)?;
    touch(s, caller.geometry, caller.time, &[(ino, Touch::Modified)])?;
    Ok(ino)
}

// Opens what was found, or makes it.
fn open_inode<S: Sectors>(
    s: &mut S,
    caller: &Caller,
    process: &Judged,
    opening: &Opening,
) -> Result<u32, Refusal>
    requires { MayOpen caller.now.geometry (S.state s.old) process.now opening.now }
    ensures { Opens caller.now process.now opening.now (S.state s.old) (S.state s.new) result }
{
    match opening.found.ino {
        Some(ino) => open_old(s, caller, process, opening, ino),
        None => open_new(s, caller, process, opening),
    }
}

/// Where what is opened is put: at an unused descriptor of a process, or under a new handle.
#[derive(Clone, Copy)]
enum Slot {
    Descriptor { pid: usize, fd: usize },
    Handle,
}

// Where a caller puts what it opens, once all is asked that needs no tree. A process has an unused descriptor, and for a handle memory
// is reserved. ESRCH: there is no such process. EMFILE: all descriptors are used. ENOMEM: there is no memory for a handle.
fn find_slot(
    procs: &Procs,
    openings: &mut Openings,
    by: By,
    path: &Path,
    flags: Flags,
    mode: u16,
) -> Result<Slot, Refusal>
    ensures refused { IfErr result (λ e. (st : State) → tables_in st ≡ both procs.now openings.old.0
        → IsSlotRefused st (who_of by.entry) path.now flags mode e) }
    ensures placed { IfOk result (IsSlotChosen (both procs.now openings.old.0) (who_of by.entry) path.now flags mode) }
    ensures room { IfOk result (λ slot. slot ≡ HandleSlot → 0 < openings.new.1) }
    ensures same { openings.new.0 ≡ openings.old.0 }
{
    match by {
        By::Process(pid) => {
            procs.process(pid)?;
            check_open(by, flags, mode, path)?;
            let fd = procs.open_slot(pid)?;
            Ok(Slot::Descriptor { pid, fd })
        }
        By::Actor(actor) => {
            let _judged = Judged::actor(actor);
            check_open(by, flags, mode, path)?;
            openings.reserve()?;
            Ok(Slot::Handle)
        }
    }
}

// Puts what was opened there, and answers where it is.
fn put_open(procs: &mut Procs, openings: &mut Openings, slot: Slot, ino: u32, flags: Flags) -> Reply
    requires may { MayFillSlot procs.old openings.old.1 slot }
    ensures { IsSlotFilled (both procs.old openings.old.0) slot (opened_so ino flags) (both procs.new openings.new.0) result }
{
    match slot {
        Slot::Descriptor { pid, fd } => {
            let descriptor = Descriptor {
                ino,
                offset: 0,
                read: flags.read,
                write: flags.write,
                append: flags.append,
            };
            procs.open(pid, fd, descriptor);
            Reply::Fd(fd)
        }
        Slot::Handle => {
            let handle = openings.open(Opened {
                ino,
                read: flags.read,
                write: flags.write,
                append: flags.append,
            });
            Reply::Opened { handle, ino }
        }
    }
}

/// Opens what a path leads to: for a process at its lowest unused descriptor and at offset 0, for an actor under a new handle. With
/// O_CREAT a file is made where there is none; with O_TRUNC a file that is opened for writing loses its bytes.
///
/// EINVAL: O_CREAT with O_DIRECTORY, or a mode above 07777. EISDIR: a directory, for writing or with O_CREAT. EMFILE: all
/// descriptors are used. EEXIST: it is there, with O_CREAT and O_EXCL. ELOOP: it is a symbolic link. ENOTDIR: it is no
/// directory, with O_DIRECTORY. ENOENT: nothing is there. ENOSPC: there is no room for a new file.
pub fn open<S: Sectors>(
    s: &mut S,
    site: Site,
    procs: &mut Procs,
    openings: &mut Openings,
    by: By,
    path: &Path,
    flags: Flags,
    mode: u16,
) -> CallResult
    requires ready { MayPerform site.geometry (S.state s.old) (both procs.old openings.old.0) }
    ensures { Performs site.geometry site.time (ByCaller (who_of by.entry) (Open path.now flags mode))
        (S.state s.old) (S.state s.new) (both procs.old openings.old.0) (both procs.new openings.new.0) result }
{
    let slot = find_slot(procs, openings, by, path, flags, mode)?;
    procs.tell_table();
    let _bytes = path.bytes();
    let caller = site.caller(procs, openings, by);
    let process = caller.process()?;
    let form = form_of(flags);
    let found = find(s, &caller, &process, path, false, form)?;
    let opening = Opening { found, flags, mode };
    let ino = open_inode(s, &caller, &process, &opening)?;
    Ok(put_open(procs, openings, slot, ino, flags))
}

// The access ACL of what is made in a directory.
fn new_acl<S: Sectors>(
    s: &mut S,
    caller: &Caller,
    directory: &Inode,
    mode: u16,
    umask: u16,
) -> Result<Acl, Refusal>
    requires { ShowsInode caller.now.geometry (S.state s.old) directory.now HasDefaultAcl }
    ensures { ReadsInode directory.now HasDefaultAcl (λ acl. born_acl acl mode umask) (S.state s.old) (S.state s.new) result }
{
    let default = default_of(s, caller, directory)?;
    let acl = inherited(caller.alloc, default.as_ref(), mode, umask)?;
    Ok(acl)
}

// Makes an empty file with this owner, group and ACL, and names it in directory `dir_ino`. EIO: the disk has failed.
fn make_file<S: Sectors>(
    s: &mut S,
    geometry: Geometry,
    dir_ino: u32,
    directory: Inode,
    name: &[u8],
    uid: u32,
    gid: u32,
    acl: &Acl,
) -> Result<u32, Refusal>
    requires ready { MayAlter geometry 47 (S.state s.old) }
    requires directory { directory ≡ inode_at geometry (S.state s.old).sectors dir_ino }
    requires may { (t : Tree) × CanMake geometry (S.state s.old).sectors t dir_ino name.now }
    ensures { AltersDisk geometry 7 (λ n. MakesNode geometry dir_ino name.now n (file_made uid gid acl.now))
        (S.state s.old) (S.state s.new) result }
{
    let file = Inode {
        kind: Kind::File,
        uid,
        gid,
        names: 1,
        ..Inode::FREE
    };
    let Ok(ino) = new_inode(s, geometry, &file, acl, None) else {
        return Err(Refusal::Failed(Errno::EIO));
    };
    name_inode(s, geometry, dir_ino, directory, name, ino)?;
    Ok(ino)
}

// Asks whether what was not found may be made.
fn check_new(flags: Flags, found: &Found) -> Result<(), Refusal>
    ensures { result ≡ checked (refuse Errno.ENOENT (not flags.create || found.now.slash)) }
{
    if !flags.create || found.slash {
        return Err(Refusal::Failed(Errno::ENOENT));
    }
    Ok(())
}

// Makes the file that was not found.
pub(crate) fn open_new<S: Sectors>(
    s: &mut S,
    caller: &Caller,
    process: &Judged,
    opening: &Opening,
) -> Result<u32, Refusal>
    requires may { MayOpen caller.now.geometry (S.state s.old) process.now opening.now }
    requires none { opening.now.found.ino ≡ None }
    ensures { Opens caller.now process.now opening.now (S.state s.old) (S.state s.new) result }
{
    let found = &opening.found;
    check_new(opening.flags, found)?;
    let cred = process.cred();
    let step = found.step.saturating_sub(1);
    let directory = check_make(s, caller, cred, found.dir_ino, step)?;
    let acl = new_acl(s, caller, &directory, opening.mode, process.umask())?;
    let gid = new_group(&directory, cred);
    let name = found.name.bytes();
    let uid = cred.uid();
    let ino = make_file(
        s,
        caller.geometry,
        found.dir_ino,
        directory,
        name,
        uid,
        gid,
        &acl,
    )?;
    touch(
        s,
        caller.geometry,
        caller.time,
        &[(found.dir_ino, Touch::Modified), (ino, Touch::Born)],
    )?;
    Ok(ino)
}
