//! Mode, owner, group and ACLs of what a path leads to: POSIX.1-2017, chmod() and chown(), and acl_get_file(3) and
//! acl_set_file(3), with acl(5).

ghost use Rattle.std.specs.Prelude.{◌≡◌, ◌≢◌, OnOk, IfErr, ◌<◌, ◌≤◌, None};
ghost use Rattle.fs_model.specs.declared.call.Call.TheVariants.{Chmod, Chown, GetAcl, SetAcl};
ghost use Rattle.fs_model.specs.Demands.{first_of};
ghost use Rattle.posix_acl.specs.AccessList.{AccessList, with_mode_bits};
ghost use Rattle.sector_txn.specs.Sectors.{SameStore, IsUnchanged};
ghost use Rattle.bit_alloc.specs.Room.{HasSpare, TakesSpare};
ghost use Rattle.inode_table.specs.Acls.{HasAcl, acl_takes};
ghost use Rattle.path_walk.specs.Answers.{Interrupts};
ghost use Rattle.call_parts.specs.Altering.{AltersDisk, MayAlter};
ghost use Rattle.call_parts.specs.Asked.{owner_asked, holder_asked, acl_space_asked};
ghost use Rattle.call_parts.specs.Given.{GivesOwner, SavesAcl, special_mode, SavesDefaultAcl, SavesOf, HasBody};
ghost use Rattle.call_parts.specs.Performing.{IsReadyFor, PerformsFor};
ghost use Rattle.call_parts.specs.Telling.{checked, ShowsInode, TellsAnswer, ReadsInode};
ghost use Rattle.call_parts.specs.UsedInode.{IsUsedInode};
ghost use Rattle.std.specs.Option.{option_copied};
ghost use Rattle.fs_layout.specs.AclSector.{kept_acl};
ghost use Rattle.fs_layout.specs.Inode.{FitsInode};
ghost use Rattle.fs_layout.specs.Images.{inode_at, free_sectors};
ghost use Rattle.fs_model.specs.AttributeCalls.{acl_shown, needs_sector, set_acl_arguments};
ghost use Rattle.fs_model.specs.Nodes.{default_in};
ghost use Rattle.bit_alloc.specs.Bitmaps.{HasBitmaps};

use call_parts::{
    CallResult, Caller, allowed_by, ask_for_sectors, check_mode, default_of, reach, reach_owned,
    touch,
};
use fs_cred::{
    Cred, Errno, Need, Refusal, keeps_set_group_id, may_chgrp, may_chown, owns_or_may_chown,
};
use fs_layout::{Geometry, Inode, Kind, S_ISGID, S_ISVTX};
use fs_model::{AclType, Form, Path, Reply, Touch};
use inode_table::{LoadAclFault, load_acl, save, save_acl, save_default_acl};
use posix_acl::Acl;
use sector_txn::Sectors;

// Asks whether the caller may give the inode this owner and group.
fn check_owner(cred: &Cred, inode: &Inode, uid: u32, gid: u32, step: usize) -> Result<(), Refusal>
    ensures { result ≡ checked (first_of (owner_asked cred.now inode.now.uid inode.now.gid uid gid step)) }
{
    allowed_by(1, step, Need::Own, owns_or_may_chown(cred, inode.uid))?;
    allowed_by(1, step, Need::Chown, may_chown(cred, inode.uid, uid))?;
    allowed_by(1, step, Need::Chgrp, may_chgrp(cred, inode.gid, gid))?;
    Ok(())
}

// Gives inode `ino` this owner and group.
fn give_owner<S: Sectors>(
    s: &mut S,
    geometry: Geometry,
    ino: u32,
    inode: &Inode,
    uid: u32,
    gid: u32,
) -> Result<(), Refusal>
    requires loaded { IsUsedInode geometry (S.state s.old) ino inode.now }
    requires spare { HasSpare geometry 1 (S.state s.old) }
    ensures { AltersDisk geometry 1 (λ done. GivesOwner geometry ino uid gid) (S.state s.old) (S.state s.new) result }
{
    let given = Inode { uid, gid, ..*inode };
    match save(s, geometry, ino, &given) {
        Ok(()) => Ok(()),
        Err(_) => Err(Refusal::Failed(Errno::EIO)),
    }
}

// Of a mode that the caller gives to the inode the bits above the permission bits.
fn special_bits(cred: &Cred, inode: &Inode, mode: u16) -> u16
    ensures { result ≡ special_mode cred.now inode.now.kind inode.now.gid mode }
{
    if inode.kind != Kind::Directory {
        return 0;
    }
    let sticky = if mode / S_ISVTX % 2 == 1 { S_ISVTX } else { 0 };
    let asks = mode / S_ISGID % 2 == 1;
    if asks && keeps_set_group_id(cred, inode.gid) {
        return sticky + S_ISGID;
    }
    sticky
}

// Gives inode `ino` this mode.
fn give_mode<S: Sectors>(
    s: &mut S,
    caller: &Caller,
    cred: &Cred,
    ino: u32,
    inode: &Inode,
    mode: u16,
) -> Result<(), Refusal>
    requires loaded { IsUsedInode caller.now.geometry (S.state s.old) ino inode.now }
    requires has { (a : AccessList) × HasAcl (S.state s.old).sectors inode.now a }
    requires no_link { inode.now.kind ≢ Kind.Link }
    requires spare { HasSpare caller.now.geometry 2 (S.state s.old) }
    ensures given { OnOk result ((a : AccessList) → HasAcl (S.state s.old).sectors inode.now a
        → SavesAcl caller.now.geometry ino (special_mode cred.now inode.now.kind inode.now.gid mode) (with_mode_bits a mode)
        (S.state s.old).sectors (S.state s.new).sectors) }
    ensures taken { OnOk result (TakesSpare caller.now.geometry 2 (S.state s.old) (S.state s.new)) }
    ensures store { SameStore (S.state s.old) (S.state s.new) }
    ensures interrupts { IfErr result (Interrupts (S.state s.old).disk (S.state s.new).disk) }
{
    let had = acl_of(s, caller, inode)?;
    let acl = had.with_mode_bits(mode);
    let moded = Inode {
        mode: special_bits(cred, inode, mode),
        ..*inode
    };
    give_acl(s, caller.geometry, ino, &moded, &acl)?;
    Ok(())
}

/// Sets the permission bits of what a path leads to, and of a directory S_ISGID and S_ISVTX.
///
/// S_ISGID stays clear without an error where `keeps_set_group_id` says so. EINVAL: the mode has more bits than
/// 07777. ENOENT: the path leads to nothing.
pub fn chmod<S: Sectors>(s: &mut S, caller: &Caller, path: &Path, mode: u16) -> CallResult
    requires ready { IsReadyFor caller.now (S.state s.old) }
    ensures { PerformsFor caller.now (Chmod path.now mode) (S.state s.old) (S.state s.new) result }
{
    let checks = check_mode(mode);
    let reached = reach_owned(s, caller, checks, path, false, Form::Follow)?;
    let cred = reached.process.cred();
    let ino = reached.ino;
    give_mode(s, caller, cred, ino, &reached.inode, mode)?;
    let touches = [(ino, Touch::Changed)];
    touch(s, caller.geometry, caller.time, &touches)?;
    Ok(Reply::Done)
}

/// Gives what a path leads to another owner or group; one that isn't given stays.
///
/// Who may is asked of `owns_or_may_chown`, `may_chown` and `may_chgrp`. S_ISGID and the ACLs stay. ENOENT: the path leads
/// to nothing.
pub fn chown<S: Sectors>(
    s: &mut S,
    caller: &Caller,
    path: &Path,
    owner: Option<u32>,
    group: Option<u32>,
) -> CallResult
    requires ready { IsReadyFor caller.now (S.state s.old) }
    ensures { PerformsFor caller.now (Chown path.now owner group) (S.state s.old) (S.state s.new) result }
{
    let reached = reach(s, caller, Ok(()), path, true, Form::Follow)?;
    let cred = reached.process.cred();
    let inode = reached.inode;
    let uid = owner.unwrap_or(inode.uid);
    let gid = group.unwrap_or(inode.gid);
    check_owner(cred, &inode, uid, gid, reached.found.step)?;
    give_owner(s, caller.geometry, reached.ino, &inode, uid, gid)?;
    touch(
        s,
        caller.geometry,
        caller.time,
        &[(reached.ino, Touch::Changed)],
    )?;
    Ok(Reply::Done)
}

// The access ACL of an inode of the table, a file or a directory. ENOMEM: it finds no memory. EIO: the disk has failed.
fn acl_of<S: Sectors>(s: &mut S, caller: &Caller, inode: &Inode) -> Result<Acl, Refusal>
    requires { ShowsInode caller.now.geometry (S.state s.old) inode.now HasAcl }
    ensures { ReadsInode inode.now HasAcl (λ acl. acl) (S.state s.old) (S.state s.new) result }
{
    match load_acl(caller.alloc, s, caller.geometry, inode) {
        Ok(acl) => Ok(acl),
        Err(LoadAclFault::OutOfMemory) => Err(Refusal::Failed(Errno::ENOMEM)),
        Err(LoadAclFault::DiskFault) => Err(Refusal::Failed(Errno::EIO)),
    }
}

// Gives inode `ino` this access ACL, for which there is space, and of its mode the bits above the permission bits.
// EIO: the disk has failed.
fn give_acl<S: Sectors>(
    s: &mut S,
    geometry: Geometry,
    ino: u32,
    inode: &Inode,
    acl: &Acl,
) -> Result<(), Refusal>
    requires ready { MayAlter geometry 2 (S.state s.old) }
    requires below { ino < geometry.inodes }
    requires inode { inode.now ≡ record (inode_at geometry (S.state s.old).sectors ino) { mode = inode.now.mode } }
    requires fits { FitsInode inode.now }
    requires used { inode.now.kind ≢ Kind.Free }
    requires no_link { inode.now.kind ≢ Kind.Link }
    requires room { acl_takes inode.now.acl (kept_acl acl.now) ≤ free_sectors geometry (S.state s.old).sectors }
    ensures { AltersDisk geometry 2 (λ done. SavesAcl geometry ino inode.now.mode acl.now) (S.state s.old) (S.state s.new) result }
{
    match save_acl(s, geometry, ino, inode, acl) {
        Ok(()) => Ok(()),
        Err(_) => Err(Refusal::Failed(Errno::EIO)),
    }
}

// The default ACL of an inode of the table, a file or a directory; what is no directory has none.
fn shown_default<S: Sectors>(
    s: &mut S,
    caller: &Caller,
    inode: &Inode,
) -> Result<Option<Acl>, Refusal>
    requires { ShowsInode caller.now.geometry (S.state s.old) inode.now (HasBody caller.now.geometry.version) }
    ensures { ReadsInode inode.now (HasBody caller.now.geometry.version) default_in (S.state s.old) (S.state s.new) result }
{
    if inode.kind != Kind::Directory {
        return Ok(None);
    }
    let default = default_of(s, caller, inode)?;
    Ok(default)
}

// An ACL of an inode of the table, a file or a directory. What is no directory has no default ACL.
fn shown_acl<S: Sectors>(
    s: &mut S,
    caller: &Caller,
    inode: &Inode,
    which: AclType,
) -> Result<Option<Acl>, Refusal>
    requires { ShowsInode caller.now.geometry (S.state s.old) inode.now (HasBody caller.now.geometry.version) }
    ensures { ReadsInode inode.now (HasBody caller.now.geometry.version) (acl_shown which) (S.state s.old) (S.state s.new) result }
{
    match which {
        AclType::Access => {
            let acl = acl_of(s, caller, inode)?;
            Ok(Some(acl))
        }
        AclType::Default => shown_default(s, caller, inode),
    }
}

/// Reads an ACL of what a path leads to. ENOENT: the path leads to nothing.
///
/// What is no directory has no default ACL, and a directory may have none.
pub fn get_acl<S: Sectors>(s: &mut S, caller: &Caller, path: &Path, which: AclType) -> CallResult
    requires ready { IsReadyFor caller.now (S.state s.old) }
    ensures performs { PerformsFor caller.now (GetAcl path.now which) (S.state s.old) (S.state s.new) result }
    ensures same { IsUnchanged (S.state s.old) (S.state s.new) }
{
    let reached = reach(s, caller, Ok(()), path, false, Form::Follow)?;
    let acl = shown_acl(s, caller, &reached.inode, which)?;
    Ok(Reply::Acl(acl))
}

// Asks whether this may be given at all: an access ACL can't be removed.
fn check_acl(which: AclType, acl: Option<&Acl>) -> Result<(), Refusal>
    ensures { result ≡ checked (first_of (set_acl_arguments which (option_copied acl.entry))) }
{
    match (which, acl) {
        (AclType::Access, None) => Err(Refusal::Failed(Errno::EINVAL)),
        _ => Ok(()),
    }
}

// Asks whether what is of this kind may have it: only a directory has a default ACL.
fn check_holder(which: AclType, kind: Kind) -> Result<(), Refusal>
    ensures { result ≡ checked (holder_asked which kind) }
{
    match which {
        AclType::Default if kind != Kind::Directory => Err(Refusal::Failed(Errno::ENOTDIR)),
        _ => Ok(()),
    }
}

// Whether the ACL that is given needs a sector.
fn takes_sector(which: AclType, acl: Option<&Acl>) -> bool
    ensures { result ≡ needs_sector which (option_copied acl.entry) }
{
    match (which, acl) {
        (_, None) => false,
        (AclType::Default, Some(_)) => true,
        (AclType::Access, Some(acl)) => acl.is_extended(),
    }
}

// Asks for free data sectors, where the ACL that is given needs one. ENOSPC: fewer than 16 are free.
fn ask_for_space<S: Sectors>(
    s: &mut S,
    geometry: Geometry,
    which: AclType,
    acl: Option<&Acl>,
) -> Result<(), Refusal>
    requires { HasBitmaps geometry (S.state s.old) }
    ensures { TellsAnswer
        (checked (first_of (acl_space_asked which (option_copied acl.entry) (free_sectors geometry (S.state s.old).sectors))))
        (S.state s.old) (S.state s.new) result }
{
    if !takes_sector(which, acl) {
        return Ok(());
    }
    ask_for_sectors(s, geometry)?;
    Ok(())
}

// Gives inode `ino` this default ACL, for which there is space, or none. EIO: the disk has failed.
fn give_default_acl<S: Sectors>(
    s: &mut S,
    geometry: Geometry,
    ino: u32,
    inode: &Inode,
    acl: Option<&Acl>,
) -> Result<(), Refusal>
    requires loaded { IsUsedInode geometry (S.state s.old) ino inode.now }
    requires spare { HasSpare geometry 2 (S.state s.old) }
    requires room { acl_takes inode.now.default_acl (option_copied acl) ≤ free_sectors geometry (S.state s.old).sectors }
    ensures { AltersDisk geometry 2 (λ done. SavesDefaultAcl geometry ino (option_copied acl.entry))
        (S.state s.old) (S.state s.new) result }
{
    match save_default_acl(s, geometry, ino, inode, acl) {
        Ok(()) => Ok(()),
        Err(_) => Err(Refusal::Failed(Errno::EIO)),
    }
}

// Gives inode `ino`, a file or a directory, this ACL, for which there is space, or removes its default ACL.
fn replace_acl<S: Sectors>(
    s: &mut S,
    geometry: Geometry,
    ino: u32,
    inode: &Inode,
    which: AclType,
    acl: Option<&Acl>,
) -> Result<(), Refusal>
    requires loaded { IsUsedInode geometry (S.state s.old) ino inode.now }
    requires no_link { inode.now.kind ≢ Kind.Link }
    requires spare { HasSpare geometry 2 (S.state s.old) }
    requires space { first_of (acl_space_asked which (option_copied acl) (free_sectors geometry (S.state s.old).sectors)) ≡ None }
    ensures { AltersDisk geometry 2 (λ done. SavesOf which geometry ino inode.now.mode (option_copied acl.entry))
        (S.state s.old) (S.state s.new) result }
{
    match (which, acl) {
        (AclType::Access, Some(acl)) => give_acl(s, geometry, ino, inode, acl),
        _ => give_default_acl(s, geometry, ino, inode, acl),
    }
}

/// Sets an ACL of what a path leads to, or removes its default ACL.
///
/// The permission bits of the mode become those of an access ACL. EINVAL: no access ACL is given. ENOENT: the path leads to
/// nothing. ENOTDIR: a default ACL for what is no directory. ENOSPC: the ACL needs a sector, and fewer than 16 are free.
pub fn set_acl<S: Sectors>(
    s: &mut S,
    caller: &Caller,
    path: &Path,
    which: AclType,
    acl: Option<&Acl>,
) -> CallResult
    requires ready { IsReadyFor caller.now (S.state s.old) }
    ensures { PerformsFor caller.now (SetAcl path.now which (option_copied acl.entry)) (S.state s.old) (S.state s.new) result }
{
    let checks = check_acl(which, acl);
    let reached = reach_owned(s, caller, checks, path, false, Form::Follow)?;
    let inode = reached.inode;
    check_holder(which, inode.kind)?;
    ask_for_space(s, caller.geometry, which, acl)?;
    let ino = reached.ino;
    replace_acl(s, caller.geometry, ino, &inode, which, acl)?;
    touch(s, caller.geometry, caller.time, &[(ino, Touch::Changed)])?;
    Ok(Reply::Done)
}
