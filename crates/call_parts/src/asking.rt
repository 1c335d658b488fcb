//! What calls ask before they change anything, one check for each: of modes, owners and permissions, of space, and of the
//! directory in which something is to be made.

ghost use Rattle.std.specs.Prelude.{◌≡◌, ◌-◌, Ok, ◌&&◌, not, ◌==◌, ◌/◌, ◌%◌, nat_le, if◌then◌else◌, option_copied, IfOk, IfErr, ℕ, ◌||◌};
ghost use Rattle.fs_cred.specs.declared.refusal.Need.TheVariants.{Perm};
ghost use Rattle.fs_cred.specs.Verdicts.{verdict};
ghost use Rattle.fs_model.specs.Demands.{allowed_by, decided, refuse, first_of, permission_on, write_and_search};
ghost use Rattle.path_walk.specs.Answers.{refused_or, IsAnswered};
ghost use Rattle.path_walk.specs.HeldTrees.{HasAccess, HoldsTree};
ghost use Rattle.fs_model.specs.Scenes.{check_of_mode, is_found, is_special};
ghost use Rattle.fs_model.specs.Rules.{is_directory_kind};
ghost use Rattle.call_parts.specs.Asked.{sticky_asked};
ghost use Rattle.call_parts.specs.Telling.{checked, ShowsInode, TellsOf, TellsAnswer, ShowsTree, TellsTree, ReadsInode};
ghost use Rattle.fs_layout.specs.Images.{free_sectors, inode_at};
ghost use Rattle.bit_alloc.specs.Bitmaps.{HasBitmaps, free_numbers};
ghost use Rattle.bit_alloc.specs.declared.bitmap.Bitmap.TheVariants.{Inodes};
ghost use Rattle.fs_cred.specs.declared.errno.Errno.TheVariants.{ENOSPC};
ghost use Rattle.fs_model.specs.Limits.{least_free, free_for};
ghost use Rattle.call_parts.specs.Space.{AsksForSpace};
ghost use Rattle.posix_acl.specs.AccessList.{minimal};
ghost use Rattle.fs_layout.specs.Version.{max_directory_size};
ghost use Rattle.fs_layout.specs.declared.inode.TheConstants.{S_ISGID};
ghost use Rattle.inode_table.specs.Acls.{HasDefaultAcl};
ghost use Rattle.fs_model.specs.Births.{without_perms, masked_acl, born_acl};
ghost use Rattle.fs_model.specs.Trees.{IsDirectoryAt, Tree};
ghost use Rattle.call_parts.specs.Makings.{make_asked, room_asked};
ghost use Rattle.sector_txn.specs.Sectors.{IsUnchanged};

use crate::reaching::Caller;
use bit_alloc::{Bitmap, has_free};
use fs_cred::{Cred, Denial, Errno, Need, Refusal, Rule, sticky_allows};
use fs_layout::{Geometry, Inode, Kind, S_ISGID, S_ISVTX};
use fs_model::{Found, Last};
use inode_table::{LoadAclFault, load_default_acl};
use open_files::Judged;
use path_walk::{load_inode, permission, walk};
use posix_acl::{Acl, Perms};
use sector_txn::Sectors;
use std::alloc::Global;

/// What adding, removing and renaming a name takes of a directory.
pub const WRITE_AND_SEARCH: Perms = Perms {
    read: false,
    write: true,
    execute: true,
};

/// Refuses with this error, where that is so.
pub fn refuse_if(errno: Errno, so: bool) -> Result<(), Refusal>
    ensures { result ≡ checked (refuse errno so) }
{
    if so {
        return Err(Refusal::Failed(errno));
    }
    Ok(())
}

/// Whether these are bits of a mode. EINVAL: there are more bits than 07777.
pub fn check_mode(mode: u16) -> Result<(), Refusal>
    ensures { result ≡ checked (check_of_mode mode) }
{
    refuse_if(Errno::EINVAL, mode > 0o7777)
}

/// Asks for all of `want` on a file or a directory of the inode table, after `step` lookups of the walk with this number.
/// Answers the rule that grants it. ENOMEM where the ACL finds no memory.
pub fn permitted<S: Sectors>(
    s: &mut S,
    caller: &Caller,
    cred: &Cred,
    inode: &Inode,
    want: Perms,
    walk: u8,
    step: usize,
) -> Result<Rule, Refusal>
    requires { ShowsInode caller.now.geometry (S.state s.old) inode.now HasAccess }
    ensures { TellsOf (HasAccess (S.state s.old).sectors inode.now)
        (λ node. refused_or (decided walk step (Perm want) (verdict cred.now node want)) (Ok (verdict cred.now node want).rule))
        (S.state s.old) (S.state s.new) result }
{
    let verdict = permission(caller.alloc, s, caller.geometry, cred, inode, want)?;
    if !verdict.yes {
        return Err(Refusal::Denied(Denial::new(walk, step, Need::Perm(want), verdict.rule)));
    }
    Ok(verdict.rule)
}

/// Asks for what a rule of ownership allows or refuses, after `step` lookups of the walk with this number.
pub fn allowed_by(
    walk: u8,
    step: usize,
    need: Need,
    answer: Result<(), Rule>,
) -> Result<(), Refusal>
    ensures { result ≡ checked (allowed_by walk step need answer) }
{
    answer.map_err(|rule| Refusal::Denied(Denial::new(walk, step, need, rule)))
}

/// Refuses a directory. EISDIR: it is one.
pub fn check_no_directory(kind: Kind) -> Result<(), Refusal>
    ensures { result ≡ checked (refuse Errno.EISDIR (is_directory_kind kind)) }
{
    if kind == Kind::Directory {
        return Err(Refusal::Failed(Errno::EISDIR));
    }
    Ok(())
}

/// Refuses what is no directory. ENOTDIR: it is none.
pub fn check_is_directory(kind: Kind) -> Result<(), Refusal>
    ensures { result ≡ checked (refuse Errno.ENOTDIR (not (is_directory_kind kind))) }
{
    if kind != Kind::Directory {
        return Err(Refusal::Failed(Errno::ENOTDIR));
    }
    Ok(())
}

/// Asks whether what is no directory was named with a slash.
pub fn check_slash(found: &Found, kind: Kind) -> Result<(), Refusal>
    ensures { result ≡ checked (refuse Errno.ENOTDIR (found.now.slash && not (is_directory_kind kind))) }
{
    if found.slash && kind != Kind::Directory {
        return Err(Refusal::Failed(Errno::ENOTDIR));
    }
    Ok(())
}

/// Asks whether the directory of the last lookup of the walk with this number, where it has S_ISVTX, lets the caller take what
/// has this inode from it.
pub fn check_sticky(
    process: &Judged,
    found: &Found,
    directory: &Inode,
    inode: &Inode,
    walk: u8,
) -> Result<(), Refusal>
    ensures { result ≡ checked (sticky_asked process.now.cred directory.now inode.now walk (found.now.step - 1)) }
{
    let cred = process.cred();
    let step = found.step.saturating_sub(1);
    let sticky = directory.mode / S_ISVTX % 2 == 1;
    let answer = sticky_allows(cred, sticky, directory.uid, inode.uid);
    allowed_by(walk, step, Need::Remove, answer)?;
    Ok(())
}

/// How many data sectors have to be free for a call that may take one, whatever it needs, a longer write apart.
const LEAST_FREE: u32 = 16;

/// How many have to be free for a write of more bytes than one move.
const RUN_FREE: u32 = 40;

/// The bytes of one move.
const MOVE: usize = 4096;

// Whether so many numbers are free, or else ENOSPC.
fn ask_for<S: Sectors>(
    s: &mut S,
    geometry: Geometry,
    map: Bitmap,
    count: u32,
) -> Result<(), Refusal>
    requires { HasBitmaps geometry (S.state s.old) }
    ensures { AsksForSpace count (free_numbers geometry map (S.state s.old).sectors) (S.state s.old) (S.state s.new) result }
{
    match has_free(s, geometry, map, count) {
        Ok(true) => Ok(()),
        Ok(false) => Err(Refusal::Failed(Errno::ENOSPC)),
        Err(_) => Err(Refusal::Failed(Errno::EIO)),
    }
}

/// Asks for free data sectors, before a call that may take some. ENOSPC: fewer than 16 are free.
pub fn ask_for_sectors<S: Sectors>(s: &mut S, geometry: Geometry) -> Result<(), Refusal>
    requires { HasBitmaps geometry (S.state s.old) }
    ensures { AsksForSpace least_free (free_sectors geometry (S.state s.old).sectors) (S.state s.old) (S.state s.new) result }
{
    ask_for(s, geometry, Bitmap::Blocks, LEAST_FREE)
}

// How many data sectors have to be free where so many bytes are to be written.
fn needed_for(len: usize) -> u32
    ensures { result ≡ free_for len }
{
    if len <= MOVE { LEAST_FREE } else { RUN_FREE }
}

/// Asks for free data sectors, before so many bytes are written. ENOSPC: fewer than 16 are free, or, for more than 4,096
/// bytes, fewer than 40.
pub fn ask_to_write<S: Sectors>(s: &mut S, geometry: Geometry, len: usize) -> Result<(), Refusal>
    requires { HasBitmaps geometry (S.state s.old) }
    ensures { AsksForSpace (free_for len) (free_sectors geometry (S.state s.old).sectors) (S.state s.old) (S.state s.new) result }
{
    ask_for(s, geometry, Bitmap::Blocks, needed_for(len))
}

// Asks for a free inode. ENOSPC: none is free.
fn ask_for_inode<S: Sectors>(s: &mut S, geometry: Geometry) -> Result<(), Refusal>
    requires { HasBitmaps geometry (S.state s.old) }
    ensures { TellsAnswer (checked (refuse ENOSPC (free_numbers geometry Inodes (S.state s.old).sectors == 0)))
        (S.state s.old) (S.state s.new) result }
{
    ask_for(s, geometry, Bitmap::Inodes, 1)
}

/// Asks whether a directory has place for one more slot. ENOSPC: it has none.
pub(crate) fn check_names(geometry: Geometry, directory: &Inode) -> Result<(), Refusal>
    ensures { result ≡ checked (refuse Errno.ENOSPC (nat_le (max_directory_size geometry.version) directory.now.size)) }
{
    let most = geometry.version.max_directory_size();
    refuse_if(Errno::ENOSPC, directory.size >= most)
}

/// Whether nothing was found, where something may be made.
pub fn is_new(found: &Found) -> bool
    ensures { result ≡ not (is_found found.now || is_special found.now) }
{
    match found.last {
        Last::Name => found.ino.is_none(),
        Last::Dot | Last::DotDot | Last::Top => false,
    }
}

/// Asks whether there is room for one more name in a directory. ENOSPC: fewer than 16 sectors are free, or it has no slot left.
pub fn ask_for_name<S: Sectors>(
    s: &mut S,
    geometry: Geometry,
    directory: &Inode,
) -> Result<(), Refusal>
    requires { HasBitmaps geometry (S.state s.old) }
    ensures each { (t : Tree) (dir_ino : ℕ) → HoldsTree geometry (S.state s.old).sectors t → IsDirectoryAt t dir_ino
        → directory.now ≡ inode_at geometry (S.state s.old).sectors dir_ino
        → IsAnswered (S.state s.old).disk (S.state s.new).disk
        (checked (first_of (room_asked geometry (S.state s.old).sectors t dir_ino))) result }
    ensures same { IsUnchanged (S.state s.old) (S.state s.new) }
{
    ask_for_sectors(s, geometry)?;
    check_names(geometry, directory)?;
    Ok(())
}

// Asks for write and search on directory `dir_ino`, after `step` lookups of the walk with this number, and answers its
// inode.
fn ask_in_directory<S: Sectors>(
    s: &mut S,
    caller: &Caller,
    cred: &Cred,
    dir_ino: u32,
    walk: u8,
    step: usize,
) -> Result<Inode, Refusal>
    requires { ShowsTree caller.now.geometry (S.state s.old) (λ t. IsDirectoryAt t dir_ino) }
    ensures { TellsTree caller.now.geometry (λ t. IsDirectoryAt t dir_ino)
        (λ t. refused_or (permission_on cred.now t dir_ino write_and_search walk step)
        (Ok (inode_at caller.now.geometry (S.state s.old).sectors dir_ino))) (S.state s.old) (S.state s.new) result }
{
    let directory = load_inode(s, caller.geometry, dir_ino)?;
    permitted(s, caller, cred, &directory, WRITE_AND_SEARCH, walk, step)?;
    Ok(directory)
}

/// Asks for write and search on the directory of the last lookup of the walk with this number, and answers its inode.
pub fn ask_directory<S: Sectors>(
    s: &mut S,
    caller: &Caller,
    process: &Judged,
    found: &Found,
    walk: u8,
) -> Result<Inode, Refusal>
    requires { ShowsTree caller.now.geometry (S.state s.old) (λ t. IsDirectoryAt t found.now.dir_ino) }
    ensures { TellsTree caller.now.geometry (λ t. IsDirectoryAt t found.now.dir_ino)
        (λ t. refused_or (permission_on process.now.cred t found.now.dir_ino write_and_search walk (found.now.step - 1))
        (Ok (inode_at caller.now.geometry (S.state s.old).sectors found.now.dir_ino))) (S.state s.old) (S.state s.new) result }
{
    let cred = process.cred();
    let step = found.step.saturating_sub(1);
    ask_in_directory(s, caller, cred, found.dir_ino, walk, step)
}

/// Asks all that is asked of a directory before something is made in it, and answers its inode. ENOSPC: there is no room for
/// its sectors, its inode or its name.
pub fn check_make<S: Sectors>(
    s: &mut S,
    caller: &Caller,
    cred: &Cred,
    dir_ino: u32,
    step: usize,
) -> Result<Inode, Refusal>
    requires { ShowsTree caller.now.geometry (S.state s.old) (λ t. IsDirectoryAt t dir_ino) }
    ensures { TellsTree caller.now.geometry (λ t. IsDirectoryAt t dir_ino)
        (λ t. refused_or (first_of (make_asked caller.now.geometry (S.state s.old).sectors cred.now t dir_ino step))
        (Ok (inode_at caller.now.geometry (S.state s.old).sectors dir_ino))) (S.state s.old) (S.state s.new) result }
{
    let directory = ask_in_directory(s, caller, cred, dir_ino, 1, step)?;
    ask_for_sectors(s, caller.geometry)?;
    ask_for_inode(s, caller.geometry)?;
    check_names(caller.geometry, &directory)?;
    Ok(directory)
}

// The permissions that p has and q lacks.
fn without(p: Perms, q: Perms) -> Perms
    ensures { result ≡ without_perms p q }
{
    Perms {
        read: p.read && !q.read,
        write: p.write && !q.write,
        execute: p.execute && !q.execute,
    }
}

// The permission bits of a mode without those of a umask.
fn masked(mode: u16, umask: u16) -> u16
    ensures { minimal result ≡ masked_acl mode umask }
{
    let owner = without(Perms::from_digit(mode / 64), Perms::from_digit(umask / 64));
    let group = without(Perms::from_digit(mode / 8), Perms::from_digit(umask / 8));
    let other = without(Perms::from_digit(mode), Perms::from_digit(umask));
    64 * owner.digit() + 8 * group.digit() + other.digit()
}

/// What the default ACL of a directory makes of a mode, or without one the umask. ENOMEM: it finds no memory.
pub fn inherited(
    alloc: Global,
    default: Option<&Acl>,
    mode: u16,
    umask: u16,
) -> Result<Acl, Refusal>
    ensures born { IfOk result (λ acl. acl ≡ born_acl (option_copied default.entry) mode umask) }
    ensures memory { IfErr result (λ e. e ≡ Refusal.Failed Errno.ENOMEM) }
{
    let made = match default {
        Some(default) => default.inherit(mode),
        None => Acl::from_mode(alloc, masked(mode, umask)),
    };
    match made {
        Ok(acl) => Ok(acl),
        Err(_) => Err(Refusal::Failed(Errno::ENOMEM)),
    }
}

/// The default ACL of a directory of the table. ENOMEM: it finds no memory. EIO: the disk has failed.
pub fn default_of<S: Sectors>(
    s: &mut S,
    caller: &Caller,
    directory: &Inode,
) -> Result<Option<Acl>, Refusal>
    requires { ShowsInode caller.now.geometry (S.state s.old) directory.now HasDefaultAcl }
    ensures { ReadsInode directory.now HasDefaultAcl (λ acl. acl) (S.state s.old) (S.state s.new) result }
{
    match load_default_acl(caller.alloc, s, caller.geometry, directory) {
        Ok(default) => Ok(default),
        Err(LoadAclFault::OutOfMemory) => Err(Refusal::Failed(Errno::ENOMEM)),
        Err(LoadAclFault::DiskFault) => Err(Refusal::Failed(Errno::EIO)),
    }
}

/// The group of what is made in a directory: the directory's where that has S_ISGID, else the caller's.
pub fn new_group(directory: &Inode, cred: &Cred) -> u32
    ensures { result ≡ (if directory.now.mode / S_ISGID % 2 == 1 then directory.now.gid else cred.now.gid) }
{
    if directory.mode / S_ISGID % 2 == 1 {
        directory.gid
    } else {
        cred.gid()
    }
}
