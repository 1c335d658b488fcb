//! New names: POSIX.1-2017, mkdir(), symlink() and link(). And what leads to a directory or a link: chdir() and readlink().

ghost use Rattle.std.specs.Prelude.{◌≡◌, ◌≢◌, ◌≤◌, ◌+◌, ◌/◌, ◌%◌, ◌<◌, ◌==◌, cond, Ok, option_copied, Err, IfOk, IfErr, IsSome, true, not, ◌-◌, nat_le, ℕ, List, [], ◌∷◌, ◌&&◌};
ghost use Rattle.std.specs.Ordering.{nat_cmp};
ghost use Rattle.fs_layout.specs.Maps.{get};
ghost use Rattle.fs_layout.specs.Images.{inode_at};
ghost use Rattle.sector_txn.specs.Sectors.{IsUnchanged};
ghost use Rattle.fs_model.specs.declared.reply.Reply.TheVariants.{Done};
ghost use Rattle.open_files.specs.Tables.{with_changed};
ghost use Rattle.fs_model.specs.Births.{born_directory, the_node, born_link};
ghost use Rattle.fs_model.specs.Demands.{first_of, refuse};
ghost use Rattle.fs_model.specs.Scenes.{found_ino, must_be_new};
ghost use Rattle.fs_model.specs.Trees.{Tree, IsTarget, IsDirectoryAt};
ghost use Rattle.path_walk.specs.Answers.{refused_or};
ghost use Rattle.fs_model.specs.declared.call.Call.TheVariants.{Mkdir, Chdir, Symlink, Readlink, Link};
ghost use Rattle.call_parts.specs.BothTables.{Tables, both, tables_of};
ghost use Rattle.call_parts.specs.Performing.{MayPerform, Performs, IsReadyFor, PerformsBy, PerformsFor};
ghost use Rattle.call_parts.specs.Callers.{ByProcess, ByCaller};
ghost use Rattle.call_parts.specs.Makings.{CanMake};
ghost use Rattle.call_parts.specs.Altering.{MayAlter, AltersDisk, HoldsChange};
ghost use Rattle.name_calls.specs.Entering.{enter_asked};
ghost use Rattle.name_calls.specs.Making.{HasNewName, Makes};
ghost use Rattle.call_parts.specs.NewNodes.{MakesNode, directory_made, link_made, link_name_asked};
ghost use Rattle.call_parts.specs.Telling.{checked, ShowsTree, TellsTree, FoundThere, HasState, TellsOf, FindsWalked, scene_walked};
ghost use Rattle.fs_layout.specs.Bytes.{IsBytes};
ghost use Rattle.fs_model.specs.NameCalls.{symlink_arguments, link_demands, link_count_demand};
ghost use Rattle.fs_model.specs.Summaries.{is_link_kind};
ghost use Rattle.fs_layout.specs.Version.{max_inode_names};
ghost use Rattle.fs_model.specs.TreeChanges.{AddName};
ghost use Rattle.fs_model.specs.Rules.{is_directory_kind};
ghost use Rattle.name_calls.specs.Linking.{source_asked, place_asked, MayLinkAt};
ghost use Rattle.name_calls.specs.Walking.{WalksTo};

use block_map::new_link;
use call_parts::{
    By, CallResult, Caller, Site, Walked, WalkedBoth, ask_directory, ask_for_name,
    check_is_directory, check_make, check_mode, check_slash, default_of, inherited, inode_found,
    is_new, name_inode, new_group, reach, set_names, touch, walk_both, walk_path,
};
use fs_cred::{Cred, Errno, Refusal};
use fs_layout::{Geometry, Inode, Kind, MAX_LINK_SIZE, S_ISGID, S_ISVTX};
use fs_model::{Form, Found, Path, Reply, Touch};
use inode_table::new_inode;
use open_files::{Judged, Openings, Procs};
use path_walk::{read_target, search};
use posix_acl::Acl;
use sector_txn::Sectors;

// This bit, where the mode has it.
fn bit_of(mode: u16, bit: u16) -> u16
    requires { bit ≢ 0 }
    ensures is { result ≡ cond (mode / bit % 2 == 1) bit 0 }
    ensures few { result ≤ bit }
{
    if mode / bit % 2 == 1 {
        return bit;
    }
    0
}

// The bits of a new directory's mode above the permission bits: S_ISGID as the directory that names it, S_ISVTX as the mode.
fn special_bits(directory: &Inode, mode: u16) -> u16
    ensures { result ≡ cond (mode / S_ISVTX % 2 == 1) S_ISVTX 0 + cond (directory.now.mode / S_ISGID % 2 == 1) S_ISGID 0 }
{
    bit_of(mode, S_ISVTX) + bit_of(directory.mode, S_ISGID)
}

// Makes a directory with this owner, group, ACLs and bits of the mode, and names it as was found, in this directory. EIO:
// the disk has failed.
fn place_directory<S: Sectors>(
    s: &mut S,
    geometry: Geometry,
    found: &Found,
    directory: Inode,
    uid: u32,
    gid: u32,
    bits: u16,
    access: &Acl,
    default: Option<&Acl>,
) -> Result<u32, Refusal>
    requires ready { MayAlter geometry 47 (S.state s.old) }
    requires directory { directory ≡ inode_at geometry (S.state s.old).sectors found.now.dir_ino }
    requires may { (t : Tree) × CanMake geometry (S.state s.old).sectors t found.now.dir_ino found.now.name }
    requires bits { bits < 2048 }
    ensures { AltersDisk geometry 7 (λ n. MakesNode geometry found.now.dir_ino found.now.name n
        (directory_made uid gid bits access.now (option_copied default.entry))) (S.state s.old) (S.state s.new) result }
{
    let made = Inode {
        kind: Kind::Directory,
        mode: bits,
        uid,
        gid,
        names: 1,
        parent: found.dir_ino,
        ..Inode::FREE
    };
    let Ok(ino) = new_inode(s, geometry, &made, access, default) else {
        return Err(Refusal::Failed(Errno::EIO));
    };
    let name = found.name.bytes();
    name_inode(s, geometry, found.dir_ino, directory, name, ino)?;
    Ok(ino)
}

// Asks what is asked of the directory of the last lookup, and makes a directory of the last name in it, whose number it answers.
fn make_directory<S: Sectors>(
    s: &mut S,
    caller: &Caller,
    walked: &Walked,
    mode: u16,
) -> Result<u32, Refusal>
    requires { HasNewName caller.now.geometry (S.state s.old) walked.now.found }
    ensures { Makes caller.now.geometry walked.now.process.cred walked.now.found
        (λ t. born_directory walked.now.process.cred walked.now.process.umask mode
        (the_node t walked.now.found.dir_ino)) (S.state s.old) (S.state s.new) result }
{
    let geometry = caller.geometry;
    let process = &walked.process;
    let found = &walked.found;
    let cred = process.cred();
    let step = found.step.saturating_sub(1);
    let directory = check_make(s, caller, cred, found.dir_ino, step)?;
    let inherits = default_of(s, caller, &directory)?;
    let default = inherits.as_ref();
    let access = inherited(caller.alloc, default, mode, process.umask())?;
    let bits = special_bits(&directory, mode);
    let gid = new_group(&directory, cred);
    let uid = cred.uid();
    let ino = place_directory(
        s, geometry, found, directory, uid, gid, bits, &access, default,
    )?;
    Ok(ino)
}

// Asks whether nothing was found where something is to be made.
fn check_new(found: &Found) -> Result<(), Refusal>
    ensures { result ≡ checked (must_be_new found.now) }
{
    if !is_new(found) {
        return Err(Refusal::Failed(Errno::EEXIST));
    }
    Ok(())
}

/// Makes a directory. EEXIST: there is something of the name, or the path doesn't end in a name. EINVAL: the mode has more bits
/// than 07777.
///
/// It gets the default ACL and S_ISGID of the directory that names it, and S_ISVTX as the mode says.
pub fn mkdir<S: Sectors>(s: &mut S, caller: &Caller, path: &Path, mode: u16) -> CallResult
    requires ready { IsReadyFor caller.now (S.state s.old) }
    ensures { PerformsFor caller.now (Mkdir path.now mode) (S.state s.old) (S.state s.new) result }
{
    let checks = check_mode(mode);
    let walked = walk_path(s, caller, checks, path, false, Form::Parent)?;
    check_new(&walked.found)?;
    let ino = make_directory(s, caller, &walked, mode)?;
    let touches = [(walked.found.dir_ino, Touch::Modified), (ino, Touch::Born)];
    touch(s, caller.geometry, caller.time, &touches)?;
    Ok(caller.made(ino))
}

// The directory that was found, which the caller may search. ENOENT: nothing was. ENOTDIR: it is none.
fn directory_found<S: Sectors>(
    s: &mut S,
    caller: &Caller,
    cred: &Cred,
    found: &Found,
) -> Result<u32, Refusal>
    requires { ShowsTree caller.now.geometry (S.state s.old) (FoundThere found.now) }
    ensures { TellsTree caller.now.geometry (FoundThere found.now)
        (λ t. refused_or (first_of (enter_asked cred.now t found.now)) (Ok (found_ino found.now))) (S.state s.old) (S.state s.new) result }
{
    let (ino, inode) = inode_found(s, caller.geometry, found)?;
    check_is_directory(inode.kind)?;
    search(
        caller.alloc,
        s,
        caller.geometry,
        cred,
        &inode,
        1,
        found.step,
    )?;
    Ok(ino)
}

// The directory that the path of chdir leads to. At `Err` that is its refusal; else it is performed once the process stands
// there.
fn directory_at<S: Sectors>(
    s: &mut S,
    caller: &Caller,
    pid: usize,
    path: &Path,
) -> Result<u32, Refusal>
    requires ready { IsReadyFor caller.now (S.state s.old) }
    requires runs { caller.now.by ≡ By.Process pid }
    ensures refused { IfErr result (λ e. PerformsBy caller.now (ByProcess pid) (Chdir path.now) (S.state s.old) (S.state s.new) (Err e)) }
    ensures there { IfOk result (λ n. IsSome (get nat_cmp caller.now.procs.now pid)) }
    ensures entered { IfOk result (λ n. (now : Tables)
        → now ≡ both (with_changed caller.now.procs.now pid (λ p. record p { cwd = n })) caller.now.openings.now.0
        → Performs caller.now.geometry caller.now.time (ByCaller (ByProcess pid) (Chdir path.now)) (S.state s.old) (S.state s.new)
        (tables_of caller.now) now (Ok Done)) }
    ensures same { IsUnchanged (S.state s.old) (S.state s.new) }
{
    let walked = walk_path(s, caller, Ok(()), path, false, Form::Follow)?;
    let cred = walked.process.cred();
    let ino = directory_found(s, caller, cred, &walked.found)?;
    Ok(ino)
}

/// Makes what a path leads to the current directory of the process, in which all its paths start. ENOENT: the path leads to
/// nothing. ENOTDIR: it leads to what is no directory.
pub fn chdir<S: Sectors>(
    s: &mut S,
    site: Site,
    procs: &mut Procs,
    openings: &mut Openings,
    pid: usize,
    path: &Path,
) -> CallResult
    requires ready { MayPerform site.geometry (S.state s.old) (both procs.old openings.old.0) }
    ensures performs { Performs site.geometry site.time (ByCaller (ByProcess pid) (Chdir path.now)) (S.state s.old) (S.state s.new)
        (both procs.old openings.old.0) (both procs.new openings.new.0) result }
    ensures same { IsUnchanged (S.state s.old) (S.state s.new) }
{
    let caller = site.caller(procs, openings, By::Process(pid));
    let ino = directory_at(s, &caller, pid, path)?;
    procs.stand_at(pid, ino);
    Ok(Reply::Done)
}

// Asks whether these bytes may be a target: at least one, none of them zero, and no more than 512.
fn check_target(target: &Path) -> Result<(), Refusal>
    ensures answer { result ≡ checked (first_of (symlink_arguments target.now)) }
    ensures bytes { IsBytes target.now }
{
    let bytes = target.bytes();
    if bytes.is_empty() {
        return Err(Refusal::Failed(Errno::ENOENT));
    }
    if bytes.contains(&0) {
        return Err(Refusal::Failed(Errno::EINVAL));
    }
    if bytes.len() as u64 > MAX_LINK_SIZE {
        return Err(Refusal::Failed(Errno::ENAMETOOLONG));
    }
    Ok(())
}

// Asks whether nothing was found where a link is to be made, and whether its name has no slash behind it.
fn check_link_name(found: &Found) -> Result<(), Refusal>
    ensures { result ≡ checked (first_of (link_name_asked found.now)) }
{
    if !is_new(found) {
        return Err(Refusal::Failed(Errno::EEXIST));
    }
    if found.slash {
        return Err(Refusal::Failed(Errno::ENOENT));
    }
    Ok(())
}

// Makes a link with this target, and names it as was found, in this directory. EIO: the disk has failed.
fn place_link<S: Sectors>(
    s: &mut S,
    geometry: Geometry,
    found: &Found,
    directory: Inode,
    cred: &Cred,
    target: &[u8],
) -> Result<u32, Refusal>
    requires ready { MayAlter geometry 47 (S.state s.old) }
    requires directory { directory ≡ inode_at geometry (S.state s.old).sectors found.now.dir_ino }
    requires may { (t : Tree) × CanMake geometry (S.state s.old).sectors t found.now.dir_ino found.now.name }
    requires target { IsTarget target.now }
    ensures { AltersDisk geometry 7 (λ n. MakesNode geometry found.now.dir_ino found.now.name n
        (link_made directory cred.now target.now)) (S.state s.old) (S.state s.new) result }
{
    let uid = cred.uid();
    let gid = new_group(&directory, cred);
    let Ok(ino) = new_link(s, geometry, uid, gid, target) else {
        return Err(Refusal::Failed(Errno::EIO));
    };
    let name = found.name.bytes();
    name_inode(s, geometry, found.dir_ino, directory, name, ino)?;
    Ok(ino)
}

// Asks what is asked of the directory of the last lookup, and makes a link of the last name in it, whose number it answers.
fn make_link<S: Sectors>(
    s: &mut S,
    caller: &Caller,
    walked: &Walked,
    target: &Path,
) -> Result<u32, Refusal>
    requires ready { HasNewName caller.now.geometry (S.state s.old) walked.now.found }
    requires target { IsTarget target.now }
    ensures { Makes caller.now.geometry walked.now.process.cred walked.now.found
        (λ t. born_link walked.now.process.cred target.now (the_node t walked.now.found.dir_ino))
        (S.state s.old) (S.state s.new) result }
{
    let found = &walked.found;
    let cred = walked.process.cred();
    let step = found.step.saturating_sub(1);
    let directory = check_make(s, caller, cred, found.dir_ino, step)?;
    let bytes = target.bytes();
    let ino = place_link(s, caller.geometry, found, directory, cred, bytes)?;
    Ok(ino)
}

/// Makes a symbolic link. ENOENT: the target is empty, or the path ends in a slash. EINVAL: the target has a zero byte.
/// ENAMETOOLONG: it has more than 512 bytes. EEXIST: there is something of the name, or the path doesn't end in a name.
pub fn symlink<S: Sectors>(s: &mut S, caller: &Caller, target: &Path, path: &Path) -> CallResult
    requires ready { IsReadyFor caller.now (S.state s.old) }
    ensures { PerformsFor caller.now (Symlink target.now path.now) (S.state s.old) (S.state s.new) result }
{
    let checks = check_target(target);
    let walked = walk_path(s, caller, checks, path, false, Form::Parent)?;
    check_link_name(&walked.found)?;
    let ino = make_link(s, caller, &walked, target)?;
    let touches = [(walked.found.dir_ino, Touch::Modified), (ino, Touch::Born)];
    touch(s, caller.geometry, caller.time, &touches)?;
    Ok(caller.made(ino))
}

// Asks whether an inode is that of a symbolic link.
fn check_is_link(inode: &Inode) -> Result<(), Refusal>
    ensures { result ≡ checked (refuse Errno.EINVAL (not (is_link_kind inode.now.kind))) }
{
    if inode.kind != Kind::Link {
        return Err(Refusal::Failed(Errno::EINVAL));
    }
    Ok(())
}

/// Answers the target of the symbolic link that a path leads to. ENOENT: the path leads to nothing. EINVAL: to no link.
pub fn readlink<S: Sectors>(s: &mut S, caller: &Caller, path: &Path) -> CallResult
    requires ready { IsReadyFor caller.now (S.state s.old) }
    ensures performs { PerformsFor caller.now (Readlink path.now) (S.state s.old) (S.state s.new) result }
    ensures same { IsUnchanged (S.state s.old) (S.state s.new) }
{
    let reached = reach(s, caller, Ok(()), path, true, Form::NoFollow)?;
    check_is_link(&reached.inode)?;
    let target = read_target(caller.alloc, s, caller.geometry, &reached.inode)?;
    Ok(Reply::Target(target))
}

// Asks whether what was found is no directory, and wasn't named as one.
fn check_kind(found: &Found, kind: Kind) -> Result<(), Refusal>
    ensures { result ≡ checked (first_of
        (refuse Errno.ENOTDIR (found.now.slash && not (is_directory_kind kind))
        ∷ refuse Errno.EPERM (is_directory_kind kind) ∷ [])) }
{
    check_slash(found, kind)?;
    if kind == Kind::Directory {
        return Err(Refusal::Failed(Errno::EPERM));
    }
    Ok(())
}

// Asks all that is asked of what is to get the name, and answers its number and its inode.
fn check_source<S: Sectors>(
    s: &mut S,
    geometry: Geometry,
    found: &Found,
) -> Result<(u32, Inode), Refusal>
    requires { ShowsTree geometry (S.state s.old) (FoundThere found.now) }
    ensures { TellsTree geometry (FoundThere found.now) (λ t. refused_or (first_of (source_asked t found.now))
        (Ok (found_ino found.now, inode_at geometry (S.state s.old).sectors (found_ino found.now))))
        (S.state s.old) (S.state s.new) result }
{
    let (ino, inode) = inode_found(s, geometry, found)?;
    check_kind(found, inode.kind)?;
    Ok((ino, inode))
}

// Asks whether what has so many names may have one more.
fn check_count(geometry: Geometry, names: u32) -> Result<(), Refusal>
    ensures { result ≡ checked (link_count_demand (max_inode_names geometry.version) names) }
{
    if names == 0 {
        return Err(Refusal::Failed(Errno::ENOENT));
    }
    let most = geometry.version.max_inode_names();
    if names >= most {
        return Err(Refusal::Failed(Errno::EMLINK));
    }
    Ok(())
}

// Asks all that is asked of the directory that names what has so many names, and answers its inode.
fn check_place<S: Sectors>(
    s: &mut S,
    caller: &Caller,
    process: &Judged,
    found: &Found,
    names: u32,
) -> Result<Inode, Refusal>
    requires { ShowsTree caller.now.geometry (S.state s.old) (λ t. IsDirectoryAt t found.now.dir_ino) }
    ensures { TellsTree caller.now.geometry (λ t. IsDirectoryAt t found.now.dir_ino)
        (λ t. refused_or
        (first_of (place_asked caller.now.geometry (S.state s.old).sectors process.now.cred t
        found.now.dir_ino (found.now.step - 1) names))
        (Ok (inode_at caller.now.geometry (S.state s.old).sectors found.now.dir_ino)))
        (S.state s.old) (S.state s.new) result }
{
    let directory = ask_directory(s, caller, process, found, 2)?;
    check_count(caller.geometry, names)?;
    ask_for_name(s, caller.geometry, &directory)?;
    Ok(directory)
}

// Asks all that link asks of what was found, and answers number and inode of what is to get the name, and the directory's
// inode.
fn check_link<S: Sectors>(
    s: &mut S,
    caller: &Caller,
    walked: &WalkedBoth,
) -> Result<(u32, Inode, Inode), Refusal>
    requires { HasState caller.now.geometry (S.state s.old) (FindsWalked caller.now (S.state s.old).sectors walked.now) }
    ensures { TellsOf (FindsWalked caller.now (S.state s.old).sectors walked.now)
        (λ st. refused_or (first_of (link_demands
        (scene_walked walked.now st)))
        (Ok (
          found_ino walked.now.first,
          inode_at caller.now.geometry (S.state s.old).sectors (found_ino walked.now.first),
          inode_at caller.now.geometry (S.state s.old).sectors walked.now.second.dir_ino,
        ))) (S.state s.old) (S.state s.new) result }
{
    let (ino, inode) = check_source(s, caller.geometry, &walked.first)?;
    let second = &walked.second;
    check_link_name(second)?;
    let process = &walked.process;
    let directory = check_place(s, caller, process, second, inode.names)?;
    Ok((ino, inode, directory))
}

// Names inode `ino`, which is no directory, once more, as was found, in this directory. EIO: the disk has failed.
fn add_name<S: Sectors>(
    s: &mut S,
    caller: &Caller,
    found: &Found,
    directory: Inode,
    ino: u32,
    inode: &Inode,
) -> Result<(), Refusal>
    requires inode { inode.now ≡ inode_at caller.now.geometry (S.state s.old).sectors ino }
    requires few { inode.now.names < max_inode_names caller.now.geometry.version }
    requires directory { directory ≡ inode_at caller.now.geometry (S.state s.old).sectors found.now.dir_ino }
    requires may { (ready : IsReadyFor caller.now (S.state s.old))
        × MayLinkAt caller.now.geometry (S.state s.old).sectors found.now ino ready.state }
    ensures { AltersDisk caller.now.geometry 5 (λ done. HoldsChange caller.now.geometry (tables_of caller.now)
        (MayLinkAt caller.now.geometry (S.state s.old).sectors found.now ino) (AddName found.now.dir_ino found.now.name ino))
        (S.state s.old) (S.state s.new) result }
{
    let name = found.name.bytes();
    set_names(s, caller.geometry, ino, inode, inode.names + 1)?;
    name_inode(s, caller.geometry, found.dir_ino, directory, name, ino)?;
    Ok(())
}

// Names what the first path has led to, as the second ends.
fn link_walked<S: Sectors>(s: &mut S, caller: &Caller, walked: &WalkedBoth) -> CallResult
    requires { (old : List ℕ) × (new : List ℕ) × WalksTo caller.now (S.state s.old) walked.now true old new }
    ensures { (old new : List ℕ) → WalksTo caller.now (S.state s.old) walked.now true old new
        → PerformsFor caller.now (Link old new) (S.state s.old) (S.state s.new) result }
{
    let (ino, inode, directory) = check_link(s, caller, walked)?;
    add_name(s, caller, &walked.second, directory, ino, &inode)?;
    let touches = [
        (walked.second.dir_ino, Touch::Modified),
        (ino, Touch::Changed),
    ];
    touch(s, caller.geometry, caller.time, &touches)?;
    Ok(Reply::Done)
}

/// Gives what the path `old` leads to the name that the path `new` ends in, too: a file, or a symbolic link itself.
///
/// EPERM: `old` leads to a directory, or ends in no name. ENOENT: it leads to nothing, or to a file without names, or `new` ends in a slash. ENOTDIR: `old`
/// ends in a slash. EEXIST: there is something of the new name, or `new` ends in no name. EMLINK: there are
/// [`fs_layout::Version::max_inode_names`] names already.
pub fn link<S: Sectors>(s: &mut S, caller: &Caller, old: &Path, new: &Path) -> CallResult
    requires ready { IsReadyFor caller.now (S.state s.old) }
    ensures { PerformsFor caller.now (Link old.now new.now) (S.state s.old) (S.state s.new) result }
{
    let walked = walk_both(s, caller, old, new, true)?;
    link_walked(s, caller, &walked)
}
