//! Names that change: POSIX.1-2017, rename(). What it asks of both names, of what it replaces and of the way up from a
//! directory, and what it then changes.

ghost use Rattle.std.specs.Prelude.{◌≡◌, false, ◌||◌, ℕ, List, Ok, ◌-◌, Option, Some, None, length, IfErr};
ghost use Rattle.fs_layout.specs.Images.{inode_at};
ghost use Rattle.fs_model.specs.Demands.{first_of};
ghost use Rattle.fs_model.specs.RenameCall.{rename_demands, rename_permissions, rename_moved, rename_space};
ghost use Rattle.fs_model.specs.Scenes.{found_ino, ends_top, ends_dot, ends_dot_dot};
ghost use Rattle.path_walk.specs.Answers.{refused_or, FailsToRead};
ghost use Rattle.fs_model.specs.declared.call.Call.TheVariants.{Rename};
ghost use Rattle.call_parts.specs.BothTables.{tables_of, users_of};
ghost use Rattle.call_parts.specs.Performing.{IsReadyFor, PerformsFor};
ghost use Rattle.name_calls.specs.Renaming.{BothThere, ends_asked, names_asked, inode_there, other_kind, directory_kind, slash_told, replacing_asked};
ghost use Rattle.name_calls.specs.Replacing.{same_number, Renames, AreRenamed, sticky_there, below_asked, replaced_asked, move_asked};
ghost use Rattle.name_calls.specs.Walking.{WalksTo};
ghost use Rattle.call_parts.specs.Telling.{checked, ShowsTree, HasState, TellsTree, TellsOf, FoundThere, FindsWalked, scene_walked};
ghost use Rattle.fs_layout.specs.Bytes.{SectorMap};
ghost use Rattle.bit_alloc.specs.Inodes.{IsSound};
ghost use Rattle.fs_model.specs.Trees.{Tree, IsDirectoryAt, is_within};
ghost use Rattle.path_walk.specs.HeldTrees.{HoldsTree};
ghost use Rattle.bit_alloc.specs.Room.{HasSpare};
ghost use Rattle.fs_model.specs.TreeChanges.{MoveName};
ghost use Rattle.call_parts.specs.NewNodes.{NamesInode};
ghost use Rattle.call_parts.specs.UsedInode.{IsUsedInode};
ghost use Rattle.call_parts.specs.Times.{MayMoveTimes, MovesTimes};
ghost use Rattle.call_parts.specs.Altering.{MayAlter, AltersDisk, AltersTransaction, HoldsChange};
ghost use Rattle.name_calls.specs.Moving.{MayMoveTo, MayLead, MovesEntryTo, ParentFollows, renamed_touches};

use crate::dropping::{lose_name, remove_found};
use crate::removal::check_directory;
use call_parts::{
    CallResult, Caller, WalkedBoth, ask_directory, ask_for_name, check_sticky, inode_found,
    name_inode, permitted, touch, walk_both,
};
use dir_core::replace;
use fs_cred::{Errno, Refusal};
use fs_layout::{Geometry, Inode, Kind, ROOT};
use fs_model::{Found, Last, Path, Reply, Touch};
use inode_table::save;
use open_files::Judged;
use path_walk::load_inode;
use posix_acl::Perms;
use sector_txn::Sectors;

// Whether a path ends in `.` or `..`.
fn ends_in_dots(found: &Found) -> bool
    ensures { result ≡ (ends_dot found.now || ends_dot_dot found.now) }
{
    match found.last {
        Last::Dot | Last::DotDot => true,
        Last::Name | Last::Top => false,
    }
}

// Whether a path leads to where it starts.
fn ends_in_top(found: &Found) -> bool
    ensures { result ≡ ends_top found.now }
{
    match found.last {
        Last::Top => true,
        Last::Name | Last::Dot | Last::DotDot => false,
    }
}

// Asks whether both paths of rename end in names.
fn check_ends(first: &Found, second: &Found) -> Result<(), Refusal>
    ensures { result ≡ checked (first_of (ends_asked first.now second.now)) }
{
    let dots = ends_in_dots(first);
    let more_dots = ends_in_dots(second);
    if dots || more_dots {
        return Err(Refusal::Failed(Errno::EINVAL));
    }
    let top = ends_in_top(first);
    let other_top = ends_in_top(second);
    if top || other_top {
        return Err(Refusal::Failed(Errno::EBUSY));
    }
    Ok(())
}

// Number and inode of what was found, where something was. EIO: the disk has failed.
fn inode_replaced<S: Sectors>(
    s: &mut S,
    geometry: Geometry,
    found: &Found,
) -> Result<Option<(u32, Inode)>, Refusal>
    requires { ShowsTree geometry (S.state s.old) (FoundThere found.now) }
    ensures { TellsTree geometry (FoundThere found.now) (λ t. Ok (inode_there geometry (S.state s.old).sectors found.now.ino))
        (S.state s.old) (S.state s.new) result }
{
    let Some(ino) = found.ino else {
        return Ok(None);
    };
    let inode = load_inode(s, geometry, ino)?;
    Ok(Some((ino, inode)))
}

// Whether something is there that is no directory.
fn is_other(there: &Option<(u32, Inode)>) -> bool
    ensures { result ≡ other_kind there.now }
{
    match there {
        Some((_, inode)) => inode.kind != Kind::Directory,
        None => false,
    }
}

// Asks whether what is no directory, of this kind or found by the second path, was named with a slash.
fn check_slashes(
    first: &Found,
    second: &Found,
    kind: Kind,
    replaced: &Option<(u32, Inode)>,
) -> Result<(), Refusal>
    ensures { result ≡ checked (slash_told first.now second.now kind replaced.now) }
{
    let other = is_other(replaced);
    if kind != Kind::Directory && (first.slash || second.slash) || other && second.slash {
        return Err(Refusal::Failed(Errno::ENOTDIR));
    }
    Ok(())
}

// Whether something is there that is a directory.
fn is_directory(there: &Option<(u32, Inode)>) -> bool
    ensures { result ≡ directory_kind there.now }
{
    match there {
        Some((_, inode)) => inode.kind == Kind::Directory,
        None => false,
    }
}

// Asks whether what has this kind may replace what the new name leads to. EISDIR: that alone is a directory. ENOTDIR: this
// alone is one.
fn check_kinds(kind: Kind, replaced: &Option<(u32, Inode)>) -> Result<(), Refusal>
    ensures { result ≡ checked (first_of (replacing_asked kind replaced.now)) }
{
    let other = is_other(replaced);
    let directory = is_directory(replaced);
    if kind != Kind::Directory && directory {
        return Err(Refusal::Failed(Errno::EISDIR));
    }
    if kind == Kind::Directory && other {
        return Err(Refusal::Failed(Errno::ENOTDIR));
    }
    Ok(())
}

// Asks all that rename asks of both names, and answers number and inode of what is renamed, and of what the new name leads to.
// EINVAL: a path ends in `.` or `..`. EBUSY: it leads to where it starts. ENOENT: nothing has the old name. ENOTDIR: what is no
// directory was named with a slash.
fn check_renamed<S: Sectors>(
    s: &mut S,
    geometry: Geometry,
    first: &Found,
    second: &Found,
) -> Result<(u32, Inode, Option<(u32, Inode)>), Refusal>
    requires { ShowsTree geometry (S.state s.old) (BothThere first.now second.now) }
    ensures { TellsTree geometry (BothThere first.now second.now) (λ t. refused_or (first_of (names_asked t first.now second.now))
        (Ok (
          found_ino first.now,
          inode_at geometry (S.state s.old).sectors (found_ino first.now),
          inode_there geometry (S.state s.old).sectors second.now.ino,
        ))) (S.state s.old) (S.state s.new) result }
{
    check_ends(first, second)?;
    let (ino, inode) = inode_found(s, geometry, first)?;
    let replaced = inode_replaced(s, geometry, second)?;
    check_slashes(first, second, inode.kind, &replaced)?;
    Ok((ino, inode, replaced))
}

// Whether what is replaced is inode `ino` itself.
fn is_same(ino: u32, replaced: &Option<(u32, Inode)>) -> bool
    ensures { result ≡ same_number ino replaced.now }
{
    match replaced {
        Some((m, _)) => ino == *m,
        None => false,
    }
}

// Asks all that rename asks of what was found, and answers number and inode of what is renamed, and of what the new name leads
// to. Where both are one object, nothing is asked but of the names.
fn check_rename<S: Sectors>(
    s: &mut S,
    caller: &Caller,
    walked: &WalkedBoth,
) -> Result<(u32, Inode, Option<(u32, Inode)>), Refusal>
    requires { HasState caller.now.geometry (S.state s.old) (FindsWalked caller.now (S.state s.old).sectors walked.now) }
    ensures { TellsOf (FindsWalked caller.now (S.state s.old).sectors walked.now)
        (λ st. refused_or (first_of (rename_demands (scene_walked walked.now st)))
        (Ok (
          found_ino walked.now.first,
          inode_at caller.now.geometry (S.state s.old).sectors (found_ino walked.now.first),
          inode_there caller.now.geometry (S.state s.old).sectors walked.now.second.ino,
        ))) (S.state s.old) (S.state s.new) result }
{
    let (ino, inode, replaced) = check_renamed(s, caller.geometry, &walked.first, &walked.second)?;
    if is_same(ino, &replaced) {
        return Ok((ino, inode, replaced));
    }
    check_move(s, caller, walked, ino, &inode, &replaced)?;
    Ok((ino, inode, replaced))
}

// Renames what both paths have led to.
fn rename_walked<S: Sectors>(s: &mut S, caller: &Caller, walked: &WalkedBoth) -> CallResult
    requires { (old : List ℕ) × (new : List ℕ) × WalksTo caller.now (S.state s.old) walked.now false old new }
    ensures { (old new : List ℕ) → WalksTo caller.now (S.state s.old) walked.now false old new
        → PerformsFor caller.now (Rename old new) (S.state s.old) (S.state s.new) result }
{
    let (ino, inode, replaced) = check_rename(s, caller, walked)?;
    if is_same(ino, &replaced) {
        return Ok(Reply::Done);
    }
    move_name(s, caller, walked, ino, &inode, &replaced)?;
    touch_moved(s, caller, walked, ino)?;
    Ok(Reply::Done)
}

/// Gives what the path `old` leads to the name that the path `new` ends in, in place of what that led to: a file, a symbolic
/// link itself, or a directory. Where both are one object nothing changes.
///
/// In a directory with S_ISVTX only the owner of one of both may. ENOENT: `old` leads to nothing. EINVAL: a path ends in `.` or
/// `..`, or a directory would go below itself. EBUSY: a path leads to where it starts, or the directory that is replaced is in
/// use. ENOTDIR: a path of what is no directory ends in a slash, or a directory would replace what is none. EISDIR: something
/// else would replace a directory. ENOTEMPTY: the directory that is replaced has names.
pub fn rename<S: Sectors>(s: &mut S, caller: &Caller, old: &Path, new: &Path) -> CallResult
    requires ready { IsReadyFor caller.now (S.state s.old) }
    ensures { PerformsFor caller.now (Rename old.now new.now) (S.state s.old) (S.state s.new) result }
{
    let walked = walk_both(s, caller, old, new, false)?;
    rename_walked(s, caller, &walked)
}

// What is asked of a directory that goes to another one: its `..` changes.
const WRITE: Perms = Perms {
    read: false,
    write: true,
    execute: false,
};

// Asks whether a directory with S_ISVTX lets the caller take what is replaced, where something is.
fn check_sticky_there(
    process: &Judged,
    found: &Found,
    directory: &Inode,
    replaced: &Option<(u32, Inode)>,
) -> Result<(), Refusal>
    ensures { result ≡ checked (first_of (sticky_there process.now.cred directory.now replaced.now (found.now.step - 1))) }
{
    let Some((_, inode)) = replaced else {
        return Ok(());
    };
    check_sticky(process, found, directory, inode, 2)?;
    Ok(())
}

// Asks both directories for what renaming takes of them, and answers the inode of the second.
fn check_permissions<S: Sectors>(
    s: &mut S,
    caller: &Caller,
    walked: &WalkedBoth,
    inode: &Inode,
    replaced: &Option<(u32, Inode)>,
) -> Result<Inode, Refusal>
    requires { HasState caller.now.geometry (S.state s.old)
        (λ st. (n : ℕ) × Renames caller.now (S.state s.old).sectors walked.now n inode.now replaced.now st) }
    ensures { TellsOf (λ st. (n : ℕ) × Renames caller.now (S.state s.old).sectors walked.now n inode.now replaced.now st)
        (λ st. refused_or (first_of (rename_permissions (scene_walked walked.now st)))
        (Ok (inode_at caller.now.geometry (S.state s.old).sectors walked.now.second.dir_ino))) (S.state s.old) (S.state s.new) result }
{
    let process = &walked.process;
    let first = &walked.first;
    let second = &walked.second;
    let directory = ask_directory(s, caller, process, first, 1)?;
    let to_directory = ask_directory(s, caller, process, second, 2)?;
    check_sticky(process, first, &directory, inode, 1)?;
    check_sticky_there(process, second, &to_directory, replaced)?;
    Ok(to_directory)
}

// Asks whether what has this kind may go to directory `dir_ino`: a directory doesn't go below itself.
fn check_below<S: Sectors>(
    s: &mut S,
    geometry: Geometry,
    ino: u32,
    kind: Kind,
    dir_ino: u32,
) -> Result<(), Refusal>
    requires { ShowsTree geometry (S.state s.old) (λ t. IsDirectoryAt t dir_ino) }
    ensures { TellsTree geometry (λ t. IsDirectoryAt t dir_ino) (λ t. checked (below_asked t kind ino dir_ino))
        (S.state s.old) (S.state s.new) result }
{
    if kind != Kind::Directory {
        return Ok(());
    }
    let below = is_below(s, geometry, ino, dir_ino)?;
    if below {
        return Err(Refusal::Failed(Errno::EINVAL));
    }
    Ok(())
}

// Asks whether what is replaced may go: a directory is empty and not in use.
fn check_replaced(caller: &Caller, replaced: &Option<(u32, Inode)>) -> Result<(), Refusal>
    ensures { (p : Geometry) (map : SectorMap) (t : Tree) (g : Found) → HoldsTree p map t → FoundThere g t
        → replaced.now ≡ inode_there p map g.ino
        → result ≡ checked (first_of (replaced_asked t (users_of (tables_of caller.now)) g)) }
{
    let Some((ino, inode)) = replaced else {
        return Ok(());
    };
    if inode.kind != Kind::Directory {
        return Ok(());
    }
    check_directory(caller, *ino, inode)?;
    Ok(())
}

// Asks for write permission on a directory that goes to another one.
fn check_moved<S: Sectors>(
    s: &mut S,
    caller: &Caller,
    walked: &WalkedBoth,
    inode: &Inode,
) -> Result<(), Refusal>
    requires { HasState caller.now.geometry (S.state s.old)
        (λ st. (n : ℕ) × (there : Option (ℕ × Inode)) × Renames caller.now (S.state s.old).sectors walked.now n inode.now there st) }
    ensures { TellsOf
        (λ st. (n : ℕ) × (there : Option (ℕ × Inode)) × Renames caller.now (S.state s.old).sectors walked.now n inode.now there st)
        (λ st. checked (first_of (rename_moved (scene_walked walked.now st)))) (S.state s.old) (S.state s.new) result }
{
    let first = &walked.first;
    let second = &walked.second;
    if inode.kind != Kind::Directory {
        return Ok(());
    }
    if first.dir_ino == second.dir_ino {
        return Ok(());
    }
    let cred = walked.process.cred();
    let step = first.step;
    permitted(s, caller, cred, inode, WRITE, 1, step)?;
    Ok(())
}

// Asks for space, where a name is new in another directory.
fn check_space<S: Sectors>(
    s: &mut S,
    caller: &Caller,
    walked: &WalkedBoth,
    to_directory: &Inode,
) -> Result<(), Refusal>
    requires sound { IsSound caller.now.geometry (S.state s.old) }
    requires directory { to_directory.now ≡ inode_at caller.now.geometry (S.state s.old).sectors walked.now.second.dir_ino }
    ensures { TellsOf (AreRenamed caller.now (S.state s.old).sectors walked.now)
        (λ st. checked (first_of (rename_space (scene_walked walked.now st)))) (S.state s.old) (S.state s.new) result }
{
    if walked.second.ino.is_some() {
        return Ok(());
    }
    if walked.first.dir_ino == walked.second.dir_ino {
        return Ok(());
    }
    ask_for_name(s, caller.geometry, to_directory)?;
    Ok(())
}

// Asks all that rename asks where its names aren't of one object.
fn check_move<S: Sectors>(
    s: &mut S,
    caller: &Caller,
    walked: &WalkedBoth,
    ino: u32,
    inode: &Inode,
    replaced: &Option<(u32, Inode)>,
) -> Result<(), Refusal>
    requires { HasState caller.now.geometry (S.state s.old)
        (Renames caller.now (S.state s.old).sectors walked.now ino inode.now replaced.now) }
    ensures { TellsOf (Renames caller.now (S.state s.old).sectors walked.now ino inode.now replaced.now)
        (λ st. checked (first_of (move_asked (scene_walked walked.now st)))) (S.state s.old) (S.state s.new) result }
{
    let to_directory = check_permissions(s, caller, walked, inode, replaced)?;
    check_kinds(inode.kind, replaced)?;
    check_below(s, caller.geometry, ino, inode.kind, walked.second.dir_ino)?;
    check_replaced(caller, replaced)?;
    check_moved(s, caller, walked, inode)?;
    check_space(s, caller, walked, &to_directory)?;
    Ok(())
}

// Gives what the first name leads to the second name, which is in the same directory and leads to nothing. EIO: the disk
// has failed.
fn rename_here<S: Sectors>(
    s: &mut S,
    caller: &Caller,
    first: &Found,
    second: &Found,
    ino: u32,
) -> Result<(), Refusal>
    requires may { (ready : IsReadyFor caller.now (S.state s.old))
        × MayMoveTo caller.now.geometry (S.state s.old).sectors first.now second.now ino ready.state }
    requires within { first.now.dir_ino ≡ second.now.dir_ino }
    requires nothing { second.now.ino ≡ None }
    ensures { AltersDisk caller.now.geometry 1 (λ done. MovesEntryTo caller.now.geometry first.now second.now ino)
        (S.state s.old) (S.state s.new) result }
{
    let dir_ino = first.dir_ino;
    let directory = load_inode(s, caller.geometry, dir_ino)?;
    let name = first.name.bytes();
    let to_name = second.name.bytes();
    match dir_core::rename(s, caller.geometry, dir_ino, &directory, name, to_name) {
        Ok(()) => Ok(()),
        Err(_) => Err(Refusal::Failed(Errno::EIO)),
    }
}

// Leads the second name to inode `ino`, whether it led to something or to nothing. EIO: the disk has failed.
fn give_name<S: Sectors>(
    s: &mut S,
    geometry: Geometry,
    second: &Found,
    ino: u32,
) -> Result<(), Refusal>
    requires ready { MayAlter geometry 4 (S.state s.old) }
    requires may { MayLead geometry (S.state s.old).sectors second.now.dir_ino second.now.name second.now.ino }
    ensures { AltersDisk geometry 4 (λ done. NamesInode geometry second.now.dir_ino second.now.name ino)
        (S.state s.old) (S.state s.new) result }
{
    let dir_ino = second.dir_ino;
    let directory = load_inode(s, geometry, dir_ino)?;
    let name = second.name.bytes();
    if second.ino.is_none() {
        return name_inode(s, geometry, dir_ino, directory, name, ino);
    }
    match replace(s, geometry, dir_ino, &directory, name, ino) {
        Ok(()) => Ok(()),
        Err(_) => Err(Refusal::Failed(Errno::EIO)),
    }
}

// Leads the second name to what the first leads to, inode `ino`, and the first to nothing. EIO: the disk has failed.
fn move_entry<S: Sectors>(
    s: &mut S,
    caller: &Caller,
    first: &Found,
    second: &Found,
    ino: u32,
) -> Result<(), Refusal>
    requires may { (ready : IsReadyFor caller.now (S.state s.old))
        × MayMoveTo caller.now.geometry (S.state s.old).sectors first.now second.now ino ready.state }
    ensures { AltersDisk caller.now.geometry 9 (λ done. MovesEntryTo caller.now.geometry first.now second.now ino)
        (S.state s.old) (S.state s.new) result }
{
    if first.dir_ino == second.dir_ino && second.ino.is_none() {
        rename_here(s, caller, first, second, ino)?;
        return Ok(());
    }
    remove_found(s, caller.geometry, first)?;
    give_name(s, caller.geometry, second, ino)?;
    Ok(())
}

// Gives inode `ino`, which goes from directory `dir_ino` to `to_dir_ino`, its parent, where it is a directory. EIO: the
// disk has failed.
fn follow<S: Sectors>(
    s: &mut S,
    geometry: Geometry,
    ino: u32,
    inode: &Inode,
    dir_ino: u32,
    to_dir_ino: u32,
) -> Result<(), Refusal>
    requires loaded { IsUsedInode geometry (S.state s.old) ino inode.now }
    requires spare { HasSpare geometry 1 (S.state s.old) }
    ensures { AltersDisk geometry 1 (λ done. ParentFollows geometry ino dir_ino to_dir_ino) (S.state s.old) (S.state s.new) result }
{
    if inode.kind != Kind::Directory || dir_ino == to_dir_ino {
        return Ok(());
    }
    let moved = Inode {
        parent: to_dir_ino,
        ..*inode
    };
    match save(s, geometry, ino, &moved) {
        Ok(()) => Ok(()),
        Err(_) => Err(Refusal::Failed(Errno::EIO)),
    }
}

// Gives what the first name leads to the second name instead, and takes that name from what it led to, which goes with its
// last name unless it is open. A directory that goes to another one gets its parent. EIO: the disk has failed.
fn move_name<S: Sectors>(
    s: &mut S,
    caller: &Caller,
    walked: &WalkedBoth,
    ino: u32,
    inode: &Inode,
    replaced: &Option<(u32, Inode)>,
) -> Result<(), Refusal>
    requires inode { inode.now ≡ inode_at caller.now.geometry (S.state s.old).sectors ino }
    requires replaced { replaced.now ≡ inode_there caller.now.geometry (S.state s.old).sectors walked.now.second.ino }
    requires may { (ready : IsReadyFor caller.now (S.state s.old))
        × MayMoveTo caller.now.geometry (S.state s.old).sectors walked.now.first walked.now.second ino ready.state }
    ensures { AltersDisk caller.now.geometry 11 (λ done. HoldsChange caller.now.geometry (tables_of caller.now)
        (MayMoveTo caller.now.geometry (S.state s.old).sectors walked.now.first walked.now.second ino)
        (MoveName walked.now.first.dir_ino walked.now.first.name walked.now.second.dir_ino walked.now.second.name))
        (S.state s.old) (S.state s.new) result }
{
    let first = &walked.first;
    let second = &walked.second;
    move_entry(s, caller, first, second, ino)?;
    follow(
        s,
        caller.geometry,
        ino,
        inode,
        first.dir_ino,
        second.dir_ino,
    )?;
    if let Some((m, inode)) = replaced {
        lose_name(s, caller, *m, inode)?;
    }
    Ok(())
}

// Moves the times of both directories, of inode `ino`, which has the second name, and of what it replaced. EIO: the
// disk has failed.
fn touch_moved<S: Sectors>(
    s: &mut S,
    caller: &Caller,
    walked: &WalkedBoth,
    ino: u32,
) -> Result<(), Refusal>
    requires { MayMoveTimes caller.now.geometry
        (renamed_touches walked.now.first.dir_ino walked.now.second.dir_ino ino walked.now.second.ino) (S.state s.old) }
    ensures { AltersTransaction (MovesTimes caller.now.geometry caller.now.time
        (renamed_touches walked.now.first.dir_ino walked.now.second.dir_ino ino walked.now.second.ino)) (S.state s.old) (S.state s.new) result }
{
    let dir_ino = walked.first.dir_ino;
    let to_dir_ino = walked.second.dir_ino;
    match walked.second.ino {
        Some(m) => touch(
            s,
            caller.geometry,
            caller.time,
            &[
                (dir_ino, Touch::Modified),
                (to_dir_ino, Touch::Modified),
                (ino, Touch::Changed),
                (m, Touch::Changed),
            ],
        ),
        None => touch(
            s,
            caller.geometry,
            caller.time,
            &[
                (dir_ino, Touch::Modified),
                (to_dir_ino, Touch::Modified),
                (ino, Touch::Changed),
            ],
        ),
    }
}

// Whether directory `dir_ino` is directory `ino`, or lies below it. EIO: the disk has failed.
fn is_below<S: Sectors>(
    s: &mut S,
    geometry: Geometry,
    ino: u32,
    dir_ino: u32,
) -> Result<bool, Refusal>
    requires { ShowsTree geometry (S.state s.old) (λ t. IsDirectoryAt t dir_ino) }
    ensures told { TellsTree geometry (λ t. IsDirectoryAt t dir_ino) (λ t. Ok (is_within (length t) t ino dir_ino))
        (S.state s.old) (S.state s.new) result }
    ensures fault { IfErr result (FailsToRead (S.state s.old).disk (S.state s.new).disk) }
{
    let mut at = dir_ino;
    while at != ino && at != ROOT {
        at = load_inode(s, geometry, at)?.parent;
    }
    Ok(at == ino)
}
