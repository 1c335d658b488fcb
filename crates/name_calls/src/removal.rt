//! Removing names: POSIX.1-2017, unlink() and rmdir().

ghost use Rattle.std.specs.Prelude.{◌≡◌, ℕ, List, Ok};
ghost use Rattle.fs_layout.specs.Bytes.{SectorMap};
ghost use Rattle.fs_layout.specs.Images.{inode_at};
ghost use Rattle.fs_model.specs.TreeChanges.{TakeName};
ghost use Rattle.fs_model.specs.Demands.{first_of};
ghost use Rattle.fs_model.specs.Nodes.{Body};
ghost use Rattle.fs_model.specs.Processes.{is_in_use};
ghost use Rattle.fs_model.specs.Scenes.{found_ino};
ghost use Rattle.fs_model.specs.StoredNodes.{HoldsBody};
ghost use Rattle.path_walk.specs.Answers.{refused_or};
ghost use Rattle.fs_layout.specs.declared.version.Version.{Version};
ghost use Rattle.fs_model.specs.declared.call.Call.TheVariants.{Unlink, Rmdir};
ghost use Rattle.call_parts.specs.BothTables.{tables_of, users_of};
ghost use Rattle.call_parts.specs.Paths.{scene_at};
ghost use Rattle.call_parts.specs.Performing.{IsReadyFor, PerformsFor};
ghost use Rattle.name_calls.specs.declared.removal.Target.TheVariants.{NoDirectory, Directory};
ghost use Rattle.call_parts.specs.Altering.{AltersDisk, HoldsChange};
ghost use Rattle.name_calls.specs.Removing.{FindsName, IsNamedThere, removal_asked, last_asked, directory_asked, kind_asked, removal_demands, removal_call, MayGoAt};
ghost use Rattle.call_parts.specs.Telling.{checked, ShowsTree, HasState, TellsTree, TellsOf};
ghost use Rattle.name_calls.specs.Walking.{WalksToName};

use crate::dropping::{lose_name, remove_found};
use call_parts::{
    CallResult, Caller, Walked, ask_directory, check_no_directory, check_slash, check_sticky,
    inode_found, touch, walk_path,
};
use dir_core::is_empty;
use fs_cred::{Errno, Refusal};
use fs_layout::{Inode, Kind};
use fs_model::{Form, Found, Last, Path, Reply, Touch};
use sector_txn::Sectors;

/// What a call removes.
#[derive(Clone, Copy)]
enum Target {
    NoDirectory,
    Directory,
}

// Asks whether a path of unlink ends in a name.
fn check_name(found: &Found) -> Result<(), Refusal>
    ensures { result ≡ checked (first_of (last_asked NoDirectory found.now)) }
{
    match found.last {
        Last::Name => Ok(()),
        Last::Dot | Last::DotDot | Last::Top => Err(Refusal::Failed(Errno::EISDIR)),
    }
}

// Asks whether a path of rmdir ends in a name.
fn check_directory_name(found: &Found) -> Result<(), Refusal>
    ensures { result ≡ checked (first_of (last_asked Directory found.now)) }
{
    match found.last {
        Last::Name => Ok(()),
        Last::Top => Err(Refusal::Failed(Errno::EBUSY)),
        Last::Dot => Err(Refusal::Failed(Errno::EINVAL)),
        Last::DotDot => Err(Refusal::Failed(Errno::ENOTEMPTY)),
    }
}

// Asks whether the path of what is to go ends in a name.
fn check_last(found: &Found, what: Target) -> Result<(), Refusal>
    ensures { result ≡ checked (first_of (last_asked what found.now)) }
{
    match what {
        Target::NoDirectory => check_name(found),
        Target::Directory => check_directory_name(found),
    }
}

// Asks all that is asked before a name is removed, whatever it leads to, and answers number and inode of that.
fn check_removal<S: Sectors>(
    s: &mut S,
    caller: &Caller,
    walked: &Walked,
) -> Result<(u32, Inode), Refusal>
    requires { ShowsTree caller.now.geometry (S.state s.old) (λ t. IsNamedThere t walked.now.found) }
    ensures { TellsTree caller.now.geometry (λ t. IsNamedThere t walked.now.found)
        (λ t. refused_or (first_of (removal_asked walked.now.process.cred t walked.now.found))
        (Ok (found_ino walked.now.found, inode_at caller.now.geometry (S.state s.old).sectors (found_ino walked.now.found))))
        (S.state s.old) (S.state s.new) result }
{
    let process = &walked.process;
    let found = &walked.found;
    let (ino, inode) = inode_found(s, caller.geometry, found)?;
    check_slash(found, inode.kind)?;
    let directory = ask_directory(s, caller, process, found, 1)?;
    check_sticky(process, found, &directory, &inode, 1)?;
    Ok((ino, inode))
}

/// Asks whether what is to go is an empty directory that isn't in use.
pub(crate) fn check_directory(caller: &Caller, ino: u32, inode: &Inode) -> Result<(), Refusal>
    ensures { (version : Version) (image : SectorMap) (b : Body) → HoldsBody version image inode.now b
        → result ≡ checked (first_of (directory_asked b (is_in_use (users_of (tables_of caller.now)) ino))) }
{
    if inode.kind != Kind::Directory {
        return Err(Refusal::Failed(Errno::ENOTDIR));
    }
    if caller.is_in_use(ino) {
        return Err(Refusal::Failed(Errno::EBUSY));
    }
    if !is_empty(inode) {
        return Err(Refusal::Failed(Errno::ENOTEMPTY));
    }
    Ok(())
}

// Asks whether what is to go is what the call removes.
fn check_kind(caller: &Caller, ino: u32, inode: &Inode, what: Target) -> Result<(), Refusal>
    ensures { (version : Version) (image : SectorMap) (b : Body) → HoldsBody version image inode.now b
        → result ≡ checked (first_of (kind_asked what b (is_in_use (users_of (tables_of caller.now)) ino))) }
{
    match what {
        Target::NoDirectory => check_no_directory(inode.kind),
        Target::Directory => check_directory(caller, ino, inode),
    }
}

// Asks all that the call asks of what was found, and answers its number and its inode.
fn check_target<S: Sectors>(
    s: &mut S,
    caller: &Caller,
    walked: &Walked,
    what: Target,
) -> Result<(u32, Inode), Refusal>
    requires { HasState caller.now.geometry (S.state s.old) (FindsName caller.now.geometry (S.state s.old).sectors (tables_of caller.now)
        walked.now.process walked.now.found) }
    ensures { TellsOf (FindsName caller.now.geometry (S.state s.old).sectors (tables_of caller.now)
        walked.now.process walked.now.found)
        (λ st. refused_or (first_of (removal_demands what (scene_at st walked.now.process walked.now.found)))
        (Ok (found_ino walked.now.found, inode_at caller.now.geometry (S.state s.old).sectors (found_ino walked.now.found))))
        (S.state s.old) (S.state s.new) result }
{
    check_last(&walked.found, what)?;
    let (ino, inode) = check_removal(s, caller, walked)?;
    check_kind(caller, ino, &inode, what)?;
    Ok((ino, inode))
}

// Takes the name that was found, which leads to inode `ino`; with its last name that goes, unless it is open. EIO: the
// disk has failed.
fn take_name<S: Sectors>(
    s: &mut S,
    caller: &Caller,
    found: &Found,
    ino: u32,
    inode: &Inode,
) -> Result<(), Refusal>
    requires inode { inode.now ≡ inode_at caller.now.geometry (S.state s.old).sectors ino }
    requires may { (ready : IsReadyFor caller.now (S.state s.old)) × MayGoAt found.now ino ready.state }
    ensures { AltersDisk caller.now.geometry 6 (λ done. HoldsChange caller.now.geometry (tables_of caller.now)
        (MayGoAt found.now ino) (TakeName found.now.dir_ino found.now.name)) (S.state s.old) (S.state s.new) result }
{
    remove_found(s, caller.geometry, found)?;
    lose_name(s, caller, ino, inode)?;
    Ok(())
}

// Removes the name that a path has led to, and with its last name what has it.
fn remove_walked<S: Sectors>(
    s: &mut S,
    caller: &Caller,
    walked: &Walked,
    what: Target,
) -> CallResult
    requires { (path : List ℕ) × WalksToName caller.now (S.state s.old) walked.now path }
    ensures { (path : List ℕ) → WalksToName caller.now (S.state s.old) walked.now path
        → PerformsFor caller.now (removal_call what path) (S.state s.old) (S.state s.new) result }
{
    let (ino, inode) = check_target(s, caller, walked, what)?;
    take_name(s, caller, &walked.found, ino, &inode)?;
    let touches = [
        (walked.found.dir_ino, Touch::Modified),
        (ino, Touch::Changed),
    ];
    touch(s, caller.geometry, caller.time, &touches)?;
    Ok(Reply::Done)
}

// Removes the name that a path ends in, and with its last name what it leads to.
fn remove_target<S: Sectors>(s: &mut S, caller: &Caller, path: &Path, what: Target) -> CallResult
    requires ready { IsReadyFor caller.now (S.state s.old) }
    ensures { PerformsFor caller.now (removal_call what path.now) (S.state s.old) (S.state s.new) result }
{
    let walked = walk_path(s, caller, Ok(()), path, false, Form::Parent)?;
    remove_walked(s, caller, &walked, what)
}

/// Removes the name that a path ends in, of a file or a symbolic link. With its last name the file goes, once nobody has it
/// open; the link goes.
///
/// In a directory with S_ISVTX only the owner of one of both may. EISDIR: the path leads to a directory, or ends in no name.
/// ENOENT: it leads to nothing. ENOTDIR: it ends in a slash.
pub fn unlink<S: Sectors>(s: &mut S, caller: &Caller, path: &Path) -> CallResult
    requires ready { IsReadyFor caller.now (S.state s.old) }
    ensures { PerformsFor caller.now (Unlink path.now) (S.state s.old) (S.state s.new) result }
{
    remove_target(s, caller, path, Target::NoDirectory)
}

/// Removes the directory that a path leads to, with its name.
///
/// In a directory with S_ISVTX only the owner of one of both may. EBUSY: it is the root, or a process stands in it, or somebody has
/// it open. EINVAL: the path ends in `.`. ENOTEMPTY: it ends in `..`, or the directory has names. ENOENT: it leads to nothing.
/// ENOTDIR: it leads to no directory.
pub fn rmdir<S: Sectors>(s: &mut S, caller: &Caller, path: &Path) -> CallResult
    requires ready { IsReadyFor caller.now (S.state s.old) }
    ensures { PerformsFor caller.now (Rmdir path.now) (S.state s.old) (S.state s.new) result }
{
    remove_target(s, caller, path, Target::Directory)
}
