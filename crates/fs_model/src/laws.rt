//! The laws of the definitions: each is the contract of a function that changes nothing.
ghost use Rattle.fs_cred.specs.Laws.{HasAnAnswer, HasOneAnswer, VerdictDecides};
ghost use Rattle.fs_model.specs.Laws.{AccessKindsAgree, CountsFit, EffectsAnswerOtherwise, FindingRefuses, FindsAreThere, FirmRefusesOtherwise, FollowedAreNoLinks, FreeAreClear, NewDiskStands, NewImagesExist, NoneRefuses, NothingToDrop, NumbersAreCounts, ObeyingStands, OneFinding, OneNodeChanges, OpenStays, OtherRefusesOtherwise, PruningKeeps, RefusesLeast, RewritingKeeps, SameProcessStays, SomeImageStands, StandingObeys, StandingRests, StandingRestsOnReading, StandsForOne, StandsInVersion, StepsKeep, StoredKindsAgree, SyncingKeeps, TypesComeBack, WalksRefuseOtherwise};
ghost use Rattle.fs_model.specs.Confinement.{Confinement, GoneIsRefused, StepsAreBy, StepsBy};
ghost use Rattle.fs_model.specs.Handles.{ClosedIsGone, HandlesStay, OpenedIs};
ghost use Rattle.fs_model.specs.Outsiders.{AlikeToCredentials, HandlesStayOpen, ListingRunsConfined, ListingsKeepAlike, OpensAreOthers, OthersKeepAlike, OutsiderRunsConfined, OutsidersConfined, ActorsKeepAlike};
ghost use Rattle.fs_model.specs.Ranges.{IsSomeId, IsCall, IsHandleCall};
ghost use Rattle.fs_model.specs.Reading.{ReadingKeeps, SyncKeeps};
ghost use Rattle.fs_model.specs.ActorLaws.{LinksAskAsBefore, ActorsCallAsProcesses, ActorsFollow};
ghost use Rattle.posix_acl.specs.AccessList.{IsSomeAcl};

use crate::call::Call;
use crate::event::HandleCall;
use posix_acl::Acl;

/// Whoever wants whatever of whatever file or directory, there is exactly one answer with its rule.
pub fn decision_is_unique()
    ensures some { HasAnAnswer }
    ensures one { HasOneAnswer }
    ensures computed { VerdictDecides }
{
    fs_cred::one_answer();
}

/// A walk's lookups are refused by the least of them that refuses, and are not refused where none does.
pub fn first_refusal_is_least()
    ensures least { RefusesLeast }
    ensures none { NoneRefuses }
{}

/// No demand refuses with EIO, and no effect answers it: that is answered where the disk has failed.
pub fn no_demand_is_an_io_error()
    ensures walks { WalksRefuseOtherwise }
    ensures firm { FirmRefusesOtherwise }
    ensures other { OtherRefusesOtherwise }
    ensures effects { EffectsAnswerOtherwise }
{}

// What is read is in the range of its type.
fn read<T: Copy>(_value: T) {}

// Each id has 32 bits.
fn id_is_in_range(id: Option<u32>)
    ensures { IsSomeId id }
{
    if let Some(id) = id {
        read(id);
    }
}

// Each ACL is valid.
fn acl_is_valid(acl: &Option<Acl>)
    ensures { IsSomeAcl acl.now }
{
    if let Some(acl) = acl {
        read(acl.entries());
    }
}

/// Each call is in range: its numbers are those of their types, its paths and contents are bytes, and its ACL is valid. (That
/// its flags open for reading or writing is a field of them.)
pub fn call_is_in_range(call: &Call)
    ensures { IsCall call.now }
{
    match call {
        Call::Open(path, _, mode) | Call::Chmod(path, mode) | Call::Mkdir(path, mode) => {
            read((path.bytes(), *mode))
        }
        Call::Read { fd, len } => read((*fd, *len)),
        Call::Write(fd, bytes) => read((*fd, bytes.bytes())),
        Call::Lseek(fd, _, by) => read((*fd, *by)),
        Call::Close(fd) | Call::Fstat(fd) | Call::Readdir(fd) => read(*fd),
        Call::Stat(path) | Call::Lstat(path) | Call::Access(path, _) => read(path.bytes()),
        Call::GetAcl(path, _) | Call::Rmdir(path) | Call::Chdir(path) => read(path.bytes()),
        Call::Readlink(path) | Call::Unlink(path) => read(path.bytes()),
        Call::Truncate(path, size) => read((path.bytes(), *size)),
        Call::Ftruncate(fd, size) => read((*fd, *size)),
        Call::Chown { path, owner, group } => {
            read(path.bytes());
            id_is_in_range(*owner);
            id_is_in_range(*group);
        }
        Call::SetAcl(path, _, acl) => {
            read(path.bytes());
            acl_is_valid(acl);
        }
        Call::Link { old, new } | Call::Rename { old, new } => read((old.bytes(), new.bytes())),
        Call::Symlink { target, path } => read((target.bytes(), path.bytes())),
        Call::Umask(mask) => read(*mask),
    }
}

/// And what is done by a handle.
pub fn handle_call_is_in_range(handle_call: &HandleCall)
    ensures { IsHandleCall handle_call.now }
{
    match handle_call {
        HandleCall::Read { offset, len } => read((*offset, *len)),
        HandleCall::Write { offset, bytes } => read((*offset, bytes.bytes())),
        HandleCall::Resize(size) => read(*size),
        HandleCall::Show | HandleCall::List | HandleCall::Close => {}
    }
}

/// What a path leads to is in the tree, and where a link at its end is followed it is no link.
pub fn finds_are_there()
    ensures there { FindsAreThere }
    ensures followed { FollowedAreNoLinks }
{}

/// Without its nameless files a tree is a tree.
pub fn pruning_keeps_trees()
    ensures { PruningKeeps }
{}

/// A step of the machine, at an event whose numbers are in the ranges of their types, leads from states to states.
pub fn steps_keep_states()
    ensures { StepsKeep }
{}

/// A state whose processes fit its tree has nothing to be dropped; nor has it where the processes change and what was open
/// is still open.
pub fn fitting_states_drop_nothing()
    ensures same { NothingToDrop }
    ensures open_stays { OpenStays }
{}

/// An event that only looks leaves a tree as it is, where no file of it is nameless; and so does a sync.
pub fn reading_keeps_the_tree()
    ensures reading { ReadingKeeps }
    ensures sync { SyncKeeps }
{}

/// A process that is written back as it is leaves the table of processes as it is.
pub fn same_process_stays()
    ensures { SameProcessStays }
{}

/// A node that is rewritten with the names that it had leaves names and directories, and the count of nodes, as they are.
pub fn rewriting_keeps_names()
    ensures { RewritingKeeps }
{}

/// Where fsync or sync answers ok, a stop right after it leaves the present tree, without its nameless files.
pub fn a_sync_leaves_one_tree()
    ensures { SyncingKeeps }
{}

/// An object has one kind, in whichever words: of its inode, as stat(2) shows it, and as access to it is decided.
pub fn kinds_agree()
    ensures back { TypesComeBack }
    ensures stored { StoredKindsAgree }
    ensures access { AccessKindsAgree }
{}

/// An image stands for at most one tree, in one room, with one count of free sectors.
pub fn an_image_stands_for_one_tree()
    ensures { StandsForOne }
{}

/// Where an image stands for a tree, its count of free sectors is one that the machine allows: at most all data sectors,
/// and at least those that the tree, written without holes, leaves.
pub fn free_sectors_are_within_bounds()
    ensures { CountsFit }
{}

/// What an image stands for rests on what it reads as after recovery: superblock, tables, and the data sectors that are
/// used. So it rests on the superblock, the commit sector with its log, and the sectors from the bitmaps on.
pub fn standing_rests_on_what_is_used()
    ensures reading { StandingRestsOnReading }
    ensures sectors { StandingRests }
{}

/// An image of which the superblock alone says another version, whose files may be as large and whose slots take as many bytes,
/// stands for the same tree, in a room of that version.
pub fn an_image_stands_in_another_version()
    ensures { StandsInVersion }
{}

/// Where one inode changes with what it owns, and holds what it is to hold then, all others hold what they held.
pub fn one_node_changes()
    ensures { OneNodeChanges }
{}

/// A new disk stands for the tree of an empty root, with all its data sectors free.
pub fn a_new_disk_stands_for_an_empty_root()
    ensures { NewDiskStands }
{}

/// Each disk of sizes that a disk may have has such an image; so the definition of what an image stands for can be met.
pub fn some_image_stands_for_a_tree()
    ensures new { NewImagesExist }
    ensures some { SomeImageStands }
{}

/// An image of a disk stands for a tree exactly where it obeys all rules of the checker.
pub fn rules_say_what_stands()
    ensures enough { ObeyingStands }
    ensures needed { StandingObeys }
{}

/// An image has at most one finding, and one that has a finding stands for no tree.
pub fn a_finding_is_the_first()
    ensures one { OneFinding }
    ensures refuses { FindingRefuses }
{}

/// How many files, directories, links and nodes a tree has are counts over the inodes of an image that holds it; and its free
/// inodes are the clear bits of the inode bitmap.
pub fn numbers_are_counts()
    ensures numbers { NumbersAreCounts }
    ensures free { FreeAreClear }
{}

/// What a process can't see into has no part in what it is answered, now or later. In two states that differ only in bytes of
/// files that it doesn't own, is not granted to read, and hasn't opened for reading, its calls, fsyncs and its exit get equal
/// replies, and the states stay alike to it while it is there. It lacks CAP_FOWNER and CAP_CHOWN, by which it could make files
/// its own; the free choices are equal, and neither memory nor the disk fails: of steps these leave out ENOMEM and EIO alone.
pub fn unreadable_bytes_do_not_show()
    ensures alike { Confinement }
    ensures gone { GoneIsRefused }
    ensures choices { StepsAreBy }
    ensures steps { StepsBy }
{}

/// An actor has no new power, but for where its paths start. Where a process with its credential and mask stands at both starts, and no
/// path is empty, its call is refused, changes the tree and answers as the call of that process. What it finds by a path that is followed
/// is no link, but where the call acts on the link at which it starts. And link(2) refuses the paths of processes as if it asked first
/// whether they end in a name.
pub fn actors_call_as_processes()
    ensures calls { ActorsCallAsProcesses }
    ensures follow { ActorsFollow }
    ensures links { LinksAskAsBefore }
{}

/// What someone outside can't see into, who has a credential and the handles that it was answered, has no part in what its actors and
/// what it does by its handles are answered, now or later, from whichever objects they start, and
/// whatever others look at in between. While its handles are open, others may also open what is there, list directories, and close
/// handles that are none of its own: these are answered alike too. Its handles stay open until it closes them, and what others open
/// is none of them. What is alike to a process stays so where
/// its credential actors, and is alike to the credential: with nothing open no more is seen.
pub fn unreadable_bytes_do_not_show_outside()
    ensures one { OutsidersConfined }
    ensures runs { OutsiderRunsConfined }
    ensures others { OthersKeepAlike }
    ensures listings { ListingsKeepAlike }
    ensures several { ListingRunsConfined }
    ensures stay { HandlesStayOpen }
    ensures apart { OpensAreOthers }
    ensures keeps { ActorsKeepAlike }
    ensures alike { AlikeToCredentials }
{}

/// What is answered to an open is a handle that nobody has, and the number of the object. What is open by it stays so, whoever does
/// what, until it is closed; then it is none any more.
pub fn handles_stay()
    ensures opened { OpenedIs }
    ensures stay { HandlesStay }
    ensures gone { ClosedIsGone }
{}
