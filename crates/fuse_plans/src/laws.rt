//! The laws of the plans: each is the contract of a function that does nothing.
ghost use Rattle.fuse_plans.specs.KeepingLaws.{NamesAreKeptWhereJudged, OnlyMissingNamesAreAbsent};
ghost use Rattle.fuse_plans.specs.KeepingDue.{DueIsKeptFirst, NothingIsKeptBefore, RequestsAreKeptInTime, RequestsLeaveTheClock, UndueIsRecent};
ghost use Rattle.fuse_plans.specs.ListingLaws.{ListingsGoOn, NamesKeepTheirOffsets};
ghost use Rattle.fuse_plans.specs.TimeLaws.{TimesAreSetByRight};
ghost use Rattle.fuse_plans.specs.ShareLaws.{RequestsKeepShares, DirectoriesAreFound};
ghost use Rattle.fuse_plans.specs.AlteredTrees.{StepsChangeWhatIsSaid};
ghost use Rattle.fuse_plans.specs.Confinement.{RequestRunsConfined, RequestsConfined};
ghost use Rattle.fuse_plans.specs.Laws.{FailuresChangeNothing, JudgedLookupsAreGranted, MakingsAreCounted, OpenedIsTheObject, OpeningsAreTold, OthersChangeNothing, OthersKeepTimes, RequestsBehave, RequestsChangeWhatTheySay, RunsChangeWhatRequestsSay, RunsBehave, ToldNodesLeadToObjects, UsersAreGranted, UsersCountAlone, WhoAsksCountsOnlyWhereNeeded};

/// Whatever the machine replies, no request is performed with more than the rights of who asks.
///
/// Each call is made as who asks, or by the server, which only looks at what stat(2) and readlink(2) show, at ACLs and at names; and it opens
/// for reading what who asks was granted to run. What is done by a handle is done by the one that the request gives, which a RELEASE
/// closes, and no other request. Only where a request gives none it uses one that it has opened: that is listed at most, and closed.
/// Nothing is asked of the disk, nor of a process.
///
/// Each call acts on what the request is about, as the server knew it when the request began: on the object of its node; on a name that
/// the request gives, in the directory of its node; or on what was opened or made for it. A name is added, taken or moved only where the
/// request gives it.
pub fn requests_behave()
    ensures { RequestsBehave }
{}

/// What was asked for each request, with the replies that were given, is what may be asked.
pub fn what_is_asked_may_be()
    ensures { RunsBehave }
{}

/// What changes of names and attributes comes of a request that says so.
///
/// Whatever the machine replies, no request asks for a call that changes more than the request says: which, `IsToldBy` lists. The
/// size changes by SETATTR, and by OPEN and CREATE where they are to take the bytes; bytes change by WRITE, of the open file that its
/// handle gives; mode, owner, group and times by SETATTR, where it gives them; a list by SETXATTR and REMOVEXATTR that name it; and a
/// name is added, taken or moved by a request that gives that name. All other requests change nothing, nor the times of any object
/// that the server keeps, for a disk that keeps none; and the disk is never stopped. [`requests_behave`] says on what: on an object
/// that the request is about, or in the directory of the name; and [`steps_change_what_is_said`] that the machine changes no more by
/// such a call.
///
/// So what else the machine shows stays as the kernel was told it, as long as its mount is the image's only writer. LOOKUP, GETATTR,
/// SETATTR and what makes or links an object are answered with the attributes that it has then; of the rest the kernel knows by its
/// own request what it has to ask again. Where a request fails, [`failures_change_nothing`] says which have changed nothing. Others
/// may have changed what they say, and the kernel isn't told: a SETATTR is done in parts, what was made or linked may not be shown,
/// and a CREATE may have taken the bytes.
pub fn requests_change_what_they_say()
    ensures may_be_asked { RequestsChangeWhatTheySay }
    ensures asked { RunsChangeWhatRequestsSay }
    ensures nothing { OthersChangeNothing }
    ensures times { OthersKeepTimes }
{}

/// Where UNLINK, RMDIR, RENAME, OPEN, SETXATTR or REMOVEXATTR fails, nothing has changed.
///
/// Each call that they asked for, and that changes names, bytes or attributes, was refused, whatever else was replied. Of the call
/// that opens this supposes that what was opened is replied, or why nothing was: the machine replies nothing else.
pub fn failures_change_nothing()
    ensures failures { FailuresChangeNothing }
    ensures told { OpeningsAreTold }
{}

/// By no event the machine changes more of its tree than `alterations_by` says of the call.
///
/// Of a call of which it says nothing, and of an event that is no call, the tree stays, but for an object that has no name and that
/// nobody has open any more. What is rewritten of an object is what is said: its bytes, its mode with the list that decides on access,
/// the other list, its owner, its group, its times; all else of it stays, and so do its names. And a name is added, taken or moved only
/// where that is said. Where the disk keeps times, a change of the rest moves them too, to the time that the machine was told.
pub fn steps_change_what_is_said()
    ensures { StepsChangeWhatIsSaid }
{}

/// Whatever the machine replies, times of an object are set only by right, where the disk keeps them.
///
/// The machine sets times without asking who it is for. So the object was shown before, and who asks counts as its owner; or no other time
/// is set than the present, and who asks has asked access(2) whether it may write to the object, and wasn't refused. [`requests_behave`]
/// says that it is the object that the request is about. The ctime is always set to the present.
pub fn times_are_set_by_right()
    ensures { TimesAreSetByRight }
{}

/// What an OPEN has opened is the object of its node.
///
/// The machine has opened the object that has the number of the node, and has given that handle for it; nothing else was asked then.
pub fn opened_is_the_object()
    ensures { OpenedIsTheObject }
{}

/// The node that is told of a name, where that is looked up or what is made gets it, leads to the inode that was shown.
///
/// And each inode counts how often its number was given to a new object, whatever the request is answered: the count is part of a node, so
/// the node of an object that is gone doesn't lead to another.
pub fn told_nodes_lead_to_objects()
    ensures lead { ToldNodesLeadToObjects }
    ensures counted { MakingsAreCounted }
{}

/// Where a request was found to need nobody, its plan is the same whoever asks: their process isn't even looked for.
pub fn who_asks_counts_only_where_needed()
    ensures { WhoAsksCountsOnlyWhereNeeded }
{}

/// Groups and capabilities of who asks are passed over only where they don't count.
///
/// Then nothing but one permission is asked of the object of the node: to read it, to run it, to search it, or what access(2) asks. And the
/// server was shown the object, with a list that grants this to the user as its owner, as a named user, or else as a member of each group
/// and of none. By the access check of acl(5) it is granted then with any groups and any capabilities.
pub fn users_need_no_groups()
    ensures shown { UsersCountAlone }
    ensures granted { UsersAreGranted }
{}

/// Where the kernel judges by modes and lists before it asks, no look-up is answered EACCES, whoever asks and whether their groups are
/// known or not; so the kernel drops no name, and unmounts nothing below it.
///
/// There are two exceptions. In a directory whose access list has the mask `---` while others may search, the caller is judged, since
/// Linux asks the entry for others there. And the machine may refuse the server itself.
pub fn judged_lookups_are_granted()
    ensures { JudgedLookupsAreGranted }
{}

/// Whatever the machine replies to requests, no user opens more directories than it may: others open theirs.
///
/// A user who has no directory open may open one, as long as fewer than 40 users have; and user 0 may, as long as it has fewer than 16.
pub fn shares_are_found()
    ensures kept { RequestsKeepShares }
    ensures directories { DirectoriesAreFound }
{}

/// Whatever the machine replies, the kernel may keep a name only where it judges before it asks, and by a list that it follows.
///
/// A name that is looked up it may keep where who asks doesn't count. A new name it may keep where the server was shown, before the name
/// was made, a directory whose access list hasn't the mask `---` while others may search. That nothing has a name it may keep only where
/// the server was refused for it.
pub fn names_are_kept_where_judged()
    ensures kept { NamesAreKeptWhereJudged }
    ensures absent { OnlyMissingNamesAreAbsent }
{}

/// A listing goes on by offsets that follow from names alone, whatever else comes and goes.
///
/// Behind the offset of a name stand just the names that come after it. And where no two names of a directory have one place, a number of
/// 62 bits that is made of the name's SipHash, the offset of each is its place. So a name that is in two listings stands at the same offset
/// in both, and whoever goes on in one by an offset of the other (Linux does, where it keeps listings) is told it once: by the one up to that
/// offset, or by the other behind it. Where names do share a place, only a listing of their directory that changes meanwhile may leave out
/// one of these, or tell it twice.
pub fn listings_go_on()
    ensures goes_on { ListingsGoOn }
    ensures offsets { NamesKeepTheirOffsets }
{}

/// What was done is made to last so many seconds and one request later at most, whatever is asked meanwhile.
///
/// Where that is due when a request comes, a sync of all is asked first, whoever asks and whatever for. From then on the server counts
/// from the time of that request. The reply isn't looked at: a machine that can't sync has halted.
///
/// Where it isn't due nothing is asked for it. Then less than so many seconds have passed since the server made all last, or began; and
/// the clock wasn't set back to before that. A request itself never moves the time that is counted from. So it is known where, among
/// all that is asked for requests one after another, a sync comes.
pub fn what_is_due_is_kept_first()
    ensures first { DueIsKeptFirst }
    ensures undue { NothingIsKeptBefore }
    ensures recent { UndueIsRecent }
    ensures clock { RequestsLeaveTheClock }
    ensures in_time { RequestsAreKeptInTime }
{}

/// What a user of a mount can't read has no part in what their requests are answered, now or later.
///
/// A request of a user is performed from two states that differ only in bytes of files that they don't own, aren't granted to read, and
/// haven't opened for reading, with the same free choices. The same is asked of both and replied by both, the response is the same, and so
/// is what the server keeps. Then the two states are alike to the user, with the handles that they have opened and not closed, and these
/// are open. So it is with requests one after another, each with the handles that they have then. In between they may also be given a handle
/// that was opened with another credential, as by the server or by their user alone, of a file that they see into then.
///
/// The user lacks CAP_FOWNER and CAP_CHOWN, by which they could make files their own. A request that says a change has their credential,
/// where one is known; all others may be anyone's. What is done by a handle is done by one of theirs, but for RELEASE. So of a file that the
/// server opens for them to be run, and that they can't read, it isn't said what a READ is answered. And neither memory nor the disk fails.
pub fn unreadable_bytes_do_not_show_in_answers()
    ensures one { RequestsConfined }
    ensures several { RequestRunsConfined }
{}
