//! Changes of attributes: what of them is to be set, and by whom; and what comes of some errors.
ghost use Rattle.std.specs.Prelude.{◌≡◌, ◌&&◌, ◌||◌, not, is_some};
ghost use Rattle.fuse_plans.specs.AttributePlans.{is_now, or_not_permitted, or_of_link};
ghost use Rattle.fuse_plans.specs.AclPlans.{or_not_for_files};
ghost use Rattle.fuse_plans.specs.DirectoryPlans.{or_removed};
ghost use Rattle.fuse_plans.specs.Works.{of_result};
ghost use Rattle.fs_cred.specs.Ownership.{counts_as_owner};

use fs_cred::{Cred, Errno, may_own};
use fs_model::Reply;
use fuse_plans::{OtherErrno, RequestError, Tried};
use fuse_protocol::{AttrChanges, NewTime};

// Whether a time is set to the present.
fn is_now(time: Option<NewTime>) -> bool
    ensures { result ≡ is_now time }
{
    matches!(time, Some(NewTime::Now))
}

/// Whether who asks counts as the owner.
pub fn counts_as_owner(cred: &Cred, owner: u32) -> bool
    ensures { result ≡ counts_as_owner cred.now owner }
{
    may_own(cred, owner).is_ok()
}

/// Whether an owner or a group is to be set.
pub fn sets_owners(changes: &AttrChanges) -> bool
    ensures { result ≡ (is_some changes.now.uid || is_some changes.now.gid) }
{
    changes.uid.is_some() || changes.gid.is_some()
}

/// Whether a time is to be set.
pub fn sets_times(changes: &AttrChanges) -> bool
    ensures { result ≡ (is_some changes.now.atime || is_some changes.now.mtime) }
{
    changes.atime.is_some() || changes.mtime.is_some()
}

/// Whether times are set that only an owner may set.
pub fn needs_owner(changes: &AttrChanges) -> bool
    ensures { result ≡ not (is_now changes.now.atime && is_now changes.now.mtime) }
{
    !(is_now(changes.atime) && is_now(changes.mtime))
}

/// A link is never written to: EPERM.
pub fn or_not_permitted(written: Tried<Reply>) -> Tried<()>
    ensures { or_not_permitted written ≡ of_result result }
{
    match written {
        Ok(reply) => {
            reply.discard();
            Ok(())
        }
        Err(RequestError::Lacks(OtherErrno::EOPNOTSUPP)) => Err(RequestError::EPERM),
        Err(error) => Err(error),
    }
}

/// On a link access is never refused.
pub fn or_of_link(accessed: Tried<Reply>) -> Tried<()>
    ensures { or_of_link accessed ≡ of_result result }
{
    match accessed {
        Ok(reply) => {
            reply.discard();
            Ok(())
        }
        Err(RequestError::Lacks(OtherErrno::EOPNOTSUPP)) => Ok(()),
        Err(error) => Err(error),
    }
}

/// A directory that was removed has no names, and of it nothing is asked.
pub fn or_removed(read: Tried<Reply>) -> Tried<()>
    ensures { or_removed read ≡ of_result result }
{
    match read {
        Ok(reply) => {
            reply.discard();
            Ok(())
        }
        Err(RequestError::Lacks(OtherErrno::ESTALE)) => Ok(()),
        Err(error) => Err(error),
    }
}

/// Only a directory has a default ACL: EACCES, as setxattr(2) has it.
pub fn or_not_for_files(set: Tried<Reply>) -> Tried<()>
    ensures { or_not_for_files set ≡ of_result result }
{
    match set {
        Ok(reply) => {
            reply.discard();
            Ok(())
        }
        Err(error) => {
            if error.is_for(Errno::ENOTDIR) {
                Err(RequestError::EACCES)
            } else {
                Err(error)
            }
        }
    }
}
