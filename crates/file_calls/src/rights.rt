//! access: POSIX.1-2017, access(), by the ids of the process.

ghost use Rattle.fs_model.specs.declared.call.Call.TheVariants.{Access};
ghost use Rattle.sector_txn.specs.Sectors.{IsUnchanged};
ghost use Rattle.call_parts.specs.Performing.{IsReadyFor, PerformsFor};

use call_parts::{CallResult, Caller, permitted, reach};
use fs_model::{Form, Path, Reply};
use posix_acl::Perms;
use sector_txn::Sectors;

/// Asks whether the process has all these permissions on what a path leads to, and answers the rule that grants them. No
/// permission at all may be asked for. ENOENT: the path leads to nothing.
pub fn access<S: Sectors>(s: &mut S, caller: &Caller, path: &Path, want: Perms) -> CallResult
    requires ready { IsReadyFor caller.now (S.state s.old) }
    ensures performs { PerformsFor caller.now (Access path.now want) (S.state s.old) (S.state s.new) result }
    ensures same { IsUnchanged (S.state s.old) (S.state s.new) }
{
    let reached = reach(s, caller, Ok(()), path, false, Form::Follow)?;
    let cred = reached.process.cred();
    let step = reached.found.step;
    let inode = &reached.inode;
    let rule = permitted(s, caller, cred, inode, want, 1, step)?;
    Ok(Reply::Granted(rule))
}
