//! Who asks, and with what: from the bytes of a request and what is known beside them.
ghost use Rattle.std.specs.Prelude.{◌≡◌, IfOk};
ghost use Rattle.fuse_plans.specs.Protocol.{IsValueOf, HasValue};
ghost use Rattle.fuse_plans.specs.Requests.{credential_with};

use crate::caller::Caller;
use fs_cred::Cred;
use fuse_protocol::{AclValueFault, Operation, read_acl_value};
use fuse_sessions::credential_of;
use posix_acl::{Acl, AclFault};
use std::alloc::{AllocError, Global};

/// The credential of who asks, unless not all groups are known.
pub(crate) fn credential_of_caller(
    alloc: Global,
    uid: u32,
    gid: u32,
    caller: &Caller,
) -> Result<Option<Cred>, AllocError>
    ensures { IfOk result (λ cred. cred ≡ credential_with uid gid caller.now.caps caller.now.groups) }
{
    match &caller.groups {
        Some(groups) => credential_of(alloc, uid, gid, groups.ids(), caller.caps),
        None => Ok(None),
    }
}

/// The ACL that the value of an attribute says, or that there be none; nothing where it says neither.
pub(crate) fn acl_of_value(alloc: Global, value: &[u8]) -> Result<Option<Option<Acl>>, AllocError>
    ensures { IfOk result (IsValueOf value.now) }
{
    let entries = match read_acl_value(alloc, value) {
        Ok(entries) => entries,
        Err(AclValueFault::Malformed) => return Ok(None),
        Err(AclValueFault::OutOfMemory) => return Err(AllocError),
    };
    if entries.is_empty() {
        return Ok(Some(None));
    }
    match Acl::from_entries(alloc, &entries) {
        Ok(acl) => Ok(Some(Some(acl))),
        Err(AclFault::OutOfMemory) => Err(AllocError),
        Err(_) => Ok(None),
    }
}

/// The ACL that the value in an operation says, as by `acl_of_value`, if there is a value.
pub(crate) fn value_in(
    alloc: Global,
    operation: &Operation<'_>,
) -> Result<Option<Option<Acl>>, AllocError>
    ensures { IfOk result (HasValue operation.now) }
{
    match operation {
        Operation::SetXAttr { value, .. } => acl_of_value(alloc, value.bytes()),
        _ => Ok(None),
    }
}
