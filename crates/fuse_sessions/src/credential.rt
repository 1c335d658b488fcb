//! The credential of who asks, by what is known of their process.
ghost use Rattle.std.specs.Prelude.{◌≡◌, Some, IfOk};
ghost use Rattle.fs_cred.specs.Capabilities.{usual_caps};
ghost use Rattle.fuse_plans.specs.Requests.{caps_left, credential_with};

use bitflags::Flags;
use fs_cred::{Caps, Cred, CredFault};
use std::alloc::{AllocError, Global};

// The capabilities that a user has unless others are given.
fn usual_caps(uid: u32) -> Caps
    ensures { result ≡ usual_caps uid }
{
    if uid == 0 { Caps::all() } else { Caps::empty() }
}

// The capabilities of the user, less those that the process lacks.
fn caps_left(uid: u32, held: Caps) -> Caps
    ensures { result ≡ caps_left uid held }
{
    Caps::from_bits_retain(usual_caps(uid).bits() & held.bits())
}

/// The credential of a user whose process is in these groups and holds these capabilities, unless the groups are too many.
pub fn credential_of(
    alloc: Global,
    uid: u32,
    gid: u32,
    groups: &[u32],
    held: Caps,
) -> Result<Option<Cred>, AllocError>
    ensures { IfOk result (λ cred. cred ≡ credential_with uid gid held (Some groups.now)) }
{
    match Cred::of_process(alloc, uid, gid, groups, caps_left(uid, held)) {
        Ok(cred) => Ok(Some(cred)),
        Err(CredFault::TooManyGroups) => Ok(None),
        Err(CredFault::OutOfMemory) => Err(AllocError),
    }
}
