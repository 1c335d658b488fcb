//! What is copied of a request, or made for it, before anything is asked.
ghost use Rattle.std.specs.Prelude.{◌≡◌, IfOk};
ghost use Rattle.posix_acl.specs.AccessList.{minimal};

use fs_model::Path;
use posix_acl::Acl;
use std::alloc::{AllocError, Global};

/// Copies of two names.
pub(crate) fn two_paths(
    alloc: Global,
    name: &[u8],
    second: &[u8],
) -> Result<(Path, Path), AllocError>
    ensures { IfOk result (λ copy. (copy.0 ≡ name.now) × (copy.1 ≡ second.now)) }
{
    let name = Path::from_slice(alloc, name)?;
    Ok((name, Path::from_slice(alloc, second)?))
}

/// A list of three entries, for those of a mode.
pub(crate) fn spare_acl(alloc: Global) -> Result<Acl, AllocError>
    ensures { IfOk result (λ acl. acl ≡ minimal 0) }
{
    match Acl::from_mode(alloc, 0) {
        Ok(acl) => Ok(acl),
        Err(_) => Err(AllocError),
    }
}
