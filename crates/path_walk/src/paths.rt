//! What is asked of a path before it is walked.

ghost use Rattle.std.specs.Prelude.{◌≡◌, Ok};
ghost use Rattle.fs_model.specs.Demands.{first_of};
ghost use Rattle.fs_model.specs.Parts.{path_checks};
ghost use Rattle.path_walk.specs.Answers.{refused_or};

use fs_cred::{Errno, Refusal};
use fs_model::Path;

/// The most bytes of a path: PATH_MAX of limits.h, less its zero byte.
pub const MAX_PATH: usize = 1023;

/// Whether a path may be walked: an empty one is ENOENT, one with a zero byte EINVAL, and one of more than [`MAX_PATH`]
/// bytes ENAMETOOLONG, the first of these that holds.
pub fn check_path(path: &Path) -> Result<(), Refusal>
    ensures { result ≡ refused_or (first_of (path_checks path.now)) (Ok tt) }
{
    let bytes = path.bytes();
    if bytes.is_empty() {
        return Err(Refusal::Failed(Errno::ENOENT));
    }
    if bytes.contains(&0) {
        return Err(Refusal::Failed(Errno::EINVAL));
    }
    if bytes.len() > MAX_PATH {
        return Err(Refusal::Failed(Errno::ENAMETOOLONG));
    }
    Ok(())
}
