//! The ways up to the root.

ghost use Rattle.std.specs.Prelude.{◌≡◌, ◌+◌, ◌<◌, ◌≤◌, ℕ, length, get_or, true, IsTrue, ◌↔◌, IfOk, MatchOption};
ghost use Rattle.fs_layout.specs.Bytes.{SectorMap};
ghost use Rattle.fs_model.specs.Rules.{ObeysEach, ObeysBefore, IsLeastFailure, Ways};
ghost use Rattle.fs_check.specs.Checks.{AreInodes};
ghost use Rattle.fs_check.specs.Ways.{Climbs, AllClimb};

use fs_layout::{Geometry, Inode, Kind, ROOT};
use std::alloc::{AllocError, Global};

// Whether the way up from directory d reaches the root. It ends where it meets an earlier way, as all of them reach the
// root, and where it meets itself; each inode on it is marked with d.
fn goes_up(inodes: &[Inode], marks: &mut [u32], dir_ino: u32) -> bool
    requires len { length marks.old ≡ length inodes.now }
    requires earlier { (n : ℕ) → get_or marks.old n 0 < dir_ino }
    requires climb { AllClimb inodes.now marks.old }
    ensures reaches { IsTrue result ↔ Climbs inodes.now dir_ino }
    ensures climb { result ≡ true → AllClimb inodes.now marks.new }
    ensures earlier { (n : ℕ) → get_or marks.new n 0 < dir_ino + 1 }
    ensures len { length marks.new ≡ length inodes.now }
{
    let mut at = dir_ino;
    while at != ROOT {
        let i = at as usize;
        if i >= inodes.len() {
            return false;
        }
        if marks[i] != 0 {
            return marks[i] != dir_ino;
        }
        marks[i] = dir_ino;
        at = inodes[i].parent;
    }
    true
}

/// The first directory from which the way up doesn't reach the root.
pub(crate) fn unreached(
    alloc: Global,
    geometry: Geometry,
    inodes: &[Inode],
) -> Result<Option<u32>, AllocError>
    requires inodes { length inodes.now ≤ geometry.inodes }
    ensures { IfOk result (λ first. (m : SectorMap) → AreInodes geometry m inodes.now → ObeysBefore geometry m 14
        → MatchOption first (ObeysEach geometry m Ways) (λ d. IsLeastFailure geometry m Ways d)) }
{
    let mut marks = vec![in alloc; 0; inodes.len()]?;
    for dir_ino in 1..inodes.len() as u32 {
        if inodes[dir_ino as usize].kind == Kind::Directory
            && !goes_up(inodes, &mut marks, dir_ino)
        {
            return Ok(Some(dir_ino));
        }
    }
    Ok(None)
}
