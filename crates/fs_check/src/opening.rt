//! The superblock and the commit.

ghost use Rattle.std.specs.Prelude.{◌≡◌, IfOk};
ghost use Rattle.fs_layout.specs.Commit.{IsCommit, named_area};
ghost use Rattle.fs_model.specs.Rules.{IsGeometryOf};
ghost use Rattle.sector_disk.specs.Disk.{sector};
ghost use Rattle.fs_check.specs.Checks.{Passed, IsFirst};

use crate::faults::{CheckFault, Checked, Finding};
use crate::recovering::{commit_said, geometry_said};
use fs_layout::{Commit, Geometry};
use sector_disk::Disk;
use std::alloc::Global;

/// A disk whose superblock and commit were read: where its parts lie, and the log area and the targets of a sealed commit.
#[derive(Drop)]
pub(crate) struct Opened {
    /// Where the memory for a check's tables is taken from.
    pub alloc: Global,
    pub geometry: Geometry,
    pub area: u32,
    pub commit: Commit,
}

const NO_GEOMETRY: CheckFault = CheckFault::Found(Finding { rule: 1, at: 0 });

const NO_COMMIT: CheckFault = CheckFault::Found(Finding { rule: 2, at: 1 });

/// Reads where the parts of the disk lie: the first rule.
pub(crate) fn open_geometry<D: Disk>(disk: &mut D) -> Checked<Geometry>
    ensures geometry { IfOk result (λ p. IsGeometryOf (D.state disk.old).size (sector (D.state disk.old).seen) p) }
    ensures passed { Passed IsFirst (D.state disk.old) (D.state disk.new) result }
{
    let size = disk.size();
    if size == 0 {
        return Err(NO_GEOMETRY);
    }
    let mut content = [0; 512];
    disk.read(0, &mut content)?;
    match geometry_said(&content, size) {
        Some(geometry) => Ok(geometry),
        None => Err(NO_GEOMETRY),
    }
}

/// Reads the log area that the commit names, and the commit: the second rule.
pub(crate) fn open_commit<D: Disk>(disk: &mut D, geometry: Geometry) -> Checked<(u32, Commit)>
    requires { IsGeometryOf (D.state disk.old).size (sector (D.state disk.old).seen) geometry }
    ensures area { IfOk result (λ found. found.0 ≡ named_area (sector (D.state disk.old).seen)) }
    ensures targets { IfOk result (λ found. IsCommit (D.state disk.old).size (sector (D.state disk.old).seen) found.1) }
    ensures passed { Passed IsFirst (D.state disk.old) (D.state disk.new) result }
{
    let (area, found) = commit_said(disk, geometry)?;
    match found {
        Some(commit) => Ok((area, commit)),
        None => Err(NO_COMMIT),
    }
}
