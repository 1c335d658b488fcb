//! The superblock and the commit.

ghost use Rattle.std.specs.Prelude.{◌≡◌, IfOk, IfErr};
ghost use Rattle.fs_layout.specs.Commit.{IsCommit, named_area};
ghost use Rattle.fs_model.specs.Rules.{IsGeometryOf};
ghost use Rattle.sector_disk.specs.Disk.{sector, OnlyReads};
ghost use Rattle.fs_info.specs.Infos.{IsWhyNoInfo};

use crate::faults::InfoFault;
use fs_check::{Finding, commit_said, geometry_said};
use fs_layout::{Commit, Geometry};
use sector_disk::Disk;

/// A disk whose superblock and commit were read: where its parts lie, and the log area and the targets of a sealed commit.
#[derive(Drop)]
pub(crate) struct Opened {
    pub geometry: Geometry,
    pub area: u32,
    pub commit: Commit,
}

const NO_COMMIT: Finding = Finding { rule: 2, at: 1 };

/// Reads where the parts of the disk lie.
pub(crate) fn open_geometry<D: Disk>(disk: &mut D) -> Result<Geometry, InfoFault>
    ensures geometry { IfOk result (λ p. IsGeometryOf (D.state disk.old).size (sector (D.state disk.old).seen) p) }
    ensures fault { IfErr result (IsWhyNoInfo (D.state disk.old) (D.state disk.new)) }
    ensures reads { OnlyReads (D.state disk.old) (D.state disk.new) }
{
    let size = disk.size();
    if size == 0 {
        return Err(InfoFault::NotAFileSystem);
    }
    let mut content = [0; 512];
    disk.read(0, &mut content)?;
    match geometry_said(&content, size) {
        Some(geometry) => Ok(geometry),
        None => Err(InfoFault::NotAFileSystem),
    }
}

/// Reads the log area that the commit names, and the commit.
pub(crate) fn open_commit<D: Disk>(
    disk: &mut D,
    geometry: Geometry,
) -> Result<(u32, Commit), InfoFault>
    requires { IsGeometryOf (D.state disk.old).size (sector (D.state disk.old).seen) geometry }
    ensures area { IfOk result (λ found. found.0 ≡ named_area (sector (D.state disk.old).seen)) }
    ensures targets { IfOk result (λ found. IsCommit (D.state disk.old).size (sector (D.state disk.old).seen) found.1) }
    ensures fault { IfErr result (IsWhyNoInfo (D.state disk.old) (D.state disk.new)) }
    ensures reads { OnlyReads (D.state disk.old) (D.state disk.new) }
{
    let (area, found) = commit_said(disk, geometry)?;
    match found {
        Some(commit) => Ok((area, commit)),
        None => Err(InfoFault::Damaged(NO_COMMIT)),
    }
}
