//! What a superblock says, and sectors as recovery would leave them: for all that read an image and change nothing.

ghost use Rattle.std.specs.Prelude.{◌≡◌, ◌≢◌, ◌≤◌, ◌<◌, ◌^◌, ℕ, length, get_or, IfSome, IfNone, IfOk, OnOk, MatchOption};
ghost use Rattle.fs_layout.specs.Bytes.{SectorMap};
ghost use Rattle.fs_layout.specs.Commit.{AreTargets, IsCommit, named_area};
ghost use Rattle.fs_layout.specs.Header.{header_of};
ghost use Rattle.fs_layout.specs.declared.header.TheConstants.{MAX_HEADER};
ghost use Rattle.fs_layout.specs.Recovered.{recovered};
ghost use Rattle.fs_model.specs.Rules.{IsGeometryOf, HasGeometry};
ghost use Rattle.redo_journal.specs.Meaning.{HasValidCommit};
ghost use Rattle.sector_disk.specs.Disk.{OnlyReads, HasCause, sector};
ghost use Rattle.fs_check.specs.Checks.{meaning, BeginsWith};

use fs_layout::{Commit, Geometry, Super, area_start};
use redo_journal::read_commit;
use sector_disk::{Disk, DiskFault};

/// The layout of a disk of so many sectors, as its superblock says it.
pub fn geometry_said(content: &[u8; 512], size: u32) -> Option<Geometry>
    ensures some { IfSome result (λ p. (image : SectorMap) → image 0 ≡ content.now → IsGeometryOf size image p) }
    ensures none { IfNone result ((image : SectorMap) → image 0 ≡ content.now → HasGeometry size image → ⊥) }
{
    let Ok(superblock) = Super::read_from(content, 0) else {
        return None;
    };
    if superblock.sectors != size {
        return None;
    }
    superblock.geometry()
}

/// The log area that the commit names, and the commit, where it is valid and the superblock says this layout.
pub fn commit_said<D: Disk>(
    disk: &mut D,
    geometry: Geometry,
) -> Result<(u32, Option<Commit>), DiskFault>
    requires { IsGeometryOf (D.state disk.old).size (sector (D.state disk.old).seen) geometry }
    ensures area { IfOk result (λ found. found.0 ≡ named_area (sector (D.state disk.old).seen)) }
    ensures commit { IfOk result (λ found. MatchOption found.1 (HasValidCommit (D.state disk.old).size (D.state disk.old).seen → ⊥)
        (λ targets. IsCommit (D.state disk.old).size (sector (D.state disk.old).seen) targets)) }
    ensures reads { OnlyReads (D.state disk.old) (D.state disk.new) }
    ensures cause { HasCause (D.state disk.old) (D.state disk.new) result }
{
    read_commit(disk, geometry.header)
}

// Where the sector stands among the targets.
fn target_index(targets: &[u32], n: u32) -> Option<usize>
    ensures none { IfNone result ((k : ℕ) → k < length targets.now → get_or targets.now k 0 ≢ n) }
    ensures position { IfSome result (λ k. k < length targets.now) }
    ensures there { IfSome result (λ k. get_or targets.now k 0 ≡ n) }
{
    for (k, target) in targets.iter().enumerate() {
        if *target == n {
            return Some(k);
        }
    }
    None
}

/// The sector that has the content of sector n, where the header has so many sectors: a target of the commit has it in this log area.
pub(crate) fn content_of(header: u32, area: u32, commit: &Commit, n: u32) -> u32
    requires { header ≤ MAX_HEADER }
    ensures content { (size : ℕ) (image : SectorMap) → size < 2 ^ 32 → header ≡ header_of (image 0) → area ≡ named_area image
        → IsCommit size image commit.now → recovered size image n ≡ image result }
    ensures on_disk { (size : ℕ) → AreTargets header size commit.now → n < size → result < size }
{
    match target_index(commit.targets(), n) {
        Some(k) => area_start(header, area) + header + k as u32,
        None => n,
    }
}

/// Reads a sector as recovery would leave it, where the superblock says this layout, and the commit names this log area.
pub fn read_meaning<D: Disk>(
    disk: &mut D,
    geometry: Geometry,
    area: u32,
    commit: &Commit,
    n: u32,
    to: &mut [u8; 512],
) -> Result<(), DiskFault>
    requires begins { BeginsWith (D.state disk.old) geometry area commit.now }
    requires on_disk { n < (D.state disk.old).size }
    ensures content { OnOk result (to.new ≡ meaning (D.state disk.old) n) }
    ensures reads { OnlyReads (D.state disk.old) (D.state disk.new) }
    ensures cause { HasCause (D.state disk.old) (D.state disk.new) result }
{
    disk.read(content_of(geometry.header, area, commit, n), to)?;
    Ok(())
}
