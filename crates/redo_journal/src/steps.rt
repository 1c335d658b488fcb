//! The writes of a commit. They know nothing of what an image means.

ghost use Rattle.std.specs.Prelude.{◌≡◌, ◌≤◌, ◌<◌, ◌+◌, ◌*◌, ℕ, length, Contains, OnOk};
ghost use Rattle.fs_layout.specs.Header.{area_start, log_end, max_targets};
ghost use Rattle.fs_layout.specs.declared.header.TheConstants.{MAX_HEADER};
ghost use Rattle.fs_layout.specs.Commit.{AreTargets};
ghost use Rattle.redo_journal.specs.Batch.{IsOnDisk, targets};
ghost use Rattle.redo_journal.specs.States.{header_at, HoldsHeader, HoldsLog, HoldsTargets, HasReplayed, InLog, InTargets};
ghost use Rattle.sector_disk.specs.Disk.{AddsOnly, IsImageOr, IsStable, LeavesOnly, HasCause, HasWriteCause, CountsWrites, sector};

use crate::Batch;
use fs_layout::{Commit, area_start};
use sector_disk::{Disk, DiskFault};

/// Writes the batch into a log area and syncs: so what was written before is stable too.
pub(crate) fn log_batch<D: Disk>(
    disk: &mut D,
    header: u32,
    area: u32,
    batch: &Batch,
) -> Result<(), DiskFault>
    requires most { header ≤ MAX_HEADER }
    requires few { length batch.now.entries ≤ max_targets header }
    requires room { log_end header ≤ (D.state disk.old).size }
    ensures stable { OnOk result (IsStable (D.state disk.new)) }
    ensures header { OnOk result (HoldsHeader (area_start header area) batch.now.entries (D.state disk.new).seen) }
    ensures log { OnOk result (HoldsLog (area_start header area + header) batch.now.entries (D.state disk.new).seen) }
    ensures others { (n : ℕ) → (area_start header area ≤ n → n < area_start header area + 126 + 129 * header → ⊥)
        → sector (D.state disk.new).seen n ≡ sector (D.state disk.old).seen n }
    ensures adds { AddsOnly (InLog header area) (D.state disk.old) (D.state disk.new) }
    ensures any_moment { LeavesOnly (D.state disk.old) (D.state disk.new) (IsImageOr (InLog header area) (D.state disk.old)) }
    ensures cause { HasCause (D.state disk.old) (D.state disk.new) result }
    ensures told { HasWriteCause (D.state disk.old) (D.state disk.new) result }
{
    write_header(disk, header, area, batch)?;
    write_log(disk, header, area, batch)?;
    disk.sync()
}

// Writes the batch's sectors that the commit sector has no room for into the sectors of a log area's header, from the first on.
fn write_header<D: Disk>(
    disk: &mut D,
    header: u32,
    area: u32,
    batch: &Batch,
) -> Result<(), DiskFault>
    requires most { header ≤ MAX_HEADER }
    requires few { length batch.now.entries ≤ max_targets header }
    requires room { log_end header ≤ (D.state disk.old).size }
    ensures written { OnOk result (HoldsHeader (area_start header area) batch.now.entries (D.state disk.new).seen) }
    ensures others { (n : ℕ) → (area_start header area ≤ n → n < area_start header area + header → ⊥)
        → sector (D.state disk.new).seen n ≡ sector (D.state disk.old).seen n }
    ensures adds { AddsOnly (InLog header area) (D.state disk.old) (D.state disk.new) }
    ensures any_moment { LeavesOnly (D.state disk.old) (D.state disk.new) (IsImageOr (InLog header area) (D.state disk.old)) }
    ensures cause { HasCause (D.state disk.old) (D.state disk.new) result }
    ensures told { HasWriteCause (D.state disk.old) (D.state disk.new) result }
{
    let from = area_start(header, area);
    let sectors = batch.sectors();
    for at in 0..Commit::header_sectors_for(sectors.len()) {
        disk.write(from + at as u32, &Commit::header_sector(sectors, at))?;
    }
    Ok(())
}

// Writes the batch's contents into the other sectors of that log area, which lie behind its header, from the first on.
fn write_log<D: Disk>(disk: &mut D, header: u32, area: u32, batch: &Batch) -> Result<(), DiskFault>
    requires most { header ≤ MAX_HEADER }
    requires few { length batch.now.entries ≤ max_targets header }
    requires room { log_end header ≤ (D.state disk.old).size }
    ensures written { OnOk result (HoldsLog (area_start header area + header) batch.now.entries (D.state disk.new).seen) }
    ensures others { (n : ℕ) → (area_start header area + header ≤ n → n < area_start header area + 126 + 129 * header → ⊥)
        → sector (D.state disk.new).seen n ≡ sector (D.state disk.old).seen n }
    ensures adds { AddsOnly (InLog header area) (D.state disk.old) (D.state disk.new) }
    ensures any_moment { LeavesOnly (D.state disk.old) (D.state disk.new) (IsImageOr (InLog header area) (D.state disk.old)) }
    ensures cause { HasCause (D.state disk.old) (D.state disk.new) result }
    ensures told { HasWriteCause (D.state disk.old) (D.state disk.new) result }
{
    let mut at = area_start(header, area) + header;
    for content in batch.contents() {
        disk.write(at, content)?;
        at += 1;
    }
    Ok(())
}

/// Writes the batch's contents to its sectors.
pub(crate) fn write_targets<D: Disk>(disk: &mut D, batch: &Batch) -> Result<(), DiskFault>
    requires { IsOnDisk (header_at (D.state disk.old).seen) (D.state disk.old).size batch.now.entries }
    ensures written { OnOk result (HoldsTargets batch.now.entries (D.state disk.new).seen) }
    ensures others { OnOk result ((n : ℕ) → (Contains (targets batch.now.entries) n → ⊥)
        → sector (D.state disk.new).seen n ≡ sector (D.state disk.old).seen n) }
    ensures adds { AddsOnly (InTargets (targets batch.now.entries)) (D.state disk.old) (D.state disk.new) }
    ensures any_moment { LeavesOnly (D.state disk.old) (D.state disk.new) (IsImageOr (InTargets (targets batch.now.entries))
        (D.state disk.old)) }
    ensures cause { HasCause (D.state disk.old) (D.state disk.new) result }
    ensures told { HasWriteCause (D.state disk.old) (D.state disk.new) result }
{
    for (n, content) in batch.sectors().iter().zip(batch.contents()) {
        disk.write(*n, content)?;
    }
    Ok(())
}

/// Copies the contents in a log area to these sectors, one after the other.
pub(crate) fn copy_log<D: Disk>(
    disk: &mut D,
    header: u32,
    area: u32,
    sectors: &[u32],
) -> Result<(), DiskFault>
    requires most { header ≤ MAX_HEADER }
    requires valid { AreTargets header (D.state disk.old).size sectors.now }
    ensures written { OnOk result (HasReplayed (area_start header area + header) sectors.now (sector (D.state disk.old).seen)
        (D.state disk.new).seen) }
    ensures adds { AddsOnly (InTargets sectors.now) (D.state disk.old) (D.state disk.new) }
    ensures any_moment { LeavesOnly (D.state disk.old) (D.state disk.new) (IsImageOr (InTargets sectors.now) (D.state disk.old)) }
    ensures cause { HasCause (D.state disk.old) (D.state disk.new) result }
    ensures counted { CountsWrites (D.state disk.old) (D.state disk.new) result }
{
    let mut content = [0; 512];
    let mut from = area_start(header, area) + header;
    for target in sectors {
        disk.read(from, &mut content)?;
        disk.write(*target, &content)?;
        from += 1;
    }
    Ok(())
}
