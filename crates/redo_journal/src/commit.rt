//! The steps of a commit, and what images mean while they run.

ghost use Rattle.std.specs.Prelude.{◌≡◌, ◌≤◌, ℕ, List, length, ◌<◌, IsOk, IfOk, OnOk};
ghost use Rattle.fs_layout.specs.Commit.{named_area, commit_bytes_in};
ghost use Rattle.fs_layout.specs.declared.commit.TheConstants.{MAX_LOG_SECTORS};
ghost use Rattle.fs_layout.specs.Header.{max_targets};
ghost use Rattle.redo_journal.specs.Batch.{IsOnDisk, targets, with_batch};
ghost use Rattle.redo_journal.specs.Meaning.{data_of, EachReadsAs, LeavesSameMap, LeavesAllOrNone};
ghost use Rattle.redo_journal.specs.States.{next_at, log_at, HasHeader, HasNext, HoldsLog, IsAtRest, IsIdle, IsReady, IsLogged, IsSealed, IsInstalled, StandsIn};
ghost use Rattle.sector_disk.specs.Disk.{sector, HasCause, HasWriteCause, CountsWrites};

use crate::Batch;
use crate::steps::{copy_log, log_batch, write_targets};
use fs_layout::{COMMIT_SECTOR, Commit, other_area};
use sector_disk::{Disk, DiskFault, write_synced};

/// Writes the batch into a log area and syncs. Each image reads as before.
pub(crate) fn log_only<D: Disk>(
    disk: &mut D,
    header: u32,
    area: u32,
    batch: &Batch,
) -> Result<(), DiskFault>
    requires ready { IsReady (D.state disk.old) }
    requires header { HasHeader header (D.state disk.old) }
    requires next { HasNext area (D.state disk.old) }
    requires few { length batch.now.entries ≤ max_targets header }
    requires on_disk { IsOnDisk header (D.state disk.old).size batch.now.entries }
    ensures logged { OnOk result (IsLogged batch.now.entries (D.state disk.new)) }
    ensures next { OnOk result (HasNext area (D.state disk.new)) }
    ensures any_moment { LeavesSameMap (D.state disk.old) (D.state disk.new) }
    ensures empty { length batch.now.entries ≡ 0 → IsOk result × (disk.new ≡ disk.old) }
    ensures size { (D.state disk.new).size ≡ (D.state disk.old).size }
    ensures cause { HasCause (D.state disk.old) (D.state disk.new) result }
    ensures told { HasWriteCause (D.state disk.old) (D.state disk.new) result }
{
    if batch.sectors().is_empty() {
        return Ok(());
    }
    log_batch(disk, header, area, batch)
}

/// Writes the commit sector and syncs. Each image reads as before, or with the whole batch. It answers the area of the next commit.
pub(crate) fn seal_batch<D: Disk>(
    disk: &mut D,
    header: u32,
    area: u32,
    batch: &Batch,
) -> Result<u32, DiskFault>
    requires logged { IsLogged batch.now.entries (D.state disk.old) }
    requires header { HasHeader header (D.state disk.old) }
    requires next { HasNext area (D.state disk.old) }
    ensures sealed { OnOk result (IsSealed batch.now.entries (D.state disk.new)) }
    ensures next { IfOk result (λ next. HasNext next (D.state disk.new)) }
    ensures lasting { OnOk result (EachReadsAs (with_batch batch.now.entries (data_of (D.state disk.old))) (D.state disk.new)) }
    ensures any_moment { LeavesAllOrNone batch.now.entries (D.state disk.old) (D.state disk.new) }
    ensures empty { length batch.now.entries ≡ 0 → IsOk result × (disk.new ≡ disk.old) }
    ensures size { (D.state disk.new).size ≡ (D.state disk.old).size }
    ensures cause { HasCause (D.state disk.old) (D.state disk.new) result }
    ensures told { HasWriteCause (D.state disk.old) (D.state disk.new) result }
{
    if batch.is_empty() {
        return Ok(area);
    }
    write_synced(disk, COMMIT_SECTOR, &commit_sector(area, batch))?;
    Ok(other_area(header, area))
}

/// Writes the batch's sectors. Where the log has one area it then syncs, takes the commit away, and syncs. Each image reads as
/// before.
pub(crate) fn install_batch<D: Disk>(
    disk: &mut D,
    header: u32,
    batch: &Batch,
) -> Result<(), DiskFault>
    requires sealed { IsSealed batch.now.entries (D.state disk.old) }
    requires header { HasHeader header (D.state disk.old) }
    ensures ready { OnOk result (IsReady (D.state disk.new)) }
    ensures next { OnOk result (next_at (D.state disk.new).seen ≡ next_at (D.state disk.old).seen) }
    ensures stands { 0 < length batch.now.entries → OnOk result (StandsIn (targets batch.now.entries) (D.state disk.new)) }
    ensures any_moment { LeavesSameMap (D.state disk.old) (D.state disk.new) }
    ensures empty { length batch.now.entries ≡ 0 → IsOk result × (disk.new ≡ disk.old) }
    ensures size { (D.state disk.new).size ≡ (D.state disk.old).size }
    ensures cause { HasCause (D.state disk.old) (D.state disk.new) result }
    ensures told { HasWriteCause (D.state disk.old) (D.state disk.new) result }
{
    if batch.is_empty() {
        return Ok(());
    }
    if header == 0 {
        put_in_place(disk, batch)?;
        return clear_commit(disk);
    }
    write_targets(disk, batch)
}

// Writes the batch's contents to its sectors and syncs. The commit stays.
fn put_in_place<D: Disk>(disk: &mut D, batch: &Batch) -> Result<(), DiskFault>
    requires rest { IsAtRest (targets batch.now.entries) (D.state disk.old) }
    requires log { HoldsLog (log_at (D.state disk.old).seen) batch.now.entries (D.state disk.old).seen }
    ensures installed { OnOk result (IsInstalled (targets batch.now.entries) (D.state disk.new)) }
    ensures any_moment { LeavesSameMap (D.state disk.old) (D.state disk.new) }
    ensures size { (D.state disk.new).size ≡ (D.state disk.old).size }
    ensures cause { HasCause (D.state disk.old) (D.state disk.new) result }
    ensures told { HasWriteCause (D.state disk.old) (D.state disk.new) result }
{
    write_targets(disk, batch)?;
    disk.sync()
}

/// Writes the log's contents to the commit's sectors and syncs, and takes the commit away and syncs. Each image reads as
/// before.
pub(crate) fn install_log<D: Disk>(
    disk: &mut D,
    header: u32,
    area: u32,
    sectors: &[u32],
) -> Result<(), DiskFault>
    requires rest { IsAtRest sectors.now (D.state disk.old) }
    requires header { HasHeader header (D.state disk.old) }
    requires area { area ≡ named_area (sector (D.state disk.old).seen) }
    ensures idle { OnOk result (IsIdle (D.state disk.new)) }
    ensures any_moment { LeavesSameMap (D.state disk.old) (D.state disk.new) }
    ensures size { (D.state disk.new).size ≡ (D.state disk.old).size }
    ensures cause { HasCause (D.state disk.old) (D.state disk.new) result }
    ensures counted { CountsWrites (D.state disk.old) (D.state disk.new) result }
{
    if sectors.is_empty() {
        return Ok(());
    }
    replay(disk, header, area, sectors)?;
    clear_commit(disk)
}

// Writes the log's contents to the commit's sectors and syncs. The commit stays.
fn replay<D: Disk>(disk: &mut D, header: u32, area: u32, sectors: &[u32]) -> Result<(), DiskFault>
    requires rest { IsAtRest sectors.now (D.state disk.old) }
    requires header { HasHeader header (D.state disk.old) }
    requires area { area ≡ named_area (sector (D.state disk.old).seen) }
    ensures installed { OnOk result (IsInstalled sectors.now (D.state disk.new)) }
    ensures any_moment { LeavesSameMap (D.state disk.old) (D.state disk.new) }
    ensures size { (D.state disk.new).size ≡ (D.state disk.old).size }
    ensures cause { HasCause (D.state disk.old) (D.state disk.new) result }
    ensures counted { CountsWrites (D.state disk.old) (D.state disk.new) result }
{
    copy_log(disk, header, area, sectors)?;
    disk.sync()
}

/// Syncs, takes the commit away, and syncs. Each image reads as before.
pub(crate) fn settle_commit<D: Disk>(disk: &mut D) -> Result<(), DiskFault>
    requires { IsReady (D.state disk.old) }
    ensures any_moment { LeavesSameMap (D.state disk.old) (D.state disk.new) }
    ensures idle { OnOk result (IsIdle (D.state disk.new)) }
    ensures size { (D.state disk.new).size ≡ (D.state disk.old).size }
    ensures cause { HasCause (D.state disk.old) (D.state disk.new) result }
    ensures told { HasWriteCause (D.state disk.old) (D.state disk.new) result }
{
    disk.sync()?;
    clear_commit(disk)
}

// Takes the commit away and syncs.
fn clear_commit<D: Disk>(disk: &mut D) -> Result<(), DiskFault>
    requires { (sectors : List ℕ) × IsInstalled sectors (D.state disk.old) }
    ensures idle { OnOk result (IsIdle (D.state disk.new)) }
    ensures any_moment { LeavesSameMap (D.state disk.old) (D.state disk.new) }
    ensures size { (D.state disk.new).size ≡ (D.state disk.old).size }
    ensures cause { HasCause (D.state disk.old) (D.state disk.new) result }
    ensures told { HasWriteCause (D.state disk.old) (D.state disk.new) result }
{
    write_synced(disk, COMMIT_SECTOR, &Commit::sector_with(0, &[]))
}

// The content of a commit sector that names the batch's sectors.
fn commit_sector(area: u32, batch: &Batch) -> [u8; 512]
    requires area { area ≤ 1 }
    requires few { length batch.now.entries ≤ MAX_LOG_SECTORS }
    ensures { result ≡ commit_bytes_in area (targets batch.now.entries) }
{
    Commit::sector_with(area, batch.sectors())
}
