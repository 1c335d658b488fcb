//! Sectors that nothing reads yet are written to their places while a batch is logged, and one sync makes both stable.

ghost use Rattle.std.specs.Prelude.{◌≡◌, ◌≤◌, ◌<◌, ℕ, length, All, Contains, IfOk, IsTrue, OnOk, ◌+◌};
ghost use Rattle.fs_layout.specs.Header.{max_targets};
ghost use Rattle.redo_journal.specs.Batch.{IsOnDisk, added, targets, with_batch};
ghost use Rattle.fs_layout.specs.Bytes.{SectorMap};
ghost use Rattle.redo_journal.specs.Meaning.{HasLayout, IsSpare, SameMap, data_of, disk_of, LeavesAllOrNone, LeavesMapBut, LeavesUsedOr};
ghost use Rattle.redo_journal.specs.States.{header_at, HasHeader, HasNext, IsBeside, IsNoTarget, IsReady, IsLogged, StandsIn};
ghost use Rattle.sector_disk.specs.Disk.{HasCause, HasWriteCause};

use crate::steps::{log_batch, write_targets};
use crate::{Batch, Broken, Journal};
use fs_layout::Geometry;
use sector_disk::{Disk, DiskFault};

/// Writes one batch to its sectors and another into a log area, and syncs. Each image reads as before, but for the sectors of
/// the first batch; of those none is a target of the commit that stands.
pub(crate) fn log_beside<D: Disk>(
    disk: &mut D,
    header: u32,
    area: u32,
    placed: &Batch,
    batch: &Batch,
) -> Result<(), DiskFault>
    requires ready { IsReady (D.state disk.old) }
    requires header { HasHeader header (D.state disk.old) }
    requires next { HasNext area (D.state disk.old) }
    requires some { 0 < length batch.now.entries }
    requires few { length batch.now.entries ≤ max_targets header }
    requires on_disk { IsOnDisk header (D.state disk.old).size batch.now.entries }
    requires places { IsOnDisk (header_at (D.state disk.old).seen) (D.state disk.old).size placed.now.entries }
    requires beside { IsBeside (targets placed.now.entries) (D.state disk.old) }
    ensures logged { OnOk result (IsLogged batch.now.entries (D.state disk.new)) }
    ensures placed { OnOk result (SameMap (data_of (D.state disk.new)) (with_batch placed.now.entries (data_of (D.state disk.old)))) }
    ensures next { OnOk result (HasNext area (D.state disk.new)) }
    ensures any_moment { LeavesMapBut (Contains (targets placed.now.entries)) (D.state disk.old) (D.state disk.new) }
    ensures size { (D.state disk.new).size ≡ (D.state disk.old).size }
    ensures cause { HasCause (D.state disk.old) (D.state disk.new) result }
    ensures told { HasWriteCause (D.state disk.old) (D.state disk.new) result }
{
    // Its clause tells a proof what each batch is.
    let _count = batch.len();
    write_targets(disk, placed)?;
    log_batch(disk, header, area, batch)
}

/// Commits two batches as one: the contents of the first are written once, to their places, which are free until then, and
/// those of the second go through the log.
pub fn commit_beside<D: Disk>(
    journal: Journal<D>,
    placed: &Batch,
    batch: &Batch,
) -> Result<Journal<D>, Broken<D>>
    requires some { 0 < length batch.now.entries }
    requires on_disk { IsOnDisk (header_at (D.state journal).seen) (D.state journal).size batch.now.entries }
    requires few { length batch.now.entries ≤ max_targets (header_at (D.state journal).seen) }
    requires places { IsOnDisk (header_at (D.state journal).seen) (D.state journal).size placed.now.entries }
    requires spare { (n : ℕ) → Contains (targets placed.now.entries) n → IsSpare (data_of (D.state journal)) n }
    requires beside { IsBeside (targets placed.now.entries) (D.state journal) }

    ensures changed { IfOk result (λ after. SameMap (data_of (D.state after))
        (with_batch batch.now.entries (with_batch placed.now.entries (data_of (D.state journal))))) }

    // A stop at any moment of the call leaves what means as before it, but in sectors that are free, or reads with both batches.
    ensures images { LeavesUsedOr (with_batch batch.now.entries (with_batch placed.now.entries (data_of (D.state journal))))
        (D.state journal) (D.state (disk_of result)) }

    // With an empty first batch it leaves what reads as before it, or with the whole second one, in sectors that are free too.
    ensures none_placed { length placed.now.entries ≡ 0
        → LeavesAllOrNone batch.now.entries (D.state journal) (D.state (disk_of result)) }

    // It is the second batch's commit that stands then, or none.
    ensures stands { IfOk result (λ after. StandsIn (targets batch.now.entries) (D.state after)) }

    ensures size { (D.state (disk_of result)).size ≡ (D.state journal).size }
    ensures cause { HasCause (D.state journal) (D.state (disk_of result)) result }
    ensures told { HasWriteCause (D.state journal) (D.state (disk_of result)) result }
{
    journal.tell_ready();
    match journal.log_beside(placed, batch) {
        Ok(logged) => match logged.seal(batch) {
            Ok(sealed) => sealed.install(batch),
            Err(broken) => Err(broken),
        },
        Err(broken) => Err(broken),
    }
}

// Whether a sector goes to its place alone: it does where it did already, or where it is free in what the disk reads as and no
// sector of `last`.
fn is_placed<D: Disk>(
    journal: &Journal<D>,
    geometry: Geometry,
    last: &Batch,
    placed: &Batch,
    n: u32,
) -> bool
    requires layout { HasLayout (data_of (D.state journal.now)) geometry }
    requires fits { geometry.sectors ≤ (D.state journal.now).size }
    requires stands { StandsIn (targets last.now.entries) (D.state journal.now) }
    requires spare { All (IsSpare (data_of (D.state journal.now))) (targets placed.now.entries) }
    requires beside { All (IsNoTarget (D.state journal.now)) (targets placed.now.entries) }
    ensures spare { IsTrue result → IsSpare (data_of (D.state journal.now)) n }
    ensures beside { IsTrue result → IsNoTarget (D.state journal.now) n }
{
    if placed.get(n).is_some() {
        return true;
    }
    journal.is_spare(geometry, n) && last.get(n).is_none()
}

/// Takes a batch's contents into two others, which are to be committed as one. A sector that one of both has stays there. Of the
/// rest, what is free in what the disk reads as goes into `placed`, but for the sectors of `last`, and all else into `logged`.
pub fn absorb_beside<D: Disk>(
    journal: &Journal<D>,
    geometry: Geometry,
    last: &Batch,
    batch: &Batch,
    placed: &mut Batch,
    logged: &mut Batch,
)
    requires layout { HasLayout (data_of (D.state journal.now)) geometry }
    requires fits { geometry.sectors ≤ (D.state journal.now).size }
    requires stands { StandsIn (targets last.now.entries) (D.state journal.now) }
    requires spare { All (IsSpare (data_of (D.state journal.now))) (targets placed.old.entries) }
    requires beside { All (IsNoTarget (D.state journal.now)) (targets placed.old.entries) }
    requires places { length placed.old.entries + length batch.now.entries ≤ placed.old.most }
    requires room { length logged.old.entries + added logged.old.entries batch.now.entries ≤ logged.old.most }
    ensures map { (f : SectorMap) (n : ℕ) → with_batch logged.new.entries (with_batch placed.new.entries f) n
        ≡ with_batch batch.now.entries (with_batch logged.old.entries (with_batch placed.old.entries f)) n }
    ensures spare { All (IsSpare (data_of (D.state journal.now))) (targets placed.new.entries) }
    ensures beside { All (IsNoTarget (D.state journal.now)) (targets placed.new.entries) }
    ensures few { length logged.new.entries ≤ length logged.old.entries + added logged.old.entries batch.now.entries }
    ensures on_disk { (header size : ℕ) → IsOnDisk header size placed.old.entries → IsOnDisk header size logged.old.entries
        → IsOnDisk header size batch.now.entries → IsOnDisk header size placed.new.entries × IsOnDisk header size logged.new.entries }
    ensures most { (placed.new.most ≡ placed.old.most) × (logged.new.most ≡ logged.old.most) }
{
    for (n, content) in batch.sectors().iter().zip(batch.contents()) {
        if logged.get(*n).is_none() && is_placed(journal, geometry, last, placed, *n) {
            placed.put(*n, content);
        } else {
            logged.put(*n, content);
        }
    }
}
