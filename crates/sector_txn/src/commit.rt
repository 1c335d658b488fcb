//! When the commit of what waits is due.

ghost use Rattle.std.specs.Prelude.{◌≡◌, ◌≤◌, length, Ok, IfOk};
ghost use Rattle.fs_layout.specs.Header.{max_delta};
ghost use Rattle.redo_journal.specs.Meaning.{SameMap, data_of, disk_of};
ghost use Rattle.redo_journal.specs.States.{header_at};
ghost use Rattle.sector_disk.specs.Disk.{HasCause, HasWriteCause};
ghost use Rattle.sector_txn.specs.Images.{LeavesOldOr, LogsAll};
ghost use Rattle.sector_txn.specs.Stores.{all_waiting};
ghost use Rattle.sector_txn.specs.Waits.{Waits, EntriesHavePlaces, EntriesHaveRoom, with_waiting};

use crate::cached::CachedJournal;
use crate::waiting::{Waiting, fits};
use fs_layout::max_targets;
use redo_journal::{Batch, Broken};
use sector_disk::Disk;

/// Commits what waits, where the changes wouldn't fit beside it: all of it, before they are kept.
pub(crate) fn commit_if_full<D: Disk>(
    journal: CachedJournal<D>,
    waiting: &mut Waiting,
    delta: &Batch,
) -> Result<CachedJournal<D>, Broken<D>>
    requires waits { Waits (D.state journal) waiting.old }
    requires few { length delta.now.entries ≤ max_delta (header_at (D.state journal).seen) }
    ensures waits { IfOk result (λ after. Waits (D.state after) waiting.new) }
    ensures places { IfOk result (λ after. EntriesHavePlaces waiting.new.placed.value delta.now.entries) }
    ensures room { IfOk result (λ after. EntriesHaveRoom waiting.new.logged.value delta.now.entries) }

    // Where nothing goes to its place alone, it is due once the log has no room.
    ensures due { length waiting.old.placed.value.entries ≡ 0
        → EntriesHaveRoom waiting.old.logged.value delta.now.entries → result ≡ Ok journal }

    // The header stays.
    ensures header { IfOk result (λ after. header_at (D.state after).seen ≡ header_at (D.state journal).seen) }

    // What was to be read stays so.
    ensures same { IfOk result (λ after. SameMap (with_waiting waiting.new (data_of (D.state after)))
        (with_waiting waiting.old (data_of (D.state journal)))) }

    ensures images { LeavesOldOr (with_waiting waiting.old (data_of (D.state journal))) (D.state journal) (D.state (disk_of result)) }

    // Where the log has one area all that waits goes through it.
    ensures alone { header_at (D.state journal).seen ≡ 0
        → LogsAll (all_waiting waiting.old.placed.value.entries waiting.old.logged.value.entries) (D.state journal) (D.state (disk_of result)) }

    // Without changes the disk isn't called.
    ensures empty { length delta.now.entries ≡ 0 → result ≡ Ok journal }

    ensures cause { HasCause (D.state journal) (D.state (disk_of result)) result }
    ensures told { HasWriteCause (D.state journal) (D.state (disk_of result)) result }
{
    journal.tell_ready();
    let most = max_targets(journal.header());
    if fits(most, &waiting.placed, &waiting.logged, delta) {
        return Ok(journal);
    }
    journal.commit(waiting)
}
