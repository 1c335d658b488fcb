//! What a stop has left is settled before a journal is there.

ghost use Rattle.std.specs.Prelude.{◌≡◌, ◌≤◌, ◌<◌, ℕ, List, IfOk, IfErr, OnOk, IsErrOf, MatchOption};
ghost use Rattle.fs_layout.specs.Commit.{IsCommit, named_area};
ghost use Rattle.fs_layout.specs.declared.header.TheConstants.{LEAST_LOG_END};
ghost use Rattle.redo_journal.specs.declared.open.OpenFault.TheVariants.{DiskFault as Device};
ghost use Rattle.redo_journal.specs.Meaning.{SameMap, data_of, disk_opened, HasValidCommit, MeansAs, MeansAsBefore};
ghost use Rattle.redo_journal.specs.States.{HasHeader, IsIdle};
ghost use Rattle.sector_disk.specs.Disk.{sector, IsStable, LeavesOnly, OnlyReads, HasFailed, HasCause, CountsWrites};

use crate::Journal;
use crate::commit::install_log;
use crate::reads::read_commit;
use fs_layout::{Commit, header_of};
use sector_disk::{Disk, DiskFault};

/// Why a disk has no journal.
#[derive(Clone, Copy, Debug, PartialEq, Eq)]
pub enum OpenFault {
    /// The disk has failed.
    DiskFault,
    /// Sector 1 isn't a commit sector of a disk of this size.
    BadCommitSector,
}

impl From<DiskFault> for OpenFault {
    ghost from_gives = { λ _ e. e ≡ Device };

    fn from(_: DiskFault) -> OpenFault {
        OpenFault::DiskFault
    }
}

impl<D: Disk> Journal<D> {
    /// Settles what a stop has left: a batch whose commit is there is written to its sectors.
    ///
    /// An error gives the disk back. It may be opened again.
    pub fn open(disk: D) -> Result<Journal<D>, (OpenFault, D)>
        requires { LEAST_LOG_END ≤ (D.state disk).size }

        ensures same { SameMap (data_of (D.state (disk_opened result))) (data_of (D.state disk)) }

        // A stop at any moment of the call leaves what means the same as an image from before it.
        ensures any_moment { LeavesOnly (D.state disk) (D.state (disk_opened result)) (MeansAsBefore (D.state disk)) }
        ensures size { (D.state (disk_opened result)).size ≡ (D.state disk).size }

        // But for faults, the commit sector alone decides.
        ensures valid { IfOk result (λ _. HasValidCommit (D.state disk).size (D.state disk).seen) }
        ensures invalid { IfErr result (λ e. e.0 ≡ OpenFault.BadCommitSector → HasValidCommit (D.state disk).size (D.state disk).seen → ⊥) }
        ensures later { (D.state disk).failures ≤ (D.state (disk_opened result)).failures }
        ensures cause { IfErr result (λ e. e.0 ≡ OpenFault.DiskFault → HasFailed (D.state disk) (D.state e.1)) }
        ensures counted { CountsWrites (D.state disk) (D.state (disk_opened result)) result }
    {
        let mut disk = disk;
        match settle(&mut disk) {
            Ok(header) => Ok(Journal::on(disk, header)),
            Err(fault) => Err((fault, disk)),
        }
    }
}

// Syncs and recovers.
fn settle<D: Disk>(disk: &mut D) -> Result<u32, OpenFault>
    requires { LEAST_LOG_END ≤ (D.state disk.old).size }
    ensures idle { OnOk result (IsIdle (D.state disk.new)) }
    ensures header { IfOk result (λ header. HasHeader header (D.state disk.new)) }
    ensures any_moment { LeavesOnly (D.state disk.old) (D.state disk.new) (MeansAsBefore (D.state disk.old)) }
    ensures same { SameMap (data_of (D.state disk.new)) (data_of (D.state disk.old)) }
    ensures size { (D.state disk.new).size ≡ (D.state disk.old).size }
    ensures valid { OnOk result (HasValidCommit (D.state disk.old).size (D.state disk.old).seen) }
    ensures invalid { IsErrOf result OpenFault.BadCommitSector → HasValidCommit (D.state disk.old).size (D.state disk.old).seen → ⊥ }
    ensures later { (D.state disk.old).failures ≤ (D.state disk.new).failures }
    ensures cause { IsErrOf result OpenFault.DiskFault → HasFailed (D.state disk.old) (D.state disk.new) }
    ensures counted { CountsWrites (D.state disk.old) (D.state disk.new) result }
{
    disk.sync()?;
    recover(disk)
}

// Writes the batch of a commit to its sectors, from the log, and takes the commit away. It answers how many sectors the header has.
fn recover<D: Disk>(disk: &mut D) -> Result<u32, OpenFault>
    requires room { LEAST_LOG_END ≤ (D.state disk.old).size }
    requires stable { IsStable (D.state disk.old) }
    ensures idle { OnOk result (IsIdle (D.state disk.new)) }
    ensures header { IfOk result (λ header. HasHeader header (D.state disk.new)) }
    ensures any_moment { LeavesOnly (D.state disk.old) (D.state disk.new) (MeansAs (D.state disk.old).size (D.state disk.old).seen) }
    ensures size { (D.state disk.new).size ≡ (D.state disk.old).size }
    ensures valid { OnOk result (HasValidCommit (D.state disk.old).size (D.state disk.old).seen) }
    ensures invalid { IsErrOf result OpenFault.BadCommitSector → HasValidCommit (D.state disk.old).size (D.state disk.old).seen → ⊥ }
    ensures later { (D.state disk.old).failures ≤ (D.state disk.new).failures }
    ensures cause { IsErrOf result OpenFault.DiskFault → HasFailed (D.state disk.old) (D.state disk.new) }
    ensures counted { CountsWrites (D.state disk.old) (D.state disk.new) result }
{
    let (header, area, found) = find_commit(disk)?;
    match found {
        None => Err(OpenFault::BadCommitSector),
        Some(commit) => {
            install_log(disk, header, area, commit.targets())?;
            Ok(header)
        }
    }
}

// How many sectors the header has, the log area that the commit sector names, and the commit, if it is valid.
fn find_commit<D: Disk>(disk: &mut D) -> Result<(u32, u32, Option<Commit>), DiskFault>
    requires room { LEAST_LOG_END ≤ (D.state disk.old).size }
    ensures header { IfOk result (λ found. HasHeader found.0 (D.state disk.old)) }
    ensures area { IfOk result (λ found. found.1 ≡ named_area (sector (D.state disk.old).seen)) }
    ensures commit { IfOk result (λ found. MatchOption found.2 (HasValidCommit (D.state disk.old).size (D.state disk.old).seen → ⊥)
        (λ targets. IsCommit (D.state disk.old).size (sector (D.state disk.old).seen) targets)) }
    ensures reads { OnlyReads (D.state disk.old) (D.state disk.new) }
    ensures cause { HasCause (D.state disk.old) (D.state disk.new) result }
{
    let mut content = [0; 512];
    disk.read(0, &mut content)?;
    let header = header_of(&content);
    let (area, commit) = read_commit(disk, header)?;
    Ok((header, area, commit))
}
