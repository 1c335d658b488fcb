//! Reading a commit, whether it is valid or not.

ghost use Rattle.std.specs.Prelude.{◌≡◌, ◌≤◌, ◌<◌, ◌+◌, ◌*◌, ◌/◌, ◌%◌, ◌↔◌, ℕ, length, get_or, IfOk, OnOk, IsTrue, MatchOption};
ghost use Rattle.fs_layout.specs.Commit.{IsCommit, named_area};
ghost use Rattle.fs_layout.specs.Header.{log_end, max_targets};
ghost use Rattle.fs_layout.specs.Bytes.{u32_of};
ghost use Rattle.fs_layout.specs.declared.commit.TheConstants.{HEADER_TARGETS, MAX_TARGETS};
ghost use Rattle.fs_layout.specs.declared.header.TheConstants.{MAX_HEADER};
ghost use Rattle.fs_layout.specs.declared.header.TheConstants.{LEAST_LOG_END};
ghost use Rattle.redo_journal.specs.Meaning.{HasValidCommit};
ghost use Rattle.redo_journal.specs.States.{HasHeader};
ghost use Rattle.sector_disk.specs.Disk.{sector, Elapses, IsSame, OnlyReads, HasCause};

use fs_layout::{COMMIT_SECTOR, Commit, area_start, log_end};
use sector_disk::{Disk, DiskFault};

/// Reads the commit of a disk whose header has so many sectors, behind the log area that the commit sector names; none where it
/// isn't valid.
///
/// Of the header only those sectors are read that have targets.
pub fn read_commit<D: Disk>(disk: &mut D, header: u32) -> Result<(u32, Option<Commit>), DiskFault>
    requires room { LEAST_LOG_END ≤ (D.state disk.old).size }
    requires header { HasHeader header (D.state disk.old) }
    ensures area { IfOk result (λ found. found.0 ≡ named_area (sector (D.state disk.old).seen)) }
    ensures commit { IfOk result (λ found. MatchOption found.1 (HasValidCommit (D.state disk.old).size (D.state disk.old).seen → ⊥)
        (λ targets. IsCommit (D.state disk.old).size (sector (D.state disk.old).seen) targets)) }
    ensures reads { OnlyReads (D.state disk.old) (D.state disk.new) }
    ensures cause { HasCause (D.state disk.old) (D.state disk.new) result }
{
    let mut content = [0; 512];
    disk.read(COMMIT_SECTOR, &mut content)?;
    let area = Commit::area_in(&content);
    let size = disk.size();
    match Commit::counted(&content, header) {
        None => Ok((area, None)),
        Some(counted) => {
            if !has_log(&counted, header, size) {
                return Ok((area, None));
            }
            let commit = read_targets(disk, header, area_start(header, area), counted)?;
            if commit.is_valid_with(header, size) && commit.is_spelled_by(header, &content) {
                Ok((area, Some(commit)))
            } else {
                Ok((area, None))
            }
        }
    }
}

// A disk of so many sectors has the whole log, or the commit has no targets, and so no header and no contents there.
fn has_log(counted: &Commit, header: u32, size: u32) -> bool
    requires { header ≤ MAX_HEADER }
    ensures { IsTrue result ↔ (0 < length counted.now → log_end header ≤ size) }
{
    if counted.targets().is_empty() {
        return true;
    }
    log_end(header) <= size
}

// Reads the targets of the header too, which begins at sector `from`.
fn read_targets<D: Disk>(
    disk: &mut D,
    header: u32,
    from: u32,
    counted: Commit,
) -> Result<Commit, DiskFault>
    requires most { header ≤ MAX_HEADER }
    requires few { length counted ≤ max_targets header }
    requires room { MAX_TARGETS < length counted → from + header ≤ (D.state disk.old).size }
    ensures count { IfOk result (λ targets. length targets ≡ length counted) }
    ensures first { IfOk result (λ targets. (i : ℕ) → i < MAX_TARGETS → get_or targets i 0 ≡ get_or counted i 0) }
    ensures more { IfOk result (λ targets. (k : ℕ) → MAX_TARGETS + k < length counted
        → u32_of (sector (D.state disk.old).seen (from + k / HEADER_TARGETS)) (4 * (k % HEADER_TARGETS))
        ≡ get_or targets (MAX_TARGETS + k) 0) }
    ensures reads { OnlyReads (D.state disk.old) (D.state disk.new) }
    ensures cause { HasCause (D.state disk.old) (D.state disk.new) result }
{
    let mut commit = counted;
    for at in 0..commit.header_sectors() {
        read_header(disk, from, at, &mut commit)?;
    }
    Ok(commit)
}

// Reads the targets that stand in one header sector.
fn read_header<D: Disk>(
    disk: &mut D,
    from: u32,
    at: usize,
    commit: &mut Commit,
) -> Result<(), DiskFault>
    requires most { at < MAX_HEADER }
    requires room { from + at < (D.state disk.old).size }
    ensures count { length commit.new ≡ length commit.old }
    ensures read { OnOk result ((k : ℕ) → k < HEADER_TARGETS → MAX_TARGETS + HEADER_TARGETS * at + k < length commit.old
        → get_or commit.new (MAX_TARGETS + HEADER_TARGETS * at + k) 0 ≡ u32_of (sector (D.state disk.old).seen (from + at)) (4 * k)) }
    ensures before { (i : ℕ) → i < MAX_TARGETS + HEADER_TARGETS * at → get_or commit.new i 0 ≡ get_or commit.old i 0 }
    ensures same { IsSame (D.state disk.old) (D.state disk.new) }
    ensures time { Elapses (D.state disk.old) (D.state disk.new) }
    ensures quiet { (D.state disk.new).failed_writes ≡ (D.state disk.old).failed_writes }
    ensures cause { HasCause (D.state disk.old) (D.state disk.new) result }
{
    let mut content = [0; 512];
    disk.read(from + at as u32, &mut content)?;
    commit.read_header(at, &content);
    Ok(())
}
