//! Sectors as recovery would leave them, read in a check.

ghost use Rattle.std.specs.Prelude.{◌≡◌, ◌<◌, IfSome, IsTrue, OnOk};
ghost use Rattle.sector_disk.specs.Disk.{EndsInZeros, sector};
ghost use Rattle.fs_check.specs.Checks.{meaning, BeginsWith, Passed, IsNone};

use crate::faults::Checked;
use crate::opening::Opened;
use crate::recovering::{content_of, read_meaning};
use sector_disk::Disk;

/// Reads a sector as recovery would leave it.
pub(crate) fn read_recovered<D: Disk>(
    disk: &mut D,
    opened: &Opened,
    n: u32,
    to: &mut [u8; 512],
) -> Checked<()>
    requires opened { BeginsWith (D.state disk.old) opened.now.geometry opened.now.area opened.now.commit }
    requires on_disk { n < (D.state disk.old).size }
    ensures content { OnOk result (to.new ≡ meaning (D.state disk.old) n) }
    ensures passed { Passed IsNone (D.state disk.old) (D.state disk.new) result }
{
    read_meaning(disk, opened.geometry, opened.area, &opened.commit, n, to)?;
    Ok(())
}

// The sector that has what recovery would leave in sector n.
fn place_of<D: Disk>(_disk: &D, opened: &Opened, n: u32) -> u32
    requires opened { BeginsWith (D.state _disk.now) opened.now.geometry opened.now.area opened.now.commit }
    requires on_disk { n < (D.state _disk.now).size }
    ensures on_disk { result < (D.state _disk.now).size }
    ensures content { meaning (D.state _disk.now) n ≡ sector (D.state _disk.now).seen result }
{
    content_of(opened.geometry.header, opened.area, &opened.commit, n)
}

/// A sector as recovery would leave it, where it stands in memory. A disk needn't have any there.
pub(crate) fn find_recovered<'a, D: Disk>(
    disk: &'a D,
    opened: &Opened,
    n: u32,
) -> Option<&'a [u8; 512]>
    requires opened { BeginsWith (D.state disk.now) opened.now.geometry opened.now.area opened.now.commit }
    requires on_disk { n < (D.state disk.now).size }
    ensures { IfSome result (λ content. content.now ≡ meaning (D.state disk.now) n) }
{
    disk.find(place_of(disk, opened, n))
}

/// Whether it is known without a read that a sector is zeros from byte `first` on as recovery would leave it. A disk needn't know
/// it of any.
pub(crate) fn is_zero_past<D: Disk>(disk: &D, opened: &Opened, n: u32, first: usize) -> bool
    requires opened { BeginsWith (D.state disk.now) opened.now.geometry opened.now.area opened.now.commit }
    requires on_disk { n < (D.state disk.now).size }
    ensures { IsTrue result → EndsInZeros first (meaning (D.state disk.now) n) }
{
    disk.ends_in_zeros(place_of(disk, opened, n), first)
}
