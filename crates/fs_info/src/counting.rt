//! How many bits of a bitmap are clear.

ghost use Rattle.std.specs.Prelude.{◌≡◌, ◌<◌, ◌≤◌, ◌+◌, ◌-◌, ◌/◌, ◌%◌, ℕ, OnOk, IfOk};
ghost use Rattle.fs_layout.specs.Bytes.{SectorMap};
ghost use Rattle.fs_layout.specs.Images.{bit};
ghost use Rattle.fs_check.specs.Checks.{meaning, BeginsWith};
ghost use Rattle.sector_disk.specs.Disk.{OnlyReads, HasCause};
ghost use Rattle.fs_info.specs.Infos.{clear_bits};

use crate::opening::Opened;
use fs_check::read_meaning;
use fs_layout::SECTOR_BITS;
use sector_disk::{Disk, DiskFault};

// Bit n of a bitmap; `map` is its sector that has the bit.
fn has_bit(map: &[u8; 512], n: u32) -> bool
    ensures { (m : SectorMap) (start : ℕ) → map.now ≡ m (start + n / 4096) → result ≡ bit m start n }
{
    let byte = map[(n % SECTOR_BITS / 8) as usize];
    byte >> (n % 8) & 1 == 1
}

// The sector of the bitmap that begins at `start`, in which bit n stands, after bit n - 1 was read if that isn't below `from`: `map` has
// it then, unless it is another sector.
fn read_map<D: Disk>(
    disk: &mut D,
    opened: &Opened,
    start: u32,
    from: u32,
    n: u32,
    map: &mut [u8; 512],
) -> Result<(), DiskFault>
    requires opened { BeginsWith (D.state disk.old) opened.now.geometry opened.now.area opened.now.commit }
    requires on_disk { start + n / 4096 < (D.state disk.old).size }
    requires kept { from < n → map.old ≡ meaning (D.state disk.old) (start + (n - 1) / 4096) }
    ensures map { OnOk result (map.new ≡ meaning (D.state disk.old) (start + n / 4096)) }
    ensures reads { OnlyReads (D.state disk.old) (D.state disk.new) }
    ensures cause { HasCause (D.state disk.old) (D.state disk.new) result }
{
    if from < n && n % SECTOR_BITS != 0 {
        return Ok(());
    }
    let sector = start + n / SECTOR_BITS;
    read_meaning(
        disk,
        opened.geometry,
        opened.area,
        &opened.commit,
        sector,
        map,
    )
}

/// How many bits are clear of those from one up to another, in the bitmap that begins at a sector, as recovery would leave it.
pub(crate) fn count_clear<D: Disk>(
    disk: &mut D,
    opened: &Opened,
    start: u32,
    from: u32,
    to: u32,
) -> Result<u32, DiskFault>
    requires opened { BeginsWith (D.state disk.old) opened.now.geometry opened.now.area opened.now.commit }
    requires order { from ≤ to }
    requires on_disk { (n : ℕ) → n < to → start + n / 4096 < (D.state disk.old).size }
    ensures count { IfOk result (λ k. k ≡ clear_bits (meaning (D.state disk.old)) start from (to - from)) }
    ensures reads { OnlyReads (D.state disk.old) (D.state disk.new) }
    ensures cause { HasCause (D.state disk.old) (D.state disk.new) result }
{
    let mut map = [0; 512];
    let mut free = 0;
    for n in from..to {
        read_map(disk, opened, start, from, n, &mut map)?;
        if !has_bit(&map, n) {
            free += 1;
        }
    }
    Ok(free)
}
