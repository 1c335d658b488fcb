//! Why bytes are not written.

ghost use Rattle.std.specs.Prelude.{◌≡◌};
ghost use Rattle.block_map.specs.Faults.{as_map_fault};
ghost use Rattle.block_map.specs.declared.fault.MapFault.TheVariants.{DiskFault as Device};

use bit_alloc::TakeFault;
use sector_disk::DiskFault;

/// Why what an inode holds can't be changed.
#[derive(Clone, Copy, Debug, PartialEq, Eq)]
pub enum MapFault {
    /// Fewer sectors are free than the call takes.
    Full = 1,
    /// The inode would hold more bytes than a file may on this disk.
    TooBig = 2,
    /// The disk has failed.
    DiskFault = 3,
}

impl From<DiskFault> for MapFault {
    ghost from_gives = { λ _ e. e ≡ Device };

    fn from(_: DiskFault) -> MapFault {
        MapFault::DiskFault
    }
}

impl From<TakeFault> for MapFault {
    ghost from_gives = { λ fault e. e ≡ as_map_fault fault };

    fn from(fault: TakeFault) -> MapFault {
        match fault {
            TakeFault::Full => MapFault::Full,
            TakeFault::DiskFault => MapFault::DiskFault,
        }
    }
}
