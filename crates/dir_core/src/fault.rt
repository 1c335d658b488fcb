//! Why a name isn't found, added or removed.

ghost use Rattle.std.specs.Prelude.{◌≡◌};
ghost use Rattle.dir_core.specs.Faults.{as_dir_fault};
ghost use Rattle.dir_core.specs.declared.fault.DirFault.TheVariants.{DiskFault as Device};

use block_map::MapFault;
use sector_disk::DiskFault;

/// Why a call on the names of a directory fails.
#[derive(Clone, Copy, Debug, PartialEq, Eq)]
pub enum DirFault {
    /// The directory has [`fs_layout::Version::max_names`] names, or fewer sectors are free than one more name takes.
    Full = 1,
    /// The name is there.
    Exists = 2,
    /// The name isn't there.
    Absent = 3,
    /// The disk has failed.
    DiskFault = 4,
    /// Memory ran out.
    OutOfMemory = 5,
}

impl From<DiskFault> for DirFault {
    ghost from_gives = { λ _ e. e ≡ Device };

    fn from(_: DiskFault) -> DirFault {
        DirFault::DiskFault
    }
}

impl From<MapFault> for DirFault {
    ghost from_gives = { λ fault e. e ≡ as_dir_fault fault };

    fn from(fault: MapFault) -> DirFault {
        match fault {
            MapFault::Full => DirFault::Full,
            // A directory of as many bytes as the version allows has all the names that it can have.
            MapFault::TooBig => DirFault::Full,
            MapFault::DiskFault => DirFault::DiskFault,
        }
    }
}
