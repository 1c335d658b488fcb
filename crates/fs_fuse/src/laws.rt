//! A law of what is served: the contract of a function that does nothing.
ghost use Rattle.fs_fuse.specs.Performing.{ServesHistories};

use sector_disk::Disk;

/// What is carried out for requests on a file system, one event after another, is one history of just what their plans ask.
pub fn what_is_carried_out_is_served<D: Disk>()
    ensures { ServesHistories D.state }
{}
