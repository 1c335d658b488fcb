//! The laws of the file system: each is the contract of a function that does nothing.
ghost use Rattle.fs_system.specs.Laws.{TreesAreSound, SoundDisksAreShown};
ghost use Rattle.fs_system.specs.Histories.{HistoriesAreRuns};
ghost use Rattle.fs_system.specs.Confinement.{IsInOneState, UnreadableBytesDoNotShow};

use sector_disk::Disk;

/// Where each event does what its contract says, a history of events, stops and mounts is a run of the machine, whose
/// trees cover what a stop leaves, and which counts no more faults than the disk.
pub fn histories_are_runs<D: Disk>()
    ensures { HistoriesAreRuns D.state }
{}

/// A disk that stands for a tree is sound: its map is consistent, the bits that are no number's are set, and an inode
/// whose bit is clear is free. A transaction that shows what a sound disk means is as calls on bitmaps, inodes and
/// their bytes ask.
pub fn trees_are_sound<D: Disk>()
    ensures disks { TreesAreSound D.state }
    ensures shown { SoundDisksAreShown D.state }
{}

/// A file system that runs is in one state only: its table of processes is its own, and what its disk reads as stands for one
/// tree.
pub fn a_running_system_is_in_one_state<D: Disk>()
    ensures { IsInOneState D.state }
{}

/// What a process can't see into has no part in what two file systems answer it, each on a disk of its own. Where they are in
/// states alike to the process, and the same call, fsync or exit of it happened on each and failed on neither for want of
/// memory or at the disk, there are states in which they are afterwards. If these have the same inodes in use, and as many free
/// sectors, the replies are equal and the states are alike to it while it is there. Since a file system that runs is in one
/// state only, this says no less than of all states.
pub fn unreadable_bytes_do_not_show<D: Disk, E: Disk>()
    ensures { UnreadableBytesDoNotShow D.state E.state }
{}
