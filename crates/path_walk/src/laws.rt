//! The laws of trees on a disk: each is the contract of a function that changes nothing.
ghost use Rattle.path_walk.specs.Laws.{AccessIsHeld, DirectoriesAreHeld, InodesAreSound, KindsAreHeld, NodesAreHeld, NumbersAreBelow, TargetsAreHeld};

/// Where a disk holds a tree, the inode of each number says what stands there: its kind, of a directory the names and the
/// parent, of a file or a directory what access is decided on, and of a symbolic link the target.
pub fn inodes_say_what_stands()
    ensures numbers { NumbersAreBelow }
    ensures nodes { NodesAreHeld }
    ensures kinds { KindsAreHeld }
    ensures directories { DirectoriesAreHeld }
    ensures access { AccessIsHeld }
    ensures targets { TargetsAreHeld }
    ensures sound { InodesAreSound }
{}
