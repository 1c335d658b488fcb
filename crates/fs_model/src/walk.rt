//! How paths are walked, and what a walk finds: path_resolution(7).
use crate::bytes::Name;

/// Whether a walk follows a symbolic link that is the last name of its path. A link before the last name is always
/// followed.
#[derive(Clone, Copy)]
pub enum Form {
    /// The link is followed.
    Follow,
    /// The link is followed only where the path ends in a slash.
    NoFollow,
    /// The link is never followed: the call is for a name in a directory, and the slash is only told of.
    Parent,
}

/// What the last component of a path is.
#[derive(Clone, Copy)]
pub enum Last {
    /// A name other than `.` and `..`.
    Name,
    /// `.`, the directory itself.
    Dot,
    /// `..`, its parent.
    DotDot,
    /// None at all: nothing was looked up.
    Top,
}

/// What a walk finds where nothing refuses it.
#[derive(Drop)]
pub struct Found {
    /// The inode of the directory in which the last name was looked up; of a walk without lookups the one from which it
    /// starts.
    pub dir_ino: u32,
    /// The last name, empty where there is none.
    pub name: Name,
    pub last: Last,
    /// The inode that was found.
    pub ino: Option<u32>,
    /// Whether the path ends in a slash, or the target of a link that was followed as the last name.
    pub slash: bool,
    /// How many lookups were done.
    pub step: usize,
}
