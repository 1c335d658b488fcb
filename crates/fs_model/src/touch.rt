//! Which times of a node a change moves.

/// The times of a node that move to the present.
#[derive(Clone, Copy)]
pub enum Touch {
    /// None.
    Untouched,
    /// The time of its last change.
    Changed,
    /// That, and the time at which its bytes or names were modified.
    Modified,
    /// All three, as of a node that is made.
    Born,
}
