//! Whose an object is.

/// A user and a group.
#[derive(Clone, Copy, PartialEq, Eq)]
pub(crate) struct Owner {
    pub(crate) user: u32,
    pub(crate) group: u32,
}

/// The user and the group that all objects are to have; without one each has its own.
#[derive(Clone, Copy)]
pub struct Given {
    pub user: Option<u32>,
    pub group: Option<u32>,
}
