//! Why bytes are not a value of the layout.

/// What is wrong with bytes: the first of these that holds, in this order. Each structure has some of them.
#[derive(Clone, Copy, Debug, PartialEq, Eq)]
pub enum LayoutFault {
    /// The bytes do not begin as the structure does.
    BadMagic,
    /// There is no such version of the layout.
    BadVersion,
    /// There is no such kind of inode.
    BadKind,
    /// A count, a mode, a size or a name is out of range.
    BadNumber,
    /// A byte past the fields, or between them, is not zero.
    NotZero,
}
