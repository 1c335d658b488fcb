//! The bytes that calls take and give: paths, names, and what files hold.
ghost use Rattle.std.specs.Prelude.{◌≡◌, IfOk};

use std::alloc::{AllocError, Global};
use std::marker::{Model, PhantomData};

/// Bytes, and what they are to a caller. Contracts see a list, whose bytes may be any.
///
/// The role keeps paths, names and contents apart in Rust code; it costs no space.
#[derive(Drop)]
pub struct ByteString<Role> {
    bytes: Vec<u8>,
    role: PhantomData<Role>,
}

/// The role of a path.
pub struct PathRole;

/// The role of a name.
pub struct NameRole;

/// The role of what a file holds.
pub struct ContentRole;

/// A path, or the target of a symbolic link.
pub type Path = ByteString<PathRole>;

/// A name in a directory.
pub type Name = ByteString<NameRole>;

/// Bytes that are read from a file or written to one.
pub type Bytes = ByteString<ContentRole>;

impl<Role> Model for ByteString<Role> {
    ghost use Rattle.std.specs.Prelude.{List, ℕ};
    ghost use Rattle.fs_layout.specs.Bytes.{IsBytes};

    ghost Value = { List ℕ };

    ghost view = { λ b. b.bytes.items };

    ghost invariant = { λ b. IsBytes b.bytes.items };
}

impl<Role> ByteString<Role> {
    ghost use Rattle.fs_layout.specs.Bytes.{IsBytes};

    /// A string of these bytes.
    pub fn new(bytes: Vec<u8>) -> ByteString<Role>
        ensures { result ≡ bytes.items }
    {
        ByteString {
            bytes,
            role: PhantomData,
        }
    }

    /// A copy of these bytes.
    pub fn from_slice(alloc: Global, bytes: &[u8]) -> Result<ByteString<Role>, AllocError>
        ensures { IfOk result (λ made. made ≡ bytes.now) }
    {
        Ok(ByteString::new(Vec::from_slice(alloc, bytes)?))
    }

    /// The bytes.
    pub fn bytes(&self) -> &[u8]
        ensures all { result.now ≡ self.now }
        ensures valid { IsBytes self.now }
    {
        &self.bytes
    }

    /// Gives the bytes back.
    pub fn into_bytes(self) -> Vec<u8>
        ensures { result.items ≡ self }
    {
        self.bytes
    }
}
