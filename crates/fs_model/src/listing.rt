//! What a directory has, name by name.
ghost use Rattle.std.specs.Prelude.{◌≡◌};

use crate::bytes::Name;
use std::marker::Model;

/// A name, and the number of the inode that it leads to.
#[derive(Drop)]
pub struct Named {
    pub name: Name,
    pub ino: u32,
}

/// Names with inode numbers, in the order in which they are shown. Contracts see a list of pairs.
#[derive(Drop)]
pub struct Listing {
    names: Vec<Named>,
}

impl Model for Listing {
    ghost use Rattle.std.specs.Prelude.{List, ℕ};
    ghost use Rattle.fs_model.specs.Listings.{pairs};

    ghost Value = { List (List ℕ × ℕ) };

    ghost view = { λ listing. pairs listing.names.items };
}

impl Listing {
    ghost use Rattle.fs_model.specs.Listings.{pairs};

    /// The listing of these names.
    pub fn new(names: Vec<Named>) -> Listing
        ensures { result ≡ pairs names.items }
    {
        Listing { names }
    }

    /// The names.
    pub fn names(&self) -> &[Named]
        ensures { pairs result.now ≡ self.now }
    {
        &self.names
    }

    /// Gives the names back.
    pub fn into_names(self) -> Vec<Named>
        ensures { pairs result.items ≡ self }
    {
        self.names
    }
}
