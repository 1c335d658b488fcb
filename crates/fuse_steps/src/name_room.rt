//! Room for names, which is asked for before any of them is known.
ghost use Rattle.std.specs.Prelude.{◌≡◌, ◌+◌, ◌≤◌, length, IfOk};
ghost use Rattle.fuse_plans.specs.ListingPlans.{longest_name};

use fs_model::Path;
use std::alloc::{AllocError, Global};
use std::marker::Model;

/// A name has so many bytes at most.
pub const LONGEST_NAME: usize = 255;

/// Room for names. Contracts see for how many.
#[derive(Drop)]
pub struct NameRoom {
    alloc: Global,
    spares: Vec<Vec<u8>>,
}

impl Model for NameRoom {
    ghost use Rattle.std.specs.Prelude.{ℕ, ◌≤◌, length, All, vec_capacity};
    ghost use Rattle.fuse_plans.specs.ListingPlans.{longest_name};

    ghost Value = { ℕ };

    ghost view = { λ room. length room.spares.items };

    ghost invariant = { λ room. All (λ v. longest_name ≤ vec_capacity v) room.spares.items };
}

impl NameRoom {
    /// Room for so many names.
    pub fn new(alloc: Global, count: usize) -> Result<NameRoom, AllocError>
        ensures { IfOk result (λ room. room ≡ count) }
    {
        let mut spares = Vec::with_capacity(alloc, count)?;
        for _round in 0..count {
            spares.push(Vec::with_capacity(alloc, LONGEST_NAME)?)?;
        }
        Ok(NameRoom { alloc, spares })
    }

    /// A copy of a name, in memory of its length; where that is refused, in the room for one. Room that were cut to the length of
    /// a name would leave gaps which no other name fits into.
    pub fn copy(&mut self, name: &[u8]) -> Path
        requires room { 1 ≤ self.old }
        requires short { length name.now ≤ longest_name }
        ensures name { result ≡ name.now }
        ensures room { self.old ≤ self.new + 1 }
    {
        if let Ok(copy) = Path::from_slice(self.alloc, name) {
            return copy;
        }
        let Some(mut bytes) = self.spares.pop() else {
            unreachable!()
        };
        bytes.clear();
        let Ok(()) = bytes.extend_from_slice(name) else {
            unreachable!()
        };
        Path::new(bytes)
    }
}
