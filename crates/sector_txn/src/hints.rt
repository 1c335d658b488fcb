//! Numbers that calls leave for later ones.

ghost use Rattle.std.specs.Prelude.{◌≤◌};
ghost use Rattle.fs_layout.specs.declared.header.TheConstants.{MAX_HEADER};

use std::alloc::{AllocError, Global};

// How many hints are kept on a disk without a header,
const HINTS: usize = 16_384;

// and how many more for each sector of the header: a large disk has large directories and bitmaps.
const HINTS_A_HEADER: usize = 4096;

#[derive(Clone, Copy)]
struct Hint {
    key: u64,
    number: u64,
}

/// Numbers under keys, of which nothing is promised. Keys share places: each place has the hint that was left there last.
#[derive(Drop)]
pub(crate) struct Hints {
    places: Vec<Option<Hint>>,
    salt: u64,
}

impl Hints {
    /// No hints, and room for as many as a disk with so many header sectors is given.
    pub(crate) fn new(alloc: Global, header: u32, salt: u64) -> Result<Hints, AllocError>
        requires { header ≤ MAX_HEADER }
    {
        let mut places = Vec::new(alloc);
        places.resize(HINTS + HINTS_A_HEADER * (header as usize), None)?;
        Ok(Hints { places, salt })
    }

    /// What callers make their keys with.
    pub(crate) fn salt(&self) -> u64 {
        self.salt
    }

    // The number of the place of a key.
    fn at(&self, key: u64) -> usize {
        key as usize % self.places.len().max(1)
    }

    /// Leaves a hint under a key.
    pub(crate) fn leave(&mut self, key: u64, number: u64) {
        let at = self.at(key);
        if let Some(place) = self.places.get_mut(at) {
            *place = Some(Hint { key, number });
        }
    }

    /// The hint under a key, if no other has taken its place.
    pub(crate) fn find(&self, key: u64) -> Option<u64> {
        let hint = (*self.places.get(self.at(key))?)?;
        if hint.key != key {
            return None;
        }
        Some(hint.number)
    }
}
