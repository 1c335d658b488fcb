//! A finite map from numbers, with room that is reserved, for which the order of its entries doesn't count.
//!
//! An entry comes and goes without moving the others, of which there may be as many as an image has inodes.
ghost use Rattle.std.specs.Prelude.{◌≡◌, ◌+◌, ◌<◌, ◌≤◌, [], option_copied, OnOk};
ghost use Rattle.std.specs.Ordering.{nat_cmp};
ghost use Rattle.fs_layout.specs.Maps.{get, with_entry, without};

use std::alloc::{AllocError, Global};
use std::collections::HashMap;
use std::marker::Model;

/// Values by their keys. Contracts see the entries by rising keys, and for how many more there is memory.
#[derive(Drop)]
pub(crate) struct HashTable<V> {
    entries: HashMap<u64, V>,
}

impl<V> Model for HashTable<V> {
    ghost use Rattle.std.specs.Prelude.{ℕ, List};
    ghost use Rattle.std.specs.HashMap.{spare};
    ghost use Rattle.fuse_state.specs.Tables.{rising};

    ghost Value = { List (ℕ × V) × ℕ };

    ghost view = { λ table. (rising table.entries.entries, spare table.entries) };
}

impl<V: Drop> HashTable<V> {
    /// No entries.
    pub(crate) fn new(alloc: Global) -> HashTable<V>
        ensures { result.0 ≡ [] }
    {
        HashTable {
            entries: HashMap::new(alloc),
        }
    }

    /// Reserves memory for so many more entries.
    pub(crate) fn reserve(&mut self, additional: usize) -> Result<(), AllocError>
        ensures same { self.new.0 ≡ self.old.0 }
        ensures room { OnOk result (additional ≤ self.new.1) }
        ensures kept { self.old.1 ≤ self.new.1 }
    {
        self.entries.reserve(additional)
    }

    /// The value at a key.
    pub(crate) fn get(&self, key: u64) -> Option<&V>
        ensures { option_copied result ≡ get nat_cmp self.now.0 key }
    {
        self.entries.get(&key)
    }

    /// Sets the value at a key.
    pub(crate) fn put(&mut self, key: u64, value: V)
        requires { 0 < self.old.1 }
        ensures put { self.new.0 ≡ with_entry nat_cmp self.old.0 key value }
        ensures room { self.old.1 ≤ self.new.1 + 1 }
    {
        let _before = self.entries.insert(key, value);
    }

    /// Takes away what is at a key.
    pub(crate) fn remove(&mut self, key: u64)
        ensures removed { self.new.0 ≡ without nat_cmp self.old.0 key }
        ensures room { self.old.1 ≤ self.new.1 }
    {
        let _value = self.entries.remove(&key);
    }
}
