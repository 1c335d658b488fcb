//! A finite map from numbers, with room that is reserved.
//!
//! The entries stand in one `Vec` in the order of their keys, so all of them can be gone over. A
//! [`HashTable`](crate::hash_table::HashTable) gives none but those that are asked for, and `BTreeMap` reserves no room.
ghost use Rattle.std.specs.Prelude.{◌≡◌, ◌+◌, ◌<◌, ◌≤◌, [], option_copied, OnOk, MatchResult};
ghost use Rattle.std.specs.Ordering.{nat_cmp};
ghost use Rattle.fs_layout.specs.Maps.{get, with_entry, without, IsMap};
ghost use Rattle.fuse_state.specs.Tables.{IsAt, IsGap};

use std::alloc::{AllocError, Global};
use std::marker::Model;

/// Values by their keys. Contracts see the entries, the keys rising, and for how many more there is memory.
#[derive(Drop)]
pub(crate) struct Table<V> {
    entries: Vec<(u64, V)>,
}

impl<V> Model for Table<V> {
    ghost use Rattle.std.specs.Prelude.{ℕ, List, ◌-◌, vec_len, vec_capacity};
    ghost use Rattle.std.specs.Ordering.{nat_cmp};
    ghost use Rattle.fs_layout.specs.Maps.{IsMap};

    ghost Value = { List (ℕ × V) × ℕ };

    ghost view = { λ table. (table.entries.items, vec_capacity table.entries - vec_len table.entries) };

    ghost invariant = { λ table. IsMap nat_cmp table.entries.items };
}

impl<V: Drop> Table<V> {
    /// No entries.
    pub(crate) fn new(alloc: Global) -> Table<V>
        ensures { result.0 ≡ [] }
    {
        Table {
            entries: Vec::new(alloc),
        }
    }

    /// Reserves memory for so many more entries.
    pub(crate) fn reserve(&mut self, additional: usize) -> Result<(), AllocError>
        ensures same { self.new.0 ≡ self.old.0 }
        ensures room { OnOk result (additional ≤ self.new.1) }
        ensures kept { self.old.1 ≤ self.new.1 }
    {
        self.entries.reserve(additional)
    }

    /// The value at a key.
    pub(crate) fn get(&self, key: u64) -> Option<&V>
        ensures { option_copied result ≡ get nat_cmp self.now.0 key }
    {
        match place_of(&self.entries, key) {
            Ok(at) => Some(&self.entries[at].1),
            Err(_) => None,
        }
    }

    /// Sets the value at a key.
    pub(crate) fn put(&mut self, key: u64, value: V)
        requires { 0 < self.old.1 }
        ensures put { self.new.0 ≡ with_entry nat_cmp self.old.0 key value }
        ensures room { self.old.1 ≤ self.new.1 + 1 }
    {
        match place_of(&self.entries, key) {
            Ok(at) => self.entries[at] = (key, value),
            Err(at) => {
                let _placed = self.entries.insert(at, (key, value));
            }
        }
    }

    /// Takes away what is at a key.
    pub(crate) fn remove(&mut self, key: u64)
        ensures removed { self.new.0 ≡ without nat_cmp self.old.0 key }
        ensures room { self.old.1 ≤ self.new.1 }
    {
        if let Ok(at) = place_of(&self.entries, key) {
            let _entry = self.entries.remove(at);
        }
    }

    /// The entries, their keys rising.
    pub(crate) fn entries(&self) -> &[(u64, V)]
        ensures all { result.now ≡ self.now.0 }
        ensures rising { IsMap nat_cmp self.now.0 }
    {
        &self.entries
    }
}

// The place of a key among rising keys, or where it would stand.
fn place_of<V>(entries: &[(u64, V)], key: u64) -> Result<usize, usize>
    requires { IsMap nat_cmp entries.now }
    ensures { MatchResult result (IsAt entries.now key) (IsGap nat_cmp entries.now key) }
{
    entries.binary_search_by_key(&key, |entry| entry.0)
}
