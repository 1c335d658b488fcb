//! What actors have open, by handles.

ghost use Rattle.std.specs.Prelude.{◌≡◌, ◌≢◌, ◌<◌, ◌==◌, ◌⊎◌, ℕ, [], None, OnOk, IfErr};
ghost use Rattle.std.specs.List.{list_any};
ghost use Rattle.std.specs.HashMap.{spare};
ghost use Rattle.std.specs.Ordering.{nat_cmp};
ghost use Rattle.fs_layout.specs.Maps.{get, with_entry, without};
ghost use Rattle.fs_cred.specs.declared.errno.Errno.TheVariants.{ENOMEM};
ghost use Rattle.open_files.specs.Handles.{counted_in, recounted, opened_at, count_of_handle};

use crate::procs::Descriptor;
use fs_cred::Errno;
use slab::Slab;
use std::alloc::Global;
use std::collections::HashMap;
use std::marker::Model;

/// What a handle is for: an inode, and what that was opened for.
#[derive(Drop)]
pub struct Opened {
    pub ino: u32,
    pub read: bool,
    pub write: bool,
    /// Each write goes to the end: `O_APPEND`.
    pub append: bool,
}

impl Model for Opened {
    ghost use Rattle.fs_model.specs.Processes.{Descriptor as OpenFile};

    ghost Value = { OpenFile };

    // Where it is read and written is said anew each time.
    ghost view = { λ o. record { ino = o.ino; offset = 0; read = o.read; write = o.write; append = o.append } };
}

/// What actors have open, by handles.
///
/// A contract sees the handles with what they are for, and for how many more there is memory.
#[derive(Drop)]
pub struct Openings {
    // What handle h is for has the key h.
    slab: Slab<Opened>,
    // How many handles there are for an inode that has any.
    counts: HashMap<u32, usize>,
}

impl Model for Openings {
    ghost use Rattle.std.specs.Prelude.{ℕ};
    ghost use Rattle.slab.specs.Slab.{entries_from};
    ghost use Rattle.fs_model.specs.Processes.{Openings as Handles};
    ghost use Rattle.open_files.specs.Handles.{room_left, AreCounted};

    ghost Value = { Handles × ℕ };

    ghost view = { λ o. (entries_from 0 o.slab.slots, room_left o.slab o.counts) };

    ghost invariant = { λ o. AreCounted (entries_from 0 o.slab.slots) o.counts.entries };
}

// How many handles there are for an inode.
fn count_of(counts: &HashMap<u32, usize>, ino: u32) -> usize
    ensures { result ≡ counted_in counts.now.entries ino }
{
    match counts.get(&ino) {
        Some(count) => *count,
        None => 0,
    }
}

// Sets how many handles there are for an inode, which has some, or for which there is room.
fn set_count(counts: &mut HashMap<u32, usize>, ino: u32, count: usize)
    requires { (0 < spare counts.old) ⊎ (counted_in counts.old.entries ino ≢ 0) }
    ensures { (n : ℕ) → counted_in counts.new.entries n ≡ recounted counts.old.entries ino count n }
{
    if count == 0 {
        let _gone = counts.remove(&ino);
        return;
    }
    let _before = counts.insert(ino, count);
}

impl Openings {
    /// No handle.
    pub fn new(alloc: Global) -> Openings
        ensures { result.0 ≡ [] }
    {
        Openings {
            slab: Slab::new(alloc),
            counts: HashMap::new(alloc),
        }
    }

    /// Reserves memory for one more handle. ENOMEM: there is none.
    pub fn reserve(&mut self) -> Result<(), Errno>
        ensures same { self.new.0 ≡ self.old.0 }
        ensures room { OnOk result (0 < self.new.1) }
        ensures memory { IfErr result (λ errno. errno ≡ ENOMEM) }
    {
        if self.slab.reserve(1).is_err() {
            return Err(Errno::ENOMEM);
        }
        if self.counts.reserve(1).is_err() {
            return Err(Errno::ENOMEM);
        }
        Ok(())
    }

    /// Adds a handle, for which there is memory, and answers its number.
    pub fn open(&mut self, opened: Opened) -> u64
        requires { 0 < self.old.1 }
        ensures unused { get nat_cmp self.old.0 result ≡ None }
        ensures opened { self.new.0 ≡ with_entry nat_cmp self.old.0 result opened }
    {
        let _capacity = self.slab.capacity();
        let ino = opened.ino;
        let count = count_of(&self.counts, ino);
        let key = self.slab.insert_reserved(opened);
        set_count(&mut self.counts, ino, count + 1);
        key as u64
    }

    /// What a handle is for, to be read or written from this offset on. EBADF: there is no such handle.
    pub fn get(&self, handle: u64, offset: u64) -> Result<Descriptor, Errno>
        ensures { result ≡ opened_at self.now.0 handle offset }
    {
        let Some(opened) = self.slab.get(handle as usize) else {
            return Err(Errno::EBADF);
        };
        Ok(Descriptor {
            ino: opened.ino,
            offset,
            read: opened.read,
            write: opened.write,
            append: opened.append,
        })
    }

    /// Takes a handle away, if it is there.
    pub fn close(&mut self, handle: u64)
        ensures { self.new.0 ≡ without nat_cmp self.old.0 handle }
    {
        let Some(opened) = self.slab.try_remove(handle as usize) else {
            return;
        };
        let ino = opened.ino;
        let count = count_of(&self.counts, ino);
        set_count(&mut self.counts, ino, count - 1);
    }

    /// Whether there is a handle for an inode.
    pub fn is_open(&self, ino: u32) -> bool
        ensures { result ≡ list_any (λ d. d.1.ino == ino) self.now.0 }
    {
        count_of(&self.counts, ino) != 0
    }

    // How many handles of this number there are for an inode: one, or none.
    fn own(&self, handle: u64, ino: u32) -> usize
        ensures { result ≡ count_of_handle self.now.0 handle ino }
    {
        let Some(opened) = self.slab.get(handle as usize) else {
            return 0;
        };
        if opened.ino == ino { 1 } else { 0 }
    }

    /// Whether there is a handle other than this one for an inode: whether it stays open after [`Openings::close`].
    pub fn is_open_besides(&self, handle: u64, ino: u32) -> bool
        ensures { result ≡ list_any (λ d. d.1.ino == ino) (without nat_cmp self.now.0 handle) }
    {
        count_of(&self.counts, ino) > self.own(handle, ino)
    }
}
