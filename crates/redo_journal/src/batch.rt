//! Sectors, and the contents that they are to have.

ghost use Rattle.std.specs.Prelude.{◌≡◌, ◌↔◌, ◌≤◌, ◌<◌, ◌+◌, [], ℕ, List, IsTrue, true, false, length, IfOk, IfSome, IfNone, if◌then◌else◌, nat_eq};
ghost use Rattle.std.specs.Vec.{vec_capacity, vec_len};
ghost use Rattle.fs_layout.specs.declared.header.TheConstants.{LEAST_LOG_END};
ghost use Rattle.fs_layout.specs.Bytes.{SectorMap};
ghost use Rattle.fs_layout.specs.Header.{log_end};
ghost use Rattle.fs_layout.specs.InodeChanges.{Puts};
ghost use Rattle.indexmap.specs.IndexSet.{contains, index_set_len, insert_index, insert_key, spare};
ghost use Rattle.redo_journal.specs.Batch.{IsBatch, IsOnDisk, targets, contents, added, put_entry, has_entry, with_batch, with_content};

use indexmap::IndexSet;
use std::alloc::{AllocError, Global};
use std::marker::Model;
use std::slice::from_ref;

// How many marks a batch has: as many as the largest has sectors, so that few of its sectors share one.
const MARKS: usize = 16_384;

/// The most sectors that a batch has room for: more than any commit logs, since some of a commit's sectors may go to their places alone.
pub const MOST_SECTORS: usize = 16384;

/// A map from sectors behind the log to contents, for one commit.
///
/// It finds a sector by hash, and keeps the sectors in the order of the log. It holds as many sectors as it was made for, and their
/// memory is reserved then: no later call takes any. A contract sees it as the list of its entries, in that order, and that number.
#[derive(Drop)]
pub struct Batch {
    // The sectors, each with its place in the log.
    sectors: IndexSet<u32>,

    // What they are to have, in that order; behind them stands what is no part of the batch, but was of an earlier one.
    contents: Vec<[u8; 512]>,

    // How many sectors it has room for.
    most: usize,

    // A mark for each sector, which others may share: most that aren't there are told without a hash.
    marks: [bool; MARKS],
}

impl Model for Batch {
    ghost use Rattle.std.specs.List.{zip};
    ghost use Rattle.std.specs.Vec.{vec_capacity};
    ghost use Rattle.indexmap.specs.IndexSet.{spare};
    ghost use Rattle.redo_journal.specs.Batch.{BatchView, HasPlaces};
    ghost use Rattle.redo_journal.specs.Marks.{AreMarked};

    ghost Value = { BatchView };

    ghost view = { λ b. record { entries = zip b.sectors.keys b.contents.items; most = b.most } };

    ghost invariant = { λ b. HasPlaces b.most b.sectors.keys b.contents.items (spare b.sectors) (vec_capacity b.contents)
        × AreMarked b.sectors.keys b.marks };
}

// The place of a sector that isn't there, which it then has: behind all others.
fn add_sector(sectors: &mut IndexSet<u32>, n: u32) -> usize
    requires absent { contains nat_eq sectors.old n ≡ false }
    requires room { 0 < spare sectors.old }
    ensures place { result ≡ insert_index nat_eq sectors.old n }
    ensures within { result < index_set_len sectors.new }
    ensures sectors { sectors.new.keys ≡ insert_key nat_eq sectors.old.keys n }
    ensures room { index_set_len sectors.old + spare sectors.old ≤ index_set_len sectors.new + spare sectors.new }
{
    match sectors.insert_full(n) {
        Ok((at, _)) => at,
        Err(_) => unreachable!(),
    }
}

// The sector's place: the one that it has, or else the next one, which it then has. A sector without a mark isn't looked for. One that
// is there is not inserted again, since that might take from the room.
fn index_for(sectors: &mut IndexSet<u32>, marked: bool, n: u32) -> usize
    requires unmarked { marked ≡ false → contains nat_eq sectors.old n ≡ false }
    requires room { contains nat_eq sectors.old n ≡ false → 0 < spare sectors.old }
    ensures place { result ≡ insert_index nat_eq sectors.old n }
    ensures within { result < index_set_len sectors.new }
    ensures sectors { sectors.new.keys ≡ insert_key nat_eq sectors.old.keys n }
    ensures room { index_set_len sectors.old + spare sectors.old ≤ index_set_len sectors.new + spare sectors.new }
{
    if !marked {
        return add_sector(sectors, n);
    }
    match sectors.get_index_of(&n) {
        Some(at) => at,
        None => add_sector(sectors, n),
    }
}

// Gives the content this place, or one behind all others, for which there is room.
fn set_content(contents: &mut Vec<[u8; 512]>, at: usize, from: &[u8; 512])
    requires within { at ≤ vec_len contents.old }
    requires room { at < vec_capacity contents.old }
    ensures contents { contents.new.items ≡ with_content contents.old.items at from.now }
    ensures reserved { vec_capacity contents.old ≤ vec_capacity contents.new }
{
    if at < contents.len() {
        contents[at] = *from;
        return;
    }
    match contents.extend_from_slice(from_ref(from)) {
        Ok(()) => {}
        Err(_) => unreachable!(),
    }
}

// Takes the marks of these sectors away, and of no others: a batch of few sectors is cleared at little cost, however many it has room
// for.
fn unmark(marks: &mut [bool; MARKS], sectors: &[u32]) {
    for n in sectors {
        marks[*n as usize % MARKS] = false;
    }
}

impl Batch {
    /// A batch without sectors, which has room for so many.
    pub fn new(alloc: Global, most: usize) -> Result<Batch, AllocError>
        requires { most ≤ MOST_SECTORS }
        ensures empty { IfOk result (λ batch. batch.entries ≡ []) }
        ensures most { IfOk result (λ batch. batch.most ≡ most) }
        ensures on_disk { IfOk result (λ batch. (header size : ℕ) → IsOnDisk header size batch.entries) }
    {
        Ok(Batch {
            sectors: IndexSet::with_capacity(alloc, most)?,
            contents: Vec::with_capacity(alloc, most)?,
            most,
            marks: [false; MARKS],
        })
    }

    /// Sets the content for a sector. A new sector goes last.
    pub fn put(&mut self, n: u32, from: &[u8; 512])
        requires part { LEAST_LOG_END ≤ n }
        requires room { has_entry self.old.entries n ≡ false → length self.old.entries < self.old.most }
        ensures put { self.new.entries ≡ put_entry self.old.entries n from.now }
        ensures most { self.new.most ≡ self.old.most }
        ensures map { (sectors : SectorMap) → Puts n from.now (with_batch self.old.entries sectors) (with_batch self.new.entries sectors) }
        ensures len { length self.new.entries
            ≡ (if has_entry self.old.entries n then length self.old.entries else length self.old.entries + 1) }
        ensures on_disk { (header size : ℕ) → log_end header ≤ n → n < size → IsOnDisk header size self.old.entries
            → IsOnDisk header size self.new.entries }
    {
        let marked = self.marks[n as usize % MARKS];
        let at = index_for(&mut self.sectors, marked, n);
        set_content(&mut self.contents, at, from);
        self.marks[n as usize % MARKS] = true;
    }

    /// The content for a sector, if the batch has one.
    pub fn get(&self, n: u32) -> Option<&[u8; 512]>
        ensures found { IfSome result (λ content. has_entry self.now.entries n ≡ true) }
        ensures content { IfSome result (λ content. (sectors : SectorMap) → with_batch self.now.entries sectors n ≡ content.now) }
        ensures none { IfNone result (has_entry self.now.entries n ≡ false) }
        ensures other { IfNone result ((sectors : SectorMap) → with_batch self.now.entries sectors n ≡ sectors n) }
    {
        if !self.marks[n as usize % MARKS] {
            return None;
        }
        let at = self.sectors.get_index_of(&n)?;
        Some(&self.contents[at])
    }

    // The batch has a content for the sector.
    fn has(&self, n: u32) -> bool
        ensures { result ≡ has_entry self.now.entries n }
    {
        self.sectors.contains(&n)
    }

    /// How many sectors it has.
    pub fn len(&self) -> usize
        ensures len { result ≡ length self.now.entries }
        ensures batch { IsBatch self.now.entries }
    {
        self.sectors.len()
    }

    /// How many sectors it has room for.
    pub fn most(&self) -> usize
        ensures most { result ≡ self.now.most }
        ensures few { length self.now.entries ≤ result }
    {
        self.most
    }

    /// The batch has no sectors.
    pub fn is_empty(&self) -> bool
        ensures { IsTrue result ↔ (self.now.entries ≡ []) }
    {
        self.sectors.is_empty()
    }

    /// Takes all sectors out. The memory stays reserved.
    pub fn clear(&mut self)
        ensures empty { self.new.entries ≡ [] }
        ensures most { self.new.most ≡ self.old.most }
        ensures on_disk { (header size : ℕ) → IsOnDisk header size self.new.entries }
    {
        if self.is_empty() {
            return;
        }
        unmark(&mut self.marks, self.sectors.as_slice());
        self.sectors.truncate(0);
    }

    /// The sectors, in the order of the log.
    pub fn sectors(&self) -> &[u32]
        ensures sectors { result.now ≡ targets self.now.entries }
        ensures batch { IsBatch self.now.entries }
    {
        self.sectors.as_slice()
    }

    /// The sectors' contents, in the order of the log.
    pub(crate) fn contents(&self) -> &[[u8; 512]]
        ensures contents { result.now ≡ contents self.now.entries }
        ensures batch { IsBatch self.now.entries }
    {
        &self.contents[..self.sectors.len()]
    }

    /// How many of the other's sectors this batch doesn't have.
    pub fn added_by(&self, other: &Batch) -> usize
        ensures { result ≡ added self.now.entries other.now.entries }
    {
        other.sectors().iter().filter(|n| !self.has(**n)).count()
    }

    /// Takes the other's contents for the other's sectors.
    pub fn absorb(&mut self, other: &Batch)
        requires room { length self.old.entries + added self.old.entries other.now.entries ≤ self.old.most }
        ensures most { self.new.most ≡ self.old.most }
        ensures map { (sectors : SectorMap) (n : ℕ) → with_batch self.new.entries sectors n
            ≡ with_batch other.now.entries (with_batch self.old.entries sectors) n }
        ensures len { length self.new.entries ≡ length self.old.entries + added self.old.entries other.now.entries }
        ensures on_disk { (header size : ℕ) → IsOnDisk header size self.old.entries → IsOnDisk header size other.now.entries
            → IsOnDisk header size self.new.entries }
    {
        for (n, content) in other.sectors().iter().zip(other.contents()) {
            self.put(*n, content);
        }
    }
}
