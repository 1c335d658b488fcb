//! What waits for its commit.

ghost use Rattle.std.specs.Prelude.{◌≡◌, ◌≤◌, ◌<◌, ◌↔◌, ◌+◌, [], ℕ, length, IfOk, IfSome, IfNone, IsTrue};
ghost use Rattle.fs_layout.specs.Bytes.{SectorMap};
ghost use Rattle.fs_layout.specs.Header.{max_delta, max_targets};
ghost use Rattle.fs_layout.specs.declared.header.TheConstants.{MAX_HEADER};
ghost use Rattle.redo_journal.specs.Batch.{IsOnDisk, added, with_batch};
ghost use Rattle.redo_journal.specs.declared.batch.TheConstants.{MOST_SECTORS};
ghost use Rattle.sector_txn.specs.Waits.{EntriesHavePlaces, with_waiting};

use fs_layout::max_targets;
use redo_journal::{Batch, MOST_SECTORS};
use std::alloc::{AllocError, Global};
use std::mem;

// How many sectors that go to their places alone may wait for each that the log has room for.
const PLACED_FOR_LOGGED: usize = 4;

/// The sectors that were kept since the last commit, in two batches, each in one of both: where it goes was settled when it came.
#[derive(Drop)]
pub(crate) struct Waiting {
    /// What goes to its place alone. The log has no room for so many.
    pub(crate) placed: Box<Batch>,
    /// What goes through the log.
    pub(crate) logged: Box<Batch>,
}

impl Waiting {
    /// Nothing waits. The memory is reserved for as many as a commit of a disk with such a header has.
    pub(crate) fn new(alloc: Global, header: u32) -> Result<Waiting, AllocError>
        requires { header ≤ MAX_HEADER }
        ensures placed { IfOk result (λ waiting. waiting.placed.value.entries ≡ []) }
        ensures logged { IfOk result (λ waiting. waiting.logged.value.entries ≡ []) }
        ensures places { IfOk result (λ waiting. max_delta header ≤ waiting.placed.value.most) }
        ensures log { IfOk result (λ waiting. waiting.logged.value.most ≡ max_targets header) }
    {
        let most = max_targets(header);
        let placed = new_batch(alloc, (PLACED_FOR_LOGGED * most).min(MOST_SECTORS))?;
        let logged = new_batch(alloc, most)?;
        Ok(Waiting { placed, logged })
    }

    /// The content that a sector is to have, if it waits.
    pub(crate) fn get(&self, n: u32) -> Option<&[u8; 512]>
        ensures content { IfSome result (λ content. (sectors : SectorMap) → with_waiting self.now sectors n ≡ content.now) }
        ensures other { IfNone result ((sectors : SectorMap) → with_waiting self.now sectors n ≡ sectors n) }
    {
        match self.logged.get(n) {
            Some(content) => Some(content),
            None => self.placed.get(n),
        }
    }

    /// Nothing waits.
    pub(crate) fn is_empty(&self) -> bool
        ensures { IsTrue result ↔ ((self.now.placed.value.entries ≡ []) × (self.now.logged.value.entries ≡ [])) }
    {
        self.placed.is_empty() && self.logged.is_empty()
    }

    /// Where nothing is to be logged, the first sector that goes to its place is logged too: a commit has a target.
    pub(crate) fn log_some(&mut self)
        requires some { (self.old.placed.value.entries ≡ []) × (self.old.logged.value.entries ≡ []) → ⊥ }
        requires room { 0 < self.old.logged.value.most }
        requires few { length self.old.logged.value.entries ≤ self.old.logged.value.most }
        ensures some { 0 < length self.new.logged.value.entries }
        ensures few { length self.new.logged.value.entries ≤ self.new.logged.value.most }
        ensures most { self.new.logged.value.most ≡ self.old.logged.value.most }
        ensures placed { self.new.placed.value ≡ self.old.placed.value }
        ensures on_disk { (header size : ℕ) → IsOnDisk header size self.old.placed.value.entries
            → IsOnDisk header size self.old.logged.value.entries → IsOnDisk header size self.new.logged.value.entries }
        ensures map { (sectors : SectorMap) (n : ℕ) → with_waiting self.new sectors n ≡ with_waiting self.old sectors n }
    {
        if !self.logged.is_empty() {
            return;
        }
        log_first(&self.placed, &mut self.logged);
    }

    /// What was logged is what the last commit logged, and nothing waits.
    pub(crate) fn hand_over(&mut self, last: &mut Box<Batch>)
        ensures placed { self.new.placed.value.entries ≡ [] }
        ensures logged { self.new.logged.value.entries ≡ [] }
        ensures last { last.new.value ≡ self.old.logged.value }
        ensures most { (self.new.placed.value.most ≡ self.old.placed.value.most) × (self.new.logged.value.most ≡ last.old.value.most) }
    {
        mem::swap(last, &mut self.logged);
        self.placed.clear();
        self.logged.clear();
    }
}

/// A batch without sectors, which has room for so many.
pub(crate) fn new_batch(alloc: Global, most: usize) -> Result<Box<Batch>, AllocError>
    requires { most ≤ MOST_SECTORS }
    ensures empty { IfOk result (λ batch. batch.value.entries ≡ []) }
    ensures most { IfOk result (λ batch. batch.value.most ≡ most) }
{
    Ok(Box::new(alloc, Batch::new(alloc, most)?)?)
}

/// Whether the changes fit beside what waits, whichever of both they come to. Nothing is looked up where they would if all their sectors
/// were new.
pub(crate) fn fits(most: usize, placed: &Batch, logged: &Batch, delta: &Batch) -> bool
    requires { length logged.now.entries ≤ most }
    ensures fits { IsTrue result ↔ (EntriesHavePlaces placed.now delta.now.entries
        × (length logged.now.entries + added logged.now.entries delta.now.entries ≤ most)) }
    ensures empty { length delta.now.entries ≡ 0 → IsTrue result }
{
    if placed.most() < placed.len() + delta.len() {
        return false;
    }
    logged.len() + delta.len() <= most || logged.len() + logged.added_by(delta) <= most
}

// Logs the first of the sectors that go to their places.
fn log_first(placed: &Batch, logged: &mut Batch)
    requires empty { logged.old.entries ≡ [] }
    requires some { 0 < length placed.now.entries }
    requires room { 0 < logged.old.most }
    ensures map { (f : SectorMap) (n : ℕ)
        → with_batch logged.new.entries (with_batch placed.now.entries f) n ≡ with_batch placed.now.entries f n }
    ensures len { length logged.new.entries ≡ 1 }
    ensures on_disk { (header size : ℕ) → IsOnDisk header size placed.now.entries → IsOnDisk header size logged.new.entries }
    ensures most { logged.new.most ≡ logged.old.most }
{
    let n = placed.sectors()[0];
    match placed.get(n) {
        Some(content) => logged.put(n, content),
        None => unreachable!(),
    }
}
