//! What was done to a disk in memory since it was last stopped.

ghost use Rattle.std.specs.Prelude.{◌≡◌, ◌⊎◌, ◌^◌, ◌<◌, ◌+◌, ◌++◌, [], ◌∷◌, drop, length, ℕ, ◌≤◌, Contains, slice_index_or, slice_range, IfSome, OnOk, OnErr};
ghost use Rattle.sector_disk.specs.Disk.{sector};
ghost use Rattle.sector_disk.specs.Record.{Written, Synced, after_events, replay, since_sync, Leaves, MayHold};
ghost use Rattle.sector_disk.specs.Picks.{IsPicked};
ghost use Rattle.sector_disk.specs.Steps.{held_before, CanPutBack, replaced_of, writes_sector};

use crate::sectors::{Sectors, may_be_zeros};
use std::alloc::{AllocError, Global};
use std::marker::Model;

// What was done to a disk, so that it can be undone.
#[derive(Clone, Copy)]
enum Step {
    // A sector got another content in place of this one, or may have got it.
    Replaced(u32, [u8; 512]),
    // What was done before it became stable.
    Settled,
}

impl Step {
    // Whether it is a write of this sector.
    fn writes(&self, n: usize) -> bool
        ensures { result ≡ writes_sector self.now n }
    {
        match self {
            Step::Replaced(k, _) => *k as usize == n,
            Step::Settled => false,
        }
    }
}

/// What was there at first, and what was done since. A contract sees just these two, as a `Past`: what was there at first, and
/// at the last sync, is what reads give but for what was replaced since.
#[derive(Drop)]
pub struct History {
    // What reads give.
    seen: Sectors,
    done: Vec<Step>,
    // How many steps there are up to the last sync.
    synced: usize,
    // Whether a sector may have got zeros since then: no other has a place to let go of.
    may_have_zeros: bool,
}

impl Model for History {
    ghost use Rattle.sector_disk.specs.Record.{Past};

    ghost Value = { Past };

    ghost use Rattle.sector_disk.specs.Steps.{past_of, IsRecord};

    ghost view = { λ history. past_of history.seen.shown history.done.items };

    ghost invariant = { λ history. IsRecord history.seen history.done.items history.synced };
}

impl History {
    /// Nothing was done yet to these sectors.
    pub fn new(alloc: Global, sectors: Sectors) -> Self
        requires { length sectors.shown < 2 ^ 32 }
        ensures { result ≡ record { start = sectors.shown; events = [] } }
    {
        History {
            seen: sectors,
            done: Vec::new(alloc),
            synced: 0,
            may_have_zeros: false,
        }
    }

    /// The number of sectors.
    pub fn len(&self) -> u32
        ensures { result ≡ length self.now.start }
    {
        self.seen.len() as u32
    }

    /// What a read gives.
    pub fn get(&self, n: u32) -> &[u8; 512]
        requires { n < length self.now.start }
        ensures { result.now ≡ sector (after_events self.now.start self.now.events) n }
    {
        self.seen.get(n)
    }

    /// What reads of so many neighbours from one on give, where their contents are neighbours too.
    pub fn run(&self, first: u32, len: usize) -> Option<&[[u8; 512]]>
        requires { first + len ≤ length self.now.start }
        ensures { IfSome result (λ run. run.now ≡ slice_range (after_events self.now.start self.now.events) first (first + len)) }
    {
        self.seen.run(first, len)
    }

    /// What reads of neighbours from one on give.
    pub fn copy_run(&self, first: u32, to: &mut [[u8; 512]])
        requires { first + length to.old ≤ length self.now.start }
        ensures { to.new ≡ slice_range (after_events self.now.start self.now.events) first (first + length to.new) }
    {
        self.seen.copy_run(first, to);
    }

    /// Records a write; at `Err` nothing has changed.
    pub fn write(&mut self, n: u32, content: &[u8; 512]) -> Result<(), AllocError>
        requires { n < length self.old.start }
        ensures ok { OnOk result (self.new ≡ record self.old { events = self.old.events ++ Written n content.now ∷ [] }) }
        ensures err { OnErr result (self.new ≡ self.old) }
    {
        self.done
            .extend_from_slice(&[Step::Replaced(n, *self.seen.get(n))])?;
        if self.seen.set(n, content).is_err() {
            self.done.pop();
            return Err(AllocError);
        }
        self.may_have_zeros = self.may_have_zeros | may_be_zeros(content);
        Ok(())
    }

    /// Records a sync; at `Err` nothing has changed.
    pub fn sync(&mut self) -> Result<(), AllocError>
        ensures ok { OnOk result (self.new ≡ record self.old { events = self.old.events ++ Synced ∷ [] }) }
        ensures err { OnErr result (self.new ≡ self.old) }
    {
        self.done.push(Step::Settled)?;
        release_places(
            &mut self.seen,
            &self.done[self.synced..],
            self.may_have_zeros,
        );
        self.may_have_zeros = false;
        self.synced = self.done.len();
        Ok(())
    }

    /// Forgets what came before the last sync.
    pub fn forget(&mut self)
        ensures { self.new ≡ since_sync self.old }
    {
        drop_first(&mut self.done, self.synced);
        self.synced = 0;
    }

    /// Forgets the past but for one image that a stop may leave: over the sectors with pending writes, in rising
    /// order, the next byte of `choice` picks one of the contents. That needs no memory, so that what is picked is what is
    /// there.
    pub fn stop(&mut self, choice: &[u8])
        ensures picked { IsPicked (replay self.old.start self.old.events) choice.now self.new.start }
        ensures image { Leaves (length self.old.start) (replay self.old.start self.old.events) self.new.start }
        ensures events { self.new.events ≡ [] }
    {
        pick(&mut self.seen, &self.done[self.synced..], choice);
        self.done.clear();
        self.synced = 0;
    }
}

// Drops so many steps, the first ones. The others alone are moved, and that only where some are dropped.
fn drop_first(done: &mut Vec<Step>, count: usize)
    requires { count ≤ length done.old.items }
    ensures { done.new.items ≡ drop count done.old.items }
{
    if count == 0 {
        return;
    }
    let others = done.len() - count;
    done.copy_within(count.., 0);
    done.truncate(others);
}

// Lets go of the places that sectors of zeros had, so that the steps could be undone without memory. Where none may have zeros none
// is looked at.
fn release_places(image: &mut Sectors, pending: &[Step], may_have_zeros: bool)
    requires { CanPutBack image.old pending.now }
    ensures { image.new.shown ≡ image.old.shown }
{
    if !may_have_zeros {
        return;
    }
    for step in pending {
        if let Step::Replaced(n, _) = step {
            image.release(*n);
        }
    }
}

// Picks one of the contents of each sector: that before the steps, or one that it got in them.
fn pick(image: &mut Sectors, pending: &[Step], choice: &[u8])
    requires small { length image.old.shown < 2 ^ 32 }
    requires room { CanPutBack image.old pending.now }
    ensures picked { IsPicked (held_before image.old.shown pending.now) choice.now image.new.shown }
    ensures each { (n : ℕ) → n < length image.old.shown → MayHold (held_before image.old.shown pending.now) n (sector image.new.shown n) }
{
    let mut picked = 0;
    for n in 0..image.len() {
        let count = count_writes(pending, n);
        if count > 0 {
            let number = byte_at(choice, picked) as usize % (count + 1);
            picked += 1;
            let content = replaced_content(pending, n, number, image.get(n as u32));
            image.put(n as u32, &content);
        }
    }
}

// A byte of a choice, which is 0 past its end.
fn byte_at(choice: &[u8], at: usize) -> u8
    ensures { result ≡ slice_index_or choice.now at 0 }
{
    choice.get(at).copied().unwrap_or(0)
}

// How many of the steps write a sector.
fn count_writes(pending: &[Step], n: usize) -> usize
    ensures count { result ≡ length (replaced_of pending.now n) }
    ensures few { result ≤ length pending.now }
{
    let mut count = 0;
    for step in pending {
        if step.writes(n) {
            count += 1;
        }
    }
    count
}

// The content that the write of this number, counted from 0, replaced in a sector; where there are no more, the one that it has.
fn replaced_content(pending: &[Step], n: usize, number: usize, last: &[u8; 512]) -> [u8; 512]
    requires { number ≤ length (replaced_of pending.now n) }
    ensures content { result ≡ slice_index_or (replaced_of pending.now n ++ last.now ∷ []) number [] }
    ensures one { (result ≡ last.now) ⊎ Contains pending.now (Step.Replaced n result) }
{
    let mut before = number;
    for step in pending {
        if let Step::Replaced(k, content) = step {
            if *k as usize == n {
                if before == 0 {
                    return *content;
                }
                before -= 1;
            }
        }
    }
    *last
}
