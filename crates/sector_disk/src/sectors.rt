//! Sectors in memory, of which those that are zeros take four bytes each at most.

ghost use Rattle.std.specs.Prelude.{◌≡◌, ◌≢◌, ◌<◌, ◌≤◌, ◌+◌, ◌^◌, ℕ, length, get_or, replicate, slice_set, slice_range, IfOk, IfSome, OnOk, OnErr, IsTrue, ◌↔◌};
ghost use Rattle.sector_disk.specs.Disk.{sector};
ghost use Rattle.sector_disk.specs.Whole.{AreSectors};
ghost use Rattle.sector_disk.specs.Places.{OwnsPlace, IsKept, IsOut, IsRunSet};

use crate::numbers::Numbers;
use crate::whole::tell_whole;
use std::alloc::{AllocError, Global};
use std::marker::Model;
use std::slice::from_ref;

const ZEROS: [u8; 512] = [0; 512];

/// A list of sectors. One of zeros is kept by a number alone, and each other content once: it has a place. One that gets zeros
/// keeps its place until this is let go, so that it can have another content without memory. A contract sees the sectors and
/// their places.
#[derive(Drop)]
pub struct Sectors {
    // For each sector where its content stands.
    places: Numbers,
    // Zeros, and behind them the contents of the sectors that have a place.
    contents: Vec<[u8; 512]>,
    // For each place but the first the sector that has it.
    owners: Vec<u32>,
}

impl Model for Sectors {
    ghost use Rattle.sector_disk.specs.Places.{KeptSectors, sectors_at, IsKept};

    ghost Value = { KeptSectors };

    ghost view = { λ sectors. record { shown = sectors_at sectors.contents.items sectors.places; places = sectors.places } };

    ghost invariant = { λ sectors. IsKept sectors.places sectors.contents.items sectors.owners.items };
}

impl Sectors {
    /// So many sectors of zeros.
    pub fn zeros(alloc: Global, count: u32) -> Result<Self, AllocError>
        ensures { IfOk result (λ sectors. sectors.shown ≡ replicate count (replicate 512 0)) }
    {
        tell_whole(&ZEROS);
        let places = Numbers::zeros(alloc, count)?;
        let mut contents = Vec::new(alloc);
        contents.push(ZEROS)?;
        let mut owners = Vec::new(alloc);
        owners.push(0)?;
        Ok(Sectors {
            places,
            contents,
            owners,
        })
    }

    /// How many there are.
    pub fn len(&self) -> usize
        ensures { result ≡ length self.now.shown }
    {
        self.places.len()
    }

    /// The content of one. Where that isn't zeros, it has a place.
    pub fn get(&self, n: u32) -> &[u8; 512]
        requires { n < length self.now.shown }
        ensures content { result.now ≡ sector self.now.shown n }
        ensures placed { result.now ≢ replicate 512 0 → OwnsPlace self.now n }
    {
        &self.contents[self.places.get(n as usize) as usize]
    }

    /// Gives one another content. Zeros need no memory, nor does one that has a place. Each keeps its place; at `Err` nothing
    /// has changed.
    pub fn set(&mut self, n: u32, content: &[u8; 512]) -> Result<(), AllocError>
        requires { n < length self.old.shown }
        ensures ok { OnOk result (self.new.shown ≡ slice_set self.old.shown n content.now) }
        ensures err { OnErr result (self.new ≡ self.old) }
        ensures keeps { (k : ℕ) → OwnsPlace self.old k → OwnsPlace self.new k }
    {
        if self.places.get(n as usize) != 0 {
            self.replace(n, content);
            return Ok(());
        }
        if may_be_zeros(content) && is_zeros(content) {
            return Ok(());
        }
        self.add(n, content)
    }

    /// Gives one another content for which there is room. One of zeros lets its place go.
    pub fn put(&mut self, n: u32, content: &[u8; 512])
        requires below { n < length self.old.shown }
        requires room { content.now ≢ replicate 512 0 → OwnsPlace self.old n }
        ensures shown { self.new.shown ≡ slice_set self.old.shown n content.now }
        ensures keeps { (k : ℕ) → k ≢ n → OwnsPlace self.old k → OwnsPlace self.new k }
    {
        if *content == ZEROS {
            self.clear(n);
            return;
        }
        self.replace(n, content);
    }

    /// Lets the place of one go that has zeros. One that has no place isn't looked at.
    pub fn release(&mut self, n: u32)
        requires { n < length self.old.shown }
        ensures { self.new.shown ≡ self.old.shown }
    {
        if self.places.get(n as usize) != 0 && may_be_zeros(self.get(n)) {
            self.release_zeros(n);
        }
    }

    // Lets the place of one go, if all its bytes are zeros.
    fn release_zeros(&mut self, n: u32)
        requires { n < length self.old.shown }
        ensures { self.new.shown ≡ self.old.shown }
    {
        if *self.get(n) == ZEROS {
            self.clear(n);
        }
    }

    // Makes one zeros, which has no place then.
    fn clear(&mut self, n: u32)
        requires { n < length self.old.shown }
        ensures shown { self.new.shown ≡ slice_set self.old.shown n (replicate 512 0) }
        ensures keeps { (k : ℕ) → k ≢ n → OwnsPlace self.old k → OwnsPlace self.new k }
    {
        let place = self.places.get(n as usize);
        if place == 0 {
            return;
        }
        take_out(
            &mut self.places,
            &mut self.contents,
            &mut self.owners,
            n,
            place,
        );
    }

    // Gives one that has a place another content.
    fn replace(&mut self, n: u32, content: &[u8; 512])
        requires below { n < length self.old.shown }
        requires placed { OwnsPlace self.old n }
        ensures shown { self.new.shown ≡ slice_set self.old.shown n content.now }
        ensures places { self.new.places ≡ self.old.places }
    {
        tell_whole(content);
        let place = self.places.get(n as usize);
        self.contents[place as usize] = *content;
    }

    // Gives one that has no place a place with this content.
    fn add(&mut self, n: u32, content: &[u8; 512]) -> Result<(), AllocError>
        requires below { n < length self.old.shown }
        requires none { get_or self.old.places n 0 ≡ 0 }
        ensures ok { OnOk result (self.new.shown ≡ slice_set self.old.shown n content.now) }
        ensures err { OnErr result (self.new ≡ self.old) }
        ensures keeps { (k : ℕ) → OwnsPlace self.old k → OwnsPlace self.new k }
    {
        tell_whole(content);
        // There are no more places than sectors.
        let Ok(place) = u32::try_from(self.contents.len()) else {
            return Err(AllocError);
        };
        self.owners.push(n)?;
        if self.contents.extend_from_slice(from_ref(content)).is_err() {
            self.owners.pop();
            return Err(AllocError);
        }
        if let Err(refused) = self.places.add(n as usize, place) {
            self.owners.pop();
            self.contents.pop();
            return Err(refused);
        }
        Ok(())
    }

    /// Gives neighbours from one on these contents. At `Err` some of them may have them.
    pub fn set_run(&mut self, first: u32, run: &[[u8; 512]]) -> Result<(), AllocError>
        requires small { length self.old.shown < 2 ^ 32 }
        requires fits { first + length run.now ≤ length self.old.shown }
        ensures { OnOk result (IsRunSet first run.now self.old.shown self.new.shown) }
    {
        for (i, content) in run.iter().enumerate() {
            self.set(first + i as u32, content)?;
        }
        Ok(())
    }

    /// So many neighbours from one on, where their contents are neighbours too.
    pub fn run(&self, first: u32, len: usize) -> Option<&[[u8; 512]]>
        requires { first + len ≤ length self.now.shown }
        ensures { IfSome result (λ run. run.now ≡ slice_range self.now.shown first (first + len)) }
    {
        if len == 0 {
            return None;
        }
        let start = self.places.get(first as usize) as usize;
        if self.contents.len() - start < len
            || !self.places.are_in_row(first as usize, len, start)
        {
            return None;
        }
        Some(&self.contents[start..start + len])
    }

    /// Copies neighbours from one on.
    pub fn copy_run(&self, first: u32, to: &mut [[u8; 512]])
        requires small { length self.now.shown < 2 ^ 32 }
        requires fits { first + length to.old ≤ length self.now.shown }
        ensures { to.new ≡ slice_range self.now.shown first (first + length to.new) }
    {
        for i in 0..to.len() {
            to[i] = *self.get(first + i as u32);
        }
    }

    /// Does nothing: tells a proof that each sector has 512 bytes.
    pub fn tell_whole(&self)
        ensures { AreSectors self.now.shown }
    {
        let _count = self.places.len();
    }
}

// Takes out the content of a sector that has this place: it has none then. The last content takes the place that becomes free.
fn take_out(
    places: &mut Numbers,
    contents: &mut Vec<[u8; 512]>,
    owners: &mut Vec<u32>,
    n: u32,
    place: u32,
)
    requires kept { IsKept places.old contents.old.items owners.old.items }
    requires below { n < length places.old }
    requires stands { place ≡ get_or places.old n 0 }
    requires some { place ≢ 0 }
    ensures { IsOut n places.old contents.old.items places.new contents.new.items owners.new.items }
{
    let at = place as usize;
    contents.swap_remove(at);
    owners.swap_remove(at);
    places.replace(n as usize, 0);
    if at < owners.len() {
        let moved = owners[at];
        places.replace(moved as usize, place);
    }
}

/// Whether a sector begins and ends as one of zeros does: what most others don't.
pub(crate) fn may_be_zeros(content: &[u8; 512]) -> bool {
    content[0] == 0 && content[511] == 0
}

// Whether all bytes of a sector are zero. Not stopping at the first other byte, it tests many at once.
fn is_zeros(content: &[u8; 512]) -> bool
    ensures { IsTrue result ↔ (content.now ≡ replicate 512 0) }
{
    tell_whole(content);
    let mut zero = true;
    for byte in content {
        zero &= *byte == 0;
    }
    zero
}
