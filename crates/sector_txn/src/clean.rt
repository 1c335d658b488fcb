//! Sectors as the device reads them, kept in memory.

ghost use Rattle.std.specs.Prelude.{◌≡◌, ◌≢◌, ◌≤◌, ◌<◌, ◌⊎◌, [], ℕ, List, Contains, IsTrue, IfOk, IfSome};
ghost use Rattle.fs_layout.specs.declared.header.TheConstants.{MAX_HEADER};

use lru::LruCache;
use std::alloc::{AllocError, Global};
use std::marker::Model;
use std::num::NonZeroUsize;

// How many sectors are kept on a disk without a header: those that were read last,
const SECTORS: usize = 128;

// and how many more for each sector of the header: a large disk has large directories and bitmaps. Of a disk that finds its sectors in
// memory none are kept here.
const SECTORS_A_HEADER: usize = 128;

/// A cache of sectors. It has none where it found no memory.
#[derive(Drop)]
pub(crate) struct CleanSectors {
    cache: Option<Box<LruCache<u32, [u8; 512]>>>,
}

impl Model for CleanSectors {
    ghost use Rattle.std.specs.Prelude.{ℕ, List};
    ghost use Rattle.sector_txn.specs.Clean.{pairs_of};

    ghost Value = { List (ℕ × List ℕ) };

    ghost view = { λ clean. pairs_of clean.cache };
}

impl CleanSectors {
    /// A cache without sectors, for a disk with so many header sectors.
    pub(crate) fn new(alloc: Global, header: u32) -> CleanSectors
        requires { header ≤ MAX_HEADER }
        ensures { result ≡ [] }
    {
        let most = SECTORS + SECTORS_A_HEADER * (header as usize);
        CleanSectors {
            cache: empty_cache(alloc, most).ok(),
        }
    }

    /// Reads a sector, if it is there.
    pub(crate) fn get(&mut self, n: u32, to: &mut [u8; 512]) -> bool
        ensures found { IsTrue result → Contains self.old (n, to.new) }
        ensures kept { (pair : ℕ × List ℕ) → Contains self.new pair → Contains self.old pair }
    {
        if let Some(cache) = &mut self.cache
            && let Some(content) = cache.get(&n)
        {
            *to = *content;
            return true;
        }
        false
    }

    /// A sector's content where it stands, if it is there. How lately others were read stays: a search goes over many sectors.
    pub(crate) fn find(&self, n: u32) -> Option<&[u8; 512]>
        ensures { IfSome result (λ content. Contains self.now (n, content.now)) }
    {
        if let Some(cache) = &self.cache {
            return cache.peek(&n);
        }
        None
    }

    /// Keeps a sector's content, memory aside.
    pub(crate) fn put(&mut self, n: u32, content: &[u8; 512])
        ensures { (pair : ℕ × List ℕ) → Contains self.new pair → Contains self.old pair ⊎ (pair ≡ (n, content.now)) }
    {
        if let Some(cache) = &mut self.cache {
            let _ = cache.put(n, *content);
        }
    }

    /// Drops a sector.
    pub(crate) fn forget(&mut self, n: u32)
        ensures kept { (pair : ℕ × List ℕ) → Contains self.new pair → Contains self.old pair }
        ensures gone { (content : List ℕ) → Contains self.new (n, content) → ⊥ }
    {
        // The clause of `len` says that no sector is there twice.
        if let Some(cache) = &mut self.cache
            && cache.len() > 0
        {
            let _ = cache.pop(&n);
        }
    }

    /// Drops these sectors.
    pub(crate) fn forget_all(&mut self, sectors: &[u32])
        ensures kept { (pair : ℕ × List ℕ) → Contains self.new pair → Contains self.old pair }
        ensures gone { (pair : ℕ × List ℕ) → Contains self.new pair → Contains sectors.now pair.0 → ⊥ }
    {
        for n in sectors {
            self.forget(*n);
        }
    }
}

// A cache without sectors, which may come to have so many.
fn empty_cache(alloc: Global, most: usize) -> Result<Box<LruCache<u32, [u8; 512]>>, AllocError>
    requires { 0 < most }
    ensures { IfOk result (λ cache. cache.value.entries ≡ []) }
{
    let cache = LruCache::new(alloc, NonZeroUsize::new(most).unwrap())?;
    Ok(Box::new(alloc, cache)?)
}
