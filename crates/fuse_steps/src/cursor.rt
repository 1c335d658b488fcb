//! Where names stand in listings of a directory: by the names alone, so that whoever lists it goes on by the same offsets.
ghost use Rattle.std.specs.Prelude.{◌≡◌, ◌+◌, ◌<◌, ◌≤◌, ◌^◌, drop, length};
ghost use Rattle.fuse_plans.specs.ListingOrder.{listing_place, compare_listed, in_order, offset_behind, with_offsets, behind};

use fs_model::{Listing, Named};
use std::cmp::Ordering;
use std::hash::{DefaultHasher, Hasher};

// Where a name stands. Users pick names, and would soon find some to which a weaker hash gives one number.
fn listing_place(name: &[u8]) -> u64
    ensures place { result ≡ listing_place name.now }
    ensures small { result < 2 ^ 63 }
{
    if name == b".".as_slice() {
        return 1;
    }
    if name == b"..".as_slice() {
        return 2;
    }
    let mut hasher = DefaultHasher::new();
    hasher.write(name);
    3 + hasher.finish() / 4
}

// Which comes first in a listing.
fn compare(one: &Named, other: &Named) -> Ordering
    ensures { let a = one.now in let b = other.now in result ≡ compare_listed (a.name, a.ino) (b.name, b.ino) }
{
    let (name, other_name) = (one.name.bytes(), other.name.bytes());
    listing_place(name)
        .cmp(&listing_place(other_name))
        .then_with(|| name.cmp(other_name))
        .then_with(|| one.ino.cmp(&other.ino))
}

// Where a name of a listing stands.
fn named_place(named: &Named) -> u64
    ensures { result ≡ listing_place named.now.name }
{
    listing_place(named.name.bytes())
}

/// The names of a listing in the order in which they are told.
///
/// They are brought into it by places that are made once, so that a comparison for each is left. Where memory for these is lacking, the
/// places are made anew for each of many comparisons.
pub fn in_order(listing: Listing) -> Listing
    ensures { result ≡ in_order listing }
{
    let mut names = listing.into_names();
    let _brought = names.sort_by_cached_key(named_place);
    names.sort_unstable_by(compare);
    Listing::new(names)
}

/// Where a listing goes on.
#[derive(Clone, Copy)]
pub struct Cursor {
    /// The place of the next name.
    pub at: usize,
    /// The offset of the name before it.
    pub before: u64,
}

impl Cursor {
    /// Where the names behind an offset begin. It goes over those before them.
    pub fn behind(listing: &Listing, offset: u64) -> Cursor
        ensures behind { behind offset listing.now ≡ with_offsets result.before (drop result.at listing.now) }
        ensures within { result.at ≤ length listing.now }
        ensures small { result.before ≤ 2 ^ 63 + result.at }
    {
        let names = listing.names();
        let mut cursor = Cursor { at: 0, before: 0 };
        for at in 0..names.len() {
            let named = &names[at];
            let next = cursor.after(named.name.bytes());
            if next.before > offset {
                return cursor;
            }
            cursor = next;
        }
        cursor
    }

    /// Where it goes on after the next name, which is this one.
    pub fn after(self, name: &[u8]) -> Cursor
        requires within { self.at < 2 ^ 62 }
        requires small { self.before ≤ 2 ^ 63 + self.at }
        ensures at { result.at ≡ self.at + 1 }
        ensures offset { result.before ≡ offset_behind self.before name.now }
        ensures small { result.before ≤ 2 ^ 63 + result.at }
    {
        Cursor {
            at: self.at + 1,
            before: (self.before + 1).max(listing_place(name)),
        }
    }
}
