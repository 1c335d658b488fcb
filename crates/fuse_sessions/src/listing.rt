//! Names of open directories, as they are looked up one after another: how much is told at once, where they begin, and whether the record
//! of one has room.
ghost use Rattle.std.specs.Prelude.{◌≡◌, ℕ, List, ◌+◌, ◌-◌, ◌*◌, ◌<◌, ◌≤◌, ◌^◌, length, drop, option_map, option_copied, nat_le, is_some, Some, IsSome, IfSome};
ghost use Rattle.fuse_protocol.specs.Entries.{record_size};
ghost use Rattle.fuse_state.specs.Servers.{listing_of, named_at};
ghost use Rattle.fuse_plans.specs.ListingOrder.{behind, with_offsets};
ghost use Rattle.fuse_plans.specs.ListingPlans.{bounded};
ghost use Rattle.fuse_sessions.specs.Listings.{IsCopy};

use fs_model::{Named, Path};
use fuse_protocol::Extent;
use fuse_state::Server;
use fuse_steps::cursor::Cursor;
use fuse_steps::listing::record_fits;
use fuse_steps::name_room::{LONGEST_NAME, NameRoom};

/// A record has so many bytes at least.
pub const LEAST_RECORD: u32 = 152;

// So many bytes are told at once: one request looks up no more names than have room in them, since others wait for it.
const MOST_LOOKED_UP: u32 = 16_384;

/// As much of a directory as is told at once.
pub fn bounded(extent: Extent) -> Extent
    ensures { result ≡ bounded extent }
{
    Extent {
        size: extent.size.min(MOST_LOOKED_UP),
        ..extent
    }
}

/// The name at a place of the listing that was made of an open directory.
pub fn named_at(server: &Server, handle: u64, at: usize) -> Option<&Named>
    ensures named { option_map (λ n. (n.name, n.ino)) (option_copied result) ≡ named_at server.now.server handle at }
    ensures within { IsSome result → at < 2 ^ 62 }
{
    match server.listing_of(handle) {
        Some(listing) => listing.names().get(at),
        None => None,
    }
}

/// Where the names behind an offset begin in the listing that was made of an open directory.
pub fn begin_behind(server: &Server, handle: u64, offset: u64) -> Cursor
    ensures behind { (names : List (List ℕ × ℕ)) → listing_of server.now.server handle ≡ Some names →
        behind offset names ≡ with_offsets result.before (drop result.at names) }
    ensures small { result.before ≤ 2 ^ 63 + result.at }
{
    match server.listing_of(handle) {
        Some(listing) => Cursor::behind(listing, offset),
        None => Cursor { at: 0, before: 0 },
    }
}

/// A copy of the name at a place, where its record fits behind so many bytes; but none of a name that is too long to be looked up.
pub fn copy_fitting(
    server: &Server,
    extent: Extent,
    at: usize,
    held: usize,
    names: &mut NameRoom,
) -> Option<Option<Path>>
    requires { extent.size ≤ held + LEAST_RECORD * names.old + (LEAST_RECORD - 1) }
    ensures fits { (e : List ℕ × ℕ) → named_at server.now.server extent.handle at ≡ Some e →
        is_some result ≡ nat_le (held + record_size (length e.0)) extent.size }
    ensures copy { (e : List ℕ × ℕ) → named_at server.now.server extent.handle at ≡ Some e → IfSome result (IsCopy e.0) }
    ensures named { IsSome result → IsSome (named_at server.now.server extent.handle at) }
    ensures least { IsSome result → held + LEAST_RECORD ≤ extent.size }
    ensures small { IsSome result → extent.size < 2 ^ 32 }
    ensures names { names.old ≤ names.new + 1 }
{
    let named = named_at(server, extent.handle, at)?;
    let name = named.name.bytes();
    if !record_fits(held, extent.size as usize, name) {
        return None;
    }
    if name.len() > LONGEST_NAME {
        return Some(None);
    }
    Some(Some(names.copy(name)))
}
