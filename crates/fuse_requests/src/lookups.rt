//! READDIRPLUS: the names of an open directory, each looked up by the server.
ghost use Rattle.std.specs.Prelude.{◌≡◌, ℕ, List, ◌+◌, ◌-◌, ◌*◌, ◌<◌, ◌≤◌, ◌^◌, length, vec_len, vec_capacity, Some, Ok, IsSome, IsNone, IfSome};
ghost use Rattle.fuse_protocol.specs.Entries.{record_size};
ghost use Rattle.fuse_state.specs.Servers.{listing_of, named_at};
ghost use Rattle.fuse_plans.specs.ListingOrder.{behind, offset_behind};
ghost use Rattle.fuse_plans.specs.Works.{attempt};
ghost use Rattle.fuse_plans.specs.ListingPlans.{bounded, find_in_place, find_listed, look_up_names, names_within, records_bytes, LookedUp, read_directory_plus};
ghost use Rattle.fuse_sessions.specs.Listings.{IsCopy};
ghost use Rattle.fuse_requests.specs.Listings.{HasListingRoom, ToldOne};
ghost use Rattle.fuse_sessions.specs.Performing.{Did};

use crate::directories::list_kept;
use fs_model::{Bytes, Path};
use fuse_plans::{Asked, Replied, ReplyBody, RequestError, Tried};
use fuse_protocol::Extent;
use fuse_sessions::Session;
use fuse_sessions::listing::{LEAST_RECORD, begin_behind, bounded, copy_fitting, named_at};
use fuse_steps::Machine;
use fuse_steps::cursor::Cursor;
use fuse_steps::listing::push_looked_up;
use fuse_steps::name::plain_name;
use fuse_steps::name_room::NameRoom;

// What the server finds under a name in a directory.
fn find_in_place<M: Machine>(
    session: &mut Session<M>,
    needs_nobody: bool,
    place: Tried<u32>,
    name: Path,
) -> Replied
    ensures did { Did M.Serves (find_in_place needs_nobody place name) session.old session.new result }
    ensures kept { session.new.server ≡ session.old.server }
{
    plain_name(&name)?;
    let dir_ino = place?;
    session.find_own(needs_nobody, dir_ino, name)
}

// What the server finds under a name that was copied. One that is too long has no copy, and is EINVAL.
fn find_copy<M: Machine>(
    session: &mut Session<M>,
    needs_nobody: bool,
    place: Tried<u32>,
    copy: Option<Path>,
) -> Replied
    ensures did { (name : List ℕ) → IsCopy name copy →
        Did M.Serves (attempt (find_listed needs_nobody place name)) session.old session.new (Ok result) }
    ensures kept { session.new.server ≡ session.old.server }
{
    match copy {
        Some(name) => find_in_place(session, needs_nobody, place, name),
        None => Err(RequestError::EINVAL),
    }
}

// Tells the next name of the listing, and what a look-up of it comes to, if there is one and there is room for that; and where the
// listing goes on.
fn tell_named<M: Machine>(
    session: &mut Session<M>,
    needs_nobody: bool,
    place: Tried<u32>,
    extent: Extent,
    cursor: Cursor,
    names: &mut NameRoom,
    bytes: &mut Vec<u8>,
) -> Option<Cursor>
    requires names { extent.size ≤ vec_len bytes.old + LEAST_RECORD * names.old + (LEAST_RECORD - 1) }
    requires capacity { extent.size ≤ vec_capacity bytes.old }
    requires small { cursor.before ≤ 2 ^ 63 + cursor.at }
    ensures told { (e : List ℕ × ℕ) → named_at session.old.server.server extent.handle cursor.at ≡ Some e → IfSome result (λ next.
        ToldOne M.Serves needs_nobody place extent.size (offset_behind cursor.before e.0) e session.old session.new bytes.old.items bytes.new.items
        × (next.before ≡ offset_behind cursor.before e.0)) }
    ensures next { IfSome result (λ next. (next.at ≡ cursor.at + 1) × (next.before ≤ 2 ^ 63 + next.at)) }
    ensures there { IsSome result → IsSome (named_at session.old.server.server extent.handle cursor.at) }
    ensures crowded { (e : List ℕ × ℕ) → named_at session.old.server.server extent.handle cursor.at ≡ Some e → IsNone result →
        extent.size < length bytes.old.items + record_size (length e.0) }
    ensures same { IsNone result → session.new ≡ session.old }
    ensures unwritten { IsNone result → bytes.new.items ≡ bytes.old.items }
    ensures longer { IsSome result → vec_len bytes.old + LEAST_RECORD ≤ vec_len bytes.new }
    ensures within { IsSome result → vec_len bytes.new ≤ extent.size }
    ensures capacity { extent.size ≤ vec_capacity bytes.new }
    ensures names { names.old ≤ names.new + 1 }
    ensures kept { session.new.server ≡ session.old.server }
{
    let copy = copy_fitting(&session.server, extent, cursor.at, bytes.len(), names)?;
    let looked_up = find_copy(session, needs_nobody, place, copy);
    let Some(named) = named_at(&session.server, extent.handle, cursor.at) else {
        unreachable!()
    };
    let next = cursor.after(named.name.bytes());
    push_looked_up(bytes, next.before, named, &looked_up);
    Some(next)
}

// The names that fit, of those behind an offset.
fn look_up_names<M: Machine>(
    session: &mut Session<M>,
    needs_nobody: bool,
    place: Tried<u32>,
    extent: Extent,
    room: Vec<u8>,
    names: NameRoom,
) -> Bytes
    requires fits { HasListingRoom extent.size room.items (vec_capacity room) names }
    ensures { (listing : List (List ℕ × ℕ)) → listing_of session.old.server.server extent.handle ≡ Some listing →
        (found : List LookedUp) × (result ≡ records_bytes found)
        × Did M.Serves (look_up_names needs_nobody place (names_within extent.size (behind extent.offset listing))) session.old session.new (Ok found) }
{
    let mut bytes = room;
    let mut names = names;
    let mut cursor = begin_behind(&session.server, extent.handle, extent.offset);
    while let Some(next) = tell_named(
        session,
        needs_nobody,
        place,
        extent,
        cursor,
        &mut names,
        &mut bytes,
    ) {
        cursor = next;
    }
    Bytes::new(bytes)
}

/// The entries of a directory, with what look-ups of their names tell: as many as are told at once, with room for these.
pub(crate) fn read_directory_plus<M: Machine>(
    session: &mut Session<M>,
    asked: &Asked,
    extent: Extent,
    room: Vec<u8>,
    names: NameRoom,
) -> Replied
    requires fits { HasListingRoom (bounded extent).size room.items (vec_capacity room) names }
    requires room { 1 ≤ session.old.server.room }
    ensures { let asked = asked.entry.now in
        Did M.Serves (read_directory_plus asked.needs_nobody asked.node extent) session.old session.new result }
{
    let place = session.the_number(asked.node);
    list_kept(session, asked.node, extent)?;
    let told = bounded(extent);
    let bytes = look_up_names(session, asked.needs_nobody, place, told, room, names);
    Ok(ReplyBody::Bytes(bytes))
}
