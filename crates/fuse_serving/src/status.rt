//! What /proc/PID/status says of a process.
ghost use Rattle.std.specs.Prelude.{◌≡◌, ◌≤◌, ◌⊎◌, List, Some, IfOk, IfSome, IsTrue, drop, length};
ghost use Rattle.std.specs.List.{slice_split};
ghost use Rattle.fs_cred.specs.Capabilities.{no_caps};
ghost use Rattle.fuse_serving.specs.Status.{is_blank_byte, known_groups_limit, HasLine, SaysNumber, SaysIds, SaysGroups, SaysLastId, ActsAs, SaysCaps, SaysCaller};
ghost use Rattle.fuse_serving.specs.Processes.{IsUnknown};

use crate::caller::{Caller, Groups};
use bitflags::Flags;
use fs_cred::Caps;
use memchr::{memchr, memmem};
use std::alloc::{AllocError, Global};
use std::str;

// Of who is in more groups than these none is known.
const MAX_KNOWN_GROUPS: usize = 4_096;

// Of the capabilities in effect those that are asked here: the lowest five.
const ASKED_CAPS: u64 = 31;

// What follows the name in the first line, where that begins with it.
fn first_line_of<'a>(text: &'a [u8], name: &[u8]) -> Option<&'a [u8]>
    ensures { IfSome result (λ rest. HasLine text.now name.now rest.now) }
{
    let line = match memchr(b'\n', text) {
        Some(end) => text.split_at(end).0,
        None => text,
    };
    line.strip_prefix(name)
}

// What follows the name in a line that begins with it. A line starts behind the end of another: to look for that end with the name takes
// a third of the time that it takes to look at each line.
fn line_of<'a>(text: &'a [u8], start: &[u8]) -> Option<&'a [u8]>
    ensures { IfSome result (λ rest. HasLine text.now (drop 1 start.now) rest.now) }
{
    let [b'\n', name @ ..] = start else {
        return None;
    };
    if text.starts_with(name) {
        return first_line_of(text, name);
    }
    let at = memmem::find(text, start)?;
    let (_, behind) = text.split_at(at + 1);
    first_line_of(behind, name)
}

fn id_of(word: &[u8]) -> Option<u32>
    ensures { IfSome result (SaysNumber 32 10 word.now) }
{
    let text = str::from_utf8(word).ok()?;
    let id = text.parse::<u32>().ok()?;
    Some(id)
}

fn bits_of(word: &[u8]) -> Option<u64>
    ensures { IfSome result (SaysNumber 64 16 word.now) }
{
    let text = str::from_utf8(word).ok()?;
    let bits = u64::from_str_radix(text, 16).ok()?;
    Some(bits)
}

// Numbers with spaces between them, and perhaps behind them. Behind the last that may be known no more is read.
fn ids_of(alloc: Global, text: &[u8]) -> Result<Option<Groups>, AllocError>
    ensures ids { IfOk result (λ groups. IfSome groups (SaysIds (slice_split is_blank_byte text.now))) }
    ensures few { IfOk result (λ groups. IfSome groups (λ ids. length ids ≤ known_groups_limit)) }
{
    let mut groups = Groups::new(alloc);
    for word in text.split(|byte| *byte == b' ') {
        if word.is_empty() {
            continue;
        }
        let Some(id) = id_of(word) else {
            return Ok(None);
        };
        if groups.ids().len() >= MAX_KNOWN_GROUPS {
            return Ok(None);
        }
        groups.push(id)?;
    }
    Ok(Some(groups))
}

// The supplementary groups, where the text says them all, and they aren't too many.
fn groups_of(alloc: Global, text: &[u8]) -> Result<Option<Groups>, AllocError>
    ensures { IfOk result (λ groups. IfSome groups (SaysGroups text.now)) }
{
    let Some(rest) = line_of(text, b"\nGroups:\t") else {
        return Ok(None);
    };
    let groups = ids_of(alloc, rest)?;
    Ok(groups)
}

// The last id of the line that starts so.
fn last_id_of(text: &[u8], start: &[u8]) -> Option<u32>
    ensures { IfSome result (SaysLastId text.now (drop 1 start.now)) }
{
    let rest = str::from_utf8(line_of(text, start)?).ok()?;
    let (_, word) = rest.rsplit_once('\t')?;
    let id = id_of(word.as_bytes())?;
    Some(id)
}

// Whether it acts on files as this user and this group.
fn acts_as(text: &[u8], uid: u32, gid: u32) -> bool
    ensures { IsTrue result → ActsAs text.now uid gid }
{
    if last_id_of(text, b"\nUid:\t") != Some(uid) {
        return false;
    }
    last_id_of(text, b"\nGid:\t") == Some(gid)
}

// The capabilities in effect, where the text says them.
fn caps_of(text: &[u8]) -> Option<Caps>
    ensures { IfSome result (SaysCaps text.now) }
{
    let rest = line_of(text, b"\nCapEff:\t")?;
    let bits = bits_of(rest)?;
    Some(Caps::from_bits_retain((bits & ASKED_CAPS) as u32))
}

/// What the text says of a process that asks as this user and this group: the text that Linux shows as /proc/PID/status.
///
/// Where that says another user or group, as of a program that serves others, or of one that has changed its own meanwhile, the
/// process isn't who asks, and nothing is known; nor where it says no groups, or more than are read. Where it says no capabilities there
/// are none.
pub fn caller_of_status(
    alloc: Global,
    text: &[u8],
    uid: u32,
    gid: u32,
) -> Result<Caller, AllocError>
    ensures { IfOk result (λ caller. IsUnknown caller ⊎ SaysCaller text.now uid gid caller) }
{
    if !acts_as(text, uid, gid) {
        return Ok(Caller::unknown());
    }
    let Some(groups) = groups_of(alloc, text)? else {
        return Ok(Caller::unknown());
    };
    let caps = match caps_of(text) {
        Some(caps) => caps,
        None => Caps::empty(),
    };
    Ok(Caller {
        groups: Some(groups),
        caps,
    })
}
