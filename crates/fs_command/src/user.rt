//! Who is asked about, and for what.
ghost use Rattle.std.specs.Prelude.{◌≡◌, ◌⊎◌, codes, ℕ, List, IfOk, IfErr, MatchResult, Ok};
ghost use Rattle.std.specs.Option.{option_copied};
ghost use Rattle.fs_command.specs.declared.words.WordsFault.TheVariants.{BadUser, BadCaps, OutOfMemory};
ghost use Rattle.clap.specs.Words.{first_of, found_of, rows_of};
ghost use Rattle.fs_command.specs.Words.{ArePermsFor, HasBadAccess, IsGiven, IsUserFor};
ghost use Rattle.fs_command.specs.Users.{HasIds, HasNoIds, SaysUser, SaysNoCaps, IsBadUser, caps_named_by, lettered, perms_said};

use crate::words::WordsFault;
use bitflags::Flags;
use clap::ArgMatches;
use fs_cred::{Caps, Cred, CredFault};
use fs_lines::{LineFault, caps_named, read_id, read_ids, read_perms};
use posix_acl::Perms;
use std::alloc::Global;

/// What is asked for.
pub(crate) fn perms_given(matches: &ArgMatches<'_>) -> Result<Perms, WordsFault>
    requires given { IsGiven (codes "PERM") (rows_of (found_of matches.now)) }
    ensures { MatchResult result (ArePermsFor (first_of (codes "PERM") (rows_of (found_of matches.now))))
        (HasBadAccess (rows_of (found_of matches.now))) }
{
    let Some(perms) = perms_said(matches.get_str("PERM").unwrap().as_bytes()) else {
        return Err(WordsFault::BadPerm);
    };
    Ok(perms)
}

/// Who it is.
pub(crate) fn user_given(alloc: Global, matches: &ArgMatches<'_>) -> Result<Cred, WordsFault>
    requires given { IsGiven (codes "user") (rows_of (found_of matches.now)) }
    ensures { MatchResult result
        (IsUserFor (first_of (codes "user") (rows_of (found_of matches.now))) (first_of (codes "caps") (rows_of (found_of matches.now))))
        (HasBadAccess (rows_of (found_of matches.now))) }
{
    let user = matches.get_str("user").unwrap();
    read_user(alloc, user, matches.get_str("caps"))
}

// Permissions as the shell has them, or by the letters alone of those that are asked for.
fn perms_said(word: &[u8]) -> Option<Perms>
    ensures { result ≡ perms_said word.now }
{
    match read_perms(word) {
        Ok(perms) => Some(perms),
        Err(_) => lettered(word),
    }
}

// The permissions whose letters these are.
fn lettered(word: &[u8]) -> Option<Perms>
    ensures { result ≡ lettered word.now }
{
    if word == b"x".as_slice() {
        return Some(perms(false, false, true));
    }
    if word == b"w".as_slice() {
        return Some(perms(false, true, false));
    }
    if word == b"wx".as_slice() {
        return Some(perms(false, true, true));
    }
    if word == b"r".as_slice() {
        return Some(perms(true, false, false));
    }
    if word == b"rx".as_slice() {
        return Some(perms(true, false, true));
    }
    if word == b"rw".as_slice() {
        return Some(perms(true, true, false));
    }
    None
}

fn perms(read: bool, write: bool, execute: bool) -> Perms
    ensures { result ≡ record { read = read; write = write; execute = execute } }
{
    Perms {
        read,
        write,
        execute,
    }
}

// The credential of a user with groups, as `UID:GID` and more groups with commas between, and with these capabilities.
fn read_user(alloc: Global, word: &str, caps: Option<&str>) -> Result<Cred, WordsFault>
    ensures { MatchResult result (SaysUser word.now (option_copied caps.entry)) (IsBadUser word.now (option_copied caps.entry)) }
{
    let (uid, ids) = read_user_ids(alloc, word)?;
    let [gid, groups @ ..] = ids.as_slice() else {
        return Err(WordsFault::BadUser);
    };
    let made = match caps {
        None => Cred::new(alloc, uid, *gid, groups),
        Some(names) => Cred::with_caps(alloc, uid, *gid, groups, read_user_caps(names)?),
    };
    match made {
        Ok(cred) => Ok(cred),
        Err(CredFault::TooManyGroups) => Err(WordsFault::BadUser),
        Err(CredFault::OutOfMemory) => Err(WordsFault::OutOfMemory),
    }
}

// The user before the colon, and the ids behind it.
fn read_user_ids(alloc: Global, word: &str) -> Result<(u32, Vec<u32>), WordsFault>
    ensures said { IfOk result (λ said. HasIds word.now said.0 said.1.items) }
    ensures none { IfErr result (λ fault. (fault ≡ OutOfMemory) ⊎ ((fault ≡ BadUser) × HasNoIds word.now)) }
{
    let Some((user, ids)) = word.split_once(':') else {
        return Err(WordsFault::BadUser);
    };
    let Ok(uid) = read_id(user.as_bytes()) else {
        return Err(WordsFault::BadUser);
    };
    match read_ids(alloc, ids.as_bytes()) {
        Ok(ids) => Ok((uid, ids)),
        Err(LineFault::OutOfMemory) => Err(WordsFault::OutOfMemory),
        Err(_) => Err(WordsFault::BadUser),
    }
}

// Capabilities by their names, or none.
fn read_user_caps(names: &str) -> Result<Caps, WordsFault>
    ensures said { IfOk result (λ caps. caps_named_by names.now ≡ Ok caps) }
    ensures none { IfErr result (λ fault. (fault ≡ BadCaps) × SaysNoCaps names.now) }
{
    if names == "none" {
        return Ok(Caps::empty());
    }
    match caps_named(names.as_bytes()) {
        Ok(caps) => Ok(caps),
        Err(_) => Err(WordsFault::BadCaps),
    }
}
