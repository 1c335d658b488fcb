//! The forms of words: numbers, groups, capabilities, permissions, flags, ACLs.
ghost use Rattle.std.specs.Prelude.{◌≡◌, ◌≢◌, ◌↔◌, ◌<◌, ◌^◌, ℕ, IsTrue, IfSome, IfNone, OnSome, length};
ghost use Rattle.std.specs.Fmt.{decimal};
ghost use Rattle.std.specs.List.{slice_split};
ghost use Rattle.fs_cred.specs.Capabilities.{no_caps};
ghost use Rattle.posix_acl.specs.Numbers.{StartsPlainly};
ghost use Rattle.posix_acl.specs.Text.{is_comma};
ghost use Rattle.fs_lines.specs.Words.{number_of, id_of, kept_id_of, offset_of, negated, positive, groups_of, caps_of, caps_with, cap_named, begins_with_cap, perms_in, mode_of, octal_digits, is_octal_digit, flags_of, left_over, flag_letters, without_letter, whence_of, acl_type_of};
ghost use Rattle.fs_lines.specs.Lines.{each};
ghost use Rattle.fs_lines.specs.Readings.{Gives, GivesAcl};

use crate::line::LineFault;
use bitflags::Flags as FlagSet;
use fs_cred::{Caps, MAX_GROUPS};
use fs_model::{AclType, Flags, Whence};
use posix_acl::{Acl, AclFault, Perms, starts_plainly};
use std::alloc::Global;

// Offsets go down to so much below 0.
const MIN_OFFSET_MAGNITUDE: u64 = 1 << 63;

/// The id of a user or a group.
pub fn read_id(word: &[u8]) -> Result<u32, LineFault>
    ensures { result ≡ id_of word.now }
{
    let Some(digits) = plain_text(word) else {
        return Err(LineFault::BadNumber);
    };
    match digits.parse::<u32>() {
        Ok(id) => Ok(id),
        Err(_) => Err(LineFault::BadNumber),
    }
}

/// A number of 64 bits.
pub fn read_number(word: &[u8]) -> Result<usize, LineFault>
    ensures { result ≡ number_of 64 word.now }
{
    let Some(digits) = plain_text(word) else {
        return Err(LineFault::BadNumber);
    };
    match digits.parse::<usize>() {
        Ok(number) => Ok(number),
        Err(_) => Err(LineFault::BadNumber),
    }
}

/// The id of a user or a group, or none where `-` keeps the old one.
#[tactic(auto, unfolding(crate::specs::Words::kept_id_of))]
pub fn read_kept_id(word: &[u8]) -> Result<Option<u32>, LineFault>
    ensures { result ≡ kept_id_of word.now }
{
    if word == b"-".as_slice() {
        return Ok(None);
    }
    match read_id(word) {
        Ok(id) => Ok(Some(id)),
        Err(fault) => Err(fault),
    }
}

/// A number that may have a `-`.
#[tactic(auto, unfolding(crate::specs::Words::offset_of))]
pub fn read_offset(word: &[u8]) -> Result<i64, LineFault>
    ensures { result ≡ offset_of word.now }
{
    match word {
        [b'-', digits @ ..] => negated(read_number(digits)? as u64),
        _ => positive(read_number(word)? as u64),
    }
}

// The number below 0, down to -2^63.
fn negated(number: u64) -> Result<i64, LineFault>
    ensures { result ≡ negated number }
{
    if number > MIN_OFFSET_MAGNITUDE {
        return Err(LineFault::BadNumber);
    }
    if number == MIN_OFFSET_MAGNITUDE {
        return Ok(i64::MIN);
    }
    Ok(-(number as i64))
}

// A number up to 2^63 - 1.
fn positive(number: u64) -> Result<i64, LineFault>
    ensures { result ≡ positive number }
{
    if number >= MIN_OFFSET_MAGNITUDE {
        return Err(LineFault::BadNumber);
    }
    Ok(number as i64)
}

// The word as text, where it starts as decimal numbers do.
fn plain_text(word: &[u8]) -> Option<&str>
    ensures found { IfSome result (λ text. text.now ≡ word.now) }
    ensures plain { OnSome result (StartsPlainly word.now) }
    ensures none { IfNone result ((n : ℕ) → n < 2 ^ 64 → word.now ≢ decimal n) }
{
    if !starts_plainly(word) {
        return None;
    }
    match std::str::from_utf8(word) {
        Ok(text) => Some(text),
        Err(_) => None,
    }
}

/// One to sixteen ids with commas between them.
#[tactic(auto, unfolding(crate::specs::Words::groups_of))]
pub fn read_groups(alloc: Global, word: &[u8]) -> Result<Vec<u32>, LineFault>
    ensures { Gives (λ groups. groups.items) result (groups_of word.now) }
{
    if count_pieces(word) > MAX_GROUPS {
        return Err(LineFault::BadNumber);
    }
    read_ids(alloc, word)
}

// How many pieces commas cut the word into.
fn count_pieces(word: &[u8]) -> usize
    ensures { result ≡ length (slice_split is_comma word.now) }
{
    word.split(|byte| *byte == b',').count()
}

/// Ids with commas between them.
pub fn read_ids(alloc: Global, word: &[u8]) -> Result<Vec<u32>, LineFault>
    ensures { Gives (λ groups. groups.items) result (each id_of (slice_split is_comma word.now)) }
{
    let mut ids = Vec::new(alloc);
    for id in word.split(|byte| *byte == b',') {
        ids.push(read_id(id)?)?;
    }
    Ok(ids)
}

/// Whether a word is of capabilities, if it is right.
pub fn begins_with_cap(word: &[u8]) -> bool
    ensures { result ≡ begins_with_cap word.now }
{
    word.starts_with(b"cap=")
}

/// Capabilities: `cap=none`, or `cap=` and their names by rising bits with commas between them.
#[tactic(auto, unfolding(crate::specs::Words::caps_of))]
pub fn read_caps(word: &[u8]) -> Result<Caps, LineFault>
    ensures { result ≡ caps_of word.now }
{
    if word == b"cap=none".as_slice() {
        return Ok(Caps::empty());
    }
    match word.strip_prefix(b"cap=") {
        Some(names) => caps_named(names),
        None => Err(LineFault::BadNumber),
    }
}

/// The capabilities with these names, by rising bits with commas between them.
pub fn caps_named(names: &[u8]) -> Result<Caps, LineFault>
    ensures { result ≡ caps_with no_caps (slice_split is_comma names.now) }
{
    let mut caps = Caps::empty();
    for name in names.split(|byte| *byte == b',') {
        let cap = cap_named(name)?;
        if cap.bits() <= caps.bits() {
            return Err(LineFault::BadNumber);
        }
        caps.insert(cap);
    }
    Ok(caps)
}

fn cap_named(name: &[u8]) -> Result<Caps, LineFault>
    ensures { result ≡ cap_named name.now }
{
    match std::str::from_utf8(name) {
        Ok(name) => Caps::from_name(name).ok_or(LineFault::BadNumber),
        Err(_) => Err(LineFault::BadNumber),
    }
}

/// Permissions: `r`, `w` and `x`, or `-` instead of each.
pub fn read_perms(word: &[u8]) -> Result<Perms, LineFault>
    ensures { result ≡ perms_in word.now }
{
    Perms::from_letters(word).ok_or(LineFault::BadNumber)
}

/// A mode: one to four octal digits.
#[tactic(auto, unfolding(crate::specs::Words::mode_of))]
pub fn read_mode(word: &[u8]) -> Result<u16, LineFault>
    ensures { result ≡ mode_of word.now }
{
    match word {
        [d] => octal_digits(b'0', b'0', b'0', *d),
        [c, d] => octal_digits(b'0', b'0', *c, *d),
        [b, c, d] => octal_digits(b'0', *b, *c, *d),
        [a, b, c, d] => octal_digits(*a, *b, *c, *d),
        _ => Err(LineFault::BadNumber),
    }
}

fn octal_digits(a: u8, b: u8, c: u8, d: u8) -> Result<u16, LineFault>
    ensures { result ≡ octal_digits a b c d }
{
    if !is_octal_digit(a) || !is_octal_digit(b) || !is_octal_digit(c) || !is_octal_digit(d) {
        return Err(LineFault::BadNumber);
    }
    let high = 8 * u16::from(a - b'0') + u16::from(b - b'0');
    let low = 8 * u16::from(c - b'0') + u16::from(d - b'0');
    Ok(64 * high + low)
}

fn is_octal_digit(byte: u8) -> bool
    ensures { result ≡ is_octal_digit byte }
{
    matches!(byte, b'0'..=b'7')
}

// A flag's letter each, in the order in which they stand: read, write, create, excl, trunc, append, nofollow, directory.
const FLAG_LETTERS: [u8; 8] = *b"rwcxtand";

/// How a file is opened: the letters of the flags that are set.
#[tactic(auto, unfolding(crate::specs::Words::flags_of))]
pub fn read_flags(word: &[u8]) -> Result<Flags, LineFault>
    ensures { result ≡ flags_of word.now }
{
    let read = word.contains(&b'r');
    let write = word.contains(&b'w');
    if !left_over(word).is_empty() || !(read || write) {
        return Err(LineFault::BadNumber);
    }
    Ok(Flags {
        read,
        write,
        create: word.contains(&b'c'),
        excl: word.contains(&b'x'),
        trunc: word.contains(&b't'),
        append: word.contains(&b'a'),
        nofollow: word.contains(&b'n'),
        directory: word.contains(&b'd'),
    })
}

// What is left where each letter in turn is taken off the front.
fn left_over(word: &[u8]) -> &[u8]
    ensures { result.now ≡ left_over flag_letters word.now }
{
    let mut rest = word;
    for letter in FLAG_LETTERS {
        rest = without_letter(letter, rest);
    }
    rest
}

// The word without this letter at its front.
fn without_letter(letter: u8, word: &[u8]) -> &[u8]
    ensures { result.now ≡ without_letter letter word.now }
{
    match word {
        [first, rest @ ..] if *first == letter => rest,
        _ => word,
    }
}

/// From where an offset counts.
#[tactic(auto, unfolding(crate::specs::Words::whence_of))]
pub fn read_whence(word: &[u8]) -> Result<Whence, LineFault>
    ensures { result ≡ whence_of word.now }
{
    if word == b"set".as_slice() {
        Ok(Whence::Set)
    } else if word == b"cur".as_slice() {
        Ok(Whence::Cur)
    } else if word == b"end".as_slice() {
        Ok(Whence::End)
    } else {
        Err(LineFault::BadNumber)
    }
}

/// Which ACL is meant.
#[tactic(auto, unfolding(crate::specs::Words::acl_type_of))]
pub fn read_acl_type(word: &[u8]) -> Result<AclType, LineFault>
    ensures { result ≡ acl_type_of word.now }
{
    if word == b"access".as_slice() {
        Ok(AclType::Access)
    } else if word == b"default".as_slice() {
        Ok(AclType::Default)
    } else {
        Err(LineFault::BadNumber)
    }
}

/// An ACL by its text, or none.
pub fn read_acl(alloc: Global, word: &[u8]) -> Result<Option<Acl>, LineFault>
    ensures { GivesAcl result word.now }
{
    if word == b"none".as_slice() {
        return Ok(None);
    }
    match Acl::parse_text(alloc, word) {
        Ok(acl) => Ok(Some(acl)),
        Err(AclFault::OutOfMemory) => Err(LineFault::OutOfMemory),
        Err(_) => Err(LineFault::BadAcl),
    }
}
