//! Reads the text form of a list.
ghost use Rattle.std.specs.Prelude.{◌≡◌, ◌≢◌, ◌==◌, ℕ, ◌≤◌, ◌∷◌, [], ◌<◌, ◌^◌, ◌⊎◌, ◌↔◌, length, IsTrue, OnOk, IfOk, IfErr, IfSome, IfNone, position};
ghost use Rattle.std.specs.List.{slice_split, before_first};
ghost use Rattle.std.specs.Fmt.{decimal};
ghost use Rattle.posix_acl.specs.declared.entry.Entry.{Entry};
ghost use Rattle.posix_acl.specs.declared.entry.Tag.{Tag};
ghost use Rattle.posix_acl.specs.declared.entry.Perms.{Perms};
ghost use Rattle.posix_acl.specs.Entries.{is_named};
ghost use Rattle.posix_acl.specs.Numbers.{StartsPlainly};
ghost use Rattle.posix_acl.specs.Text.{is_hash, is_colon, is_blank, without_blanks, without_front_blanks, without_back_blanks, count_letter, may_lack_name, IsWordOf, IsNameOf, IsPermsText, AreFieldsOf, IsEntryText, IsText, IsNoText, AppendsEntries, text_pieces, line_pieces};
ghost use Rattle.posix_acl.specs.declared.fault.AclFault.TheVariants.{OutOfMemory, BadText};

use crate::entry::{Entry, Perms, Tag};
use crate::fault::AclFault;
use std::alloc::Global;

/// The entries of a text, in its order.
pub fn read_text(alloc: Global, text: &[u8]) -> Result<Vec<Entry>, AclFault>
    ensures found { IfOk result (λ v. IsText text.now v.items) }
    ensures bad { IfErr result (λ fault. fault ≡ BadText → IsNoText (text_pieces text.now)) }
    ensures err { IfErr result (λ fault. fault ≢ OutOfMemory → fault ≡ BadText) }
{
    let mut entries = Vec::new(alloc);
    for line in text.split(|byte| *byte == b'\n') {
        read_line(line, &mut entries)?;
    }
    Ok(entries)
}

fn read_line(line: &[u8], entries: &mut Vec<Entry>) -> Result<(), AclFault>
    ensures found { OnOk result (AppendsEntries entries.old.items entries.new.items (line_pieces line.now)) }
    ensures bad { IfErr result (λ fault. fault ≡ BadText → IsNoText (line_pieces line.now)) }
    ensures err { IfErr result (λ fault. fault ≢ OutOfMemory → fault ≡ BadText) }
{
    let line = uncommented(line);
    for piece in line.split(|byte| *byte == b',') {
        let piece = trimmed(piece);
        if !piece.is_empty() {
            let Some(entry) = read_entry(piece) else {
                return Err(AclFault::BadText);
            };
            entries.push(entry)?;
        }
    }
    Ok(())
}

// The entry that a piece of the text is.
fn read_entry(text: &[u8]) -> Option<Entry>
    ensures found { IfSome result (IsEntryText text.now) }
    ensures only { (e : Entry) → IsEntryText text.now e → result ≡ Some e }
{
    let (word, rest) = cut_at_colon(text)?;
    match cut_at_colon(rest) {
        Some((name, letters)) => match cut_at_colon(letters) {
            Some(_) => None,
            None => read_fields(word, name, letters),
        },
        None => match read_fields(word, &[], rest) {
            Some(entry) if may_lack_name(entry.tag) => Some(entry),
            _ => None,
        },
    }
}

// What stands before the first colon, and after it.
fn cut_at_colon(text: &[u8]) -> Option<(&[u8], &[u8])>
    ensures found { IfSome result (λ cut. slice_split is_colon text.now ≡ cut.0.now ∷ slice_split is_colon cut.1.now) }
    ensures none { IfNone result (slice_split is_colon text.now ≡ text.now ∷ []) }
{
    let at = position_of(text, b':')?;
    Some((&text[..at], &text[at + 1..]))
}

fn position_of(bytes: &[u8], wanted: u8) -> Option<usize>
    ensures { result ≡ position (λ b. b == wanted) bytes.now }
{
    bytes.iter().position(|byte| *byte == wanted)
}

fn may_lack_name(tag: Tag) -> bool
    ensures { result ≡ may_lack_name tag }
{
    matches!(tag, Tag::Mask | Tag::Other)
}

fn read_fields(word: &[u8], name: &[u8], letters: &[u8]) -> Option<Entry>
    ensures found { IfSome result (AreFieldsOf word.now name.now letters.now) }
    ensures only { (e : Entry) → AreFieldsOf word.now name.now letters.now e → result ≡ Some e }
{
    let tag = read_tag(word, !name.is_empty())?;
    let id = read_qualifier(tag, name)?;
    let perms = read_perms(letters)?;
    Some(Entry { tag, id, perms })
}

fn read_tag(word: &[u8], named: bool) -> Option<Tag>
    ensures found { IfSome result (λ tag. IsWordOf tag word.now × (is_named tag ≡ named)) }
    ensures only { (tag : Tag) → IsWordOf tag word.now → is_named tag ≡ named → result ≡ Some tag }
{
    if is_either(word, "user", "u") {
        Some(if named { Tag::User } else { Tag::UserObj })
    } else if is_either(word, "group", "g") {
        Some(if named { Tag::Group } else { Tag::GroupObj })
    } else if named {
        None
    } else if is_either(word, "mask", "m") {
        Some(Tag::Mask)
    } else if is_either(word, "other", "o") {
        Some(Tag::Other)
    } else {
        None
    }
}

fn is_either(word: &[u8], long: &str, short: &str) -> bool
    ensures { IsTrue result ↔ ((word.now ≡ long.now) ⊎ (word.now ≡ short.now)) }
{
    word == long.as_bytes() || word == short.as_bytes()
}

// The id that qualifies the tag; 0 and no name where it takes none.
fn read_qualifier(tag: Tag, name: &[u8]) -> Option<u32>
    ensures found { IfSome result (λ id. IsNameOf tag id name.now) }
    ensures only { (id : ℕ) → IsNameOf tag id name.now → result ≡ Some id }
{
    if tag.is_named() {
        read_id(name)
    } else if name.is_empty() {
        Some(0)
    } else {
        None
    }
}

fn read_id(name: &[u8]) -> Option<u32>
    ensures found { IfSome result (λ id. (id < 2 ^ 32) × (name.now ≡ decimal id)) }
    ensures only { (id : ℕ) → id < 2 ^ 32 → name.now ≡ decimal id → result ≡ Some id }
{
    if !starts_plainly(name) {
        return None;
    }
    let Ok(digits) = std::str::from_utf8(name) else {
        return None;
    };
    digits.parse::<u32>().ok()
}

/// Whether the text starts as a decimal number does: with a digit, and not with a zero before other digits. `parse` of
/// std takes a sign and zeros in front too.
pub fn starts_plainly(name: &[u8]) -> bool
    ensures { IsTrue result ↔ StartsPlainly name.now }
{
    match name {
        [] => false,
        [b'0'] => true,
        [first, ..] => *first > b'0' && *first <= b'9',
    }
}

fn read_perms(letters: &[u8]) -> Option<Perms>
    ensures found { IfSome result (IsPermsText letters.now) }
    ensures only { (p : Perms) → IsPermsText letters.now p → result ≡ Some p }
{
    if letters.is_empty() || letters.len() > 3 {
        return None;
    }
    let reads = count(letters, b'r');
    let writes = count(letters, b'w');
    let executes = count(letters, b'x');
    let known = reads + writes + executes + count(letters, b'-');
    if known != letters.len() || reads > 1 || writes > 1 || executes > 1 {
        return None;
    }
    Some(Perms {
        read: reads == 1,
        write: writes == 1,
        execute: executes == 1,
    })
}

fn count(letters: &[u8], letter: u8) -> usize
    ensures value { result ≡ count_letter letter letters.now }
    ensures most { result ≤ length letters.now }
{
    letters.iter().filter(|byte| **byte == letter).count()
}

// The line up to a comment.
fn uncommented(line: &[u8]) -> &[u8]
    ensures { result.now ≡ before_first is_hash line.now }
{
    match position_of(line, b'#') {
        Some(at) => &line[..at],
        None => line,
    }
}

// The piece without the spaces and tabs around it.
fn trimmed(piece: &[u8]) -> &[u8]
    ensures { result.now ≡ without_blanks piece.now }
{
    trimmed_end(trimmed_start(piece))
}

fn trimmed_start(piece: &[u8]) -> &[u8]
    ensures { result.now ≡ without_front_blanks piece.now }
{
    let mut rest = piece;
    while !rest.is_empty() && is_blank(rest[0]) {
        rest = &rest[1..];
    }
    rest
}

fn trimmed_end(piece: &[u8]) -> &[u8]
    ensures { result.now ≡ without_back_blanks piece.now }
{
    let mut rest = piece;
    while !rest.is_empty() && is_blank(rest[rest.len() - 1]) {
        rest = &rest[..rest.len() - 1];
    }
    rest
}

fn is_blank(byte: u8) -> bool
    ensures { result ≡ is_blank byte }
{
    byte == b' ' || byte == b'\t'
}
