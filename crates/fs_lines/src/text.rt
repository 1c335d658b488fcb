//! The text of replies.
ghost use Rattle.std.specs.Prelude.{◌≡◌, ◌+◌, ◌*◌, ◌++◌, ◌<◌, ◌≤◌, false, length, take, IfOk, OnOk, IsUtf8, codes, string_bytes};
ghost use Rattle.std.specs.Fmt.{decimal, digit_glyph};
ghost use Rattle.std.specs.List.{list_all};
ghost use Rattle.posix_acl.specs.Text.{perms_text, written_text};
ghost use Rattle.posix_acl.specs.declared.text.TextForm.TheVariants.{Short};
ghost use Rattle.fs_cred.specs.Capabilities.{named_caps};
ghost use Rattle.fs_lines.specs.declared.text.TheConstants.{RUN, MOST_OF_BYTE, USUAL_TEXT};
ghost use Rattle.fs_lines.specs.Texts.{stands_for_itself, octal_digit, byte_text, bytes_text, word_text, mode_text, caps_text, rule_text, need_text, errno_text, denial_text, refusal_text, kind_text, counts_text, status_text, acl_text, names_text, stamps_text, reply_text, fault_text};

use crate::line::LineFault;
use bitflags::Flags;
use fs_cred::{Caps, Denial, Errno, Need, Refusal, Rule};
use fs_model::{FileType, Listing, Reply, Stamps, Status};
use posix_acl::{Acl, Perms, TextForm};
use std::alloc::{AllocError, Global};
use std::str;

// Most replies have no more bytes, those of a file or a path aside.
const USUAL_TEXT: usize = 96;

// So many bytes are written at once.
const RUN: usize = 512;

// The text of one byte has at most so many.
const MOST_OF_BYTE: usize = 3;

const HEX_DIGITS: &[u8; 16] = b"0123456789abcdef";

/// The text of a reply, without a newline.
pub fn reply_text(alloc: Global, reply: &Reply) -> Result<String, AllocError>
    ensures { IfOk result (λ text. string_bytes text ≡ reply_text reply.now) }
{
    let mut text = String::with_capacity(alloc, room_for(reply))?;
    push_reply(&mut text, reply)?;
    Ok(text)
}

/// The text of what is wrong with a line, without a newline.
pub fn fault_text(alloc: Global, fault: LineFault) -> Result<String, AllocError>
    ensures { IfOk result (λ text. string_bytes text ≡ fault_text fault) }
{
    let mut text = String::new(alloc);
    let number = fault.number();
    let name = fault.name();
    write!(text, "fault {number} {name}")?;
    Ok(text)
}

/// The text of bytes as one word of a line.
pub fn word_text(alloc: Global, bytes: &[u8]) -> Result<String, AllocError>
    ensures { IfOk result (λ text. string_bytes text ≡ word_text bytes.now) }
{
    let mut text = String::with_capacity(alloc, bytes.len())?;
    push_word(&mut text, bytes)?;
    Ok(text)
}

/// The text of a rule that decides.
pub fn rule_text(alloc: Global, rule: Rule) -> Result<String, AllocError>
    ensures { IfOk result (λ text. string_bytes text ≡ rule_text rule) }
{
    let mut text = String::new(alloc);
    push_rule(&mut text, rule)?;
    Ok(text)
}

/// The text of what a call asks for at an object.
pub fn need_text(alloc: Global, need: Need) -> Result<String, AllocError>
    ensures { IfOk result (λ text. string_bytes text ≡ need_text need) }
{
    let mut text = String::new(alloc);
    push_need(&mut text, need)?;
    Ok(text)
}

// How many bytes a reply's text gets room for at first, so that most take memory once.
fn room_for(reply: &Reply) -> usize
    ensures { USUAL_TEXT ≤ result }
{
    match reply {
        Reply::Data(bytes) => USUAL_TEXT + bytes.bytes().len(),
        Reply::Target(target) => USUAL_TEXT + target.bytes().len(),
        _ => USUAL_TEXT,
    }
}

#[tactic(auto, unfolding(crate::specs::Texts::reply_text))]
fn push_reply(text: &mut String, reply: &Reply) -> Result<(), AllocError>
    ensures { OnOk result (string_bytes text.new ≡ string_bytes text.old ++ reply_text reply.now) }
{
    match reply {
        Reply::Done => text.push_str("ok"),
        Reply::Pid(pid) => push_labelled_number(text, "pid ", *pid),
        Reply::Fd(fd) => push_labelled_number(text, "fd ", *fd),
        Reply::Data(bytes) => push_labelled_word(text, "data ", bytes.bytes()),
        Reply::Wrote(count) => push_labelled_number(text, "wrote ", *count),
        Reply::At(offset) => write!(text, "at {offset}"),
        Reply::Target(target) => push_labelled_word(text, "target ", target.bytes()),
        Reply::Mask(mask) => push_mask(text, *mask),
        Reply::Shown(status) => push_status(text, status),
        Reply::Granted(rule) => push_granted(text, *rule),
        Reply::Acl(acl) => push_acl(text, acl),
        Reply::Names(names) => push_names(text, names),
        Reply::Space { sectors, inodes } => write!(text, "free {sectors} blocks {inodes} inodes"),
        Reply::Stamped(stamps) => push_stamps(text, *stamps),
        Reply::Opened { handle, ino } => write!(text, "handle {handle} inode {ino}"),
        Reply::Made(ino) => write!(text, "made {ino}"),
        Reply::Refused(refusal) => push_refusal(text, refusal),
    }
}

fn push_labelled_number(text: &mut String, label: &str, number: usize) -> Result<(), AllocError>
    ensures { OnOk result (string_bytes text.new ≡ string_bytes text.old ++ (label.now ++ decimal number)) }
{
    text.push_str(label)?;
    write!(text, "{number}")
}

fn push_labelled_word(text: &mut String, label: &str, bytes: &[u8]) -> Result<(), AllocError>
    ensures { OnOk result (string_bytes text.new ≡ string_bytes text.old ++ (label.now ++ word_text bytes.now)) }
{
    text.push_str(label)?;
    push_word(text, bytes)
}

// Bytes as one word of a line.
fn push_word(text: &mut String, bytes: &[u8]) -> Result<(), AllocError>
    ensures { OnOk result (string_bytes text.new ≡ string_bytes text.old ++ word_text bytes.now) }
{
    if bytes.is_empty() {
        return text.push_str("\"\"");
    }
    push_bytes(text, bytes)
}

fn push_bytes(text: &mut String, bytes: &[u8]) -> Result<(), AllocError>
    ensures { OnOk result (string_bytes text.new ≡ string_bytes text.old ++ bytes_text bytes.now) }
{
    let mut rest = bytes;
    while !rest.is_empty() {
        let (run, after) = rest.split_at(rest.len().min(RUN));
        push_run(text, run)?;
        rest = after;
    }
    Ok(())
}

#[tactic(auto, using(crate::proofs::Spelling::text_as_it_stands))]
fn push_run(text: &mut String, run: &[u8]) -> Result<(), AllocError>
    requires { length run.now ≤ RUN }
    ensures { OnOk result (string_bytes text.new ≡ string_bytes text.old ++ bytes_text run.now) }
{
    if stand_for_themselves(run) {
        return text.push_str(utf8_text(run));
    }
    let mut spelled = [0; MOST_OF_BYTE * RUN];
    let len = spell(run, &mut spelled);
    text.push_str(utf8_text(&spelled[..len]))
}

// Whether each byte stands for itself. Not stopping at the first other one, it tests many at once.
fn stand_for_themselves(bytes: &[u8]) -> bool
    ensures { result ≡ list_all stands_for_itself bytes.now }
{
    let mut all = true;
    for byte in bytes {
        all &= stands_for_itself(*byte);
    }
    all
}

fn utf8_text(bytes: &[u8]) -> &str
    requires { IsUtf8 bytes.now }
    ensures { result.now ≡ bytes.now }
{
    str::from_utf8(bytes).unwrap()
}

// Writes the text of bytes at the front of `text`, and says how long it is.
fn spell(bytes: &[u8], text: &mut [u8]) -> usize
    requires { MOST_OF_BYTE * length bytes.now ≤ length text.old }
    ensures text { take result text.new ≡ bytes_text bytes.now }
    ensures within { result ≤ length text.new }
{
    let mut len = 0;
    for byte in bytes {
        len = spell_behind(*byte, text, len);
    }
    len
}

// Writes the text of a byte behind the first `len` of `text`, and says how many there are then.
fn spell_behind(byte: u8, text: &mut [u8], len: usize) -> usize
    requires { len + MOST_OF_BYTE ≤ length text.old }
    ensures text { take result text.new ≡ take len text.old ++ byte_text byte }
    ensures within { result ≤ len + MOST_OF_BYTE }
    ensures size { length text.new ≡ length text.old }
{
    if stands_for_itself(byte) {
        text[len] = byte;
        return len + 1;
    }
    text[len] = b'\\';
    text[len + 1] = hex_digit(byte / 16);
    text[len + 2] = hex_digit(byte % 16);
    len + 3
}

/// The digit of this value, with small letters.
pub fn hex_digit(value: u8) -> u8
    requires { value < 16 }
    ensures { result ≡ digit_glyph false value }
{
    HEX_DIGITS[value as usize]
}

fn stands_for_itself(byte: u8) -> bool
    ensures { result ≡ stands_for_itself byte }
{
    byte.is_ascii_graphic() && byte != b'\\' && byte != b'"'
}

fn push_mask(text: &mut String, mask: u16) -> Result<(), AllocError>
    ensures { OnOk result (string_bytes text.new ≡ string_bytes text.old ++ (codes "umask " ++ mode_text mask)) }
{
    text.push_str("umask ")?;
    push_mode(text, mask)
}

// Four octal digits.
fn push_mode(text: &mut String, mode: u16) -> Result<(), AllocError>
    ensures { OnOk result (string_bytes text.new ≡ string_bytes text.old ++ mode_text mode) }
{
    text.push(octal_digit(mode / 512))?;
    text.push(octal_digit(mode / 64))?;
    text.push(octal_digit(mode / 8))?;
    text.push(octal_digit(mode))?;
    Ok(())
}

fn octal_digit(number: u16) -> char
    ensures { result ≡ octal_digit number }
{
    char::from(b'0' + (number % 8) as u8)
}

fn push_status(text: &mut String, status: &Status) -> Result<(), AllocError>
    ensures { OnOk result (string_bytes text.new ≡ string_bytes text.old ++ status_text status.now) }
{
    let ino = status.ino;
    let kind = kind_word(status.kind);
    write!(text, "ino {ino} {kind} ")?;
    push_mode(text, status.mode)?;
    push_counts(text, status)
}

fn push_counts(text: &mut String, status: &Status) -> Result<(), AllocError>
    ensures { OnOk result (string_bytes text.new ≡ string_bytes text.old ++ counts_text status.now) }
{
    let Status {
        links,
        owner,
        group,
        size,
        ..
    } = *status;
    write!(text, " links {links} uid {owner} gid {group} size {size}")
}

fn push_stamps(text: &mut String, stamps: Stamps) -> Result<(), AllocError>
    ensures { OnOk result (string_bytes text.new ≡ string_bytes text.old ++ stamps_text stamps) }
{
    let Stamps {
        atime,
        mtime,
        ctime,
    } = stamps;
    write!(text, "stamps {atime} {mtime} {ctime}")
}

fn kind_word(kind: FileType) -> &'static str
    ensures { result.now ≡ kind_text kind }
{
    match kind {
        FileType::File => "file",
        FileType::Directory => "dir",
        FileType::Link => "link",
    }
}

fn push_granted(text: &mut String, rule: Rule) -> Result<(), AllocError>
    ensures { OnOk result (string_bytes text.new ≡ string_bytes text.old ++ (codes "granted " ++ rule_text rule)) }
{
    text.push_str("granted ")?;
    push_rule(text, rule)
}

fn push_rule(text: &mut String, rule: Rule) -> Result<(), AllocError>
    ensures { OnOk result (string_bytes text.new ≡ string_bytes text.old ++ rule_text rule) }
{
    match rule {
        Rule::Owner => text.push_str("owner"),
        Rule::NamedUser(id) => write!(text, "user:{id}"),
        Rule::OwningGroup => text.push_str("group"),
        Rule::NamedGroup(id) => write!(text, "group:{id}"),
        Rule::Mask => text.push_str("mask"),
        Rule::Other => text.push_str("other"),
        Rule::Capability(caps) => push_caps(text, caps),
        Rule::NoExecuteBit => text.push_str("no-execute-bit"),
        Rule::NotOwner => text.push_str("not-owner"),
        Rule::NoCapability => text.push_str("no-capability"),
        Rule::NotMember => text.push_str("not-member"),
        Rule::Sticky => text.push_str("sticky"),
    }
}

// The names of capabilities, behind a colon and with commas between.
fn push_caps(text: &mut String, caps: Caps) -> Result<(), AllocError>
    ensures { OnOk result (string_bytes text.new ≡ string_bytes text.old ++ (codes "cap" ++ caps_text (codes ":") caps.0 named_caps)) }
{
    text.push_str("cap")?;
    let mut before = ":";
    for flag in Caps::flags() {
        if caps.contains(flag.value) {
            text.push_str(before)?;
            text.push_str(flag.name())?;
            before = ",";
        }
    }
    Ok(())
}

fn push_acl(text: &mut String, acl: &Option<Acl>) -> Result<(), AllocError>
    ensures { OnOk result (string_bytes text.new ≡ string_bytes text.old ++ (codes "acl " ++ acl_text acl.now)) }
{
    text.push_str("acl ")?;
    match acl {
        None => text.push_str("none"),
        Some(acl) => push_list(text, acl),
    }
}

fn push_list(text: &mut String, acl: &Acl) -> Result<(), AllocError>
    ensures { OnOk result (string_bytes text.new ≡ string_bytes text.old ++ written_text Short acl.now) }
{
    let Ok(list) = acl.write_text(TextForm::Short) else {
        return Err(AllocError);
    };
    text.push_str(list.as_str())
}

fn push_names(text: &mut String, names: &Listing) -> Result<(), AllocError>
    ensures { OnOk result (string_bytes text.new ≡ string_bytes text.old ++ (codes "list" ++ names_text names.now)) }
{
    text.push_str("list")?;
    for named in names.names() {
        let ino = named.ino;
        write!(text, " {ino}:")?;
        push_word(text, named.name.bytes())?;
    }
    Ok(())
}

fn push_refusal(text: &mut String, refusal: &Refusal) -> Result<(), AllocError>
    ensures { OnOk result (string_bytes text.new ≡ string_bytes text.old ++ refusal_text refusal.now) }
{
    match refusal {
        Refusal::Denied(denial) => push_denial(text, denial),
        Refusal::Failed(errno) => {
            text.push_str("error ")?;
            push_errno(text, *errno)
        }
    }
}

fn push_denial(text: &mut String, denial: &Denial) -> Result<(), AllocError>
    ensures { OnOk result (string_bytes text.new ≡ string_bytes text.old ++ denial_text denial.now) }
{
    let Denial { walk, step, .. } = *denial;
    text.push_str("denied ")?;
    push_errno(text, denial.errno)?;
    write!(text, " walk {walk} step {step} need ")?;
    push_need(text, denial.need)?;
    text.push_str(" rule ")?;
    push_rule(text, denial.rule)
}

fn push_errno(text: &mut String, errno: Errno) -> Result<(), AllocError>
    ensures { OnOk result (string_bytes text.new ≡ string_bytes text.old ++ errno_text errno) }
{
    let name = errno.name();
    let number = errno.number();
    write!(text, "{name} {number}")
}

fn push_need(text: &mut String, need: Need) -> Result<(), AllocError>
    ensures { OnOk result (string_bytes text.new ≡ string_bytes text.old ++ need_text need) }
{
    match need {
        Need::Search => text.push_str("search"),
        Need::Perm(want) => push_perms(text, want),
        Need::Own => text.push_str("own"),
        Need::Chown => text.push_str("chown"),
        Need::Chgrp => text.push_str("chgrp"),
        Need::Remove => text.push_str("remove"),
    }
}

fn push_perms(text: &mut String, want: Perms) -> Result<(), AllocError>
    ensures { OnOk result (string_bytes text.new ≡ string_bytes text.old ++ (codes "perm " ++ perms_text want)) }
{
    text.push_str("perm ")?;
    text.push_str(want.letters())
}
