//! Worked rows of texts, permission bits and limits.
use posix_acl::AclFault::{
    self, BadText, MissingBase, NoMask, TooMany, TwiceBase, TwiceQualifier, TwoMasks,
};
use posix_acl::{Acl, Entry, Perms, Tag, TextForm};
use std::alloc::Global;

// Texts, and their first fault.
static FAULTY: [(&str, AclFault); 19] = [
    ("", MissingBase),
    ("u::rw-,u::r--,g::---,o::---", TwiceBase),
    ("u::rw-,u:5:r--,u:5:r--,g::r--,o::---", TwiceQualifier),
    ("u::rw-,g::r--,o::---,u:5:r--", NoMask),
    ("u::rw-,g::r--,m::r--,m::r--,o::---", TwoMasks),
    ("default:user::rwx", BadText),
    ("u::rwx,u:4294967296:r--,g::r--,m::rwx,o::---", BadText),
    ("u::rwx,u:01:r--,g::r--,m::rwx,o::---", BadText),
    ("u::rwx,u:+1:r--,g::r--,m::rwx,o::---", BadText),
    ("u::rwx,u:x:r--,g::r--,m::rwx,o::---", BadText),
    ("u::rrw,g::r--,o::---", BadText),
    ("u::rwxr,g::r--,o::---", BadText),
    ("u::,g::r--,o::---", BadText),
    ("u:rwx,g::r--,o::---", BadText),
    ("u::rwx:,g::r--,o::---", BadText),
    ("m:5:rwx,u::rwx,g::r--,o::---", BadText),
    ("u ::rwx,g::r--,o::---", BadText),
    ("u::rwx g::r--,o::---", BadText),
    ("\u{e9}::rwx", BadText),
];

// Texts that stand 4,194,304 times over.
static REPEATED: [(&str, AclFault); 6] = [
    ("x", BadText),
    (":", BadText),
    ("#", MissingBase),
    (",", MissingBase),
    ("\n", MissingBase),
    (" ", MissingBase),
];

fn fault_of(alloc: Global, text: &[u8], times: usize) -> Result<Option<AclFault>, AclFault> {
    let text = text.repeat(alloc, times)?;
    Ok(Acl::parse_text(alloc, &text).err())
}

// The first text that has another fault where it stands so many times over.
fn other_fault(alloc: Global, texts: &[(&str, AclFault)], times: usize) -> Option<usize> {
    for i in 0..texts.len() {
        let row = texts[i];
        if fault_of(alloc, row.0.as_bytes(), times) != Ok(Some(row.1)) {
            return Some(i);
        }
    }
    None
}

#[test]
fn names_the_first_fault_of_a_text(rt: HostRuntime) {
    let alloc = rt.alloc();
    let wrong = [
        other_fault(alloc, &FAULTY, 1),
        other_fault(alloc, &REPEATED, 4 << 20),
    ];
    let seen = (wrong, fault_of(alloc, &[0xff, 0, b':'], 1));
    let wanted = ([None; 2], Ok(Some(BadText)));
    assert!(rt; seen == wanted, "{seen:?}");
}

// Texts of one list.
static TEXTS: [&str; 6] = [
    "user::rw-\nuser:1000:rwx\t#effective:r--\ngroup::r--\nmask::r--\nother::---\n",
    "# file: notes\n# owner: 1000\n# group: 100\nuser::rw-\nuser:1000:rwx\t\t#effective:r--\ngroup::r--\nmask::r--\nother::---\n\n",
    ",\n \t,o:---, m:-r-,g::--r\t# a, b\nu:1000:wxr,,u::wr,",
    "o::-,u:1000:xrw,m::r,u::rw,g::r",
    "user::rw-,user:1000:rwx,group::r--,mask::r--,other::---",
    "user::rw-\nuser:1000:rwx\ngroup::r--\nmask::r--\nother::---\n",
];

// A list as it is, what a new file takes from a default list with its mode, or the list after it is given permission bits.
#[derive(Clone, Copy)]
enum Change {
    None,
    Inherited(u16),
    Given(u16),
}

fn after(acl: Acl, change: Change) -> Result<Acl, AclFault> {
    match change {
        Change::None => Ok(acl),
        Change::Inherited(mode) => acl.inherit(mode),
        Change::Given(bits) => Ok(acl.with_mode_bits(bits)),
    }
}

fn is_written(acl: &Acl, form: TextForm, wanted: &str) -> Result<bool, AclFault> {
    Ok(acl.write_text(form)?.as_str() == wanted)
}

// Whether the list of a text is written so in a form once it is changed.
fn is_changed(
    alloc: Global,
    text: &str,
    change: Change,
    form: TextForm,
    wanted: &str,
) -> Result<bool, AclFault> {
    let changed = after(Acl::parse_text(alloc, text.as_bytes())?, change)?;
    is_written(&changed, form, wanted)
}

// The first of the texts of one list that isn't written so in a form.
fn other_text(alloc: Global, form: TextForm, wanted: &str) -> Option<usize> {
    for i in 0..TEXTS.len() {
        if is_changed(alloc, TEXTS[i], Change::None, form, wanted) != Ok(true) {
            return Some(i);
        }
    }
    None
}

#[test]
fn reads_and_writes_texts(rt: HostRuntime) {
    let wrong = [
        other_text(rt.alloc(), TextForm::Short, TEXTS[4]),
        other_text(rt.alloc(), TextForm::Long, TEXTS[5]),
    ];
    assert!(rt; wrong == [None; 2], "{wrong:?}");
}

static CHANGES: [(&str, Change, &str); 3] = [
    (
        "user::rwx,user:1001:rwx,group::r-x,mask::rwx,other::---",
        Change::Inherited(0o640),
        "user::rw-,user:1001:rwx,group::r-x,mask::r--,other::---",
    ),
    (
        "user::rw-,user:1001:rwx,group::r-x,mask::r--,other::---",
        Change::Given(0o777),
        "user::rwx,user:1001:rwx,group::r-x,mask::rwx,other::rwx",
    ),
    (
        "u::rw-,u:1001:rw-,g::r--,m::r--,o::---",
        Change::Given(0o660),
        "user::rw-,user:1001:rw-,group::r--,mask::rw-,other::---",
    ),
];

// The first text whose list isn't written as it is to be once it is changed.
fn other_change(alloc: Global) -> Option<usize> {
    for i in 0..CHANGES.len() {
        let row = CHANGES[i];
        if is_changed(alloc, row.0, row.1, TextForm::Short, row.2) != Ok(true) {
            return Some(i);
        }
    }
    None
}

#[test]
fn permission_bits_change_a_list(rt: HostRuntime) {
    let wrong = other_change(rt.alloc());
    assert!(rt; wrong == None, "{wrong:?}");
}

// The permission bits, whether there is more than they say, and how many entries there are.
type Summary = (u16, bool, usize);

fn summary(acl: &Acl) -> Summary {
    (acl.mode_bits(), acl.is_extended(), acl.entries().len())
}

fn of_mode(alloc: Global, mode: u16) -> Result<Summary, AclFault> {
    Ok(summary(&Acl::from_mode(alloc, mode)?))
}

fn of_text(alloc: Global, text: &str) -> Result<Summary, AclFault> {
    Ok(summary(&Acl::parse_text(alloc, text.as_bytes())?))
}

#[test]
fn a_list_shows_permission_bits(rt: HostRuntime) {
    let seen = [
        of_mode(rt.alloc(), 0o751),
        of_text(rt.alloc(), CHANGES[0].0),
        of_text(rt.alloc(), CHANGES[1].2),
    ];
    let wanted = [
        Ok((0o751, false, 3)),
        Ok((0o770, true, 5)),
        Ok((0o777, true, 5)),
    ];
    assert!(rt; seen == wanted, "{seen:?}");
}

// Adds the base entries, a mask and so many users, the highest id first.
fn add_entries(entries: &mut Vec<Entry>, users: u32) -> Result<(), AclFault> {
    let perms = Perms::from_digit(4);
    for tag in [Tag::Mask, Tag::Other, Tag::GroupObj, Tag::UserObj] {
        entries.push(Entry { tag, id: 7, perms })?;
    }
    for i in 0..users {
        entries.push(Entry {
            tag: Tag::User,
            id: u32::MAX - i,
            perms,
        })?;
    }
    Ok(())
}

fn with_users(alloc: Global, users: u32) -> Result<Acl, AclFault> {
    let mut entries = Vec::new(alloc);
    add_entries(&mut entries, users)?;
    Acl::from_entries(alloc, &entries)
}

// How many entries such a list has, and the ids of the first two.
fn of_users(alloc: Global, users: u32) -> Result<(usize, u32, u32), AclFault> {
    let acl = with_users(alloc, users)?;
    let entries = acl.entries();
    Ok((entries.len(), entries[0].id, entries[1].id))
}

#[test]
fn holds_32_entries(rt: HostRuntime) {
    let seen = [of_users(rt.alloc(), 28), of_users(rt.alloc(), 29)];
    let wanted = [Ok((32, 0, u32::MAX - 27)), Err(TooMany)];
    assert!(rt; seen == wanted, "{seen:?}");
}
