//! What a line says, and the text of each reply and each fault.

use fs_cred::{Caps, Denial, Errno, Need, Refusal, Rule};
use fs_lines::{Line, LineFault, a_line_says_one_thing, fault_text, parse_line, reply_text};
use fs_model::{Bytes, Call, Event, FileType, Listing, Name, Named, Path, Reply, Status};
use posix_acl::{Acl, Perms};
use std::alloc::{AllocError, Global};
use std::mem;
use std::test::Fail;

// ---- lines

const READ: Perms = Perms {
    read: true,
    write: false,
    execute: false,
};

fn asks_access(line: &Result<Line, LineFault>, pid: usize, path: &[u8], want: Perms) -> bool {
    match line {
        Ok(Line::Event(Event::Call(caller, Call::Access(asked, perms)))) => {
            *caller == pid && asked.bytes() == path && *perms == want
        }
        _ => false,
    }
}

// Whether a line with escapes says its call.
fn says_access(alloc: Global) -> bool {
    let line = parse_line(alloc, b"\\31 access /a\\20b r--");
    let asks = asks_access(&line, 1, b"/a b", READ);
    mem::drop(line);
    asks
}

#[test]
fn a_line_says_a_call(rt: HostRuntime) {
    a_line_says_one_thing();
    assert!(rt; says_access(rt.alloc()));
}

// ---- the text of faults and replies

// A fault, or a reply by what it tells.
#[derive(Clone, Copy)]
enum Said {
    Fault(LineFault),
    Done,
    Pid(usize),
    Fd(usize),
    Wrote(usize),
    At(u64),
    Mask(u16),
    NoAcl,
    Space,
    Opened(u64, u32),
    Made(u32),
    Status(FileType),
    Denied(Need),
    Failed(Errno),
    Granted(Rule),
    Data(&'static [u8]),
    Target(&'static [u8]),
    // The text of a list.
    List(&'static [u8]),
    Names(&'static [(&'static [u8], u32)]),
}

static FAULTS: [(Said, &str); 8] = [
    (Said::Fault(LineFault::TooLong), "fault 1 TooLong"),
    (Said::Fault(LineFault::BadByte), "fault 2 BadByte"),
    (Said::Fault(LineFault::BadEscape), "fault 3 BadEscape"),
    (
        Said::Fault(LineFault::UnknownCommand),
        "fault 4 UnknownCommand",
    ),
    (Said::Fault(LineFault::WordCount), "fault 5 WordCount"),
    (Said::Fault(LineFault::BadNumber), "fault 6 BadNumber"),
    (Said::Fault(LineFault::BadAcl), "fault 7 BadAcl"),
    (Said::Fault(LineFault::OutOfMemory), "fault 8 OutOfMemory"),
];

static SHOWN: [(Said, &str); 9] = [
    (
        Said::Status(FileType::File),
        "ino 3 file 0644 links 2 uid 1000 gid 100 size 18446744073709551615",
    ),
    (
        Said::Status(FileType::Directory),
        "ino 3 dir 0644 links 2 uid 1000 gid 100 size 18446744073709551615",
    ),
    (
        Said::Status(FileType::Link),
        "ino 3 link 0644 links 2 uid 1000 gid 100 size 18446744073709551615",
    ),
    (
        Said::Denied(Need::Search),
        "denied EACCES 13 walk 2 step 7 need search rule mask",
    ),
    (
        Said::Denied(Need::Perm(READ)),
        "denied EACCES 13 walk 2 step 7 need perm r-- rule mask",
    ),
    (
        Said::Denied(Need::Own),
        "denied EPERM 1 walk 2 step 7 need own rule mask",
    ),
    (
        Said::Denied(Need::Chown),
        "denied EPERM 1 walk 2 step 7 need chown rule mask",
    ),
    (
        Said::Denied(Need::Chgrp),
        "denied EPERM 1 walk 2 step 7 need chgrp rule mask",
    ),
    (
        Said::Denied(Need::Remove),
        "denied EPERM 1 walk 2 step 7 need remove rule mask",
    ),
];

static ERRORS: [(Said, &str); 20] = [
    (Said::Failed(Errno::EPERM), "error EPERM 1"),
    (Said::Failed(Errno::ENOENT), "error ENOENT 2"),
    (Said::Failed(Errno::ESRCH), "error ESRCH 3"),
    (Said::Failed(Errno::EIO), "error EIO 5"),
    (Said::Failed(Errno::EBADF), "error EBADF 9"),
    (Said::Failed(Errno::EAGAIN), "error EAGAIN 11"),
    (Said::Failed(Errno::ENOMEM), "error ENOMEM 12"),
    (Said::Failed(Errno::EACCES), "error EACCES 13"),
    (Said::Failed(Errno::EBUSY), "error EBUSY 16"),
    (Said::Failed(Errno::EEXIST), "error EEXIST 17"),
    (Said::Failed(Errno::ENOTDIR), "error ENOTDIR 20"),
    (Said::Failed(Errno::EISDIR), "error EISDIR 21"),
    (Said::Failed(Errno::EINVAL), "error EINVAL 22"),
    (Said::Failed(Errno::EMFILE), "error EMFILE 24"),
    (Said::Failed(Errno::EFBIG), "error EFBIG 27"),
    (Said::Failed(Errno::ENOSPC), "error ENOSPC 28"),
    (Said::Failed(Errno::EMLINK), "error EMLINK 31"),
    (Said::Failed(Errno::ENAMETOOLONG), "error ENAMETOOLONG 36"),
    (Said::Failed(Errno::ENOTEMPTY), "error ENOTEMPTY 39"),
    (Said::Failed(Errno::ELOOP), "error ELOOP 40"),
];

static GRANTS: [(Said, &str); 13] = [
    (Said::Granted(Rule::Owner), "granted owner"),
    (Said::Granted(Rule::NamedUser(1001)), "granted user:1001"),
    (Said::Granted(Rule::OwningGroup), "granted group"),
    (Said::Granted(Rule::NamedGroup(6)), "granted group:6"),
    (Said::Granted(Rule::Mask), "granted mask"),
    (Said::Granted(Rule::Other), "granted other"),
    (
        Said::Granted(Rule::Capability(Caps::DAC_OVERRIDE)),
        "granted cap:dac-override",
    ),
    (
        Said::Granted(Rule::Capability(Caps::DAC_READ_SEARCH)),
        "granted cap:dac-read-search",
    ),
    (Said::Granted(Rule::NoExecuteBit), "granted no-execute-bit"),
    (Said::Granted(Rule::NotOwner), "granted not-owner"),
    (Said::Granted(Rule::NoCapability), "granted no-capability"),
    (Said::Granted(Rule::NotMember), "granted not-member"),
    (Said::Granted(Rule::Sticky), "granted sticky"),
];

static OTHERS: [(Said, &str); 10] = [
    (Said::Done, "ok"),
    (
        Said::Pid(18_446_744_073_709_551_615),
        "pid 18446744073709551615",
    ),
    (Said::Fd(3), "fd 3"),
    (Said::Wrote(5), "wrote 5"),
    (Said::At(71679), "at 71679"),
    (Said::Mask(0o22), "umask 0022"),
    (Said::NoAcl, "acl none"),
    (Said::Space, "free 878 blocks 62 inodes"),
    (Said::Opened(0, 3), "handle 0 inode 3"),
    (Said::Made(4), "made 4"),
];

static OWNED: [(Said, &str); 5] = [
    (Said::Data(b"\0\0\0a"), "data \\00\\00\\00a"),
    (Said::Data(b""), "data \"\""),
    (
        Said::Target(b"a \\\"~\x7f\xff"),
        "target a\\20\\5c\\22~\\7f\\ff",
    ),
    (
        Said::List(b"u::rw-,u:1001:rw-,g::r--,m::rw-,o::---"),
        "acl user::rw-,user:1001:rw-,group::r--,mask::rw-,other::---",
    ),
    (
        Said::Names(&[(b".", 2), (b"..", 1), (b"a b", 3)]),
        "list 2:. 1:.. 3:a\\20b",
    ),
];

fn status(kind: FileType) -> Reply {
    Reply::Shown(Status {
        ino: 3,
        kind,
        mode: 0o644,
        links: 2,
        owner: 1000,
        group: 100,
        size: 18_446_744_073_709_551_615,
    })
}

fn denial(need: Need) -> Reply {
    Reply::Refused(Refusal::Denied(Denial {
        errno: need.errno(),
        walk: 2,
        step: 7,
        need,
        rule: Rule::Mask,
    }))
}

// The list of a text; where it says none, another reply.
fn list_of(alloc: Global, text: &[u8]) -> Reply {
    match Acl::parse_text(alloc, text) {
        Ok(acl) => Reply::Acl(Some(acl)),
        Err(_) => Reply::Acl(None),
    }
}

fn push_named(
    alloc: Global,
    listed: &mut Vec<Named>,
    name: &[u8],
    ino: u32,
) -> Result<(), AllocError> {
    let name = Name::from_slice(alloc, name)?;
    listed.push(Named { name, ino })?;
    Ok(())
}

fn push_names(
    alloc: Global,
    listed: &mut Vec<Named>,
    names: &[(&[u8], u32)],
) -> Result<(), AllocError> {
    for &(name, ino) in names {
        push_named(alloc, listed, name, ino)?;
    }
    Ok(())
}

fn names_of(alloc: Global, names: &[(&[u8], u32)]) -> Result<Reply, AllocError> {
    let mut listed = Vec::new(alloc);
    push_names(alloc, &mut listed, names)?;
    Ok(Reply::Names(Listing::new(listed)))
}

// A reply that owns bytes, or done.
fn owning(alloc: Global, said: Said) -> Result<Reply, AllocError> {
    match said {
        Said::Data(bytes) => Ok(Reply::Data(Bytes::from_slice(alloc, bytes)?)),
        Said::Target(bytes) => Ok(Reply::Target(Path::from_slice(alloc, bytes)?)),
        Said::List(text) => Ok(list_of(alloc, text)),
        Said::Names(names) => names_of(alloc, names),
        _ => Ok(Reply::Done),
    }
}

fn reply_of(alloc: Global, said: Said) -> Result<Reply, AllocError> {
    Ok(match said {
        Said::Pid(pid) => Reply::Pid(pid),
        Said::Fd(fd) => Reply::Fd(fd),
        Said::Wrote(count) => Reply::Wrote(count),
        Said::At(offset) => Reply::At(offset),
        Said::Mask(mask) => Reply::Mask(mask),
        Said::NoAcl => Reply::Acl(None),
        Said::Space => Reply::Space {
            sectors: 878,
            inodes: 62,
        },
        Said::Opened(handle, ino) => Reply::Opened { handle, ino },
        Said::Made(ino) => Reply::Made(ino),
        Said::Status(kind) => status(kind),
        Said::Denied(need) => denial(need),
        Said::Failed(errno) => Reply::Refused(Refusal::Failed(errno)),
        Said::Granted(rule) => Reply::Granted(rule),
        _ => return owning(alloc, said),
    })
}

fn text_of(alloc: Global, said: Said) -> Result<String, AllocError> {
    if let Said::Fault(fault) = said {
        return fault_text(alloc, fault);
    }
    let reply = reply_of(alloc, said)?;
    let text = reply_text(alloc, &reply);
    reply.discard();
    text
}

fn has_text(alloc: Global, said: Said, wanted: &str) -> Result<bool, AllocError> {
    let text = text_of(alloc, said)?;
    Ok(text.as_str() == wanted)
}

// The first text that its fault or reply doesn't have.
fn first_other(alloc: Global) -> Result<Option<&'static str>, AllocError> {
    for rows in [
        FAULTS.as_slice(),
        SHOWN.as_slice(),
        ERRORS.as_slice(),
        GRANTS.as_slice(),
        OTHERS.as_slice(),
        OWNED.as_slice(),
    ] {
        for &(said, wanted) in rows {
            if !has_text(alloc, said, wanted)? {
                return Ok(Some(wanted));
            }
        }
    }
    Ok(None)
}

#[test]
fn faults_and_replies_have_their_texts(rt: HostRuntime) -> Result<(), Fail> {
    let other = first_other(rt.alloc())?;
    assert!(rt; other == None, "{other:?}");
    Ok(())
}
