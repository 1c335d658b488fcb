//! READDIRPLUS at a machine that is played: which names are told, to what their nodes lead, and how large directories go on.

use crate::tests::sessions::{Played, Player, agree, answer_in, settings, started};
use fs_cred::{CredFault, Errno, Refusal};
use fs_model::{Actor, Call, FileType, HandleCall, Listing, Name, Named, Reply, Status};
use fuse_plans::{ReplyBody, Response};
use fuse_protocol::{Extent, Operation};
use fuse_sessions::Session;
use std::alloc::{AllocError, Global};
use std::test::Fail;
use std::{mem, str};

// A machine whose root has two files: `a` is inode 5, and `b` inode 6. It lists them in the other order.
#[derive(Drop)]
struct Root {
    alloc: Global,
}

fn named(alloc: Global, name: &[u8], ino: u32) -> Result<Named, AllocError> {
    let name = Name::from_slice(alloc, name)?;
    Ok(Named { name, ino })
}

fn push_names(alloc: Global, names: &mut Vec<Named>) -> Result<(), AllocError> {
    names.push(named(alloc, b"b", 6)?)?;
    names.push(named(alloc, b"a", 5)?)?;
    Ok(())
}

// The two names; with less memory fewer.
fn names(alloc: Global) -> Listing {
    let mut names = Vec::new(alloc);
    let _pushed = push_names(alloc, &mut names);
    Listing::new(names)
}

// What a name of the root leads to, if it is one of the two.
fn led_to(name: &[u8]) -> Option<u32> {
    match name.first() {
        Some(b'a') => Some(5),
        Some(b'b') => Some(6),
        _ => None,
    }
}

fn shown(ino: u32, kind: FileType) -> Reply {
    Reply::Shown(Status {
        ino,
        kind,
        mode: 0o755,
        links: 1,
        owner: 0,
        group: 0,
        size: 0,
    })
}

// What stat(2) shows of the object at which a path starts where that is empty, and else of the name.
fn looked_at(start: u32, name: &[u8]) -> Reply {
    let ino = if name.is_empty() {
        Some(start)
    } else {
        led_to(name)
    };
    match ino {
        Some(1) => shown(1, FileType::Directory),
        Some(5) => shown(5, FileType::File),
        Some(6) => shown(6, FileType::File),
        _ => Reply::Refused(Refusal::Failed(Errno::ENOENT)),
    }
}

// What an opened directory has.
const OPENED: Reply = Reply::Opened { handle: 0, ino: 1 };

impl Player for Root {
    fn reply_to(&mut self, actor: &Actor, call: &Call) -> Reply {
        match call {
            Call::Open(..) => OPENED,
            Call::Lstat(path) => looked_at(actor.start, path.bytes()),
            _ => Reply::Done,
        }
    }

    fn reply_by(&mut self, _handle: u64, call: &HandleCall) -> Reply {
        match call {
            HandleCall::List => Reply::Names(names(self.alloc)),
            _ => Reply::Done,
        }
    }
}

#[derive(Clone, Copy)]
enum Step {
    // The root is opened.
    Opened,
    // It is listed from an offset on, with room for so many bytes.
    Listed(u64, u32),
    // The attributes of a node are asked for.
    Shown(u64),
    // The kernel forgets a node once.
    Forgotten(u64),
}

// The handle of the first directory that is opened.
const HANDLE: u64 = 0;

// The node that is asked, and what.
fn asked_by(step: Step) -> (u64, Operation<'static>) {
    match step {
        Step::Opened => (1, Operation::OpenDir),
        Step::Listed(offset, size) => {
            let extent = Extent {
                handle: HANDLE,
                offset,
                size,
            };
            (1, Operation::ReadDirPlus(extent))
        }
        Step::Shown(node) => (node, Operation::GetAttr),
        Step::Forgotten(node) => (node, Operation::Forget(1)),
    }
}

// The number of the error, or 0; how many bytes were told; and the inode that is shown, or the first byte of them, with which the
// number of a node begins.
type Answer = (u8, usize, u32);

fn answer_of(response: Response) -> Answer {
    match response {
        Response::Says(ReplyBody::Bytes(told)) => {
            let bytes = told.bytes();
            (0, bytes.len(), bytes.first().copied().unwrap_or(0).into())
        }
        Response::Says(ReplyBody::Shown(attributes)) => (0, 0, attributes.status.ino),
        Response::Fails(error) => (error.number(), 0, 0),
        other => {
            mem::drop(other);
            (0, 0, 0)
        }
    }
}

// The request of user 0.
fn performed(
    session: &mut Session<Played<Root>>,
    alloc: Global,
    node: u64,
    operation: &Operation<'_>,
) -> Result<Answer, CredFault> {
    let response = answer_in(session, alloc, node, true, (0, 0), operation)?;
    Ok(answer_of(response))
}

const STALE: Answer = (116, 0, 0);

const DONE: Answer = (0, 0, 0);

// The offsets behind the names: SipHash-1-3 of each, without its last two bits, and three more.
const BEHIND_A: u64 = 1_161_104_296_400_832_007;

const BEHIND_B: u64 = 2_506_450_870_661_470_262;

// The record of a name of one letter has 160 bytes.
static ROWS: [(Step, Answer); 15] = [
    (Step::Opened, DONE),
    // Nodes lead to their objects before they are told, and once they are forgotten; but not where there is no such object, or
    // another one had the number.
    (Step::Shown(5), (0, 0, 5)),
    (Step::Shown(7), STALE),
    (Step::Shown(4_294_967_301), STALE),
    // There is room for no name, for one, and for both.
    (Step::Listed(0, 159), DONE),
    (Step::Listed(0, 319), (0, 160, 5)),
    (Step::Listed(0, 320), (0, 320, 5)),
    // A listing goes on behind an offset.
    (Step::Listed(BEHIND_A - 1, 320), (0, 320, 5)),
    (Step::Listed(BEHIND_A, 159), DONE),
    (Step::Listed(BEHIND_A, 320), (0, 160, 6)),
    (Step::Listed(BEHIND_B, 320), DONE),
    (Step::Forgotten(5), DONE),
    (Step::Shown(5), (0, 0, 5)),
    (Step::Shown(6), (0, 0, 6)),
    (Step::Listed(0, 319), (0, 160, 5)),
];

// The first row that a session answers otherwise, and how.
fn other_answer(
    session: &mut Session<Played<Root>>,
    alloc: Global,
    rows: &[(Step, Answer)],
) -> Result<Option<(usize, Answer)>, CredFault> {
    agree(session, alloc)?;
    for (i, (step, wanted)) in rows.iter().enumerate() {
        let (node, operation) = asked_by(*step);
        let answer = performed(session, alloc, node, &operation)?;
        if answer != *wanted {
            return Ok(Some((i, answer)));
        }
    }
    Ok(None)
}

// The same of a session that begins.
fn first_other(
    alloc: Global,
    rows: &[(Step, Answer)],
) -> Result<Option<(usize, Answer)>, CredFault> {
    let mut session = started(alloc, Root { alloc }, settings(false, 0))?;
    let other = other_answer(&mut session, alloc, rows);
    mem::drop(session);
    other
}

#[test]
fn names_are_told_with_their_nodes(rt: HostRuntime) -> Result<(), Fail> {
    let other = first_other(rt.alloc(), &ROWS)?;
    assert!(rt; other == None, "{other:?}");
    Ok(())
}

// ---- large directories

// A machine whose root has 300 files: their inodes are 100 to 399, and so are their names.
#[derive(Drop)]
struct Large {
    alloc: Global,
}

// The number that a name says; 1, that of the root, where it says none.
fn number_in(name: &[u8]) -> u32 {
    match str::from_utf8(name) {
        Ok(text) => text.parse::<u32>().unwrap_or(1),
        Err(_) => 1,
    }
}

fn push_files(alloc: Global, names: &mut Vec<Named>) -> Result<(), AllocError> {
    for ino in 100..400 {
        let name = format!(in alloc; "{ino}")?;
        names.push(named(alloc, name.as_bytes(), ino)?)?;
    }
    Ok(())
}

// The files; with less memory fewer.
fn files(alloc: Global) -> Listing {
    let mut names = Vec::new(alloc);
    let _pushed = push_files(alloc, &mut names);
    Listing::new(names)
}

impl Player for Large {
    fn reply_to(&mut self, _actor: &Actor, call: &Call) -> Reply {
        match call {
            Call::Open(..) => OPENED,
            Call::Lstat(path) => match number_in(path.bytes()) {
                1 => shown(1, FileType::Directory),
                ino => shown(ino, FileType::File),
            },
            _ => Reply::Done,
        }
    }

    fn reply_by(&mut self, _handle: u64, call: &HandleCall) -> Reply {
        match call {
            HandleCall::List => Reply::Names(files(self.alloc)),
            _ => Reply::Done,
        }
    }
}

// What requests have told so far.
#[derive(Clone, Copy)]
struct Tally {
    requests: usize,
    // The most names of one request.
    most: usize,
    // The offset behind the last name.
    offset: u64,
    // How often each number was told as a name.
    told: [u8; 400],
}

// The record of a name of three letters has so many bytes.
const RECORD: usize = 160;

// The offset in a record: eight bytes, the least significant first.
fn offset_in(record: &[u8]) -> u64 {
    let mut offset = 0;
    for at in 0..8 {
        let byte = record.get(143 - at).copied().unwrap_or(0);
        offset = offset << 8 | u64::from(byte);
    }
    offset
}

fn add_record(tally: &mut Tally, record: &[u8]) {
    tally.offset = offset_in(record);
    let number = number_in(record.get(152..155).unwrap_or(b""));
    if let Some(told) = tally.told.get_mut(number as usize) {
        *told = told.saturating_add(1);
    }
}

// Adds what a response tells, and says whether that is something.
fn add_response(tally: &mut Tally, response: Response) -> bool {
    let Response::Says(ReplyBody::Bytes(bytes)) = response else {
        return false;
    };
    let names = bytes.bytes().len() / RECORD;
    for record in bytes.bytes().chunks_exact(RECORD) {
        add_record(tally, record);
    }
    tally.requests = tally.requests.saturating_add(1);
    tally.most = tally.most.max(names);
    names > 0
}

// How many requests list the root with room for so many bytes, how many names the largest of them tells, and how many names are told once.
type Course = (usize, usize, usize);

fn list_root(
    session: &mut Session<Played<Large>>,
    alloc: Global,
    size: u32,
) -> Result<Course, CredFault> {
    let mut tally = Tally {
        requests: 0,
        most: 0,
        offset: 0,
        told: [0; 400],
    };
    for _request in 0..64 {
        let (node, operation) = asked_by(Step::Listed(tally.offset, size));
        let response = answer_in(session, alloc, node, true, (0, 0), &operation)?;
        if !add_response(&mut tally, response) {
            break;
        }
    }
    let once = tally.told.iter().filter(|told| **told == 1).count();
    Ok((tally.requests, tally.most, once))
}

fn open_root(session: &mut Session<Played<Large>>, alloc: Global) -> Result<(), CredFault> {
    agree(session, alloc)?;
    let (node, operation) = asked_by(Step::Opened);
    let response = answer_in(session, alloc, node, true, (0, 0), &operation)?;
    mem::drop(response);
    Ok(())
}

fn course_of(alloc: Global, size: u32) -> Result<Course, CredFault> {
    let mut session = started(alloc, Large { alloc }, settings(false, 0))?;
    let opened = open_root(&mut session, alloc);
    let course = list_root(&mut session, alloc, size);
    mem::drop(session);
    opened?;
    course
}

// However much the kernel has room for, one request tells at most 16 KiB: 102 names here. The last request tells none.
static COURSES: [(u32, Course); 4] = [
    (4_096, (13, 25, 300)),
    (16_383, (4, 102, 300)),
    (16_384, (4, 102, 300)),
    (1_048_576, (4, 102, 300)),
];

#[test]
fn large_directories_go_on(rt: HostRuntime) -> Result<(), Fail> {
    for (size, wanted) in &COURSES {
        let seen = course_of(rt.alloc(), *size)?;
        assert!(rt; seen == *wanted, "{size}: {seen:?}");
    }
    Ok(())
}
