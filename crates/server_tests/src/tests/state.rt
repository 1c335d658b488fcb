//! What a server reckons with between requests: to which objects nodes lead, and times where the disk keeps none.
ghost use Rattle.std.specs.Prelude.{◌≤◌};

use crate::tests::sessions::settings;
use fs_model::{FileType, Status};
use fuse_protocol::Time;
use fuse_state::{RemovedDirectory, Server, Times};
use std::alloc::{AllocError, Global};
use std::mem;
use std::test::Fail;

// What happens, at a second where there is one, or what is asked. Objects and directories go by the numbers of their inodes.
#[derive(Clone, Copy)]
enum Step {
    // A directory has a new object.
    Made(u64, u32, u32),
    // A directory loses the name of an object, if it was that of one.
    Removed(u64, u32, Option<u32>),
    // A directory loses the name of a directory that was shown, without links and with the start's times.
    RemovedDirectory(u64, u32, u32),
    // The kernel forgets a node.
    Forgotten(u64),
    // A name goes from one directory to another: that of an object, and in place of that of another.
    Moved(u64, u32, u32, Option<u32>, Option<u32>),
    // A directory has one more name of an object.
    Linked(u64, u32, u32),
    // An object of a directory is opened; whether it is new, and whether it has lost its bytes.
    Opened(u64, u32, u32, bool, bool),
    Written(u64, u32),
    Changed(u64, u32),
    ModifiedAt(u64, u32),
    Kept(u64),
    Ends,
    Node(u32),
    Number(u64),
    Mtime(u32),
    Ctime(u32),
    // Of a directory that was removed, by its node: the number and the change time.
    RemovedNumber(u64),
    RemovedCtime(u64),
    KeptAt,
    IsEnded,
}

fn at(seconds: u64) -> Time {
    Time {
        seconds,
        nanoseconds: 0,
    }
}

fn set_modified(server: &mut Server, seconds: u64, ino: u32)
    requires { 1 ≤ server.old.room }
{
    let times = server.times_of(ino);
    let mtime = at(seconds);
    server.set_times(ino, Times { mtime, ..times });
}

// What is shown of an empty directory.
fn empty(ino: u32) -> Status {
    Status {
        ino,
        kind: FileType::Directory,
        mode: 0o755,
        links: 1,
        owner: 0,
        group: 0,
        size: 0,
    }
}

// What is shown of a directory that was removed: it has no links.
fn removed(server: &Server, node: u64) -> Option<RemovedDirectory> {
    server
        .removed_directory_of(node)
        .filter(|directory| directory.status.links == 0)
}

// What happens, if something does.
fn happens(server: &mut Server, step: Step)
    requires { 5 ≤ server.old.room }
{
    match step {
        Step::Made(now, dir, ino) => server.note_made(at(now), dir, ino),
        Step::Removed(now, dir, gone) => server.note_removed(at(now), dir, gone, None),
        Step::RemovedDirectory(now, dir, ino) => {
            let last = RemovedDirectory::new(at(now), empty(ino), server.times_of(ino));
            server.note_removed(at(now), dir, Some(ino), Some(last));
        }
        Step::Forgotten(node) => server.forget(node),
        Step::Moved(now, old, new, object, replaced) => {
            server.note_moved(at(now), old, new, object, replaced, None);
        }
        Step::Linked(now, dir, ino) => server.note_linked(at(now), dir, ino),
        Step::Opened(now, dir, ino, is_new, is_cut) => {
            server.note_opened(at(now), dir, ino, is_new, is_cut);
        }
        Step::Written(now, ino) => server.touch(at(now), ino),
        Step::Changed(now, ino) => server.change(at(now), ino),
        Step::ModifiedAt(seconds, ino) => set_modified(server, seconds, ino),
        Step::Kept(now) => server.note_kept(at(now)),
        Step::Ends => server.end(),
        _ => {}
    }
}

// The answer to what is asked; 0 for nothing, and where something happens.
fn answer(server: &Server, step: Step) -> u64 {
    match step {
        Step::Node(ino) => server.node_of(ino),
        Step::Number(node) => u64::from(server.number_of(node).unwrap_or(0)),
        Step::Mtime(ino) => server.times_of(ino).mtime.seconds,
        Step::Ctime(ino) => server.times_of(ino).ctime.seconds,
        Step::RemovedNumber(node) => {
            removed(server, node).map_or(0, |directory| u64::from(directory.status.ino))
        }
        Step::RemovedCtime(node) => {
            removed(server, node).map_or(0, |directory| directory.times.ctime.seconds)
        }
        Step::KeptAt => server.kept_at().seconds,
        Step::IsEnded => u64::from(server.is_ended()),
        _ => 0,
    }
}

// What happens to a server, or what it is asked.
pub(super) trait Row: Copy {
    // The answer: 0 for nothing, and where something happens.
    fn answer_of(self, server: &mut Server, alloc: Global) -> Result<u64, AllocError>;
}

impl Row for Step {
    fn answer_of(self, server: &mut Server, _alloc: Global) -> Result<u64, AllocError> {
        server.prepare()?;
        happens(server, self);
        Ok(answer(server, self))
    }
}

static ROWS: [(Step, u64); 75] = [
    // The root is node 1. A number that no new object was given is its own node.
    (Step::Node(1), 1),
    (Step::Number(1), 1),
    (Step::Number(5), 5),
    // A new object: the node of the one before it is stale, and that of the next one too.
    (Step::Made(10, 1, 5), 0),
    (Step::Node(5), 4_294_967_301),
    (Step::Number(4_294_967_301), 5),
    (Step::Number(5), 0),
    (Step::Number(8_589_934_597), 0),
    (Step::Node(6), 6),
    (Step::Mtime(5), 10),
    (Step::Ctime(5), 10),
    (Step::Mtime(1), 10),
    // Names that come and go leave the node as it is, and the time of the contents.
    (Step::Linked(20, 1, 5), 0),
    (Step::Ctime(5), 20),
    (Step::Mtime(1), 20),
    (Step::Removed(30, 1, Some(5)), 0),
    (Step::Ctime(5), 30),
    (Step::Mtime(1), 30),
    (Step::Removed(35, 1, None), 0),
    (Step::Ctime(5), 30),
    (Step::Mtime(1), 35),
    (Step::Moved(40, 1, 7, Some(5), Some(6)), 0),
    (Step::Ctime(5), 40),
    (Step::Ctime(6), 40),
    (Step::Mtime(6), 3),
    (Step::Mtime(1), 40),
    (Step::Mtime(7), 40),
    (Step::Moved(45, 7, 7, None, None), 0),
    (Step::Mtime(7), 45),
    (Step::Mtime(1), 40),
    (Step::Ctime(5), 40),
    (Step::Mtime(5), 10),
    (Step::Node(5), 4_294_967_301),
    // The number is given again.
    (Step::Made(50, 7, 5), 0),
    (Step::Number(4_294_967_301), 0),
    (Step::Number(8_589_934_597), 5),
    (Step::Mtime(5), 50),
    // What is opened is new, has lost its bytes, or is as it was.
    (Step::Opened(60, 7, 10, true, false), 0),
    (Step::Node(10), 4_294_967_306),
    (Step::Mtime(7), 60),
    (Step::Opened(70, 7, 10, false, true), 0),
    (Step::Mtime(10), 70),
    (Step::Opened(80, 7, 10, false, false), 0),
    (Step::Mtime(10), 70),
    (Step::Mtime(7), 60),
    (Step::Node(10), 4_294_967_306),
    // Times: at first that of the server's start.
    (Step::Mtime(8), 3),
    (Step::Ctime(8), 3),
    (Step::Written(90, 8), 0),
    (Step::Changed(95, 8), 0),
    (Step::Mtime(8), 90),
    (Step::Ctime(8), 95),
    (Step::ModifiedAt(2, 8), 0),
    (Step::Mtime(8), 2),
    (Step::Ctime(8), 95),
    // What is shown of a directory that was removed stays, also once its number is given again, until its node is forgotten.
    (Step::RemovedNumber(11), 0),
    (Step::RemovedDirectory(97, 7, 11), 0),
    (Step::Mtime(7), 97),
    (Step::RemovedNumber(11), 11),
    (Step::RemovedCtime(11), 97),
    (Step::Made(98, 1, 11), 0),
    (Step::Ctime(11), 98),
    (Step::RemovedCtime(11), 97),
    (Step::RemovedNumber(4_294_967_307), 0),
    (Step::Forgotten(4_294_967_307), 0),
    (Step::RemovedNumber(11), 11),
    (Step::Forgotten(11), 0),
    (Step::RemovedNumber(11), 0),
    // When all was last made to last, and the end.
    (Step::KeptAt, 3),
    (Step::Kept(99), 0),
    (Step::KeptAt, 99),
    (Step::Number(8_589_934_597), 5),
    (Step::IsEnded, 0),
    (Step::Ends, 0),
    (Step::IsEnded, 1),
];

// The first row that is answered otherwise, and how.
fn other_answer<R: Row>(
    server: &mut Server,
    alloc: Global,
    rows: &[(R, u64)],
) -> Result<Option<(usize, u64)>, AllocError> {
    for (i, (row, wanted)) in rows.iter().enumerate() {
        let answer = row.answer_of(server, alloc)?;
        if answer != *wanted {
            return Ok(Some((i, answer)));
        }
    }
    Ok(None)
}

// The same of a server that begins.
pub(super) fn first_other<R: Row>(
    alloc: Global,
    rows: &[(R, u64)],
) -> Result<Option<(usize, u64)>, AllocError> {
    let mut server = Server::new(alloc, settings(false, 0));
    let other = other_answer(&mut server, alloc, rows);
    mem::drop(server);
    other
}

#[test]
fn answers_follow_changes(rt: HostRuntime) -> Result<(), Fail> {
    let other = first_other(rt.alloc(), &ROWS)?;
    assert!(rt; other == None, "{other:?}");
    Ok(())
}
