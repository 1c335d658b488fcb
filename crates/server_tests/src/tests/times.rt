//! Times at a machine that is played: what a server whose disk keeps them tells it, asks it and shows.

use crate::tests::sessions::{Player, answer_to};
use bitflags::Flags;
use fs_cred::{CredFault, Errno, Refusal};
use fs_model::{Actor, Call, Event, FileType, Reply, Stamps, Status};
use fuse_plans::{ReplyBody, Response};
use fuse_protocol::{AttrChanges, NewTime, OpenFlags, Operation, Time};
use fuse_state::Times;
use std::alloc::Global;
use std::mem;
use std::test::Fail;

// The access time, that of the contents, and that of anything.
type Three<T> = [T; 3];

// What was heard of times: the present one that was told, how often those of the object were asked for, and what they were set to.
type Heard = (Option<u64>, u32, Option<Three<Option<u64>>>);

// A machine whose one object is a directory, unless that is gone. It has these times for it, unless it refuses.
#[derive(Drop)]
struct Directory {
    is_there: bool,
    stamps: Option<Stamps>,
    heard: Heard,
}

// What it shows of the directory.
const STATUS: Status = Status {
    ino: 1,
    kind: FileType::Directory,
    mode: 0o755,
    links: 1,
    owner: 0,
    group: 0,
    size: 0,
};

const NONE_THERE: Refusal = Refusal::Failed(Errno::ENOENT);

impl Directory {
    fn stamp(&mut self, new: Three<Option<u64>>) -> Reply {
        let (now, asked, set) = self.heard;
        self.heard = match new {
            [None, None, None] => (now, asked.saturating_add(1), set),
            _ => (now, asked, Some(new)),
        };
        match self.stamps {
            Some(stamps) => Reply::Stamped(stamps),
            None => Reply::Refused(NONE_THERE),
        }
    }
}

impl Player for Directory {
    fn heed(&mut self, event: &Event) -> Reply {
        match event {
            Event::Clock(now) => {
                self.heard.0 = Some(*now);
                Reply::Done
            }
            Event::Stamp {
                atime,
                mtime,
                ctime,
                ..
            } => self.stamp([*atime, *mtime, *ctime]),
            _ => Reply::Done,
        }
    }

    fn reply_to(&mut self, _actor: &Actor, call: &Call) -> Reply {
        if !self.is_there {
            return Reply::Refused(NONE_THERE);
        }
        match call {
            Call::Open(..) => Reply::Opened { handle: 0, ino: 1 },
            Call::Lstat(_) => Reply::Shown(STATUS),
            _ => Reply::Done,
        }
    }
}

// What is asked of the root.
#[derive(Clone, Copy)]
enum Ask {
    Times,
    // The access time and that of the contents are set.
    Set(Option<NewTime>, Option<NewTime>),
    Mode,
    Open(u32),
}

// Nothing is to change.
const SAME: AttrChanges = AttrChanges {
    mode: None,
    uid: None,
    gid: None,
    size: None,
    atime: None,
    mtime: None,
    handle: None,
};

fn operation_of(ask: Ask) -> Operation<'static> {
    match ask {
        Ask::Times => Operation::GetAttr,
        Ask::Set(atime, mtime) => Operation::SetAttr(AttrChanges {
            atime,
            mtime,
            ..SAME
        }),
        Ask::Mode => Operation::SetAttr(AttrChanges {
            mode: Some(0o700),
            ..SAME
        }),
        Ask::Open(flags) => Operation::Open(OpenFlags::from_bits_retain(flags)),
    }
}

// A number of seconds, and of nanoseconds.
type Shown = (u64, u32);

// The number of the error, or 0, and the times that are shown, if any are.
type Answer = (u8, Option<Three<Shown>>);

fn shown(time: Time) -> Shown {
    (time.seconds, time.nanoseconds)
}

fn answer_of(response: Response) -> Answer {
    match response {
        Response::Says(ReplyBody::Shown(attributes)) => {
            let Times {
                atime,
                mtime,
                ctime,
            } = attributes.times;
            (0, Some([shown(atime), shown(mtime), shown(ctime)]))
        }
        Response::Fails(error) => (error.number(), None),
        other => {
            mem::drop(other);
            (0, None)
        }
    }
}

// Whether the disk keeps times, whether the object is there, and the times that the machine has.
type Disk = (bool, bool, Option<Stamps>);

// The answer to a request of a server that has just begun, and what the machine heard.
fn answered(alloc: Global, disk: Disk, ask: Ask) -> Result<(Answer, Heard), CredFault> {
    let (keeps_times, is_there, stamps) = disk;
    let directory = Directory {
        is_there,
        stamps,
        heard: (None, 0, None),
    };
    let (response, directory) = answer_to(
        alloc,
        directory,
        keeps_times,
        (0, 0),
        &operation_of(ask),
    )?;
    Ok((answer_of(response), directory.heard))
}

// The second time isn't known.
const STAMPS: Stamps = Stamps {
    atime: 1_500_000_000,
    mtime: 0,
    ctime: 7_000_000_002,
};

const KEEPS: Disk = (true, true, Some(STAMPS));

const KEEPS_NONE: Disk = (false, true, None);

const REFUSES: Disk = (true, true, None);

const GONE: Disk = (true, false, Some(STAMPS));

// What is shown of `STAMPS`, of a server that has just begun, and once it has changed something.
const TIMES: Three<Shown> = [(1, 500_000_000), (3, 4), (7, 2)];

const START: Three<Shown> = [(3, 4), (3, 4), (3, 4)];

const CHANGED: Three<Shown> = [(3, 4), (3, 4), (9, 5)];

const NOW: u64 = 9_000_000_005;

const SILENT: Heard = (None, 0, None);

// Before 1970 as the kernel counts, and the last second that fits.
const BEFORE: NewTime = NewTime::At {
    seconds: u64::MAX,
    nanoseconds: 999_999_999,
};

const LATER: NewTime = NewTime::At {
    seconds: 18_446_744_074,
    nanoseconds: 0,
};

const ROWS: [(Disk, Ask, Answer, Heard); 13] = [
    // A disk that keeps no times is asked for none.
    (KEEPS_NONE, Ask::Times, (0, Some(START)), SILENT),
    (KEEPS_NONE, Ask::Mode, (0, Some(CHANGED)), SILENT),
    (
        KEEPS_NONE,
        Ask::Set(None, Some(BEFORE)),
        (0, Some([(3, 4), (u64::MAX, 999_999_999), (9, 5)])),
        SILENT,
    ),
    (KEEPS_NONE, Ask::Open(0o1000), (0, None), SILENT),
    // One that keeps them is asked, and what isn't known is shown as the server's start.
    (KEEPS, Ask::Times, (0, Some(TIMES)), (None, 1, None)),
    (KEEPS, Ask::Mode, (0, Some(TIMES)), (Some(NOW), 1, None)),
    // What is set is the nearest that can be counted, and the third time is the present one.
    (
        KEEPS,
        Ask::Set(None, Some(BEFORE)),
        (0, Some(TIMES)),
        (Some(NOW), 1, Some([None, Some(1), Some(NOW)])),
    ),
    (
        KEEPS,
        Ask::Set(Some(NewTime::Now), Some(LATER)),
        (0, Some(TIMES)),
        (Some(NOW), 1, Some([Some(NOW), Some(u64::MAX), Some(NOW)])),
    ),
    // The time is told before a file loses its bytes, and not where it is only opened.
    (KEEPS, Ask::Open(0o1000), (0, None), (Some(NOW), 0, None)),
    (KEEPS, Ask::Open(0), (0, None), SILENT),
    // A refusal is a fault of the machine: EIO.
    (REFUSES, Ask::Times, (5, None), (None, 1, None)),
    // Of an object that is gone none are shown or set: ESTALE.
    (GONE, Ask::Times, (116, None), SILENT),
    (
        GONE,
        Ask::Set(None, Some(BEFORE)),
        (116, None),
        (Some(NOW), 0, None),
    ),
];

#[test]
fn times_that_the_disk_keeps(rt: HostRuntime) -> Result<(), Fail> {
    for (disk, ask, answer, heard) in &ROWS {
        let seen = answered(rt.alloc(), *disk, *ask)?;
        assert!(rt; seen == (*answer, *heard), "{seen:?}");
    }
    Ok(())
}
