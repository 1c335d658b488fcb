//! A server at a kernel that is played: without memory for any plan, and where it is due that all be made to last.
ghost use Rattle.std.specs.Prelude.{⊤};

use crate::tests::sessions::{self, Player, player_of, settings, started};
use fs_model::{Event, Reply};
use fuse_plans::{Asked, Response, WhoCounts};
use fuse_protocol::{Operation, Time};
use fuse_serving::{Caller, Kernel, Nobody, Performer, ReplyRoom, serve};
use fuse_sessions::Session;
use posix_acl::Acl;
use std::alloc::{AllocError, Global};
use std::io::{self, ErrorKind};
use std::mem;

// A machine that notes, by a letter each, that all is to be made to last, and that the free space is asked for.
#[derive(Drop)]
struct Noter {
    heard: Vec<u8>,
}

impl Player for Noter {
    fn heed(&mut self, event: &Event) -> Reply {
        let letter = match event {
            Event::Sync => b's',
            Event::Statfs => b'f',
            _ => b'-',
        };
        let _noted = self.heard.push(letter);
        Reply::Done
    }
}

type Machine = sessions::Played<Noter>;

// A session that begins, with such a machine.
fn begun(alloc: Global, commit: u32) -> Result<Session<Machine>, AllocError> {
    let noter = Noter {
        heard: Vec::new(alloc),
    };
    started(alloc, noter, settings(false, commit))
}

// A session that has no memory for any plan.
#[derive(Drop)]
struct Lacking {
    session: Session<Machine>,
}

impl Performer for Lacking {
    type Machine = Machine;

    ghost machine = { λ lacking. lacking.session.machine };

    // Nothing is claimed of what is served.
    ghost Serves = { λ _ _ _ _. ⊤ };

    ghost server = { λ lacking. lacking.session.server.server };

    fn is_ended(&self) -> bool {
        self.session.is_ended()
    }

    fn keep_due(&mut self, now: Time) {
        self.session.keep_due(now);
    }

    fn who_counts(&mut self, node: u64, uid: u32, operation: &Operation<'_>) -> WhoCounts {
        self.session.who_counts(node, uid, operation)
    }

    fn perform(
        &mut self,
        _asked: Asked,
        _value: Option<Option<Acl>>,
        _operation: &Operation<'_>,
    ) -> Result<Response, AllocError> {
        Err(AllocError)
    }
}

// What becomes of each write.
#[derive(Clone, Copy)]
enum Fate {
    Taken,
    Left,
    Failed,
}

// Requests, one a second from second 3 on, and what was written.
#[derive(Drop)]
struct Played<'a> {
    requests: &'a [&'a [u8]],
    next: usize,
    fate: Fate,
    written: Vec<u8>,
    writes: usize,
}

impl<'a> Kernel for Played<'a> {
    // Nothing is claimed of what passes.
    ghost Does = { λ _ _ _. ⊤ };

    fn read(&mut self, buffer: &mut [u8]) -> io::Result<Option<usize>> {
        let Some(request) = self.requests.get(self.next) else {
            return Ok(None);
        };
        let Some(front) = buffer.get_mut(..request.len()) else {
            return Err(io::Error::from(ErrorKind::InvalidInput));
        };
        front.copy_from_slice(request);
        self.next = self.next.saturating_add(1);
        Ok(Some(request.len()))
    }

    fn write(&mut self, reply: &[u8]) -> io::Result<bool> {
        self.writes = self.writes.saturating_add(1);
        match self.fate {
            Fate::Taken => match self.written.extend_from_slice(reply) {
                Ok(()) => Ok(true),
                Err(AllocError) => Err(io::Error::from(ErrorKind::OutOfMemory)),
            },
            Fate::Left => Ok(false),
            Fate::Failed => Err(io::Error::from(ErrorKind::BrokenPipe)),
        }
    }

    fn caller(&mut self, _pid: u32, _uid: u32, _gid: u32) -> Caller {
        Caller::unknown()
    }

    fn now(&mut self) -> io::Result<Time> {
        Ok(Time {
            seconds: (self.next as u64).saturating_add(2),
            nanoseconds: 0,
        })
    }
}

// Number 88 asks for a name, 100 forgets a node, 104 forgets two, 22 asks for a name with a slash, 9 asks for the free space; the last is
// cut short.
const LOOKUP: &[u8] =
    b"\x2a\0\0\0\x01\0\0\0\x58\0\0\0\0\0\0\0\x01\0\0\0\0\0\0\0\xe8\x03\0\0\x64\0\0\0\x6c\x76\0\0\0\0\0\0p\0";

const FORGET: &[u8] =
    b"\x30\0\0\0\x02\0\0\0\x64\0\0\0\0\0\0\0\x02\0\0\0\x01\0\0\0\0\0\0\0\0\0\0\0\0\0\0\0\0\0\0\0\x02\0\0\0\0\0\0\0";

const BATCH: &[u8] =
    b"\x50\0\0\0\x2a\0\0\0\x68\0\0\0\0\0\0\0\0\0\0\0\0\0\0\0\0\0\0\0\0\0\0\0\0\0\0\0\0\0\0\0\x02\0\0\0\0\0\0\0\
      \x08\0\0\0\0\0\0\0\x01\0\0\0\0\0\0\0\x09\0\0\0\0\0\0\0\x01\0\0\0\0\0\0\0";

const SLASH: &[u8] =
    b"\x2c\0\0\0\x01\0\0\0\x16\0\0\0\0\0\0\0\x01\0\0\0\0\0\0\0\0\0\0\0\0\0\0\0\x8d\x77\0\0\0\0\0\0a/b\0";

const SPACE: &[u8] =
    b"\x28\0\0\0\x11\0\0\0\x09\0\0\0\0\0\0\0\x01\0\0\0\0\0\0\0\0\0\0\0\0\0\0\0\0\0\0\0\0\0\0\0";

const CUT: &[u8] = b"\x2c\0\0\0\x01\0\0\0";

// Errors 12 and 22, and the request's number.
const NO_MEMORY: &[u8] = b"\x10\0\0\0\xf4\xff\xff\xff\x58\0\0\0\0\0\0\0";

const INVALID: &[u8] = b"\x10\0\0\0\xea\xff\xff\xff\x16\0\0\0\0\0\0\0";

// How many requests were read and how many replies written, and whether it ended well.
type Seen = (usize, usize, bool);

type Row = (
    &'static [&'static [u8]],
    Fate,
    Seen,
    &'static [&'static [u8]],
);

static ROWS: [Row; 6] = [
    (&[], Fate::Taken, (0, 0, true), &[]),
    (
        &[LOOKUP, FORGET, BATCH, SLASH],
        Fate::Taken,
        (4, 2, true),
        &[NO_MEMORY, INVALID],
    ),
    (
        &[SLASH, LOOKUP],
        Fate::Taken,
        (2, 2, true),
        &[INVALID, NO_MEMORY],
    ),
    (
        &[LOOKUP, CUT, LOOKUP],
        Fate::Taken,
        (2, 1, true),
        &[NO_MEMORY],
    ),
    (&[LOOKUP, SLASH], Fate::Left, (2, 2, true), &[]),
    (&[FORGET, LOOKUP, SLASH], Fate::Failed, (2, 1, false), &[]),
];

// Whether these replies were written, one after the other and nothing besides.
fn is_made_of(written: &[u8], replies: &[&[u8]]) -> bool {
    let mut rest = written;
    for reply in replies {
        let Some(behind) = rest.strip_prefix(*reply) else {
            return false;
        };
        rest = behind;
    }
    rest.is_empty()
}

// A kernel with these requests.
fn kernel_with<'a>(alloc: Global, requests: &'a [&'a [u8]], fate: Fate) -> Played<'a> {
    Played {
        requests,
        next: 0,
        fate,
        written: Vec::new(alloc),
        writes: 0,
    }
}

// Whether requests were served until the end.
fn is_served<P: Performer>(
    alloc: Global,
    performer: &mut P,
    kernel: &mut Played<'_>,
) -> Result<bool, AllocError> {
    let mut room = ReplyRoom::new(alloc)?;
    let mut buffer = [0; 128];
    let served = serve(
        alloc,
        performer,
        kernel,
        &mut Nobody,
        &mut buffer,
        &mut room,
    );
    Ok(served.is_ok())
}

// What was seen of a row's requests, and whether its replies were written.
fn seen_of(alloc: Global, row: &Row) -> Result<(Seen, bool), AllocError> {
    let (requests, fate, _, replies) = *row;
    let mut lacking = Lacking {
        session: begun(alloc, 0)?,
    };
    let mut kernel = kernel_with(alloc, requests, fate);
    let served = is_served(alloc, &mut lacking, &mut kernel);
    mem::drop(lacking);
    let seen = (kernel.next, kernel.writes, served?);
    Ok((seen, is_made_of(&kernel.written, replies)))
}

#[test]
fn requests_are_answered_in_turn(rt: HostRuntime) -> Result<(), AllocError> {
    for row in &ROWS {
        let seen = seen_of(rt.alloc(), row)?;
        assert!(rt; seen == (row.2, true), "{seen:?}");
    }
    Ok(())
}

// After so many seconds all is made to last, before the next request: the server begins in second 3. With 0 it never is.
static DUE: [(u32, &[u8]); 3] = [(0, b"ffff"), (1, b"fsfsfsf"), (2, b"ffsff")];

// What the machine heard of four requests.
fn heard_with(alloc: Global, commit: u32) -> Result<Vec<u8>, AllocError> {
    let mut session = begun(alloc, commit)?;
    let mut kernel = kernel_with(alloc, &[SPACE, SPACE, SPACE, SPACE], Fate::Taken);
    let served = is_served(alloc, &mut session, &mut kernel);
    mem::drop(kernel);
    let Noter { heard } = player_of(session);
    let _served = served?;
    Ok(heard)
}

// The first number of seconds with which it heard something else.
fn other_due(alloc: Global) -> Result<Option<u32>, AllocError> {
    for (commit, wanted) in &DUE {
        let heard = heard_with(alloc, *commit)?;
        if heard.as_slice() != *wanted {
            return Ok(Some(*commit));
        }
    }
    Ok(None)
}

#[test]
fn what_is_due_is_done_first(rt: HostRuntime) -> Result<(), AllocError> {
    let other = other_due(rt.alloc())?;
    assert!(rt; other == None, "{other:?}");
    Ok(())
}
