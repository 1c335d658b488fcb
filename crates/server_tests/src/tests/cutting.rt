//! Files that are to lose their bytes as they are opened, at a machine that is played: what it is asked for, and what it cuts.

use crate::tests::sessions::{Player, answer_to};
use bitflags::Flags as _;
use fs_cred::{CredFault, Errno, Refusal};
use fs_model::{Actor, Call, Flags, HandleCall, Reply};
use fuse_plans::Response;
use fuse_protocol::{OpenFlags, Operation};
use std::alloc::Global;
use std::mem;
use std::test::Fail;

// For reading, and for writing.
type Ways = (bool, bool);

// For what the file was opened, as often as that was asked, and how often it was cut.
type Heard = (Option<Ways>, u32, u32);

// A machine whose one object is a file. It grants these ways to open it.
#[derive(Drop)]
struct File {
    granted: Ways,
    heard: Heard,
}

impl File {
    fn open(&mut self, flags: Flags) -> Reply {
        let (_, opens, cuts) = self.heard;
        self.heard = (
            Some((flags.read, flags.write)),
            opens.saturating_add(1),
            cuts,
        );
        let (reads, writes) = self.granted;
        if (flags.read && !reads) || (flags.write && !writes) {
            return Reply::Refused(Refusal::Failed(Errno::EACCES));
        }
        if flags.trunc {
            self.cut();
        }
        Reply::Opened { handle: 0, ino: 1 }
    }

    fn cut(&mut self) {
        let (ways, opens, cuts) = self.heard;
        self.heard = (ways, opens, cuts.saturating_add(1));
    }
}

impl Player for File {
    fn reply_to(&mut self, _actor: &Actor, call: &Call) -> Reply {
        match call {
            Call::Open(_, flags, _) => return self.open(*flags),
            Call::Truncate(..) => self.cut(),
            _ => {}
        }
        Reply::Done
    }

    fn reply_by(&mut self, _handle: u64, call: &HandleCall) -> Reply {
        if let HandleCall::Resize(_) = call {
            self.cut();
        }
        Reply::Done
    }
}

// The number of the error, or 0.
fn number_of(response: Response) -> u8 {
    match response {
        Response::Fails(error) => error.number(),
        other => {
            mem::drop(other);
            0
        }
    }
}

// The answer to an OPEN with these flags, and what the machine heard.
fn answered(alloc: Global, granted: Ways, flags: u32) -> Result<(u8, Heard), CredFault> {
    let file = File {
        granted,
        heard: (None, 0, 0),
    };
    let open = Operation::Open(OpenFlags::from_bits_retain(flags));
    let (response, file) = answer_to(alloc, file, false, (1000, 100), &open)?;
    Ok((number_of(response), file.heard))
}

const READS: Ways = (true, false);

const WRITES: Ways = (false, true);

const BOTH: Ways = (true, true);

static ROWS: [(Ways, u32, (u8, Heard)); 9] = [
    // A file that is to lose its bytes is asked for both at once, also where it is opened for reading alone: EACCES, and nothing is cut.
    (WRITES, 0o1000, (13, (Some(BOTH), 1, 0))),
    (READS, 0o1000, (13, (Some(BOTH), 1, 0))),
    (READS, 0o1001, (13, (Some(WRITES), 1, 0))),
    (WRITES, 0o1002, (13, (Some(BOTH), 1, 0))),
    // Where that is granted it is cut once.
    (BOTH, 0o1000, (0, (Some(BOTH), 1, 1))),
    (WRITES, 0o1001, (0, (Some(WRITES), 1, 1))),
    (BOTH, 0o1002, (0, (Some(BOTH), 1, 1))),
    // Without O_TRUNC it keeps them.
    (READS, 0, (0, (Some(READS), 1, 0))),
    (WRITES, 0, (13, (Some(READS), 1, 0))),
];

#[test]
fn files_that_are_cut(rt: HostRuntime) -> Result<(), Fail> {
    for (granted, flags, wanted) in &ROWS {
        let seen = answered(rt.alloc(), *granted, *flags)?;
        assert!(rt; seen == *wanted, "{seen:?}");
    }
    Ok(())
}
