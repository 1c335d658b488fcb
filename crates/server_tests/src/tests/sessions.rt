//! Sessions of a server with a machine that is played, at one moment.
ghost use Rattle.std.specs.Prelude.{⊤};

use fs_cred::{Cred, CredFault};
use fs_model::{Actor, Call, Event, HandleCall, Reply};
use fuse_plans::{Asked, Response};
use fuse_protocol::{InitFlags, Offer, Operation, Time};
use fuse_requests::perform;
use fuse_sessions::Session;
use fuse_state::{Keeping, Settings};
use fuse_steps::Machine;
use std::alloc::{AllocError, Global};
use std::mem;

// What a machine replies. What it says nothing of is done, and nothing more.
pub(super) trait Player {
    // The reply to a call of an actor.
    fn reply_to(&mut self, _actor: &Actor, _call: &Call) -> Reply {
        Reply::Done
    }

    // The reply to what is done by a handle.
    fn reply_by(&mut self, _handle: u64, _call: &HandleCall) -> Reply {
        Reply::Done
    }

    // The reply to what is no call.
    fn heed(&mut self, _event: &Event) -> Reply {
        Reply::Done
    }
}

// A machine that is played.
#[derive(Drop)]
pub(super) struct Played<P> {
    player: P,
}

impl<P: Player> Machine for Played<P> {
    // Nothing is claimed of what is served.
    ghost Serves = { λ _ _ _ _. ⊤ };

    fn serve(&mut self, event: &Event) -> Reply {
        self.player.heed(event)
    }

    fn call_at(&mut self, actor: &Actor, call: &Call) -> Reply {
        self.player.reply_to(actor, call)
    }

    fn call_by(&mut self, handle: u64, call: &HandleCall) -> Reply {
        self.player.reply_by(handle, call)
    }

    fn write_by(&mut self, _handle: u64, _offset: u64, _bytes: &[u8]) -> Reply {
        Reply::Done
    }
}

// What is agreed on before a server serves: whether the disk keeps times, and after how many seconds all is made to last.
pub(super) fn settings(keeps_times: bool, commit: u32) -> Settings {
    Settings {
        max_write: 4096,
        posix_acl: false,
        keeping: Keeping::nothing(),
        sectors: 878,
        inodes: 64,
        max_name: 248,
        keeps_times,
        start: Time {
            seconds: 3,
            nanoseconds: 4,
        },
        commit,
    }
}

const OFFER: Offer = Offer {
    major: 7,
    minor: 45,
    max_readahead: 0,
    flags: InitFlags::POSIX_ACL,
};

// What somebody asks of a node.
fn asked(node: u64, needs_nobody: bool, cred: Cred) -> Asked {
    Asked {
        node,
        needs_nobody,
        cred: Some(cred),
        now: Time {
            seconds: 9,
            nanoseconds: 5,
        },
    }
}

// A session that begins.
pub(super) fn started<P: Player + Drop>(
    alloc: Global,
    player: P,
    settings: Settings,
) -> Result<Session<Played<P>>, AllocError> {
    match Session::new(alloc, Played { player }, settings) {
        Ok(session) => Ok(session),
        Err(_) => Err(AllocError),
    }
}

// Who played the machine of a session that ends.
pub(super) fn player_of<P: Player>(session: Session<Played<P>>) -> P {
    let Played { player } = session.into_machine();
    player
}

// The user and the group of who asks.
type Ids = (u32, u32);

// What a session answers to what somebody asks of a node.
pub(super) fn answer_in<P: Player>(
    session: &mut Session<Played<P>>,
    alloc: Global,
    node: u64,
    needs_nobody: bool,
    ids: Ids,
    operation: &Operation<'_>,
) -> Result<Response, CredFault> {
    let request = asked(node, needs_nobody, Cred::new(alloc, ids.0, ids.1, &[])?);
    let response = perform(session, request, None, operation)?;
    Ok(response)
}

// A session agrees with the kernel.
pub(super) fn agree<P: Player>(
    session: &mut Session<Played<P>>,
    alloc: Global,
) -> Result<(), CredFault> {
    let response = answer_in(session, alloc, 1, true, (0, 0), &Operation::Init(OFFER))?;
    mem::drop(response);
    Ok(())
}

// What it answers to what somebody asks of the root, once it has agreed with the kernel.
fn first_answer<P: Player>(
    session: &mut Session<Played<P>>,
    alloc: Global,
    ids: Ids,
    operation: &Operation<'_>,
) -> Result<Response, CredFault> {
    agree(session, alloc)?;
    let response = answer_in(session, alloc, 1, false, ids, operation)?;
    Ok(response)
}

// The answer of a session that has just begun, and who played the machine.
pub(super) fn answer_to<P: Player + Drop>(
    alloc: Global,
    player: P,
    keeps_times: bool,
    ids: Ids,
    operation: &Operation<'_>,
) -> Result<(Response, P), CredFault> {
    let mut session = started(alloc, player, settings(keeps_times, 0))?;
    let answer = first_answer(&mut session, alloc, ids, operation);
    let player = player_of(session);
    Ok((answer?, player))
}
