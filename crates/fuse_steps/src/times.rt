//! Times: the machine is told the present one, and has those of objects, where its disk keeps them.
ghost use Rattle.std.specs.Prelude.{◌≡◌, Ok};
ghost use Rattle.fs_model.specs.declared.event.Event.TheVariants.{Stamp};
ghost use Rattle.fuse_plans.specs.AttributePlans.{time_after, stamp_set};
ghost use Rattle.fuse_plans.specs.Times.{tell_time_if, told_stamps_if, times_in};
ghost use Rattle.fuse_plans.specs.Works.{ask, of_result, replied_stamps};
ghost use Rattle.fuse_steps.specs.Performing.{DidByMachine};

use crate::asker::ask;
use crate::machine::Machine;
use crate::replies::stamps_of_reply;
use fs_model::{Event, Reply, Stamps};
use fuse_plans::{RequestError, Tried};
use fuse_protocol::{NewTime, Time};
use fuse_state::{Server, Times, stamp_of, times_shown};

/// The present time is told, if the disk keeps times. The reply doesn't count.
pub fn tell_time<M: Machine>(machine: &mut M, keeps_times: bool, now: Time)
    ensures { DidByMachine M.Serves (tell_time_if keeps_times now) machine.old machine.new (Ok tt) }
{
    if !keeps_times {
        return;
    }
    let event = Event::Clock(stamp_of(now));
    ask(machine, &event).discard();
    event.discard();
}

/// The reply to times of an object: those that are given are set.
pub fn ask_stamp<M: Machine>(
    machine: &mut M,
    ino: u32,
    atime: Option<u64>,
    mtime: Option<u64>,
    ctime: Option<u64>,
) -> Reply
    ensures { DidByMachine M.Serves (ask (Stamp ino atime mtime ctime)) machine.old machine.new (Ok result) }
{
    let event = Event::Stamp {
        ino,
        atime,
        mtime,
        ctime,
    };
    let reply = ask(machine, &event);
    event.discard();
    reply
}

/// The times in a reply. It is asked of no process: a refusal is a fault of the machine.
pub fn replied_stamps(reply: Reply) -> Tried<Stamps>
    ensures { replied_stamps reply ≡ of_result result }
{
    let stamps = stamps_of_reply(&reply);
    reply.discard();
    match stamps {
        Some(stamps) => Ok(stamps),
        None => Err(RequestError::EIO),
    }
}

/// The times that the machine has for an object, if the disk keeps times.
pub fn told_stamps<M: Machine>(
    machine: &mut M,
    keeps_times: bool,
    ino: u32,
) -> Tried<Option<Stamps>>
    ensures { DidByMachine M.Serves (told_stamps_if keeps_times ino) machine.old machine.new result }
{
    if !keeps_times {
        return Ok(None);
    }
    let reply = ask_stamp(machine, ino, None, None, None);
    let stamps = replied_stamps(reply)?;
    Ok(Some(stamps))
}

/// The times that are shown of an object: the machine's, where it has any.
pub fn times_in(server: &Server, ino: u32, stamps: Option<Stamps>) -> Times
    ensures { result ≡ times_in server.now.server ino stamps }
{
    match stamps {
        Some(stamps) => times_shown(server.settings().start, stamps),
        None => server.times_of(ino),
    }
}

/// A time that is set, or kept.
pub fn time_after(now: Time, old: Time, new: Option<NewTime>) -> Time
    ensures { result ≡ time_after now old new }
{
    match new {
        None => old,
        Some(NewTime::Now) => now,
        Some(
            NewTime::At {
                seconds,
                nanoseconds,
            },
        ) => Time {
            seconds,
            nanoseconds,
        },
    }
}

/// What the machine is to have of a time that is set.
pub fn stamp_set(now: Time, new: Option<NewTime>) -> Option<u64>
    ensures { result ≡ stamp_set now new }
{
    match new {
        None => None,
        Some(_) => Some(stamp_of(time_after(now, now, new))),
    }
}
