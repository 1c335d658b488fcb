//! The loop of a server.
ghost use Rattle.std.specs.Prelude.{◌≡◌, ℕ, List, Ok, IfOk, IfErr, OnOk};
ghost use Rattle.fuse_protocol.specs.Requests.{request_of};
ghost use Rattle.fuse_serving.specs.Exchanges.{Passes};
ghost use Rattle.fuse_serving.specs.Rounds.{tells, asks_for, IsKnownAs, IsOfReply, ServedAll, Breaks, BrokenOff};
ghost use Rattle.fuse_serving.specs.Pieces.{ReadComesTo, ReadBreaks, ComesTo, SpokenServed, scene};

use crate::answer::answer;
use crate::caller::{Asker, Caller};
use crate::fault::ServeFault;
use crate::kernel::Kernel;
use crate::performer::Performer;
use crate::reply::write_response;
use crate::room::ReplyRoom;
use crate::witness::Witness;
use fuse_plans::{RequestError, Response, WhoCounts};
use fuse_protocol::{Request, RequestFault, parse_request};
use std::alloc::Global;

// Tells the answer, and whether it is taken; where there is no reply nothing is told.
fn tell<K: Kernel>(
    kernel: &mut K,
    room: &mut ReplyRoom,
    unique: u64,
    response: &Response,
) -> Result<bool, ServeFault>
    ensures told { IfOk result (λ taken. Passes K.Does kernel.old (tells unique response.now taken) kernel.new) }
    ensures fault { IfErr result (λ fault. IsOfReply fault) }
{
    if !write_response(room, unique, response)? {
        return Ok(true);
    }
    match kernel.write(&room.reply) {
        Ok(taken) => Ok(taken),
        Err(fault) => Err(ServeFault::Write(fault)),
    }
}

// What is known of who asks, where that counts.
fn learn<K: Kernel>(alloc: Global, kernel: &mut K, spoken: &Request<'_>, who: WhoCounts) -> Caller
    ensures passes { Passes K.Does kernel.old (asks_for who spoken.now result) kernel.new }
    ensures known { IsKnownAs who result }
{
    match who {
        WhoCounts::Nobody => Caller::unknown(),
        WhoCounts::User => Caller::user_alone(alloc),
        WhoCounts::Process => kernel.caller(spoken.pid, spoken.uid, spoken.gid),
    }
}

// Serves a request whose body is of its form.
fn serve_spoken<P: Performer, K: Kernel, W: Witness>(
    alloc: Global,
    performer: &mut P,
    kernel: &mut K,
    witness: &mut W,
    room: &mut ReplyRoom,
    spoken: &Request<'_>,
) -> Result<(), ServeFault>
    ensures served { OnOk result (SpokenServed P.Serves K.Does spoken.now
        (scene P.machine P.server performer.old kernel.old) (scene P.machine P.server performer.new kernel.new)) }
    ensures broken { IfErr result (λ fault. (bytes : List ℕ) → request_of bytes ≡ Ok spoken.now → ReadBreaks P.Serves K.Does bytes fault
        (scene P.machine P.server performer.old kernel.old) (scene P.machine P.server performer.new kernel.new)) }
{
    let now = match kernel.now() {
        Ok(now) => now,
        Err(fault) => return Err(ServeFault::Clock(fault)),
    };
    performer.keep_due(now);
    let who = performer.who_counts(spoken.node, spoken.uid, &spoken.operation);
    let caller = learn(alloc, kernel, spoken, who);
    let response = answer(
        alloc,
        performer,
        spoken,
        &Asker {
            caller,
            needs_nobody: who.is_nobody(),
            time: now,
        },
    );
    witness.see(spoken, &response, now);
    let _taken = tell(kernel, room, spoken.unique, &response)?;
    Ok(())
}

// Serves the request that was read; false where it isn't whole.
fn serve_read<P: Performer, K: Kernel, W: Witness>(
    alloc: Global,
    performer: &mut P,
    kernel: &mut K,
    witness: &mut W,
    room: &mut ReplyRoom,
    bytes: &[u8],
) -> Result<bool, ServeFault>
    ensures served { IfOk result (ReadComesTo P.Serves K.Does bytes.now
        (scene P.machine P.server performer.old kernel.old) (scene P.machine P.server performer.new kernel.new)) }
    ensures broken { IfErr result (λ fault. ReadBreaks P.Serves K.Does bytes.now fault
        (scene P.machine P.server performer.old kernel.old) (scene P.machine P.server performer.new kernel.new)) }
{
    match parse_request(bytes) {
        Ok(spoken) => {
            serve_spoken(alloc, performer, kernel, witness, room, &spoken)?;
            Ok(true)
        }
        Err(RequestFault::Malformed(unique)) => {
            let _taken = tell(kernel, room, unique, &Response::Fails(RequestError::EINVAL))?;
            Ok(true)
        }
        Err(RequestFault::NotWhole) => Ok(false),
    }
}

// Serves the next request; false where no more are served.
fn serve_next<P: Performer, K: Kernel, W: Witness>(
    alloc: Global,
    performer: &mut P,
    kernel: &mut K,
    witness: &mut W,
    buffer: &mut [u8],
    room: &mut ReplyRoom,
) -> Result<bool, ServeFault>
    ensures served { IfOk result (ComesTo P.Serves K.Does
        (scene P.machine P.server performer.old kernel.old) (scene P.machine P.server performer.new kernel.new)) }
    ensures broken { IfErr result (λ fault. Breaks P.Serves K.Does fault
        (scene P.machine P.server performer.old kernel.old) (scene P.machine P.server performer.new kernel.new)) }
{
    if performer.is_ended() {
        return Ok(false);
    }
    let size = match kernel.read(buffer) {
        Ok(Some(size)) => size,
        Ok(None) => return Ok(false),
        Err(fault) => return Err(ServeFault::Read(fault)),
    };
    let goes_on = serve_read(alloc, performer, kernel, witness, room, &buffer[..size])?;
    Ok(goes_on)
}

/// Serves the kernel's requests, one after another, until it is told to end, no more come, or one isn't whole.
///
/// The buffer has to be as large as the kernel asks: at least 8,192 bytes, and 80 more than the largest write.
///
/// # Errors
///
/// See [`ServeFault`]. What was served before stays. Where no request could be read, or the time isn't known, nothing more was asked;
/// where a reply could not be made or written, its request was performed.
pub fn serve<P: Performer, K: Kernel, W: Witness>(
    alloc: Global,
    performer: &mut P,
    kernel: &mut K,
    witness: &mut W,
    buffer: &mut [u8],
    room: &mut ReplyRoom,
) -> Result<(), ServeFault>
    ensures served { OnOk result (ServedAll P.Serves K.Does
        (scene P.machine P.server performer.old kernel.old) (scene P.machine P.server performer.new kernel.new)) }
    ensures broken { IfErr result (λ fault. BrokenOff P.Serves K.Does fault
        (scene P.machine P.server performer.old kernel.old) (scene P.machine P.server performer.new kernel.new)) }
{
    // Bounded, since each function has to end.
    for _ in 0..u64::MAX {
        if !serve_next(alloc, performer, kernel, witness, buffer, room)? {
            return Ok(());
        }
    }
    Ok(())
}
