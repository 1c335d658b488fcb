//! Bytes that are written by the handle of an open file, in runs.
ghost use Rattle.std.specs.Prelude.{◌≡◌, ℕ, List, ◌+◌, ◌^◌, ◌<◌, ◌≤◌, length, Some, Err, IsOk, IfOk, MatchResult};
ghost use Rattle.fuse_plans.specs.FilePlans.{write_piece, or_done, write_pieces, or_by_moves, write_runs, pieces_of, within_offsets};
ghost use Rattle.fuse_steps.specs.Performing.{DidByMachine};
ghost use Rattle.fuse_plans.specs.Works.{of_result, replied_count};

use crate::asker::obtain_write;
use crate::machine::Machine;
use crate::replies::{count_of_reply, count_within};
use fs_cred::Errno;
use fs_model::Reply;
use fuse_plans::{RequestError, Tried};

// So many bytes are written at once.
const WRITE_RUN: usize = 16_384;

// So many bytes are written at once where there is no space for a run.
const MOVE: usize = 4096;

// How many bytes were written, of so many.
fn written(most: usize, reply: Tried<Reply>) -> Tried<usize>
    ensures written { MatchResult reply (λ wrote. replied_count most wrote ≡ of_result result) (λ error. result ≡ Err error) }
    ensures most { IfOk result (λ count. count ≤ most) }
{
    let reply = reply?;
    let count = count_of_reply(&reply);
    reply.discard();
    match count_within(most, count) {
        Some(count) => Ok(count),
        None => Err(RequestError::EIO),
    }
}

// How many bytes were written of a piece.
fn write_piece<M: Machine>(machine: &mut M, handle: u64, offset: u64, piece: &[u8]) -> Tried<usize>
    ensures did { DidByMachine M.Serves (write_piece handle offset piece.now) machine.old machine.new result }
    ensures most { IfOk result (λ count. count ≤ length piece.now) }
{
    written(piece.len(), obtain_write(machine, handle, offset, piece))
}

// What was written before a refusal counts.
fn or_done(done: usize, wrote: Tried<usize>) -> Tried<usize>
    ensures done { or_done done wrote ≡ of_result result }
    ensures most { (most : ℕ) → IfOk wrote (λ count. count ≤ most) → IfOk result (λ count. count ≤ most) }
{
    match wrote {
        Ok(count) => Ok(count),
        Err(error) => { if done == 0 { Err(error) } else { Ok(0) } }
    }
}

// Pieces of so many bytes at most, until one is short or refused: how many bytes were written.
fn write_pieces<M: Machine>(
    machine: &mut M,
    handle: u64,
    offset: u64,
    most: usize,
    bytes: &[u8],
) -> Tried<usize>
    requires some { 0 < most }
    requires offset { offset + length bytes.now < 2 ^ 63 }
    ensures { DidByMachine M.Serves (write_pieces handle offset 0 (pieces_of most bytes.now)) machine.old machine.new result }
{
    let (mut rest, mut done) = (bytes, 0);
    for _round in 0..bytes.len() / most + 1 {
        let size = rest.len().min(most);
        if size == 0 {
            return Ok(done);
        }
        let (piece, behind) = rest.split_at(size);
        let at = offset + done as u64;
        let wrote = write_piece(machine, handle, at, piece);
        let count = or_done(done, wrote)?;
        done += count;
        if count < size {
            return Ok(done);
        }
        rest = behind;
    }
    Ok(done)
}

// Where there is no space for a run, and so nothing was written, the same bytes are written by moves.
fn or_by_moves<M: Machine>(
    machine: &mut M,
    handle: u64,
    offset: u64,
    bytes: &[u8],
    wrote: Tried<usize>,
) -> Tried<usize>
    requires { offset + length bytes.now < 2 ^ 63 }
    ensures { DidByMachine M.Serves (or_by_moves handle offset bytes.now wrote) machine.old machine.new result }
{
    match wrote {
        Ok(count) => Ok(count),
        Err(error) => {
            if !error.is_for(Errno::ENOSPC) {
                return Err(error);
            }
            write_pieces(machine, handle, offset, MOVE, bytes)
        }
    }
}

// Offsets have 63 bits.
const OFFSETS: u64 = 9_223_372_036_854_775_808;

/// No file reaches beyond the offsets of 63 bits: EFBIG.
pub fn within_offsets(offset: u64, bytes: &[u8]) -> Tried<()>
    ensures within { within_offsets offset bytes.now ≡ of_result result }
    ensures small { IsOk result → offset + length bytes.now < 2 ^ 63 }
{
    match offset.checked_add(bytes.len() as u64) {
        Some(end) if end < OFFSETS => Ok(()),
        _ => Err(RequestError::EFBIG),
    }
}

/// By runs, or by moves: how many bytes were written.
pub fn write_runs<M: Machine>(
    machine: &mut M,
    handle: u64,
    offset: u64,
    bytes: &[u8],
) -> Tried<usize>
    requires { offset + length bytes.now < 2 ^ 63 }
    ensures { DidByMachine M.Serves (write_runs handle offset bytes.now) machine.old machine.new result }
{
    let wrote = write_pieces(machine, handle, offset, WRITE_RUN, bytes);
    or_by_moves(machine, handle, offset, bytes, wrote)
}
