//! The sectors that a disk has still to write to its file.

ghost use Rattle.std.specs.Prelude.{◌<◌, ◌≤◌, ◌+◌, ℕ, [], All, false, length, slice_index, slice_range, OnOk, IfSome};
ghost use Rattle.sector_disk.specs.Files.{IfKnown, IsRunTried, HasRun, KeepsKnown, FollowsBefore};

use crate::{Disk, DiskFile, MemDisk};
use std::io;

/// Writes to the file the sectors that wait, as reads give them: all, or those of the list in its order. Neighbours that follow one
/// another there are written in one call, as far as the buffer has room for them.
pub fn write_out<F: DiskFile>(
    file: &mut F,
    memory: &MemDisk,
    waiting: &[u32],
    all_wait: bool,
    buffer: &mut [[u8; 512]],
) -> io::Result<()>
    requires room { 0 < length buffer.old }
    requires in_disk { All (λ n. n < (⟦<MemDisk as Disk>⟧.state memory.now).size) waiting.now }
    requires follows { KeepsKnown (⟦<MemDisk as Disk>⟧.state memory.now) waiting.now all_wait (F.held file.old) }
    ensures follows { KeepsKnown (⟦<MemDisk as Disk>⟧.state memory.now) waiting.now all_wait (F.held file.new) }
    ensures done { OnOk result (KeepsKnown (⟦<MemDisk as Disk>⟧.state memory.now) [] false (F.held file.new)) }
{
    if all_wait {
        return write_all(file, memory, buffer);
    }
    write_waiting(file, memory, waiting, buffer)
}

// Writes neighbours to the file as reads give them, in one call: from where they stand, or through the buffer.
fn write_run<F: DiskFile>(
    file: &mut F,
    memory: &MemDisk,
    first: u32,
    end: u32,
    buffer: &mut [[u8; 512]],
) -> io::Result<()>
    requires order { first ≤ end }
    requires fits { end ≤ (⟦<MemDisk as Disk>⟧.state memory.now).size }
    requires room { end ≤ first + length buffer.old }
    ensures tried { IfKnown (IsRunTried first (slice_range (⟦<MemDisk as Disk>⟧.state memory.now).seen first end))
        (F.held file.old) (F.held file.new) }
    ensures done { OnOk result (IfSome (F.held file.new)
        (HasRun first (slice_range (⟦<MemDisk as Disk>⟧.state memory.now).seen first end))) }
{
    let run = &mut buffer[..(end - first) as usize];
    if let Some(stored) = memory.run(first, run.len()) {
        return file.write_run(first, stored);
    }
    memory.copy_run(first, run);
    file.write_run(first, run)
}

// Writes all sectors to the file as reads give them.
fn write_all<F: DiskFile>(
    file: &mut F,
    memory: &MemDisk,
    buffer: &mut [[u8; 512]],
) -> io::Result<()>
    requires room { 0 < length buffer.old }
    requires follows { FollowsBefore (⟦<MemDisk as Disk>⟧.state memory.now) 0 (F.held file.old) }
    ensures follows { FollowsBefore (⟦<MemDisk as Disk>⟧.state memory.now) 0 (F.held file.new) }
    ensures done { OnOk result (KeepsKnown (⟦<MemDisk as Disk>⟧.state memory.now) [] false (F.held file.new)) }
{
    let size = memory.size();
    let mut at = 0;
    while at < size {
        let len = buffer.len().min((size - at) as usize);
        let end = at + len as u32;
        write_run(file, memory, at, end, buffer)?;
        at = end;
    }
    Ok(())
}

// Neighbouring sectors, up to the one before `end`, and how many numbers of a list stand for them.
#[derive(Clone, Copy)]
struct Run {
    first: u32,
    end: u32,
    count: usize,
}

// Writes these sectors to the file as reads give them, in the order of the list. Neighbours that follow one another in it are
// written in one call, as far as the buffer has room for them.
fn write_waiting<F: DiskFile>(
    file: &mut F,
    memory: &MemDisk,
    waiting: &[u32],
    buffer: &mut [[u8; 512]],
) -> io::Result<()>
    requires room { 0 < length buffer.old }
    requires in_disk { All (λ n. n < (⟦<MemDisk as Disk>⟧.state memory.now).size) waiting.now }
    requires follows { KeepsKnown (⟦<MemDisk as Disk>⟧.state memory.now) waiting.now false (F.held file.old) }
    ensures follows { KeepsKnown (⟦<MemDisk as Disk>⟧.state memory.now) waiting.now false (F.held file.new) }
    ensures done { OnOk result (KeepsKnown (⟦<MemDisk as Disk>⟧.state memory.now) [] false (F.held file.new)) }
{
    let mut at = 0;
    while at < waiting.len() {
        let run = first_run(&waiting[at..], memory.size(), buffer.len());
        write_run(file, memory, run.first, run.end, buffer)?;
        at += run.count;
    }
    Ok(())
}

// The longest run, of at most so many sectors, that a list of numbers below `size` begins with.
fn first_run(waiting: &[u32], size: u32, most: usize) -> Run
    requires some { 0 < length waiting.now }
    requires room { 0 < most }
    requires in_disk { All (λ n. n < size) waiting.now }
    ensures some { 0 < result.count }
    ensures count { result.count ≤ length waiting.now }
    ensures end { result.end ≤ size }
    ensures order { result.first ≤ result.end }
    ensures fits { result.end ≤ result.first + most }
    ensures within { (i : ℕ) → i < result.count → (result.first ≤ slice_index waiting.now i) × (slice_index waiting.now i < result.end) }
{
    let first = waiting[0];
    let mut end = first;
    let mut count = 0;
    for n in waiting {
        if *n < first || *n > end {
            break;
        }
        if *n == end {
            if (end - first) as usize == most {
                break;
            }
            end += 1;
        }
        count += 1;
    }
    Run { first, end, count }
}
