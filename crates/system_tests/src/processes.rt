//! What no clause says of the table: that it serves 64 processes of 32 descriptors, and what follows from what.
use fs_cred::{Cred, Errno};
use open_files::{Descriptor, Procs};
use std::alloc::Global;
use std::mem;

// A call, with what it is told: process, descriptor, inode, offset or mask.
#[derive(Clone, Copy)]
enum Step {
    Spawn,
    Exit(usize),
    Open(usize, u32),
    Close(usize, usize),
    Seek(usize, usize, u64),
    Offset(usize, usize),
    Umask(usize, u16),
    SetCwd(usize, u32),
    IsOpen(u32),
    IsOpenByOthers(usize, u32),
    IsOpenBesides(usize, usize, u32),
    InUse(u32),
}

fn tried(procs: &mut Procs, alloc: Global) -> Result<u64, Errno> {
    let Ok(cred) = Cred::new(alloc, 1000, 100, &[]) else {
        return Err(Errno::ENOMEM);
    };
    let pid = procs.spawn(cred)?;
    Ok(pid as u64)
}

// Where there was no memory, it is asked once more: the answer shows that nothing had changed.
fn spawned(procs: &mut Procs, alloc: Global) -> Result<u64, Errno> {
    match tried(procs, alloc) {
        Err(Errno::ENOMEM) => tried(procs, alloc),
        answer => answer,
    }
}

fn opened(procs: &mut Procs, pid: usize, ino: u32) -> Result<u64, Errno> {
    let fd = procs.open_slot(pid)?;
    let descriptor = Descriptor {
        ino,
        offset: 0,
        read: true,
        write: false,
        append: false,
    };
    procs.open(pid, fd, descriptor);
    Ok(fd as u64)
}

fn closed(procs: &mut Procs, pid: usize, fd: usize) -> Result<u64, Errno> {
    let _descriptor = procs.get(pid, fd)?;
    procs.close(pid, fd);
    Ok(0)
}

fn sought(procs: &mut Procs, pid: usize, fd: usize, offset: u64) -> Result<u64, Errno> {
    let _descriptor = procs.get(pid, fd)?;
    procs.seek(pid, fd, offset);
    Ok(offset)
}

fn moved(procs: &mut Procs, pid: usize, ino: u32) -> Result<u64, Errno> {
    let _process = procs.process(pid)?;
    procs.stand_at(pid, ino);
    Ok(0)
}

fn open_by_others(procs: &Procs, pid: usize, ino: u32) -> Result<u64, Errno> {
    let _process = procs.process(pid)?;
    Ok(u64::from(procs.is_open_by_others(pid, ino)))
}

fn open_besides(procs: &Procs, pid: usize, fd: usize, ino: u32) -> Result<u64, Errno> {
    let _descriptor = procs.get(pid, fd)?;
    Ok(u64::from(procs.is_open_besides(pid, fd, ino)))
}

// The answer, 1 for true and 0 for nothing.
fn answered(procs: &mut Procs, alloc: Global, step: Step) -> Result<u64, Errno> {
    match step {
        Step::Spawn => spawned(procs, alloc),
        Step::Exit(pid) => procs.exit(pid).map(|_| 0),
        Step::Open(pid, ino) => opened(procs, pid, ino),
        Step::Close(pid, fd) => closed(procs, pid, fd),
        Step::Seek(pid, fd, offset) => sought(procs, pid, fd, offset),
        Step::Offset(pid, fd) => procs.get(pid, fd).map(|descriptor| descriptor.offset),
        Step::Umask(pid, mask) => procs.umask(pid, mask).map(|old| u64::from(old)),
        Step::SetCwd(pid, ino) => moved(procs, pid, ino),
        Step::IsOpen(ino) => Ok(u64::from(procs.is_open(ino))),
        Step::IsOpenByOthers(pid, ino) => open_by_others(procs, pid, ino),
        Step::IsOpenBesides(pid, fd, ino) => open_besides(procs, pid, fd, ino),
        Step::InUse(ino) => Ok(u64::from(procs.in_use(ino))),
    }
}

// Whether a call, made so many times, answers the first answer and those that follow it.
fn are_answered(
    procs: &mut Procs,
    alloc: Global,
    step: Step,
    count: u64,
    first: Result<u64, Errno>,
) -> bool {
    let mut same = true;
    for i in 0..count {
        let wanted = match first {
            Ok(n) => Ok(n.saturating_add(i)),
            Err(errno) => Err(errno),
        };
        same = answered(procs, alloc, step) == wanted && same;
    }
    same
}

// Which call, how often, and what the first of them answers.
static CALLS: [(Step, u64, Result<u64, Errno>); 50] = [
    // Numbers rise from 1, and there are 64 processes.
    (Step::Spawn, 64, Ok(1)),
    (Step::Spawn, 2, Err(Errno::EAGAIN)),
    (Step::Exit(40), 1, Ok(0)),
    (Step::Exit(40), 1, Err(Errno::ESRCH)),
    (Step::Spawn, 1, Ok(40)),
    (Step::Spawn, 1, Err(Errno::EAGAIN)),
    // Descriptors are given lowest first, and there are 32.
    (Step::Open(1, 5), 32, Ok(0)),
    (Step::Open(1, 5), 2, Err(Errno::EMFILE)),
    (Step::Close(1, 20), 1, Ok(0)),
    (Step::Close(1, 3), 1, Ok(0)),
    (Step::Close(1, 3), 1, Err(Errno::EBADF)),
    (Step::Open(1, 6), 1, Ok(3)),
    (Step::Open(1, 7), 1, Ok(20)),
    (Step::Open(2, 5), 2, Ok(0)),
    (Step::Open(65, 5), 1, Err(Errno::ESRCH)),
    (Step::Open(0, 5), 1, Err(Errno::ESRCH)),
    (Step::Close(1, 32), 1, Err(Errno::EBADF)),
    (Step::Close(65, 0), 1, Err(Errno::ESRCH)),
    // Each descriptor has an offset of its own.
    (Step::Offset(1, 3), 1, Ok(0)),
    (Step::Seek(1, 3, 4096), 1, Ok(4096)),
    (Step::Offset(1, 3), 1, Ok(4096)),
    (Step::Offset(1, 2), 1, Ok(0)),
    (Step::Offset(2, 3), 1, Err(Errno::EBADF)),
    // A umask is 022 at first, and has the bits 0777.
    (Step::Umask(1, 0o7077), 1, Ok(0o022)),
    (Step::Umask(1, 0), 1, Ok(0o077)),
    (Step::Umask(2, 0), 1, Ok(0o022)),
    (Step::Umask(65, 0), 1, Err(Errno::ESRCH)),
    // A directory is in use where it is the root, a current directory or open.
    (Step::InUse(1), 1, Ok(1)),
    (Step::InUse(5), 1, Ok(1)),
    (Step::InUse(9), 1, Ok(0)),
    (Step::SetCwd(2, 9), 1, Ok(0)),
    (Step::InUse(9), 1, Ok(1)),
    (Step::IsOpen(9), 1, Ok(0)),
    (Step::SetCwd(65, 9), 1, Err(Errno::ESRCH)),
    // What stays open after a close, and after an exit.
    (Step::IsOpenBesides(1, 3, 6), 1, Ok(0)),
    (Step::IsOpenBesides(1, 0, 6), 1, Ok(1)),
    (Step::IsOpenBesides(1, 0, 5), 1, Ok(1)),
    (Step::IsOpenByOthers(1, 6), 1, Ok(0)),
    (Step::IsOpenByOthers(2, 6), 1, Ok(1)),
    (Step::IsOpenByOthers(1, 5), 1, Ok(1)),
    (Step::Exit(1), 1, Ok(0)),
    (Step::IsOpen(6), 1, Ok(0)),
    (Step::IsOpen(5), 1, Ok(1)),
    (Step::IsOpenByOthers(2, 5), 1, Ok(0)),
    (Step::Exit(2), 1, Ok(0)),
    (Step::IsOpen(5), 1, Ok(0)),
    (Step::InUse(9), 1, Ok(0)),
    (Step::Offset(2, 0), 1, Err(Errno::ESRCH)),
    (Step::Spawn, 1, Ok(2)),
    (Step::Open(2, 5), 32, Ok(0)),
];

// The first row that is answered otherwise.
fn first_other(procs: &mut Procs, alloc: Global) -> Option<usize> {
    for (row, &(step, count, first)) in CALLS.iter().enumerate() {
        if !are_answered(procs, alloc, step, count, first) {
            return Some(row);
        }
    }
    None
}

#[test]
fn calls_are_answered(rt: HostRuntime) {
    let alloc = rt.alloc();
    let mut procs = Procs::new(alloc);
    let other = first_other(&mut procs, alloc);
    mem::drop(procs);
    assert!(rt; other.is_none(), "row {other:?}");
}
