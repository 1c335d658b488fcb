//! What no clause says of a file system's methods: that they succeed, and that a halted one leaves its disk alone. Calls
//! and their replies are shown by the scripts of the shell.

use crate::mounts::{TestDisk, call_of, new_fs};
use fs_cred::{Cred, Errno, Refusal};
use fs_layout::Version;
use fs_model::{Actor, Bytes, Call, HandleCall, Reply};
use fs_system::Fs;
use sector_disk::Disk;
use std::alloc::Global;
use std::mem;
use std::test::Fail;

// ---- what is answered

// A number, that of the errno, or how many bytes are told; 0 where nothing is.
type Told = Result<usize, u8>;

fn told(reply: &Reply) -> Told {
    match reply {
        Reply::Done => Ok(0),
        Reply::Fd(fd) => Ok(*fd),
        Reply::Wrote(count) => Ok(*count),
        Reply::Opened { handle, .. } => Ok(*handle as usize),
        Reply::Made(ino) => Ok(*ino as usize),
        Reply::Data(bytes) => Ok(bytes.bytes().len()),
        Reply::Refused(Refusal::Failed(errno)) => Err(errno.number()),
        _ => Err(0),
    }
}

fn told_done(done: Result<(), Errno>) -> Told {
    match done {
        Ok(()) => Ok(0),
        Err(errno) => Err(errno.number()),
    }
}

fn told_pid(spawned: Result<usize, Errno>) -> Told {
    match spawned {
        Ok(pid) => Ok(pid),
        Err(errno) => Err(errno.number()),
    }
}

// How many sectors are free.
fn told_space(free: Result<(u32, u32), Errno>) -> Told {
    match free {
        Ok((sectors, _)) => Ok(sectors as usize),
        Err(errno) => Err(errno.number()),
    }
}

fn spawned(alloc: Global, fs: &mut Fs<TestDisk>) -> Result<Told, Fail> {
    let cred = Cred::new(alloc, 0, 0, &[])?;
    Ok(told_pid(fs.spawn(cred)))
}

// What process 1 is told that makes a call.
fn called(fs: &mut Fs<TestDisk>, call: Call) -> Told {
    let reply = fs.call(1, &call);
    call.discard();
    let told = told(&reply);
    reply.discard();
    told
}

// Process 1 makes and opens a file for writing.
fn opened(alloc: Global, fs: &mut Fs<TestDisk>) -> Result<Told, Fail> {
    Ok(called(fs, call_of(alloc, b"1 open /file wcx 0644")?))
}

fn written(alloc: Global, fs: &mut Fs<TestDisk>) -> Result<Told, Fail> {
    Ok(called(fs, call_of(alloc, b"1 write 0 abc")?))
}

// ---- each method

// spawn, open, write, fsync, sync, statfs, exit, and another spawn.
type Answers = [Told; 8];

fn answers(alloc: Global, fs: &mut Fs<TestDisk>) -> Result<Answers, Fail> {
    let first = spawned(alloc, fs)?;
    let opened = opened(alloc, fs)?;
    let written = written(alloc, fs)?;
    fs.forget();
    let stable = told_done(fs.fsync(1, 0));
    let synced = told_done(fs.sync());
    let space = told_space(fs.statfs());
    let gone = told_done(fs.exit(1));
    let last = spawned(alloc, fs)?;
    Ok([first, opened, written, stable, synced, space, gone, last])
}

// What each method answers; then what an unmount tells, and how often the disk has failed.
type Seen = (Answers, Told, u64);

// What is seen where so many calls of the disk pass.
fn seen(alloc: Global, calls: u64) -> Result<Seen, Fail> {
    let mut fs = new_fs(alloc, Version::Two, calls)?;
    let answers = answers(alloc, &mut fs);
    fs.tell_state();
    let (disk, errno) = fs.unmount();
    let failures = disk.failures();
    mem::drop(disk);
    let end = match errno {
        None => Ok(0),
        Some(errno) => Err(errno.number()),
    };
    Ok((answers?, end, failures))
}

const EIO: Told = Err(5);

const WELL: Answers = [Ok(1), Ok(0), Ok(3), Ok(0), Ok(0), Ok(876), Ok(0), Ok(1)];

const HALTED: Answers = [Ok(1), Ok(0), Ok(3), EIO, EIO, EIO, EIO, EIO];

const UNREAD: Answers = [Ok(1), EIO, Err(9), Err(9), Ok(0), EIO, Ok(0), Ok(1)];

#[test]
fn a_halted_one_calls_its_disk_no_more(rt: HostRuntime) -> Result<(), Fail> {
    // How many calls of the disk pass, and what is seen. mkfs and mount make 80 calls. The file is made and written with the two
    // bitmaps read, and committed by its fsync.
    for (calls, wanted) in [
        (u64::MAX, (WELL, Ok(0), 0)),
        (80, (UNREAD, Ok(0), 2)),
        (82, (HALTED, EIO, 1)),
        (85, (HALTED, EIO, 1)),
    ] {
        let found = seen(rt.alloc(), calls)?;
        assert!(rt; found == wanted, "{calls}: {found:?}");
    }
    Ok(())
}

// ---- what an actor is answered

// Where its paths start, and the line of its call.
type Asked = (u32, u32, &'static [u8]);

// What an actor is told that has the identity of user 0. The root is inode 1, `/d` 2, `/file` 3 and `/link` 4.
fn called_at(alloc: Global, fs: &mut Fs<TestDisk>, asked: Asked) -> Result<Told, Fail> {
    let (start, second_start, line) = asked;
    let call = call_of(alloc, line)?;
    let cred = Cred::new(alloc, 0, 0, &[])?;
    let actor = Actor {
        cred,
        umask: 0o22,
        start,
        second_start,
    };
    let reply = fs.call_at(&actor, &call);
    call.discard();
    mem::drop(actor);
    let told = told(&reply);
    reply.discard();
    Ok(told)
}

fn made_and_called(alloc: Global, fs: &mut Fs<TestDisk>, asked: Asked) -> Result<Told, Fail> {
    let _pid = spawned(alloc, fs)?;
    let _dir = called(fs, call_of(alloc, b"1 mkdir /d 0755")?);
    let _fd = opened(alloc, fs)?;
    let _link = called(fs, call_of(alloc, b"1 symlink file /link")?);
    called_at(alloc, fs, asked)
}

fn told_from(alloc: Global, asked: Asked) -> Result<Told, Fail> {
    let mut fs = new_fs(alloc, Version::Two, u64::MAX)?;
    let told = made_and_called(alloc, &mut fs, asked);
    mem::drop(fs.unmount());
    told
}

// As openat(2) has AT_EMPTY_PATH, fchmodat(2) a link and linkat(2) its two directories.
static FROM_OBJECTS: [(Asked, Told); 17] = [
    ((1, 1, b"1 chmod file 0600"), Ok(0)),
    ((3, 1, b"1 chmod \"\" 0600"), Ok(0)),
    ((4, 1, b"1 chmod \"\" 0600"), Err(40)),
    ((4, 1, b"1 chown \"\" 0 0"), Ok(0)),
    ((64, 1, b"1 chmod file 0600"), Err(2)),
    ((1, 64, b"1 chmod file 0600"), Err(2)),
    ((3, 1, b"1 chmod name 0600"), Err(20)),
    ((3, 2, b"1 link \"\" name"), Ok(0)),
    ((1, 2, b"1 rename file name"), Ok(0)),
    ((2, 1, b"1 rmdir \"\""), Err(16)),
    ((1, 1, b"1 open file r"), Ok(0)),
    ((4, 1, b"1 open \"\" r"), Err(40)),
    ((1, 1, b"1 mkdir name 0755"), Ok(5)),
    ((2, 1, b"1 symlink file name"), Ok(5)),
    ((1, 1, b"1 chdir d"), Err(9)),
    ((1, 1, b"1 close 0"), Err(9)),
    ((1, 1, b"1 umask 0"), Err(9)),
];

#[test]
fn an_actor_calls_from_objects(rt: HostRuntime) -> Result<(), Fail> {
    for &(asked, wanted) in &FROM_OBJECTS {
        let found = told_from(rt.alloc(), asked)?;
        assert!(rt; found == wanted, "{asked:?}: {found:?}");
    }
    Ok(())
}

// ---- what is answered by a handle

// What is told by this handle.
fn told_by(fs: &mut Fs<TestDisk>, handle: u64, call: HandleCall) -> Told {
    let reply = fs.call_by(handle, &call);
    mem::drop(call);
    let told = told(&reply);
    reply.discard();
    told
}

fn read_by(fs: &mut Fs<TestDisk>, handle: u64) -> Told {
    told_by(fs, handle, HandleCall::Read { offset: 0, len: 4 })
}

// What is told of a write of so many bytes.
fn written_by(alloc: Global, fs: &mut Fs<TestDisk>, handle: u64, len: usize) -> Result<Told, Fail> {
    let bytes = Bytes::new(vec![in alloc; 1; len]?);
    Ok(told_by(fs, handle, HandleCall::Write { offset: 0, bytes }))
}

fn closed_by(fs: &mut Fs<TestDisk>, handle: u64) -> Told {
    told_by(fs, handle, HandleCall::Close)
}

// The handle of what an actor opens.
fn handle_of(alloc: Global, fs: &mut Fs<TestDisk>, line: &'static [u8]) -> Result<u64, Fail> {
    match called_at(alloc, fs, (1, 1, line))? {
        Ok(handle) => Ok(handle as u64),
        Err(_) => Err(Fail::new("no handle")),
    }
}

// A file of three bytes, which process 1 has open.
fn begun(alloc: Global, fs: &mut Fs<TestDisk>) -> Result<(), Fail> {
    let _pid = spawned(alloc, fs)?;
    let _fd = opened(alloc, fs)?;
    let _count = written(alloc, fs)?;
    Ok(())
}

// What a read by a handle is told, a write, a close, and another read.
fn asked_by(alloc: Global, fs: &mut Fs<TestDisk>, line: &'static [u8]) -> Result<[Told; 4], Fail> {
    begun(alloc, fs)?;
    let handle = handle_of(alloc, fs, line)?;
    let first = read_by(fs, handle);
    let write = written_by(alloc, fs, handle, 3)?;
    let close = closed_by(fs, handle);
    Ok([first, write, close, read_by(fs, handle)])
}

fn told_by_handle(alloc: Global, line: &'static [u8]) -> Result<[Told; 4], Fail> {
    let mut fs = new_fs(alloc, Version::Two, u64::MAX)?;
    let told = asked_by(alloc, &mut fs, line);
    mem::drop(fs.unmount());
    told
}

const EBADF: Told = Err(9);

static BY_HANDLE: [(&'static [u8], [Told; 4]); 3] = [
    (b"1 open file r", [Ok(3), EBADF, Ok(0), EBADF]),
    (b"1 open file w", [EBADF, Ok(3), Ok(0), EBADF]),
    (b"1 open file rw", [Ok(3), Ok(3), Ok(0), EBADF]),
];

#[test]
fn a_handle_is_for_what_it_was_opened_for(rt: HostRuntime) -> Result<(), Fail> {
    for &(line, wanted) in &BY_HANDLE {
        let found = told_by_handle(rt.alloc(), line)?;
        assert!(rt; found == wanted, "{line:?}: {found:?}");
    }
    Ok(())
}

// What is told where a handle is all that is left of a file: how many sectors are free, a read, its close, and how many are free
// then.
fn outlived(alloc: Global, fs: &mut Fs<TestDisk>) -> Result<[Told; 4], Fail> {
    begun(alloc, fs)?;
    let handle = handle_of(alloc, fs, b"1 open file r")?;
    let _gone = called(fs, call_of(alloc, b"1 unlink /file")?);
    let _end = told_done(fs.exit(1));
    let held = told_space(fs.statfs());
    let read = read_by(fs, handle);
    let close = closed_by(fs, handle);
    Ok([held, read, close, told_space(fs.statfs())])
}

fn told_of_nameless(alloc: Global) -> Result<[Told; 4], Fail> {
    let mut fs = new_fs(alloc, Version::Two, u64::MAX)?;
    let told = outlived(alloc, &mut fs);
    mem::drop(fs.unmount());
    told
}

#[test]
fn a_nameless_file_stays_until_its_handle_is_closed(rt: HostRuntime) -> Result<(), Fail> {
    let found = told_of_nameless(rt.alloc())?;
    assert!(rt; found == [Ok(877), Ok(3), Ok(0), Ok(878)], "{found:?}");
    Ok(())
}

// How many writes of so many bytes are whole, and what the next one is told. Each goes behind the others.
fn filled(
    alloc: Global,
    fs: &mut Fs<TestDisk>,
    handle: u64,
    len: usize,
) -> Result<(usize, Told), Fail> {
    for count in 0..100 {
        let told = written_by(alloc, fs, handle, len)?;
        if told != Ok(len) {
            return Ok((count, told));
        }
    }
    Ok((100, Ok(len)))
}

// What a write of more than a run is told; and then of runs, and of moves, until there is no space for one.
fn fills(alloc: Global, fs: &mut Fs<TestDisk>) -> Result<[(usize, Told); 3], Fail> {
    let handle = handle_of(alloc, fs, b"1 open file wca 0644")?;
    let first = written_by(alloc, fs, handle, 16_385)?;
    let runs = filled(alloc, fs, handle, 16_384)?;
    let moves = filled(alloc, fs, handle, 4096)?;
    Ok([(1, first), runs, moves])
}

fn filled_by_runs(alloc: Global) -> Result<[(usize, Told); 3], Fail> {
    let mut fs = new_fs(alloc, Version::Two, u64::MAX)?;
    let found = fills(alloc, &mut fs);
    mem::drop(fs.unmount());
    found
}

// Of 877 free sectors 26 runs take 32 each, and 8 for pointers: 37 are left, fewer than 40. Three moves take 8 each: then 13 are left,
// fewer than 16.
static FILLED: [(usize, Told); 3] = [(1, Ok(16_384)), (25, Err(28)), (3, Err(28))];

#[test]
fn a_run_is_written_where_there_is_space_for_it(rt: HostRuntime) -> Result<(), Fail> {
    let found = filled_by_runs(rt.alloc())?;
    assert!(rt; found == FILLED, "{found:?}");
    Ok(())
}
