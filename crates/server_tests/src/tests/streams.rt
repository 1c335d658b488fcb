//! What the streams of a process and /proc tell a server: no clause says any of it.
use bitflags::Flags;
use fuse_serving::{Caller, Kernel, ProcFiles, Standard, caller_of_status};
use std::alloc::{AllocError, Global};
use std::io::{self, ErrorKind, Read, Write};
use std::test::Fail;
use std::{fs, mem, str};

// What a read comes to.
#[derive(Clone, Copy)]
enum Turn {
    Gives(&'static [u8]),
    Fails(i32),
}

// One after another, and then the end.
#[derive(Drop)]
struct Input {
    turns: &'static [Turn],
    next: usize,
}

impl Read for Input {
    fn read(&mut self, buffer: &mut [u8]) -> io::Result<usize> {
        let Some(turn) = self.turns.get(self.next) else {
            return Ok(0);
        };
        self.next = self.next.saturating_add(1);
        match *turn {
            Turn::Gives(bytes) => {
                let Some(front) = buffer.get_mut(..bytes.len()) else {
                    return Err(io::Error::from(ErrorKind::InvalidInput));
                };
                front.copy_from_slice(bytes);
                Ok(bytes.len())
            }
            Turn::Fails(errno) => Err(io::Error::from_raw_os_error(errno)),
        }
    }
}

// What each write comes to.
#[derive(Clone, Copy)]
enum Output {
    Takes,
    TakesLess,
    Fails(i32),
}

impl Write for Output {
    fn write(&mut self, bytes: &[u8]) -> io::Result<usize> {
        match *self {
            Output::Takes => Ok(bytes.len()),
            Output::TakesLess => Ok(bytes.len().saturating_sub(1)),
            Output::Fails(errno) => Err(io::Error::from_raw_os_error(errno)),
        }
    }

    fn flush(&mut self) -> io::Result<()> {
        Ok(())
    }
}

fn kernel_at(
    rt: HostRuntime,
    turns: &'static [Turn],
    output: Output,
) -> Standard<HostRuntime, ProcFiles<HostRuntime>, Input, Output> {
    Standard::new(rt, ProcFiles::new(rt), Input { turns, next: 0 }, output)
}

// How many bytes each of three reads had: nothing at the end, and nothing at all where it failed.
type Sizes = [Option<Option<usize>>; 3];

fn size_of<K: Kernel>(kernel: &mut K) -> Option<Option<usize>> {
    let mut buffer = [0; 8];
    match kernel.read(&mut buffer) {
        Ok(size) => Some(size),
        Err(_) => None,
    }
}

fn sizes_of<K: Kernel + Drop>(kernel: K) -> Sizes {
    let mut kernel = kernel;
    [
        size_of(&mut kernel),
        size_of(&mut kernel),
        size_of(&mut kernel),
    ]
}

const END: Option<Option<usize>> = Some(None);

// A read that was interrupted is done again, also where its request was given up, and one of a device that is gone is the end.
static READS: [(&[Turn], Sizes); 5] = [
    (&[], [END, END, END]),
    (
        &[Turn::Gives(b"abc"), Turn::Gives(b"de")],
        [Some(Some(3)), Some(Some(2)), END],
    ),
    (
        &[Turn::Fails(4), Turn::Fails(2), Turn::Gives(b"a")],
        [Some(Some(1)), END, END],
    ),
    (
        &[Turn::Fails(19), Turn::Gives(b"a")],
        [END, Some(Some(1)), END],
    ),
    (
        &[Turn::Fails(5), Turn::Gives(b"a")],
        [None, Some(Some(1)), END],
    ),
];

fn taken_by<K: Kernel + Drop>(kernel: K) -> Option<bool> {
    let mut kernel = kernel;
    match kernel.write(b"reply") {
        Ok(taken) => Some(taken),
        Err(_) => None,
    }
}

// A reply that nobody waits for is left out.
static WRITES: [(Output, Option<bool>); 4] = [
    (Output::Takes, Some(true)),
    (Output::TakesLess, None),
    (Output::Fails(2), Some(false)),
    (Output::Fails(22), None),
];

const STATUS: &[u8] =
    b"Name:\tcat\nUmask:\t0022\nUid:\t0\t1001\t1002\t1000\nGid:\t0\t101\t102\t100\nGroups:\t4 24 4294967295 \nCapEff:\t000001ffffffffff\nSeccomp:\t0\n";

const NO_GROUPS: &[u8] =
    b"Name:\tGroups:\t7\nUid:\t1000\t1000\t1000\t1000\nGid:\t100\t100\t100\t100\nGroups:\t \nCapEff:\t0000000000000009\n";

const MANY_GROUPS: &[u8] =
    b"Uid:\t0\t0\t0\t1000\nGid:\t0\t0\t0\t100\nGroups:\t1 2 3 4 5 6 7 8 9 10 11 12 13 14 15 16 17 \nCapEff:\t0000000000000020\n";

// As of a user of a domain.
const FORTY_GROUPS: &[u8] =
    b"Uid:\t0\t0\t0\t1000\nGid:\t0\t0\t0\t100\nGroups:\t100 30000 30001 30002 30003 30004 30005 30006 30007 30008 30009 30010 30011 30012 30013 30014 30015 30016 30017 30018 30019 30020 30021 30022 30023 30024 30025 30026 30027 30028 30029 30030 30031 30032 30033 30034 30035 30036 30037 65534 \nCapEff:\t0000000000000000\n";

const BAD_GROUPS: &[u8] = b"Uid:\t0\t0\t0\t1000\nGid:\t0\t0\t0\t100\nGroups:\t1 4294967296 \n";

// A process that acts on files as another user, or as another group, than it has else.
const OTHER_USER: &[u8] =
    b"Uid:\t1000\t1000\t1000\t0\nGid:\t100\t100\t100\t100\nGroups:\t1 \nCapEff:\t0000000000000009\n";

const OTHER_GROUP: &[u8] =
    b"Uid:\t1000\t1000\t1000\t1000\nGid:\t100\t100\t100\t0\nGroups:\t1 \nCapEff:\t0000000000000009\n";

const NO_USER: &[u8] = b"Gid:\t100\t100\t100\t100\nGroups:\t1 \nCapEff:\t0000000000000009\n";

// How many groups, the last of them, and the bits of the capabilities.
type Known = (Option<(usize, Option<u32>)>, u32);

fn known_of(caller: &Caller) -> Known {
    let groups = match &caller.groups {
        Some(groups) => Some((groups.ids().len(), groups.ids().last().copied())),
        None => None,
    };
    (groups, caller.caps.bits())
}

fn known_in(alloc: Global, status: &[u8], uid: u32, gid: u32) -> Result<Known, AllocError> {
    let caller = caller_of_status(alloc, status, uid, gid)?;
    Ok(known_of(&caller))
}

// Who asks is user 1000 with group 100.
static TEXTS: [(&[u8], Known); 9] = [
    (STATUS, (Some((3, Some(u32::MAX))), 31)),
    (NO_GROUPS, (Some((0, None)), 9)),
    (MANY_GROUPS, (Some((17, Some(17))), 0)),
    (FORTY_GROUPS, (Some((40, Some(65_534))), 0)),
    (BAD_GROUPS, (None, 0)),
    (OTHER_USER, (None, 0)),
    (OTHER_GROUP, (None, 0)),
    (NO_USER, (None, 0)),
    (b"", (None, 0)),
];

// How many groups, and what is known then.
static CROWDED: [(u32, Known); 2] = [(4_096, (Some((4_096, Some(4_096))), 9)), (4_097, (None, 0))];

// The status of a process that is in so many groups: 1, 2 and so on.
fn crowded_status(alloc: Global, count: u32) -> Result<String, AllocError> {
    let mut text = format!(in alloc; "Uid:\t0\t0\t0\t1000\nGid:\t0\t0\t0\t100\nGroups:\t")?;
    for group in 1..=count {
        write!(text, "{group} ")?;
    }
    write!(text, "\nCapEff:\t0000000000000009\n")?;
    Ok(text)
}

// What is known of such a process.
fn known_crowded(alloc: Global, count: u32) -> Result<Known, AllocError> {
    let status = crowded_status(alloc, count)?;
    let known = known_in(alloc, status.as_bytes(), 1000, 100);
    mem::drop(status);
    known
}

#[test]
fn what_proc_tells_of_many_groups(rt: HostRuntime) -> Result<(), Fail> {
    for (count, wanted) in &CROWDED {
        let seen = known_crowded(rt.alloc(), *count)?;
        assert!(rt; seen == *wanted, "{count}: {seen:?}");
    }
    Ok(())
}

#[test]
fn what_proc_tells(rt: HostRuntime) -> Result<(), Fail> {
    for (status, wanted) in &TEXTS {
        let seen = known_in(rt.alloc(), status, 1000, 100)?;
        assert!(rt; seen == *wanted, "{seen:?}");
    }
    Ok(())
}

// The number behind the last tab of the line with this name.
fn number_in(status: &[u8], name: &[u8]) -> Option<u32> {
    for line in status.split(|byte| *byte == b'\n') {
        if let Some(numbers) = line.strip_prefix(name) {
            let (_, last) = str::from_utf8(numbers).ok()?.rsplit_once('\t')?;
            return last.parse::<u32>().ok();
        }
    }
    None
}

// A process, and the user and the group as which it acts on files.
type Ids = (u32, u32, u32);

fn ids_in(status: &[u8]) -> Ids {
    let pid = number_in(status, b"Pid:").unwrap_or(0);
    let uid = number_in(status, b"Uid:").unwrap_or(0);
    let gid = number_in(status, b"Gid:").unwrap_or(0);
    (pid, uid, gid)
}

// The ids that a status says, and what else that says.
fn told_by(alloc: Global, status: Vec<u8>) -> Result<(Ids, Known), AllocError> {
    let ids = ids_in(&status);
    let known = known_in(alloc, &status, ids.1, ids.2);
    mem::drop(status);
    Ok((ids, known?))
}

// What is known of a process, of it as another group, and of none, and whether the time is.
fn learnt_from<K: Kernel + Drop>(kernel: K, ids: Ids) -> ([Known; 3], bool) {
    let mut kernel = kernel;
    let (pid, uid, gid) = ids;
    let own = known_of(&kernel.caller(pid, uid, gid));
    let other = known_of(&kernel.caller(pid, uid, gid ^ 1));
    let none = known_of(&kernel.caller(0, uid, gid));
    ([own, other, none], kernel.now().is_ok())
}

// What the first reads that come to something else come to.
fn other_read(rt: HostRuntime) -> Option<Sizes> {
    for (turns, wanted) in &READS {
        let seen = sizes_of(kernel_at(rt, turns, Output::Takes));
        if seen != *wanted {
            return Some(seen);
        }
    }
    None
}

// What the first write that comes to something else comes to.
fn other_write(rt: HostRuntime) -> Option<Option<bool>> {
    for (output, wanted) in &WRITES {
        let seen = taken_by(kernel_at(rt, &[], *output));
        if seen != *wanted {
            return Some(seen);
        }
    }
    None
}

#[test]
fn what_passes_at_streams(rt: HostRuntime) -> Result<(), Fail> {
    let (ids, own) = told_by(rt.alloc(), fs::read(&rt, "/proc/self/status")?)?;
    let learnt = learnt_from(kernel_at(rt, &[], Output::Takes), ids);
    let seen = (other_read(rt), other_write(rt), own.0.is_some(), learnt);
    let nothing = (None, 0);
    let wanted = (None, None, true, ([own, nothing, nothing], true));
    assert!(rt; seen == wanted, "{seen:?}");
    Ok(())
}
