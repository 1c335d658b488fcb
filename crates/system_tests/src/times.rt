//! Times: which of them each call moves, that they last in version 3, and that older versions have none.

use crate::mounts::{TestDisk, mount, new_fs};
use fs_layout::Version;
use fs_lines::{Line, parse_line};
use fs_system::Fs;
use std::alloc::Global;
use std::mem;
use std::test::Fail;

// The times of access, of modification and of the last change.
type Times = [u64; 3];

// Nothing stands there.
const ABSENT: Times = [u64::MAX; 3];

// What is told of the times of an inode, once those that are given are set.
fn stamped(fs: &mut Fs<TestDisk>, ino: u32, atime: Option<u64>, ctime: Option<u64>) -> Times {
    match fs.stamp(ino, atime, None, ctime) {
        Ok(stamps) => [stamps.atime, stamps.mtime, stamps.ctime],
        Err(_) => ABSENT,
    }
}

// The times of the root, of the directory `/d` and of the file that is made in it.
fn seen(fs: &mut Fs<TestDisk>) -> [Times; 3] {
    [1, 2, 3].map(|ino| stamped(fs, ino, None, None))
}

// What a line asks for happens at this time.
fn perform(alloc: Global, fs: &mut Fs<TestDisk>, time: u64, line: &str) {
    let _told = fs.tell_time(time);
    if let Ok(Line::Event(event)) = parse_line(alloc, line.as_bytes()) {
        fs.answer(&event).discard();
        event.discard();
    }
}

// By POSIX.1-2017, function by function; a time that goes back is taken as it comes. At last the file is open without a name.
static ROWS: [(u64, &str, [Times; 3]); 18] = [
    (5, "spawn 0 0", [[0, 0, 0], ABSENT, ABSENT]),
    (10, "1 mkdir /d 0755", [[0, 10, 10], [10, 10, 10], ABSENT]),
    (
        20,
        "1 open /d/f rwc 0644",
        [[0, 10, 10], [10, 20, 20], [20, 20, 20]],
    ),
    (
        30,
        "1 write 0 abc",
        [[0, 10, 10], [10, 20, 20], [20, 30, 30]],
    ),
    (
        40,
        "1 write 0 \"\"",
        [[0, 10, 10], [10, 20, 20], [20, 30, 30]],
    ),
    (45, "1 read 0 3", [[0, 10, 10], [10, 20, 20], [20, 30, 30]]),
    (
        50,
        "1 chmod /d/f 0600",
        [[0, 10, 10], [10, 20, 20], [20, 30, 50]],
    ),
    (
        60,
        "1 link /d/f /g",
        [[0, 60, 60], [10, 20, 20], [20, 30, 60]],
    ),
    (
        70,
        "1 truncate /g 3",
        [[0, 60, 60], [10, 20, 20], [20, 70, 70]],
    ),
    (
        80,
        "1 rename /g /d/f",
        [[0, 60, 60], [10, 20, 20], [20, 70, 70]],
    ),
    (
        90,
        "1 rename /g /h",
        [[0, 90, 90], [10, 20, 20], [20, 70, 90]],
    ),
    (
        85,
        "1 unlink /d/f",
        [[0, 90, 90], [10, 85, 85], [20, 70, 85]],
    ),
    (
        100,
        "1 open /h wt",
        [[0, 90, 90], [10, 85, 85], [20, 100, 100]],
    ),
    (
        110,
        "1 chown /h 7 -",
        [[0, 90, 90], [10, 85, 85], [20, 100, 110]],
    ),
    (
        120,
        "1 mkdir /d/e 0755",
        [[0, 90, 90], [10, 120, 120], [20, 100, 110]],
    ),
    (
        130,
        "1 rename /d/e /e",
        [[0, 130, 130], [10, 130, 130], [20, 100, 110]],
    ),
    (
        140,
        "1 symlink x /d/s",
        [[0, 130, 130], [10, 140, 140], [20, 100, 110]],
    ),
    (
        150,
        "1 rename /d/s /h",
        [[0, 150, 150], [10, 150, 150], [20, 100, 150]],
    ),
];

// What a new mount shows: of the file without a name nothing.
static LASTING: [Times; 3] = [[0, 150, 150], [1, 150, 3], ABSENT];

// The first row after which other times are seen, and those.
fn first_other(alloc: Global, fs: &mut Fs<TestDisk>) -> Option<(&'static str, [Times; 3])> {
    for &(time, line, wanted) in &ROWS {
        perform(alloc, fs, time, line);
        let found = seen(fs);
        if found != wanted {
            return Some((line, found));
        }
    }
    None
}

// What a mount of what an unmount left shows.
fn seen_again(alloc: Global, fs: Fs<TestDisk>) -> Result<[Times; 3], Fail> {
    let (disk, _) = fs.unmount();
    let mut fs = mount(alloc, disk)?;
    let found = seen(&mut fs);
    mem::drop(fs.unmount());
    Ok(found)
}

// The first row that moves other times, what is set then, and what lasts.
fn kept(alloc: Global) -> Result<(Option<(&'static str, [Times; 3])>, Times, [Times; 3]), Fail> {
    let mut fs = new_fs(alloc, Version::Three, u64::MAX)?;
    let other = first_other(alloc, &mut fs);
    let set = stamped(&mut fs, 2, Some(1), Some(3));
    Ok((other, set, seen_again(alloc, fs)?))
}

#[test]
fn each_call_moves_its_times_and_they_last(rt: HostRuntime) -> Result<(), Fail> {
    let found = kept(rt.alloc())?;
    assert!(rt; found == (None, LASTING[1], LASTING), "{found:?}");
    Ok(())
}

// What is set in version 2 after all rows, and what is seen.
fn none_kept(alloc: Global) -> Result<(Times, [Times; 3]), Fail> {
    let mut fs = new_fs(alloc, Version::Two, u64::MAX)?;
    for &(time, line, _) in &ROWS {
        perform(alloc, &mut fs, time, line);
    }
    let set = stamped(&mut fs, 2, Some(1), Some(3));
    let found = seen(&mut fs);
    mem::drop(fs.unmount());
    Ok((set, found))
}

#[test]
fn older_versions_have_no_times(rt: HostRuntime) -> Result<(), Fail> {
    let found = none_kept(rt.alloc())?;
    assert!(rt; found == ([0; 3], [[0; 3]; 3]), "{found:?}");
    Ok(())
}
