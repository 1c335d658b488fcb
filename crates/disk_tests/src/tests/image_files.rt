//! Disks in files of this machine, and in files that fail.

use crate::tests::disks::{Call, first_byte, four_calls};
use sector_disk::{Disk, DiskFile, FileDisk, FileFault, PartDisk, PartFile, Tail};
use std::alloc::Global;
use std::cell::Cell;
use std::fs::{self, File, OpenOptions};
use std::io::{self, ErrorKind};
use std::path::{Path, PathBuf};
use std::{env, process};

// A file that counts its locks, reads, writes and syncs, and fails so many of them from the one of this number on.
#[derive(Drop)]
struct Flaky<'a> {
    file: File,
    first: u64,
    count: u64,
    calls: &'a Cell<u64>,
}

impl Flaky<'_> {
    fn pass(&self) -> io::Result<()> {
        let call = self.calls.get();
        self.calls.set(call.saturating_add(1));
        if call >= self.first && call - self.first < self.count {
            return Err(io::Error::from(ErrorKind::StorageFull));
        }
        Ok(())
    }
}

impl DiskFile for Flaky<'_> {
    fn try_lock(&self) -> io::Result<()> {
        self.pass()?;
        DiskFile::try_lock(&self.file)
    }

    fn count(&self) -> io::Result<u64> {
        self.file.count()
    }

    fn fill(&mut self, sectors: u32) -> io::Result<()> {
        self.pass()?;
        self.file.fill(sectors)
    }

    fn read_run(&mut self, first: u32, to: &mut [[u8; 512]]) -> io::Result<()> {
        self.pass()?;
        self.file.read_run(first, to)
    }

    fn write_run(&mut self, first: u32, run: &[[u8; 512]]) -> io::Result<()> {
        self.pass()?;
        self.file.write_run(first, run)
    }

    fn sync(&mut self) -> io::Result<()> {
        self.pass()?;
        self.file.sync()
    }
}

// A path of this process alone.
fn scratch(rt: &HostRuntime, what: &str) -> Option<PathBuf> {
    let process = process::id(rt.process());
    let folder = env::temp_dir(rt).ok()?;
    let name = format!(in rt.alloc(); "sector_disk-{process}-{what}").ok()?;
    folder.join(rt.alloc(), name.as_str()).ok()
}

// How many sectors a disk has, and the first byte of each of the first three.
pub(super) type Seen = (u32, [u8; 3]);

// A sector that can't be read counts as 255.
pub(super) fn see<D: Disk>(disk: &mut D) -> Seen {
    let bytes = [
        first_byte(disk, 0).unwrap_or(255),
        first_byte(disk, 1).unwrap_or(255),
        first_byte(disk, 2).unwrap_or(255),
    ];
    (disk.size(), bytes)
}

// What is done to a file, or to the disk in it.
#[derive(Clone, Copy)]
enum Step {
    Create,
    Open,
    // A file of so many zeros, and the disk in it.
    Zeros(u64),
    // A file of three sectors and 100 bytes, all of them 7, and the disk in it.
    Sevens,
    // The disk in a new file, or in one that is there; and while it lives, another disk of that file.
    CreateTwice,
    OpenTwice,
    // Writes two sectors of the disk, and syncs after each.
    Write,
    // The file's length, and three of the bytes past its third sector.
    Tail,
}

fn take_step(rt: &HostRuntime, path: Path<'_>, step: Step) -> Result<Seen, FileFault> {
    match step {
        Step::Create => created(rt, path),
        Step::Open => opened(rt, path),
        Step::CreateTwice => second(rt, path, FileDisk::create(rt, rt.alloc(), path, 4)),
        Step::OpenTwice => second(rt, path, FileDisk::open(rt, rt.alloc(), path)),
        Step::Zeros(len) => zeros(rt, path, len),
        Step::Sevens => sevens(rt, path),
        Step::Write => written(rt, path),
        Step::Tail => tail(rt, path),
    }
}

fn created(rt: &HostRuntime, path: Path<'_>) -> Result<Seen, FileFault> {
    Ok(see(&mut FileDisk::create(rt, rt.alloc(), path, 4)?))
}

fn opened(rt: &HostRuntime, path: Path<'_>) -> Result<Seen, FileFault> {
    Ok(see(&mut FileDisk::open(rt, rt.alloc(), path)?))
}

// What a second disk of a file comes to, while the first is there.
fn second(
    rt: &HostRuntime,
    path: Path<'_>,
    first: Result<FileDisk<File>, FileFault>,
) -> Result<Seen, FileFault> {
    let first = first?;
    let second = opened(rt, path);
    let _ = first.size();
    second
}

fn zeros(rt: &HostRuntime, path: Path<'_>, len: u64) -> Result<Seen, FileFault> {
    match File::create(rt, path) {
        Ok(file) if file.set_len(len).is_ok() => opened(rt, path),
        _ => Err(FileFault::Failed),
    }
}

fn sevens(rt: &HostRuntime, path: Path<'_>) -> Result<Seen, FileFault> {
    if fs::write(rt, path, [7; 1636].as_slice()).is_err() {
        return Err(FileFault::Failed);
    }
    opened(rt, path)
}

fn written(rt: &HostRuntime, path: Path<'_>) -> Result<Seen, FileFault> {
    let mut disk = FileDisk::open(rt, rt.alloc(), path)?;
    let calls = [Call::Write(1, 1), Call::Sync, Call::Write(2, 3), Call::Sync];
    if four_calls(&mut disk, calls) != [true; 4] {
        return Err(FileFault::Failed);
    }
    Ok(see(&mut disk))
}

fn tail(rt: &HostRuntime, path: Path<'_>) -> Result<Seen, FileFault> {
    let Ok(bytes) = fs::read(rt, path) else {
        return Err(FileFault::Failed);
    };
    Ok(tail_of(&bytes))
}

fn tail_of(bytes: &[u8]) -> Seen {
    let len = u32::try_from(bytes.len()).unwrap_or(u32::MAX);
    let tail = [
        byte_of(bytes, 1536),
        byte_of(bytes, 1600),
        byte_of(bytes, 1635),
    ];
    (len, tail)
}

fn byte_of(bytes: &[u8], at: usize) -> u8 {
    bytes.get(at).copied().unwrap_or(255)
}

// The number of the first row that isn't so, and what there is instead.
fn first_wrong(
    rt: &HostRuntime,
    path: Path<'_>,
    rows: &[(Step, Result<Seen, FileFault>)],
) -> Option<(usize, Result<Seen, FileFault>)> {
    for (i, row) in rows.iter().enumerate() {
        let seen = take_step(rt, path, row.0);
        if seen != row.1 {
            return Some((i, seen));
        }
    }
    None
}

// What is done to one file after another, and what comes of it.
static STEPS: [(Step, Result<Seen, FileFault>); 14] = [
    (Step::Open, Err(FileFault::Failed)),
    (Step::CreateTwice, Err(FileFault::Failed)),
    (Step::Create, Err(FileFault::Exists)),
    (Step::Open, Ok((4, [0, 0, 0]))),
    (Step::Sevens, Ok((3, [7, 7, 7]))),
    (Step::OpenTwice, Err(FileFault::Failed)),
    (Step::Write, Ok((3, [7, 1, 3]))),
    (Step::OpenTwice, Err(FileFault::Failed)),
    (Step::Open, Ok((3, [7, 1, 3]))),
    (Step::Tail, Ok((1636, [7, 7, 7]))),
    (Step::Zeros(511), Ok((0, [255, 255, 255]))),
    (Step::Zeros(1023), Ok((1, [0, 255, 255]))),
    (Step::Zeros(65_537 * 512), Ok((65_537, [0, 0, 0]))),
    (Step::Zeros(65_538 * 512), Ok((65_537, [0, 0, 0]))),
];

fn first_wrong_step(rt: &HostRuntime) -> Option<Option<(usize, Result<Seen, FileFault>)>> {
    let path = scratch(rt, "kept")?;
    let wrong = first_wrong(rt, path.as_path(), &STEPS);
    let _ = fs::remove_file(rt, path.as_path());
    Some(wrong)
}

#[test]
fn a_file_keeps_its_sectors(rt: HostRuntime) {
    let wrong = first_wrong_step(&rt);
    assert!(rt; wrong == Some(None), "{wrong:?}");
}

// Which calls of the disk in a failing file pass, how often it has failed, and what it has; and how many calls the file has
// counted.
type Told = (Result<([bool; 4], u64, Seen), FileFault>, u64);

fn fail_calls(rt: &HostRuntime, path: Path<'_>, done: [Call; 4], first: u64, count: u64) -> Told {
    let calls = Cell::new(0);
    let told = match open_to_write(rt, path) {
        Err(_) => Err(FileFault::Failed),
        Ok(file) => call_over(
            rt,
            Flaky {
                file,
                first,
                count,
                calls: &calls,
            },
            done,
        ),
    };
    (told, calls.get())
}

fn open_to_write(rt: &HostRuntime, path: Path<'_>) -> io::Result<File> {
    let mut how = OpenOptions::new();
    how.read(true).write(true);
    how.open(rt, path)
}

fn call_over(
    rt: &HostRuntime,
    file: Flaky<'_>,
    calls: [Call; 4],
) -> Result<([bool; 4], u64, Seen), FileFault> {
    Ok(call_disk(FileDisk::over(rt.alloc(), file)?, calls))
}

fn call_disk<D: Disk + Drop>(disk: D, calls: [Call; 4]) -> ([bool; 4], u64, Seen) {
    let mut disk = disk;
    let passed = four_calls(&mut disk, calls);
    (passed, disk.failures(), see(&mut disk))
}

// Which calls pass of the disk in a file of three sectors, how often it has failed, what it has, and what its file has then.
type Failed = Result<([bool; 4], u64, Seen, Seen), FileFault>;

fn fail(rt: &HostRuntime, path: Path<'_>, first: u64, count: u64) -> Failed {
    let _ = zeros(rt, path, 3 * 512)?;
    let (told, _) = fail_calls(rt, path, TWO_RUNS, first, count);
    let (passed, failures, read) = told?;
    Ok((passed, failures, read, opened(rt, path)?))
}

// What is told of the disk in a file in which another disk is.
fn refused(rt: &HostRuntime, path: Path<'_>) -> Result<Told, FileFault> {
    let first = FileDisk::create(rt, rt.alloc(), path, 3)?;
    let told = fail_calls(rt, path, TWO_RUNS, u64::MAX, 0);
    let _ = first.size();
    Ok(told)
}

const TWO_RUNS: [Call; 4] = [Call::Write(2, 3), Call::Write(0, 1), Call::Sync, Call::Sync];

// Where the file isn't failing: a lock, a sync and a read when it is opened, two writes and a sync at the first sync, and at the
// second a sync. The first call that fails and how many do; and, of a disk that is opened, which calls pass, how often it has
// failed, and what the file has. Its reads give what was written.
static FAILING: [(u64, u64, Option<([bool; 4], u64, [u8; 3])>); 11] = [
    (0, 1, None),
    (1, 1, None),
    (2, 1, None),
    (3, 1, Some(([true, true, false, true], 1, [1, 0, 3]))),
    // The next sync begins with the first run again.
    (3, 2, Some(([true, true, false, false], 2, [0, 0, 0]))),
    (4, 1, Some(([true, true, false, true], 1, [1, 0, 3]))),
    (4, 2, Some(([true, true, false, false], 2, [1, 0, 0]))),
    (5, 1, Some(([true, true, false, true], 1, [1, 0, 3]))),
    // The next one would write all three sectors again.
    (5, 2, Some(([true, true, false, false], 2, [1, 0, 3]))),
    (6, 1, Some(([true, true, true, false], 1, [1, 0, 3]))),
    (7, 1, Some(([true, true, true, true], 0, [1, 0, 3]))),
];

fn failed_as(row: Option<([bool; 4], u64, [u8; 3])>) -> Failed {
    match row {
        Some(seen) => {
            let passed = seen.0;
            let kept = seen.2;
            let read = (3, [1, 0, 3]);
            let file = (3, kept);
            Ok((passed, seen.1, read, file))
        }
        None => Err(FileFault::Failed),
    }
}

fn refused_at_scratch(rt: &HostRuntime) -> Option<Result<Told, FileFault>> {
    let path = scratch(rt, "flaky")?;
    let seen = refused(rt, path.as_path());
    let _ = fs::remove_file(rt, path.as_path());
    Some(seen)
}

fn fail_at_scratch(rt: &HostRuntime, first: u64, count: u64) -> Option<Failed> {
    let path = scratch(rt, "flaky")?;
    let seen = fail(rt, path.as_path(), first, count);
    let _ = fs::remove_file(rt, path.as_path());
    Some(seen)
}

// The first row of which something else is told.
fn other_failure(rt: &HostRuntime) -> Option<usize> {
    for i in 0..FAILING.len() {
        let (first, count, wanted) = FAILING[i];
        if fail_at_scratch(rt, first, count) != Some(failed_as(wanted)) {
            return Some(i);
        }
    }
    None
}

#[test]
fn a_failing_file_is_a_failing_disk(rt: HostRuntime) {
    // Of a file whose lock is taken nothing but that is asked.
    let taken = Some(Ok((Err(FileFault::Failed), 1)));
    let seen = (refused_at_scratch(&rt), other_failure(&rt));
    assert!(rt; seen == (taken, None), "{seen:?}");
}

// How many calls of the file of three sectors the calls of its disk take, its opening and a last sync included.
fn count_calls(rt: &HostRuntime, path: Path<'_>, writes: [(u32, u8); 3]) -> Result<u64, FileFault> {
    let _ = zeros(rt, path, 3 * 512)?;
    let calls = [
        Call::Write(writes[0].0, writes[0].1),
        Call::Write(writes[1].0, writes[1].1),
        Call::Write(writes[2].0, writes[2].1),
        Call::Sync,
    ];
    let (told, count) = fail_calls(rt, path, calls, u64::MAX, 0);
    let _ = told?;
    Ok(count)
}

fn count_calls_at_scratch(
    rt: &HostRuntime,
    writes: [(u32, u8); 3],
) -> Option<Result<u64, FileFault>> {
    let path = scratch(rt, "runs")?;
    let seen = count_calls(rt, path.as_path(), writes);
    let _ = fs::remove_file(rt, path.as_path());
    Some(seen)
}

// Three writes, and how many calls they take: a lock, a sync and a read, the writes, and a sync. What a sector has already isn't
// written.
static NEIGHBOURS: [([(u32, u8); 3], u64); 8] = [
    ([(0, 1), (1, 2), (2, 3)], 5),
    ([(2, 1), (0, 2), (1, 3)], 5),
    ([(1, 1), (1, 2), (1, 3)], 5),
    ([(0, 1), (1, 2), (0, 3)], 5),
    ([(2, 1), (0, 2), (2, 3)], 6),
    ([(0, 0), (1, 0), (2, 0)], 4),
    ([(0, 1), (0, 0), (2, 0)], 5),
    ([(0, 0), (2, 1), (2, 1)], 5),
];

// The first writes that take another number of calls.
fn other_count(rt: &HostRuntime) -> Option<usize> {
    let rows = NEIGHBOURS;
    for i in 0..rows.len() {
        if count_calls_at_scratch(rt, rows[i].0) != Some(Ok(rows[i].1)) {
            return Some(i);
        }
    }
    None
}

#[test]
fn neighbours_are_written_in_one_call(rt: HostRuntime) {
    let wrong = other_count(&rt);
    assert!(rt; wrong == None, "{wrong:?}");
}

// ---- files of which some sectors are loaded

// What is loaded of a file: so many sectors from one on, those of these numbers, or what is asked for of some.
pub(super) enum Load {
    Run(u32, u32),
    Each(&'static [u32]),
    Tails(&'static [Tail]),
}

// What reads of the disk of the loaded sectors give, which calls of it pass, and how many have failed, the reads among them; and what
// reads give of the disk in the file, once it is loaded whole.
pub(super) type Parted = Result<(Seen, [bool; 4], u64, Seen), FileFault>;

const CHANGES: [Call; 4] = [Call::Write(0, 9), Call::Sync, Call::Write(2, 9), Call::Sync];

pub(super) fn load_part<F: DiskFile + Drop>(
    alloc: Global,
    part: PartFile<F>,
    load: &Load,
) -> Parted {
    let mut part = part;
    match load {
        Load::Run(first, count) => part.load(*first, *count)?,
        Load::Each(numbers) => part.load_each(numbers)?,
        Load::Tails(tails) => part.load_tails(tails)?,
    }
    let mut disk = PartDisk::new(part);
    let seen = see(&mut disk);
    let passed = four_calls(&mut disk, CHANGES);
    let failures = disk.failures();
    let mut whole = FileDisk::over_large(alloc, disk.into_file())?;
    Ok((seen, passed, failures, see(&mut whole)))
}

// What that comes to for a file of three sectors with 100 bytes behind them.
fn load_part_of_three(rt: &HostRuntime, path: Path<'_>, load: &Load) -> Parted {
    let _ = sevens(rt, path)?;
    let _ = written(rt, path)?;
    load_part(rt.alloc(), PartFile::open(rt, rt.alloc(), path)?, load)
}

fn load_at_scratch(rt: &HostRuntime, load: &Load) -> Option<Parted> {
    let path = scratch(rt, "part")?;
    let seen = load_part_of_three(rt, path.as_path(), load);
    let _ = fs::remove_file(rt, path.as_path());
    Some(seen)
}

// What is loaded; then what can be read, and how many calls fail. A sector behind the end of the file is left out.
pub(super) static LOADS: [(Load, [u8; 3], u64); 14] = [
    (Load::Run(0, 0), [255, 255, 255], 7),
    (Load::Run(0, 1), [7, 255, 255], 6),
    (Load::Run(1, 2), [255, 1, 3], 5),
    (Load::Run(2, 9), [255, 255, 3], 6),
    (Load::Run(3, u32::MAX), [255, 255, 255], 7),
    (Load::Run(0, u32::MAX), [7, 1, 3], 4),
    (Load::Each(&[]), [255, 255, 255], 7),
    (Load::Each(&[0, 2]), [7, 255, 3], 5),
    (Load::Each(&[2, 1, 1, 1]), [255, 1, 3], 5),
    (Load::Each(&[1, u32::MAX]), [255, 1, 255], 6),
    (Load::Tails(&[]), [255, 255, 255], 7),
    (Load::Tails(&[WHOLE_FIRST, LAST_BYTE]), [7, 1, 255], 5),
    (Load::Tails(&[LAST_BYTE, NEXT]), [255, 1, 3], 5),
    (Load::Tails(&[BEHIND]), [255, 255, 255], 7),
];

const WHOLE_FIRST: Tail = Tail {
    sector: 0,
    first: 0,
};

const LAST_BYTE: Tail = Tail {
    sector: 1,
    first: 511,
};

const NEXT: Tail = Tail {
    sector: 2,
    first: 1,
};

const BEHIND: Tail = Tail {
    sector: 3,
    first: 0,
};

// What another disk of a file comes to, of which sectors are loaded.
fn refused_beside_part(rt: &HostRuntime, path: Path<'_>) -> Result<bool, FileFault> {
    let _ = sevens(rt, path)?;
    let part = PartFile::open(rt, rt.alloc(), path)?;
    let refused = opened(rt, path) == Err(FileFault::Failed);
    let _ = part.count();
    Ok(refused)
}

fn refused_beside_part_at_scratch(rt: &HostRuntime) -> Option<Result<bool, FileFault>> {
    let path = scratch(rt, "part")?;
    let seen = refused_beside_part(rt, path.as_path());
    let _ = fs::remove_file(rt, path.as_path());
    Some(seen)
}

pub(super) fn parted_as(bytes: [u8; 3], failures: u64) -> Parted {
    Ok(((3, bytes), [false; 4], failures, (3, [7, 1, 3])))
}

// The first load that leaves something else to be read.
fn other_load(rt: &HostRuntime) -> Option<usize> {
    for i in 0..LOADS.len() {
        if load_at_scratch(rt, &LOADS[i].0) != Some(parted_as(LOADS[i].1, LOADS[i].2)) {
            return Some(i);
        }
    }
    None
}

#[test]
fn only_loaded_sectors_can_be_read(rt: HostRuntime) {
    let seen = (refused_beside_part_at_scratch(&rt), other_load(&rt));
    assert!(rt; seen == (Some(Ok(true)), None), "{seen:?}");
}
