//! Clients over any disk, which show that the clauses can be met and used; and what no clause says: which call fails,
//! and which content a stop leaves.

ghost use Rattle.std.specs.Prelude.{◌≡◌, ◌≢◌, ◌<◌, ◌⊎◌, OnOk, All};
ghost use Rattle.sector_disk.specs.Disk.{Image, sector, IsStable, HasCause, LeavesOnly, AddsOnly, IsImageOr};
ghost use Rattle.disk_tests.specs.Writes.{IsContentOf, after_writes};

use crate::tests::disks::Call::{Read, Sync, Write};
use sector_disk::{CrashDisk, Disk, DiskFault, FailOnce, FaultyDisk, FuseDisk, MemDisk};
use std::alloc::Global;

const OLD: [u8; 512] = [1; 512];

const MIDDLE: [u8; 512] = [2; 512];

const NEW: [u8; 512] = [3; 512];

// Writes the content, syncs, and then writes the mark that says that it is there, and syncs.
fn write_and_mark<D: Disk>(
    disk: &mut D,
    n: u32,
    content: &[u8; 512],
    at: u32,
    mark: &[u8; 512],
) -> Result<(), DiskFault>
    requires n_fits { n < (D.state disk.old).size }
    requires at_fits { at < (D.state disk.old).size }
    requires apart { n ≢ at }
    requires stable { IsStable (D.state disk.old) }
    ensures any_moment { LeavesOnly (D.state disk.old) (D.state disk.new) (λ image.
        (sector image at ≡ sector (D.state disk.old).seen at) ⊎ ((sector image at ≡ mark.now) × (sector image n ≡ content.now))) }
    ensures size { (D.state disk.new).size ≡ (D.state disk.old).size }
    ensures cause { HasCause (D.state disk.old) (D.state disk.new) result }
{
    disk.write(n, content)?;
    disk.sync()?;
    disk.write(at, mark)?;
    disk.sync()
}

// Writes each content in its sector, wherever that is.
fn scatter<D: Disk>(disk: &mut D, contents: &[(u32, [u8; 512])]) -> Result<(), DiskFault>
    requires { All (λ content. content.0 < (D.state disk.old).size) contents.now }
    ensures seen { OnOk result ((D.state disk.new).seen ≡ after_writes (D.state disk.old).seen contents.now) }
    ensures adds { AddsOnly (IsContentOf contents.now) (D.state disk.old) (D.state disk.new) }
    ensures any_moment { LeavesOnly (D.state disk.old) (D.state disk.new) (IsImageOr (IsContentOf contents.now) (D.state disk.old)) }
    ensures cause { HasCause (D.state disk.old) (D.state disk.new) result }
{
    for content in contents {
        disk.write(content.0, &content.1)?;
    }
    Ok(())
}

// A sync, and then both clients: whether each of them passes.
fn run_clients<D: Disk>(
    disk: &mut D,
    n: u32,
    content: &[u8; 512],
    at: u32,
    mark: &[u8; 512],
    contents: &[(u32, [u8; 512])],
) -> Result<(bool, bool), DiskFault>
    requires n_fits { n < 4 }
    requires at_fits { at < 4 }
    requires apart { n ≢ at }
    requires contents_fit { All (λ content. content.0 < 4) contents.now }
{
    if disk.size() < 4 {
        return Err(DiskFault);
    }
    disk.sync()?;
    let marked = write_and_mark(disk, n, content, at, mark).is_ok();
    Ok((marked, scatter(disk, contents).is_ok()))
}

#[derive(Clone, Copy)]
pub(super) enum Call {
    Read(u32),
    // Fills the sector with the byte.
    Write(u32, u8),
    Sync,
}

fn passes<D: Disk>(disk: &mut D, call: Call) -> bool {
    match call {
        Read(n) => first_byte(disk, n).is_ok(),
        Write(n, byte) => is_filled(disk, n, byte),
        Sync => disk.sync().is_ok(),
    }
}

// Whether the sector is there, and is filled with the byte.
fn is_filled<D: Disk>(disk: &mut D, n: u32, byte: u8) -> bool {
    if n >= disk.size() {
        return false;
    }
    let content = [byte; 512];
    disk.write(n, &content).is_ok()
}

// Which of the calls pass.
pub(super) fn four_calls<D: Disk>(disk: &mut D, calls: [Call; 4]) -> [bool; 4] {
    let mut passed = [false; 4];
    for i in 0..4 {
        passed[i] = passes(disk, calls[i]);
    }
    passed
}

// A sector past the end gives a fault.
pub(super) fn first_byte<D: Disk>(disk: &mut D, n: u32) -> Result<u8, DiskFault> {
    if n >= disk.size() {
        return Err(DiskFault);
    }
    let mut content = [0; 512];
    disk.read(n, &mut content)?;
    Ok(content[0])
}

fn first_bytes<D: Disk>(disk: &mut D) -> Result<[u8; 4], DiskFault> {
    Ok([
        first_byte(disk, 0)?,
        first_byte(disk, 1)?,
        first_byte(disk, 2)?,
        first_byte(disk, 3)?,
    ])
}

// Which calls of an armed disk pass; and, once it has been stopped and a sync has passed, how often it has failed and
// what reads give.
fn stopped<D: CrashDisk>(
    disk: &mut D,
    armed: u64,
    calls: [Call; 4],
    choice: &[u8],
) -> Result<([bool; 4], u64, [u8; 4]), DiskFault> {
    disk.arm(armed);
    let passed = four_calls(disk, calls);
    disk.crash(choice);
    disk.sync()?;
    Ok((passed, disk.failures(), first_bytes(disk)?))
}

const ONE_SECTOR: [Call; 4] = [Write(2, 1), Sync, Write(2, 2), Write(2, 3)];

const TWO_SECTORS: [Call; 4] = [Sync, Write(3, 2), Write(1, 1), Write(3, 3)];

// Zeros over a content, and a content over zeros.
const ZEROS_BETWEEN: [Call; 4] = [Write(2, 1), Sync, Write(2, 0), Write(3, 1)];

const SYNCED_BETWEEN: [Call; 4] = [Write(0, 1), Write(1, 1), Sync, Write(0, 3)];

// What four calls and a stop leave on a new disk of four sectors.
fn stopped_in_memory(
    alloc: Global,
    armed: u64,
    calls: [Call; 4],
    choice: &[u8],
) -> Option<([bool; 4], u64, [u8; 4])> {
    let mut disk = MemDisk::new(alloc, 4).ok()?;
    stopped(&mut disk, armed, calls, choice).ok()
}

// How many writes and syncs pass, the choice, how often the disk has failed, and the first bytes.
type Stop = (u64, &'static [u8], u64, [u8; 4]);

static ONE_STOPPED: [Stop; 7] = [
    (9, &[], 0, [0, 0, 1, 0]),
    (9, &[0], 0, [0, 0, 1, 0]),
    (9, &[1], 0, [0, 0, 2, 0]),
    (9, &[2], 0, [0, 0, 3, 0]),
    (9, &[3], 0, [0, 0, 1, 0]),
    (9, &[254], 0, [0, 0, 3, 0]),
    (9, &[255], 0, [0, 0, 1, 0]),
];

// The sectors' bytes are picked in rising order.
static TWO_STOPPED: [Stop; 6] = [
    (9, &[], 0, [0, 0, 0, 0]),
    (9, &[1], 0, [0, 1, 0, 0]),
    (9, &[0, 1], 0, [0, 0, 0, 2]),
    (9, &[1, 1], 0, [0, 1, 0, 2]),
    (9, &[2, 2], 0, [0, 0, 0, 3]),
    (9, &[1, 2, 9], 0, [0, 1, 0, 3]),
];

// What zeros were written over may be left as well.
static ZEROS_STOPPED: [Stop; 3] = [
    (9, &[0, 1], 0, [0, 0, 1, 1]),
    (9, &[1, 1], 0, [0, 0, 0, 1]),
    (9, &[2], 0, [0, 0, 1, 0]),
];

// What a fault kept from passing may be left too.
static SYNCED_STOPPED: [Stop; 8] = [
    (0, &[0, 0], 4, [0, 0, 0, 0]),
    (0, &[1, 1], 4, [1, 1, 0, 0]),
    (1, &[0, 0], 3, [0, 0, 0, 0]),
    (1, &[1, 1], 3, [1, 1, 0, 0]),
    (2, &[0, 0], 2, [0, 0, 0, 0]),
    (2, &[1, 1], 2, [1, 1, 0, 0]),
    (3, &[0, 0], 1, [1, 1, 0, 0]),
    (3, &[1, 1], 1, [3, 1, 0, 0]),
];

// Whether these calls leave what the row says.
fn is_left(alloc: Global, calls: [Call; 4], stop: &Stop) -> bool {
    let &(armed, choice, failures, found) = stop;
    let passed = [armed > 0, armed > 1, armed > 2, armed > 3];
    stopped_in_memory(alloc, armed, calls, choice) == Some((passed, failures, found))
}

// The first stop after these calls that leaves something else.
fn other_stop(alloc: Global, calls: [Call; 4], stops: &[Stop]) -> Option<usize> {
    for i in 0..stops.len() {
        if !is_left(alloc, calls, &stops[i]) {
            return Some(i);
        }
    }
    None
}

#[test]
fn a_stop_leaves_what_its_choice_picks(rt: HostRuntime) {
    let wrong = [
        other_stop(rt.alloc(), ONE_SECTOR, &ONE_STOPPED),
        other_stop(rt.alloc(), TWO_SECTORS, &TWO_STOPPED),
        other_stop(rt.alloc(), ZEROS_BETWEEN, &ZEROS_STOPPED),
        other_stop(rt.alloc(), SYNCED_BETWEEN, &SYNCED_STOPPED),
    ];
    assert!(rt; wrong == [None; 4], "{wrong:?}");
}

// Which calls of a disk pass that fails by itself, how often it has failed, and what is in sector 0 of the disk below.
type Through = ([bool; 4], u64, Result<u8, DiskFault>);

fn through<D: Disk + Drop, const FAULTS: u64>(faulty: FaultyDisk<D, FAULTS>) -> Through {
    let mut faulty = faulty;
    let passed = four_calls(&mut faulty, [Write(0, 1), Read(0), Sync, Write(0, 3)]);
    let failures = faulty.failures();
    let mut disk = faulty.into_inner();
    (passed, failures, first_byte(&mut disk, 0))
}

// The calls through a fuse and through a disk of one fault, each over a new disk.
fn through_both(alloc: Global, call: u64) -> Option<[Through; 2]> {
    let burnt = through(FuseDisk::new(MemDisk::new(alloc, 4).ok()?, call));
    let failed = through(FailOnce::new(MemDisk::new(alloc, 4).ok()?, call));
    Some([burnt, failed])
}

// Whether faults come at this call: how often a fuse has failed then, and what it and a disk of one fault leave.
fn is_at(alloc: Global, (call, failures, burnt, once): (u64, u64, u8, u8)) -> bool {
    let wanted = [
        (
            [call > 0, call > 1, call > 2, call > 3],
            failures,
            Ok(burnt),
        ),
        ([call != 0, call != 1, call != 2, call != 3], 1, Ok(once)),
    ];
    through_both(alloc, call) == Some(wanted)
}

#[test]
fn faults_come_at_their_calls(rt: HostRuntime) {
    let seen = [
        is_at(rt.alloc(), (0, 4, 0, 3)),
        is_at(rt.alloc(), (1, 3, 1, 3)),
        is_at(rt.alloc(), (2, 2, 1, 3)),
        is_at(rt.alloc(), (3, 1, 1, 1)),
    ];
    assert!(rt; seen == [true; 4], "{seen:?}");
}

// Whether each of the clients passes on a disk, and its first bytes then.
type Ran = (Result<(bool, bool), DiskFault>, Result<[u8; 4], DiskFault>);

fn ran_in_memory(alloc: Global) -> Option<Ran> {
    let mut disk = MemDisk::new(alloc, 4).ok()?;
    let contents = [(3, MIDDLE), (1, NEW), (3, OLD)];
    let passed = run_clients(&mut disk, 2, &NEW, 0, &OLD, &contents);
    Some((passed, first_bytes(&mut disk)))
}

fn ran_with_fuse(alloc: Global) -> Option<Ran> {
    let mut fuse = FuseDisk::new(MemDisk::new(alloc, 4).ok()?, 4);
    let passed = run_clients(&mut fuse, 1, &OLD, 3, &NEW, &[(2, MIDDLE)]);
    let mut disk = fuse.into_inner();
    Some((passed, first_bytes(&mut disk)))
}

fn ran_with_one_fault(alloc: Global) -> Option<Ran> {
    let mut once = FailOnce::new(MemDisk::new(alloc, 4).ok()?, 6);
    let contents = [(2, MIDDLE), (0, OLD), (1, NEW)];
    let passed = run_clients(&mut once, 1, &OLD, 3, &NEW, &contents);
    Some((passed, first_bytes(&mut once)))
}

#[test]
fn clients_run_over_each_disk(rt: HostRuntime) {
    let seen = [
        ran_in_memory(rt.alloc()),
        ran_with_fuse(rt.alloc()),
        ran_with_one_fault(rt.alloc()),
    ];
    let wanted = [
        Some((Ok((true, true)), Ok([1, 3, 3, 1]))),
        Some((Ok((false, false)), Ok([0, 1, 0, 3]))),
        Some((Ok((true, false)), Ok([0, 1, 2, 3]))),
    ];
    assert!(rt; seen == wanted, "{seen:?}");
}
