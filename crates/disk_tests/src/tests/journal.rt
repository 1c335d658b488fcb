//! What a stop leaves at each write and sync, how many of them there are, and what keeps a disk from being opened.

ghost use Rattle.std.specs.Prelude.{◌≡◌, ◌≤◌, ◌<◌, ◌+◌, ℕ, length, IfOk, IfSome};
ghost use Rattle.fs_layout.specs.declared.commit.TheConstants.{MAX_TARGETS};
ghost use Rattle.redo_journal.specs.Batch.{IsOnDisk};
ghost use Rattle.redo_journal.specs.States.{IsLogged, IsSealed, header_at};

use fs_layout::Commit;
use redo_journal::{Batch, Journal, Logged, OpenFault, Sealed};
use sector_disk::{CrashDisk, Disk, FailOnce, MemDisk};
use std::alloc::{AllocError, Global};

// A disk of 512 zero sectors, but for a commit sector without targets that counts so many.
fn disk_with(alloc: Global, count: u8) -> Result<MemDisk, AllocError>
    ensures { IfOk result (λ disk. (⟦<MemDisk as Disk>⟧.state disk).size ≡ 512) }
{
    let mut commit = [0; 512];
    Commit::idle().write_to(&mut commit, 0);
    commit[4] = count;
    let mut sectors = Vec::from_slice(alloc, [[0; 512], commit].as_slice())?;
    sectors.resize(512, [0; 512])?;
    MemDisk::from_sectors(alloc, sectors)
}

// So many sectors from 200 on, whose bytes are 7, 8 and so on.
fn batch_of(alloc: Global, count: u8) -> Result<Batch, AllocError>
    ensures on_disk { IfOk result (λ batch. (size : ℕ) → 200 + count ≤ size → IsOnDisk 0 size batch.entries) }
    ensures most { IfOk result (λ batch. batch.most ≡ 126) }
{
    let mut batch = Batch::new(alloc, 126)?;
    for k in 0..count {
        if batch.len() < 126 {
            batch.put(200 + u32::from(k), &[k.wrapping_add(7); 512]);
        }
    }
    Ok(batch)
}

// The disk after a commit, from its last step on.
fn disk_after_sealed<D: Disk>(sealed: Sealed<D>, batch: &Batch) -> D
    requires { IsSealed batch.now.entries (D.state sealed) }
    ensures { (D.state result).size ≡ (D.state sealed).size }
{
    match sealed.install(batch) {
        Ok(journal) => journal.into_disk(),
        Err(broken) => broken.into_disk(),
    }
}

pub(super) fn disk_after_logged<D: Disk>(logged: Logged<D>, batch: &Batch) -> D
    requires { IsLogged batch.now.entries (D.state logged) }
    ensures { (D.state result).size ≡ (D.state logged).size }
{
    match logged.seal(batch) {
        Ok(sealed) => disk_after_sealed(sealed, batch),
        Err(broken) => broken.into_disk(),
    }
}

// The disk after a commit.
fn disk_after<D: Disk>(journal: Journal<D>, batch: &Batch) -> D
    requires header { header_at (D.state journal).seen ≡ 0 }
    requires few { length batch.now.entries ≤ MAX_TARGETS }
    requires on_disk { IsOnDisk 0 (D.state journal).size batch.now.entries }
    ensures { (D.state result).size ≡ (D.state journal).size }
{
    match journal.log(batch) {
        Ok(logged) => disk_after_logged(logged, batch),
        Err(broken) => broken.into_disk(),
    }
}

// A journal on a disk without a header.
fn opened<D: Disk + Drop>(disk: D) -> Option<Journal<D>>
    requires { 128 ≤ (D.state disk).size }
    ensures header { IfSome result (λ journal. header_at (D.state journal).seen ≡ 0) }
    ensures size { IfSome result (λ journal. (D.state journal).size ≡ (D.state disk).size) }
{
    match Journal::open(disk) {
        Ok(journal) => {
            if journal.header() == 0 {
                Some(journal)
            } else {
                None
            }
        }
        Err(_) => None,
    }
}

// The disk after a commit of which so many writes and syncs pass; none where the batch has more targets than the commit sector.
fn committed<D: CrashDisk + Drop>(disk: D, batch: &Batch, passes: u64) -> Option<D>
    requires room { 128 ≤ (D.state disk).size }
    requires on_disk { IsOnDisk 0 (D.state disk).size batch.now.entries }
    ensures { IfSome result (λ after. (D.state after).size ≡ (D.state disk).size) }
{
    if batch.len() > 126 {
        return None;
    }
    let mut journal = opened(disk)?;
    journal.arm(passes);
    Some(disk_after(journal, batch))
}

// The disk after a commit of which so many writes and syncs pass, and a stop.
fn stopped<D: CrashDisk + Drop>(disk: D, batch: &Batch, passes: u64, choice: &[u8]) -> Option<D>
    requires room { 128 ≤ (D.state disk).size }
    requires on_disk { IsOnDisk 0 (D.state disk).size batch.now.entries }
    ensures { IfSome result (λ after. (D.state after).size ≡ (D.state disk).size) }
{
    let mut disk = committed(disk, batch, passes)?;
    disk.crash(choice);
    Some(disk)
}

// The disk after an opening of which so many writes and syncs pass.
fn disk_after_opening<D: CrashDisk>(disk: D, passes: u64) -> D
    requires { 128 ≤ (D.state disk).size }
    ensures { (D.state result).size ≡ (D.state disk).size }
{
    let mut disk = disk;
    disk.arm(passes);
    match Journal::open(disk) {
        Ok(journal) => journal.into_disk(),
        Err((_, disk)) => disk,
    }
}

// The disk after an opening of which so many writes and syncs pass, and a stop.
fn stopped_within_opening<D: CrashDisk>(disk: D, passes: u64, choice: &[u8]) -> D
    requires { 128 ≤ (D.state disk).size }
    ensures { (D.state result).size ≡ (D.state disk).size }
{
    let mut disk = disk_after_opening(disk, passes);
    disk.crash(choice);
    disk
}

// The first bytes of sectors 200 and 201, if they are read.
fn bytes_in<D: Disk>(journal: &mut Journal<D>) -> Option<(u8, u8)>
    requires header { header_at (D.state journal.old).seen ≡ 0 }
    requires room { 202 ≤ (D.state journal.old).size }
{
    let mut first = [0; 512];
    let mut second = [0; 512];
    if journal.read(200, &mut first).is_ok() && journal.read(201, &mut second).is_ok() {
        Some((first[0], second[0]))
    } else {
        None
    }
}

// The first bytes of sectors 200 and 201 of a disk that is opened, if they are read.
fn bytes_of<D: Disk + Drop>(disk: D) -> Option<(u8, u8)>
    requires { 202 ≤ (D.state disk).size }
{
    let mut journal = opened(disk)?;
    bytes_in(&mut journal)
}

// What is read after a stop within a commit of which so many writes and syncs pass.
fn bytes_after_stop<D: CrashDisk + Drop>(
    disk: D,
    batch: &Batch,
    passes: u64,
    choice: &[u8],
) -> Option<(u8, u8)>
    requires room { 202 ≤ (D.state disk).size }
    requires on_disk { IsOnDisk 0 (D.state disk).size batch.now.entries }
{
    let disk = stopped(disk, batch, passes, choice)?;
    bytes_of(disk)
}

// What is read after a stop within a commit of two sectors, on a new disk.
fn two_after_stop(alloc: Global, passes: u64, choice: &[u8]) -> Option<(u8, u8)> {
    let batch = batch_of(alloc, 2).ok()?;
    match disk_with(alloc, 0) {
        Ok(disk) => bytes_after_stop(disk, &batch, passes, choice),
        Err(_) => None,
    }
}

// What is read after such a stop for choices 0, choices 1, and two that begin with one of these and end with the other.
fn two_after_stops(alloc: Global, passes: u64) -> [Option<(u8, u8)>; 4] {
    [
        two_after_stop(alloc, passes, &[]),
        two_after_stop(alloc, passes, &[1, 1, 1]),
        two_after_stop(alloc, passes, &[0, 1]),
        two_after_stop(alloc, passes, &[1, 0]),
    ]
}

// How many writes and syncs pass, and what is read for choices 0 and for choices 1.
static STOPS: [(u64, (u8, u8), (u8, u8)); 11] = [
    (0, (0, 0), (0, 0)),
    (1, (0, 0), (0, 0)),
    (2, (0, 0), (0, 0)),
    (3, (0, 0), (7, 8)),
    (4, (0, 0), (7, 8)),
    (5, (7, 8), (7, 8)),
    (6, (7, 8), (7, 8)),
    (7, (7, 8), (7, 8)),
    (8, (7, 8), (7, 8)),
    (9, (7, 8), (7, 8)),
    (10, (7, 8), (7, 8)),
];

fn is_left_so(alloc: Global, passes: u64, zeros: (u8, u8), ones: (u8, u8)) -> bool {
    two_after_stops(alloc, passes) == [Some(zeros), Some(ones), Some(zeros), Some(ones)]
}

// The first row that is otherwise.
fn other_stop(alloc: Global) -> Option<usize> {
    for i in 0..STOPS.len() {
        if !is_left_so(alloc, STOPS[i].0, STOPS[i].1, STOPS[i].2) {
            return Some(i);
        }
    }
    None
}

#[test]
fn a_stop_leaves_the_batch_whole_or_not_at_all(rt: HostRuntime) {
    let wrong = other_stop(rt.alloc());
    assert!(rt; wrong == None, "{wrong:?}");
}

// What is read after a stop within a commit, and two openings that are stopped too.
fn bytes_after_stops<D: CrashDisk + Drop>(
    disk: D,
    batch: &Batch,
    passes: u64,
    choice: &[u8],
    openings: (u64, u64),
    later: &[u8],
) -> Option<(u8, u8)>
    requires room { 202 ≤ (D.state disk).size }
    requires on_disk { IsOnDisk 0 (D.state disk).size batch.now.entries }
{
    let disk = stopped(disk, batch, passes, choice)?;
    let disk = stopped_within_opening(disk, openings.0, later);
    let disk = stopped_within_opening(disk, openings.1, later);
    bytes_of(disk)
}

// What is read after a stop within a commit of two sectors and two stopped openings, on a new disk.
fn two_after_openings(
    alloc: Global,
    passes: u64,
    choice: &[u8],
    openings: (u64, u64),
    later: &[u8],
) -> Option<(u8, u8)> {
    let batch = batch_of(alloc, 2).ok()?;
    match disk_with(alloc, 0) {
        Ok(disk) => bytes_after_stops(disk, &batch, passes, choice, openings, later),
        Err(_) => None,
    }
}

// What is read so for four choices at the later stops.
fn four_after_openings(
    alloc: Global,
    passes: u64,
    choice: &[u8],
    openings: (u64, u64),
) -> [Option<(u8, u8)>; 4] {
    [
        two_after_openings(alloc, passes, choice, openings, &[]),
        two_after_openings(alloc, passes, choice, openings, &[1, 1]),
        two_after_openings(alloc, passes, choice, openings, &[0, 1]),
        two_after_openings(alloc, passes, choice, openings, &[1, 0]),
    ]
}

// How many writes and syncs of the commit pass, the choice at its stop, and what is read then.
static RECOVERIES: [(u64, &[u8], (u8, u8)); 6] = [
    (3, &[0], (0, 0)),
    (4, &[1], (7, 8)),
    (5, &[0], (7, 8)),
    (7, &[1], (7, 8)),
    (9, &[0], (7, 8)),
    (9, &[1], (7, 8)),
];

// The first stops of two openings, as 8 times the one and the other, after which something else is read.
fn other_openings(alloc: Global, passes: u64, choice: &[u8], want: (u8, u8)) -> Option<u64> {
    for stops in 0..64 {
        let found = four_after_openings(alloc, passes, choice, (stops / 8, stops % 8));
        if found != [Some(want); 4] {
            return Some(stops);
        }
    }
    None
}

// The first row that is otherwise, and these stops.
fn other_recovery(alloc: Global) -> Option<(usize, u64)> {
    for i in 0..RECOVERIES.len() {
        let (passes, choice, want) = RECOVERIES[i];
        if let Some(stops) = other_openings(alloc, passes, choice, want) {
            return Some((i, stops));
        }
    }
    None
}

#[test]
fn a_stop_within_recovery_leaves_the_same(rt: HostRuntime) {
    let wrong = other_recovery(rt.alloc());
    assert!(rt; wrong == None, "{wrong:?}");
}

// What is read once the disk is opened again, after a fault that kept it from that.
fn bytes_after_fault<D: Disk + Drop>(disk: D) -> Option<(u8, u8)>
    requires { 202 ≤ (D.state disk).size }
{
    match Journal::open(disk) {
        Ok(_) => None,
        Err((OpenFault::DiskFault, disk)) => bytes_of(disk),
        Err((OpenFault::BadCommitSector, _)) => None,
    }
}

// A disk whose batch is sealed: of its commit log and commit sector are written, and nothing more.
fn sealed_disk(alloc: Global, batch: &Batch) -> Option<MemDisk>
    requires { IsOnDisk 0 512 batch.now.entries }
    ensures { IfSome result (λ disk. (⟦<MemDisk as Disk>⟧.state disk).size ≡ 512) }
{
    let passes = batch.len() as u64 + 3;
    match disk_with(alloc, 0) {
        Ok(disk) => stopped(disk, batch, passes, &[]),
        Err(_) => None,
    }
}

// What is read after a fault at this call of the recovery of two sectors.
fn two_after_fault(alloc: Global, call: u64) -> Option<(u8, u8)> {
    let batch = batch_of(alloc, 2).ok()?;
    match sealed_disk(alloc, &batch) {
        Some(disk) => bytes_after_fault(FailOnce::new(disk, call)),
        None => None,
    }
}

// The first call at which a fault leaves something else. Recovery of two sectors makes a sync and two reads, two reads and writes, a
// sync, a write and a sync.
fn other_call(alloc: Global) -> Option<u64> {
    for call in 0..10 {
        if two_after_fault(alloc, call) != Some((7, 8)) {
            return Some(call);
        }
    }
    None
}

#[test]
fn a_fault_within_recovery_loses_nothing(rt: HostRuntime) {
    let wrong = other_call(rt.alloc());
    assert!(rt; wrong == None, "{wrong:?}");
}

// Why a disk isn't opened of which so many writes and syncs pass, how often it has failed then, and byte 4 of its
// commit sector.
fn refusal<D: CrashDisk + Drop>(disk: D, passes: u64) -> Option<(OpenFault, u64, u8)>
    requires { 128 ≤ (D.state disk).size }
{
    let mut disk = disk;
    disk.arm(passes);
    match Journal::open(disk) {
        Ok(_) => None,
        Err((fault, mut disk)) => {
            let mut content = [0xff; 512];
            let is_read = disk.read(1, &mut content).is_ok();
            if is_read {
                Some((fault, disk.failures(), content[4]))
            } else {
                None
            }
        }
    }
}

// That of a new disk whose commit sector counts so many.
fn refusal_with(alloc: Global, count: u8, passes: u64) -> Option<(OpenFault, u64, u8)> {
    refusal(disk_with(alloc, count).ok()?, passes)
}

#[test]
fn a_disk_that_is_not_opened_is_given_back(rt: HostRuntime) {
    let seen = [
        refusal_with(rt.alloc(), 127, 100),
        refusal_with(rt.alloc(), 0, 0),
    ];
    let wanted = [
        Some((OpenFault::BadCommitSector, 0, 127)),
        Some((OpenFault::DiskFault, 1, 0)),
    ];
    assert!(rt; seen == wanted, "{seen:?}");
}

// None of the writes and syncs of a commit fails where so many pass.
fn is_committed<D: CrashDisk + Drop>(disk: D, batch: &Batch, passes: u64) -> bool
    requires room { 128 ≤ (D.state disk).size }
    requires on_disk { IsOnDisk 0 (D.state disk).size batch.now.entries }
{
    match committed(disk, batch, passes) {
        Some(disk) => disk.failures() == 0,
        None => false,
    }
}

// None of the writes and syncs of an opening fails where so many pass.
fn is_opened<D: CrashDisk + Drop>(disk: D, passes: u64) -> bool
    requires { 128 ≤ (D.state disk).size }
{
    let before = disk.failures();
    disk_after_opening(disk, passes).failures() == before
}

// How many writes and syncs a commit makes: that many have to pass.
fn commit_calls(alloc: Global, batch: &Batch) -> Option<u64>
    requires on_disk { IsOnDisk 0 512 batch.now.entries }
{
    for passes in 0..300 {
        if is_committed(disk_with(alloc, 0).ok()?, batch, passes) {
            return Some(passes);
        }
    }
    None
}

// How many an opening makes once the batch is sealed.
fn recovery_calls(alloc: Global, batch: &Batch) -> Option<u64>
    requires on_disk { IsOnDisk 0 512 batch.now.entries }
{
    for passes in 0..300 {
        if is_opened(sealed_disk(alloc, batch)?, passes) {
            return Some(passes);
        }
    }
    None
}

// A batch's length, and both for it.
fn calls_of(alloc: Global, length: u8) -> Option<(usize, Option<u64>, Option<u64>)> {
    let batch = batch_of(alloc, length).ok()?;
    let commit = commit_calls(alloc, &batch);
    Some((batch.len(), commit, recovery_calls(alloc, &batch)))
}

#[test]
fn writes_and_syncs_are_counted(rt: HostRuntime) {
    let seen = [
        calls_of(rt.alloc(), 0),
        calls_of(rt.alloc(), 1),
        calls_of(rt.alloc(), 2),
        calls_of(rt.alloc(), 126),
    ];
    // The batch's length; the writes and syncs of its commit, and of opening where it is sealed.
    let wanted = [
        Some((0, Some(0), Some(1))),
        Some((1, Some(8), Some(5))),
        Some((2, Some(10), Some(6))),
        Some((126, Some(258), Some(130))),
    ];
    assert!(rt; seen == wanted, "{seen:?}");
}

// What is read after a fault within a seal, once the disk is armed again.
fn bytes_after_arming<D: CrashDisk + Drop>(disk: D, batch: &Batch) -> Option<(u8, u8)>
    requires room { 202 ≤ (D.state disk).size }
    requires on_disk { IsOnDisk 0 (D.state disk).size batch.now.entries }
{
    if batch.len() > 126 {
        return None;
    }
    let mut journal = opened(disk)?;
    journal.arm(4);
    match journal.log(batch) {
        Ok(logged) => match logged.seal(batch) {
            Ok(_) => None,
            Err(mut broken) => {
                broken.arm(100);
                bytes_of(broken.into_disk())
            }
        },
        Err(_) => None,
    }
}

fn two_after_arming(alloc: Global) -> Option<(u8, u8)> {
    let batch = batch_of(alloc, 2).ok()?;
    match disk_with(alloc, 0) {
        Ok(disk) => bytes_after_arming(disk, &batch),
        Err(_) => None,
    }
}

#[test]
fn a_broken_journal_can_be_armed(rt: HostRuntime) {
    let found = two_after_arming(rt.alloc());
    assert!(rt; found == Some((7, 8)), "{found:?}");
}

// The first and the last byte of what the batch has for a sector.
fn ends_of(batch: &Batch, n: u32) -> Option<(u8, u8)> {
    batch.get(n).map(|content| (content[0], content[511]))
}

type Ends = Option<(u8, u8)>;

// What a batch has for sectors 200 to 202.
fn contents_of(batch: &Batch) -> [Ends; 3] {
    [
        ends_of(batch, 200),
        ends_of(batch, 201),
        ends_of(batch, 202),
    ]
}

// That it is empty, how many sectors it has, the last of them, and its contents.
type Seen = (bool, usize, Option<u32>, [Ends; 3]);

fn seen_of(batch: &Batch) -> Seen {
    let last = batch.sectors().last().copied();
    (batch.is_empty(), batch.len(), last, contents_of(batch))
}

// What a batch has once sector 200 is put, once it has taken the sectors of another one, and once it is cleared; and how many sectors
// the other one added.
fn changed(batch: &mut Batch, other: &Batch) -> ([Seen; 3], usize)
    requires { batch.old.most ≡ 126 }
{
    if batch.len() < 126 {
        batch.put(200, &[9; 512]);
    }
    let first = seen_of(batch);
    let added = batch.added_by(other);
    if added <= 126 {
        if batch.len() <= 126 - added {
            batch.absorb(other);
        }
    }
    let taken = seen_of(batch);
    batch.clear();
    ([first, taken, seen_of(batch)], added)
}

// That of a batch of two sectors, and another of three.
fn batch_seen(alloc: Global) -> Option<([Seen; 3], usize)> {
    let mut batch = batch_of(alloc, 2).ok()?;
    let other = batch_of(alloc, 3).ok()?;
    Some(changed(&mut batch, &other))
}

#[test]
fn a_batch_is_a_map(rt: HostRuntime) {
    let found = batch_seen(rt.alloc());
    let first = (false, 2, Some(201), [Some((9, 9)), Some((8, 8)), None]);
    let taken = (
        false,
        3,
        Some(202),
        [Some((7, 7)), Some((8, 8)), Some((9, 9))],
    );
    let cleared = (true, 0, None, [None, None, None]);
    assert!(rt; found == Some(([first, taken, cleared], 1)), "{found:?}");
}
