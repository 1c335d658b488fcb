//! Commits on a disk with header sectors, which has two log areas and uses them in turn.

ghost use Rattle.std.specs.Prelude.{◌≡◌, ◌≤◌, length, IfOk, IfSome};
ghost use Rattle.redo_journal.specs.Batch.{IsOnDisk};
ghost use Rattle.disk_tests.specs.Small.{HasTwoAreas};

use crate::tests::disks::first_byte;
use crate::tests::journal::disk_after_logged;
use fs_layout::{Commit, Super, Version};
use redo_journal::{Batch, Journal, OpenFault};
use sector_disk::{CrashDisk, Disk, MemDisk};
use std::alloc::{AllocError, Global};
use std::mem;

// The superblock of a disk with a header sector.
fn superblock() -> [u8; 512] {
    let mut content = [0; 512];
    let superblock = Super {
        version: Version::Three,
        sectors: 2048,
        inodes: 64,
        header: 1,
    };
    superblock.write_to(&mut content, 0);
    content
}

// A commit sector without targets in which this is written as their number.
fn commit_with(number: [u8; 4]) -> [u8; 512] {
    let mut content = Commit::idle().to_sector();
    (&mut content[4..8]).copy_from_slice(&number);
    content
}

fn is_begun<D: Disk>(disk: &mut D, number: [u8; 4]) -> bool {
    if disk.size() != 2048 {
        return false;
    }
    disk.write(0, &superblock()).is_ok()
        && disk.write(1, &commit_with(number)).is_ok()
        && disk.sync().is_ok()
}

// A disk of zero sectors, but for these two.
fn disk_with(alloc: Global, number: [u8; 4]) -> Option<MemDisk> {
    let mut disk = MemDisk::new(alloc, 2048).ok()?;
    if is_begun(&mut disk, number) {
        Some(disk)
    } else {
        None
    }
}

// So many sectors from one on, whose bytes are 7, 8 and so on.
fn batch_of(alloc: Global, first: u32, count: u8) -> Result<Batch, AllocError>
    requires behind { 512 ≤ first }
    requires within { first ≤ 1024 }
    ensures { IfOk result (λ batch. IsOnDisk 1 2048 batch.entries) }
{
    let mut batch = Batch::new(alloc, 254)?;
    for k in 0..count {
        if batch.len() < 254 {
            batch.put(first + u32::from(k), &[k.wrapping_add(7); 512]);
        }
    }
    Ok(batch)
}

// A journal on a disk of 2,048 sectors with a header sector.
fn opened<D: Disk + Drop>(disk: D) -> Option<Journal<D>>
    ensures { IfSome result (λ journal. HasTwoAreas (D.state journal)) }
{
    if disk.size() != 2048 {
        return None;
    }
    match Journal::open(disk) {
        Ok(journal) => with_two_areas(journal),
        Err(_) => None,
    }
}

// The journal, if its disk is such a one.
fn with_two_areas<D: Disk + Drop>(journal: Journal<D>) -> Option<Journal<D>>
    requires { (D.state journal).size ≡ 2048 }
    ensures { IfSome result (λ journal. HasTwoAreas (D.state journal)) }
{
    if journal.header() == 1 {
        Some(journal)
    } else {
        None
    }
}

// The journal after a commit, if it passes.
fn committed<D: Disk + Drop>(journal: Journal<D>, batch: &Batch) -> Option<Journal<D>>
    requires areas { HasTwoAreas (D.state journal) }
    requires on_disk { IsOnDisk 1 2048 batch.now.entries }
    ensures { IfSome result (λ journal. HasTwoAreas (D.state journal)) }
{
    if batch.len() > 254 {
        return None;
    }
    let Ok(logged) = journal.log(batch) else {
        return None;
    };
    let Ok(sealed) = logged.seal(batch) else {
        return None;
    };
    let Ok(journal) = sealed.install(batch) else {
        return None;
    };
    with_two_areas(journal)
}

// The disk after a commit, whether it passes or not; none where the batch is too long.
fn disk_after<D: Disk + Drop>(journal: Journal<D>, batch: &Batch) -> Option<D>
    requires areas { HasTwoAreas (D.state journal) }
    requires on_disk { IsOnDisk 1 2048 batch.now.entries }
{
    if batch.len() > 254 {
        return None;
    }
    match journal.log(batch) {
        Ok(logged) => Some(disk_after_logged(logged, batch)),
        Err(broken) => Some(broken.into_disk()),
    }
}

// How many sectors from 600 on are as a batch of 200 of them has them, and the first byte of sector 900.
fn contents_of<D: Disk>(disk: &mut D) -> Option<(u8, u8)> {
    let mut found = 0u8;
    for k in 0..200u8 {
        if first_byte(disk, 600 + u32::from(k)).ok()? == k.wrapping_add(7) {
            found = found.saturating_add(1);
        }
    }
    Some((found, first_byte(disk, 900).ok()?))
}

// Whether a commit passes of which so many writes and syncs do; and those contents after a stop, once the disk is opened again.
fn stopped<D: CrashDisk + Drop>(
    journal: Journal<D>,
    batch: &Batch,
    passes: u64,
    choice: &[u8],
) -> Option<(bool, (u8, u8))>
    requires areas { HasTwoAreas (D.state journal) }
    requires on_disk { IsOnDisk 1 2048 batch.now.entries }
{
    let mut journal = journal;
    journal.arm(passes);
    let mut disk = disk_after(journal, batch)?;
    let passed = disk.failures() == 0;
    disk.crash(choice);
    let mut disk = opened(disk)?.into_disk();
    let contents = contents_of(&mut disk);
    mem::drop(disk);
    Some((passed, contents?))
}

// A journal of a new disk.
fn before_first(alloc: Global) -> Option<Journal<MemDisk>>
    ensures { IfSome result (λ journal. HasTwoAreas (⟦<MemDisk as Disk>⟧.state journal)) }
{
    opened(disk_with(alloc, [0; 4])?)
}

// What a stop leaves of the first commit of a new disk, of 200 sectors from 600 on.
fn first_stopped(alloc: Global, passes: u64, choice: &[u8]) -> Option<(bool, (u8, u8))> {
    let batch = batch_of(alloc, 600, 200).ok()?;
    match before_first(alloc) {
        Some(journal) => stopped(journal, &batch, passes, choice),
        None => None,
    }
}

// A journal after that commit.
fn after_first(alloc: Global) -> Option<Journal<MemDisk>>
    ensures { IfSome result (λ journal. HasTwoAreas (⟦<MemDisk as Disk>⟧.state journal)) }
{
    let batch = batch_of(alloc, 600, 200).ok()?;
    match before_first(alloc) {
        Some(journal) => committed(journal, &batch),
        None => None,
    }
}

// What a stop leaves of the commit after the first, of sector 900.
fn second_stopped(alloc: Global, passes: u64, choice: &[u8]) -> Option<(bool, (u8, u8))> {
    let batch = batch_of(alloc, 900, 1).ok()?;
    match after_first(alloc) {
        Some(journal) => stopped(journal, &batch, passes, choice),
        None => None,
    }
}

// What may be left of sector 1, and of the sectors behind it.
static CHOICES: [&[u8]; 4] = [&[], &[1; 256], &[0, 1, 1, 1], &[1, 0, 1]];

// What a stop leaves where so many writes and syncs of a commit pass, by the choice for sector 1: with the commit before it, with
// this one, or with either; and whether the commit passes.
#[derive(Clone, Copy)]
struct Calls {
    log: u64,
    seal: u64,
    install: u64,
}

impl Calls {
    fn wanted(self, passes: u64, choice: &[u8], old: (u8, u8), new: (u8, u8)) -> (bool, (u8, u8)) {
        let is_new = if passes < self.log {
            false
        } else {
            self.log.saturating_add(self.seal) <= passes || choice.first() == Some(&1)
        };
        let all = self
            .log
            .saturating_add(self.seal)
            .saturating_add(self.install);
        (all <= passes, if is_new { new } else { old })
    }
}

// How many writes and syncs pass at the first stop within the first commit that leaves something else.
fn other_stop_of_first(alloc: Global, choice: &[u8]) -> Option<u64> {
    let calls = Calls {
        log: 202,
        seal: 2,
        install: 200,
    };
    for passes in 0..406 {
        let wanted = calls.wanted(passes, choice, (0, 0), (200, 0));
        if first_stopped(alloc, passes, choice) != Some(wanted) {
            return Some(passes);
        }
    }
    None
}

// And within the second.
fn other_stop_of_second(alloc: Global, choice: &[u8]) -> Option<u64> {
    let calls = Calls {
        log: 2,
        seal: 2,
        install: 1,
    };
    for passes in 0..7 {
        let wanted = calls.wanted(passes, choice, (200, 0), (200, 7));
        if second_stopped(alloc, passes, choice) != Some(wanted) {
            return Some(passes);
        }
    }
    None
}

// The first choice for which that is so, and both.
type Wrong = (usize, Option<u64>, Option<u64>);

fn other_stop(alloc: Global) -> Option<Wrong> {
    for i in 0..CHOICES.len() {
        let first = other_stop_of_first(alloc, CHOICES[i]);
        let second = other_stop_of_second(alloc, CHOICES[i]);
        if (first, second) != (None, None) {
            return Some((i, first, second));
        }
    }
    None
}

#[test]
fn a_stop_leaves_one_commit_or_the_next(rt: HostRuntime) {
    let wrong = other_stop(rt.alloc());
    assert!(rt; wrong == None, "{wrong:?}");
}

// A disk after both commits, and after the last is settled too.
fn after_second(alloc: Global) -> Option<Journal<MemDisk>> {
    let batch = batch_of(alloc, 900, 1).ok()?;
    match after_first(alloc) {
        Some(journal) => committed(journal, &batch),
        None => None,
    }
}

fn settled(alloc: Global) -> Option<Journal<MemDisk>> {
    match after_second(alloc)?.settle() {
        Ok(journal) => Some(journal),
        Err(_) => None,
    }
}

// Bytes of a sector from one on.
type Row = (u32, usize, &'static [u8]);

// Bytes after a commit of the sectors 600 to 799, in the first area.
static FIRST: [Row; 10] = [
    (1, 0, b"INOJ\xc8\0\0\0\x58\x02\0\0\x59\x02\0\0"),
    (1, 504, b"\xd4\x02\0\0\xd5\x02\0\0"),
    (2, 0, b"\xd6\x02\0\0\xd7\x02\0\0"),
    (2, 288, b"\x1e\x03\0\0\x1f\x03\0\0"),
    (3, 0, &[7; 512]),
    (202, 0, &[206; 512]),
    (258, 0, &[0; 512]),
    (600, 0, &[7; 512]),
    (799, 0, &[206; 512]),
    (900, 0, &[0; 512]),
];

// Bytes after one more commit, of sector 900, in the second area.
static SECOND: [Row; 8] = [
    (1, 0, b"INOJ\x01\0\0\x80\x84\x03\0\0\0\0\0\0"),
    (1, 504, &[0; 8]),
    (2, 0, b"\xd6\x02\0\0\xd7\x02\0\0"),
    (3, 0, &[7; 512]),
    (257, 0, &[0; 512]),
    (258, 0, &[7; 512]),
    (259, 0, &[0; 512]),
    (900, 0, &[7; 512]),
];

// Bytes once the journal is settled.
static SETTLED: [Row; 3] = [
    (1, 0, b"INOJ\0\0\0\0\0\0\0\0\0\0\0\0"),
    (258, 0, &[7; 512]),
    (900, 0, &[7; 512]),
];

// Whether a sector has the bytes of its row.
fn is_written<D: Disk>(disk: &mut D, row: Row) -> bool {
    let (n, at, bytes) = row;
    let mut content = [0; 512];
    if disk.size() <= n || disk.read(n, &mut content).is_err() {
        return false;
    }
    (&content[at.min(512)..]).starts_with(bytes)
}

// The first sector that doesn't have the bytes of its row.
fn other_sector<D: Disk>(disk: &mut D, rows: &[Row]) -> Option<u32> {
    for row in rows {
        if !is_written(disk, *row) {
            return Some(row.0);
        }
    }
    None
}

// That of a journal's disk; 0 where there is none.
fn first_wrong<D: Disk + Drop>(journal: Option<Journal<D>>, rows: &[Row]) -> Option<u32> {
    match journal {
        Some(journal) => {
            let mut disk = journal.into_disk();
            other_sector(&mut disk, rows)
        }
        None => Some(0),
    }
}

#[test]
fn commits_take_the_areas_in_turn(rt: HostRuntime) {
    let found = [
        first_wrong(after_first(rt.alloc()), &FIRST),
        first_wrong(after_second(rt.alloc()), &SECOND),
        first_wrong(settled(rt.alloc()), &SETTLED),
    ];
    assert!(rt; found == [None; 3], "{found:?}");
}

// Why a disk isn't opened whose commit sector has this as the number of its targets.
fn refusal(alloc: Global, number: [u8; 4]) -> Option<OpenFault> {
    let disk = disk_with(alloc, number)?;
    if disk.size() != 2048 {
        return None;
    }
    match Journal::open(disk) {
        Ok(_) => None,
        Err((fault, _)) => Some(fault),
    }
}

#[test]
fn numbers_of_targets_are_refused(rt: HostRuntime) {
    let seen = [
        refusal(rt.alloc(), [0, 0, 0, 0]),
        refusal(rt.alloc(), [0, 0, 0, 0x80]),
        refusal(rt.alloc(), [1, 0, 0, 0x80]),
        refusal(rt.alloc(), [254, 0, 0, 0]),
        refusal(rt.alloc(), [255, 0, 0, 0]),
    ];
    let bad = Some(OpenFault::BadCommitSector);
    assert!(rt; seen == [None, bad, bad, bad, bad], "{seen:?}");
}
