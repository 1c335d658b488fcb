//! Transactions over disks that fail and stop, and callers as the layers above write them.

ghost use Rattle.std.specs.Prelude.{◌≤◌, ◌<◌, ◌+◌, IfSome};
ghost use Rattle.fs_layout.specs.Header.{log_end};
ghost use Rattle.sector_txn.specs.Sectors.{SameStore};
ghost use Rattle.disk_tests.specs.Small.{IsSmall, HasSmallMap};

mod clients;

use clients::{clear_all, mix_whole};
use fs_layout::Commit;
use redo_journal::Journal;
use sector_disk::{CrashDisk, Disk, DiskFault, FailOnce, FuseDisk, MemDisk};
use sector_txn::{Sectors, Store, Txn};
use std::alloc::Global;

// A disk of 1,024 zero sectors, but for an idle commit sector.
fn idle_disk(alloc: Global) -> Option<MemDisk> {
    let mut disk = MemDisk::new(alloc, 1024).ok()?;
    let mut commit = [0; 512];
    Commit::idle().write_to(&mut commit, 0);
    let is_idle = disk.write(1, &commit).is_ok() && disk.sync().is_ok();
    if is_idle { Some(disk) } else { None }
}

// A journal on a disk of that size, without a header.
fn opened_journal<D: Disk + Drop>(disk: D) -> Option<Journal<D>>
    ensures { IfSome result (λ journal. IsSmall (D.state journal)) }
{
    if disk.size() != 1024 {
        return None;
    }
    match Journal::open(disk) {
        Ok(journal) => {
            if journal.header() != 0 {
                return None;
            }
            Some(journal)
        }
        Err(_) => None,
    }
}

fn opened<D: Disk + Drop>(alloc: Global, disk: D) -> Option<Store<D>>
    ensures { IfSome result (λ store. IsSmall (D.state store.disk)) }
{
    match Store::new(alloc, opened_journal(disk)?, 0) {
        Ok(store) => Some(store),
        Err(_) => None,
    }
}

// Puts the sectors 200 + k for these k, each with the byte k + 7.
fn put_some<S: Sectors>(s: &mut S, from: u8, to: u8)
    requires { HasSmallMap (S.state s.old) }
    ensures { SameStore (S.state s.old) (S.state s.new) }
{
    for k in from..to {
        if s.room() == 0 {
            return;
        }
        s.put(200 + u32::from(k), &[k.wrapping_add(7); 512]);
    }
}

// The first byte of a sector behind the log.
fn byte_at<S: Sectors>(s: &mut S, n: u32) -> Result<u8, DiskFault>
    requires part { log_end (S.state s.old).header ≤ n }
    requires on_disk { n < (S.state s.old).disk.size }
    ensures { SameStore (S.state s.old) (S.state s.new) }
{
    let mut content = [0; 512];
    s.get(n, &mut content)?;
    Ok(content[0])
}

// How many of so many sectors from 200 on are as `put_some` leaves them.
fn count_put<S: Sectors>(s: &mut S, count: u8) -> Result<u8, DiskFault>
    requires { HasSmallMap (S.state s.old) }
    ensures { SameStore (S.state s.old) (S.state s.new) }
{
    let mut found = 0u8;
    for k in 0..count {
        if byte_at(s, 200 + u32::from(k))? == k.wrapping_add(7) {
            found = found.saturating_add(1);
        }
    }
    Ok(found)
}

// How many of so many sectors of a store are as `put_some` leaves them.
fn count_kept<D: Disk>(store: Store<D>, count: u8) -> (Result<u8, DiskFault>, Store<D>)
    requires { IsSmall (D.state store.disk) }
{
    let mut txn = store.begin();
    let found = count_put(&mut txn, count);
    (found, txn.drop_delta())
}

// How many of so many sectors are as `put_some` leaves them once the disk has been stopped.
fn count_lasting<D: CrashDisk + Drop>(
    alloc: Global,
    disk: D,
    choice: &[u8],
    count: u8,
) -> Option<u8> {
    let mut disk = disk;
    disk.crash(choice);
    let (found, _) = count_kept(opened(alloc, disk)?, count);
    found.ok()
}

// A transaction that has put these sectors.
fn with_some<D: Disk>(store: Store<D>, from: u8, to: u8) -> Txn<D>
    requires { IsSmall (D.state store.disk) }
    ensures { IsSmall (D.state result.disk) }
{
    let mut txn = store.begin();
    put_some(&mut txn, from, to);
    txn
}

// A store that has kept so many sectors.
fn with_kept<D: Disk + Drop>(alloc: Global, disk: D, count: u8) -> Option<Store<D>>
    ensures { IfSome result (λ store. IsSmall (D.state store.disk)) }
{
    keep(with_some(opened(alloc, disk)?, 0, count))
}

fn keep<D: Disk + Drop>(txn: Txn<D>) -> Option<Store<D>>
    requires { IsSmall (D.state txn.disk) }
    ensures { IfSome result (λ store. IsSmall (D.state store.disk)) }
{
    match txn.keep() {
        Ok(store) => Some(store),
        Err(_) => None,
    }
}

fn flushed_disk<D: Disk + Drop>(store: Store<D>) -> Option<D> {
    match store.flush() {
        Ok(store) => Some(store.into_disk()),
        Err(_) => None,
    }
}

// The room once sectors are put; how many of them are there once they are kept; and after a flush and a stop.
fn after_keep<D: CrashDisk + Drop>(alloc: Global, disk: D, count: u8) -> Option<(usize, u8, u8)> {
    let txn = with_some(opened(alloc, disk)?, 0, count);
    let room = txn.room();
    let (kept, store) = count_kept(keep(txn)?, count);
    let lasting = count_lasting(alloc, flushed_disk(store)?, &[], count)?;
    Some((room, kept.ok()?, lasting))
}

// How many sectors are there once they are put, once they are dropped, and after a stop.
fn after_drop<D: CrashDisk + Drop>(alloc: Global, disk: D, count: u8) -> Option<(u8, u8, u8)> {
    let mut txn = with_some(opened(alloc, disk)?, 0, count);
    let put = count_put(&mut txn, count);
    let (found, store) = count_kept(txn.drop_delta(), count);
    let lasting = count_lasting(alloc, store.into_disk(), &[], count)?;
    Some((put.ok()?, found.ok()?, lasting))
}

// The first byte of sector 210 after a call that mixes sectors 200 and 201 there.
fn mixed<D: Disk + Drop>(alloc: Global, disk: D) -> Option<u8> {
    match mix_whole(with_kept(alloc, disk, 2)?, 200, 201, 210) {
        Err(_) => None,
        Ok(store) => {
            let mut txn = store.begin();
            let byte = byte_at(&mut txn, 210);
            let _ = txn.drop_delta();
            byte.ok()
        }
    }
}

// The room left once two sectors of three are cleared, one of them twice, and how many of the three are still there.
fn cleared<D: Disk + Drop>(alloc: Global, disk: D) -> Option<(usize, u8)> {
    let mut txn = with_kept(alloc, disk, 3)?.begin();
    clear_all(&mut txn, &[200, 202, 200]);
    let room = txn.room();
    let found = count_put(&mut txn, 3);
    let _ = txn.drop_delta();
    Some((room, found.ok()?))
}

// What a call finds under a key where it has left a hint and under another one; what the next call finds there; and what it finds
// where it leaves one under a key that has the same place, and under that.
fn hinted<D: Disk + Drop>(alloc: Global, disk: D) -> Option<[Option<u64>; 5]> {
    let mut txn = opened(alloc, disk)?.begin();
    txn.leave_hint(5, 40);
    let (left, other) = (txn.hint(5), txn.hint(6));
    let mut later = keep(txn)?.begin();
    let found = later.hint(5);
    later.leave_hint(5 + 16_384, 41);
    let (lost, last) = (later.hint(5), later.hint(5 + 16_384));
    let _ = later.drop_delta();
    Some([left, other, found, lost, last])
}

// What comes of five calls, each on a new disk.
type Calls = (
    (usize, u8, u8),
    (u8, u8, u8),
    u8,
    (usize, u8),
    [Option<u64>; 5],
);

fn five_calls(alloc: Global) -> Option<Calls> {
    Some((
        after_keep(alloc, idle_disk(alloc)?, 64)?,
        after_drop(alloc, idle_disk(alloc)?, 64)?,
        mixed(alloc, idle_disk(alloc)?)?,
        cleared(alloc, idle_disk(alloc)?)?,
        hinted(alloc, idle_disk(alloc)?)?,
    ))
}

#[test]
fn a_call_is_kept_or_dropped(rt: HostRuntime) {
    let seen = five_calls(rt.alloc());
    let hints = [Some(40), None, Some(40), None, Some(41)];
    let wanted = ((0, 64, 64), (64, 0, 0), 8, (62, 1), hints);
    assert!(rt; seen == Some(wanted), "{seen:?}");
}

// Whether sector 201 is read after a put of sector 200, what that gives, and whether sector 201 is read then; the room,
// and whether the change is kept and flushed.
fn around_a_fault<D: Disk + Drop>(
    alloc: Global,
    disk: D,
) -> Option<(bool, u8, bool, usize, (bool, bool))> {
    let mut txn = with_some(opened(alloc, disk)?, 0, 1);
    let read = byte_at(&mut txn, 201).is_ok();
    let put = byte_at(&mut txn, 200);
    let read_again = byte_at(&mut txn, 201).is_ok();
    let room = txn.room();
    let (kept, flushed, _) = kept_and_flushed(txn);
    Some((read, put.ok()?, read_again, room, (kept, flushed)))
}

// Whether a transaction is kept, and whether it is flushed.
fn kept_and_flushed<D: Disk>(txn: Txn<D>) -> (bool, bool, D) {
    match txn.keep() {
        Err(broken) => (false, false, broken.into_disk()),
        Ok(store) => match store.flush() {
            Err(broken) => (true, false, broken.into_disk()),
            Ok(store) => (true, true, store.into_disk()),
        },
    }
}

// Whether no change is kept and flushed where the disk's calls pass up to the first after the journal's opening.
fn nothing_kept(alloc: Global) -> Option<(bool, bool)> {
    let idle = FuseDisk::new(idle_disk(alloc)?, 3);
    let (kept, flushed, _) = kept_and_flushed(opened(alloc, idle)?.begin());
    Some((kept, flushed))
}

// That around one fault, and around all from one on.
fn around_faults(alloc: Global) -> Option<[(bool, u8, bool, usize, (bool, bool)); 2]> {
    Some([
        around_a_fault(alloc, FailOnce::new(idle_disk(alloc)?, 3))?,
        around_a_fault(alloc, FuseDisk::new(idle_disk(alloc)?, 3))?,
    ])
}

#[test]
fn a_failed_get_leaves_map_and_delta(rt: HostRuntime) {
    // Opening an idle journal makes a sync and two reads; keeping one change makes no call, and flushing nothing none.
    let seen = (around_faults(rt.alloc()), nothing_kept(rt.alloc()));
    let around = [
        (false, 7, true, 63, (true, true)),
        (false, 7, false, 63, (true, false)),
    ];
    assert!(rt; seen == (Some(around), Some((true, true))), "{seen:?}");
}

// Whether a store that was armed so has kept and flushed so many sectors, and how many are there after a stop.
fn kept_while_armed<D: CrashDisk + Drop>(
    alloc: Global,
    disk: D,
    passes: u64,
    count: u8,
    choice: &[u8],
) -> Option<(bool, bool, u8)> {
    let mut store = opened(alloc, disk)?;
    store.arm(passes);
    let (kept, flushed, disk) = kept_and_flushed(with_some(store, 0, count));
    let lasting = count_lasting(alloc, disk, choice, count)?;
    Some((kept, flushed, lasting))
}

// Whether a store on a new disk has kept and flushed so many sectors, and how many are there after a stop.
fn kept_on_new(alloc: Global, passes: u64, count: u8, choice: &[u8]) -> Option<(bool, bool, u8)> {
    kept_while_armed(alloc, idle_disk(alloc)?, passes, count, choice)
}

// What is kept so for choices 0, choices 1, and two that begin with one of these and end with the other.
fn kept_for_choices(alloc: Global, passes: u64, count: u8) -> [Option<(bool, bool, u8)>; 4] {
    [
        kept_on_new(alloc, passes, count, &[]),
        kept_on_new(alloc, passes, count, &[1, 1, 1]),
        kept_on_new(alloc, passes, count, &[0, 1]),
        kept_on_new(alloc, passes, count, &[1, 0]),
    ]
}

// How many writes and syncs pass, of how many sectors, and how many are there for choices 0 and for choices 1: a commit of n
// sectors makes 2n + 6.
static FLUSHES: [(u64, u8, u8, u8); 15] = [
    (0, 2, 0, 0),
    (1, 2, 0, 0),
    (2, 2, 0, 0),
    (3, 2, 0, 2),
    (4, 2, 0, 2),
    (5, 2, 2, 2),
    (6, 2, 2, 2),
    (7, 2, 2, 2),
    (8, 2, 2, 2),
    (9, 2, 2, 2),
    (10, 2, 2, 2),
    (7, 1, 1, 1),
    (8, 1, 1, 1),
    (133, 64, 64, 64),
    (134, 64, 64, 64),
];

fn is_flushed_so(alloc: Global, row: (u64, u8, u8, u8)) -> bool {
    let (passes, count, zeros, ones) = row;
    let flushed = passes == 2 * u64::from(count) + 6;
    let (zeros, ones) = (Some((true, flushed, zeros)), Some((true, flushed, ones)));
    kept_for_choices(alloc, passes, count) == [zeros, ones, zeros, ones]
}

// The first row that is otherwise.
fn other_flush(alloc: Global) -> Option<usize> {
    for i in 0..FLUSHES.len() {
        if !is_flushed_so(alloc, FLUSHES[i]) {
            return Some(i);
        }
    }
    None
}

#[test]
fn a_stop_within_a_flush_leaves_all_or_nothing(rt: HostRuntime) {
    let wrong = other_flush(rt.alloc());
    assert!(rt; wrong == None, "{wrong:?}");
}

// Whether the sectors below a number and then others are kept by two transactions of an armed store, and flushed; and
// how many of all are there after a stop.
fn kept_twice<D: CrashDisk + Drop>(
    alloc: Global,
    disk: D,
    passes: u64,
    first: u8,
    (from, to): (u8, u8),
) -> Option<(bool, bool, u8)> {
    let mut store = opened(alloc, disk)?;
    store.arm(passes);
    let (kept, flushed, disk) = match with_some(store, 0, first).keep() {
        Err(broken) => (false, false, broken.into_disk()),
        Ok(store) => kept_and_flushed(with_some(store, from, to)),
    };
    let lasting = count_lasting(alloc, disk, &[], 128)?;
    Some((kept, flushed, lasting))
}

// How many writes and syncs pass, the sectors of the two transactions, and what comes of them. A sector that waits already takes no
// new place, and all that waits is committed before what doesn't fit beside it is kept.
static SHARED: [(u64, u8, (u8, u8), (bool, bool, u8)); 8] = [
    (0, 62, (62, 126), (true, false, 0)),
    (257, 62, (62, 126), (true, false, 126)),
    (258, 62, (62, 126), (true, true, 126)),
    (0, 64, (1, 65), (true, false, 0)),
    (136, 64, (1, 65), (true, true, 65)),
    (0, 64, (64, 127), (false, false, 0)),
    (134, 64, (64, 127), (true, false, 64)),
    (266, 64, (64, 127), (true, true, 127)),
];

fn twice_on_new(
    alloc: Global,
    passes: u64,
    first: u8,
    second: (u8, u8),
) -> Option<(bool, bool, u8)> {
    kept_twice(alloc, idle_disk(alloc)?, passes, first, second)
}

// The first row that is otherwise.
fn other_sharing(alloc: Global) -> Option<usize> {
    for i in 0..SHARED.len() {
        let (passes, first, second, want) = SHARED[i];
        if twice_on_new(alloc, passes, first, second) != Some(want) {
            return Some(i);
        }
    }
    None
}

#[test]
fn calls_share_a_commit_while_they_fit(rt: HostRuntime) {
    let wrong = other_sharing(rt.alloc());
    assert!(rt; wrong == None, "{wrong:?}");
}

// Which of these reads are answered by a disk that fails after so many calls: two of sector 200, and one of sector 201;
// and then, once sector 200 was put, kept and flushed, one of each.
fn read_twice<D: Disk + Drop>(alloc: Global, disk: D) -> Option<[bool; 5]> {
    let mut txn = opened(alloc, disk)?.begin();
    let first = byte_at(&mut txn, 200).is_ok();
    let again = byte_at(&mut txn, 200).is_ok();
    let other = byte_at(&mut txn, 201).is_ok();
    put_some(&mut txn, 0, 1);
    let (changed, same) = match keep(txn)?.flush() {
        Ok(store) => read_both(store),
        Err(_) => (false, false),
    };
    Some([first, again, other, changed, same])
}

// Whether a read of sector 200 is answered, and one of sector 201.
fn read_both<D: Disk + Drop>(store: Store<D>) -> (bool, bool)
    requires { IsSmall (D.state store.disk) }
{
    let mut txn = store.begin();
    let seen = (
        byte_at(&mut txn, 200).is_ok(),
        byte_at(&mut txn, 201).is_ok(),
    );
    let _ = txn.drop_delta();
    seen
}

// That of a disk that answers so many calls; three of them open the journal, and a commit of one sector makes 8.
fn read_in_calls(alloc: Global, calls: u64) -> Option<[bool; 5]> {
    read_twice(alloc, FuseDisk::new(idle_disk(alloc)?, calls))
}

#[test]
fn a_sector_is_read_once_until_it_changes(rt: HostRuntime) {
    let seen = [
        read_in_calls(rt.alloc(), 3),
        read_in_calls(rt.alloc(), 4),
        read_in_calls(rt.alloc(), 5),
        read_in_calls(rt.alloc(), 13),
        read_in_calls(rt.alloc(), 14),
    ];
    let wanted = [
        Some([false, false, false, false, false]),
        Some([true, true, false, false, false]),
        Some([true, true, true, false, false]),
        Some([true, true, true, false, true]),
        Some([true, true, true, true, true]),
    ];
    assert!(rt; seen == wanted, "{seen:?}");
}
