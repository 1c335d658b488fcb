//! A file of which it is known what it holds, and disks in it: of std's files no contract says that. So such a file can be stopped, and
//! it is seen what is left of the disk in it.

ghost use Rattle.std.specs.Prelude.{◌≡◌, ◌<◌, ℕ, Some, length, replicate, IfOk, OnOk, OnErr};
ghost use Rattle.sector_disk.specs.Files.{HasRun};
ghost use Rattle.sector_disk.specs.Record.{Written, Synced, Leaves, held_after};
ghost use Rattle.sector_disk.specs.Whole.{AreSectors};
ghost use Rattle.sector_disk.specs.Disk.{IsWholeSector};
ghost use Rattle.disk_tests.specs.Writes.{after_writes, kept_held};

use crate::tests::disks::Call::{Sync, Write};
use crate::tests::disks::{Call, four_calls};
use crate::tests::image_files::{LOADS, Load, Parted, Seen, load_part, parted_as, see};
use sector_disk::{DiskFile, FileDisk, PartFile};
use std::alloc::{AllocError, Global};
use std::io::{self, ErrorKind};

// What a file holds: what was there at its last sync, what reads of it give, and the writes since that sync in their order.
#[derive(Drop)]
struct Kept {
    alloc: Global,
    stable: Vec<[u8; 512]>,
    seen: Vec<[u8; 512]>,
    writes: Vec<(u32, [u8; 512])>,
    ghost len: { length seen.items ≡ length stable.items },
    ghost follows: { seen.items ≡ after_writes stable.items writes.items },
}

impl Kept {
    // These sectors, all of them stable.
    fn new(alloc: Global, sectors: &[[u8; 512]]) -> Result<Self, AllocError>
        ensures stable { IfOk result (λ kept. kept.stable.items ≡ sectors.now) }
        ensures none { IfOk result (λ kept. length kept.writes.items ≡ 0) }
    {
        Ok(Kept {
            alloc,
            stable: Vec::from_slice(alloc, sectors)?,
            seen: Vec::from_slice(alloc, sectors)?,
            writes: Vec::new(alloc),
        })
    }

    fn read(&self, first: usize, to: &mut [[u8; 512]]) -> io::Result<()>
        ensures { OnOk result (HasRun first to.new (kept_held self.now.stable.items self.now.writes.items)) }
    {
        if first > self.seen.len() || to.len() > self.seen.len() - first {
            return Err(io::Error::from(ErrorKind::UnexpectedEof));
        }
        to.copy_from_slice(&self.seen[first..first + to.len()]);
        Ok(())
    }

    fn write(&mut self, n: usize, content: &[u8; 512]) -> io::Result<()>
        ensures below { OnOk result (n < length self.new.seen.items) }
        ensures ok { OnOk result (kept_held self.new.stable.items self.new.writes.items
            ≡ held_after (kept_held self.old.stable.items self.old.writes.items) (Written n content.now)) }
        ensures err { OnErr result (kept_held self.new.stable.items self.new.writes.items
            ≡ kept_held self.old.stable.items self.old.writes.items) }
    {
        let Ok(number) = u32::try_from(n) else {
            return Err(io::Error::from(ErrorKind::UnexpectedEof));
        };
        if n >= self.seen.len() {
            return Err(io::Error::from(ErrorKind::UnexpectedEof));
        }
        self.writes.push((number, *content))?;
        self.seen[n] = *content;
        Ok(())
    }

    fn sync(&mut self)
        ensures { kept_held self.new.stable.items self.new.writes.items
            ≡ held_after (kept_held self.old.stable.items self.old.writes.items) Synced }
    {
        self.stable.copy_from_slice(&self.seen);
        self.writes.clear();
    }

    // What a stop leaves, where it leaves these of the writes since the last sync.
    fn after_stop(&self, left: &[bool]) -> Result<Vec<[u8; 512]>, AllocError>
        ensures { IfOk result (λ sectors. Leaves (length self.now.stable.items)
            (kept_held self.now.stable.items self.now.writes.items) sectors.items) }
    {
        let mut sectors = Vec::from_slice(self.alloc, &self.stable)?;
        for i in 0..self.writes.len() {
            let (n, content) = self.writes[i];
            if i < left.len() && left[i] && (n as usize) < sectors.len() {
                sectors[n as usize] = content;
            }
        }
        Ok(sectors)
    }
}

// Does nothing: tells a proof that bytes are below 256, a fact of their type.
fn tell_whole(sector: &[u8; 512])
    ensures { IsWholeSector sector.now }
{
    let _first = sector[0];
}

// Does nothing: tells a proof that each sector has 512 bytes.
fn tell_all_whole(sectors: &[[u8; 512]])
    ensures { AreSectors sectors.now }
{
    for i in 0..sectors.len() {
        tell_whole(&sectors[i]);
    }
}

// The file as a disk has it. So many of its calls pass, a write counting one for each of its sectors, before each of them fails.
#[derive(Drop)]
struct KnownFile<'a> {
    kept: &'a mut Kept,
    passes: u64,
}

fn pass(passes: &mut u64) -> io::Result<()> {
    if *passes == 0 {
        return Err(io::Error::from(ErrorKind::StorageFull));
    }
    *passes -= 1;
    Ok(())
}

impl DiskFile for KnownFile<'_> {
    ghost held = { λ file. Some (kept_held file.kept.now.stable.items file.kept.now.writes.items) };

    fn try_lock(&self) -> io::Result<()> {
        Ok(())
    }

    fn count(&self) -> io::Result<u64> {
        tell_all_whole(&self.kept.seen);
        Ok(self.kept.seen.len() as u64)
    }

    fn fill(&mut self, sectors: u32) -> io::Result<()> {
        pass(&mut self.passes)?;
        let mut zeros = Vec::new(self.kept.alloc);
        zeros.resize(sectors as usize, [0; 512])?;
        *self.kept = Kept::new(self.kept.alloc, &zeros)?;
        Ok(())
    }

    fn read_run(&mut self, first: u32, to: &mut [[u8; 512]]) -> io::Result<()> {
        pass(&mut self.passes)?;
        self.kept.read(first as usize, to)
    }

    fn write_run(&mut self, first: u32, run: &[[u8; 512]]) -> io::Result<()> {
        for i in 0..run.len() {
            pass(&mut self.passes)?;
            self.kept.write(first as usize + i, &run[i])?;
        }
        Ok(())
    }

    fn sync(&mut self) -> io::Result<()> {
        pass(&mut self.passes)?;
        self.kept.sync();
        Ok(())
    }
}

// Which calls pass of the disk in a file of which so many calls do. A disk that can't be opened passes none.
fn call_known(alloc: Global, kept: &mut Kept, passes: u64, calls: [Call; 4]) -> [bool; 4] {
    match FileDisk::over(alloc, KnownFile { kept, passes }) {
        Ok(disk) => {
            let mut disk = disk;
            four_calls(&mut disk, calls)
        }
        Err(_) => [false; 4],
    }
}

fn see_known(alloc: Global, kept: &mut Kept) -> Option<Seen> {
    let file = KnownFile {
        kept,
        passes: u64::MAX,
    };
    let mut disk = FileDisk::over(alloc, file).ok()?;
    Some(see(&mut disk))
}

// Which calls pass of a disk in a file of zeros, and what a disk in that file has once it was stopped.
fn stopped(
    alloc: Global,
    passes: u64,
    calls: [Call; 4],
    left: &[bool],
) -> Option<([bool; 4], Seen)> {
    let mut kept = Kept::new(alloc, &[[0; 512]; 3]).ok()?;
    let passed = call_known(alloc, &mut kept, passes, calls);
    let sectors = kept.after_stop(left).ok()?;
    let mut after = Kept::new(alloc, &sectors).ok()?;
    Some((passed, see_known(alloc, &mut after)?))
}

const TWO_RUNS: [Call; 4] = [Write(2, 3), Write(0, 1), Sync, Sync];

const ONE_RUN: [Call; 4] = [Write(0, 1), Write(1, 2), Write(2, 3), Sync];

const TWO_SYNCS: [Call; 4] = [Write(0, 1), Sync, Write(0, 3), Sync];

// The calls of the disk, how many calls of the file pass, and which of the writes since its last sync a stop leaves; then which calls of
// the disk pass, and the first byte of each sector.
type Stop = ([Call; 4], u64, &'static [bool], [bool; 4], [u8; 3]);

// To open the disk takes a sync and a read. What is written goes to the file at the next sync, in rising order.
static STOPS: [Stop; 18] = [
    (TWO_RUNS, 1, &[], [false; 4], [0, 0, 0]),
    (TWO_RUNS, 2, &[], [true, true, false, false], [0, 0, 0]),
    (TWO_RUNS, 3, &[], [true, true, false, false], [0, 0, 0]),
    (TWO_RUNS, 3, &[true], [true, true, false, false], [1, 0, 0]),
    (TWO_RUNS, 4, &[], [true, true, false, false], [0, 0, 0]),
    (
        TWO_RUNS,
        4,
        &[true, false],
        [true, true, false, false],
        [1, 0, 0],
    ),
    (
        TWO_RUNS,
        4,
        &[false, true],
        [true, true, false, false],
        [0, 0, 3],
    ),
    (
        TWO_RUNS,
        4,
        &[true, true],
        [true, true, false, false],
        [1, 0, 3],
    ),
    // From here on the first sync has passed.
    (TWO_RUNS, 5, &[], [true, true, true, false], [1, 0, 3]),
    (TWO_RUNS, 6, &[], [true; 4], [1, 0, 3]),
    // A run that is cut off is written in part.
    (
        ONE_RUN,
        4,
        &[false, true],
        [true, true, true, false],
        [0, 2, 0],
    ),
    (
        ONE_RUN,
        5,
        &[true, false, true],
        [true, true, true, false],
        [1, 0, 3],
    ),
    (ONE_RUN, 6, &[], [true; 4], [1, 2, 3]),
    // What was synced once stays, unless the later content is left.
    (TWO_SYNCS, 3, &[true], [true, false, true, false], [1, 0, 0]),
    (TWO_SYNCS, 4, &[], [true, true, true, false], [1, 0, 0]),
    (TWO_SYNCS, 5, &[], [true, true, true, false], [1, 0, 0]),
    (TWO_SYNCS, 5, &[true], [true, true, true, false], [3, 0, 0]),
    (TWO_SYNCS, 6, &[], [true; 4], [3, 0, 0]),
];

// The first stop that leaves something else.
fn other_stop(alloc: Global) -> Option<usize> {
    for i in 0..STOPS.len() {
        let (calls, passes, left, passed, found) = STOPS[i];
        if stopped(alloc, passes, calls, left) != Some((passed, (3, found))) {
            return Some(i);
        }
    }
    None
}

#[test]
fn a_stopped_file_has_what_was_synced(rt: HostRuntime) {
    let wrong = other_stop(rt.alloc());
    assert!(rt; wrong == None, "{wrong:?}");
}

// ---- loaded in part

const THREE: [[u8; 512]; 3] = [[7; 512], [1; 512], [3; 512]];

// What is loaded of a file whose sectors are known, and what is left of it.
fn load_known(alloc: Global, load: &Load) -> Option<Parted> {
    let mut kept = Kept::new(alloc, &THREE).ok()?;
    let file = KnownFile {
        kept: &mut kept,
        passes: u64::MAX,
    };
    let part = PartFile::over(alloc, file).ok()?;
    Some(load_part(alloc, part, load))
}

// The first load that leaves something else to be read.
fn other_load(alloc: Global) -> Option<usize> {
    for i in 0..LOADS.len() {
        if load_known(alloc, &LOADS[i].0) != Some(parted_as(LOADS[i].1, LOADS[i].2)) {
            return Some(i);
        }
    }
    None
}

// A sector that isn't loaded counts as 255.
fn loaded_byte<F: DiskFile + Drop>(part: &PartFile<F>, n: u32) -> u8 {
    match part.get(n) {
        Some(content) => content[0],
        None => 255,
    }
}

// Whether the first and the last sector of a file are loaded of which so many calls pass, and the first byte of each that is.
fn cut_load(alloc: Global, kept: &mut Kept, passes: u64) -> Option<(bool, [u8; 3])> {
    let mut part = PartFile::over(alloc, KnownFile { kept, passes }).ok()?;
    let loaded = part.load_each(&[0, 2]).is_ok();
    let bytes = [
        loaded_byte(&part, 0),
        loaded_byte(&part, 1),
        loaded_byte(&part, 2),
    ];
    Some((loaded, bytes))
}

// The same, and what a disk in that file has then.
fn cut_and_see(alloc: Global, passes: u64) -> Option<((bool, [u8; 3]), Seen)> {
    let mut kept = Kept::new(alloc, &THREE).ok()?;
    let cut = cut_load(alloc, &mut kept, passes)?;
    Some((cut, see_known(alloc, &mut kept)?))
}

// To open the file takes a sync, and each of the two sectors a read.
#[test]
fn what_is_loaded_is_what_the_file_has(rt: HostRuntime) {
    let seen = (
        other_load(rt.alloc()),
        [
            cut_and_see(rt.alloc(), 1),
            cut_and_see(rt.alloc(), 2),
            cut_and_see(rt.alloc(), 3),
        ],
    );
    let whole = (3, [7, 1, 3]);
    let wanted = (
        None,
        [
            Some(((false, [255, 255, 255]), whole)),
            Some(((false, [7, 255, 255]), whole)),
            Some(((true, [7, 255, 3]), whole)),
        ],
    );
    assert!(rt; seen == wanted, "{seen:?}");
}
