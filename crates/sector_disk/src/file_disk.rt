//! A disk kept in a file.

ghost use Rattle.std.specs.Prelude.{◌≡◌, ◌≢◌, ◌⊎◌, ◌<◌, ◌≤◌, ◌+◌, ◌-◌, ◌^◌, [], All, Contains, IsErr, IsTrue, min, false, length, replicate, IfOk, IfErr, IfSome, OnOk};
ghost use Rattle.sector_disk.specs.Disk.{IsFresh, sector};
ghost use Rattle.sector_disk.specs.Record.{recorded_state};
ghost use Rattle.sector_disk.specs.Replay.{seen_is_image, counts_now, only_now};
ghost use Rattle.sector_disk.specs.Whole.{whole_sectors};
ghost use Rattle.sector_disk.specs.Files.{KeepsKnown, HasFirst, HasStable, IsHeldStable};
ghost use Rattle.sector_disk.specs.declared.file_disk.FileFault.TheVariants.{Exists, OutOfMemory};

use crate::reading::read_sectors;
use crate::waiting::write_out;
use crate::{Disk, DiskFault, DiskFile, MemDisk};
use std::alloc::{AllocError, Global};
use std::fs::{self, OpenOptions};
use std::io::{self, ErrorKind};
use std::os::unix::fs::OpenOptionsExt;
use std::path::AsPath;
use std::rt::Files;

// What of a longer file lies behind so many sectors is no part of the disk.
const MAX_SECTORS: u32 = 65_537;

// A large disk has at most so many sectors: one more than any layout has.
const MAX_LARGE_SECTORS: u32 = 16_777_217;

// So many neighbours are read or written in one call: a MiB.
const PIECE: usize = 2048;

// So many written sectors may wait before a write has to pass them to the file.
const MAX_WAITING: usize = 1024;

/// Why a disk in a file can't be had.
#[derive(Clone, Copy, Debug, PartialEq, Eq)]
pub enum FileFault {
    /// There is a file of that name already: only where one is to be made.
    Exists,
    /// The file can't be opened or made, locked, measured, read or synced.
    Failed,
    /// Memory ran out.
    OutOfMemory,
}

impl From<AllocError> for FileFault {
    ghost from_gives = { λ _ fault. fault ≡ OutOfMemory };

    fn from(_error: AllocError) -> FileFault {
        FileFault::OutOfMemory
    }
}

/// A disk whose sectors are those of a file, for a file system that is to last.
///
/// All sectors are in memory, where reads find them, and those that are zeros take four bytes each. What is written waits for
/// the next sync, and goes to the file in rising order then, neighbours in one call; a write to which too much waits passes
/// that on first. What a sector has already isn't written again: zeros leave a hole of the file. Bytes past the last whole sector, or past the most sectors that the disk was opened for, aren't touched. A
/// write or a sync of the file that fails is a failure of the disk, at that sync or that write. What the file lacks then waits
/// for the next one.
///
/// As long as this lives, it holds the file's lock, so that no other disk is in the file. Nor may anybody who doesn't ask for
/// the lock write to the file, cut it or remove it: no clause holds otherwise. Where this is dropped, what still waits is lost, as at a stop.
#[derive(Drop)]
pub struct FileDisk<F: DiskFile> {
    // What reads give and what a stop may leave.
    memory: Box<MemDisk>,
    file: F,
    // The sectors that the file may lack as reads give them. Its room is there from the start.
    waiting: Vec<u32>,
    // Whether it may lack all of them.
    all_wait: bool,
    // What goes between the file and memory. Its room is there from the start.
    buffer: Vec<[u8; 512]>,
    // The buffer takes a sector at least, and what waits is on the disk.
    ghost room: { 0 < length buffer.items },
    ghost in_disk: { All (λ n. n < length memory.value.history.start) waiting.items },
    // A stop leaves in the file nothing but what the disk says.
    ghost follows: { KeepsKnown (recorded_state memory.value.history memory.value.failures) waiting.items all_wait (F.held file) },
}

impl<F: DiskFile + Drop> FileDisk<F> {
    /// The disk in a file that is there. What it has is synced first, and so is stable. Where another disk has the file's
    /// lock, this fails, and the file is neither read nor written.
    ///
    /// The number of sectors is that of whole ones in the file, and at most 65,537.
    pub fn open<R: Files<File = F>, P: AsPath>(
        rt: &R,
        alloc: Global,
        path: P,
    ) -> Result<Self, FileFault>
        ensures fresh { IfOk result (λ disk. IsFresh (⟦<FileDisk<F> as Disk>⟧.state disk) (⟦<FileDisk<F> as Disk>⟧.state disk).seen) }
        ensures small { IfOk result (λ disk. (⟦<FileDisk<F> as Disk>⟧.state disk).size ≤ 65537) }
        ensures fault { IfErr result (λ fault. fault ≢ Exists) }
    {
        let file = open_file(rt, path)?;
        FileDisk::over(alloc, file)
    }

    /// The disk in a file that is there, as [`FileDisk::open`] gives it, of whole sectors up to 16,777,217: one more than any layout
    /// has.
    pub fn open_large<R: Files<File = F>, P: AsPath>(
        rt: &R,
        alloc: Global,
        path: P,
    ) -> Result<Self, FileFault>
        ensures fresh { IfOk result (λ disk. IsFresh (⟦<FileDisk<F> as Disk>⟧.state disk) (⟦<FileDisk<F> as Disk>⟧.state disk).seen) }
        ensures small { IfOk result (λ disk. (⟦<FileDisk<F> as Disk>⟧.state disk).size ≤ 16777217) }
        ensures fault { IfErr result (λ fault. fault ≢ Exists) }
    {
        let file = open_file(rt, path)?;
        FileDisk::up_to(alloc, file, MAX_LARGE_SECTORS)
    }

    /// A disk of zeros in a new file of so many sectors, locked and synced. Where that fails, the file is removed again.
    pub fn create<R: Files<File = F>, P: AsPath>(
        rt: &R,
        alloc: Global,
        path: P,
        sectors: u32,
    ) -> Result<Self, FileFault>
        requires { sectors ≤ 16777217 }
        ensures { IfOk result (λ disk. IsFresh (⟦<FileDisk<F> as Disk>⟧.state disk) (replicate sectors (replicate 512 0))) }
    {
        let memory = boxed(alloc, MemDisk::new(alloc, sectors)?)?;
        let waiting = Vec::with_capacity(alloc, MAX_WAITING)?;
        let buffer = new_buffer(alloc, PIECE)?;
        let file = new_file(rt, path, sectors)?;
        Ok(FileDisk {
            memory,
            file,
            waiting,
            all_wait: false,
            buffer,
        })
    }

    /// The disk in a file that is open, for a file of one's own kind: as [`FileDisk::open`] makes it.
    pub fn over(alloc: Global, file: F) -> Result<Self, FileFault>
        ensures fresh { IfOk result (λ disk. IsFresh (⟦<FileDisk<F> as Disk>⟧.state disk) (⟦<FileDisk<F> as Disk>⟧.state disk).seen) }
        ensures small { IfOk result (λ disk. (⟦<FileDisk<F> as Disk>⟧.state disk).size ≤ 65537) }
        ensures fault { IfErr result (λ fault. fault ≢ Exists) }
    {
        FileDisk::up_to(alloc, file, MAX_SECTORS)
    }

    /// The disk in a file that is open, as [`FileDisk::open_large`] makes it.
    pub fn over_large(alloc: Global, file: F) -> Result<Self, FileFault>
        ensures fresh { IfOk result (λ disk. IsFresh (⟦<FileDisk<F> as Disk>⟧.state disk) (⟦<FileDisk<F> as Disk>⟧.state disk).seen) }
        ensures small { IfOk result (λ disk. (⟦<FileDisk<F> as Disk>⟧.state disk).size ≤ 16777217) }
        ensures fault { IfErr result (λ fault. fault ≢ Exists) }
    {
        FileDisk::up_to(alloc, file, MAX_LARGE_SECTORS)
    }

    // The disk in a file that is open, of at most so many sectors.
    fn up_to(alloc: Global, file: F, most: u32) -> Result<Self, FileFault>
        ensures fresh { IfOk result (λ disk. IsFresh (⟦<FileDisk<F> as Disk>⟧.state disk) (⟦<FileDisk<F> as Disk>⟧.state disk).seen) }
        ensures small { IfOk result (λ disk. (⟦<FileDisk<F> as Disk>⟧.state disk).size ≤ most) }
        ensures fault { IfErr result (λ fault. fault ≢ Exists) }
    {
        let mut file = file;
        // Before this another disk may be in the file.
        if file.try_lock().is_err() {
            return Err(FileFault::Failed);
        }
        let mut buffer = new_buffer(alloc, PIECE)?;
        let memory = boxed(alloc, load(alloc, &mut file, &mut buffer, most)?)?;
        let waiting = Vec::with_capacity(alloc, MAX_WAITING)?;
        Ok(FileDisk {
            memory,
            file,
            waiting,
            all_wait: false,
            buffer,
        })
    }

    // Writes to the file what it may lack.
    fn flush(&mut self) -> io::Result<()>
        ensures memory { self.new.memory.value ≡ self.old.memory.value }
        ensures none { OnOk result (self.new.waiting.items ≡ []) }
        ensures all { OnOk result (self.new.all_wait ≡ false) }
    {
        self.waiting.sort_unstable();
        write_out(
            &mut self.file,
            &self.memory,
            &self.waiting,
            self.all_wait,
            &mut self.buffer,
        )?;
        self.waiting.clear();
        self.all_wait = false;
        Ok(())
    }

    // Lets a sector wait. Where too many wait already, these are written first.
    fn wait_for(&mut self, n: u32) -> io::Result<()>
        requires { n < length self.old.memory.value.history.start }
        ensures memory { self.new.memory.value ≡ self.old.memory.value }
        ensures waits { OnOk result (Contains self.new.waiting.items n) }
    {
        self.make_room()?;
        self.waiting.push(n)?;
        Ok(())
    }

    // Lets a sector wait that gets this content. Where it has that already, so has the file, or it waits.
    fn wait_to_have(&mut self, n: u32, content: &[u8; 512]) -> io::Result<()>
        requires { n < length self.old.memory.value.history.start }
        ensures memory { self.new.memory.value ≡ self.old.memory.value }
        ensures waits { OnOk result (Contains self.new.waiting.items n
            ⊎ (content.now ≡ sector (recorded_state self.new.memory.value.history self.new.memory.value.failures).seen n)) }
    {
        if has(&self.memory, n, content) {
            return Ok(());
        }
        self.wait_for(n)
    }

    fn make_room(&mut self) -> io::Result<()>
        ensures { self.new.memory.value ≡ self.old.memory.value }
    {
        if self.waiting.len() < MAX_WAITING {
            return Ok(());
        }
        self.flush()
    }

    // Counts a fault.
    fn fail(&mut self) -> Result<(), DiskFault>
        ensures history { self.new.memory.value.history ≡ self.old.memory.value.history }
        ensures counted { self.new.memory.value.failures ≡ min (self.old.memory.value.failures + 1) (2 ^ 64 - 1) }
        ensures result { IsErr result }
    {
        self.memory.fail()
    }
}

// Whether reads give this content of a sector.
fn has(memory: &MemDisk, n: u32, content: &[u8; 512]) -> bool
    requires { n < (⟦<MemDisk as Disk>⟧.state memory.now).size }
    ensures { IsTrue result → content.now ≡ sector (⟦<MemDisk as Disk>⟧.state memory.now).seen n }
{
    match memory.find(n) {
        Some(now) => *content == *now,
        None => false,
    }
}

// A new file of so many zeros, locked and synced. It is its owner's alone from the start: whoever reads the image reads every file in it.
fn new_file<R: Files<File: DiskFile>, P: AsPath>(
    rt: &R,
    path: P,
    sectors: u32,
) -> Result<R::File, FileFault>
    ensures { IfOk result (λ file. IfSome (R.File.held file) (HasStable (replicate sectors (replicate 512 0)))) }
{
    let mut how = OpenOptions::new();
    how.read(true).write(true).create_new(true).mode(0o600);
    match how.open(rt, path.path_text()) {
        Ok(mut file) => {
            if prepare(&mut file, sectors).is_ok() {
                return Ok(file);
            }
            let _ = fs::remove_file(rt, path.path_text());
            Err(FileFault::Failed)
        }
        Err(error) if error.kind() == ErrorKind::AlreadyExists => Err(FileFault::Exists),
        Err(_) => Err(FileFault::Failed),
    }
}

// The lock may be taken: by a program that has opened the new file meanwhile, and finds it empty.
fn prepare<F: DiskFile>(file: &mut F, sectors: u32) -> io::Result<()>
    ensures { OnOk result (IfSome (F.held file.new) (HasStable (replicate sectors (replicate 512 0)))) }
{
    file.try_lock()?;
    file.fill(sectors)
}

// The sectors of a file, at most so many. It is synced first.
fn load<F: DiskFile>(
    alloc: Global,
    file: &mut F,
    buffer: &mut [[u8; 512]],
    most: u32,
) -> Result<MemDisk, FileFault>
    requires { 0 < length buffer.old }
    ensures fresh { IfOk result (λ disk. IsFresh (⟦<MemDisk as Disk>⟧.state disk) (⟦<MemDisk as Disk>⟧.state disk).seen) }
    ensures small { IfOk result (λ disk. (⟦<MemDisk as Disk>⟧.state disk).size ≤ most) }
    ensures follows { IfOk result (λ disk. KeepsKnown (⟦<MemDisk as Disk>⟧.state disk) [] false (F.held file.new)) }
    ensures fault { IfErr result (λ fault. fault ≢ Exists) }
{
    let Ok(count) = synced_sectors(file, most) else {
        return Err(FileFault::Failed);
    };
    let sectors = read_sectors(alloc, file, count, buffer)?;
    Ok(MemDisk::with_sectors(alloc, sectors))
}

/// A file that is there, to be read and written.
pub(crate) fn open_file<F, R: Files<File = F>, P: AsPath>(rt: &R, path: P) -> Result<F, FileFault>
    ensures { IfErr result (λ fault. fault ≢ Exists) }
{
    let mut how = OpenOptions::new();
    how.read(true).write(true);
    match how.open(rt, path) {
        Ok(file) => Ok(file),
        Err(_) => Err(FileFault::Failed),
    }
}

/// Room for a piece of a file, of so many sectors.
pub(crate) fn new_buffer(alloc: Global, len: usize) -> Result<Vec<[u8; 512]>, AllocError>
    requires { 0 < len }
    ensures { IfOk result (λ buffer. 0 < length buffer.items) }
{
    let mut buffer = Vec::new(alloc);
    buffer.resize(len, [0; 512])?;
    Ok(buffer)
}

// The disk on the heap: a `FileDisk` is moved often.
fn boxed(alloc: Global, disk: MemDisk) -> Result<Box<MemDisk>, AllocError>
    ensures { IfOk result (λ place. place.value ≡ disk) }
{
    Ok(Box::new(alloc, disk)?)
}

/// Locks a file, and tells how many sectors of it a large disk has, once it is synced.
pub(crate) fn lock_and_count<F: DiskFile>(file: &mut F) -> io::Result<u32>
    ensures count { IfOk result (λ count. count ≤ 16777217) }
    ensures first { IfOk result (λ count. IfSome (F.held file.new) (HasFirst 16777217 count)) }
{
    file.try_lock()?;
    synced_sectors(file, MAX_LARGE_SECTORS)
}

// How many sectors of the file a disk has, at most so many, once it is synced.
fn synced_sectors<F: DiskFile>(file: &mut F, most: u32) -> io::Result<u32>
    ensures count { IfOk result (λ count. count ≤ most) }
    ensures first { IfOk result (λ count. IfSome (F.held file.new) (HasFirst most count)) }
    ensures stable { OnOk result (IfSome (F.held file.new) IsHeldStable) }
{
    file.sync()?;
    let whole = file.count()?;
    Ok(whole.min(u64::from(most)) as u32)
}

impl<F: DiskFile + Drop> Disk for FileDisk<F> {
    ghost state = { λ disk. recorded_state disk.memory.value.history disk.memory.value.failures };

    ghost size_fits = { λ disk. disk.memory.value.small };

    ghost failures_fit = { λ disk. disk.memory.value.counted };

    ghost whole_sectors = { λ disk. whole_sectors disk.memory.value.history disk.memory.value.whole };

    ghost seen_is_image = { λ disk. seen_is_image disk.memory.value.history disk.memory.value.failures };

    ghost counts_now = { λ disk. counts_now disk.memory.value.history disk.memory.value.failures };

    ghost only_now = { λ disk. only_now disk.memory.value.history disk.memory.value.failures };

    fn size(&self) -> u32 {
        self.memory.size()
    }

    fn failures(&self) -> u64 {
        self.memory.failures()
    }

    fn read(&mut self, n: u32, to: &mut [u8; 512]) -> Result<(), DiskFault> {
        self.memory.read(n, to)
    }

    fn find(&self, n: u32) -> Option<&[u8; 512]> {
        self.memory.find(n)
    }

    fn write(&mut self, n: u32, from: &[u8; 512]) -> Result<(), DiskFault> {
        if self.wait_to_have(n, from).is_err() {
            return self.fail();
        }
        self.memory.write(n, from)
    }

    fn sync(&mut self) -> Result<(), DiskFault> {
        if self.flush().is_err() {
            return self.fail();
        }
        if self.file.sync().is_err() {
            // A later sync may pass although what this one was to make stable is lost.
            self.all_wait = true;
            return self.fail();
        }
        self.memory.sync()
    }

    fn forget(&mut self) {
        self.memory.forget();
    }
}
