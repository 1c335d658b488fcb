//! A file of which some sectors are read into memory.

ghost use Rattle.std.specs.Prelude.{◌≡◌, ◌≢◌, ◌<◌, ◌≤◌, ◌+◌, ◌^◌, ◌∷◌, [], ℕ, get_or, length, replicate, slice_set, IfOk, IfSome, IsTrue, OnOk, OnErr};
ghost use Rattle.sector_disk.specs.Files.{HasRun};
ghost use Rattle.sector_disk.specs.Parts.{file_image, IsPart, AreZerosElse, HasEnds};
ghost use Rattle.sector_disk.specs.Disk.{sector, EndsInZeros};

use crate::file_disk::{lock_and_count, new_buffer, open_file};
use crate::numbers::Numbers;
use crate::sectors::Sectors;
use crate::{DiskFile, FileFault};
use std::alloc::{AllocError, Global};
use std::path::AsPath;
use std::rt::Files;

const ZEROS: [u8; 512] = [0; 512];

// So many neighbours are read in one call: what goes through a buffer of this length stays in the processor's cache.
const PIECE: usize = 256;

/// A sector of which the bytes from number `first` on are asked for.
#[derive(Clone, Copy)]
pub struct Tail {
    pub sector: u32,
    pub first: usize,
}

/// An open file whose sectors are read into memory one run after another, so that of a large one only those are read that are asked
/// for. What [`get`](PartFile::get) gives is what the file has.
///
/// As long as the file is open, its lock is held.
#[derive(Drop)]
pub struct PartFile<F: DiskFile> {
    file: F,
    // The sectors in memory, and zeros for the others.
    sectors: Sectors,
    // For each sector 1 where it is in memory, and 0 where it isn't: most are not.
    loaded: Numbers,
    // For each sector a byte from which on the file has zeros there, where only that is kept of it; and 0 for the others.
    ends: Numbers,
    // What goes from the file to memory. Its room is there from the start.
    buffer: Vec<[u8; 512]>,
    ghost few: { length sectors.shown < 2 ^ 32 },
    ghost len: { length loaded ≡ length sectors.shown },
    ghost ends_len: { length ends ≡ length sectors.shown },
    ghost room: { 0 < length buffer.items },
    // Where it's known what the file holds, it has so many sectors, and those in memory are as it has them.
    ghost follows: { IsPart (F.held file) sectors.shown loaded },
    ghost unread: { AreZerosElse sectors.shown loaded },
    ghost ended: { HasEnds (F.held file) ends },
}

impl<F: DiskFile + Drop> PartFile<F> {
    /// A file that is there, of which no sector is read yet. It is locked and synced first, and has as many sectors as a disk that
    /// [`FileDisk::open_large`](crate::FileDisk::open_large) opens.
    pub fn open<R: Files<File = F>, P: AsPath>(
        rt: &R,
        alloc: Global,
        path: P,
    ) -> Result<Self, FileFault>
        ensures none { IfOk result (λ part. (n : ℕ) → get_or part.loaded n 0 ≡ 0) }
        ensures small { IfOk result (λ part. length part.sectors.shown ≤ 16777217) }
    {
        PartFile::over(alloc, open_file(rt, path)?)
    }

    /// A file that is open, for a file of one's own kind: as [`PartFile::open`] has it.
    pub fn over(alloc: Global, file: F) -> Result<Self, FileFault>
        ensures none { IfOk result (λ part. (n : ℕ) → get_or part.loaded n 0 ≡ 0) }
        ensures small { IfOk result (λ part. length part.sectors.shown ≤ 16777217) }
    {
        let mut file = file;
        let Ok(count) = lock_and_count(&mut file) else {
            return Err(FileFault::Failed);
        };
        let (sectors, loaded, ends, buffer) = unread(alloc, count)?;
        sectors.tell_whole();
        Ok(PartFile {
            file,
            sectors,
            loaded,
            ends,
            buffer,
        })
    }

    /// How many sectors the file has.
    pub fn count(&self) -> u32
        ensures { result ≡ length self.now.sectors.shown }
    {
        self.loaded.len() as u32
    }

    /// The content that a sector has in the file, if it was read.
    pub fn get(&self, n: u32) -> Option<&[u8; 512]>
        ensures { IfSome result (λ content. content.now ≡ sector (file_image (F.held self.now.file) self.now.sectors.shown) n) }
    {
        if n >= self.count() || self.loaded.get(n as usize) == 0 {
            return None;
        }
        Some(self.sectors.get(n))
    }

    /// Whether a sector is zeros from byte `first` on in the file, where that was read and nothing else of it is kept.
    pub fn ends_in_zeros(&self, n: u32, first: usize) -> bool
        ensures { IsTrue result → EndsInZeros first (sector (file_image (F.held self.now.file) self.now.sectors.shown) n) }
    {
        if n >= self.count() || self.loaded.get(n as usize) != 0 {
            return false;
        }
        let end = self.ends.get(n as usize) as usize;
        if end == 0 {
            return false;
        }
        end <= first
    }

    // Reads neighbours, as many as the buffer has room for.
    fn load_piece(&mut self, first: u32, len: usize) -> Result<(), FileFault>
        requires fits { first + len ≤ length self.old.sectors.shown }
        requires room { len ≤ length self.old.buffer.items }
        ensures count { length self.new.sectors.shown ≡ length self.old.sectors.shown }
        ensures buffer { length self.new.buffer.items ≡ length self.old.buffer.items }
        ensures same { F.held self.new.file ≡ F.held self.old.file }
    {
        load_run(
            &mut self.file,
            &mut self.sectors,
            &mut self.loaded,
            &mut self.buffer,
            first,
            len,
        )
    }

    /// Reads so many sectors from number `first` on; what of them lies behind the end of the file is left out. Nothing is written.
    pub fn load(&mut self, first: u32, count: u32) -> Result<(), FileFault>
        ensures count { length self.new.sectors.shown ≡ length self.old.sectors.shown }
        ensures same { F.held self.new.file ≡ F.held self.old.file }
    {
        let end = first.saturating_add(count).min(self.count());
        let mut at = first;
        while at < end {
            let len = self.buffer.len().min((end - at) as usize);
            self.load_piece(at, len)?;
            at += len as u32;
        }
        Ok(())
    }

    /// Reads these sectors, neighbours in one call where they stand in rising order. Nothing is written.
    pub fn load_each(&mut self, numbers: &[u32]) -> Result<(), FileFault>
        ensures count { length self.new.sectors.shown ≡ length self.old.sectors.shown }
        ensures same { F.held self.new.file ≡ F.held self.old.file }
    {
        let mut first = 0;
        let mut end = 0;
        for n in numbers {
            if *n < first || end < *n {
                self.load(first, end.saturating_sub(first))?;
                first = *n;
                end = first;
            }
            end = end.max(n.saturating_add(1));
        }
        self.load(first, end.saturating_sub(first))
    }

    // Reads neighbours from number `first` on, as many as the buffer has room for, and keeps of each what is asked for.
    fn load_ends(&mut self, first: u32, tails: &[Tail]) -> Result<(), FileFault>
        requires fits { first + length tails.now ≤ length self.old.sectors.shown }
        requires room { length tails.now ≤ length self.old.buffer.items }
        ensures count { length self.new.sectors.shown ≡ length self.old.sectors.shown }
        ensures same { F.held self.new.file ≡ F.held self.old.file }
    {
        read_tails(
            &mut self.file,
            &mut self.sectors,
            &mut self.loaded,
            &mut self.ends,
            &mut self.buffer,
            first,
            tails,
        )
    }

    // Reads the sectors that stand in a row at the beginning, unless they reach past the file's end.
    fn load_row(&mut self, tails: &[Tail], len: usize) -> Result<(), FileFault>
        requires some { 0 < len }
        requires fits { len ≤ length tails.now }
        requires room { len ≤ length self.old.buffer.items }
        ensures count { length self.new.sectors.shown ≡ length self.old.sectors.shown }
        ensures same { F.held self.new.file ≡ F.held self.old.file }
    {
        let first = tails[0].sector;
        let count = self.count();
        if count < first || ((count - first) as usize) < len {
            return Ok(());
        }
        self.load_ends(first, &tails[..len])
    }

    /// Reads these sectors, neighbours in one call where they stand in rising order. Where not all of one is asked for, and what is are
    /// zeros, only this is kept of it. Nothing is written.
    pub fn load_tails(&mut self, tails: &[Tail]) -> Result<(), FileFault>
        ensures count { length self.new.sectors.shown ≡ length self.old.sectors.shown }
        ensures same { F.held self.new.file ≡ F.held self.old.file }
    {
        let mut at = 0;
        while at < tails.len() {
            let len = row_length(&tails[at..]).min(self.buffer.len());
            self.load_row(&tails[at..], len)?;
            at += len;
        }
        Ok(())
    }

    /// The file.
    pub fn into_file(self) -> F
        ensures { result ≡ self.file }
    {
        let PartFile { file, .. } = self;
        file
    }
}

// What is kept of a file of so many sectors before one is read, and room for a piece of it.
fn unread(
    alloc: Global,
    count: u32,
) -> Result<(Sectors, Numbers, Numbers, Vec<[u8; 512]>), AllocError>
    ensures sectors { IfOk result (λ parts. parts.0.shown ≡ replicate count (replicate 512 0)) }
    ensures loaded { IfOk result (λ parts. parts.1 ≡ replicate count 0) }
    ensures ends { IfOk result (λ parts. parts.2 ≡ replicate count 0) }
    ensures buffer { IfOk result (λ parts. 0 < length parts.3.items) }
{
    let sectors = Sectors::zeros(alloc, count)?;
    let loaded = Numbers::zeros(alloc, count)?;
    let ends = Numbers::zeros(alloc, count)?;
    let buffer = new_buffer(alloc, PIECE)?;
    Ok((sectors, loaded, ends, buffer))
}

// Gives a sector in memory this content, and says that it is there. At `Err` nothing has changed.
fn put_loaded(
    sectors: &mut Sectors,
    loaded: &mut Numbers,
    n: u32,
    content: &[u8; 512],
) -> Result<(), AllocError>
    requires below { n < length sectors.old.shown }
    requires table { length loaded.old ≡ length sectors.old.shown }
    ensures content { OnOk result (sectors.new.shown ≡ slice_set sectors.old.shown n content.now) }
    ensures loaded { OnOk result (loaded.new ≡ slice_set loaded.old n 1) }
    ensures same { OnErr result ((sectors.new.shown ≡ sectors.old.shown) × (loaded.new ≡ loaded.old)) }
{
    let was = loaded.get(n as usize);
    loaded.add(n as usize, 1)?;
    if let Err(refused) = sectors.set(n, content) {
        loaded.replace(n as usize, was);
        return Err(refused);
    }
    Ok(())
}

// Keeps a sector in memory that the file has.
fn keep_sector<F: DiskFile>(
    _file: &F,
    sectors: &mut Sectors,
    loaded: &mut Numbers,
    n: u32,
    content: &[u8; 512],
) -> Result<(), FileFault>
    requires below { n < length sectors.old.shown }
    requires table { length loaded.old ≡ length sectors.old.shown }
    requires has { IfSome (F.held _file.now) (HasRun n (content.now ∷ [])) }
    requires follows { IsPart (F.held _file.now) sectors.old.shown loaded.old }
    requires unread { AreZerosElse sectors.old.shown loaded.old }
    ensures count { length sectors.new.shown ≡ length sectors.old.shown }
    ensures table { length loaded.new ≡ length sectors.new.shown }
    ensures follows { IsPart (F.held _file.now) sectors.new.shown loaded.new }
    ensures unread { AreZerosElse sectors.new.shown loaded.new }
{
    put_loaded(sectors, loaded, n, content)?;
    sectors.tell_whole();
    Ok(())
}

// Reads so many neighbours through the buffer.
fn load_run<F: DiskFile>(
    file: &mut F,
    sectors: &mut Sectors,
    loaded: &mut Numbers,
    buffer: &mut [[u8; 512]],
    first: u32,
    len: usize,
) -> Result<(), FileFault>
    requires small { length sectors.old.shown < 2 ^ 32 }
    requires fits { first + len ≤ length sectors.old.shown }
    requires table { length loaded.old ≡ length sectors.old.shown }
    requires room { len ≤ length buffer.old }
    requires follows { IsPart (F.held file.old) sectors.old.shown loaded.old }
    requires unread { AreZerosElse sectors.old.shown loaded.old }
    ensures count { length sectors.new.shown ≡ length sectors.old.shown }
    ensures table { length loaded.new ≡ length sectors.new.shown }
    ensures same { F.held file.new ≡ F.held file.old }
    ensures follows { IsPart (F.held file.new) sectors.new.shown loaded.new }
    ensures unread { AreZerosElse sectors.new.shown loaded.new }
{
    let piece = &mut buffer[..len];
    if file.read_run(first, piece).is_err() {
        return Err(FileFault::Failed);
    }
    for i in 0..len {
        keep_sector(file, sectors, loaded, first + i as u32, &piece[i])?;
    }
    Ok(())
}

// The bytes of a sector from number `first` on are zeros, and there are some before them.
fn has_end(content: &[u8; 512], first: usize) -> bool
    ensures some { IsTrue result → first ≢ 0 }
    ensures within { IsTrue result → first < 512 }
    ensures zeros { IsTrue result → EndsInZeros first content.now }
{
    if first == 0 || first >= 512 {
        return false;
    }
    content[first..] == ZEROS[first..]
}

// Keeps of a sector that the file has only that it is zeros from a byte on, if it is; else all of it.
fn keep_tail<F: DiskFile>(
    file: &F,
    sectors: &mut Sectors,
    loaded: &mut Numbers,
    ends: &mut Numbers,
    tail: Tail,
    content: &[u8; 512],
) -> Result<(), FileFault>
    requires below { tail.sector < length sectors.old.shown }
    requires table { length loaded.old ≡ length sectors.old.shown }
    requires ends_len { length ends.old ≡ length sectors.old.shown }
    requires has { IfSome (F.held file.now) (HasRun tail.sector (content.now ∷ [])) }
    requires follows { IsPart (F.held file.now) sectors.old.shown loaded.old }
    requires unread { AreZerosElse sectors.old.shown loaded.old }
    requires ended { HasEnds (F.held file.now) ends.old }
    ensures count { length sectors.new.shown ≡ length sectors.old.shown }
    ensures table { length loaded.new ≡ length sectors.new.shown }
    ensures ends_len { length ends.new ≡ length sectors.new.shown }
    ensures follows { IsPart (F.held file.now) sectors.new.shown loaded.new }
    ensures unread { AreZerosElse sectors.new.shown loaded.new }
    ensures ended { HasEnds (F.held file.now) ends.new }
{
    if has_end(content, tail.first) {
        ends.add(tail.sector as usize, tail.first as u32)?;
        return Ok(());
    }
    keep_sector(file, sectors, loaded, tail.sector, content)
}

// Reads as many neighbours as there are tails, and keeps of each what is asked for.
fn read_tails<F: DiskFile>(
    file: &mut F,
    sectors: &mut Sectors,
    loaded: &mut Numbers,
    ends: &mut Numbers,
    buffer: &mut [[u8; 512]],
    first: u32,
    tails: &[Tail],
) -> Result<(), FileFault>
    requires small { length sectors.old.shown < 2 ^ 32 }
    requires fits { first + length tails.now ≤ length sectors.old.shown }
    requires table { length loaded.old ≡ length sectors.old.shown }
    requires ends_len { length ends.old ≡ length sectors.old.shown }
    requires room { length tails.now ≤ length buffer.old }
    requires follows { IsPart (F.held file.old) sectors.old.shown loaded.old }
    requires unread { AreZerosElse sectors.old.shown loaded.old }
    requires ended { HasEnds (F.held file.old) ends.old }
    ensures count { length sectors.new.shown ≡ length sectors.old.shown }
    ensures table { length loaded.new ≡ length sectors.new.shown }
    ensures ends_len { length ends.new ≡ length sectors.new.shown }
    ensures same { F.held file.new ≡ F.held file.old }
    ensures follows { IsPart (F.held file.new) sectors.new.shown loaded.new }
    ensures unread { AreZerosElse sectors.new.shown loaded.new }
    ensures ended { HasEnds (F.held file.new) ends.new }
{
    let piece = &mut buffer[..tails.len()];
    if file.read_run(first, piece).is_err() {
        return Err(FileFault::Failed);
    }
    for i in 0..tails.len() {
        let tail = Tail {
            sector: first + i as u32,
            first: tails[i].first,
        };
        keep_tail(file, sectors, loaded, ends, tail, &piece[i])?;
    }
    Ok(())
}

// How many of them stand in a row at the beginning.
fn row_length(tails: &[Tail]) -> usize
    requires { 0 < length tails.now }
    ensures some { 0 < result }
    ensures fits { result ≤ length tails.now }
{
    for len in 1..tails.len() {
        if tails[len].sector.wrapping_sub(tails[len - 1].sector) != 1 {
            return len;
        }
    }
    tails.len()
}
