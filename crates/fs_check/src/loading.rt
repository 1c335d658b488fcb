//! The sectors of a file that a check reads, loaded in runs as long as possible.
//!
//! Nothing trusts that these are all: a sector that is missed is one that the check can't read.

ghost use Rattle.std.specs.Prelude.{◌≡◌, ◌+◌, ◌≤◌};
ghost use Rattle.fs_layout.specs.declared.inode.TheConstants.{POINTER_LEVELS};
ghost use Rattle.fs_layout.specs.declared.header.TheConstants.{MAX_HEADER};

use crate::owning::number_at;
use crate::recovering::{content_of, geometry_said};
use fs_layout::{
    COMMIT_SECTOR, Commit, Geometry, INODE_SIZE, Inode, Kind, MAX_BLOCKS, MAX_HEADER,
    POINTER_LEVELS, SECTOR_POINTERS, area_start, own_count,
};
use sector_disk::{DiskFile, FileFault, PartFile, Tail};
use std::alloc::{AllocError, Global};

const ZEROS: [u8; 512] = [0; 512];

// So many inodes stand in a sector of their table.
const SECTOR_INODES: usize = 4;

// How many header sectors a log area has, and which area the commit is in, with its targets.
#[derive(Drop)]
struct Log {
    header: u32,
    area: u32,
    commit: Commit,
    ghost few: { header ≤ MAX_HEADER },
}

/// Loads what a check reads of a file, as far as its superblock, its commit and its inodes tell where that is. Nothing is written, also
/// where this fails.
pub fn load<F: DiskFile + Drop>(alloc: Global, part: &mut PartFile<F>) -> Result<(), FileFault>
    ensures same { F.held part.new.file ≡ F.held part.old.file }
{
    part.load(0, COMMIT_SECTOR + 1)?;
    let Some(geometry) = read_geometry(part) else {
        return Ok(());
    };
    let count = geometry.first_data.saturating_sub(geometry.inode_bitmap);
    part.load(geometry.inode_bitmap, count)?;
    let log = load_log(part, geometry.header.min(MAX_HEADER))?;
    load_used(alloc, part, &log, geometry)
}

fn read_geometry<F: DiskFile + Drop>(part: &PartFile<F>) -> Option<Geometry> {
    geometry_said(part.get(0)?, part.count())
}

// The log as far as the commit uses it.
fn load_log<F: DiskFile + Drop>(part: &mut PartFile<F>, header: u32) -> Result<Log, FileFault>
    requires { header ≤ MAX_HEADER }
    ensures { F.held part.new.file ≡ F.held part.old.file }
{
    let content = *part.get(COMMIT_SECTOR).unwrap_or(&ZEROS);
    let area = Commit::area_in(&content);
    let commit = Commit::counted(&content, header).unwrap_or(Commit::idle());
    let start = area_start(header, area);
    let count = match commit.targets().len() as u32 {
        0 => 0,
        count => header.saturating_add(count),
    };
    part.load(start, count)?;
    let commit = read_targets(part, start, commit);
    Ok(Log {
        header,
        area,
        commit,
    })
}

// Those targets too that stand in the header, which begins at this sector.
fn read_targets<F: DiskFile + Drop>(part: &PartFile<F>, start: u32, commit: Commit) -> Commit {
    let mut commit = commit;
    for at in 0..commit.header_sectors().min(MAX_HEADER as usize) {
        let content = part.get(start.saturating_add(at as u32));
        commit.read_header(at, content.unwrap_or(&ZEROS));
    }
    commit
}

// What a sector has as recovery would leave it; zeros where it wasn't read, and of sector 0.
fn recovered<'a, F: DiskFile + Drop>(part: &'a PartFile<F>, log: &Log, n: u32) -> &'a [u8; 512] {
    if n == 0 {
        return &ZEROS;
    }
    let from = content_of(log.header, log.area, &log.commit, n);
    part.get(from).unwrap_or(&ZEROS)
}

// What is used of inodes that are in use and good.
#[derive(Drop)]
struct Used {
    // What stands past the sizes of files that own nothing but blocks whose numbers they have.
    tails: Vec<Tail>,
    // The other inodes.
    inodes: Vec<Inode>,
}

// The inode is a file's that owns nothing but blocks whose numbers it has.
fn is_short_file(inode: &Inode) -> bool {
    inode.kind == Kind::File && inode.acl == 0 && inode.indirect == [0; POINTER_LEVELS]
}

// What inodes that are in use name and hold.
fn load_used<F: DiskFile + Drop>(
    alloc: Global,
    part: &mut PartFile<F>,
    log: &Log,
    geometry: Geometry,
) -> Result<(), FileFault>
    ensures { F.held part.new.file ≡ F.held part.old.file }
{
    let mut used = Used {
        tails: Vec::new(alloc),
        inodes: Vec::new(alloc),
    };
    want_used(&mut used, part, log, geometry)?;
    load_wanted(alloc, part, log, &mut used)
}

// What these inodes name and hold.
fn load_wanted<F: DiskFile + Drop>(
    alloc: Global,
    part: &mut PartFile<F>,
    log: &Log,
    used: &mut Used,
) -> Result<(), FileFault>
    ensures { F.held part.new.file ≡ F.held part.old.file }
{
    load_named(alloc, part, &used.inodes)?;
    load_pointers(alloc, part, log, &used.inodes)?;
    want_blocks(&mut used.tails, part, log, &used.inodes)?;
    part.load_tails(&used.tails)
}

fn want_used<F: DiskFile + Drop>(
    used: &mut Used,
    part: &PartFile<F>,
    log: &Log,
    geometry: Geometry,
) -> Result<(), AllocError> {
    for s in geometry.table..geometry.first_data {
        let content = recovered(part, log, s);
        for i in 0..SECTOR_INODES {
            want_inode(used, part, log, content, INODE_SIZE * i)?;
        }
    }
    Ok(())
}

// The inode whose bytes begin here, where it is good and in use.
fn want_inode<F: DiskFile + Drop>(
    used: &mut Used,
    part: &PartFile<F>,
    log: &Log,
    content: &[u8; 512],
    at: usize,
) -> Result<(), AllocError>
    requires { at + INODE_SIZE ≤ 512 }
{
    if content[at] == 0 {
        return Ok(());
    }
    let Ok(inode) = Inode::read_any(content, at) else {
        return Ok(());
    };
    if is_short_file(&inode) {
        return want_end(&mut used.tails, part, log, &inode);
    }
    used.inodes.push(inode)?;
    Ok(())
}

fn want(numbers: &mut Vec<u32>, s: u32) -> Result<(), AllocError> {
    if s != 0 {
        numbers.push(s)?;
    }
    Ok(())
}

// The sectors of ACLs and of pointers that inodes name.
fn load_named<F: DiskFile + Drop>(
    alloc: Global,
    part: &mut PartFile<F>,
    inodes: &[Inode],
) -> Result<(), FileFault>
    ensures { F.held part.new.file ≡ F.held part.old.file }
{
    let mut numbers = Vec::new(alloc);
    want_named(&mut numbers, inodes)?;
    part.load_each(&numbers)
}

fn want_named(numbers: &mut Vec<u32>, inodes: &[Inode]) -> Result<(), AllocError> {
    for inode in inodes {
        want(numbers, inode.acl)?;
        want(numbers, inode.default_acl)?;
        for s in &inode.indirect {
            want(numbers, *s)?;
        }
    }
    numbers.sort()?;
    Ok(())
}

// The sectors of pointers that others list, from the top. Each is looked through once for a level, however often it is named.
fn load_pointers<F: DiskFile + Drop>(
    alloc: Global,
    part: &mut PartFile<F>,
    log: &Log,
    inodes: &[Inode],
) -> Result<(), FileFault>
    ensures { F.held part.new.file ≡ F.held part.old.file }
{
    let mut holders = Vec::new(alloc);
    let mut level = POINTER_LEVELS;
    while level > 1 {
        want_holders(&mut holders, inodes, level)?;
        let mut listed = Vec::new(alloc);
        want_listed(&mut listed, part, log, &holders)?;
        part.load_each(&listed)?;
        holders = listed;
        level -= 1;
    }
    Ok(())
}

fn sort_without_repeats(numbers: &mut Vec<u32>) -> Result<(), AllocError> {
    numbers.sort()?;
    numbers.dedup();
    Ok(())
}

// The sectors of pointers of a level that inodes name, with those that are there.
fn want_holders(holders: &mut Vec<u32>, inodes: &[Inode], level: usize) -> Result<(), AllocError>
    requires lowest { 1 ≤ level }
    requires highest { level ≤ POINTER_LEVELS }
{
    for inode in inodes {
        want(holders, inode.indirect[level - 1])?;
    }
    sort_without_repeats(holders)
}

// The sectors that these sectors of pointers list. There are no more of them than sectors, unless one is listed twice.
fn want_listed<F: DiskFile + Drop>(
    numbers: &mut Vec<u32>,
    part: &PartFile<F>,
    log: &Log,
    holders: &[u32],
) -> Result<(), AllocError> {
    for s in holders {
        want_numbers(numbers, recovered(part, log, *s), part.count())?;
        if numbers.len() / 2 > part.count() as usize {
            sort_without_repeats(numbers)?;
        }
    }
    sort_without_repeats(numbers)
}

// The numbers of sectors of the file that stand in a sector of pointers with this content.
fn want_numbers(numbers: &mut Vec<u32>, content: &[u8; 512], count: u32) -> Result<(), AllocError> {
    for i in 0..SECTOR_POINTERS as usize {
        let s = number_at(content, i);
        if s < count {
            want(numbers, s)?;
        }
    }
    Ok(())
}

fn want_tail(tails: &mut Vec<Tail>, sector: u32, first: usize) -> Result<(), AllocError> {
    if sector != 0 {
        tails.push(Tail { sector, first })?;
    }
    Ok(())
}

// Of files what stands past their sizes, and of other inodes all blocks. Of blocks there are no more than sectors, unless the disk is
// damaged.
fn want_blocks<F: DiskFile + Drop>(
    tails: &mut Vec<Tail>,
    part: &PartFile<F>,
    log: &Log,
    inodes: &[Inode],
) -> Result<(), AllocError> {
    let mut left = u64::from(part.count());
    for inode in inodes {
        if inode.kind == Kind::File {
            want_end(tails, part, log, inode)?;
            continue;
        }
        let end = inode.size.div_ceil(512).min(MAX_BLOCKS);
        if left < end {
            break;
        }
        left -= end;
        for i in 0..end {
            want_tail(tails, number_of(part, log, inode, 0, i), 0)?;
        }
    }
    tails.sort_by_key(|tail| tail.sector)?;
    Ok(())
}

// What stands past a file's size in its last block, unless the block ends with it.
fn want_end<F: DiskFile + Drop>(
    tails: &mut Vec<Tail>,
    part: &PartFile<F>,
    log: &Log,
    inode: &Inode,
) -> Result<(), AllocError> {
    let first = inode.size % 512;
    if first == 0 {
        return Ok(());
    }
    let last = inode.size / 512;
    want_tail(tails, number_of(part, log, inode, 0, last), first as usize)
}

// Number `i` of a level; 0 where there is none, or where a sector of pointers in which it is looked for wasn't read.
fn number_of<F: DiskFile + Drop>(
    part: &PartFile<F>,
    log: &Log,
    inode: &Inode,
    level: usize,
    i: u64,
) -> u32
    requires { level ≤ POINTER_LEVELS }
{
    let own = own_count(level);
    if i < own {
        return inode.number(level, &ZEROS, i);
    }
    // There is no level above the highest.
    if level == POINTER_LEVELS {
        return 0;
    }
    let s = number_of(part, log, inode, level + 1, (i - own) / SECTOR_POINTERS);
    inode.number(level, recovered(part, log, s), i)
}
