//! The commit: sector 1, and the header behind it.

ghost use Rattle.std.specs.Prelude.{◌≡◌, ◌≤◌, ◌<◌, ◌+◌, ◌-◌, ◌*◌, ◌/◌, ◌%◌, ◌↔◌, ℕ, List, [], length, take, get_or, IfOk, IfSome, IfNone, Ok, IsTrue};
ghost use Rattle.std.specs.Int.{div_ceil};
ghost use Rattle.fs_layout.specs.Bytes.{u32_of};
ghost use Rattle.fs_layout.specs.Commit.{area_in, commit_bytes, commit_bytes_in, commit_of, count_in, FitsCommit, AreDistinct, AreTargets, IsSpelled};
ghost use Rattle.fs_layout.specs.Header.{max_targets};
ghost use Rattle.fs_layout.specs.declared.header.TheConstants.{MAX_HEADER};

use crate::bytes::{are_zero, get_u32s, put_u32, put_u32s, put_zeros, u32_at};
use crate::fault::LayoutFault;
use crate::geometry::FIRST_LOG_SECTOR;
use crate::header::{MAX_HEADER, log_end, max_targets};
use std::marker::Model;

/// The most targets that the commit sector has. Those past them stand in the header.
pub const MAX_TARGETS: usize = 126;

/// The most targets that a header sector has.
pub const HEADER_TARGETS: usize = 128;

/// The most targets that a commit has: where the header is the largest, one of [`MAX_HEADER`] sectors.
pub const MAX_LOG_SECTORS: usize = 8190;

const COMMIT_MAGIC: u32 = 0x4a4f4e49;

/// What a commit says: the sectors that recovery writes, in the order of their contents in the log.
///
/// The content for target `i`, counted from 0, lies `i` sectors behind the header of the log area that the commit names. A
/// commit without targets is idle, another one is sealed. A contract sees a commit as the list of its targets.
#[derive(Drop)]
pub struct Commit {
    count: usize,
    targets: [u32; MAX_LOG_SECTORS],
}

impl Model for Commit {
    ghost use Rattle.std.specs.Prelude.{ℕ, ◌≤◌, List, take};
    ghost use Rattle.fs_layout.specs.declared.commit.TheConstants.{MAX_LOG_SECTORS};

    ghost Value = { List ℕ };

    ghost view = { λ c. take c.count c.targets };

    ghost invariant = { λ c. c.count ≤ MAX_LOG_SECTORS };
}

impl Commit {
    /// A commit without targets.
    pub fn idle() -> Commit
        ensures { result ≡ [] }
    {
        Commit {
            count: 0,
            targets: [0; MAX_LOG_SECTORS],
        }
    }

    /// A commit with these targets, at most [`MAX_LOG_SECTORS`].
    pub fn new(targets: &[u32]) -> Commit
        requires { length targets.now ≤ MAX_LOG_SECTORS }
        ensures { result ≡ targets.now }
    {
        let mut all = [0; MAX_LOG_SECTORS];
        (&mut all[..targets.len()]).copy_from_slice(targets);
        Commit {
            count: targets.len(),
            targets: all,
        }
    }

    /// The targets, at most [`MAX_LOG_SECTORS`].
    pub fn targets(&self) -> &[u32]
        ensures value { result.now ≡ self.now }
        ensures few { length self.now ≤ MAX_LOG_SECTORS }
    {
        &self.targets[..self.count]
    }

    fn put(area: u32, targets: &[u32], to: &mut [u8])
        requires len { length to.old ≡ 512 }
        requires area { area ≤ 1 }
        requires few { length targets.now ≤ MAX_LOG_SECTORS }
        ensures { to.new ≡ commit_bytes_in area targets.now }
    {
        let first = first_targets(targets);
        put_u32(to, 0, COMMIT_MAGIC);
        put_u32(to, 4, targets.len() as u32 + 0x8000_0000 * area);
        put_u32s(to, 8, first);
        put_zeros(to, 8 + 4 * first.len(), 504 - 4 * first.len());
    }

    #[tactic(auto, unfolding(crate::specs::Commit::commit_of))]
    fn get(from: &[u8]) -> Result<Commit, LayoutFault>
        requires { length from.now ≡ 512 }
        ensures { result ≡ commit_of from.now }
    {
        if u32_at(from, 0) != COMMIT_MAGIC {
            return Err(LayoutFault::BadMagic);
        }
        let count = u32_at(from, 4) as usize;
        if MAX_TARGETS < count {
            return Err(LayoutFault::BadNumber);
        }
        if !are_zero(&from[8 + 4 * count..]) {
            return Err(LayoutFault::NotZero);
        }
        let mut first = [0; MAX_TARGETS];
        get_u32s(from, 8, &mut first);
        Ok(Commit::new(&first[..count]))
    }

    /// Every number stands between the layout's sectors and the end of a disk of so many sectors, and none twice. The disk has
    /// no header.
    pub fn is_valid_for(&self, sectors: u32) -> bool
        ensures { IsTrue result ↔ AreTargets 0 sectors self.now }
    {
        self.is_valid_with(0, sectors)
    }

    /// There are no more than a header of so many sectors has room for, every number stands between the log and the end of a
    /// disk of so many sectors, and none twice.
    pub fn is_valid_with(&self, header: u32, sectors: u32) -> bool
        requires { header ≤ MAX_HEADER }
        ensures { IsTrue result ↔ AreTargets header sectors self.now }
    {
        let targets = self.targets();
        if max_targets(header) < targets.len() {
            return false;
        }
        let first = log_end(header);
        for target in targets {
            if *target < first || sectors <= *target {
                return false;
            }
        }
        are_apart(targets)
    }

    /// How many sectors of the header have targets of it.
    pub fn header_sectors(&self) -> usize
        ensures { result ≡ div_ceil (length self.now - MAX_TARGETS) HEADER_TARGETS }
    {
        Commit::header_sectors_for(self.count)
    }

    /// How many sectors of the header have targets of a commit with so many.
    pub fn header_sectors_for(count: usize) -> usize
        ensures { result ≡ div_ceil (count - MAX_TARGETS) HEADER_TARGETS }
    {
        count.saturating_sub(MAX_TARGETS).div_ceil(HEADER_TARGETS)
    }

    /// The content of a sector of the header, counted from 0, of a commit with these targets: those past the ones of the sectors
    /// before it.
    pub fn header_sector(targets: &[u32], at: usize) -> [u8; 512]
        requires most { at < MAX_HEADER }
        requires some { MAX_TARGETS + HEADER_TARGETS * at ≤ length targets.now }
        ensures { (k : ℕ) → k < HEADER_TARGETS → MAX_TARGETS + HEADER_TARGETS * at + k < length targets.now
            → u32_of result (4 * k) ≡ get_or targets.now (MAX_TARGETS + HEADER_TARGETS * at + k) 0 }
    {
        let rest = &targets[MAX_TARGETS + HEADER_TARGETS * at..];
        header_bytes(&rest[..rest.len().min(HEADER_TARGETS)])
    }

    /// The log area that the content of a commit sector names.
    pub fn area_in(from: &[u8; 512]) -> u32
        ensures value { result ≡ area_in from.now }
        ensures one { result ≤ 1 }
    {
        u32_at(from, 4) / 0x8000_0000
    }

    /// The content is that of a commit sector with these targets, and it names a log area in which they may be, where the header
    /// has so many sectors.
    pub fn is_spelled_by(&self, header: u32, content: &[u8; 512]) -> bool
        ensures { IsTrue result ↔ IsSpelled header content.now self.now }
    {
        let area = Commit::area_in(content);
        if header < area || self.count < area as usize {
            return false;
        }
        self.to_sector_in(area) == *content
    }

    /// As many targets as a commit sector counts, of which the first are read from it; the others are for
    /// [`Commit::read_header`]. None where a header of so many sectors has no room for them.
    pub fn counted(from: &[u8; 512], header: u32) -> Option<Commit>
        requires { header ≤ MAX_HEADER }
        ensures count { IfSome result (λ targets. length targets ≡ count_in from.now) }
        ensures first { IfSome result (λ targets. (i : ℕ) → i < MAX_TARGETS → i < length targets
            → get_or targets i 0 ≡ u32_of from.now (8 + 4 * i)) }
        ensures few { IfSome result (λ targets. length targets ≤ max_targets header) }
        ensures none { IfNone result (max_targets header < count_in from.now) }
    {
        let count = (u32_at(from, 4) % 0x8000_0000) as usize;
        if max_targets(header) < count {
            return None;
        }
        let mut targets = [0; MAX_LOG_SECTORS];
        get_u32s(from, 8, &mut targets[..MAX_TARGETS]);
        Some(Commit { count, targets })
    }

    /// Reads the targets that stand in a sector of the header, counted from 0.
    pub fn read_header(&mut self, at: usize, from: &[u8; 512])
        requires { at < MAX_HEADER }
        ensures count { length self.new ≡ length self.old }
        ensures read { (k : ℕ) → k < HEADER_TARGETS → MAX_TARGETS + HEADER_TARGETS * at + k < length self.old
            → get_or self.new (MAX_TARGETS + HEADER_TARGETS * at + k) 0 ≡ u32_of from.now (4 * k) }
        ensures before { (i : ℕ) → i < MAX_TARGETS + HEADER_TARGETS * at → get_or self.new i 0 ≡ get_or self.old i 0 }
    {
        let start = MAX_TARGETS + HEADER_TARGETS * at;
        get_u32s(from, 0, &mut self.targets[start..start + HEADER_TARGETS]);
    }

    /// Writes the sector of a commit without a header: it has room for all targets. `at` is 0.
    pub fn write_to(&self, to: &mut [u8; 512], at: usize)
        requires whole { at ≡ 0 }
        requires few { length self.now ≤ MAX_TARGETS }
        ensures { to.new ≡ commit_bytes self.now }
    {
        Commit::put(0, self.targets(), &mut to[at..at + 512]);
    }

    /// The content of the commit sector of a commit in this log area: the highest bit of the number says which.
    pub fn to_sector_in(&self, area: u32) -> [u8; 512]
        requires { area ≤ 1 }
        ensures { result ≡ commit_bytes_in area self.now }
    {
        Commit::sector_with(area, self.targets())
    }

    /// The content of the commit sector of a commit with these targets, which needs no memory for as many as a commit may have.
    pub fn sector_with(area: u32, targets: &[u32]) -> [u8; 512]
        requires area { area ≤ 1 }
        requires few { length targets.now ≤ MAX_LOG_SECTORS }
        ensures { result ≡ commit_bytes_in area targets.now }
    {
        let mut content = [0; 512];
        Commit::put(area, targets, &mut content);
        content
    }

    /// The content of the commit sector of a commit without a header.
    pub fn to_sector(&self) -> [u8; 512]
        requires { length self.now ≤ MAX_TARGETS }
        ensures { result ≡ commit_bytes self.now }
    {
        let mut content = [0; 512];
        self.write_to(&mut content, 0);
        content
    }

    /// Reads the sector; `at` is 0. It does not know the disk's size: ask [`Commit::is_valid_for`] too.
    pub fn read_from(from: &[u8; 512], at: usize) -> Result<Commit, LayoutFault>
        requires { at ≡ 0 }
        // What is read is spelled so.
        ensures found { IfOk result (λ v. (from.now ≡ commit_bytes v) × FitsCommit v) }
        // What is spelled so is read.
        ensures only { (v : List ℕ) → FitsCommit v → from.now ≡ commit_bytes v → result ≡ Ok v }
        // Which fault it is.
        ensures first_fault { result ≡ commit_of from.now }
    {
        Commit::get(&from[at..at + 512])
    }
}

// A sector of the header, with these targets.
fn header_bytes(targets: &[u32]) -> [u8; 512]
    requires { length targets.now ≤ HEADER_TARGETS }
    ensures { (k : ℕ) → k < length targets.now → u32_of result (4 * k) ≡ get_or targets.now k 0 }
{
    let mut content = [0; 512];
    put_u32s(&mut content, 0, targets);
    content
}

// The targets that stand in the commit sector.
fn first_targets(targets: &[u32]) -> &[u32]
    ensures first { result.now ≡ take MAX_TARGETS targets.now }
    ensures few { length result.now ≤ MAX_TARGETS }
{
    if targets.len() < MAX_TARGETS {
        return targets;
    }
    &targets[..MAX_TARGETS]
}

fn are_apart(targets: &[u32]) -> bool
    ensures { IsTrue result ↔ AreDistinct targets.now }
{
    for i in 0..targets.len() {
        for j in 0..i {
            if targets[i] == targets[j] {
                return false;
            }
        }
    }
    true
}
