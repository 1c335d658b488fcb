//! An inode of the inode table, 128 bytes.

ghost use Rattle.std.specs.Prelude.{◌≡◌, ◌≤◌, ◌+◌, ℕ, length, IfOk, Ok};
ghost use Rattle.fs_layout.specs.Bytes.{SectorMap, splice, window};
ghost use Rattle.fs_layout.specs.Images.{level_end, number_on, own_count, HasPointersAbove, number_in};
ghost use Rattle.fs_layout.specs.Inode.{inode_bytes, inode_of, older_inode_of, inode_fits, is_small, kind_number, kind_of, fields_of, gaps_are_zero, IsInode, FitsInode, FitsOlderInode};
ghost use Rattle.fs_layout.specs.InodeTimes.{DiffersInTimes};

use crate::bytes::{
    are_zero, get_u32s, put_u16, put_u32, put_u32s, put_u64, put_zeros, u16_at, u32_at, u64_at,
};
use crate::fault::LayoutFault;
use crate::slot::SLOT_SIZE;

/// The bytes of an inode in the inode table.
pub const INODE_SIZE: usize = 128;

/// The blocks of an inode whose sectors' numbers stand in it.
pub const DIRECT_BLOCKS: u64 = 12;

/// The block numbers that a sector of pointers has.
pub const SECTOR_POINTERS: u64 = 128;

/// The levels of sectors of pointers. Those of the first have the numbers of blocks; each level above has the numbers of the sectors of
/// the level below. The inode names one sector of each.
pub const POINTER_LEVELS: usize = 3;

/// Where the blocks end whose numbers stand in the indirect sector.
pub const INDIRECT_END: u64 = DIRECT_BLOCKS + SECTOR_POINTERS;

/// Where the blocks end whose numbers stand in the indirect sectors that the double indirect sector lists.
pub const DOUBLE_INDIRECT_END: u64 = INDIRECT_END + SECTOR_POINTERS * SECTOR_POINTERS;

/// The most blocks of an inode, in the version that allows most: they end where those end that are found by the triple indirect sector.
pub const MAX_BLOCKS: u64 = DOUBLE_INDIRECT_END
    + SECTOR_POINTERS * SECTOR_POINTERS * SECTOR_POINTERS;

/// The most bytes of a file, in the version that allows most.
pub const MAX_FILE_SIZE: u64 = 512 * MAX_BLOCKS;

/// The most bytes of a file in versions 1 and 2.
pub const OLDER_FILE_SIZE: u64 = 512 * DOUBLE_INDIRECT_END;

/// The most bytes of a directory, in the version that allows most.
pub const MAX_DIRECTORY_SIZE: u64 = 8388608;

/// The most bytes of a directory in versions 1 and 2.
pub const OLDER_DIRECTORY_SIZE: u64 = 71680;

/// The most bytes of a link's target.
pub const MAX_LINK_SIZE: u64 = 512;

/// The most names of one file or link, in the version that allows most.
pub const MAX_INODE_NAMES: u32 = 65000;

/// The bit of a directory's mode that restricts who removes its names (sticky).
pub const S_ISVTX: u16 = 0o1000;

/// The bit of a directory's mode that gives its group to what is made in it (set-group-ID).
pub const S_ISGID: u16 = 0o2000;

/// How many numbers of a level stand in the inode. Level 0 are its blocks, the levels above those of sectors of pointers.
pub fn own_count(level: usize) -> u64
    ensures { result ≡ own_count level }
{
    if level == 0 { DIRECT_BLOCKS } else { 1 }
}

/// What an inode is: nothing yet, or a node of the tree.
#[derive(Clone, Copy, Debug, PartialEq, Eq)]
pub enum Kind {
    /// Nothing uses the inode; all its bytes are zero.
    Free,
    File,
    Directory,
    Link,
}

impl Kind {
    fn number(self) -> u16
        ensures { result ≡ kind_number self }
    {
        match self {
            Kind::Free => 0,
            Kind::File => 1,
            Kind::Directory => 2,
            Kind::Link => 3,
        }
    }

    // The bytes of no field are zero.
    fn gaps_are_zero(self, from: &[u8]) -> bool
        requires { length from.now ≡ INODE_SIZE }
        ensures { result ≡ gaps_are_zero self from.now }
    {
        match self {
            Kind::Free => are_zero(from),
            Kind::File | Kind::Directory | Kind::Link => { are_zero(&from[120..128]) }
        }
    }

    // In versions 1 and 2 an inode of this kind may have so many bytes.
    fn is_small(self, size: u64) -> bool
        ensures { result ≡ is_small self size }
    {
        match self {
            Kind::File => size <= OLDER_FILE_SIZE,
            Kind::Directory => size <= OLDER_DIRECTORY_SIZE,
            Kind::Free | Kind::Link => true,
        }
    }

    fn of_number(number: u16) -> Option<Kind>
        ensures { result ≡ kind_of number }
    {
        match number {
            0 => Some(Kind::Free),
            1 => Some(Kind::File),
            2 => Some(Kind::Directory),
            3 => Some(Kind::Link),
            _ => None,
        }
    }
}

/// An inode's fields. Its bytes say no more than that kind, mode and size go together: names, parent, times and sector
/// numbers may be any. A time counts the nanoseconds since 1970-01-01; 0 says that it isn't known.
#[derive(Clone, Copy, PartialEq, Eq)]
pub struct Inode {
    pub kind: Kind,
    /// The permission bits, and of a directory the bits above them: of a file at most 0o777, of a directory at most
    /// 0o3777, of a link 0o777.
    pub mode: u16,
    /// The owner.
    pub uid: u32,
    /// The group.
    pub gid: u32,
    /// How many names the inode has in directories; of a directory 1.
    pub names: u32,
    /// The bytes of a file, at most [`MAX_FILE_SIZE`]; those of a directory's slots, a multiple of [`SLOT_SIZE`], at most
    /// [`MAX_DIRECTORY_SIZE`]; the bytes of a link's target, 1 to [`MAX_LINK_SIZE`].
    pub size: u64,
    /// The inode of the directory that a directory lies in, the root's own for the root; else 0.
    pub parent: u32,
    /// The sector of the ACL, or 0: the ACL is the three entries that the mode is.
    pub acl: u32,
    /// The sector of the default ACL, or 0: none.
    pub default_acl: u32,
    /// The sectors of the first [`DIRECT_BLOCKS`] blocks; 0 is a hole.
    pub direct: [u32; DIRECT_BLOCKS as usize],
    /// The sector of pointers that is the first of each level, or 0: it isn't there. By the indirect one the next
    /// [`SECTOR_POINTERS`] blocks are found, by the double indirect one those up to [`DOUBLE_INDIRECT_END`], by the triple
    /// indirect one those up to [`MAX_BLOCKS`].
    pub indirect: [u32; POINTER_LEVELS],
    /// When the bytes of a file, or the names of a directory, last changed.
    pub mtime: u64,
    /// When anything of the inode last changed.
    pub ctime: u64,
    /// When it was last read, as far as that is kept.
    pub atime: u64,
}

impl Inode {
    /// An inode that nothing uses.
    pub const FREE: Inode = Inode {
        kind: Kind::Free,
        mode: 0,
        uid: 0,
        gid: 0,
        names: 0,
        size: 0,
        parent: 0,
        acl: 0,
        default_acl: 0,
        direct: [0; DIRECT_BLOCKS as usize],
        indirect: [0; POINTER_LEVELS],
        mtime: 0,
        ctime: 0,
        atime: 0,
    };

    #[tactic(auto, unfolding(crate::specs::Inode::inode_fits))]
    fn fits(&self) -> bool
        ensures { result ≡ inode_fits self.now }
    {
        match self.kind {
            Kind::Free => true,
            Kind::File => self.mode <= 0o777 && self.size <= MAX_FILE_SIZE,
            Kind::Directory => self.mode <= 0o3777
                && self.size <= MAX_DIRECTORY_SIZE
                && self.size % SLOT_SIZE as u64 == 0,
            Kind::Link => self.mode == 0o777 && 1 <= self.size && self.size <= MAX_LINK_SIZE,
        }
    }

    fn put(&self, to: &mut [u8])
        requires { length to.old ≡ INODE_SIZE }
        ensures { to.new ≡ inode_bytes self.now }
    {
        put_u16(to, 0, self.kind.number());
        put_u16(to, 2, self.mode);
        put_u32(to, 4, self.uid);
        put_u32(to, 8, self.gid);
        put_u32(to, 12, self.names);
        put_u64(to, 16, self.size);
        put_u32(to, 24, self.parent);
        put_u32(to, 28, self.acl);
        put_u32(to, 32, self.default_acl);
        put_u32s(to, 36, &self.direct);
        put_u32s(to, 84, &self.indirect);
        put_u64(to, 96, self.mtime);
        put_u64(to, 104, self.ctime);
        put_u64(to, 112, self.atime);
        put_zeros(to, 120, 8);
    }

    // The fields that stand there, of an inode of this kind.
    fn fields(kind: Kind, from: &[u8]) -> Inode
        requires { length from.now ≡ INODE_SIZE }
        ensures { result ≡ fields_of kind from.now }
    {
        let mut direct = [0; DIRECT_BLOCKS as usize];
        get_u32s(from, 36, &mut direct);
        let mut indirect = [0; POINTER_LEVELS];
        get_u32s(from, 84, &mut indirect);
        Inode {
            kind,
            mode: u16_at(from, 2),
            uid: u32_at(from, 4),
            gid: u32_at(from, 8),
            names: u32_at(from, 12),
            size: u64_at(from, 16),
            parent: u32_at(from, 24),
            acl: u32_at(from, 28),
            default_acl: u32_at(from, 32),
            direct,
            indirect,
            mtime: u64_at(from, 96),
            ctime: u64_at(from, 104),
            atime: u64_at(from, 112),
        }
    }

    #[tactic(auto, unfolding(crate::specs::Inode::inode_of))]
    fn get(from: &[u8]) -> Result<Inode, LayoutFault>
        requires { length from.now ≡ INODE_SIZE }
        ensures { result ≡ inode_of from.now }
    {
        let Some(kind) = Kind::of_number(u16_at(from, 0)) else {
            return Err(LayoutFault::BadKind);
        };
        let inode = Inode::fields(kind, from);
        if !inode.fits() {
            return Err(LayoutFault::BadNumber);
        }
        if !kind.gaps_are_zero(from) {
            return Err(LayoutFault::NotZero);
        }
        Ok(inode)
    }

    // As `get` in versions 1 and 2, where inodes are smaller and have no times. The size's range comes before the zeros.
    fn get_older(from: &[u8]) -> Result<Inode, LayoutFault>
        requires { length from.now ≡ INODE_SIZE }
        ensures { result ≡ older_inode_of from.now }
    {
        let Some(kind) = Kind::of_number(u16_at(from, 0)) else {
            return Err(LayoutFault::BadKind);
        };
        if !kind.is_small(u64_at(from, 16)) {
            return Err(LayoutFault::BadNumber);
        }
        let inode = Inode::get(from)?;
        if !are_zero(&from[92..128]) {
            return Err(LayoutFault::NotZero);
        }
        Ok(inode)
    }

    /// Where the numbers of a level end that the inode can have, by which sectors of pointers it names. Level 0 are its blocks.
    pub fn number_end(&self, level: usize) -> u64
        requires { level ≤ POINTER_LEVELS + 1 }
        ensures most { result ≤ level_end level }
        ensures past { (image : SectorMap) (i : ℕ) → result ≤ i → number_on image self.now level i ≡ 0 }
    {
        if level > POINTER_LEVELS {
            return 0;
        }
        let listed = SECTOR_POINTERS * self.number_end(level + 1);
        if level == 0 {
            return DIRECT_BLOCKS + listed;
        }
        if listed == 0 && self.indirect[level - 1] == 0 {
            return 0;
        }
        1 + listed
    }

    #[tactic(auto, unfolding(crate::specs::Images::number_in))]
    fn number_in(&self, level: usize, content: &[u8; 512], i: u64) -> u32
        ensures { result ≡ number_in self.now level content.now i }
    {
        if level == 0 {
            if i < DIRECT_BLOCKS {
                return self.direct[i as usize];
            }
            return u32_at(
                content,
                4 * ((i - DIRECT_BLOCKS) % SECTOR_POINTERS) as usize,
            );
        }
        if i == 0 {
            return self.indirect.get(level - 1).copied().unwrap_or(0);
        }
        u32_at(content, 4 * ((i - 1) % SECTOR_POINTERS) as usize)
    }

    /// Number `i` of a level; 0 where there is none. `content` is that of the sector of pointers in which it stands, zeros
    /// where there is no such sector; for a number that stands in the inode it may be any.
    pub fn number(&self, level: usize, content: &[u8; 512], i: u64) -> u32
        ensures { (image : SectorMap) → HasPointersAbove image self.now level i content.now
            → result ≡ number_on image self.now level i }
    {
        self.number_in(level, content, i)
    }

    /// Writes the [`INODE_SIZE`] bytes from `at` on.
    pub fn write_to(&self, to: &mut [u8; 512], at: usize)
        requires room { at + INODE_SIZE ≤ 512 }
        requires valid { IsInode self.now }
        ensures { to.new ≡ splice to.old at (inode_bytes self.now) }
    {
        self.put(&mut to[at..at + INODE_SIZE]);
    }

    /// Writes this inode's times over those of one that differs in its times alone, whose [`INODE_SIZE`] bytes stand from
    /// `at` on.
    pub fn write_times(&self, to: &mut [u8; 512], at: usize)
        requires { at + INODE_SIZE ≤ 512 }
        ensures { (v : Inode) → DiffersInTimes v self.now → window to.old at INODE_SIZE ≡ inode_bytes v
            → to.new ≡ splice to.old at (inode_bytes self.now) }
    {
        put_u64(to, at + 96, self.mtime);
        put_u64(to, at + 104, self.ctime);
        put_u64(to, at + 112, self.atime);
    }

    /// Reads the [`INODE_SIZE`] bytes from `at` on, which are an inode's, as whoever has checked the image knows. Of other
    /// bytes nothing is said.
    pub fn read_valid(from: &[u8; 512], at: usize) -> Inode
        requires { at + INODE_SIZE ≤ 512 }
        ensures { (v : Inode) → inode_of (window from.now at INODE_SIZE) ≡ Ok v → result ≡ v }
    {
        let bytes = &from[at..at + INODE_SIZE];
        let kind = Kind::of_number(u16_at(bytes, 0)).unwrap_or(Kind::Free);
        Inode::fields(kind, bytes)
    }

    /// Reads the [`INODE_SIZE`] bytes from `at` on, of a disk of version 1 or 2.
    pub fn read_from(from: &[u8; 512], at: usize) -> Result<Inode, LayoutFault>
        requires { at + INODE_SIZE ≤ 512 }
        // What is read is spelled so.
        ensures found { IfOk result (λ v. (window from.now at INODE_SIZE ≡ inode_bytes v) × FitsOlderInode v) }
        // What is spelled so is read.
        ensures only { (v : Inode) → FitsOlderInode v → window from.now at INODE_SIZE ≡ inode_bytes v → result ≡ Ok v }
        // Which fault it is.
        ensures first_fault { result ≡ older_inode_of (window from.now at INODE_SIZE) }
    {
        Inode::get_older(&from[at..at + INODE_SIZE])
    }

    /// Reads the [`INODE_SIZE`] bytes from `at` on, whatever the disk's version: whether it allows the size, and times, is
    /// not asked.
    pub fn read_any(from: &[u8; 512], at: usize) -> Result<Inode, LayoutFault>
        requires { at + INODE_SIZE ≤ 512 }
        // What is read is spelled so.
        ensures found { IfOk result (λ v. (window from.now at INODE_SIZE ≡ inode_bytes v) × FitsInode v) }
        // What is spelled so is read.
        ensures only { (v : Inode) → FitsInode v → window from.now at INODE_SIZE ≡ inode_bytes v → result ≡ Ok v }
        // Which fault it is.
        ensures first_fault { result ≡ inode_of (window from.now at INODE_SIZE) }
    {
        Inode::get(&from[at..at + INODE_SIZE])
    }
}
