//! The superblock, sector 0.

ghost use Rattle.std.specs.Prelude.{◌≡◌, ◌≤◌, length, IfOk, IfSome, Ok};
ghost use Rattle.fs_layout.specs.Geometry.{IsGeometry, super_for, geometry_for};
ghost use Rattle.fs_layout.specs.Superblock.{super_bytes, super_of, numbers_end, FitsSuper, FitsVersion};

use crate::bytes::{are_zero, put_u32, put_zeros, u32_at};
use crate::fault::LayoutFault;
use crate::geometry::{Geometry, geometry_in};
use crate::version::Version;

const SUPER_MAGIC: u32 = 0x534f4e49;

/// What the superblock says of its disk. Whether the disk is of that size, and [`Super::geometry`] gives a layout, is
/// not asked here.
#[derive(Clone, Copy, PartialEq, Eq)]
pub struct Super {
    /// The version of the layout.
    pub version: Version,
    /// The number of sectors of the disk.
    pub sectors: u32,
    /// The number of inodes; inode 0 is never used.
    pub inodes: u32,
    /// The number of header sectors of a log area; 0 in versions 1 and 2, whose superblock doesn't have it.
    pub header: u32,
}

impl Version {
    // Where the numbers of a superblock of this version end.
    fn numbers_end(self) -> usize
        ensures value { result ≡ numbers_end self }
        ensures within { result ≤ 512 }
    {
        match self {
            Version::One | Version::Two => 16,
            Version::Three => 20,
        }
    }
}

impl Super {
    /// The superblock of a disk of this layout.
    pub fn of_geometry(geometry: Geometry) -> Super
        ensures { result ≡ super_for geometry }
    {
        Super {
            version: geometry.version,
            sectors: geometry.sectors,
            inodes: geometry.inodes,
            header: geometry.header,
        }
    }

    /// The layout of the disk; None where a disk may not have these numbers.
    pub fn geometry(self) -> Option<Geometry>
        ensures value { result ≡ geometry_for self }
        ensures room { IfSome result IsGeometry }
        ensures fits { IfSome result (λ geometry. FitsVersion self) }
    {
        geometry_in(self.version, self.header, self.sectors, self.inodes)
    }

    fn put(&self, to: &mut [u8])
        requires { length to.old ≡ 512 }
        ensures { to.new ≡ super_bytes self.now }
    {
        put_u32(to, 0, SUPER_MAGIC);
        put_u32(to, 4, self.version.number());
        put_u32(to, 8, self.sectors);
        put_u32(to, 12, self.inodes);
        put_u32(to, 16, self.header);
        put_zeros(to, 20, 492);
    }

    #[tactic(auto, unfolding(crate::specs::Superblock::super_of))]
    fn get(from: &[u8]) -> Result<Super, LayoutFault>
        requires { length from.now ≡ 512 }
        ensures { result ≡ super_of from.now }
    {
        if u32_at(from, 0) != SUPER_MAGIC {
            return Err(LayoutFault::BadMagic);
        }
        let Some(version) = Version::of_number(u32_at(from, 4)) else {
            return Err(LayoutFault::BadVersion);
        };
        if !are_zero(&from[version.numbers_end()..]) {
            return Err(LayoutFault::NotZero);
        }
        let sectors = u32_at(from, 8);
        let inodes = u32_at(from, 12);
        let header = u32_at(from, 16);
        Ok(Super {
            version,
            sectors,
            inodes,
            header,
        })
    }

    /// Writes the sector; `at` is 0. A version without a field for the number of header sectors has none of them.
    pub fn write_to(&self, to: &mut [u8; 512], at: usize)
        requires whole { at ≡ 0 }
        requires fits { FitsVersion self.now }
        ensures { to.new ≡ super_bytes self.now }
    {
        self.put(&mut to[at..at + 512]);
    }

    /// Reads the sector; `at` is 0.
    pub fn read_from(from: &[u8; 512], at: usize) -> Result<Super, LayoutFault>
        requires { at ≡ 0 }
        // What is read is spelled so.
        ensures found { IfOk result (λ v. (from.now ≡ super_bytes v) × FitsSuper v) }
        // What is spelled so is read.
        ensures only { (v : Super) → FitsSuper v → from.now ≡ super_bytes v → result ≡ Ok v }
        // Which fault it is.
        ensures first_fault { result ≡ super_of from.now }
    {
        Super::get(&from[at..at + 512])
    }
}
