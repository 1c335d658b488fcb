//! A slot of a directory, of 128 or 256 bytes by the disk's version.

ghost use Rattle.std.specs.Prelude.{◌≡◌, ◌≤◌, ◌+◌, ◌↔◌, ℕ, length, IfOk, Ok, IsTrue};
ghost use Rattle.fs_layout.specs.Bytes.{splice, window};
ghost use Rattle.fs_layout.specs.Directories.{NamedInode, IsName, FitsSlot, slot_bytes, slot_of};
ghost use Rattle.fs_layout.specs.Version.{max_name, slot_size};
ghost use Rattle.fs_layout.specs.declared.version.Version.TheVariants.{Two};

use crate::bytes::{are_zero, put_bytes, put_u32, put_zeros, u32_at};
use crate::fault::LayoutFault;
use crate::version::Version;
use std::marker::Model;

/// The bytes of a slot in versions 1 and 2. In each version a directory shows so many bytes of size for each name.
pub const SLOT_SIZE: usize = 128;

/// The most bytes of a slot, in the version with the longest names.
pub const MAX_SLOT_SIZE: usize = 256;

/// The most bytes of a name, in the version with the longest names.
pub const MAX_NAME: usize = 248;

/// An inode and a name that it has in a directory. A contract sees both by `NamedInode`.
#[derive(Drop)]
pub struct Slot {
    ino: u32,
    length: usize,
    name: [u8; MAX_NAME],
}

impl Model for Slot {
    ghost use Rattle.std.specs.Prelude.{◌≤◌, take};
    ghost use Rattle.fs_layout.specs.declared.slot.TheConstants.{MAX_NAME};
    ghost use Rattle.fs_layout.specs.Directories.{NamedInode, IsName};

    ghost Value = { NamedInode };

    ghost view = { λ s. record { ino = s.ino; name = take s.length s.name } };

    ghost invariant = { λ s. (s.length ≤ MAX_NAME) × IsName (take s.length s.name) };
}

/// The bytes may stand in a directory as a name: 1 to [`MAX_NAME`] of them, no `/` and no zero byte, and neither `.` nor `..`.
pub fn is_name(name: &[u8]) -> bool
    ensures { IsTrue result ↔ IsName name.now }
{
    if name.is_empty() || MAX_NAME < name.len() {
        return false;
    }
    if name == b".".as_slice() || name == b"..".as_slice() {
        return false;
    }
    name.iter().all(|b| *b != 0 && *b != b'/')
}

impl Slot {
    /// A slot with this name for this inode.
    pub fn new(ino: u32, name: &[u8]) -> Slot
        requires { IsName name.now }
        ensures { result ≡ record { ino = ino; name = name.now } }
    {
        let mut bytes = [0; MAX_NAME];
        (&mut bytes[..name.len()]).copy_from_slice(name);
        Slot {
            ino,
            length: name.len(),
            name: bytes,
        }
    }

    /// The number of the inode.
    pub fn ino(&self) -> u32
        ensures { result ≡ self.now.ino }
    {
        self.ino
    }

    /// The name's bytes.
    pub fn name(&self) -> &[u8]
        ensures value { result.now ≡ self.now.name }
        ensures is_name { IsName self.now.name }
    {
        &self.name[..self.length]
    }

    fn put(&self, version: Version, to: &mut [u8])
        requires room { length to.old ≡ slot_size version }
        requires short { length self.now.name ≤ max_name version }
        ensures { to.new ≡ slot_bytes version self.now }
    {
        let name = self.name();
        put_u32(to, 0, self.ino());
        put_bytes(to, 4, &[name.len() as u8]);
        put_zeros(to, 5, 3);
        put_bytes(to, 8, name);
        put_zeros(to, 8 + name.len(), version.max_name() - name.len());
    }

    #[tactic(auto, unfolding(crate::specs::Directories::slot_of))]
    fn get(version: Version, from: &[u8]) -> Result<Slot, LayoutFault>
        requires { length from.now ≡ slot_size version }
        ensures { result ≡ slot_of version from.now }
    {
        let length = from[4] as usize;
        if version.max_name() < length {
            return Err(LayoutFault::BadNumber);
        }
        let name = &from[8..8 + length];
        if !is_name(name) {
            return Err(LayoutFault::BadNumber);
        }
        if !are_zero(&from[5..8]) {
            return Err(LayoutFault::NotZero);
        }
        if !are_zero(&from[8 + length..]) {
            return Err(LayoutFault::NotZero);
        }
        Ok(Slot::new(u32_at(from, 0), name))
    }

    /// Writes the bytes of a slot of this version from `at` on.
    pub fn write_in(&self, version: Version, to: &mut [u8; 512], at: usize)
        requires room { at + slot_size version ≤ 512 }
        requires short { length self.now.name ≤ max_name version }
        ensures { to.new ≡ splice to.old at (slot_bytes version self.now) }
    {
        self.put(version, &mut to[at..at + version.slot_size()]);
    }

    /// Reads the bytes of a slot of this version from `at` on. Whether there is such an inode is not asked.
    pub fn read_in(version: Version, from: &[u8; 512], at: usize) -> Result<Slot, LayoutFault>
        requires { at + slot_size version ≤ 512 }
        // What is read is spelled so.
        ensures found { IfOk result (λ v. (window from.now at (slot_size version) ≡ slot_bytes version v) × FitsSlot version v) }
        // What is spelled so is read.
        ensures only { (v : NamedInode) → FitsSlot version v → window from.now at (slot_size version) ≡ slot_bytes version v
            → result ≡ Ok v }
        // Which fault it is.
        ensures first_fault { result ≡ slot_of version (window from.now at (slot_size version)) }
    {
        Slot::get(version, &from[at..at + version.slot_size()])
    }

    /// Writes the [`SLOT_SIZE`] bytes of versions 1 and 2 from `at` on.
    pub fn write_to(&self, to: &mut [u8; 512], at: usize)
        requires room { at + SLOT_SIZE ≤ 512 }
        requires short { length self.now.name ≤ max_name Two }
        ensures { to.new ≡ splice to.old at (slot_bytes Two self.now) }
    {
        self.write_in(Version::Two, to, at);
    }

    /// Reads the [`SLOT_SIZE`] bytes of versions 1 and 2 from `at` on. Whether there is such an inode is not asked.
    pub fn read_from(from: &[u8; 512], at: usize) -> Result<Slot, LayoutFault>
        requires { at + SLOT_SIZE ≤ 512 }
        // What is read is spelled so.
        ensures found { IfOk result (λ v. (window from.now at SLOT_SIZE ≡ slot_bytes Two v) × FitsSlot Two v) }
        // What is spelled so is read.
        ensures only { (v : NamedInode) → FitsSlot Two v → window from.now at SLOT_SIZE ≡ slot_bytes Two v → result ≡ Ok v }
        // Which fault it is.
        ensures first_fault { result ≡ slot_of Two (window from.now at SLOT_SIZE) }
    {
        Slot::read_in(Version::Two, from, at)
    }
}
