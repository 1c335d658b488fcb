//! The sector of an ACL.

ghost use Rattle.std.specs.Prelude.{◌≡◌, ◌≤◌, ◌+◌, ◌*◌, List, length, IfOk, Ok};
ghost use Rattle.posix_acl.specs.declared.entry.EntryNumbers.{EntryNumbers};
ghost use Rattle.posix_acl.specs.declared.validity.TheConstants.{MAX_ENTRIES};
ghost use Rattle.fs_layout.specs.Bytes.{splice};
ghost use Rattle.fs_layout.specs.AclSector.{acl_sector_bytes, acl_sector_of, entry_bytes, entries_bytes, acl_entry_at, acl_entries_at, FitsAclSector};

use crate::bytes::{are_zero, put_u16, put_u32, put_zeros, u16_at, u32_at};
use crate::fault::LayoutFault;
use posix_acl::{EntryNumbers, MAX_ENTRIES};
use std::marker::Model;

/// The entries of an ACL as numbers, at most [`MAX_ENTRIES`], in the order of the sector. Whether they make an ACL is not asked. A
/// contract sees them as a list.
#[derive(Drop)]
pub struct AclSector {
    count: usize,
    entries: [EntryNumbers; MAX_ENTRIES],
}

impl Model for AclSector {
    ghost use Rattle.std.specs.Prelude.{◌≤◌, List, take};
    ghost use Rattle.posix_acl.specs.declared.validity.TheConstants.{MAX_ENTRIES};
    ghost use Rattle.posix_acl.specs.declared.entry.EntryNumbers.{EntryNumbers};

    ghost Value = { List EntryNumbers };

    ghost view = { λ a. take a.count a.entries };

    ghost invariant = { λ a. a.count ≤ MAX_ENTRIES };
}

const NONE: EntryNumbers = EntryNumbers {
    tag: 0,
    perms: 0,
    id: 0,
};

fn put_entry(to: &mut [u8], at: usize, entry: &EntryNumbers)
    requires { at + 8 ≤ length to.old }
    ensures { to.new ≡ splice to.old at (entry_bytes entry.now) }
{
    put_u16(to, at, entry.tag);
    put_u16(to, at + 2, entry.perms);
    put_u32(to, at + 4, entry.id);
}

fn put_entries(to: &mut [u8], at: usize, entries: &[EntryNumbers])
    requires { at + 8 * length entries.now ≤ length to.old }
    ensures { to.new ≡ splice to.old at (entries_bytes entries.now) }
{
    for i in 0..entries.len() {
        put_entry(to, at + 8 * i, &entries[i]);
    }
}

fn get_entry(from: &[u8], at: usize) -> EntryNumbers
    requires { at + 8 ≤ length from.now }
    ensures { result ≡ acl_entry_at from.now at }
{
    EntryNumbers {
        tag: u16_at(from, at),
        perms: u16_at(from, at + 2),
        id: u32_at(from, at + 4),
    }
}

fn get_entries(from: &[u8], at: usize, to: &mut [EntryNumbers])
    requires { at + 8 * length to.old ≤ length from.now }
    ensures { to.new ≡ acl_entries_at from.now at (length to.old) }
{
    for i in 0..to.len() {
        to[i] = get_entry(from, at + 8 * i);
    }
}

impl AclSector {
    /// An ACL sector of these entries, at most [`MAX_ENTRIES`].
    pub fn new(entries: &[EntryNumbers]) -> AclSector
        requires { length entries.now ≤ MAX_ENTRIES }
        ensures { result ≡ entries.now }
    {
        let mut all = [NONE; MAX_ENTRIES];
        (&mut all[..entries.len()]).copy_from_slice(entries);
        AclSector {
            count: entries.len(),
            entries: all,
        }
    }

    /// The entries, at most [`MAX_ENTRIES`].
    pub fn entries(&self) -> &[EntryNumbers]
        ensures value { result.now ≡ self.now }
        ensures few { length self.now ≤ MAX_ENTRIES }
    {
        &self.entries[..self.count]
    }

    fn put(&self, to: &mut [u8])
        requires { length to.old ≡ 512 }
        ensures { to.new ≡ acl_sector_bytes self.now }
    {
        let entries = self.entries();
        put_u16(to, 0, entries.len() as u16);
        put_zeros(to, 2, 6);
        put_entries(to, 8, entries);
        put_zeros(to, 8 + 8 * entries.len(), 504 - 8 * entries.len());
    }

    #[tactic(auto, unfolding(crate::specs::AclSector::acl_sector_of))]
    fn get(from: &[u8]) -> Result<AclSector, LayoutFault>
        requires { length from.now ≡ 512 }
        ensures { result ≡ acl_sector_of from.now }
    {
        let count = u16_at(from, 0) as usize;
        if MAX_ENTRIES < count {
            return Err(LayoutFault::BadNumber);
        }
        if !are_zero(&from[2..8]) {
            return Err(LayoutFault::NotZero);
        }
        if !are_zero(&from[8 + 8 * count..]) {
            return Err(LayoutFault::NotZero);
        }
        let mut entries = [NONE; MAX_ENTRIES];
        get_entries(from, 8, &mut entries);
        Ok(AclSector { count, entries })
    }

    /// Writes the sector; `at` is 0.
    pub fn write_to(&self, to: &mut [u8; 512], at: usize)
        requires { at ≡ 0 }
        ensures { to.new ≡ acl_sector_bytes self.now }
    {
        self.put(&mut to[at..at + 512]);
    }

    /// Reads the sector; `at` is 0.
    pub fn read_from(from: &[u8; 512], at: usize) -> Result<AclSector, LayoutFault>
        requires { at ≡ 0 }
        // What is read is spelled so.
        ensures found { IfOk result (λ v. (from.now ≡ acl_sector_bytes v) × FitsAclSector v) }
        // What is spelled so is read.
        ensures only { (v : List EntryNumbers) → FitsAclSector v → from.now ≡ acl_sector_bytes v → result ≡ Ok v }
        // Which fault it is.
        ensures first_fault { result ≡ acl_sector_of from.now }
    {
        AclSector::get(&from[at..at + 512])
    }
}
