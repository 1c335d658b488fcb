//! ACLs as the contents of sectors.

ghost use Rattle.std.specs.Prelude.{◌≡◌, ◌+◌, ◌*◌, ◌/◌, IfOk};
ghost use Rattle.std.specs.Option.{option_copied, option_map};
ghost use Rattle.posix_acl.specs.AccessList.{AccessList, IsAcl, IsSomeAcl, mode_bits};
ghost use Rattle.fs_layout.specs.AclSector.{acl_content, kept_acl};

use fs_layout::AclSector;
use posix_acl::{Acl, AclFault, Entry, EntryNumbers, MAX_ENTRIES};
use std::alloc::{AllocError, Global};

// The sector of an ACL.
pub(crate) fn sector_of(acl: &Acl) -> [u8; 512]
    ensures content { result ≡ acl_content acl.now }
    ensures valid { IsAcl acl.now }
{
    let entries = acl.entries();
    let mut numbers = [EntryNumbers {
        tag: 0,
        perms: 0,
        id: 0,
    }; MAX_ENTRIES];
    for i in 0..entries.len() {
        numbers[i] = entries[i].numbers();
    }
    let mut content = [0; 512];
    AclSector::new(&numbers[..entries.len()]).write_to(&mut content, 0);
    content
}

// The sector of an ACL, where there is one.
pub(crate) fn content_of(acl: Option<&Acl>) -> Option<[u8; 512]>
    ensures content { result ≡ option_map acl_content (option_copied acl.entry) }
    ensures valid { IsSomeAcl (option_copied acl.entry) }
{
    match acl {
        Some(acl) => Some(sector_of(acl)),
        None => None,
    }
}

// The sector that an access ACL has: none where it is no more than mode bits.
pub(crate) fn kept_content(acl: &Acl) -> Option<[u8; 512]>
    ensures content { result ≡ option_map acl_content (kept_acl acl.now) }
    ensures valid { IsAcl acl.now }
{
    // That the list is valid is said with its entries.
    let _entries = acl.entries();
    if acl.is_extended() {
        Some(sector_of(acl))
    } else {
        None
    }
}

// The mode whose low nine bits are those of the ACL.
pub(crate) fn with_bits(mode: u16, acl: &Acl) -> u16
    ensures { result ≡ 512 * (mode / 512) + mode_bits acl.now }
{
    512 * (mode / 512) + acl.mode_bits()
}

// The ACL that a sector has.
pub(crate) fn acl_of(alloc: Global, content: &[u8; 512]) -> Result<Acl, AllocError>
    requires { (a : AccessList) × IsAcl a × (content.now ≡ acl_content a) }
    ensures { IfOk result (λ acl. (a : AccessList) → IsAcl a → content.now ≡ acl_content a → acl ≡ a) }
{
    let Ok(sector) = AclSector::read_from(content, 0) else {
        unreachable!()
    };
    let mut entries = Vec::with_capacity(alloc, MAX_ENTRIES)?;
    for numbers in sector.entries() {
        let Some(entry) = Entry::from_numbers(*numbers) else {
            unreachable!()
        };
        entries.push(entry)?;
    }
    match Acl::from_entries(alloc, &entries) {
        Ok(acl) => Ok(acl),
        Err(fault) => match fault {
            AclFault::OutOfMemory => Err(AllocError),
            _ => unreachable!(),
        },
    }
}
