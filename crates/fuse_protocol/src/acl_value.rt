//! The value of the attributes `system.posix_acl_access` and `system.posix_acl_default`.

ghost use Rattle.std.specs.Prelude.{◌≡◌, ◌≤◌, ◌+◌, ◌*◌, ◌++◌, List, length, Some, Err, IfSome, IfOk, OnOk};
ghost use Rattle.posix_acl.specs.declared.entry.Entry.{Entry};
ghost use Rattle.posix_acl.specs.AccessList.{entries_of};
ghost use Rattle.posix_acl.specs.Entries.{numbers_of};
ghost use Rattle.fuse_protocol.specs.declared.acl_value.AclValueFault.TheVariants.{Malformed};
ghost use Rattle.fuse_protocol.specs.AclValues.{numbers_at, acl_entry_bytes, acl_value_bytes, IsAclValue};

use crate::bytes::{push_u16s, push_u32s, u16_at, u32_at};
use posix_acl::{Acl, Entry, EntryNumbers};
use std::alloc::{AllocError, AllocFailed, Global};

/// Why a value says no entries.
#[derive(Clone, Copy, Debug)]
pub enum AclValueFault {
    /// The value isn't of the form.
    Malformed,
    /// Memory ran out.
    OutOfMemory,
}

impl From<AllocError> for AclValueFault {
    ghost use Rattle.std.specs.Prelude.{◌≡◌};
    ghost use Rattle.fuse_protocol.specs.declared.acl_value.AclValueFault.TheVariants.{OutOfMemory};

    ghost from_gives = { λ _ e. e ≡ OutOfMemory };

    fn from(_error: AllocError) -> AclValueFault {
        AclValueFault::OutOfMemory
    }
}

impl<T: Drop> From<AllocFailed<T>> for AclValueFault {
    ghost use Rattle.std.specs.Prelude.{◌≡◌};
    ghost use Rattle.fuse_protocol.specs.declared.acl_value.AclValueFault.TheVariants.{OutOfMemory};

    ghost from_gives = { λ _ e. e ≡ OutOfMemory };

    fn from(_error: AllocFailed<T>) -> AclValueFault {
        AclValueFault::OutOfMemory
    }
}

// The version of the form.
const ACL_VERSION: u32 = 2;

// The id of an entry that takes none.
const NO_ID: u32 = u32::MAX;

const ACL_HEADER_SIZE: usize = 4;

const ACL_ENTRY_SIZE: usize = 8;

fn push_acl_entry(to: &mut Vec<u8>, entry: Entry) -> Result<(), AllocError>
    ensures { OnOk result (to.new.items ≡ to.old.items ++ acl_entry_bytes entry) }
{
    let numbers = entry.numbers();
    let id = if entry.tag.is_named() {
        numbers.id
    } else {
        NO_ID
    };
    push_u16s(to, &[numbers.tag, numbers.perms])?;
    push_u32s(to, &[id])?;
    Ok(())
}

/// Adds the value that says the list. No memory is asked for where there is room for it.
pub fn push_acl_value(to: &mut Vec<u8>, acl: &Acl) -> Result<(), AllocError>
    ensures { OnOk result (to.new.items ≡ to.old.items ++ acl_value_bytes (entries_of acl.now)) }
{
    let entries = acl.entries();
    push_u32s(to, &[ACL_VERSION])?;
    for entry in entries {
        push_acl_entry(to, *entry)?;
    }
    Ok(())
}

/// The value that says the list.
pub fn write_acl_value(alloc: Global, acl: &Acl) -> Result<Vec<u8>, AllocError>
    ensures { IfOk result (λ value. value.items ≡ acl_value_bytes (entries_of acl.now)) }
{
    let mut value = Vec::new(alloc);
    push_acl_value(&mut value, acl)?;
    Ok(value)
}

fn entry_at(value: &[u8], at: usize) -> Option<Entry>
    requires { at + ACL_ENTRY_SIZE ≤ length value.now }
    ensures found { IfSome result (λ e. numbers_of e ≡ numbers_at value.now at) }
    ensures only { (e : Entry) → numbers_of e ≡ numbers_at value.now at → result ≡ Some e }
{
    Entry::from_numbers(EntryNumbers {
        tag: u16_at(value, at),
        perms: u16_at(value, at + 2),
        id: u32_at(value, at + 4),
    })
}

/// The entries that the value says, in its order; the id of an entry that takes none isn't looked at by
/// [`Acl::from_entries`], which tells whether they make a list. The value without entries asks that there be none.
pub fn read_acl_value(alloc: Global, value: &[u8]) -> Result<Vec<Entry>, AclValueFault>
    ensures found { IfOk result (λ entries. IsAclValue value.now entries.items) }
    ensures malformed { result ≡ Err Malformed → (es : List Entry) → IsAclValue value.now es → ⊥ }
{
    if value.len() < ACL_HEADER_SIZE || u32_at(value, 0) != ACL_VERSION {
        return Err(AclValueFault::Malformed);
    }
    let size = value.len() - ACL_HEADER_SIZE;
    if size % ACL_ENTRY_SIZE != 0 {
        return Err(AclValueFault::Malformed);
    }
    let count = size / ACL_ENTRY_SIZE;
    let mut entries = Vec::with_capacity(alloc, count)?;
    for i in 0..count {
        let Some(entry) = entry_at(value, ACL_HEADER_SIZE + ACL_ENTRY_SIZE * i) else {
            return Err(AclValueFault::Malformed);
        };
        entries.push(entry)?;
    }
    Ok(entries)
}
