//! Which entries make a list, and the first fault of those that don't.
ghost use Rattle.std.specs.Prelude.{◌≡◌, ◌<◌, ◌^◌, All, IfOk, IfErr};
ghost use Rattle.std.specs.List.Sorted.{IsPermutation};
ghost use Rattle.posix_acl.specs.declared.fault.AclFault.TheVariants.{MissingBase, TwiceBase, TwiceQualifier, NoMask, OutOfMemory};
ghost use Rattle.posix_acl.specs.Entries.{plain_entries};
ghost use Rattle.posix_acl.specs.Faults.{count_tagged, has_fault, first_fault};
ghost use Rattle.posix_acl.specs.Order.{IsOrdered};

use crate::entry::{Entry, Tag};
use crate::fault::AclFault;
use std::alloc::{AllocError, Global};

/// The most entries that a list may have.
pub const MAX_ENTRIES: usize = 32;

/// The entries in canonical order, if they make a list at all.
pub fn sorted(alloc: Global, entries: &[Entry]) -> Result<Vec<Entry>, AclFault>
    ensures same { IfOk result (λ v. IsPermutation (plain_entries entries.now) v.items) }
    ensures order { IfOk result (λ v. IsOrdered v.items) }
    ensures fit { IfOk result (λ v. All (λ e. e.id < 2 ^ 32) v.items) }
    ensures err { IfErr result (λ fault. fault ≡ OutOfMemory) }
{
    let mut sorted = plain_copy(alloc, entries)?;
    sorted.sort_by_key(|entry| (entry.tag.number(), entry.id))?;
    Ok(sorted)
}

fn plain_copy(alloc: Global, entries: &[Entry]) -> Result<Vec<Entry>, AllocError>
    ensures plain { IfOk result (λ v. v.items ≡ plain_entries entries.now) }
    ensures fit { IfOk result (λ v. All (λ e. e.id < 2 ^ 32) v.items) }
{
    let mut copy = Vec::with_capacity(alloc, entries.len())?;
    for entry in entries {
        copy.push(entry.plain())?;
    }
    Ok(copy)
}

/// What keeps entries that stand in canonical order from being a list.
#[tactic(auto, unfolding(crate::specs::Faults::first_fault))]
pub fn first_fault(sorted: &[Entry]) -> Option<AclFault>
    requires order { IsOrdered sorted.now }
    requires fit { All (λ e. e.id < 2 ^ 32) sorted.now }
    ensures { result ≡ first_fault sorted.now }
{
    if lacks_base(sorted) {
        Some(AclFault::MissingBase)
    } else if repeats_base(sorted) {
        Some(AclFault::TwiceBase)
    } else if repeats_a_name(sorted) {
        Some(AclFault::TwiceQualifier)
    } else if lacks_mask(sorted) {
        Some(AclFault::NoMask)
    } else if count(sorted, Tag::Mask) > 1 {
        Some(AclFault::TwoMasks)
    } else if sorted.len() > MAX_ENTRIES {
        Some(AclFault::TooMany)
    } else {
        None
    }
}

fn lacks_base(entries: &[Entry]) -> bool
    ensures { result ≡ has_fault entries.now MissingBase }
{
    count(entries, Tag::UserObj) == 0
        || count(entries, Tag::GroupObj) == 0
        || count(entries, Tag::Other) == 0
}

fn repeats_base(entries: &[Entry]) -> bool
    ensures { result ≡ has_fault entries.now TwiceBase }
{
    count(entries, Tag::UserObj) > 1
        || count(entries, Tag::GroupObj) > 1
        || count(entries, Tag::Other) > 1
}

fn lacks_mask(entries: &[Entry]) -> bool
    ensures { result ≡ has_fault entries.now NoMask }
{
    count(entries, Tag::Mask) == 0
        && (count(entries, Tag::User) > 0 || count(entries, Tag::Group) > 0)
}

fn count(entries: &[Entry], tag: Tag) -> usize
    ensures { result ≡ count_tagged tag entries.now }
{
    entries.iter().filter(|entry| entry.tag.is(tag)).count()
}

// Equal names stand side by side.
fn repeats_a_name(sorted: &[Entry]) -> bool
    requires order { IsOrdered sorted.now }
    requires fit { All (λ e. e.id < 2 ^ 32) sorted.now }
    ensures { result ≡ has_fault sorted.now TwiceQualifier }
{
    for next in 1..sorted.len() {
        if sorted[next - 1].has_name_of(sorted[next]) {
            return true;
        }
    }
    false
}
