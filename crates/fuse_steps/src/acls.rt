//! ACLs: as attributes, and where they hide what is in a directory.
ghost use Rattle.std.specs.Prelude.{◌≡◌, ◌==◌, ◌&&◌, not, length, true, false};
ghost use Rattle.fs_cred.specs.Permissions.{holds};
ghost use Rattle.posix_acl.specs.Entries.{is_tag};
ghost use Rattle.posix_acl.specs.declared.entry.Tag.TheVariants.{User};
ghost use Rattle.fuse_plans.specs.Masks.{may_hide, grants_nothing, hides, told_acl};
ghost use Rattle.fuse_plans.specs.Nobody.{all_hold, entries_for, mask_holds, grants_members, grants_user, is_granted_by};
ghost use Rattle.fuse_plans.specs.AclPlans.{the_acl, acl_names, acl_size, sized, is_of_mode_alone};
ghost use Rattle.fuse_plans.specs.Works.{of_result};

use fs_model::{AclType, Bytes};
use fuse_plans::{Replied, ReplyBody, RequestError, Tried};
use posix_acl::{Acl, Entry, Perms, Tag};
use std::alloc::{AllocError, Global};

// Of a mode, what its group class and others are granted.
const GROUP_CLASS: u16 = 0o070;

const OTHERS_SEARCH: u16 = 0o001;

/// The group class is granted nothing, and others search.
pub fn may_hide(mode: u16) -> bool
    ensures { result ≡ may_hide mode }
{
    mode & GROUP_CLASS == 0 && mode & OTHERS_SEARCH != 0
}

fn grants_nothing(mask: Option<Perms>) -> bool
    ensures { result ≡ grants_nothing mask }
{
    match mask {
        Some(mask) => mask.digit() == 0,
        None => false,
    }
}

/// The mask of an access list is `---`, and others search.
pub fn hides(acl: &Option<Acl>) -> bool
    ensures { result ≡ hides acl.now }
{
    match acl {
        Some(acl) => grants_nothing(acl.mask()) && acl.other().execute,
        None => false,
    }
}

/// The ACL that an attribute is.
pub fn the_acl(name: &[u8]) -> Tried<AclType>
    ensures { the_acl name.now ≡ of_result result }
{
    if name == b"system.posix_acl_access".as_slice() {
        Ok(AclType::Access)
    } else if name == b"system.posix_acl_default".as_slice() {
        Ok(AclType::Default)
    } else {
        Err(RequestError::EOPNOTSUPP)
    }
}

/// An access ACL with three entries says no more than the mode.
pub fn told_acl(which: AclType, acl: Option<Acl>) -> Option<Acl>
    ensures { result ≡ told_acl which acl }
{
    match which {
        AclType::Access => acl.filter(|acl| acl.is_extended()),
        AclType::Default => acl,
    }
}

/// For a size of 0 how many bytes there are.
pub fn sized(size: u32, has: usize, body: ReplyBody) -> Replied
    ensures { sized size has body ≡ of_result result }
{
    if size == 0 {
        Ok(ReplyBody::Size(has))
    } else if (size as usize) < has {
        Err(RequestError::ERANGE)
    } else {
        Ok(body)
    }
}

/// Whether an access ACL is set that says no more than the mode.
pub fn is_plain(which: AclType, wanted: &Option<Acl>) -> bool
    ensures { result ≡ is_of_mode_alone which wanted.now }
{
    match which {
        AclType::Access => wanted.is_none(),
        AclType::Default => false,
    }
}

/// How many bytes the value of an attribute has.
pub fn acl_size(acl: &Acl) -> usize
    ensures { result ≡ acl_size acl.now }
{
    4 + 8 * acl.entries().len()
}

// Whether these permissions have all of what is wanted.
fn holds(perms: Perms, want: Perms) -> bool
    ensures { result ≡ holds perms want }
{
    (!want.read || perms.read) && (!want.write || perms.write) && (!want.execute || perms.execute)
}

// Whether an entry names the user.
fn is_for(uid: u32, entry: Entry) -> bool
    ensures { result ≡ (is_tag entry.tag User && entry.id == uid) }
{
    entry.tag.is(Tag::User) && entry.id == uid
}

// Whether some entry names the user.
fn is_named(uid: u32, acl: &Acl) -> bool
    ensures { result ≡ not (length (entries_for uid acl.now) == 0) }
{
    acl.entries().iter().any(|entry| is_for(uid, *entry))
}

// Whether each entry that names the user holds all of what is wanted.
fn entries_hold(uid: u32, acl: &Acl, want: Perms) -> bool
    ensures { result ≡ all_hold (entries_for uid acl.now) want }
{
    acl.entries()
        .iter()
        .all(|entry| !is_for(uid, *entry) || holds(entry.perms, want))
}

// Whether there is a mask that holds all of what is wanted.
fn mask_holds(mask: Option<Perms>, want: Perms) -> bool
    ensures { result ≡ mask_holds mask want }
{
    match mask {
        Some(mask) => holds(mask, want),
        None => false,
    }
}

// Whether a user that has an entry is granted all of what is wanted: by the entry, and by the mask.
fn grants_named(uid: u32, acl: &Acl, want: Perms) -> bool
    ensures { result ≡ (all_hold (entries_for uid acl.now) want && mask_holds acl.now.mask want) }
{
    entries_hold(uid, acl, want) && mask_holds(acl.mask(), want)
}

// Whether the members of each group, and who is in none, are granted all of what is wanted: each entry but those of the owner and of
// named users holds it, the mask among them.
fn grants_members(acl: &Acl, want: Perms) -> bool
    ensures { result ≡ grants_members acl.now want }
{
    acl.entries().iter().all(|entry| matches!(entry.tag, Tag::UserObj | Tag::User)
        || holds(entry.perms, want))
}

/// Whether a user is granted all of `want` whatever its groups and capabilities are: as the owner, as a named user, or as a member of
/// each group and of none.
pub fn grants_user(owner: u32, uid: u32, acl: &Acl, want: Perms) -> bool
    ensures { result ≡ grants_user owner uid acl.now want }
{
    if owner == uid {
        holds(acl.owner(), want)
    } else if is_named(uid, acl) {
        grants_named(uid, acl, want)
    } else {
        grants_members(acl, want)
    }
}

/// Whether a user is granted all of `want` by an access list, where there is one.
pub fn granted_by(owner: u32, uid: u32, want: Perms, acl: &Option<Acl>) -> bool
    ensures { result ≡ is_granted_by owner uid want acl.now }
{
    match acl {
        Some(acl) => grants_user(owner, uid, acl, want),
        None => false,
    }
}

// The name of the first ACL has so many bytes, and NUL.
const FIRST_NAME: usize = 24;

/// The names of both ACLs, and that of the second, each with NUL.
#[derive(Drop)]
pub struct AclNames {
    both: Vec<u8>,
    second: Vec<u8>,
    // Both texts are the names, spelled as the plan spells them.
    ghost of_both: { both.items ≡ acl_names true true },
    ghost of_second: { second.items ≡ acl_names false true },
}

impl AclNames {
    /// Asks for memory for the names.
    pub fn new(alloc: Global) -> Result<AclNames, AllocError> {
        Ok(AclNames {
            both: Vec::from_slice(
                alloc,
                b"system.posix_acl_access\0system.posix_acl_default\0",
            )?,
            second: Vec::from_slice(alloc, b"system.posix_acl_default\0")?,
        })
    }

    /// The names of those that are there.
    pub fn told(self, access: bool, default: bool) -> Bytes
        ensures { result ≡ acl_names access default }
    {
        let AclNames { both, second } = self;
        if default {
            return Bytes::new(if access { both } else { second });
        }
        let mut names = both;
        names.truncate(if access { FIRST_NAME } else { 0 });
        Bytes::new(names)
    }
}
