//! A valid access control list, and what is read off it and made of it.
ghost use Rattle.std.specs.Prelude.{◌≡◌, ◌≢◌, OnOk, IfOk, IfErr};

use crate::entry::{Entry, Perms, Tag};
use crate::fault::AclFault;
use crate::validity::{first_fault, sorted};
use std::alloc::Global;
use std::marker::Model;

/// A valid access control list: the three base entries, users and groups by name, and a mask
/// where there is a name.
#[derive(Drop)]
pub struct Acl {
    entries: Vec<Entry>,
}

impl Model for Acl {
    ghost use Rattle.posix_acl.specs.AccessList.{AccessList};

    ghost Value = { AccessList };

    ghost use Rattle.posix_acl.specs.Stored.{access_list, IsCanonical};

    ghost view = { λ a. access_list a.entries.items };

    ghost invariant = { λ a. IsCanonical a.entries.items };
}

impl Acl {
    ghost use Rattle.posix_acl.specs.AccessList.{entries_of, IsAcl, group_class, mode_bits, with_classes, with_mode_bits, inherited, minimal, is_extended, list_numbers, AccessList};
    ghost use Rattle.posix_acl.specs.Entries.{plain_entries};
    ghost use Rattle.posix_acl.specs.Faults.{first_fault, IsListOf};
    ghost use Rattle.posix_acl.specs.declared.fault.AclFault.TheVariants.{OutOfMemory};

    /// The list that says the same as nine permission bits: the three base entries.
    pub fn from_mode(alloc: Global, mode: u16) -> Result<Acl, AclFault>
        ensures ok { IfOk result (λ acl. acl ≡ minimal mode) }
        ensures err { IfErr result (λ fault. fault ≡ OutOfMemory) }
    {
        let base = |tag, perms| Entry { tag, id: 0, perms };
        let mut entries = Vec::with_capacity(alloc, 3)?;
        entries.push(base(Tag::UserObj, Perms::from_digit(mode / 64)))?;
        entries.push(base(Tag::GroupObj, Perms::from_digit(mode / 8)))?;
        entries.push(base(Tag::Other, Perms::from_digit(mode)))?;
        Ok(Acl { entries })
    }

    /// The list of these entries, which may stand in any order. The id of an entry that is not
    /// `User` or `Group` is taken as 0.
    pub fn from_entries(alloc: Global, entries: &[Entry]) -> Result<Acl, AclFault>
        ensures made { IfOk result (IsListOf entries.now) }
        ensures only { IfOk result (λ acl. (a : AccessList) → IsListOf entries.now a → a ≡ acl) }
        ensures ok { OnOk result (first_fault (plain_entries entries.now) ≡ None) }
        ensures err { IfErr result (λ fault. fault ≢ OutOfMemory → first_fault (plain_entries entries.now) ≡ Some fault) }
    {
        let entries = sorted(alloc, entries)?;
        match first_fault(&entries) {
            Some(fault) => Err(fault),
            None => Ok(Acl { entries }),
        }
    }

    /// The entries in canonical order: the owner's, the users' by rising id, the owning group's,
    /// the groups' by rising id, the mask, that of others.
    pub fn entries(&self) -> &[Entry]
        ensures all { result.now ≡ entries_of self.now }
        ensures valid { IsAcl self.now }

        // The entries make this list again, and so do their numbers.
        ensures plain { plain_entries result.now ≡ result.now }
        ensures faultless { first_fault result.now ≡ None }
        ensures only { (a : AccessList) → IsListOf result.now a → a ≡ self.now }
        ensures numbers { (a : AccessList) → list_numbers a ≡ list_numbers self.now → a ≡ self.now }
    {
        &self.entries
    }

    /// What the file's owner may do.
    pub fn owner(&self) -> Perms
        ensures { result ≡ self.now.owner }
    {
        let owner = &self.entries[0];
        owner.perms
    }

    /// What the group bits of the file show: the mask, or the owning group where there is none.
    pub fn group_class(&self) -> Perms
        ensures { result ≡ group_class self.now }
    {
        self.entries[self.entries.len() - 2].perms
    }

    /// The most that named entries and the owning group give, where there is a mask.
    pub fn mask(&self) -> Option<Perms>
        ensures { result ≡ self.now.mask }
    {
        for entry in &self.entries {
            if entry.tag.is(Tag::Mask) {
                return Some(entry.perms);
            }
        }
        None
    }

    /// What everyone else may do.
    pub fn other(&self) -> Perms
        ensures { result ≡ self.now.other }
    {
        self.entries[self.entries.len() - 1].perms
    }

    /// Whether there is more than the three base entries, and so more than mode bits can say.
    pub fn is_extended(&self) -> bool
        ensures { result ≡ is_extended self.now }
    {
        self.entries.len() > 3
    }

    /// The nine permission bits of the file.
    pub fn mode_bits(&self) -> u16
        ensures { result ≡ mode_bits self.now }
    {
        64 * self.owner().digit() + 8 * self.group_class().digit() + self.other().digit()
    }

    /// The list after these permission bits are given. Named entries stay as they are, and so does
    /// the owning group's where there is a mask.
    pub fn with_mode_bits(self, mode: u16) -> Acl
        ensures { result ≡ with_mode_bits self mode }
    {
        self.with_classes(
            Perms::from_digit(mode / 64),
            Perms::from_digit(mode / 8),
            Perms::from_digit(mode),
        )
    }

    /// What a new file takes from this default list when it is made with a mode. The umask has no
    /// say in it.
    pub fn inherit(&self, mode: u16) -> Result<Acl, AclFault>
        ensures ok { IfOk result (λ acl. acl ≡ inherited self.now mode) }
        ensures err { IfErr result (λ fault. fault ≡ OutOfMemory) }
    {
        let copy = Acl {
            entries: Vec::from_slice(self.allocator(), &self.entries)?,
        };
        Ok(copy.with_classes(
            self.owner().and(Perms::from_digit(mode / 64)),
            self.group_class().and(Perms::from_digit(mode / 8)),
            self.other().and(Perms::from_digit(mode)),
        ))
    }

    /// Where the list's memory comes from.
    pub fn allocator(&self) -> Global {
        *self.entries.allocator()
    }

    // The entry before the last is the mask, or the owning group's where there is no mask.
    fn with_classes(mut self, owner: Perms, group: Perms, other: Perms) -> Acl
        ensures { result ≡ with_classes self owner group other }
    {
        let count = self.entries.len();
        self.entries[0].perms = owner;
        self.entries[count - 2].perms = group;
        self.entries[count - 1].perms = other;
        self
    }
}
