//! Credentials: who asks.
ghost use Rattle.std.specs.Prelude.{◌≡◌, ◌<◌, ◌↔◌, Err, length, IfOk};
ghost use Rattle.fs_cred.specs.declared.cred.CredFault.TheVariants.{OutOfMemory, TooManyGroups};

use crate::caps::Caps;
use bitflags::Flags;
use std::alloc::{AllocError, Global};
use std::marker::Model;

/// The most groups that a credential of a script has beside its own.
pub const MAX_GROUPS: usize = 16;

/// The most that one of a process of the system has: NGROUPS_MAX of Linux.
pub const MAX_PROCESS_GROUPS: usize = 65_536;

/// Why a credential can't be made.
#[derive(Clone, Copy, Debug, PartialEq, Eq)]
pub enum CredFault {
    /// There are more supplementary groups than such a credential has.
    TooManyGroups,
    /// Memory ran out.
    OutOfMemory,
}

impl From<AllocError> for CredFault {
    ghost from_gives = { λ _ fault. fault ≡ OutOfMemory };

    fn from(_error: AllocError) -> CredFault {
        CredFault::OutOfMemory
    }
}

/// Who asks: a user, a group, supplementary groups, and capabilities.
#[derive(Drop)]
pub struct Cred {
    uid: u32,
    gid: u32,
    groups: Vec<u32>,
    caps: Caps,
}

impl Model for Cred {
    ghost use Rattle.fs_cred.specs.Credentials.{Credential, IsCredential, credential};

    ghost Value = { Credential };

    ghost view = { λ c. credential c.uid c.gid c.groups.items c.caps };

    ghost invariant = { λ c. IsCredential (credential c.uid c.gid c.groups.items c.caps) };
}

impl Cred {
    ghost use Rattle.fs_cred.specs.Credentials.{IsCredential, credential, groups_limit, is_capable, is_member, usual_credential};

    /// The credential of a user with these groups, which may hold `gid` and repeat one another. User 0 has all capabilities,
    /// and others have none.
    pub fn new(alloc: Global, uid: u32, gid: u32, groups: &[u32]) -> Result<Cred, CredFault>
        ensures ok { IfOk result (λ cred. cred ≡ usual_credential uid gid groups.now) }
        ensures many { (result ≡ Err TooManyGroups) ↔ (16 < length groups.now) }
    {
        if uid == 0 {
            return Cred::with_caps(alloc, uid, gid, groups, Caps::all());
        }
        Cred::with_caps(alloc, uid, gid, groups, Caps::empty())
    }

    /// The credential of a user with these groups, and with these capabilities and no others.
    pub fn with_caps(
        alloc: Global,
        uid: u32,
        gid: u32,
        groups: &[u32],
        caps: Caps,
    ) -> Result<Cred, CredFault>
        ensures ok { IfOk result (λ cred. cred ≡ credential uid gid groups.now caps) }
        ensures many { (result ≡ Err TooManyGroups) ↔ (16 < length groups.now) }
    {
        if groups.len() > MAX_GROUPS {
            return Err(CredFault::TooManyGroups);
        }
        Cred::of_process(alloc, uid, gid, groups, caps)
    }

    /// That of a process of the system, which may be in many more groups than one of a script.
    pub fn of_process(
        alloc: Global,
        uid: u32,
        gid: u32,
        groups: &[u32],
        caps: Caps,
    ) -> Result<Cred, CredFault>
        ensures ok { IfOk result (λ cred. cred ≡ credential uid gid groups.now caps) }
        ensures many { (result ≡ Err TooManyGroups) ↔ (groups_limit < length groups.now) }
    {
        if groups.len() > MAX_PROCESS_GROUPS {
            return Err(CredFault::TooManyGroups);
        }
        Ok(Cred {
            uid,
            gid,
            groups: Vec::from_slice(alloc, groups)?,
            caps,
        })
    }

    /// The user.
    pub fn uid(&self) -> u32
        ensures { result ≡ self.now.uid }
    {
        self.uid
    }

    /// The user's own group.
    pub fn gid(&self) -> u32
        ensures { result ≡ self.now.gid }
    {
        self.gid
    }

    /// The supplementary groups.
    pub fn groups(&self) -> &[u32]
        ensures all { result.now ≡ self.now.groups }
        ensures valid { IsCredential self.now }
    {
        &self.groups
    }

    /// The capabilities.
    pub fn caps(&self) -> Caps
        ensures { result ≡ self.now.caps }
    {
        self.caps
    }

    /// A copy of the credential.
    pub fn try_clone(&self, alloc: Global) -> Result<Cred, AllocError>
        ensures same { IfOk result (λ copy. copy ≡ self.now) }
        ensures valid { IsCredential self.now }
    {
        Ok(Cred {
            uid: self.uid,
            gid: self.gid,
            groups: Vec::from_slice(alloc, &self.groups)?,
            caps: self.caps,
        })
    }

    /// Whether all of these are among the capabilities.
    pub fn is_capable(&self, caps: Caps) -> bool
        ensures { result ≡ is_capable self.now caps }
    {
        self.caps.contains(caps)
    }

    /// Whether this is the user's own group or a supplementary one.
    pub fn is_member(&self, group: u32) -> bool
        ensures { result ≡ is_member self.now group }
    {
        self.gid == group || self.groups.iter().any(|other| *other == group)
    }
}
