//! What is known of a process that asks.
ghost use Rattle.std.specs.Prelude.{◌≡◌, ◌++◌, ◌∷◌, [], None, Some, OnOk};
ghost use Rattle.fs_cred.specs.Capabilities.{no_caps};

use bitflags::Flags;
use fs_cred::Caps;
use fuse_protocol::Time;
use std::alloc::{AllocError, Global};
use std::marker::Model;

/// Supplementary groups, however many. Contracts see a list.
#[derive(Drop)]
pub struct Groups {
    ids: Vec<u32>,
}

impl Model for Groups {
    ghost use Rattle.std.specs.Prelude.{ℕ, List};

    ghost Value = { List ℕ };

    ghost view = { λ groups. groups.ids.items };
}

impl Groups {
    /// No groups.
    pub fn new(alloc: Global) -> Groups
        ensures { result ≡ [] }
    {
        Groups {
            ids: Vec::new(alloc),
        }
    }

    /// One more group, behind the others.
    pub fn push(&mut self, id: u32) -> Result<(), AllocError>
        ensures { OnOk result (self.new ≡ self.old ++ id ∷ []) }
    {
        self.ids.push(id)?;
        Ok(())
    }

    /// The groups.
    pub fn ids(&self) -> &[u32]
        ensures { result.now ≡ self.now }
    {
        &self.ids
    }
}

/// What is known of a process.
#[derive(Drop)]
pub struct Caller {
    /// None where not all of them are known.
    pub groups: Option<Groups>,
    pub caps: Caps,
}

impl Caller {
    /// Of a process that can't be seen nothing is known.
    pub fn unknown() -> Caller
        ensures groups { result.groups ≡ None }
        ensures caps { result.caps ≡ no_caps }
    {
        Caller {
            groups: None,
            caps: Caps::empty(),
        }
    }

    /// Of a process whose groups and capabilities don't count neither is learnt.
    pub fn user_alone(alloc: Global) -> Caller
        ensures groups { result.groups ≡ Some [] }
        ensures caps { result.caps ≡ no_caps }
    {
        Caller {
            groups: Some(Groups::new(alloc)),
            caps: Caps::empty(),
        }
    }
}

/// Who asks, as far as that counts, and when.
#[derive(Drop)]
pub(crate) struct Asker {
    pub(crate) caller: Caller,
    pub(crate) needs_nobody: bool,
    pub(crate) time: Time,
}
