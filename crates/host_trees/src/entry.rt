//! What an object of the host has.
use crate::held::Identity;
use crate::lack::Lack;
use crate::owner::{Given, Owner};
use crate::times::{Times, times_of};
use std::fs::Metadata;
use std::os::unix::fs::MetadataExt;

/// The bits of a mode that a file and a link may have in a file system, and those of a directory.
pub(crate) const OF_FILES: u32 = 0o777;

pub(crate) const OF_DIRECTORIES: u32 = 0o3777;

const ALL_BITS: u32 = 0o7777;

const SET_GROUP_ID: u16 = 0o2000;

/// What was seen of an object of the host: which one it is, and what it is to have in the file system.
#[derive(Clone, Copy)]
pub(crate) struct Entry {
    pub(crate) identity: Identity,
    pub(crate) owner: Owner,
    pub(crate) times: Option<Times>,
    bits: u32,
}

impl Entry {
    /// What an object has. The user and the group are those that are given, if they are.
    pub(crate) fn of(metadata: &Metadata, given: Given) -> Entry {
        let owner = Owner {
            user: given.user.unwrap_or(metadata.uid()),
            group: given.group.unwrap_or(metadata.gid()),
        };
        Entry {
            identity: Identity::of(metadata),
            owner,
            times: times_of(metadata),
            bits: metadata.mode() & ALL_BITS,
        }
    }

    /// The mode of a directory.
    pub(crate) fn directory_mode(&self) -> u16 {
        (self.bits & OF_DIRECTORIES) as u16
    }

    /// The mode of a directory while its names are still to come: by its set-group-ID bit these would get its group.
    pub(crate) fn first_mode(&self) -> u16 {
        self.directory_mode() & !SET_GROUP_ID
    }

    /// Whether the mode of a directory waits until its names are there.
    pub(crate) fn waits(&self) -> bool {
        self.directory_mode() & SET_GROUP_ID != 0
    }

    /// The mode of a file.
    pub(crate) fn file_mode(&self) -> u16 {
        (self.bits & OF_FILES) as u16
    }

    /// What an object has and can't have in the file system, these bits being allowed.
    pub(crate) fn lack(&self, allowed: u32) -> Result<(), Lack> {
        if self.bits & allowed != self.bits {
            return Err(Lack::Bits);
        }
        if self.times.is_none() {
            return Err(Lack::Times);
        }
        Ok(())
    }
}
