//! What access lists leave to an object where there are modes alone.
ghost use Rattle.fs_model.specs.Reading.{IsReading};
ghost use Rattle.host_trees.specs.Copies.{Asks};

use crate::asker::Asker;
use crate::file_system::FileSystem;
use crate::lack::Lack;
use crate::place::Place;
use fs_model::{AclType, FileType, Status};
use posix_acl::{Acl, Tag};

// The bits of a mode that stand for the owning group, or for the mask of a list.
const GROUP_BITS: u16 = 0o070;

/// What an object gets on the host.
#[derive(Clone, Copy)]
pub(crate) struct Grants {
    pub(crate) mode: u16,
    has_list: bool,
}

impl Grants {
    // Where there is no list the mode says all.
    fn by_mode(mode: u16) -> Grants {
        Grants {
            mode,
            has_list: false,
        }
    }

    /// What the object has and the host doesn't keep.
    pub(crate) fn lack(self) -> Result<(), Lack> {
        if self.has_list {
            Err(Lack::List)
        } else {
            Ok(())
        }
    }
}

/// What an object gets on the host: its mode, where the group has no more than its own entry of the list gives it.
pub(crate) fn grants_of<M: FileSystem>(
    asker: &mut Asker<M>,
    place: Place<'_>,
    status: Status,
) -> Result<Grants, Lack>
    ensures { Asks M.Serves IsReading asker.old.machine asker.new.machine asker.old.is_whole asker.new.is_whole }
{
    if let FileType::Link = status.kind {
        return Ok(Grants::by_mode(status.mode));
    }
    let on_access = place.list(asker, AclType::Access)?;
    let mut grants = match on_access {
        Some(acl) => grants_under(&acl, status.mode),
        None => Grants::by_mode(status.mode),
    };
    if let FileType::File = status.kind {
        return Ok(grants);
    }
    // A directory may have a list for new objects besides.
    let for_new = place.list(asker, AclType::Default)?;
    if for_new.is_some() {
        grants.has_list = true;
    }
    Ok(grants)
}

// Where the list has a mask, this stands in the mode in place of the group's entry.
fn grants_under(acl: &Acl, mode: u16) -> Grants {
    if !acl.is_extended() {
        return Grants::by_mode(mode);
    }
    Grants {
        mode: mode & (!GROUP_BITS | group_digit(acl) << 3),
        has_list: true,
    }
}

// What the entry of the owning group gives.
fn group_digit(acl: &Acl) -> u16 {
    let mut digit = 0;
    for entry in acl.entries() {
        if entry.tag.is(Tag::GroupObj) {
            digit = entry.perms.digit();
        }
    }
    digit
}
