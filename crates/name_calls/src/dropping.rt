//! A name that goes, and what becomes of the node that loses it: POSIX.1-2017, unlink().

ghost use Rattle.std.specs.Prelude.{◌≡◌};
ghost use Rattle.fs_model.specs.Processes.{is_open};
ghost use Rattle.call_parts.specs.BothTables.{tables_of, users_of};
ghost use Rattle.call_parts.specs.Altering.{AltersTransaction};
ghost use Rattle.call_parts.specs.Dropping.{RemovesName};
ghost use Rattle.name_calls.specs.Dropping.{MayRemove, MayLoseName, LosesName, stays_with};

use call_parts::{Caller, drop_node, remove_name, set_names};
use fs_cred::Refusal;
use fs_layout::{Geometry, Inode, Kind};
use fs_model::Found;
use sector_txn::Sectors;

/// Removes the name that was found from its directory. EIO: the disk has failed.
pub(crate) fn remove_found<S: Sectors>(
    s: &mut S,
    geometry: Geometry,
    found: &Found,
) -> Result<(), Refusal>
    requires { MayRemove geometry found.now (S.state s.old) }
    ensures { AltersTransaction (RemovesName geometry found.now.dir_ino found.now.name) (S.state s.old) (S.state s.new) result }
{
    let name = found.name.bytes();
    remove_name(s, geometry, found.dir_ino, name)
}

// Whether inode `ino`, of this kind and with so many names left, stays.
fn stays(caller: &Caller, ino: u32, kind: Kind, names: u32) -> bool
    ensures { result ≡ stays_with kind names (is_open (users_of (tables_of caller.now)) ino) }
{
    names != 0 || kind == Kind::File && caller.is_open(ino)
}

/// Takes one name from the count of inode `ino`; where that was its last, and it is no file that is open, it is
/// dropped. EIO: the disk has failed.
pub(crate) fn lose_name<S: Sectors>(
    s: &mut S,
    caller: &Caller,
    ino: u32,
    inode: &Inode,
) -> Result<(), Refusal>
    requires { MayLoseName caller.now.geometry (S.state s.old) ino inode.now }
    ensures { AltersTransaction (LosesName caller.now.geometry ino (is_open (users_of (tables_of caller.now)) ino))
        (S.state s.old) (S.state s.new) result }
{
    let names = inode.names - 1;
    let geometry = caller.geometry;
    let stays = stays(caller, ino, inode.kind, names);
    if !stays {
        drop_node(s, geometry, ino)?;
        return Ok(());
    }
    set_names(s, geometry, ino, inode, names)?;
    Ok(())
}
