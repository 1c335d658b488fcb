//! Links: each is made with its target.

ghost use Rattle.std.specs.Prelude.{◌≡◌, ◌≤◌, ◌⊎◌, length, IfOk, IfErr, OnOk, IsTrue};
ghost use Rattle.fs_layout.specs.Images.{HasNoHole, Holds, bit, free_sectors, inode_at};
ghost use Rattle.bit_alloc.specs.Room.{HasSpare};
ghost use Rattle.sector_txn.specs.Sectors.{SameStore};
ghost use Rattle.bit_alloc.specs.Faults.{HasCauseOf};
ghost use Rattle.bit_alloc.specs.declared.bitmap.Bitmap.TheVariants.{Inodes};
ghost use Rattle.bit_alloc.specs.Bitmaps.{IsFreeNumber, free_numbers};
ghost use Rattle.bit_alloc.specs.Inodes.{Touches, IsSound};
ghost use Rattle.inode_table.specs.Inodes.{ClearAreFree};
ghost use Rattle.block_map.specs.Contents.{AllowsSize};
ghost use Rattle.block_map.specs.Links.{IsNewLink, HasNoAcls};

use crate::blocks::BLOCK;
use crate::steps::take_sector;
use bit_alloc::{Bitmap, TakeFault, take};
use fs_layout::{Geometry, Inode, Kind};
use inode_table::write_inode;
use sector_txn::Sectors;

/// Makes a link with this target, of 1 to 512 bytes, which take one sector: a free inode gets the fields. It is the lowest
/// one, which no clause says. What the target's bytes are is not looked at.
pub fn new_link<S: Sectors>(
    s: &mut S,
    geometry: Geometry,
    uid: u32,
    gid: u32,
    target: &[u8],
) -> Result<u32, TakeFault>
    requires sound { IsSound geometry (S.state s.old) }
    requires clear { ClearAreFree geometry (S.state s.old).sectors }
    requires target { AllowsSize Kind.Link (length target.now) }
    requires spare { HasSpare geometry 2 (S.state s.old) }
    ensures store { SameStore (S.state s.old) (S.state s.new) }
    ensures sound { OnOk result (IsSound geometry (S.state s.new)) }
    ensures free { IfOk result (IsFreeNumber geometry Inodes (S.state s.old).sectors) }
    ensures used { IfOk result (λ n. IsTrue (bit (S.state s.new).sectors geometry.inode_bitmap n)) }
    ensures touches { IfOk result (λ n. Touches geometry n 1 2 (S.state s.old) (S.state s.new)) }
    ensures fields { IfOk result (λ n. IsNewLink uid gid (inode_at geometry (S.state s.new).sectors n)) }
    ensures acls { IfOk result (λ n. HasNoAcls (inode_at geometry (S.state s.new).sectors n)) }
    ensures holds { IfOk result (λ n. Holds (S.state s.new).sectors (inode_at geometry (S.state s.new).sectors n) target.now) }
    ensures whole { IfOk result (λ n. HasNoHole (S.state s.new).sectors (inode_at geometry (S.state s.new).sectors n)) }
    ensures full { IfErr result (λ e. e ≡ TakeFault.Full → (free_numbers geometry Inodes (S.state s.old).sectors ≡ 0)
        ⊎ (free_sectors geometry (S.state s.old).sectors ≡ 0)) }
    ensures cause { HasCauseOf TakeFault.DiskFault (S.state s.old).disk (S.state s.new).disk result }
{
    let ino = take(s, geometry, Bitmap::Inodes, 0)?;
    let mut content = [0; BLOCK];
    (&mut content[..target.len()]).copy_from_slice(target);
    let mut link = Inode {
        kind: Kind::Link,
        mode: 0o777,
        uid,
        gid,
        names: 1,
        size: target.len() as u64,
        ..Inode::FREE
    };
    link.direct[0] = take_sector(s, geometry, 0, &content)?;
    write_inode(s, geometry, ino, &link)?;
    Ok(ino)
}
