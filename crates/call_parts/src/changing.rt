//! The smallest changes of a tree: names in directories, counts of names, what becomes of an inode that nothing names and
//! nobody has open, and times that move once all else is done.

ghost use Rattle.std.specs.Prelude.{◌≡◌, ◌<◌, ◌≢◌, OnOk, IfErr};
ghost use Rattle.fs_layout.specs.Images.{inode_at};
ghost use Rattle.sector_txn.specs.Sectors.{SameStore};
ghost use Rattle.bit_alloc.specs.Inodes.{IsSound};
ghost use Rattle.bit_alloc.specs.Bitmaps.{IsNumber};
ghost use Rattle.path_walk.specs.Answers.{FailsToRead};
ghost use Rattle.call_parts.specs.Altering.{MayAlter, AltersDisk, AltersTransaction};
ghost use Rattle.call_parts.specs.NewNodes.{HasName, MayBeNamed, NamesInode};
ghost use Rattle.call_parts.specs.Dropping.{RemovesName, Drops, LeavesInode, Counts};
ghost use Rattle.bit_alloc.specs.declared.bitmap.Bitmap.TheVariants.{Inodes};
ghost use Rattle.bit_alloc.specs.Room.{HasSpare};
ghost use Rattle.call_parts.specs.UsedInode.{IsUsedInode};
ghost use Rattle.fs_model.specs.StoredStamps.{stamps_in};
ghost use Rattle.fs_model.specs.TreeChanges.{touch_at};
ghost use Rattle.call_parts.specs.Times.{with_times, MovesTime, MayMoveTimes, MovesTimes};

use block_map::free_all;
use dir_core::{insert_new, remove};
use fs_cred::{Errno, Refusal};
use fs_layout::{Geometry, Inode, Kind};
use fs_model::Touch;
use inode_table::{load_with_content, save, save_times};
use path_walk::load_inode;
use sector_txn::Sectors;

/// Gives inode `ino` a name in directory `dir_ino`, where there is room for it. EIO: the disk has failed.
pub fn name_inode<S: Sectors>(
    s: &mut S,
    geometry: Geometry,
    dir_ino: u32,
    directory: Inode,
    name: &[u8],
    ino: u32,
) -> Result<(), Refusal>
    requires ready { MayAlter geometry 4 (S.state s.old) }
    requires inode { directory ≡ inode_at geometry (S.state s.old).sectors dir_ino }
    requires room { MayBeNamed geometry (S.state s.old).sectors dir_ino name.now }
    ensures { AltersDisk geometry 4 (λ done. NamesInode geometry dir_ino name.now ino) (S.state s.old) (S.state s.new) result }
{
    let mut directory = directory;
    match insert_new(s, geometry, dir_ino, &mut directory, name, ino) {
        Ok(()) => Ok(()),
        Err(_) => Err(Refusal::Failed(Errno::EIO)),
    }
}

/// Removes a name from directory `dir_ino`. EIO: the disk has failed.
pub fn remove_name<S: Sectors>(
    s: &mut S,
    geometry: Geometry,
    dir_ino: u32,
    name: &[u8],
) -> Result<(), Refusal>
    requires ready { MayAlter geometry 5 (S.state s.old) }
    requires below { dir_ino < geometry.inodes }
    requires named { HasName geometry (S.state s.old).sectors dir_ino name.now }
    ensures { AltersTransaction (RemovesName geometry dir_ino name.now) (S.state s.old) (S.state s.new) result }
{
    let mut directory = load_inode(s, geometry, dir_ino)?;
    match remove(s, geometry, dir_ino, &mut directory, name) {
        Ok(()) => Ok(()),
        Err(_) => Err(Refusal::Failed(Errno::EIO)),
    }
}

/// Frees inode `ino`, which nothing names and nobody has open: a file or a directory with its bytes and ACLs, a link
/// with its target. EIO: the disk has failed.
pub fn drop_node<S: Sectors>(s: &mut S, geometry: Geometry, ino: u32) -> Result<(), Refusal>
    requires ready { MayAlter geometry 1 (S.state s.old) }
    requires number { IsNumber geometry Inodes ino }
    requires used { (inode_at geometry (S.state s.old).sectors ino).kind ≢ Kind.Free }
    ensures { AltersTransaction (Drops geometry ino) (S.state s.old) (S.state s.new) result }
{
    match free_all(s, geometry, ino) {
        Ok(()) => Ok(()),
        Err(_) => Err(Refusal::Failed(Errno::EIO)),
    }
}

/// Frees inode `ino`, of which a descriptor goes, unless it stays open, has a name, or was freed before. EIO: the disk
/// has failed.
pub fn leave<S: Sectors>(
    s: &mut S,
    geometry: Geometry,
    ino: u32,
    stays_open: bool,
) -> Result<(), Refusal>
    requires sound { IsSound geometry (S.state s.old) }
    requires number { IsNumber geometry Inodes ino }
    requires spare { HasSpare geometry 1 (S.state s.old) }
    ensures store { SameStore (S.state s.old) (S.state s.new) }
    ensures leaves { OnOk result (LeavesInode geometry ino stays_open (S.state s.old) (S.state s.new)) }
    ensures fault { IfErr result (FailsToRead (S.state s.old).disk (S.state s.new).disk) }
{
    if stays_open {
        return Ok(());
    }
    let inode = load_inode(s, geometry, ino)?;
    if inode.names != 0 {
        return Ok(());
    }
    if inode.kind == Kind::Free {
        return Ok(());
    }
    drop_node(s, geometry, ino)?;
    Ok(())
}

/// Gives inode `ino`, which is used, another count of names. EIO: the disk has failed.
pub fn set_names<S: Sectors>(
    s: &mut S,
    geometry: Geometry,
    ino: u32,
    inode: &Inode,
    names: u32,
) -> Result<(), Refusal>
    requires loaded { IsUsedInode geometry (S.state s.old) ino inode.now }
    requires spare { HasSpare geometry 1 (S.state s.old) }
    ensures { AltersTransaction (Counts geometry ino names) (S.state s.old) (S.state s.new) result }
{
    let counted = Inode { names, ..*inode };
    match save(s, geometry, ino, &counted) {
        Ok(()) => Ok(()),
        Err(_) => Err(Refusal::Failed(Errno::EIO)),
    }
}

// The inode with the times that it has then.
fn with_touch(inode: &Inode, touch: Touch, now: u64) -> Inode
    ensures { result ≡ with_times inode.now (touch_at now touch (stamps_in inode.now)) }
{
    match touch {
        Touch::Untouched => *inode,
        Touch::Changed => Inode {
            ctime: now,
            ..*inode
        },
        Touch::Modified => Inode {
            mtime: now,
            ctime: now,
            ..*inode
        },
        Touch::Born => Inode {
            atime: now,
            mtime: now,
            ctime: now,
            ..*inode
        },
    }
}

// Moves these times of inode `ino`, if it is used. EIO: the disk has failed.
fn touch_inode<S: Sectors>(
    s: &mut S,
    geometry: Geometry,
    ino: u32,
    touch: Touch,
    now: u64,
) -> Result<(), Refusal>
    requires ready { MayAlter geometry 1 (S.state s.old) }
    requires below { ino < geometry.inodes }
    ensures { AltersDisk geometry 1 (λ done. MovesTime geometry now ino touch) (S.state s.old) (S.state s.new) result }
{
    let mut content = [0; 512];
    let Ok(inode) = load_with_content(s, geometry, ino, &mut content) else {
        return Err(Refusal::Failed(Errno::EIO));
    };
    if inode.kind == Kind::Free {
        return Ok(());
    }
    let touched = with_touch(&inode, touch, now);
    save_times(s, geometry, ino, &touched, &mut content);
    Ok(())
}

/// Moves times of these inodes to the present, one after another, of those that are used: nothing is left of what went with its
/// last name. EIO: the disk has failed.
pub fn touch<S: Sectors>(
    s: &mut S,
    geometry: Geometry,
    now: u64,
    touches: &[(u32, Touch)],
) -> Result<(), Refusal>
    requires { MayMoveTimes geometry touches.now (S.state s.old) }
    ensures { AltersTransaction (MovesTimes geometry now touches.now) (S.state s.old) (S.state s.new) result }
{
    if !geometry.version.keeps_times() {
        return Ok(());
    }
    for (ino, touch) in touches {
        touch_inode(s, geometry, *ino, *touch, now)?;
    }
    Ok(())
}
