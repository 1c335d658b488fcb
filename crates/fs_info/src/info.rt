//! What a disk says of itself.

ghost use Rattle.std.specs.Prelude.{◌≡◌, IfOk, IfErr};
ghost use Rattle.fs_model.specs.Summaries.{some_target};
ghost use Rattle.sector_disk.specs.Disk.{OnlyReads};
ghost use Rattle.fs_check.specs.Checks.{BeginsWith};
ghost use Rattle.fs_info.specs.Infos.{IsInfo, IsWhyNoInfo};

use crate::counting::count_clear;
use crate::faults::InfoFault;
use crate::opening::{Opened, open_commit, open_geometry};
use fs_layout::Geometry;
use sector_disk::Disk;

/// What a disk says of itself.
#[derive(Clone, Copy)]
pub struct Info {
    /// The layout: version, size, inodes.
    pub geometry: Geometry,
    /// The data sectors whose bit is clear, as a waiting commit has them.
    pub free_sectors: u32,
    /// The inodes whose bit is clear, as a waiting commit has them.
    pub free_inodes: u32,
    /// A commit waits: it is sealed, and its sectors are still to be written.
    pub pending: bool,
}

/// Reads what a disk says of itself. Whether the disk obeys the other rules isn't asked.
pub fn read_info<D: Disk>(disk: &mut D) -> Result<Info, InfoFault>
    ensures info { IfOk result (IsInfo (D.state disk.old)) }
    ensures fault { IfErr result (IsWhyNoInfo (D.state disk.old) (D.state disk.new)) }
    ensures reads { OnlyReads (D.state disk.old) (D.state disk.new) }
{
    let geometry = open_geometry(disk)?;
    let (area, commit) = open_commit(disk, geometry)?;
    let opened = Opened {
        geometry,
        area,
        commit,
    };
    count_free(disk, &opened)
}

// What is free, and whether a commit waits.
fn count_free<D: Disk>(disk: &mut D, opened: &Opened) -> Result<Info, InfoFault>
    requires { BeginsWith (D.state disk.old) opened.now.geometry opened.now.area opened.now.commit }
    ensures info { IfOk result (IsInfo (D.state disk.old)) }
    ensures fault { IfErr result (IsWhyNoInfo (D.state disk.old) (D.state disk.new)) }
    ensures reads { OnlyReads (D.state disk.old) (D.state disk.new) }
{
    let geometry = opened.geometry;
    let free_sectors = count_clear(
        disk,
        opened,
        geometry.block_bitmap,
        geometry.first_data,
        geometry.sectors,
    )?;
    let free_inodes = count_clear(disk, opened, geometry.inode_bitmap, 0, geometry.inodes)?;
    Ok(Info {
        geometry,
        free_sectors,
        free_inodes,
        pending: has_targets(opened.commit.targets()),
    })
}

fn has_targets(targets: &[u32]) -> bool
    ensures { result ≡ some_target targets.now }
{
    !targets.is_empty()
}
